//! Laws of what is left of a block.
ghost use Rattle.std.specs.Prelude.{◌≡◌, ◌∷◌, [], ℕ, List, option_map, slice_get};
ghost use Rattle.office_rules.specs.Facts.{numbers_of};
ghost use Rattle.office_types.specs.Block.{Range};
ghost use Rattle.office_types.specs.Free.{least_free};
ghost use Rattle.office_types.specs.declared.free.NumberForm.{NumberForm};
ghost use Rattle.office_blocks.specs.Blocks.{runs_in};

/// The first run of a block's free numbers of a form begins with the number that a command which takes one of them is
/// given. No run is left where that command finds no number.
pub fn first_run_is_next()
    ensures { (taken : List ℕ) (b : Range) (form : NumberForm)
        → option_map (λ r. r.first) (slice_get (runs_in taken b form) 0)
        ≡ least_free taken (numbers_of b ∷ []) form }
{}
