//! Laws of what is left.
ghost use Rattle.std.specs.Prelude.{◌≡◌, ◌+◌, ℕ, List, length, true};
ghost use Rattle.std.specs.List.{count_by};
ghost use Rattle.office_types.specs.Block.{Range};
ghost use Rattle.office_types.specs.Free.{has_form, is_taken};
ghost use Rattle.office_types.specs.declared.free.NumberForm.{NumberForm};
ghost use Rattle.office_blocks.specs.Blocks.{free_numbers, numbers_in};
ghost use Rattle.page_numbers.specs.Tally.{held_in, live_in};

/// Each number of a block is live, held or free, and no two of these, where all live numbers are taken.
pub fn counts_are_all()
    ensures { (live taken : List ℕ) (b : Range) (form : NumberForm)
        → ((n : ℕ) → is_taken n live ≡ true → is_taken n taken ≡ true)
        → live_in live form b + held_in live taken form b + length (free_numbers taken b form)
        ≡ count_by (has_form form) (numbers_in b) }
{}
