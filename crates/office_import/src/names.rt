//! Sets of names.
ghost use Rattle.std.specs.Prelude.{◌≡◌, ℕ, List, IfOk};
ghost use Rattle.std.specs.BTreeSet.{contains};
ghost use Rattle.base.specs.Keyed.{text_cmp};
ghost use Rattle.dbc_words.specs.Named.{has_name};
ghost use Rattle.office_rules.specs.Facts.{live_name};

use base::Copying;
use dbc_words::{Name, Named};
use office_types::LiveMessage;
use std::alloc::{AllocError, Global};
use std::collections::BTreeSet;

/// The names of the live messages.
pub(crate) fn live_names(alloc: Global, live: &[LiveMessage]) -> Result<BTreeSet<Name>, AllocError>
    ensures { IfOk result (λ names. (n : List ℕ)
        → contains text_cmp names n ≡ has_name live_name live.now n) }
{
    let mut names = BTreeSet::new(alloc);
    for one in live {
        names.insert(one.message.name.duplicate(alloc)?)?;
    }
    Ok(names)
}

/// The names of the things.
pub(crate) fn names_of<T: Named>(alloc: Global, things: &[T]) -> Result<BTreeSet<Name>, AllocError>
    ensures { IfOk result (λ names. (n : List ℕ)
        → contains text_cmp names n ≡ has_name T.name_of things.now n) }
{
    let mut names = BTreeSet::new(alloc);
    for thing in things {
        names.insert(thing.name().duplicate(alloc)?)?;
    }
    Ok(names)
}
