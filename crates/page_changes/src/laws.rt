//! What is so of all differences.
ghost use Rattle.dbc_compare.specs.Differences.{differences};
ghost use Rattle.page_changes.specs.Changes.{AreRising};

use dbc_sheet::Sheet;

/// The differences of two sheets come in order: those of messages last, by number. This function does nothing.
pub fn differences_rise(old: &Sheet, new: &Sheet)
    ensures { AreRising (differences old.now new.now) }
{
    let _ = old.messages();
    let _ = new.messages();
}
