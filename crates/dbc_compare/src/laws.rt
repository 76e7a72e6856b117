//! Laws of differences.
ghost use Rattle.dbc_compare.specs.Laws.{IsSwapped, ListTellsApart, TellsApart};

use dbc_sheet::{Sheet, sheets_are_well_formed};

/// There is no difference of two sheets if and only if they are equal. The function does nothing.
pub fn differences_tell_apart(old: &Sheet, new: &Sheet)
    ensures { TellsApart old.now new.now }
{
    sheets_are_well_formed(old);
    sheets_are_well_formed(new);
}

/// The list of the differences of two sheets, as lines or as JSON, says that there are none if and only if the sheets
/// are equal. The function does nothing.
pub fn list_tells_apart(old: &Sheet, new: &Sheet)
    ensures { ListTellsApart old.now new.now }
{
    differences_tell_apart(old, new);
}

/// Each difference has its opposite the other way round: what was added is removed, and what a field had is what it
/// has. The function does nothing.
pub fn differences_are_swapped(old: &Sheet, new: &Sheet)
    ensures { IsSwapped old.now new.now }
{
    sheets_are_well_formed(old);
    sheets_are_well_formed(new);
}
