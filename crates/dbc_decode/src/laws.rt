//! The laws of what a receiver reads.
ghost use Rattle.dbc_decode.specs.Laws.{BreakingNone, LayoutsTellApart, UnmarkedFramesAreRead, UnmarkedIsRead};
ghost use Rattle.dbc_decode.specs.Marks.{MarkedIsRead, ReadIsUnmarked, UnmarkedSignalIsRead};

use dbc_sheet::{Sheet, sheets_are_well_formed};

/// Where no difference breaks a receiver, whoever was built for the old sheet takes each of its messages from what is
/// sent by the new one, from the message that is its own, and reads each of its signals as the new sheet means it. The
/// function does nothing.
pub fn unmarked_sheets_are_read(old: &Sheet, new: &Sheet)
    ensures printed { BreakingNone old.now new.now }
    ensures messages { UnmarkedIsRead old.now new.now }
    ensures frames { UnmarkedFramesAreRead old.now new.now }
{
    sheets_are_well_formed(old);
    sheets_are_well_formed(new);
}

/// Two layouts inside a payload have the same number in each payload if and only if they have the same positions, from
/// the least significant bit on. The function does nothing.
pub fn layouts_tell_apart()
    ensures { LayoutsTellApart }
{}

/// Signals of which no change is marked are read alike, and of signals that are read alike no change is marked. The
/// function does nothing.
pub fn marked_changes_are_read()
    ensures unmarked { UnmarkedSignalIsRead }
    ensures same { ReadIsUnmarked }
    ensures marked { MarkedIsRead }
{}
