//! Why skipped statements don't stay.

/// Why a skipped statement of a source doesn't stay in the text of another sheet.
#[derive(Clone, Copy, PartialEq, Eq)]
pub enum LeavingReason {
    /// It cites a node that the sheet doesn't have.
    NoNode,
    /// It cites a message that the sheet doesn't have.
    NoMessage,
    /// It cites a signal that the message of the sheet doesn't have.
    NoSignal,
    /// It says something of what the sheet has, and the sheet says that itself.
    SheetSays,
}
