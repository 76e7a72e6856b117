//! What a command changes, and the decision on it.
use crate::book::{SpnBlock, UsableSpn};
use crate::command::SignalPath;
use crate::release::FrozenSheet;
use crate::reply::Reply;
use crate::state::{GrantedBlock, Head, LiveMessage};
use crate::team::Team;
use base::{Copying, Items};
use can_id::Ident;
use dbc_sheet::{Signal, ValueTexts};
use dbc_words::Name;
use std::alloc::{AllocError, Global};

/// One thing that a command sets or removes: a row that is written or removed by its key. A change that isn't of the
/// book is made at the command's network.
#[derive(Drop)]
pub enum Change {
    /// Sets the network's head; a network that isn't there is made, with nothing but its head.
    SetHead(Head),
    /// Sets the live message of an identifier.
    SetMessage(LiveMessage),
    /// Removes the live message of the identifier.
    RemoveMessage(Ident),
    /// Adds the signal as the last one of the live message of the name.
    AddSignal(Name, Signal),
    /// Removes the signal from the live message.
    RemoveSignal(SignalPath),
    /// Gives the live message's signal the suspect parameter number.
    SetSpn(SignalPath, UsableSpn),
    /// Sets the texts of the values of the live message's signal.
    SetValues(SignalPath, ValueTexts),
    /// Sets the block of a form and a first number.
    SetBlock(GrantedBlock),
    /// Sets the block of suspect parameter numbers of a network and a first number, in the book.
    SetSpnBlock(SpnBlock),
    /// Holds the identifier for good.
    Hold(Ident),
    /// Enters the suspect parameter number into the book.
    EnterSpn(UsableSpn),
    /// Sets the team's approval.
    SetApproval(Team),
    /// Removes all approvals.
    ClearApprovals,
    /// Adds the sheet as the next release.
    AddRelease(FrozenSheet),
}

/// What a command changes, in order, and what it is answered.
#[derive(Drop)]
pub struct Decision {
    /// What is set and removed, in order; nothing where the command is refused.
    pub changes: Items<Change>,
    /// The answer.
    pub reply: Reply,
}

impl Copying for Change {
    fn duplicate(&self, alloc: Global) -> Result<Self, AllocError> {
        match self {
            Change::SetHead(head) => Ok(Change::SetHead(head.duplicate(alloc)?)),
            Change::SetMessage(message) => Ok(Change::SetMessage(message.duplicate(alloc)?)),
            Change::RemoveMessage(ident) => Ok(Change::RemoveMessage(*ident)),
            Change::AddSignal(message, signal) => Ok(Change::AddSignal(
                message.duplicate(alloc)?,
                signal.duplicate(alloc)?,
            )),
            Change::RemoveSignal(path) => Ok(Change::RemoveSignal(path.duplicate(alloc)?)),
            Change::SetSpn(path, spn) => Ok(Change::SetSpn(path.duplicate(alloc)?, *spn)),
            Change::SetValues(path, values) => Ok(Change::SetValues(
                path.duplicate(alloc)?,
                values.duplicate(alloc)?,
            )),
            Change::SetBlock(block) => Ok(Change::SetBlock(block.duplicate(alloc)?)),
            Change::SetSpnBlock(block) => Ok(Change::SetSpnBlock(block.duplicate(alloc)?)),
            Change::Hold(ident) => Ok(Change::Hold(*ident)),
            Change::EnterSpn(spn) => Ok(Change::EnterSpn(*spn)),
            Change::SetApproval(team) => Ok(Change::SetApproval(team.duplicate(alloc)?)),
            Change::ClearApprovals => Ok(Change::ClearApprovals),
            Change::AddRelease(sheet) => Ok(Change::AddRelease(sheet.duplicate(alloc)?)),
        }
    }
}
