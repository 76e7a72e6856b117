//! Releases: sheets that never change again.
ghost use Rattle.std.specs.Prelude.{◌≡◌};
ghost use Rattle.can_id.specs.Ident.{dbc_number};
ghost use Rattle.dbc_sheet.specs.Messages.{has_number};

use base::{Copying, Items};
use can_id::Ident;
use dbc_sheet::{Message, Sheet};
use std::alloc::{AllocError, Global};
use std::marker::Model;

/// The greatest number of releases of a network.
pub const RELEASE_LIMIT: u32 = 65_535;

/// A release: a sheet that never changes again. Contracts see it as the sheet.
pub struct FrozenSheet {
    frame: Sheet,
    messages: Items<Message>,
}

impl Model for FrozenSheet {
    ghost use Rattle.dbc_sheet.specs.declared.sheet.Sheet.{Sheet};

    ghost Value = { Sheet };

    ghost view = { λ f. record f.frame { messages = f.messages } };
}

impl FrozenSheet {
    /// The sheet of a frame, whose own messages don't count, and of these messages. Takes no memory.
    pub fn of(frame: Sheet, messages: Items<Message>) -> FrozenSheet
        ensures { result ≡ record frame { messages = messages } }
    {
        FrozenSheet { frame, messages }
    }

    /// The sheet but for its messages.
    pub fn frame(&self) -> &Sheet
        ensures { record result.now { messages = self.now.messages } ≡ self.now }
    {
        &self.frame
    }

    /// The messages, in the order in which they were frozen.
    pub fn messages(&self) -> &[Message]
        ensures { result.now ≡ self.now.messages }
    {
        self.messages.as_slice()
    }

    /// Whether it has a message of the identifier.
    pub fn has(&self, ident: Ident) -> bool
        ensures { result ≡ has_number self.now.messages (dbc_number ident) }
    {
        let number = ident.to_dbc();
        self.messages
            .as_slice()
            .iter()
            .any(|message| message.number() == number)
    }
}

impl Copying for FrozenSheet {
    fn duplicate(&self, alloc: Global) -> Result<Self, AllocError> {
        Ok(FrozenSheet {
            frame: self.frame.duplicate(alloc)?,
            messages: self.messages.duplicate(alloc)?,
        })
    }
}

impl Drop for FrozenSheet {
    fn drop(self) {
        let FrozenSheet {
            frame: _frame,
            messages: _messages,
        } = self;
    }
}
