//! The messages of one sheet.
ghost use Rattle.std.specs.Prelude.{◌≡◌, [], ℕ, Option, None, Some, if◌then◌else◌, ◌==◌, length, nat_le, false};
ghost use Rattle.std.specs.Prelude.{IfErr, IfOk, OnOk, OnErr};
ghost use Rattle.std.specs.Option.{option_copied};
ghost use Rattle.std.specs.List.Sorted.{IsStrictlySortedBy};
ghost use Rattle.base.specs.Keyed.{put};
ghost use Rattle.base.specs.Refusing.{first_refusal};
ghost use Rattle.base.specs.Ascending.{IsAt, IsGap};
ghost use Rattle.dbc_words.specs.Fault.{IsRefusal};
ghost use Rattle.dbc_words.specs.Limits.{message_limit};
ghost use Rattle.dbc_words.specs.Named.{has_name};
ghost use Rattle.dbc_sheet.specs.Messages.{AreMessages, by_number, message_at, message_name, message_tests};
ghost use Rattle.dbc_sheet.specs.Messages.{number_of, without_number};

use crate::message::Message;
use base::{Copying, Items};
use dbc_words::{MESSAGE_LIMIT, Name, NameSet, SheetCode};
use std::alloc::{AllocError, Global};
use std::marker::Model;

/// At most [`MESSAGE_LIMIT`] messages in ascending order of their DBC numbers, no two of one number or one name.
/// Contracts see it as the list of them. A number is found by binary search, a name in a set of the names.
pub(crate) struct Messages {
    messages: Items<Message>,
    names: NameSet,
}

impl Model for Messages {
    ghost use Rattle.std.specs.Prelude.{List};
    ghost use Rattle.dbc_sheet.specs.Messages.{AreIndexed};
    ghost use Rattle.dbc_sheet.specs.declared.message.Message.{Message};

    ghost Value = { List Message };

    ghost view = { λ m. m.messages };

    ghost invariant = { λ m. AreIndexed m.messages m.names };
}

/// The index of the message of the number, or the index at which it would go.
fn search(messages: &[Message], number: u32) -> Result<usize, usize>
    requires { IsStrictlySortedBy by_number messages.now }
    ensures found { IfOk result (IsAt number_of messages.now number) }
    ensures absent { IfErr result (IsGap number_of messages.now number) }
{
    messages.binary_search_by_key(&number, |message| message.number())
}

impl Messages {
    /// No messages. Takes no memory.
    pub(crate) fn new(alloc: Global) -> Messages
        ensures { result ≡ [] }
    {
        Messages {
            messages: Items::new(alloc),
            names: NameSet::new(alloc),
        }
    }

    /// The messages, in ascending order of their numbers.
    pub(crate) fn as_slice(&self) -> &[Message]
        ensures messages { result.now ≡ self.now }
        ensures together { AreMessages self.now }
    {
        self.messages.as_slice()
    }

    /// The message of the number.
    pub(crate) fn find(&self, number: u32) -> Option<&Message>
        ensures { option_copied result ≡ message_at self.now number }
    {
        let messages = self.messages.as_slice();
        match search(messages, number) {
            Ok(at) => Some(&messages[at]),
            Err(_) => None,
        }
    }

    /// Whether a message has the name.
    pub(crate) fn has_name(&self, name: &Name) -> bool
        ensures { result ≡ has_name message_name self.now name.now }
    {
        self.names.has(name)
    }

    /// The index at which the message would go, or why it is refused whatever its name is.
    fn index_for(&self, message: &Message) -> Result<usize, SheetCode>
        ensures gap { IfOk result (IsGap number_of self.now (number_of message.now)) }
        ensures room { OnOk result (nat_le message_limit (length self.now) ≡ false) }
        ensures refused { IfErr result
            (λ code. first_refusal (message_tests self.now message.now) ≡ Some code) }
    {
        let messages = self.messages.as_slice();
        if messages.len() >= MESSAGE_LIMIT {
            return Err(SheetCode::TooMany);
        }
        match search(messages, message.number()) {
            Ok(_) => Err(SheetCode::DoubleNumber),
            Err(at) => Ok(at),
        }
    }

    /// Adds a message where its number belongs. It is refused, and nothing changes, with the first of these that holds:
    /// [`SheetCode::TooMany`] where there are [`MESSAGE_LIMIT`] messages, [`SheetCode::DoubleNumber`] where one of them
    /// has its number, [`SheetCode::DoubleName`] where one of them has its name. [`SheetCode::Memory`] is out of
    /// memory, and nothing changes either.
    pub(crate) fn add(&mut self, alloc: Global, message: Message) -> Result<(), SheetCode>
        ensures ok { OnOk result (self.new ≡ put by_number message self.old) }
        ensures map { OnOk result ((n : ℕ) → message_at self.new n
            ≡ (if number_of message == n then Some message else message_at self.old n)) }
        ensures allowed { OnOk result (first_refusal (message_tests self.old message) ≡ None) }
        ensures refused { IfErr result
            (IsRefusal (first_refusal (message_tests self.old message))) }
        ensures err { OnErr result (self.new ≡ self.old) }
    {
        let at = self.index_for(&message)?;
        let name = message.name.duplicate(alloc)?;
        self.messages.insert(at, message)?;
        match self.names.insert(name) {
            Ok(true) => Ok(()),
            Ok(false) => {
                self.messages.remove(at);
                Err(SheetCode::DoubleName)
            }
            Err(_) => {
                self.messages.remove(at);
                Err(SheetCode::Memory)
            }
        }
    }

    /// Removes the message with the number.
    pub(crate) fn remove(&mut self, number: u32) -> Option<Message>
        ensures found { result ≡ message_at self.old number }
        ensures rest { self.new ≡ without_number self.old number }
        ensures map { (n : ℕ) → message_at self.new n
            ≡ (if n == number then None else message_at self.old n) }
    {
        match search(self.messages.as_slice(), number) {
            Ok(index) => {
                let message = self.messages.remove(index);
                self.names.remove(&message.name);
                Some(message)
            }
            Err(_) => None,
        }
    }

    /// Takes all messages out.
    pub(crate) fn take(&mut self) -> Items<Message>
        ensures messages { result ≡ self.old }
        ensures together { AreMessages result }
        ensures rest { self.new ≡ [] }
    {
        self.names.clear();
        self.messages.take()
    }
}

impl Copying for Messages {
    fn duplicate(&self, alloc: Global) -> Result<Self, AllocError> {
        Ok(Messages {
            messages: self.messages.duplicate(alloc)?,
            names: self.names.duplicate()?,
        })
    }
}

impl PartialEq for Messages {
    ghost use Rattle.std.specs.Cmp.Lexicographic.{pointwise, lists_per};
    ghost use Rattle.dbc_sheet.specs.contracts.message.MessagePartialEq.TheImpl.Laws.{laws-law};

    ghost eq = { pointwise ⟦<Message as PartialEq>⟧.eq };

    ghost laws = { lists_per laws-law };

    fn eq(&self, other: &Messages) -> bool {
        self.messages == other.messages
    }
}

impl Eq for Messages {
    ghost use Rattle.std.specs.Cmp.Lexicographic.{lists_equiv};
    ghost use Rattle.dbc_sheet.specs.contracts.message.MessageEq.TheImpl.Laws.{laws-law};

    ghost laws = { lists_equiv laws-law };
}

impl Drop for Messages {
    fn drop(self) {
        let Messages {
            messages: _messages,
            names: _names,
        } = self;
    }
}
