//! A sheet: what a DBC file says of a network.
ghost use Rattle.std.specs.Prelude.{◌≡◌, ◌≤◌, length, ◌++◌, ◌∷◌, [], ℕ, Option, None, Some, if◌then◌else◌, ◌==◌};
ghost use Rattle.std.specs.Prelude.{IfErr, IfOk, OnOk, OnErr};
ghost use Rattle.std.specs.Option.{option_copied};
ghost use Rattle.base.specs.Keyed.{put};
ghost use Rattle.base.specs.Refusing.{first_refusal};
ghost use Rattle.dbc_words.specs.Fault.{IsMemoryOr, IsRefusal};
ghost use Rattle.dbc_words.specs.Limits.{node_limit, table_limit};
ghost use Rattle.dbc_words.specs.Named.{AreNamedApart, has_name, roster_tests};
ghost use Rattle.dbc_sheet.specs.Messages.{AreMessages, by_number, message_at, message_name, message_tests};
ghost use Rattle.dbc_sheet.specs.Messages.{number_of, without_number};
ghost use Rattle.dbc_sheet.specs.Sheet.{IsClearSheet, IsFirstFault, empty_sheet, node_name, table_name};

use crate::message::Message;
use crate::messages::Messages;
use crate::node::Node;
use crate::value_table::ValueTable;
use base::{Copying, Items};
use dbc_words::{About, Name, Roster, SheetCode, SheetFault, Text};
use std::alloc::{AllocError, Global};

/// What a DBC file says of a network: a version, a comment, nodes, value tables, and messages by their DBC numbers.
///
/// Messages are in ascending order of their numbers, and no two of them, no two nodes and no two value tables have one
/// name. There are at most [`MESSAGE_LIMIT`](dbc_words::MESSAGE_LIMIT) messages, and at most
/// [`NODE_LIMIT`](dbc_words::NODE_LIMIT) nodes and [`TABLE_LIMIT`](dbc_words::TABLE_LIMIT) value tables. Contracts see
/// the version and the comment as their bytes, and the nodes, the tables and the messages as lists.
#[derive(PartialEq, Eq)]
pub struct Sheet {
    version: Text,
    comment: Text,
    nodes: Roster<Node>,
    tables: Roster<ValueTable>,
    messages: Messages,
}

impl Sheet {
    /// The empty sheet. Takes no memory.
    pub fn new(alloc: Global) -> Sheet
        ensures { result ≡ empty_sheet }
    {
        Sheet {
            version: Text::empty(alloc),
            comment: Text::empty(alloc),
            nodes: Roster::new(alloc),
            tables: Roster::new(alloc),
            messages: Messages::new(alloc),
        }
    }

    /// The version, empty where there is none.
    pub fn version(&self) -> &Text
        ensures { result.now ≡ self.now.version }
    {
        &self.version
    }

    /// Sets the version.
    pub fn set_version(&mut self, version: Text)
        ensures { self.new ≡ record self.old { version = version } }
    {
        self.version = version;
    }

    /// The comment of the whole file, empty where there is none.
    pub fn comment(&self) -> &Text
        ensures { result.now ≡ self.now.comment }
    {
        &self.comment
    }

    /// Sets the comment of the whole file.
    pub fn set_comment(&mut self, comment: Text)
        ensures { self.new ≡ record self.old { comment = comment } }
    {
        self.comment = comment;
    }

    /// The nodes, in the order in which they were added.
    pub fn nodes(&self) -> &[Node]
        ensures nodes { result.now ≡ self.now.nodes }
        ensures apart { AreNamedApart node_name self.now.nodes }
        ensures few { length self.now.nodes ≤ node_limit }
    {
        self.nodes.as_slice()
    }

    /// The value tables, in the order in which they were added.
    pub fn tables(&self) -> &[ValueTable]
        ensures tables { result.now ≡ self.now.tables }
        ensures apart { AreNamedApart table_name self.now.tables }
        ensures few { length self.now.tables ≤ table_limit }
    {
        self.tables.as_slice()
    }

    /// The messages, in ascending order of their DBC numbers.
    pub fn messages(&self) -> &[Message]
        ensures messages { result.now ≡ self.now.messages }
        ensures together { AreMessages self.now.messages }
    {
        self.messages.as_slice()
    }

    /// The message of the DBC number, or `None` where there is none.
    pub fn find(&self, number: u32) -> Option<&Message>
        ensures { option_copied result ≡ message_at self.now.messages number }
    {
        self.messages.find(number)
    }

    /// Whether a message has the name.
    pub(crate) fn has_name(&self, name: &Name) -> bool
        ensures { result ≡ has_name message_name self.now.messages name.now }
    {
        self.messages.has_name(name)
    }

    /// Adds a node as the last one. It is refused, and nothing changes, with the first of these that holds:
    /// 26 `TooMany` where there are [`NODE_LIMIT`](dbc_words::NODE_LIMIT) nodes, 21 `DoubleName` where one of them has
    /// its name. `Memory` is out of memory, and nothing changes either. The fault is about a node.
    pub fn with_node(&mut self, alloc: Global, node: Node) -> Result<(), SheetFault>
        ensures ok { OnOk result
            (self.new ≡ record self.old { nodes = self.old.nodes ++ node ∷ [] }) }
        ensures allowed { OnOk result
            (first_refusal (roster_tests node_name self.old.nodes node.name) ≡ None) }
        ensures refused { IfErr result (λ fault. IsRefusal
            (first_refusal (roster_tests node_name self.old.nodes node.name)) fault.code) }
        ensures about { IfErr result (λ fault. fault.about ≡ About.Node) }
        ensures err { OnErr result (self.new ≡ self.old) }
    {
        let about = About::Node;
        self.nodes
            .add(alloc, node)
            .map_err(|code| SheetFault { code, about })
    }

    /// Adds a value table as the last one. It is refused, and nothing changes, with the first of these that holds: 26
    /// `TooMany` where there are [`TABLE_LIMIT`](dbc_words::TABLE_LIMIT) tables, 21 `DoubleName` where one of them has
    /// its name. `Memory` is out of memory, and nothing changes either. The fault is about a table.
    pub fn with_table(&mut self, alloc: Global, table: ValueTable) -> Result<(), SheetFault>
        ensures ok { OnOk result
            (self.new ≡ record self.old { tables = self.old.tables ++ table ∷ [] }) }
        ensures allowed { OnOk result
            (first_refusal (roster_tests table_name self.old.tables table.name) ≡ None) }
        ensures refused { IfErr result (λ fault. IsRefusal
            (first_refusal (roster_tests table_name self.old.tables table.name)) fault.code) }
        ensures about { IfErr result (λ fault. fault.about ≡ About.Table) }
        ensures err { OnErr result (self.new ≡ self.old) }
    {
        let about = About::Table;
        self.tables
            .add(alloc, table)
            .map_err(|code| SheetFault { code, about })
    }

    /// Adds a message where its DBC number belongs. It is refused, and nothing changes, with the first of these that
    /// holds: 26 `TooMany` where there are [`MESSAGE_LIMIT`](dbc_words::MESSAGE_LIMIT) messages, 20 `DoubleNumber`
    /// where one of them has its DBC number, 21 `DoubleName` where one of them has its name. `Memory` is out of memory,
    /// and nothing changes either. The fault is about the message.
    pub fn with_message(&mut self, alloc: Global, message: Message) -> Result<(), SheetFault>
        ensures ok { OnOk result
            (self.new ≡ record self.old { messages = put by_number message self.old.messages }) }
        ensures map { OnOk result ((n : ℕ) → message_at self.new.messages n
            ≡ (if number_of message == n then Some message else message_at self.old.messages n)) }
        ensures allowed { OnOk result
            (first_refusal (message_tests self.old.messages message) ≡ None) }
        ensures refused { IfErr result (λ fault. IsRefusal
            (first_refusal (message_tests self.old.messages message)) fault.code) }
        ensures about { IfErr result (λ fault. fault.about ≡ About.Message (number_of message)) }
        ensures err { OnErr result (self.new ≡ self.old) }
    {
        let about = About::Message(message.number());
        self.messages
            .add(alloc, message)
            .map_err(|code| SheetFault { code, about })
    }

    /// Removes the message with the DBC number, or returns `None` and changes nothing if there is none. Takes no
    /// memory.
    pub fn without_message(&mut self, number: u32) -> Option<Message>
        ensures found { result ≡ message_at self.old.messages number }
        ensures rest { self.new ≡ record self.old
            { messages = without_number self.old.messages number } }
        ensures map { (n : ℕ) → message_at self.new.messages n
            ≡ (if n == number then None else message_at self.old.messages n) }
    {
        self.messages.remove(number)
    }

    /// Takes all messages out, in ascending order of their DBC numbers, and leaves the sheet without one. Takes no
    /// memory.
    pub fn take_messages(&mut self) -> Items<Message>
        ensures messages { result ≡ self.old.messages }
        ensures together { AreMessages result }
        ensures rest { self.new ≡ record self.old { messages = [] } }
    {
        self.messages.take()
    }

    /// Whether the signals of each message fit together in its payload. If not, the fault is that of the message with
    /// the least number that is not clear: 22 `OutsidePayload`, 23 `Clash`, 24 `NoMultiplexor` or 25 `TwoMultiplexors`,
    /// whichever its first clash is. It is about the signals of that clash. `Memory` is out of memory.
    pub fn is_clear(&self, alloc: Global) -> Result<(), SheetFault>
        ensures clear { OnOk result (IsClearSheet self.now) }
        ensures fault { IfErr result
            (λ fault. IsMemoryOr fault.code (IsFirstFault self.now fault)) }
    {
        for message in self.messages.as_slice() {
            match message.first_clash(alloc)? {
                Some(clash) => {
                    return Err(SheetFault {
                        code: SheetCode::from(clash),
                        about: About::Signals {
                            message: message.number(),
                            clash,
                        },
                    });
                }
                None => {}
            }
        }
        Ok(())
    }

    /// A sheet that is equal to this one. The error is out of memory.
    pub fn copy(&self, alloc: Global) -> Result<Sheet, AllocError>
        ensures { IfOk result (λ copy. copy ≡ self.now) }
    {
        self.duplicate(alloc)
    }
}

impl Copying for Sheet {
    fn duplicate(&self, alloc: Global) -> Result<Self, AllocError> {
        Ok(Sheet {
            version: self.version.duplicate(alloc)?,
            comment: self.comment.duplicate(alloc)?,
            nodes: self.nodes.duplicate(alloc)?,
            tables: self.tables.duplicate(alloc)?,
            messages: self.messages.duplicate(alloc)?,
        })
    }
}

impl Drop for Sheet {
    fn drop(self) {
        let Sheet {
            version: _version,
            comment: _comment,
            nodes: _nodes,
            tables: _tables,
            messages: _messages,
        } = self;
    }
}
