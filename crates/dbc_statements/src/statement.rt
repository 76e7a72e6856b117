//! The contents of the statements of a DBC text, with the offsets of what a fault may be about.
ghost use Rattle.std.specs.Prelude.{◌≡◌, ◌≤◌, [], length, SomeIff};
ghost use Rattle.dbc_words.specs.Limits.{value_text_limit};
ghost use Rattle.dbc_statements.specs.Parts.{message_with, table_of};
ghost use Rattle.dbc_statements.specs.Statement.{HasNoOffsets, NothingIsAttached, message_of, statement_of};

use crate::entries::Entries;
use can_id::Ident;
use dbc_sheet::{Message, Signal, Signals, ValueTable, ValueTexts};
use dbc_words::{Keyword, Name, PayloadLength, Spn, Text, ValueType};
use std::alloc::Global;

/// A node of a list, and where its name is.
#[derive(Drop)]
pub struct NodeName {
    /// The offset of its name.
    pub at: usize,
    /// The name.
    pub name: Name,
}

/// A value table as its statement describes it.
pub struct TableLine {
    /// The offset of its name.
    pub at: usize,
    /// Its name.
    pub name: Name,
    /// Its entries.
    pub entries: Entries,
}

impl TableLine {
    /// The value table, or `None` if it has more than 65,536 entries. Takes no memory.
    pub fn into_table(self) -> Option<ValueTable>
        ensures { SomeIff result (length self.entries ≤ value_text_limit) (table_of self) }
    {
        let TableLine {
            at: _at,
            name,
            entries,
        } = self;
        let entries = entries.into_texts()?;
        Some(ValueTable { name, entries })
    }
}

/// The offsets at which a signal is described.
#[derive(Clone, Copy, PartialEq, Eq)]
pub struct SignalOffsets {
    /// The offset of its name.
    pub at: usize,
    /// The offset of its multiplexer indicator, or of the colon if it has none.
    pub mux_at: usize,
}

/// A message as its statement describes it.
pub struct MessageLine {
    /// The offset of its number.
    pub at: usize,
    /// The offset of its name.
    pub name_at: usize,
    /// Its identifier.
    pub ident: Ident,
    /// Its name.
    pub name: Name,
    /// Its length in bytes, 0 to 1785.
    pub length: PayloadLength,
    /// The node that sends it, if one is named.
    pub transmitter: Option<Name>,
    /// Its signals, in order, any number of them, without what other statements attach to them.
    pub signals: Vec<Signal>,
    /// The offsets of each of them.
    pub offsets: Vec<SignalOffsets>,
}

impl MessageLine {
    /// The message with a comment and no signals, and its signals. Takes no memory.
    pub fn into_message(self, alloc: Global, comment: Text) -> (Message, Vec<Signal>)
        ensures message { result.0 ≡ message_with (message_of self) comment [] }
        ensures signals { result.1.items ≡ self.signals.items }
    {
        let MessageLine {
            at: _at,
            name_at: _name_at,
            ident,
            name,
            length,
            transmitter,
            signals,
            offsets: _offsets,
        } = self;
        let message = Message {
            ident,
            name,
            length,
            transmitter,
            comment,
            signals: Signals::new(alloc),
        };
        (message, signals)
    }
}

/// The signal that a statement cites.
#[derive(Clone, Copy)]
pub struct CitedSignal<'a> {
    /// The DBC number of its message; `None` above 4294967295, since no message has such a number.
    pub number: Option<u32>,
    /// Its name: any name, also a keyword, as the text has it.
    pub name: &'a [u8],
}

/// The content of one statement.
#[derive(Drop)]
pub enum Content<'a> {
    /// `VERSION`: the version.
    Version(Text),
    /// `BU_`: the nodes, without the names that mean no node.
    Nodes(Vec<NodeName>),
    /// `VAL_TABLE_`, in a block of its own, so that statements stay small.
    Table(Box<TableLine>),
    /// `BO_` with its `SG_`, in a block of its own, so that statements stay small.
    Message(Box<MessageLine>),
    /// `CM_`: the comment of the file.
    Comment(Text),
    /// `CM_ BU_`: the node's name, which may be any name, and its comment.
    NodeComment(&'a [u8], Text),
    /// `CM_ BO_`: the message's DBC number, as in [`CitedSignal`], and its comment.
    MessageComment(Option<u32>, Text),
    /// `CM_ SG_`: the signal and its comment.
    SignalComment(CitedSignal<'a>, Text),
    /// `VAL_`: the signal and texts for its values.
    ValueTexts(CitedSignal<'a>, Entries),
    /// `SIG_VALTYPE_`: the signal and its type.
    ValueType(CitedSignal<'a>, ValueType),
    /// `BA_ "SPN" SG_`: the signal and its suspect parameter number.
    Spn(CitedSignal<'a>, Spn),
    /// `NS_` and `BS_`: nothing of them is kept, and they aren't reported.
    Dropped,
    /// Skipped and reported.
    PassedOver,
}

/// One statement.
pub struct Statement<'a> {
    /// The offset of its first keyword.
    pub start: usize,
    /// That keyword.
    pub keyword: Keyword,
    /// Its content.
    pub content: Content<'a>,
}

impl<'a> Statement<'a> {
    /// The offset of its first keyword, that keyword, and its content.
    pub fn into_parts(self) -> (usize, Keyword, Content<'a>)
        ensures { result ≡ (self.entry.start, self.entry.keyword, self.entry.content) }
    {
        let Statement {
            start,
            keyword,
            content,
        } = self;
        (start, keyword, content)
    }

    /// The statement without the offsets of its signals, whose memory is given back.
    pub fn without_offsets(self, alloc: Global) -> Statement<'a>
        ensures says { statement_of result ≡ statement_of self.entry }
        ensures nothing { NothingIsAttached self.entry.content → NothingIsAttached result.content }
        ensures offsets { HasNoOffsets result.content }
    {
        let (start, keyword, content) = self.into_parts();
        let content = match content {
            Content::Message(line) => {
                let mut line = line;
                line.offsets = Vec::new(alloc);
                Content::Message(line)
            }
            other => other,
        };
        Statement {
            start,
            keyword,
            content,
        }
    }
}

impl Drop for TableLine {
    fn drop(self) {
        let TableLine {
            at: _at,
            name: _name,
            entries: _entries,
        } = self;
    }
}

impl Drop for MessageLine {
    fn drop(self) {
        let MessageLine {
            at: _at,
            name_at: _name_at,
            ident: _ident,
            name: _name,
            length: _length,
            transmitter: _transmitter,
            signals: _signals,
            offsets: _offsets,
        } = self;
    }
}

impl Drop for Statement<'_> {
    fn drop(self) {
        let Statement {
            start: _start,
            keyword: _keyword,
            content: _content,
        } = self;
    }
}
