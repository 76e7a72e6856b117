//! Which node, message or signal of the file each statement cites.
ghost use Rattle.std.specs.Prelude.{List, IfOk};
ghost use Rattle.dbc_grammar.specs.Statement as dbc;
ghost use Rattle.dbc_read.specs.Keys.{AreKeys};
ghost use Rattle.dbc_read.specs.Lookups.{AreCitedIndices, AreLookups, IsCitedIndex, IsMessageIndex, IsSignalIndex};
ghost use Rattle.dbc_statements.specs.Statement.{content_of, statements_of};

use crate::keys::{Key, Keys};
use crate::lookup::{Lookup, lookup_of};
use dbc_statements::{CitedSignal, Content, Statement};
use std::alloc::{AllocError, Global};

/// The nodes, the messages and the signals of a file, by their indices among those of all statements.
pub(crate) struct Lookups<'s> {
    /// The names of the nodes.
    pub nodes: Lookup<&'s [u8]>,
    /// The numbers of the messages.
    pub messages: Lookup<u32>,
    /// The keys of the signals.
    pub signals: Lookup<Key<'s>>,
}

/// The nodes, the messages and the signals that have these keys.
pub(crate) fn lookups_of(alloc: Global, keys: Keys<'_>) -> Result<Lookups<'_>, AllocError>
    ensures { IfOk result (λ lookups. (statements : List dbc.Statement)
        → AreKeys keys.entry statements
        → AreLookups lookups statements) }
{
    let Keys {
        nodes,
        messages,
        signals,
    } = keys;
    Ok(Lookups {
        nodes: lookup_of(alloc, nodes)?,
        messages: lookup_of(alloc, messages)?,
        signals: lookup_of(alloc, signals)?,
    })
}

/// The index of the message that is cited, if the file has it.
fn message_index(lookups: &Lookups, cited: Option<u32>, last: &mut usize) -> Option<usize>
    ensures { (statements : List dbc.Statement) → AreLookups lookups.now statements
        → IsMessageIndex statements cited result }
{
    match cited {
        Some(number) => lookups.messages.find(&number, last),
        None => None,
    }
}

/// The index of the signal that is cited, if the file has it.
fn signal_index(lookups: &Lookups, cited: &CitedSignal, last: &mut usize) -> Option<usize>
    ensures { (statements : List dbc.Statement) → AreLookups lookups.now statements
        → IsSignalIndex statements cited.now.number cited.now.name.now result }
{
    match cited.number {
        Some(number) => lookups.signals.find(&(number, cited.name), last),
        None => None,
    }
}

/// The index of what the statement cites, if it cites something that the file has. The index that was found last is
/// tried first.
pub(crate) fn cited_index(lookups: &Lookups, content: &Content, last: &mut usize) -> Option<usize>
    ensures { (statements : List dbc.Statement) → AreLookups lookups.now statements
        → IsCitedIndex statements (content_of content.now) result }
{
    match content {
        Content::NodeComment(name, _) => lookups.nodes.find(name, last),
        Content::MessageComment(cited, _) => message_index(lookups, *cited, last),
        Content::SignalComment(cited, _) => signal_index(lookups, cited, last),
        Content::ValueTexts(cited, _) => signal_index(lookups, cited, last),
        Content::ValueType(cited, _) => signal_index(lookups, cited, last),
        Content::Spn(cited, _) => signal_index(lookups, cited, last),
        _ => None,
    }
}

/// The indices of what the statements cite, one for each statement.
pub(crate) fn cited_indices(
    alloc: Global,
    lookups: &Lookups,
    statements: &[Statement],
) -> Result<Vec<Option<usize>>, AllocError>
    ensures { IfOk result (λ found. (all : List dbc.Statement) → AreLookups lookups.now all
        → AreCitedIndices all (statements_of statements.now) found.items) }
{
    let mut found = Vec::with_capacity(alloc, statements.len())?;
    let mut last = 0;
    for statement in statements {
        found.push(cited_index(lookups, &statement.content, &mut last))?;
    }
    Ok(found)
}

impl Drop for Lookups<'_> {
    fn drop(self) {
        let Lookups {
            nodes: _nodes,
            messages: _messages,
            signals: _signals,
        } = self;
    }
}
