//! The names of a sheet's nodes and signals, for looking up what statements cite: however many there are, a citation
//! takes no walk over them.
ghost use Rattle.std.specs.Prelude.{◌≡◌, ◌++◌, IfOk, OnOk, false, map};
ghost use Rattle.std.specs.List.{flat_map};
ghost use Rattle.std.specs.Option.{option_map_or};
ghost use Rattle.dbc_words.specs.Named.{has_name};
ghost use Rattle.dbc_sheet.specs.Messages.{message_at};
ghost use Rattle.dbc_sheet.specs.Sheet.{node_name};
ghost use Rattle.dbc_sheet.specs.Signals.{signal_name};
ghost use Rattle.dbc_sheet.specs.declared.message.Message as of_message;
ghost use Rattle.dbc_sheet.specs.declared.sheet.Sheet as of_sheet;
ghost use Rattle.dbc_read.specs.Keys.{key_of, text_of};
ghost use Rattle.dbc_advice.specs.Names.{AreNamesOf, keys_of};

use crate::key_set::{KeySet, key_set};
use dbc_sheet::{Message, Node, Sheet};
use std::alloc::{AllocError, Global};

/// A signal's key: the number of its message, and its name.
type Key<'s> = (u32, &'s [u8]);

/// The names of the nodes of a sheet, and the keys of its signals.
#[derive(Drop)]
pub(crate) struct Names<'s> {
    nodes: KeySet<&'s [u8]>,
    signals: KeySet<Key<'s>>,
}

/// The names of the nodes.
fn names_of_nodes(alloc: Global, nodes: &[Node]) -> Result<Vec<&[u8]>, AllocError>
    ensures { IfOk result (λ names. map text_of names.items ≡ map node_name nodes.now) }
{
    let mut names = Vec::new(alloc);
    for node in nodes {
        names.push(node.name.as_bytes())?;
    }
    Ok(names)
}

/// Adds the keys of the message's signals.
fn add_keys<'s>(message: &'s Message, keys: &mut Vec<Key<'s>>) -> Result<(), AllocError>
    ensures { OnOk result (map key_of keys.new.items ≡ map key_of keys.old.items
        ++ keys_of message.now) }
{
    let number = message.number();
    for signal in message.signals.as_slice() {
        keys.push((number, signal.name.as_bytes()))?;
    }
    Ok(())
}

/// The keys of the signals of the messages.
fn keys_of_signals(alloc: Global, messages: &[Message]) -> Result<Vec<Key<'_>>, AllocError>
    ensures { IfOk result (λ keys. map key_of keys.items ≡ flat_map keys_of messages.now) }
{
    let mut keys = Vec::new(alloc);
    for message in messages {
        add_keys(message, &mut keys)?;
    }
    Ok(keys)
}

/// The names of the sheet. The error is out of memory.
pub(crate) fn names_of(alloc: Global, sheet: &Sheet) -> Result<Names<'_>, AllocError>
    ensures { IfOk result (λ names. AreNamesOf names sheet.now) }
{
    let nodes = names_of_nodes(alloc, sheet.nodes())?;
    let signals = keys_of_signals(alloc, sheet.messages())?;
    Ok(Names {
        nodes: key_set(nodes)?,
        signals: key_set(signals)?,
    })
}

impl Names<'_> {
    /// Whether the sheet has a node of the name.
    pub(crate) fn has_node(&self, name: &[u8]) -> bool
        ensures { (s : of_sheet.Sheet) → AreNamesOf self.now s
            → result ≡ has_name node_name s.nodes name.now }
    {
        self.nodes.has(&name)
    }

    /// Whether the sheet's message of the number has a signal of the name.
    pub(crate) fn has_signal(&self, number: u32, name: &[u8]) -> bool
        ensures { (s : of_sheet.Sheet) → AreNamesOf self.now s
            → result ≡ option_map_or
            (λ (m : of_message.Message). has_name signal_name m.signals name.now)
            (message_at s.messages number) false }
    {
        self.signals.has(&(number, name))
    }
}
