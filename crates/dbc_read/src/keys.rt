//! The keys of the nodes, messages and signals of the statements, by kind and in their order.
ghost use Rattle.std.specs.Prelude.{◌≡◌, ◌++◌, IfOk, OnOk, map};
ghost use Rattle.dbc_grammar.specs.Saying.{keys_of};
ghost use Rattle.dbc_grammar.specs.Statement as dbc;
ghost use Rattle.dbc_read.specs.Keys.{AreKeys, key_of, text_of};
ghost use Rattle.dbc_statements.specs.Statement.{message_of, names_of, statements_of};

use dbc_statements::{Content, MessageLine, NodeName, Statement};
use std::alloc::{AllocError, Global};

/// A signal's key: the number of its message, and its name.
pub(crate) type Key<'s> = (u32, &'s [u8]);

/// The keys of the nodes, messages and signals of a file.
#[derive(Drop)]
pub(crate) struct Keys<'s> {
    /// The names of the nodes.
    pub nodes: Vec<&'s [u8]>,
    /// The numbers of the messages.
    pub messages: Vec<u32>,
    /// The keys of the signals of all messages.
    pub signals: Vec<Key<'s>>,
}

/// Adds the names of the nodes.
pub(crate) fn add_names<'s>(
    nodes: &'s [NodeName],
    found: &mut Vec<&'s [u8]>,
) -> Result<(), AllocError>
    ensures { OnOk result (map text_of found.new.items ≡ map text_of found.old.items
        ++ names_of nodes.now) }
{
    for node in nodes {
        found.push(node.name.as_bytes())?;
    }
    Ok(())
}

/// Adds the keys of the message's signals.
fn add_keys<'s>(line: &'s MessageLine, found: &mut Vec<Key<'s>>) -> Result<(), AllocError>
    ensures { OnOk result (map key_of found.new.items ≡ map key_of found.old.items
        ++ keys_of (message_of line.now)) }
{
    let number = line.ident.to_dbc();
    for signal in &line.signals {
        found.push((number, signal.name.as_bytes()))?;
    }
    Ok(())
}

/// The keys of the nodes, messages and signals of the statements.
pub(crate) fn keys_of<'s>(
    alloc: Global,
    statements: &'s [Statement<'_>],
) -> Result<Keys<'s>, AllocError>
    ensures { IfOk result (λ keys. AreKeys keys (statements_of statements.now)) }
{
    let mut nodes = Vec::new(alloc);
    let mut messages = Vec::new(alloc);
    let mut signals = Vec::new(alloc);
    for statement in statements {
        match &statement.content {
            Content::Nodes(names) => add_names(names, &mut nodes)?,
            Content::Message(line) => {
                messages.push(line.ident.to_dbc())?;
                add_keys(&**line, &mut signals)?;
            }
            _ => {}
        }
    }
    Ok(Keys {
        nodes,
        messages,
        signals,
    })
}
