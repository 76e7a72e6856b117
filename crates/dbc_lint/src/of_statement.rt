//! Remarks on what a statement defines.
ghost use Rattle.std.specs.Prelude.{◌≡◌, ◌++◌, OnOk};
ghost use Rattle.std.specs.Option.{option_copied};
ghost use Rattle.dbc_statements.specs.Statement.{names_of, statement_of};
ghost use Rattle.dbc_lint.specs.OfFile.{of_described, of_names, of_signals, of_statement};
ghost use Rattle.dbc_lint.specs.OfTable.{of_table};

use crate::kind::Kind;
use crate::of_message::add_of_message;
use crate::of_node::add_of_node;
use crate::of_signal::{add_of_signal, is_long};
use crate::of_values::add_values_twice;
use crate::places::{signal_start, word_start};
use crate::remark::{Remark, add_when};
use crate::whole::Whole;
use dbc_lex::Lexer;
use dbc_sheet::Message;
use dbc_statements::{Content, NodeName, Statement, TableLine};
use std::alloc::{AllocError, Global};

/// Adds the remarks on nodes, each at its name.
fn add_of_names(
    alloc: Global,
    whole: &Whole,
    lexer: &mut Lexer,
    nodes: &[NodeName],
    remarks: &mut Vec<Remark>,
) -> Result<(), AllocError>
    ensures { OnOk result (remarks.new.items ≡ remarks.old.items
        ++ of_names whole.now lexer.old.tokens (names_of nodes.now)) }
{
    for node in nodes {
        let at = word_start(lexer, node.name.as_bytes());
        add_of_node(alloc, whole, &node.name, at, remarks)?;
    }
    Ok(())
}

/// Adds the remarks on a value table.
fn add_of_table(
    alloc: Global,
    at: usize,
    table: &TableLine,
    remarks: &mut Vec<Remark>,
) -> Result<(), AllocError>
    ensures { OnOk result (remarks.new.items ≡ remarks.old.items
        ++ of_table table.now.name table.now.entries at) }
{
    let words = table.name.as_bytes();
    add_when(
        alloc,
        is_long(&table.name),
        Kind::LongName,
        at,
        words,
        remarks,
    )?;
    add_values_twice(alloc, words, at, table.entries.as_slice(), remarks)
}

/// Adds the remarks on the signals of the message, each at its name.
fn add_of_signals(
    alloc: Global,
    whole: &Whole,
    lexer: &mut Lexer,
    message: &Message,
    remarks: &mut Vec<Remark>,
) -> Result<(), AllocError>
    ensures { OnOk result (remarks.new.items ≡ remarks.old.items
        ++ of_signals whole.now message.now lexer.old.tokens message.now.signals) }
{
    for signal in message.signals.as_slice() {
        let at = signal_start(lexer);
        add_of_signal(alloc, whole, message, signal, at, remarks)?;
    }
    Ok(())
}

/// Adds the remarks on the message and on its signals.
fn add_of_described(
    alloc: Global,
    whole: &Whole,
    at: usize,
    lexer: &mut Lexer,
    message: Option<&Message>,
    remarks: &mut Vec<Remark>,
) -> Result<(), AllocError>
    ensures { OnOk result (remarks.new.items ≡ remarks.old.items
        ++ of_described whole.now at lexer.old.tokens (option_copied message.entry)) }
{
    match message {
        Some(message) => {
            add_of_message(alloc, whole, message, at, remarks)?;
            add_of_signals(alloc, whole, lexer, message, remarks)
        }
        None => Ok(()),
    }
}

/// Adds the remarks on what the statement defines.
pub(crate) fn add_of_statement(
    alloc: Global,
    text: &[u8],
    whole: &Whole,
    statement: &Statement,
    remarks: &mut Vec<Remark>,
) -> Result<(), AllocError>
    ensures { OnOk result (remarks.new.items ≡ remarks.old.items
        ++ of_statement text.now whole.now (statement_of statement.now)) }
{
    let at = statement.start;
    let mut lexer = Lexer::at(text, at);
    match &statement.content {
        Content::Nodes(nodes) => add_of_names(alloc, whole, &mut lexer, nodes, remarks),
        Content::Table(table) => add_of_table(alloc, at, table, remarks),
        Content::Message(line) => {
            let message = whole.sheet().find(line.ident.to_dbc());
            add_of_described(alloc, whole, at, &mut lexer, message, remarks)
        }
        _ => Ok(()),
    }
}
