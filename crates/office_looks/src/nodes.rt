//! The nodes, and what one of them sends and receives.
ghost use Rattle.std.specs.Prelude.{◌≡◌, ◌++◌, ◌∷◌, [], ◌<◌, ◌^◌, IfOk, OnOk, count_by, length, map};
ghost use Rattle.office_views.specs.Sending.{receives_some, sends};
ghost use Rattle.office_looks.specs.Nodes.{counts_row, node_row, node_table, nodes_table, received_rows, sent_rows};
ghost use Rattle.office_looks.specs.Nodes.{use_row, uses_table};

use dbc_sheet::{Message, Node};
use dbc_words::Name;
use office_facts::has_node;
use office_seen::View;
use office_views::{received, received_tally, sends, sent_tally};
use rows::{Alignment, Cell, Column, Rows, Table};
use std::alloc::{AllocError, Global};

/// How many of the messages the node sends.
fn sent_count(node: &Name, messages: &[Message]) -> usize
    ensures { result ≡ count_by (sends node.now) messages.now }
{
    messages
        .iter()
        .filter(|message| sends(node, message))
        .count()
}

/// How many of the messages have a signal that the node receives.
fn received_count(node: &Name, messages: &[Message]) -> usize
    ensures { result ≡ count_by (receives_some node.now) messages.now }
{
    messages
        .iter()
        .filter(|message| received(node, message) > 0)
        .count()
}

/// The columns of a node.
pub const NODES: [Column; 4] = [
    Column(*b"sends       ", Alignment::Counted(4)),
    Column(*b"receives    ", Alignment::Counted(4)),
    Column(*b"node        ", Alignment::Left(12)),
    Column(*b"comment     ", Alignment::Plain),
];

/// How many there are.
pub const NODE_TOTALS: [Column; 1] = [Column(*b"nodes       ", Alignment::Counted(0))];

/// Adds the row of a node that sends and receives so many messages.
fn push_node<'a>(
    alloc: Global,
    rows: &mut Rows<'a>,
    sending: usize,
    receiving: usize,
    node: &'a Node,
) -> Result<(), AllocError>
    ensures { OnOk result
        (rows.new ≡ rows.old ++ counts_row sending receiving node.now ∷ []) }
{
    let cells = vec![in alloc;
        Cell::Number(sending as u128),
        Cell::Number(receiving as u128),
        Cell::Name(node.name.as_bytes()),
        Cell::Rest(node.comment.as_bytes()),
    ]?;
    rows.push(cells)
}

/// The rows of the nodes.
fn node_rows<'a>(
    alloc: Global,
    messages: &[Message],
    nodes: &'a [Node],
) -> Result<Rows<'a>, AllocError>
    requires { length messages.now < 2 ^ 64 }
    ensures { IfOk result (λ rows. rows ≡ map (node_row messages.now) nodes.now) }
{
    let sent = sent_tally(alloc, messages)?;
    let received = received_tally(alloc, messages)?;
    let mut rows = Rows::new(alloc);
    for node in nodes {
        let sending = sent.times(&node.name);
        let receiving = received.times(&node.name);
        push_node(alloc, &mut rows, sending, receiving, node)?;
    }
    Ok(rows)
}

/// The nodes, with how many messages each sends and receives. The error is out of memory.
pub(crate) fn nodes_table(alloc: Global, view: &View) -> Result<Table<'_>, AllocError>
    ensures { IfOk result (λ table. table ≡ nodes_table view.now) }
{
    let nodes = view.sheet.nodes();
    let rows = node_rows(alloc, view.sheet.messages(), nodes)?;
    let totals = vec![in alloc; Cell::Number(nodes.len() as u128)]?;
    Table::plain(alloc, &NODES, rows, &NODE_TOTALS, totals)
}

/// The columns of a message that a node sends or receives.
pub const USES: [Column; 4] = [
    Column(*b"use         ", Alignment::Left(8)),
    Column(*b"identifier  ", Alignment::Plain),
    Column(*b"signals     ", Alignment::Right(4)),
    Column(*b"message     ", Alignment::Plain),
];

/// How many it sends, and how many it receives.
pub const USE_TOTALS: [Column; 2] = [
    Column(*b"sends       ", Alignment::Counted(0)),
    Column(*b"receives    ", Alignment::Counted(0)),
];

/// Adds the row of a message that a node sends or receives, with so many signals.
fn push_use<'a>(
    alloc: Global,
    rows: &mut Rows<'a>,
    verb: &'static [u8],
    message: &'a Message,
    signals: usize,
) -> Result<(), AllocError>
    ensures { OnOk result (rows.new ≡ rows.old ++ use_row verb.now message.now signals ∷ []) }
{
    let cells = vec![in alloc;
        Cell::Name(verb),
        Cell::Ident(Some(message.ident)),
        Cell::Number(signals as u128),
        Cell::Name(message.name.as_bytes()),
    ]?;
    rows.push(cells)
}

/// The rows of the messages that the node sends, then of those that it receives.
fn use_rows<'a>(alloc: Global, node: &Name, messages: &'a [Message]) -> Result<Rows<'a>, AllocError>
    ensures { IfOk result
        (λ rows. rows ≡ sent_rows node.now messages.now ++ received_rows node.now messages.now) }
{
    let mut rows = Rows::new(alloc);
    for message in messages {
        if sends(node, message) {
            let signals = message.signals.as_slice().len();
            push_use(alloc, &mut rows, b"sends", message, signals)?;
        }
    }
    for message in messages {
        let signals = received(node, message);
        if signals > 0 {
            push_use(alloc, &mut rows, b"receives", message, signals)?;
        }
    }
    Ok(rows)
}

/// What the node sends and receives of the messages.
fn uses_table<'a>(
    alloc: Global,
    node: &Name,
    messages: &'a [Message],
) -> Result<Table<'a>, AllocError>
    ensures { IfOk result (λ table. table ≡ uses_table node.now messages.now) }
{
    let rows = use_rows(alloc, node, messages)?;
    let totals = vec![in alloc;
        Cell::Number(sent_count(node, messages) as u128),
        Cell::Number(received_count(node, messages) as u128),
    ]?;
    Table::plain(alloc, &USES, rows, &USE_TOTALS, totals)
}

/// What the node sends and receives; `None` where the network has no such node. The error is out of memory.
pub(crate) fn node_table<'a>(
    alloc: Global,
    view: &'a View,
    node: &Name,
) -> Result<Option<Table<'a>>, AllocError>
    ensures { IfOk result (λ table. table ≡ node_table node.now view.now) }
{
    if !has_node(view.sheet.nodes(), node) {
        return Ok(None);
    }
    let table = uses_table(alloc, node, view.sheet.messages())?;
    Ok(Some(table))
}
