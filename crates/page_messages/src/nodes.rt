//! The nodes, and what they send and receive.
ghost use Rattle.std.specs.Prelude.{◌≡◌, ◌<◌, ◌^◌, OnOk, length};
ghost use Rattle.std.specs.List.{flat_map};
ghost use Rattle.markup.specs.Writing.{Becomes, adding};
ghost use Rattle.office_views.specs.Sending.{receives_some};
ghost use Rattle.office_views.specs.Tally.{times};
ghost use Rattle.page_parts.specs.Subjects.{messages_of};
ghost use Rattle.page_messages.specs.Nodes.{comment_html, counts_row, is_large, matrix_row, meeting, node_head};
ghost use Rattle.page_messages.specs.Nodes.{node_row, receives_html, sends_html, with_matrix};
ghost use Rattle.page_messages.specs.Nodes.{with_matrix_heads, with_node_table, with_nodes};

use crate::names::put_message_head;
use dbc_sheet::{Message, Node};
use dbc_words::{Name, Text};
use markup::{Attribute, Markup, Piece, Tag};
use office_views::{Tally, received_tally, receives, sends, sent_tally};
use page_parts::{Subject, open_part, open_table, open_wide, put_isolated, put_number_cell};
use std::alloc::{AllocError, Global};

/// The matrix is shown up to so many nodes.
const MOST_NODES: usize = 40;

/// The matrix is shown up to so many messages.
const MOST_MESSAGES: usize = 1024;

/// Adds what somebody wrote of a node, if anything.
fn put_comment(page: &mut Markup, comment: &Text)
    ensures { Becomes page.new (adding (comment_html comment.now) page.old) }
{
    let comment = comment.as_bytes();
    if !comment.is_empty() {
        put_isolated(page, comment);
    }
}

/// Adds the row of a node.
fn put_node_row(page: &mut Markup, sent: &Tally, received: &Tally, node: &Node)
    ensures { Becomes page.new (adding (counts_row (times sent.now node.now.name)
        (times received.now node.now.name) node.now) page.old) }
{
    page.open(Tag::Row, &[]);
    page.element(Tag::HeadCell, &[], node.name.as_bytes());
    put_number_cell(page, sent.times(&node.name) as u64);
    put_number_cell(page, received.times(&node.name) as u64);
    page.open(Tag::Cell, &[]);
    put_comment(page, &node.comment);
    page.close();
    page.close();
}

/// Adds a row for each node.
fn put_node_rows(
    alloc: Global,
    page: &mut Markup,
    messages: &[Message],
    nodes: &[Node],
) -> Result<(), AllocError>
    requires { length messages.now < 2 ^ 64 }
    ensures { OnOk result
        (Becomes page.new (adding (flat_map (node_row messages.now) nodes.now) page.old)) }
{
    let sent = sent_tally(alloc, messages)?;
    let received = received_tally(alloc, messages)?;
    for node in nodes {
        put_node_row(page, &sent, &received, node);
    }
    Ok(())
}

/// Adds the table of the nodes.
fn put_node_table(
    alloc: Global,
    page: &mut Markup,
    messages: &[Message],
    nodes: &[Node],
) -> Result<(), AllocError>
    requires { length messages.now < 2 ^ 64 }
    ensures { OnOk result (Becomes page.new (with_node_table messages.now nodes.now page.old)) }
{
    open_wide(page, &[Piece::Text(b"Nodes")]);
    open_table(page, b"nums", &[b"Node", b"Sends", b"Receives", b"Comment"]);
    put_node_rows(alloc, page, messages, nodes)?;
    page.close();
    page.close();
    page.close();
    Ok(())
}

/// Adds the head of a node's column.
fn put_node_head(page: &mut Markup, node: &Node)
    ensures { Becomes page.new (adding (node_head node.now) page.old) }
{
    page.open(Tag::HeadCell, &[]);
    page.element(Tag::Span, &[], node.name.as_bytes());
    page.close();
}

/// Adds a head of the matrix for each node.
fn put_node_heads(page: &mut Markup, nodes: &[Node])
    ensures { Becomes page.new (adding (flat_map node_head nodes.now) page.old) }
{
    for node in nodes {
        put_node_head(page, node);
    }
}

/// Begins the matrix, up to its rows. Three calls of `close` end it.
fn open_matrix(page: &mut Markup, nodes: &[Node])
    ensures { Becomes page.new (with_matrix_heads nodes.now page.old) }
{
    open_wide(
        page,
        &[Piece::Text(b"Which node sends and receives which message")],
    );
    page.open(Tag::Table, &[Attribute::Class(b"matrix")]);
    page.open(Tag::TableHead, &[]);
    page.open(Tag::Row, &[]);
    page.element(Tag::HeadCell, &[], b"S sends, r receives");
    put_node_heads(page, nodes);
    page.close();
    page.close();
    page.open(Tag::TableBody, &[]);
}

/// Whether the node receives a signal of the message.
fn receives_some(node: &Name, message: &Message) -> bool
    ensures { result ≡ receives_some node.now message.now }
{
    let count = message
        .signals
        .as_slice()
        .iter()
        .filter(|signal| receives(node, signal))
        .count();
    0 < count
}

/// Adds an S, if the node sends the message.
fn put_sends(page: &mut Markup, message: &Message, node: &Node)
    ensures { Becomes page.new (adding (sends_html message.now node.now) page.old) }
{
    if sends(&node.name, message) {
        page.element(Tag::Bold, &[], b"S");
    }
}

/// Adds an r, if the node receives a signal of the message.
fn put_receives(page: &mut Markup, message: &Message, node: &Node)
    ensures { Becomes page.new (adding (receives_html message.now node.now) page.old) }
{
    if receives_some(&node.name, message) {
        page.text(b"r");
    }
}

/// Adds whether the node sends the message, and whether it receives a signal of it.
fn put_meeting(page: &mut Markup, message: &Message, node: &Node)
    ensures { Becomes page.new (adding (meeting message.now node.now) page.old) }
{
    page.open(Tag::Cell, &[]);
    put_sends(page, message, node);
    put_receives(page, message, node);
    page.close();
}

/// Adds a cell for each node.
fn put_meetings(page: &mut Markup, message: &Message, nodes: &[Node])
    ensures { Becomes page.new (adding (flat_map (meeting message.now) nodes.now) page.old) }
{
    for node in nodes {
        put_meeting(page, message, node);
    }
}

/// Adds the row of a message.
fn put_matrix_row(page: &mut Markup, message: &Message, nodes: &[Node])
    ensures { Becomes page.new (adding (matrix_row nodes.now message.now) page.old) }
{
    page.open(Tag::Row, &[]);
    put_message_head(page, message);
    put_meetings(page, message, nodes);
    page.close();
}

/// Adds a row for each message.
fn put_matrix_rows(page: &mut Markup, messages: &[Message], nodes: &[Node])
    ensures { Becomes page.new (adding (flat_map (matrix_row nodes.now) messages.now) page.old) }
{
    for message in messages {
        put_matrix_row(page, message, nodes);
    }
}

/// Whether the matrix is too large to be shown.
fn is_large(messages: &[Message], nodes: &[Node]) -> bool
    ensures { result ≡ is_large messages.now nodes.now }
{
    nodes.len() > MOST_NODES || messages.len() > MOST_MESSAGES
}

/// Adds the matrix, unless it is too large.
fn put_matrix(page: &mut Markup, messages: &[Message], nodes: &[Node])
    ensures { Becomes page.new (with_matrix messages.now nodes.now page.old) }
{
    if is_large(messages, nodes) {
        return;
    }
    open_matrix(page, nodes);
    put_matrix_rows(page, messages, nodes);
    page.close();
    page.close();
    page.close();
}

/// Adds the part with the nodes, if there are some. The error is out of memory.
pub fn put_nodes(alloc: Global, page: &mut Markup, subject: &Subject<'_>) -> Result<(), AllocError>
    ensures { OnOk result (Becomes page.new
        (with_nodes (messages_of subject.now) subject.now.sheet.now.nodes page.old)) }
{
    let messages = subject.sheet.messages();
    let nodes = subject.sheet.nodes();
    if nodes.is_empty() {
        return Ok(());
    }
    open_part(page, b"nodes", b"Nodes", None);
    page.open(Tag::Division, &[Attribute::Class(b"pair")]);
    put_node_table(alloc, page, messages, nodes)?;
    put_matrix(page, messages, nodes);
    page.close();
    page.close();
    Ok(())
}
