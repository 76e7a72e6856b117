//! Comments: of the file, of its nodes, and of its messages and their signals.
ghost use Rattle.std.specs.Prelude.{◌∷◌, [], OnOk, codes};
ghost use Rattle.std.specs.List.{flat_map};
ghost use Rattle.dbc_grammar.specs.Canon.{comment_lines, line_text, message_comments, node_comment, number};
ghost use Rattle.dbc_grammar.specs.Canon.{signal_pieces, space, word};
ghost use Rattle.dbc_sheet.specs.Messages.{number_of};
ghost use Rattle.dbc_write.specs.Adding.{Adds};

use crate::tokens::push_all;
use dbc_sheet::{Message, Node, Signal};
use dbc_words::Text;
use itoa::Buffer;
use std::alloc::AllocError;

/// The comment of the whole file.
pub(crate) fn file_comment(text: &mut Vec<u8>, comment: &Text) -> Result<(), AllocError>
    ensures { OnOk result (Adds line_text text.old.items text.new.items
        (comment_lines [] comment.now)) }
{
    if comment.is_empty() {
        return Ok(());
    }
    push_all(text, &[b"CM_ \"", comment.as_bytes(), b"\";\n"])
}

fn node_comment(text: &mut Vec<u8>, node: &Node) -> Result<(), AllocError>
    ensures { OnOk result (Adds line_text text.old.items text.new.items (node_comment node.now)) }
{
    if node.comment.is_empty() {
        return Ok(());
    }
    push_all(
        text,
        &[
            b"CM_ BU_ ",
            node.name.as_bytes(),
            b" \"",
            node.comment.as_bytes(),
            b"\";\n",
        ],
    )
}

/// The comments of the nodes.
pub(crate) fn node_comments(text: &mut Vec<u8>, nodes: &[Node]) -> Result<(), AllocError>
    ensures { OnOk result (Adds line_text text.old.items text.new.items
        (flat_map node_comment nodes.now)) }
{
    for node in nodes {
        node_comment(text, node)?;
    }
    Ok(())
}

fn message_comment(text: &mut Vec<u8>, message: &Message) -> Result<(), AllocError>
    ensures { OnOk result (Adds line_text text.old.items text.new.items
        (comment_lines (word space (codes "BO_") ∷ number space (number_of message.now) ∷ [])
        message.now.comment)) }
{
    if message.comment.is_empty() {
        return Ok(());
    }
    let mut number = Buffer::new();
    push_all(
        text,
        &[
            b"CM_ BO_ ",
            number.format(message.number()).as_bytes(),
            b" \"",
            message.comment.as_bytes(),
            b"\";\n",
        ],
    )
}

fn signal_comment(text: &mut Vec<u8>, message: &Message, signal: &Signal) -> Result<(), AllocError>
    ensures { OnOk result (Adds line_text text.old.items text.new.items
        (comment_lines (signal_pieces message.now signal.now) signal.now.comment)) }
{
    if signal.comment.is_empty() {
        return Ok(());
    }
    let mut number = Buffer::new();
    push_all(
        text,
        &[
            b"CM_ SG_ ",
            number.format(message.number()).as_bytes(),
            b" ",
            signal.name.as_bytes(),
            b" \"",
            signal.comment.as_bytes(),
            b"\";\n",
        ],
    )
}

fn with_signals(text: &mut Vec<u8>, message: &Message) -> Result<(), AllocError>
    ensures { OnOk result (Adds line_text text.old.items text.new.items
        (message_comments message.now)) }
{
    message_comment(text, message)?;
    for signal in message.signals.as_slice() {
        signal_comment(text, message, signal)?;
    }
    Ok(())
}

/// The comments of the messages, each followed by those of its signals.
pub(crate) fn message_comments(text: &mut Vec<u8>, messages: &[Message]) -> Result<(), AllocError>
    ensures { OnOk result (Adds line_text text.old.items text.new.items
        (flat_map message_comments messages.now)) }
{
    for message in messages {
        with_signals(text, message)?;
    }
    Ok(())
}
