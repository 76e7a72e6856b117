//! Messages, with what other statements attach to them, in the order in which they are added to a sheet fastest.
ghost use Rattle.std.specs.Prelude.{◌≡◌, IfErr, IfOk, IsPermutation, map};
ghost use Rattle.dbc_read.specs.Attaching.{commented, line_signals, messages_of_lines};
ghost use Rattle.dbc_read.specs.Fit.{IsFit};
ghost use Rattle.dbc_read.specs.Refusal.{Unless};
ghost use Rattle.dbc_statements.specs.Parts.{message_with};
ghost use Rattle.dbc_statements.specs.Statement.{message_of};

use crate::feed::Feed;
use crate::refusal::Refusal;
use crate::signals::signals_of;
use base::Items;
use dbc_sheet::Message;
use dbc_statements::MessageLine;
use dbc_words::Text;
use std::alloc::{AllocError, Global};

/// The message of a line, with its signals.
pub(crate) fn message_of(
    alloc: Global,
    line: MessageLine,
    comment: Text,
) -> Result<Message, Refusal>
    ensures ok { IfOk result
        (λ message. message ≡ message_with (message_of line) comment (line_signals line)) }
    ensures refused { IfErr result (λ refusal. Unless refusal
        (¬ IsFit (message_with (message_of line) comment (line_signals line)))) }
{
    let (mut message, signals) = line.into_message(alloc, comment);
    message.signals = signals_of(alloc, signals)?;
    Ok(message)
}

/// The lines, each with the comment on it.
fn with_comments(
    alloc: Global,
    lines: Vec<MessageLine>,
    comments: Items<Text>,
) -> Result<Vec<(MessageLine, Text)>, AllocError>
    ensures { IfOk result (λ pairs. pairs.items ≡ commented lines.items comments) }
{
    let mut comments = Feed::of(comments);
    let mut pairs = Vec::with_capacity(alloc, lines.len())?;
    for line in lines {
        let comment = comments.next_or(Text::empty(alloc));
        pairs.push((line, comment))?;
    }
    Ok(pairs)
}

/// The lines and the comments on them.
fn apart(
    alloc: Global,
    pairs: Vec<(MessageLine, Text)>,
) -> Result<(Vec<MessageLine>, Items<Text>), AllocError>
    ensures lines { IfOk result (λ parts. parts.0.items ≡ map (λ p. p.0) pairs.items) }
    ensures comments { IfOk result (λ parts. parts.1 ≡ map (λ p. p.1) pairs.items) }
{
    let mut lines = Vec::with_capacity(alloc, pairs.len())?;
    let mut comments = Vec::with_capacity(alloc, pairs.len())?;
    for (line, comment) in pairs {
        lines.push(line)?;
        comments.push(comment)?;
    }
    Ok((lines, Items::from_vec(comments)))
}

/// The lines with the comments on them in ascending order of their numbers. Takes no memory if they are in this order.
pub(crate) fn by_number(
    alloc: Global,
    lines: Vec<MessageLine>,
    comments: Items<Text>,
) -> Result<(Vec<MessageLine>, Items<Text>), AllocError>
    ensures { IfOk result (λ sorted. IsPermutation (messages_of_lines lines.items comments)
        (messages_of_lines sorted.0.items sorted.1)) }
{
    if lines.is_sorted_by_key(|line| line.ident.to_dbc()) {
        return Ok((lines, comments));
    }
    let mut pairs = with_comments(alloc, lines, comments)?;
    pairs.sort_by_key(|pair| pair.0.ident.to_dbc())?;
    Ok(apart(alloc, pairs)?)
}
