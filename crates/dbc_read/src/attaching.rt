//! What statements attach to signals, set in these at once.
ghost use Rattle.std.specs.Prelude.{◌≡◌, ◌<◌, length, map};
ghost use Rattle.dbc_read.specs.Attaching.{HasSignal, all_signals, at_index, flat_index, with_attachment};
ghost use Rattle.dbc_statements.specs.Statement.{message_of};

use dbc_sheet::{Signal, ValueTexts};
use dbc_statements::MessageLine;
use dbc_words::{Spn, Text, ValueType};

/// What a statement attaches to a signal.
#[derive(Drop)]
pub(crate) enum Attachment {
    /// Its comment.
    Comment(Text),
    /// Texts for its values.
    Values(ValueTexts),
    /// Its type.
    Type(ValueType),
    /// Its suspect parameter number.
    Spn(Spn),
}

/// Where a signal is in the messages.
#[derive(Clone, Copy)]
pub(crate) struct SignalIndices {
    /// The index of its message.
    pub message: usize,
    /// Its own index among that message's signals.
    pub signal: usize,
}

/// Sets what is attached in the signal.
#[inline(always)]
fn attach_to(signal: &mut Signal, attachment: Attachment)
    ensures { signal.new ≡ with_attachment attachment signal.old }
{
    match attachment {
        Attachment::Comment(text) => signal.comment = text,
        Attachment::Values(texts) => signal.values = texts,
        Attachment::Type(value_type) => signal.value_type = value_type,
        Attachment::Spn(spn) => signal.spn = spn,
    }
}

/// Sets what is attached in the signal at this index.
#[inline(always)]
fn attach_in(signals: &mut [Signal], at: usize, attachment: Attachment)
    requires { at < length signals.old }
    ensures { signals.new ≡ at_index (with_attachment attachment) signals.old at }
{
    attach_to(&mut signals[at], attachment);
}

/// Sets what is attached in the signal at these indices.
#[inline(always)]
#[tactic(auto, using(crate::proofs::SignalIndices::message_within))]
pub(crate) fn attach_at(lines: &mut [MessageLine], indices: SignalIndices, attachment: Attachment)
    requires { HasSignal lines.old indices.message indices.signal }
    ensures messages { map message_of lines.new ≡ map message_of lines.old }
    ensures signals { all_signals lines.new ≡ at_index (with_attachment attachment)
        (all_signals lines.old)
        (flat_index lines.old indices.message indices.signal) }
{
    attach_in(
        &mut lines[indices.message].signals,
        indices.signal,
        attachment,
    );
}
