//! What statements attach, in the order of the signals, moved into these.
ghost use Rattle.std.specs.Prelude.{◌≡◌, IfErr, OnOk, map};
ghost use Rattle.std.specs.List.{AllByRecursion};
ghost use Rattle.dbc_read.specs.Attaching.{each_fed, line_signals};
ghost use Rattle.dbc_read.specs.Built.{feeds_after, next_signal, rest_of, signals_from};
ghost use Rattle.dbc_read.specs.Fit.{HaveFewTexts};
ghost use Rattle.dbc_read.specs.Refusal.{Unless};
ghost use Rattle.dbc_statements.specs.Statement.{message_of, signal_of, signals_of};

use crate::feed::Feeds;
use crate::refusal::Refusal;
use dbc_sheet::Signal;
use dbc_statements::{Entries, MessageLine};
use dbc_words::{Spn, Text, ValueType};
use std::alloc::Global;

/// The signal takes the next of what is attached to signals, in place of what it has.
fn feed_signal(alloc: Global, signal: &mut Signal, feeds: &mut Feeds) -> Result<(), Refusal>
    ensures stays { signal_of signal.new ≡ signal_of signal.old }
    ensures fed { OnOk result (signal.new ≡ next_signal (signal_of signal.old) feeds.old) }
    ensures rest { OnOk result (feeds.new ≡ rest_of feeds.old) }
    ensures refused { IfErr result (λ refusal. Unless refusal
        (¬ HaveFewTexts (next_signal (signal_of signal.old) feeds.old))) }
{
    let entries = feeds.values.next_or(Entries::empty(alloc));
    let values = entries.into_texts().ok_or(Refusal::NoSheet)?;
    signal.values = values;
    signal.comment = feeds.comments.next_or(Text::empty(alloc));
    signal.spn = feeds.spns.next_or(Spn::NONE);
    signal.value_type = feeds.types.next_or(ValueType::Integer);
    Ok(())
}

/// Each of the signals takes the next of what is attached.
fn feed_signals(alloc: Global, signals: &mut [Signal], feeds: &mut Feeds) -> Result<(), Refusal>
    ensures stays { signals_of signals.new ≡ signals_of signals.old }
    ensures fed { OnOk result (signals.new ≡ signals_from (signals_of signals.old) feeds.old) }
    ensures rest { OnOk result (feeds.new ≡ feeds_after (signals_of signals.old) feeds.old) }
    ensures refused { IfErr result (λ refusal. Unless refusal
        (¬ AllByRecursion HaveFewTexts (signals_from (signals_of signals.old) feeds.old))) }
{
    for at in 0..signals.len() {
        feed_signal(alloc, &mut signals[at], feeds)?;
    }
    Ok(())
}

/// The signals of the message take the next of what is attached.
fn feed_line(alloc: Global, line: &mut MessageLine, feeds: &mut Feeds) -> Result<(), Refusal>
    ensures stays { message_of line.new ≡ message_of line.old }
    ensures fed { OnOk result
        (line_signals line.new ≡ signals_from (signals_of line.old.signals.items) feeds.old) }
    ensures rest { OnOk result
        (feeds.new ≡ feeds_after (signals_of line.old.signals.items) feeds.old) }
    ensures refused { IfErr result (λ refusal. Unless refusal
        (¬ AllByRecursion HaveFewTexts
        (signals_from (signals_of line.old.signals.items) feeds.old))) }
{
    feed_signals(alloc, &mut line.signals, feeds)
}

/// The signals of all messages take what is attached, in their order.
pub(crate) fn feed_lines(
    alloc: Global,
    lines: &mut [MessageLine],
    feeds: Feeds,
) -> Result<(), Refusal>
    ensures stays { map message_of lines.new ≡ map message_of lines.old }
    ensures fed { OnOk result
        (map line_signals lines.new ≡ each_fed (map message_of lines.old) feeds) }
    ensures refused { IfErr result (λ refusal. Unless refusal
        (¬ AllByRecursion (AllByRecursion HaveFewTexts)
        (each_fed (map message_of lines.old) feeds))) }
{
    let mut feeds = feeds;
    for at in 0..lines.len() {
        feed_line(alloc, &mut lines[at], &mut feeds)?;
    }
    Ok(())
}
