//! Refusals about the signals of a live message.
ghost use Rattle.std.specs.Prelude.{◌≡◌, IfOk, find, string_bytes};
ghost use Rattle.std.specs.Option.{option_copied};
ghost use Rattle.dbc_sheet.specs.Signals.{signal_is_multiplexor};
ghost use Rattle.office_reasons.specs.Signals.{has_name_of, many_texts_text, no_signal_text, second_text};
ghost use Rattle.office_reasons.specs.Signals.{signal_there_text, signals_text, unmultiplexed_text};

use crate::case::{Told, told};
use crate::few::{few_named, few_text};
use crate::networks::limit_text;
use crate::pieces::shown;
use crate::places::{mark_text, signal_text};
use bitlayout::Mux;
use dbc_sheet::{Message, Signal};
use dbc_words::{Name, SIGNAL_LIMIT, VALUE_TEXT_LIMIT};
use std::alloc::{AllocError, Global};

/// The signal of the name.
fn signal_named<'a>(signals: &'a [Signal], name: &Name) -> Option<&'a Signal>
    ensures { option_copied result ≡ find (has_name_of name.now) signals.now }
{
    signals.iter().find(|signal| signal.name == *name)
}

/// The multiplexor.
fn multiplexor(signals: &[Signal]) -> Option<&Signal>
    ensures { option_copied result ≡ find signal_is_multiplexor signals.now }
{
    signals.iter().find(|signal| signal.mux.is_multiplexor())
}

/// Which signals the message has.
fn signals_text(alloc: Global, signals: &[Signal]) -> Result<String, AllocError>
    ensures { IfOk result (λ text. string_bytes text ≡ signals_text signals.now) }
{
    match signals {
        [] => String::from_str(alloc, "it has no signals"),
        [_, ..] => {
            let names = few_named(alloc, signals)?;
            let names = names.as_str();
            format!(in alloc; "its signals: {names}")
        }
    }
}

/// That the message has no signal of the name, and which it has.
pub(crate) fn no_signal(alloc: Global, message: &Message, name: &Name) -> Result<String, AllocError>
    ensures { IfOk result (λ text. string_bytes text ≡ no_signal_text message.now name.now) }
{
    let signals = signals_text(alloc, message.signals.as_slice())?;
    let signals = signals.as_str();
    let signal = shown(name.as_bytes());
    let message = shown(message.name.as_bytes());
    format!(in alloc; "{message} has no signal {signal}; {signals}")
}

/// That the message has this signal.
fn signal_there_text(
    alloc: Global,
    message: &Message,
    signal: &Signal,
) -> Result<String, AllocError>
    ensures { IfOk result
        (λ text. string_bytes text ≡ signal_there_text message.now signal.now) }
{
    let signal = signal_text(alloc, signal)?;
    let signal = signal.as_str();
    let message = shown(message.name.as_bytes());
    format!(in alloc; "{message} has a signal {signal} already")
}

/// That the message has a signal of the name; `None` where it has none.
pub(crate) fn signal_there(alloc: Global, message: &Message, name: &Name) -> Told {
    match signal_named(message.signals.as_slice(), name) {
        Some(signal) => told(signal_there_text(alloc, message, signal)),
        None => Ok(None),
    }
}

/// That the message has this multiplexor.
fn second_text(alloc: Global, message: &Message, signal: &Signal) -> Result<String, AllocError>
    ensures { IfOk result (λ text. string_bytes text ≡ second_text message.now signal.now) }
{
    let signal = signal_text(alloc, signal)?;
    let signal = signal.as_str();
    let message = shown(message.name.as_bytes());
    format!(in alloc; "{message} has a multiplexor already, {signal}")
}

/// That the message has a multiplexor; `None` where it has none.
pub(crate) fn second_multiplexor(alloc: Global, message: &Message) -> Told {
    match multiplexor(message.signals.as_slice()) {
        Some(signal) => told(second_text(alloc, message, signal)),
        None => Ok(None),
    }
}

/// That the new signal of this name depends on a value of the multiplexor, which the message doesn't have.
pub(crate) fn unmultiplexed(
    alloc: Global,
    message: &Message,
    name: &Name,
    mux: Mux,
) -> Result<String, AllocError>
    ensures { IfOk result
        (λ text. string_bytes text ≡ unmultiplexed_text message.now name.now mux) }
{
    let mark = mark_text(alloc, mux)?;
    let mark = mark.as_str();
    let signal = shown(name.as_bytes());
    let message = shown(message.name.as_bytes());
    format!(in alloc;
        "{signal} is{mark}, and {message} has no multiplexor: take one with mux=M first"
    )
}

/// The names of the signals that depend on a value of the multiplexor.
fn dependent_names(alloc: Global, signals: &[Signal]) -> Result<Vec<String>, AllocError> {
    let mut names = Vec::new(alloc);
    for signal in signals {
        if signal.mux.is_under() {
            let name = String::from_str(alloc, shown(signal.name.as_bytes()))?;
            names.push(name)?;
        }
    }
    Ok(names)
}

/// That signals depend on the multiplexor of this name, and which.
pub(crate) fn needed(alloc: Global, message: &Message, name: &Name) -> Result<String, AllocError> {
    let dependent = dependent_names(alloc, message.signals.as_slice())?;
    let dependent = few_text(alloc, &dependent)?;
    let dependent = dependent.as_str();
    let signal = shown(name.as_bytes());
    let message = shown(message.name.as_bytes());
    format!(in alloc;
        "{signal} is the multiplexor of {message}, and these depend on it: {dependent}"
    )
}

/// That the message has as many signals as it may have.
pub(crate) fn many_signals(alloc: Global, message: &Message) -> Result<String, AllocError> {
    let name = shown(message.name.as_bytes());
    limit_text(alloc, name, SIGNAL_LIMIT, "signals", "message")
}

/// That these are more texts than a signal may have.
pub(crate) fn many_texts(alloc: Global, count: usize) -> Result<String, AllocError>
    ensures { IfOk result (λ text. string_bytes text ≡ many_texts_text count) }
{
    let most = VALUE_TEXT_LIMIT;
    format!(in alloc; "{count} texts are given, and a signal has at most {most}")
}
