//! Remarks on a signal.
ghost use Rattle.std.specs.Prelude.{◌≡◌, ◌++◌, OnOk};
ghost use Rattle.std.specs.List.{flat_map, list_any};
ghost use Rattle.std.specs.Option.{option_copied};
ghost use Rattle.bitlayout.specs.Mux.{is_under};
ghost use Rattle.dbc_sheet.specs.declared.signal.Signal as declared;
ghost use Rattle.dbc_lint.specs.Numbers.{is_zero};
ghost use Rattle.dbc_lint.specs.OfSignal.{is_long, is_mux_outside, is_mux_unused, is_other_size, multiplexor_of};
ghost use Rattle.dbc_lint.specs.OfSignal.{of_kind, of_signal, signal_has, signal_kinds, signal_words, unknown_node};

use crate::kind::Kind;
use crate::numbers::is_above;
use crate::of_spn::add_spn_twice;
use crate::of_values::{add_values_outside, add_values_twice};
use crate::range::has_range_outside;
use crate::remark::{Remark, add_when, add_word_when, with_word};
use crate::whole::Whole;
use bitlayout::{Mux, Size};
use dbc_sheet::{Message, Signal};
use dbc_words::{Name, ValueType};
use std::alloc::{AllocError, Global};

/// How many bytes of a name tools keep that cut it.
const SHORT_NAME_LIMIT: usize = 32;

/// Whether tools cut the name.
pub(crate) fn is_long(name: &Name) -> bool
    ensures { result ≡ is_long name.now }
{
    name.as_bytes().len() > SHORT_NAME_LIMIT
}

/// Whether the type is a float of another size.
fn is_other_size(value_type: ValueType, size: Size) -> bool
    ensures { result ≡ is_other_size value_type size }
{
    match value_type {
        ValueType::Integer => false,
        ValueType::Float => size.bits() != 32,
        ValueType::Double => size.bits() != 64,
    }
}

/// The multiplexor.
fn multiplexor_of(signals: &[Signal]) -> Option<&Signal>
    ensures { option_copied result ≡ multiplexor_of signals.now }
{
    for signal in signals {
        if signal.mux.is_multiplexor() {
            return Some(signal);
        }
    }
    None
}

/// Whether a signal is present at a value that needs more bits than the multiplexor has.
fn is_mux_outside(multiplexor: Option<&Signal>, mux: Mux) -> bool
    ensures { result ≡ is_mux_outside (option_copied multiplexor.entry) mux }
{
    match (multiplexor, mux) {
        (Some(multiplexor), Mux::Under(value)) => {
            u128::from(value) >= 2u128.pow(u32::from(multiplexor.layout.size.bits()))
        }
        _ => false,
    }
}

/// Whether one of the signals depends on the multiplexor.
fn one_is_under(signals: &[Signal]) -> bool
    ensures { result ≡ list_any (λ (o : declared.Signal). is_under o.mux) signals.now }
{
    signals.iter().any(|other| other.mux.is_under())
}

/// Whether the signal is the multiplexor, and none depends on it.
fn is_mux_unused(signals: &[Signal], signal: &Signal) -> bool
    ensures { result ≡ is_mux_unused signals.now signal.now }
{
    signal.mux.is_multiplexor() && !one_is_under(signals)
}

/// Whether the signal of the message has what the kind of remark is about.
fn signal_has(kind: Kind, message: &Message, signal: &Signal) -> bool
    ensures { result ≡ signal_has kind message.now signal.now }
{
    let signals = message.signals.as_slice();
    match kind {
        Kind::LongName => is_long(&signal.name),
        Kind::ZeroFactor => signal.factor.is_zero(),
        Kind::RangeInverted => is_above(&signal.minimum, &signal.maximum),
        Kind::RangeOutside => has_range_outside(signal),
        Kind::FloatSize => is_other_size(signal.value_type, signal.layout.size),
        Kind::MuxOutside => is_mux_outside(multiplexor_of(signals), signal.mux),
        Kind::MuxUnused => is_mux_unused(signals, signal),
        _ => false,
    }
}

/// The kinds of the short tests.
const SIGNAL_KINDS: [Kind; 7] = [
    Kind::LongName,
    Kind::ZeroFactor,
    Kind::RangeInverted,
    Kind::RangeOutside,
    Kind::FloatSize,
    Kind::MuxOutside,
    Kind::MuxUnused,
];

/// Adds the remarks of the short tests.
fn add_of_kinds(
    alloc: Global,
    message: &Message,
    signal: &Signal,
    words: &[u8],
    at: usize,
    remarks: &mut Vec<Remark>,
) -> Result<(), AllocError>
    requires { words.now ≡ signal_words message.now signal.now }
    ensures { OnOk result (remarks.new.items ≡ remarks.old.items
        ++ flat_map (of_kind message.now signal.now at) signal_kinds) }
{
    for kind in SIGNAL_KINDS.as_slice() {
        let holds = signal_has(*kind, message, signal);
        add_when(alloc, holds, *kind, at, words, remarks)?;
    }
    Ok(())
}

/// Adds a remark if the sheet has no node of the name.
pub(crate) fn add_unknown_node(
    alloc: Global,
    whole: &Whole,
    words: &[u8],
    at: usize,
    name: &Name,
    remarks: &mut Vec<Remark>,
) -> Result<(), AllocError>
    ensures { OnOk result (remarks.new.items ≡ remarks.old.items
        ++ unknown_node whole.now words.now at name.now) }
{
    let holds = !whole.has_node(name);
    let word = name.as_bytes();
    add_word_when(alloc, holds, Kind::UnknownNode, at, words, word, remarks)
}

/// Adds the remarks on receivers.
fn add_unknown_nodes(
    alloc: Global,
    whole: &Whole,
    words: &[u8],
    at: usize,
    names: &[Name],
    remarks: &mut Vec<Remark>,
) -> Result<(), AllocError>
    ensures { OnOk result (remarks.new.items ≡ remarks.old.items
        ++ flat_map (unknown_node whole.now words.now at) names.now) }
{
    for name in names {
        add_unknown_node(alloc, whole, words, at, name, remarks)?;
    }
    Ok(())
}

/// Adds the remarks on a signal of the message.
pub(crate) fn add_of_signal(
    alloc: Global,
    whole: &Whole,
    message: &Message,
    signal: &Signal,
    at: usize,
    remarks: &mut Vec<Remark>,
) -> Result<(), AllocError>
    ensures { OnOk result (remarks.new.items ≡ remarks.old.items
        ++ of_signal whole.now message.now signal.now at) }
{
    let words = with_word(alloc, message.name.as_bytes(), signal.name.as_bytes())?;
    add_of_kinds(alloc, message, signal, &words, at, remarks)?;
    add_spn_twice(alloc, whole, message, signal, &words, at, remarks)?;
    add_values_outside(alloc, &words, at, signal, remarks)?;
    add_values_twice(alloc, &words, at, signal.values.as_slice(), remarks)?;
    let receivers = signal.receivers.as_slice();
    add_unknown_nodes(alloc, whole, &words, at, receivers, remarks)
}
