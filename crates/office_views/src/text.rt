//! The text of a chart.
ghost use Rattle.std.specs.Prelude.{◌≡◌, ◌<◌, ◌≤◌, length, IfOk, position, string_bytes};
ghost use Rattle.std.specs.List.{count_by, flat_map, range_with_len, enumerate_from};
ghost use Rattle.office_views.specs.Held.{IsHeldBy};
ghost use Rattle.office_views.specs.Text.{letter_of, holds, cell_of, cells_of, byte_line, layout_text, mark_text};
ghost use Rattle.office_views.specs.Text.{signal_line, name_at, names_of, verdict_of, chart_of};

use crate::signal::{ChartSignal, first_clash_of};
use bitlayout::{Clash, Layout, MASK_END, Mask, Mux, has_bit};
use columns::{concat, number_right};
use dbc_words::SheetCode;
use std::alloc::{AllocError, Global};

/// How many signals get a letter; those after them get a `+`.
const LETTERS: usize = 26;

/// The bits of a byte, as they are written from left to right.
const BITS: &[u32] = &[7, 6, 5, 4, 3, 2, 1, 0];

/// The letter of the signal at an index.
fn letter(index: usize) -> u8
    ensures { result ≡ letter_of index }
{
    if index < LETTERS {
        b'A' + index as u8
    } else {
        b'+'
    }
}

/// How many of the signals have a bit at the position.
fn holder_count(signals: &[ChartSignal], at: u32) -> usize
    ensures { result ≡ count_by (holds at) signals.now }
{
    signals
        .iter()
        .filter(|signal| has_bit(signal.place.layout, at))
        .count()
}

/// The index of the first signal that has a bit at the position.
fn first_holder(signals: &[ChartSignal], at: u32) -> Option<usize>
    ensures { result ≡ position (holds at) signals.now }
{
    signals
        .iter()
        .position(|signal| has_bit(signal.place.layout, at))
}

/// Which positions below [`MASK_END`] the signals have.
#[derive(Clone, Copy)]
struct Held {
    /// Those that at least one signal has.
    some: Mask,
    /// Those that at least two have.
    several: Mask,
}

/// The positions that the signals have.
fn held_by(signals: &[ChartSignal]) -> Held
    ensures { IsHeldBy result signals.now }
{
    let mut some = Mask::empty();
    let mut several = Mask::empty();
    for signal in signals {
        several.add_shared(&some, signal.place.layout);
        some.add_layout(signal.place.layout);
    }
    Held { some, several }
}

/// What the chart shows at a position that no two signals have.
fn single_cell(signals: &[ChartSignal], position: u32) -> u8
    requires { count_by (holds position) signals.now ≤ 1 }
    ensures { result ≡ cell_of signals.now position }
{
    match first_holder(signals, position) {
        Some(index) => letter(index),
        None => b'.',
    }
}

/// What the chart shows at a position past the masks, for which each signal is looked at.
fn far_cell(signals: &[ChartSignal], position: u32) -> u8
    ensures { result ≡ cell_of signals.now position }
{
    if holder_count(signals, position) > 1 {
        b'#'
    } else {
        single_cell(signals, position)
    }
}

/// What the chart shows at the position.
fn cell(held: &Held, signals: &[ChartSignal], position: u32) -> u8
    requires { IsHeldBy held.now signals.now }
    ensures { result ≡ cell_of signals.now position }
{
    if position >= MASK_END {
        return far_cell(signals, position);
    }
    let near = position as u16;
    if held.several.has(near) {
        b'#'
    } else if held.some.has(near) {
        single_cell(signals, position)
    } else {
        b'.'
    }
}

/// The cells of a byte, each after a space.
fn cells(
    alloc: Global,
    held: &Held,
    signals: &[ChartSignal],
    byte: u16,
) -> Result<Vec<u8>, AllocError>
    requires { IsHeldBy held.now signals.now }
    ensures { IfOk result (λ text. text.items ≡ cells_of signals.now byte) }
{
    let mut text = Vec::new(alloc);
    for bit in BITS {
        let position = 8 * u32::from(byte) + *bit;
        text.extend_from_slice(&[b' ', cell(held, signals, position)])?;
    }
    Ok(text)
}

/// The line of a byte.
fn byte_line(
    alloc: Global,
    held: &Held,
    signals: &[ChartSignal],
    byte: u16,
) -> Result<Vec<u8>, AllocError>
    requires { IsHeldBy held.now signals.now }
    ensures { IfOk result (λ text. text.items ≡ byte_line signals.now byte) }
{
    let cells = cells(alloc, held, signals, byte)?;
    let number = number_right(alloc, 4, usize::from(byte))?;
    concat(alloc, &[&number, &cells, b"\n"])
}

fn layout_text(alloc: Global, layout: Layout) -> Result<String, AllocError>
    ensures { IfOk result (λ text. string_bytes text ≡ layout_text layout) }
{
    let start = layout.start;
    let size = layout.size.bits();
    let order = layout.order.number();
    format!(in alloc; "{start}|{size}@{order}")
}

/// A space and the multiplexer indicator, if there is one.
fn mark_text(alloc: Global, mux: Mux) -> Result<String, AllocError>
    ensures { IfOk result (λ text. string_bytes text ≡ mark_text mux) }
{
    match mux {
        Mux::Always => Ok(String::new(alloc)),
        _ => format!(in alloc; " {}", mux.indicator().as_str()),
    }
}

/// The line of the signal at an index.
fn signal_line(alloc: Global, index: usize, signal: &ChartSignal) -> Result<Vec<u8>, AllocError>
    ensures { IfOk result (λ text. text.items ≡ signal_line index signal.now) }
{
    let layout = layout_text(alloc, signal.place.layout)?;
    let mark = mark_text(alloc, signal.place.mux)?;
    concat(
        alloc,
        &[
            &[letter(index), b' '],
            signal.name.as_bytes(),
            b" ",
            layout.as_bytes(),
            mark.as_bytes(),
            b"\n",
        ],
    )
}

/// The name of the signal at an index.
fn name_at(signals: &[ChartSignal], index: usize) -> &[u8]
    ensures { result.now ≡ name_at signals.now index }
{
    match signals.get(index) {
        Some(signal) => signal.name.as_bytes(),
        None => &[],
    }
}

/// The names of the signals of a clash, each after a space.
fn clash_names(alloc: Global, signals: &[ChartSignal], clash: Clash) -> Result<Vec<u8>, AllocError>
    ensures { IfOk result (λ text. text.items ≡ names_of signals.now clash) }
{
    match clash {
        Clash::Outside(index) | Clash::TwoMultiplexors(index) | Clash::NoMultiplexor(index) => {
            concat(alloc, &[b" ", name_at(signals, index)])
        }
        Clash::Overlap { earlier, later } => {
            let (earlier, later) = (name_at(signals, earlier), name_at(signals, later));
            concat(alloc, &[b" ", earlier, b" ", later])
        }
    }
}

/// The last line: `clear`, or the first clash.
fn verdict(
    alloc: Global,
    signals: &[ChartSignal],
    clash: Option<Clash>,
) -> Result<Vec<u8>, AllocError>
    ensures { IfOk result (λ text. text.items ≡ verdict_of signals.now clash) }
{
    let Some(clash) = clash else {
        return Vec::from_slice(alloc, b"clear\n");
    };
    let code = SheetCode::from(clash);
    let number = code.number();
    let number = format!(in alloc; "{number}")?;
    let names = clash_names(alloc, signals, clash)?;
    concat(
        alloc,
        &[
            number.as_bytes(),
            b" ",
            code.name().as_bytes(),
            &names,
            b"\n",
        ],
    )
}

/// The lines of the bytes.
fn byte_lines(alloc: Global, length: u16, signals: &[ChartSignal]) -> Result<Vec<u8>, AllocError>
    ensures { IfOk result (λ text. text.items ≡ flat_map (byte_line signals.now)
        (range_with_len 0 length)) }
{
    let held = held_by(signals);
    let mut lines = Vec::new(alloc);
    for byte in 0..length {
        lines.extend_from_slice(&byte_line(alloc, &held, signals, byte)?)?;
    }
    Ok(lines)
}

/// The lines of the signals.
fn signal_lines(alloc: Global, signals: &[ChartSignal]) -> Result<Vec<u8>, AllocError>
    ensures { IfOk result (λ text. text.items ≡ flat_map (λ p. signal_line p.0 p.1)
        (enumerate_from 0 signals.now)) }
{
    let mut lines = Vec::new(alloc);
    for (index, signal) in signals.iter().enumerate() {
        lines.extend_from_slice(&signal_line(alloc, index, signal)?)?;
    }
    Ok(lines)
}

/// The chart of the signals of a message of `length` bytes, as lines that end with LF.
///
/// For each byte it has a line with the byte's number, right-aligned in 4 columns, and for its bits 7 to 0 a space and
/// a cell: `.` if no signal has the bit, `#` if two or more have it, else the letter of the signal that has it.
/// The letters are `A` for the first signal to `Z` for the 26th, and `+` for each further one. A bit past the payload
/// has no cell. Then for each signal it has a line with its letter, its name, `start|size@order`, where the order is
/// 1 for Intel and 0 for Motorola, and its indicator, `M` or `mN`, if it has one. The last line is `clear`, or the
/// number and the name of the first clash and the name of its signal; for two that share a bit, the name of the
/// earlier one and then that of the later one. The error is out of memory.
pub fn chart_text(
    alloc: Global,
    length: u16,
    signals: &[ChartSignal],
) -> Result<Vec<u8>, AllocError>
    ensures { IfOk result (λ text. text.items ≡ chart_of length signals.now) }
{
    let clash = first_clash_of(alloc, length, signals)?;
    let bytes = byte_lines(alloc, length, signals)?;
    let lines = signal_lines(alloc, signals)?;
    let verdict = verdict(alloc, signals, clash)?;
    concat(alloc, &[&bytes, &lines, &verdict])
}
