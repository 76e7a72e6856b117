//! Layouts of messages: tables of the bits of a payload.
ghost use Rattle.std.specs.Prelude.{◌≡◌, IfOk, OnOk, filter, find};
ghost use Rattle.std.specs.List.{filter_map, flat_map};
ghost use Rattle.std.specs.Option.{option_copied, option_map};
ghost use Rattle.markup.specs.Writing.{Becomes, adding, beginning};
ghost use Rattle.markup.specs.declared.tag.Tag.TheVariants as tag;
ghost use Rattle.page_messages.specs.Layouts.{Adds, AreInOrder, AreLayouts, AreValueLayouts, AreValues, bit_head};
ghost use Rattle.page_messages.specs.Layouts.{bits_at, bits_html, caption_if, drawing_of, is_multiplexor, is_there};
ghost use Rattle.page_messages.specs.Layouts.{byte_words, head_row, layout_attributes, layout_heads, number_if};
ghost use Rattle.page_messages.specs.Layouts.{value_if, value_words};

use crate::bits::{Held, held_bits};
use crate::byte_rows::put_rows;
use crate::shown::Shown;
use crate::whole_texts::{text_of, whole_texts};
use bitlayout::Mux;
use dbc_sheet::{Message, Signal};
use markup::{Attribute, Markup, Piece, Tag};
use page_parts::{put_isolated, put_quiet};
use std::alloc::{AllocError, Global};

/// The bits of a byte, as they are shown from left to right.
const BITS: &[u64] = &[7, 6, 5, 4, 3, 2, 1, 0];

/// A value of a multiplexor.
#[derive(Clone, Copy)]
struct MuxValue<'a> {
    /// The name of the multiplexor.
    name: &'a [u8],
    /// The value.
    value: u32,
    /// The text of the value, if it has one.
    text: Option<&'a [u8]>,
}

/// Adds what a caption says of a value of the multiplexor.
fn put_value_words(page: &mut Markup, of: MuxValue<'_>)
    ensures { Becomes page.new (adding (value_words of.entry.name.now of.entry.value
        (option_map (λ text. text.now) of.entry.text)) page.old) }
{
    page.text(of.name);
    page.text(b" = ");
    page.number(u64::from(of.value));
    if let Some(text) = of.text {
        page.text(b", ");
        put_isolated(page, text);
    }
}

/// Adds the caption of the layout for a value of the multiplexor.
fn put_caption(page: &mut Markup, of: Option<MuxValue<'_>>)
    ensures { Becomes page.new (adding (caption_if of.entry) page.old) }
{
    if let Some(of) = of {
        page.open(Tag::Caption, &[]);
        put_value_words(page, of);
        page.close();
    }
}

/// Begins the table of a layout.
fn open_layout(page: &mut Markup, message: &Message)
    ensures { Becomes page.new
        (beginning tag.Table (layout_attributes message.now.name) page.old) }
{
    let name = message.name.as_bytes();
    page.open(
        Tag::Table,
        &[
            Attribute::Class(b"bits"),
            Attribute::Label(&[Piece::Text(b"Bits of "), Piece::Text(name)]),
        ],
    );
}

/// Adds the heads of the columns of bits.
fn put_bit_heads(page: &mut Markup, bits: &[u64])
    ensures { Becomes page.new (adding (flat_map bit_head bits.now) page.old) }
{
    for bit in bits {
        page.open(Tag::HeadCell, &[]);
        page.number(*bit);
        page.close();
    }
}

/// Adds the head of the column of bytes.
fn put_byte_words(page: &mut Markup)
    ensures { Becomes page.new (adding byte_words page.old) }
{
    page.open(Tag::HeadCell, &[]);
    page.text(b"Byte ");
    put_quiet(page, b"bits");
    page.close();
}

/// Adds the row of the heads.
#[tactic(auto, using(markup::proofs::Changes::joins), unfolding(crate::specs::Layouts::head_row))]
fn put_head_row(page: &mut Markup)
    ensures { Becomes page.new (adding head_row page.old) }
{
    page.open(Tag::Row, &[]);
    put_byte_words(page);
    put_bit_heads(page, BITS);
    page.close();
}

/// Adds the heads of a layout.
#[tactic(auto, using(markup::proofs::Changes::joins), unfolding(crate::specs::Layouts::layout_heads))]
fn put_heads(page: &mut Markup)
    ensures { Becomes page.new (adding layout_heads page.old) }
{
    page.open(Tag::TableHead, &[]);
    put_head_row(page);
    page.close();
}

/// Adds the heads and the rows of a layout, of bits in reading order.
fn put_bits(
    alloc: Global,
    page: &mut Markup,
    held: &[Held<'_>],
    length: u16,
) -> Result<(), AllocError>
    ensures { AreInOrder held.now length
        → OnOk result (Becomes page.new (adding (bits_html (bits_at held.now) length) page.old)) }
{
    put_heads(page);
    page.open(Tag::TableBody, &[]);
    put_rows(alloc, page, held, length)?;
    page.close();
    Ok(())
}

/// Whether the signal is there: always, or with this value of the multiplexor.
fn is_there(shown: &Shown<'_>, value: Option<u32>) -> bool
    ensures { result ≡ is_there value shown.now }
{
    match (shown.signal.mux, value) {
        (Mux::Under(own), Some(value)) => own == value,
        (Mux::Under(_), None) => false,
        _ => true,
    }
}

/// The signals that are there.
fn signals_there<'a>(
    alloc: Global,
    signals: &[Shown<'a>],
    value: Option<u32>,
) -> Result<Vec<Shown<'a>>, AllocError>
    ensures { IfOk result (λ there. there.items ≡ filter (is_there value) signals.now) }
{
    signals
        .iter()
        .filter(|shown| is_there(shown, value))
        .copied()
        .collect(alloc)
}

/// The value of the multiplexor on which the signal depends.
fn value_of(shown: &Shown<'_>) -> Option<u32>
    ensures { result ≡ value_if shown.now }
{
    match shown.signal.mux {
        Mux::Under(value) => Some(value),
        Mux::Always | Mux::Multiplexor => None,
    }
}

/// The value of the multiplexor for each signal that depends on one.
fn values_in(alloc: Global, signals: &[Shown<'_>]) -> Result<Vec<u32>, AllocError>
    ensures { IfOk result (λ values. values.items ≡ filter_map value_if signals.now) }
{
    signals
        .iter()
        .filter_map(|shown| value_of(shown))
        .collect(alloc)
}

/// The values of the multiplexor on which signals depend, in ascending order, each once.
fn values_of(alloc: Global, signals: &[Shown<'_>]) -> Result<Vec<u32>, AllocError>
    ensures { IfOk result (λ values. AreValues signals.now values.items) }
{
    let mut values = values_in(alloc, signals)?;
    values.sort()?;
    values.dedup();
    Ok(values)
}

/// The value of the multiplexor for which a layout is.
fn number_of(of: Option<MuxValue<'_>>) -> Option<u32>
    ensures { result ≡ number_if of.entry }
{
    of.map(|of| of.value)
}

/// Adds the layout of those signals that are there with a value of the multiplexor, or always.
fn put_layout(
    alloc: Global,
    page: &mut Markup,
    message: &Message,
    signals: &[Shown<'_>],
    of: Option<MuxValue<'_>>,
) -> Result<(), AllocError>
    ensures { OnOk result (Becomes page.new (adding (drawing_of message.now signals.now
        (number_if of.entry) (caption_if of.entry)) page.old)) }
{
    let there = signals_there(alloc, signals, number_of(of))?;
    let length = message.length.bytes();
    let held = held_bits(alloc, &there, length)?;
    open_layout(page, message);
    put_caption(page, of);
    put_bits(alloc, page, &held, length)?;
    page.close();
    Ok(())
}

/// Adds a layout for each value of the multiplexor.
fn put_value_layouts(
    alloc: Global,
    page: &mut Markup,
    message: &Message,
    signals: &[Shown<'_>],
    multiplexor: &Signal,
    values: &[u32],
) -> Result<(), AllocError>
    ensures { OnOk result (Adds (AreValueLayouts message.now signals.now multiplexor.now.name
        values.now) page.new page.old) }
{
    let texts = whole_texts(alloc, multiplexor.values.as_slice())?;
    let name = multiplexor.name.as_bytes();
    page.open(Tag::Division, &[Attribute::Class(b"grid")]);
    for one in values {
        let value = *one;
        let text = text_of(&texts, value);
        put_layout(
            alloc,
            page,
            message,
            signals,
            Some(MuxValue { name, value, text }),
        )?;
    }
    page.close();
    Ok(())
}

/// The signal that is the multiplexor.
fn multiplexor_of<'a, 'b>(signals: &'b [Shown<'a>]) -> Option<&'b Shown<'a>>
    ensures { option_copied result ≡ find is_multiplexor signals.now }
{
    signals
        .iter()
        .find(|shown| shown.signal.mux.is_multiplexor())
}

/// Adds the layouts of the message with these signals: one for each value of the multiplexor on which signals depend, or
/// one; none of a message without a payload. The error is out of memory.
pub(crate) fn put_layouts(
    alloc: Global,
    page: &mut Markup,
    message: &Message,
    signals: &[Shown<'_>],
) -> Result<(), AllocError>
    ensures { OnOk result (Adds (AreLayouts message.now signals.now) page.new page.old) }
{
    if message.length.bytes() == 0 {
        return Ok(());
    }
    let values = values_of(alloc, signals)?;
    match multiplexor_of(signals) {
        Some(shown) if !values.is_empty() => {
            put_value_layouts(alloc, page, message, signals, shown.signal, &values)
        }
        _ => put_layout(alloc, page, message, signals, None),
    }
}
