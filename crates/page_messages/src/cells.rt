//! The cells of a byte: neighbouring bits that the same signals hold are one.
ghost use Rattle.std.specs.Prelude.{◌≡◌, ◌+◌, ◌^◌, ◌<◌, IfOk, OnOk};
ghost use Rattle.std.specs.List.{flat_map};
ghost use Rattle.std.specs.List.Sorted.{IsNonDecreasingBy};
ghost use Rattle.markup.specs.Html.{words};
ghost use Rattle.markup.specs.Writing.{Becomes, adding, beginning};
ghost use Rattle.markup.specs.declared.tag.Tag.TheVariants as tag;
ghost use Rattle.page_messages.specs.Layouts.{bits_at, cell_html, cells_html, clash_cell, clash_number, clash_title};
ghost use Rattle.page_messages.specs.Layouts.{clash_attributes, mux_class, place_of, raw_bits, raw_mark, signal_attributes};
ghost use Rattle.page_messages.specs.Layouts.{signal_cell, signal_words};

use crate::bits::{Held, are_alike, held_at};
use bitlayout::Mux;
use dbc_sheet::Signal;
use markup::{Attribute, Markup, Piece, Tag};
use std::alloc::{AllocError, Global};

/// Adds bits of a raw value.
fn put_raw_range(page: &mut Markup, high: u32, low: u32)
    ensures { Becomes page.new (adding (raw_bits high low) page.old) }
{
    page.number(u64::from(high));
    if high != low {
        page.text(b":");
        page.number(u64::from(low));
    }
}

/// Adds which bits of the raw value these are, unless they are all of it.
fn put_raw_bits(page: &mut Markup, signal: &Signal, high: u32, low: u32)
    ensures { Becomes page.new (adding (raw_mark signal.now high low) page.old) }
{
    let size = u32::from(signal.layout.size.bits());
    if high.saturating_sub(low) != size - 1 {
        page.text(b" ");
        page.open(Tag::Span, &[Attribute::Class(b"q")]);
        put_raw_range(page, high, low);
        page.close();
    }
}

/// The class of a cell of the signal.
fn class_of(signal: &Signal) -> &'static [u8]
    ensures { result.now ≡ mux_class signal.now.mux }
{
    match signal.mux {
        Mux::Under(_) => b"v",
        Mux::Always | Mux::Multiplexor => b"u",
    }
}

/// Adds what is in the cell of one signal.
fn put_signal_words(page: &mut Markup, high: &Held<'_>, low: &Held<'_>)
    ensures { Becomes page.new (adding (signal_words high.now low.now) page.old) }
{
    let signal = high.by.signal;
    high.by.put_star(page);
    page.number(high.by.number());
    page.text(b" ");
    page.text(signal.name.as_bytes());
    put_raw_bits(page, signal, high.raw, low.raw);
}

/// Begins the cell of a signal.
fn open_signal_cell(page: &mut Markup, columns: usize, signal: &Signal)
    ensures { Becomes page.new
        (beginning tag.Cell (signal_attributes columns signal.now) page.old) }
{
    page.open(
        Tag::Cell,
        &[
            Attribute::Class(class_of(signal)),
            Attribute::Columns(columns),
            Attribute::Title(&[Piece::Text(signal.name.as_bytes())]),
        ],
    );
}

/// Adds the cell of one signal, from the higher to the lower bit.
fn put_signal_cell(page: &mut Markup, columns: usize, high: &Held<'_>, low: &Held<'_>)
    ensures { Becomes page.new (adding (signal_cell columns high.now low.now) page.old) }
{
    open_signal_cell(page, columns, high.by.signal);
    put_signal_words(page, high, low);
    page.close();
}

/// What is shown of a cell of several signals that is pointed at: their names.
fn clash_title<'a>(alloc: Global, held: &[Held<'a>]) -> Result<Vec<Piece<'a>>, AllocError>
    ensures { IfOk result (λ title. words title.items ≡ clash_title held.now) }
{
    let mut title = Vec::new(alloc);
    title.push(Piece::Text(b"clash: "))?;
    if let [first, later @ ..] = held {
        title.push(Piece::Text(first.by.signal.name.as_bytes()))?;
        for bit in later {
            title.push(Piece::Text(b", "))?;
            title.push(Piece::Text(bit.by.signal.name.as_bytes()))?;
        }
    }
    Ok(title)
}

/// Adds the numbers of several signals.
fn put_numbers(page: &mut Markup, held: &[Held<'_>])
    ensures { Becomes page.new (adding (flat_map clash_number held.now) page.old) }
{
    for bit in held {
        page.text(b" ");
        page.number(bit.by.number());
    }
}

/// Begins the cell of several signals.
fn open_clash_cell(page: &mut Markup, columns: usize, title: &[Piece<'_>])
    ensures { Becomes page.new
        (beginning tag.Cell (clash_attributes columns (words title.now)) page.old) }
{
    page.open(
        Tag::Cell,
        &[
            Attribute::Class(b"x"),
            Attribute::Columns(columns),
            Attribute::Title(title),
        ],
    );
}

/// Adds the cell of several signals.
fn put_clash_cell(
    alloc: Global,
    page: &mut Markup,
    columns: usize,
    held: &[Held<'_>],
) -> Result<(), AllocError>
    ensures { OnOk result
        (Becomes page.new (adding (clash_cell columns held.now) page.old)) }
{
    let title = clash_title(alloc, held)?;
    open_clash_cell(page, columns, &title);
    page.text(b"clash");
    put_numbers(page, held);
    page.close();
    Ok(())
}

/// Adds the cell of so many bits; these signals hold the first of them, and these the last.
fn put_cell(
    alloc: Global,
    page: &mut Markup,
    columns: usize,
    first: &[Held<'_>],
    last: &[Held<'_>],
) -> Result<(), AllocError>
    ensures { OnOk result
        (Becomes page.new (adding (cell_html columns first.now last.now) page.old)) }
{
    match first {
        [] => {
            page.element(
                Tag::Cell,
                &[Attribute::Class(b"free"), Attribute::Columns(columns)],
                &[],
            );
            Ok(())
        }
        [high] => match last {
            [low] => {
                put_signal_cell(page, columns, high, low);
                Ok(())
            }
            [] => put_clash_cell(alloc, page, columns, first),
            [_, _, ..] => put_clash_cell(alloc, page, columns, first),
        },
        [_, _, ..] => put_clash_cell(alloc, page, columns, first),
    }
}

/// Adds the cells of the byte from this place on.
pub(crate) fn put_cells(
    alloc: Global,
    page: &mut Markup,
    start: u32,
    held: &[Held<'_>],
) -> Result<(), AllocError>
    ensures { IsNonDecreasingBy place_of held.now → start + 8 < 2 ^ 32
        → OnOk result (Becomes page.new (adding (cells_html (bits_at held.now) start) page.old)) }
{
    let end = start.saturating_add(8);
    let mut from = start;
    let mut first = held_at(held, start);
    let mut last = first;
    for place in start.saturating_add(1)..end {
        let here = held_at(held, place);
        if !are_alike(last, here) {
            let columns = place.saturating_sub(from) as usize;
            put_cell(alloc, page, columns, first, last)?;
            from = place;
            first = here;
        }
        last = here;
    }
    put_cell(alloc, page, end.saturating_sub(from) as usize, first, last)
}
