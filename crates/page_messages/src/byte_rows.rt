//! The rows of a layout.
ghost use Rattle.std.specs.Prelude.{◌+◌, ◌^◌, ◌<◌, OnOk};
ghost use Rattle.std.specs.List.Sorted.{IsNonDecreasingBy};
ghost use Rattle.markup.specs.Writing.{Becomes, adding};
ghost use Rattle.page_messages.specs.Layouts.{AreInOrder, bits_at, byte_head, byte_row, free_rows, place_of};
ghost use Rattle.page_messages.specs.Layouts.{position_words, rows_html, run_head};

use crate::bits::Held;
use crate::cells::put_cells;
use columns::Run;
use markup::{Attribute, Markup, Tag};
use page_parts::put_runs;
use std::alloc::{AllocError, Global};

/// The columns of a byte.
const COLUMNS: usize = 8;

/// Adds the head of the row of bytes, from the first to the last.
fn put_run_head(page: &mut Markup, run: Run)
    ensures { Becomes page.new (adding (run_head run) page.old) }
{
    page.open(Tag::HeadCell, &[]);
    put_runs(page, &[run]);
    page.close();
}

/// Adds the row of bytes that no signal has, from the first up to the end, if there are some.
fn put_free_row(page: &mut Markup, first: u32, end: u32)
    ensures { Becomes page.new (adding (free_rows first end) page.old) }
{
    if first < end {
        let last = end - 1;
        page.open(Tag::Row, &[]);
        put_run_head(page, Run { first, last });
        page.element(
            Tag::Cell,
            &[Attribute::Class(b"eq"), Attribute::Columns(COLUMNS)],
            b"free",
        );
        page.close();
    }
}

/// Adds the positions of the byte from this place on.
fn put_positions(page: &mut Markup, start: u32)
    ensures { Becomes page.new (adding (position_words start) page.old) }
{
    page.open(Tag::Span, &[Attribute::Class(b"q")]);
    page.number(u64::from(start) + 7);
    page.text(b"-");
    page.number(u64::from(start));
    page.close();
}

/// Adds the head of the row of the byte from this place on.
fn put_byte_head(page: &mut Markup, start: u32)
    ensures { Becomes page.new (adding (byte_head start) page.old) }
{
    page.open(Tag::HeadCell, &[]);
    page.number(u64::from(start / 8));
    page.text(b" ");
    put_positions(page, start);
    page.close();
}

/// Adds the row of the byte from this place on.
fn put_byte_row(
    alloc: Global,
    page: &mut Markup,
    start: u32,
    held: &[Held<'_>],
) -> Result<(), AllocError>
    ensures { IsNonDecreasingBy place_of held.now → start + 8 < 2 ^ 32
        → OnOk result (Becomes page.new (adding (byte_row (bits_at held.now) start) page.old)) }
{
    page.open(Tag::Row, &[]);
    put_byte_head(page, start);
    put_cells(alloc, page, start, held)?;
    page.close();
    Ok(())
}

/// Adds the rows of a payload of this length, of the bits that are held, in reading order: one for each byte in which a
/// signal has a bit, and one for all neighbours in which none has.
pub(crate) fn put_rows(
    alloc: Global,
    page: &mut Markup,
    held: &[Held<'_>],
    length: u16,
) -> Result<(), AllocError>
    ensures { AreInOrder held.now length
        → OnOk result (Becomes page.new (adding (rows_html (bits_at held.now) length) page.old)) }
{
    let mut next = 0u32;
    for bit in held {
        let byte = bit.place / 8;
        if byte >= next {
            put_free_row(page, next, byte);
            put_byte_row(alloc, page, 8 * byte, held)?;
            next = byte + 1;
        }
    }
    put_free_row(page, next, u32::from(length));
    Ok(())
}
