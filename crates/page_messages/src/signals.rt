//! The table of a message's signals.
ghost use Rattle.std.specs.Prelude.{◌≡◌, IfOk, OnOk, codes, map};
ghost use Rattle.std.specs.Cmp.Lexicographic.{pointwise};
ghost use Rattle.std.specs.List.{join_by, list_all};
ghost use Rattle.std.specs.Str.{bytes_eq};
ghost use Rattle.markup.specs.Html.{escaped};
ghost use Rattle.markup.specs.Writing.{Becomes, adding};
ghost use Rattle.page_messages.specs.Signals.{column_cells, columns_of, comment_words, decimal_cell};
ghost use Rattle.page_messages.specs.Signals.{has_common_receivers, listed_of, mux_mark, name_cell, note_cell};
ghost use Rattle.page_messages.specs.Signals.{outside_mark, place_cells, range_cell, receivers_cell, signal_cells};
ghost use Rattle.page_messages.specs.Signals.{signal_heads, signal_row, signal_table, signals_html, spn_cell};
ghost use Rattle.page_messages.specs.Signals.{start_words, unit_cell, value_cells};

use crate::facts::{coding_of, common_coding};
use crate::shown::Shown;
use crate::tables::put_texts;
use bitlayout::{Mux, inside};
use dbc_sheet::{Message, Receivers, Signal};
use dbc_words::Name;
use decimal::Decimal;
use markup::{Attribute, Markup, Tag};
use page_parts::{open_table, put_decimal, put_isolated, put_number_cell};
use std::alloc::{AllocError, Global};

/// How many texts of a signal aren't folded.
const SHOWN_TEXTS: usize = 16;

/// The heads of the columns that are always there, but the last one.
const HEADS: &[&[u8]] = &[
    b"#",
    b"Signal",
    b"Start|bits",
    b"Factor",
    b"Offset",
    b"Range",
    b"Unit",
    b"SPN",
];

/// Which columns are there that aren't always.
#[derive(Clone, Copy)]
struct Columns {
    /// How the signals are coded.
    codings: bool,
    /// Who receives them.
    receivers: bool,
}

/// Whether all signals have these receivers.
fn have_receivers(signals: &[Signal], receivers: &Receivers) -> bool
    ensures { result
        ≡ list_all (λ signal. pointwise bytes_eq signal.receivers receivers.now) signals.now }
{
    signals.iter().all(|signal| signal.receivers == *receivers)
}

/// Whether all signals have the same receivers.
fn have_common_receivers(signals: &[Signal]) -> bool
    ensures { result ≡ has_common_receivers signals.now }
{
    match signals.split_first() {
        Some((first, others)) => have_receivers(others, &first.receivers),
        None => true,
    }
}

/// Which columns are there: those of what isn't common to all signals.
fn columns_of(signals: &[Signal]) -> Columns
    ensures { result ≡ columns_of signals.now }
{
    Columns {
        codings: !common_coding(signals).is_some(),
        receivers: !have_common_receivers(signals),
    }
}

/// The heads of all columns.
fn heads_of(alloc: Global, columns: Columns) -> Result<Vec<&'static [u8]>, AllocError>
    ensures { IfOk result (λ heads. map (λ head. head.now) heads.items ≡ signal_heads columns) }
{
    let mut heads = Vec::from_slice(alloc, HEADS)?;
    if columns.codings {
        heads.push(b"Coding")?;
    }
    if columns.receivers {
        heads.push(b"Receivers")?;
    }
    heads.push(b"Values, comment")?;
    Ok(heads)
}

/// Adds the multiplexer indicator, if there is one.
fn put_mux(page: &mut Markup, mux: Mux)
    ensures { Becomes page.new (adding (mux_mark mux) page.old) }
{
    let indicator = mux.indicator();
    let text = indicator.as_bytes();
    if !text.is_empty() {
        page.open(Tag::Span, &[Attribute::Class(b"q")]);
        page.text(b" ");
        page.text(text);
        page.close();
    }
}

/// Adds the cell of the signal's name.
fn put_name_cell(page: &mut Markup, shown: &Shown<'_>)
    ensures { Becomes page.new (adding (name_cell (listed_of shown.now)) page.old) }
{
    page.open(Tag::HeadCell, &[]);
    shown.put_star(page);
    page.text(shown.signal.name.as_bytes());
    put_mux(page, shown.signal.mux);
    page.close();
}

/// Adds where the signal starts, and its size.
fn put_start(page: &mut Markup, signal: &Signal)
    ensures { Becomes page.new (adding (start_words signal.now) page.old) }
{
    page.number(u64::from(signal.layout.start));
    page.text(b"|");
    page.number(u64::from(signal.layout.size.bits()));
}

/// Adds that a bit of the signal is past a payload of so many bytes, if it is.
fn put_outside(page: &mut Markup, signal: &Signal, bytes: u16)
    ensures { Becomes page.new (adding (outside_mark bytes signal.now) page.old) }
{
    if !inside(signal.layout, bytes) {
        page.text(b" ");
        page.element(Tag::Emphasis, &[], b"outside");
    }
}

/// Adds the cells of the signal's number, name and place in a payload of so many bytes.
fn put_place_cells(page: &mut Markup, shown: &Shown<'_>, bytes: u16)
    ensures { Becomes page.new (adding (place_cells bytes (listed_of shown.now)) page.old) }
{
    put_number_cell(page, shown.number());
    put_name_cell(page, shown);
    page.open(Tag::Cell, &[]);
    put_start(page, shown.signal);
    put_outside(page, shown.signal, bytes);
    page.close();
}

/// Adds a cell with a decimal in it.
fn put_decimal_cell(page: &mut Markup, decimal: &Decimal)
    ensures { Becomes page.new (adding (decimal_cell decimal.now) page.old) }
{
    page.open(Tag::Cell, &[]);
    put_decimal(page, decimal);
    page.close();
}

/// Adds the cell of the range of values.
fn put_range_cell(page: &mut Markup, signal: &Signal)
    ensures { Becomes page.new (adding (range_cell signal.now) page.old) }
{
    page.open(Tag::Cell, &[]);
    put_decimal(page, &signal.minimum);
    page.text(b" to ");
    put_decimal(page, &signal.maximum);
    page.close();
}

/// Adds the cell of the unit.
fn put_unit_cell(page: &mut Markup, signal: &Signal)
    ensures { Becomes page.new (adding (unit_cell signal.now) page.old) }
{
    let unit = signal.unit.as_bytes();
    page.open(Tag::Cell, &[]);
    if !unit.is_empty() {
        put_isolated(page, unit);
    }
    page.close();
}

/// Adds the cell of the suspect parameter number.
fn put_spn_cell(page: &mut Markup, signal: &Signal)
    ensures { Becomes page.new (adding (spn_cell signal.now) page.old) }
{
    let spn = signal.spn.number();
    page.open(Tag::Cell, &[]);
    if spn > 0 {
        page.number(u64::from(spn));
    }
    page.close();
}

/// Adds the cells of what a raw value means.
fn put_value_cells(page: &mut Markup, signal: &Signal)
    ensures { Becomes page.new (adding (value_cells signal.now) page.old) }
{
    put_decimal_cell(page, &signal.factor);
    put_decimal_cell(page, &signal.offset);
    put_range_cell(page, signal);
    put_unit_cell(page, signal);
    put_spn_cell(page, signal);
}

/// Adds the names with commas between.
fn put_names(page: &mut Markup, names: &[Name])
    ensures { Becomes page.new (adding (join_by escaped (codes ", ") names.now) page.old) }
{
    if let [first, later @ ..] = names {
        page.text(first.as_bytes());
        for name in later {
            page.text(b", ");
            page.text(name.as_bytes());
        }
    }
}

/// Adds the cell of the receivers, where there is this column.
fn put_receivers_cell(page: &mut Markup, is_there: bool, signal: &Signal)
    ensures { Becomes page.new (adding (receivers_cell is_there signal.now) page.old) }
{
    if is_there {
        page.open(Tag::Cell, &[]);
        put_names(page, signal.receivers.as_slice());
        page.close();
    }
}

/// Adds the cells of how the signal is coded and who receives it, where there are these columns.
fn put_column_cells(page: &mut Markup, columns: Columns, signal: &Signal)
    ensures { Becomes page.new (adding (column_cells columns signal.now) page.old) }
{
    if columns.codings {
        page.element(Tag::Cell, &[], coding_of(signal));
    }
    put_receivers_cell(page, columns.receivers, signal);
}

/// Adds the comment, with what parts it from the texts for values.
fn put_comment(page: &mut Markup, signal: &Signal)
    ensures { Becomes page.new (adding (comment_words signal.now) page.old) }
{
    let comment = signal.comment.as_bytes();
    if !comment.is_empty() {
        put_isolated(page, comment);
        if !signal.values.as_slice().is_empty() {
            page.text(b"; ");
        }
    }
}

/// Adds the cell of the comment and the texts for values.
fn put_note_cell(page: &mut Markup, signal: &Signal)
    ensures { Becomes page.new (adding (note_cell signal.now) page.old) }
{
    page.open(Tag::Cell, &[]);
    put_comment(page, signal);
    put_texts(page, signal.values.as_slice(), SHOWN_TEXTS);
    page.close();
}

/// Adds the cells of a signal of a message of so many bytes.
fn put_signal_cells(page: &mut Markup, columns: Columns, shown: &Shown<'_>, bytes: u16)
    ensures { Becomes page.new
        (adding (signal_cells columns bytes (listed_of shown.now)) page.old) }
{
    put_place_cells(page, shown, bytes);
    put_value_cells(page, shown.signal);
    put_column_cells(page, columns, shown.signal);
    put_note_cell(page, shown.signal);
}

/// Adds the row of a signal of a message of so many bytes.
fn put_signal_row(page: &mut Markup, columns: Columns, shown: &Shown<'_>, bytes: u16)
    ensures { Becomes page.new
        (adding (signal_row columns bytes (listed_of shown.now)) page.old) }
{
    page.open(Tag::Row, &[]);
    put_signal_cells(page, columns, shown, bytes);
    page.close();
}

/// Adds the table of these signals of a message of so many bytes. The error is out of memory.
fn put_table(
    alloc: Global,
    page: &mut Markup,
    columns: Columns,
    bytes: u16,
    shown: &[Shown<'_>],
) -> Result<(), AllocError>
    ensures { OnOk result (Becomes page.new
        (adding (signal_table columns bytes (map listed_of shown.now)) page.old)) }
{
    let heads = heads_of(alloc, columns)?;
    open_table(page, b"sig", &heads);
    for signal in shown {
        put_signal_row(page, columns, signal, bytes);
    }
    page.close();
    page.close();
    Ok(())
}

/// Adds the table of the message's signals, which are shown so. The error is out of memory.
pub(crate) fn put_signals(
    alloc: Global,
    page: &mut Markup,
    message: &Message,
    shown: &[Shown<'_>],
) -> Result<(), AllocError>
    ensures { OnOk result (Becomes page.new
        (adding (signals_html message.now (map listed_of shown.now)) page.old)) }
{
    let signals = message.signals.as_slice();
    if signals.is_empty() {
        page.element(Tag::Paragraph, &[], b"No signal.");
        return Ok(());
    }
    put_table(
        alloc,
        page,
        columns_of(signals),
        message.length.bytes(),
        shown,
    )
}
