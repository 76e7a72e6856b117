//! Lists as lines.
ghost use Rattle.std.specs.Prelude.{◌≡◌, ◌++◌, [], IfOk, OnOk, map, string_bytes};
ghost use Rattle.std.specs.Option.{option_copied, option_map};
ghost use Rattle.columns.specs.Word.{later_words as more_words, rest, words};
ghost use Rattle.rows.specs.Fact.{fact_of, name_of};
ghost use Rattle.rows.specs.Lines.{after, change_text, counted, digits_text, fact_text, first_runs, ident_text};
ghost use Rattle.rows.specs.Lines.{later_words, layout_text, line_text, mark_text, mux_text, name_words};
ghost use Rattle.rows.specs.Lines.{kind_text, path_text, points, set_in, set_text, table_text, upright_text};

use crate::cell::{Alignment, Cell, Column, Name};
use crate::table::{Kind, Table};
use base::split_once;
use bitlayout::{Layout, Mux};
use can_id::Ident;
use columns::{
    Run, concat, filled, form_word, hexadecimal, ident_columns, no_ident_columns, rest, runs_text,
    set_left, word,
};
use std::alloc::{AllocError, Global};

/// What is before the spaces.
pub(crate) fn name_of(name: &[u8]) -> &[u8]
    ensures { result.now ≡ name_of name.now }
{
    match split_once(name, b' ') {
        Some((name, _)) => name,
        None => name,
    }
}

/// The name in words: a space for each `_`.
fn name_words(alloc: Global, name: &Name) -> Result<Vec<u8>, AllocError>
    ensures { IfOk result (λ text. text.items ≡ name_words name.now) }
{
    let mut text = Vec::new(alloc);
    for byte in name_of(name) {
        text.push(if *byte == b'_' { b' ' } else { *byte })?;
    }
    Ok(text)
}

/// The name without its first word.
fn later_words(name: &Name) -> &[u8]
    ensures { result.now ≡ later_words name.now }
{
    match split_once(name_of(name), b'_') {
        Some((_, words)) => words,
        None => b"",
    }
}

/// The identifier in its columns.
fn ident_text(alloc: Global, ident: &Option<Ident>) -> Result<Vec<u8>, AllocError>
    ensures { IfOk result (λ text. text.items ≡ ident_text ident.now) }
{
    match ident {
        Some(ident) => ident_columns(alloc, ident),
        None => Vec::from_slice(alloc, no_ident_columns()),
    }
}

/// How many runs a line has at most.
const SHOWN: usize = 4;

/// The first runs, and a mark where there are more.
fn first_runs(alloc: Global, runs: &[Run]) -> Result<Vec<u8>, AllocError>
    ensures { IfOk result (λ text. text.items ≡ first_runs runs.now) }
{
    if runs.len() > SHOWN {
        let mut text = runs_text(alloc, &runs[..SHOWN])?;
        text.extend_from_slice(b",..")?;
        return Ok(text);
    }
    runs_text(alloc, runs)
}

/// Two points after what goes on.
pub(crate) fn points(goes_on: bool) -> &'static [u8]
    ensures { result.now ≡ points goes_on }
{
    if goes_on { b" .." } else { b"" }
}

/// How a text begins, and two points if it goes on.
fn front_text(alloc: Global, front: &[u8], goes_on: bool) -> Result<Vec<u8>, AllocError>
    ensures { IfOk result (λ text. text.items ≡ rest front.now ++ points goes_on) }
{
    let front = rest(alloc, front)?;
    concat(alloc, &[&front, points(goes_on)])
}

fn mark_text(is: bool) -> &'static [u8]
    ensures { result.now ≡ mark_text is }
{
    if is { b"!" } else { b"." }
}

/// The name, and after a point that of its part.
pub(crate) fn path_text(
    alloc: Global,
    name: &[u8],
    part: Option<&[u8]>,
) -> Result<Vec<u8>, AllocError>
    ensures { IfOk result (λ text. text.items ≡ path_text name.now (option_copied part.entry)) }
{
    match part {
        None => Vec::from_slice(alloc, name),
        Some(part) => concat(alloc, &[name, b".", part]),
    }
}

/// The word, and what was there and what is.
fn change_text(
    alloc: Global,
    word: &[u8],
    values: Option<(&[u8], &[u8])>,
) -> Result<Vec<u8>, AllocError>
    ensures { IfOk result (λ text. text.items
        ≡ change_text word.now (option_map (λ v. (v.0.now, v.1.now)) values.entry)) }
{
    match values {
        None => Vec::from_slice(alloc, word),
        Some((old, new)) => concat(alloc, &[word, b" ", old, b" -> ", new]),
    }
}

/// The words, each after a comma.
fn more_words(alloc: Global, texts: &[&[u8]]) -> Result<Vec<u8>, AllocError>
    ensures { IfOk result (λ text. text.items ≡ more_words (map (λ t. t.now) texts.now)) }
{
    let mut text = Vec::new(alloc);
    for bytes in texts {
        let one = word(alloc, bytes)?;
        text.push(b',')?;
        text.extend_from_slice(&one)?;
    }
    Ok(text)
}

/// The words, with commas between; `-` where there are none.
fn words_text(alloc: Global, texts: &[&[u8]]) -> Result<Vec<u8>, AllocError>
    ensures { IfOk result (λ text. text.items ≡ words (map (λ w. w.now) texts.now)) }
{
    match texts {
        [] => Vec::from_slice(alloc, b"-"),
        [first, others @ ..] => {
            let first = word(alloc, first)?;
            let others = more_words(alloc, others)?;
            concat(alloc, &[&first, &others])
        }
    }
}

/// The identifier's form and its digits.
fn digits_text(alloc: Global, ident: &Ident) -> Result<Vec<u8>, AllocError>
    ensures { IfOk result (λ text. text.items ≡ digits_text ident.now) }
{
    let digits = hexadecimal(alloc, ident)?;
    concat(alloc, &[form_word(ident), b" ", &digits])
}

/// Where a signal lies, and whether its raw value is signed, as a DBC file has it.
fn layout_text(alloc: Global, layout: &Layout, signed: bool) -> Result<String, AllocError>
    ensures { IfOk result (λ text. string_bytes text ≡ layout_text layout.now signed) }
{
    let start = layout.start;
    let size = layout.size.bits();
    let order = layout.order.number();
    if signed {
        format!(in alloc; "{start}|{size}@{order}-")
    } else {
        format!(in alloc; "{start}|{size}@{order}+")
    }
}

/// The multiplexer indicator; `-` for none.
pub(crate) fn mux_text(alloc: Global, mux: Mux) -> Result<Vec<u8>, AllocError>
    ensures { IfOk result (λ text. text.items ≡ mux_text mux) }
{
    match mux {
        Mux::Always => Vec::from_slice(alloc, b"-"),
        _ => Vec::from_slice(alloc, mux.indicator().as_bytes()),
    }
}

/// The value in words.
fn fact_text(alloc: Global, cell: &Cell<'_>) -> Result<Vec<u8>, AllocError>
    ensures { IfOk result (λ text. text.items ≡ fact_text (fact_of cell.now)) }
{
    match cell {
        Cell::Ident(ident) => ident_text(alloc, ident),
        Cell::Number(number) => Ok(format!(in alloc; "{number}")?.into_bytes()),
        Cell::Name(name) => Vec::from_slice(alloc, name),
        Cell::Made(name) => Vec::from_slice(alloc, name.as_slice()),
        Cell::Word(text) => word(alloc, text),
        Cell::Rest(text) => rest(alloc, text),
        Cell::Front(front, goes_on) => front_text(alloc, front, *goes_on),
        Cell::Runs(runs) => runs_text(alloc, runs.as_slice()),
        Cell::Free(runs) => first_runs(alloc, runs.as_slice()),
        Cell::Mark(is) => Vec::from_slice(alloc, mark_text(*is)),
        Cell::Path(name, part) => path_text(alloc, name, *part),
        Cell::Change(word, values) => change_text(alloc, word, *values),
        Cell::Maybe(None) => Vec::from_slice(alloc, b"-"),
        Cell::Maybe(Some(number)) => Ok(format!(in alloc; "{number}")?.into_bytes()),
        Cell::Share(number, all) => Ok(format!(in alloc; "{number} of {all}")?.into_bytes()),
        Cell::Position(line, column) => Ok(format!(in alloc; "{line}:{column}")?.into_bytes()),
        Cell::Words(words) => words_text(alloc, words.as_slice()),
        Cell::Digits(ident) => digits_text(alloc, ident),
        Cell::Layout(layout, signed) => Ok(layout_text(alloc, layout, *signed)?.into_bytes()),
        Cell::Mux(mux) => mux_text(alloc, *mux),
        Cell::Decimal(decimal) => Ok(format!(in alloc; "{decimal}")?.into_bytes()),
        Cell::Scale(factor, offset) => Ok(format!(in alloc; "({factor},{offset})")?.into_bytes()),
        Cell::Range(least, most) => Ok(format!(in alloc; "[{least}|{most}]")?.into_bytes()),
    }
}

/// The words, right-aligned in so many columns after the name.
fn counted(alloc: Global, name: &[u8], width: usize, words: &[u8]) -> Result<Vec<u8>, AllocError>
    ensures { IfOk result (λ text. text.items ≡ counted name.now width words.now) }
{
    let words = filled(alloc, b' ', width, words)?;
    concat(alloc, &[name, b" ", &words])
}

/// The words in their place.
fn set_in(alloc: Global, column: &Column, words: &[u8]) -> Result<Vec<u8>, AllocError>
    ensures { IfOk result (λ text. text.items ≡ set_in column.now.1 column.now.0 words.now) }
{
    match column.1 {
        Alignment::Plain => Vec::from_slice(alloc, words),
        Alignment::Left(width) => set_left(alloc, width, words),
        Alignment::Right(width) => filled(alloc, b' ', width, words),
        Alignment::Counted(width) => {
            let name = name_words(alloc, &column.0)?;
            counted(alloc, &name, width, words)
        }
        Alignment::Again(width) => counted(alloc, later_words(&column.0), width, words),
        Alignment::From => concat(alloc, &[b"<- ", words]),
    }
}

/// What is between one and those after it: a space, and after the last one the end of the line.
fn after<T>(others: &[T]) -> &'static [u8]
    ensures { result.now ≡ after others.now }
{
    match others {
        [] => b"\n",
        [_, ..] => b" ",
    }
}

/// Appends the value in its place, and this after it.
fn push_cell(
    alloc: Global,
    text: &mut Vec<u8>,
    column: &Column,
    cell: &Cell<'_>,
    end: &[u8],
) -> Result<(), AllocError>
    ensures { OnOk result (text.new.items
        ≡ text.old.items ++ (set_text column.now (fact_of cell.now) ++ end.now)) }
{
    let words = fact_text(alloc, cell)?;
    let set = set_in(alloc, column, &words)?;
    let set = concat(alloc, &[&set, end])?;
    text.extend_from_slice(&set)
}

/// Appends the line of the values, each in its place.
fn push_cells(
    alloc: Global,
    text: &mut Vec<u8>,
    columns: &[Column],
    cells: &[Cell<'_>],
) -> Result<(), AllocError>
    ensures { OnOk result (text.new.items
        ≡ text.old.items ++ line_text columns.now (map fact_of cells.now)) }
{
    match columns {
        [] => Ok(()),
        [column, columns @ ..] => match cells {
            [] => Ok(()),
            [cell, cells @ ..] => {
                push_cell(alloc, text, column, cell, after(columns))?;
                push_cells(alloc, text, columns, cells)
            }
        },
    }
}

/// Appends a line for each value, after the name of its column and the spaces there.
fn push_upright(
    alloc: Global,
    text: &mut Vec<u8>,
    columns: &[Column],
    cells: &[Cell<'_>],
) -> Result<(), AllocError>
    ensures { OnOk result (text.new.items
        ≡ text.old.items ++ upright_text columns.now (map fact_of cells.now)) }
{
    match columns {
        [] => Ok(()),
        [column, columns @ ..] => match cells {
            [] => Ok(()),
            [cell, cells @ ..] => {
                let words = fact_text(alloc, cell)?;
                let line = concat(alloc, &[&column.0, &words, b"\n"])?;
                text.extend_from_slice(&line)?;
                push_upright(alloc, text, columns, cells)
            }
        },
    }
}

/// Appends the rows, each as a line.
fn push_kind(alloc: Global, text: &mut Vec<u8>, kind: &Kind<'_>) -> Result<(), AllocError>
    ensures { OnOk result (text.new.items ≡ text.old.items ++ kind_text kind.now) }
{
    for row in kind.rows.as_slice() {
        text.extend_from_slice(kind.name)?;
        push_cells(alloc, text, kind.columns, row.as_slice())?;
    }
    Ok(())
}

/// The list as lines: those of the row that stands upright, those of its rows, and that of its totals. The error is out of
/// memory.
pub fn table_text(alloc: Global, table: &Table<'_>) -> Result<Vec<u8>, AllocError>
    ensures { IfOk result (λ text. text.items ≡ table_text table.now) }
{
    let mut text = Vec::new(alloc);
    push_upright(alloc, &mut text, table.head_columns, table.head.as_slice())?;
    for kind in table.kinds.as_slice() {
        push_kind(alloc, &mut text, kind)?;
    }
    push_cells(
        alloc,
        &mut text,
        table.total_columns,
        table.totals.as_slice(),
    )?;
    Ok(text)
}
