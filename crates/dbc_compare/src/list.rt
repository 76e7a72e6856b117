//! The differences of two sheets as a list.
ghost use Rattle.std.specs.Prelude.{◌≡◌, ◌↔◌, ◌++◌, ◌∷◌, [], IfOk, IsTrue, OnOk, count_by};
ghost use Rattle.dbc_compare.specs.List.{breaks, change_fact, compare_text, difference_row, differences_table};
ghost use Rattle.dbc_compare.specs.List.{has_no_difference, ident_at, is_breaking, kind_word, name_fact, no_difference};
ghost use Rattle.rows.specs.Fact.{fact_of, of_path};

use crate::difference::{Alteration, Difference};
use crate::laws::differences_tell_apart;
use crate::place::Region;
use crate::sheets::differences;
use can_id::Ident;
use dbc_sheet::{Counts, Sheet, counts_of};
use dbc_words::Name;
use rows::{Cell, Column, Rows, Table, list_text};
use std::alloc::{AllocError, Global};

/// The columns of a difference.
pub const DIFFERENCES: [Column; 5] = [
    Column(*b"breaks      ", rows::Alignment::Plain),
    Column(*b"kind        ", rows::Alignment::Left(7)),
    Column(*b"identifier  ", rows::Alignment::Plain),
    Column(*b"name        ", rows::Alignment::Plain),
    Column(*b"change      ", rows::Alignment::Plain),
];

/// How many there are, how many of them break a receiver, and how many messages were added, removed and changed.
pub const DIFFERENCE_TOTALS: [Column; 5] = [
    Column(*b"differences ", rows::Alignment::Counted(0)),
    Column(*b"breaking    ", rows::Alignment::Counted(0)),
    Column(*b"added       ", rows::Alignment::Counted(0)),
    Column(*b"removed     ", rows::Alignment::Counted(0)),
    Column(*b"changed     ", rows::Alignment::Counted(0)),
];

/// What the row is about.
fn kind_word(place: &Region, name: &Option<Name>) -> &'static [u8]
    ensures { result.now ≡ kind_word place.now name.now }
{
    match place {
        Region::Sheet => b"sheet",
        Region::Nodes => b"node",
        Region::Tables => b"table",
        Region::Message { .. } => match name {
            None => b"message",
            Some(_) => b"signal",
        },
    }
}

/// The message's identifier; nothing else has one.
fn ident_at(place: &Region) -> Option<Ident>
    ensures { result ≡ ident_at place.now }
{
    match place {
        Region::Message { old: _, new } => Some(new.ident),
        _ => None,
    }
}

/// The name of a message, and that of its signal.
fn message_cell<'a>(message: &'a Name, name: &'a Option<Name>) -> Cell<'a>
    ensures { fact_of result ≡ of_path message.now name.now }
{
    match name {
        None => Cell::Path(message.as_bytes(), None),
        Some(name) => Cell::Path(message.as_bytes(), Some(name.as_bytes())),
    }
}

/// The name of what the row is about.
fn name_cell<'a>(place: &'a Region, name: &'a Option<Name>) -> Cell<'a>
    ensures { fact_of result ≡ name_fact place.now name.now }
{
    match place {
        Region::Message { old: _, new } => message_cell(&new.name, name),
        _ => match name {
            None => Cell::Path(b"-", None),
            Some(name) => Cell::Path(name.as_bytes(), None),
        },
    }
}

/// The change: its word, and of a field what it had and what it has.
fn change_cell(change: &Alteration) -> Cell<'_>
    ensures { fact_of result ≡ change_fact change.now }
{
    let word = change.word();
    match change {
        Alteration::Changed { old, new, .. } => {
            Cell::Change(word, Some((old.as_slice(), new.as_slice())))
        }
        _ => Cell::Change(word, None),
    }
}

/// Whether the change in the place breaks a receiver of what was there.
fn is_breaking(place: &Region, change: &Alteration) -> bool
    ensures { result ≡ is_breaking place.now change.now }
{
    match change {
        Alteration::Removed => matches!(place, Region::Message { .. }),
        Alteration::Changed { breaks, .. } => *breaks,
        _ => false,
    }
}

/// Whether the difference breaks a receiver of what was there: a message or a signal is gone, or a field has changed so
/// that a receiver reads otherwise, or nothing.
pub fn breaks(difference: &Difference) -> bool
    ensures { result ≡ breaks difference.now }
{
    is_breaking(&difference.place, &difference.change)
}

/// How many of the differences break a receiver.
pub fn breaking_count(found: &[Difference]) -> usize
    ensures { result ≡ count_by breaks found.now }
{
    let mut count = 0;
    for difference in found {
        if breaks(difference) {
            count += 1;
        }
    }
    count
}

/// Adds the row of the difference.
fn push_difference<'a>(
    alloc: Global,
    rows: &mut Rows<'a>,
    difference: &'a Difference,
) -> Result<(), AllocError>
    ensures { OnOk result (rows.new ≡ rows.old ++ difference_row difference.now ∷ []) }
{
    let cells = vec![in alloc;
        Cell::Mark(breaks(difference)),
        Cell::Name(kind_word(&difference.place, &difference.name)),
        Cell::Ident(ident_at(&difference.place)),
        name_cell(&difference.place, &difference.name),
        change_cell(&difference.change),
    ]?;
    rows.push(cells)
}

/// The differences as a list: a row for each, and totals that count them and the messages that differ, which
/// `counts_of` counts (`dbc_sheet`). The error is out of memory.
pub fn differences_table(
    alloc: Global,
    found: &[Difference],
    counts: Counts,
) -> Result<Table<'_>, AllocError>
    ensures { IfOk result (λ table. table ≡ differences_table found.now counts) }
{
    let mut rows = Rows::new(alloc);
    for difference in found {
        push_difference(alloc, &mut rows, difference)?;
    }
    let totals = vec![in alloc;
        Cell::Number(found.len() as u128),
        Cell::Number(breaking_count(found) as u128),
        Cell::Number(counts.added as u128),
        Cell::Number(counts.removed as u128),
        Cell::Number(counts.changed as u128),
    ]?;
    Table::plain(alloc, &DIFFERENCES, rows, &DIFFERENCE_TOTALS, totals)
}

/// How the list begins that has no difference: with the last line, or without rows.
fn no_difference(json: bool) -> &'static [u8]
    ensures { result.now ≡ no_difference json }
{
    if json {
        b"{\"columns\":[\"breaks\",\"kind\",\"identifier\",\"name\",\"change\"],\"rows\":[]"
    } else {
        b"differences"
    }
}

/// Whether a list of differences, as lines or as JSON, says that there are none.
pub fn has_no_difference(text: &[u8], json: bool) -> bool
    ensures { result ≡ has_no_difference json text.now }
{
    text.starts_with(no_difference(json))
}

/// What a comparison of two sheets says.
pub struct Comparison {
    /// The list of the differences.
    pub text: Vec<u8>,
    /// Whether the sheets are equal.
    pub are_equal: bool,
}

/// The list of the differences of two sheets, as lines or as JSON, and whether the sheets are equal. Of lines there is
/// one for each difference, and a last one, which alone is there for equal sheets. The error is out of memory.
pub fn compare(
    alloc: Global,
    old: &Sheet,
    new: &Sheet,
    json: bool,
) -> Result<Comparison, AllocError>
    ensures text { IfOk result (λ said. said.text.items ≡ compare_text json old.now new.now) }
    ensures equal { IfOk result (λ said. IsTrue said.are_equal ↔ (old.now ≡ new.now)) }
{
    differences_tell_apart(old, new);
    let found = differences(alloc, old, new)?;
    let table = differences_table(alloc, &found, counts_of(old, new))?;
    let text = list_text(alloc, &table, json)?;
    let are_equal = found.is_empty();
    Ok(Comparison { text, are_equal })
}

impl Drop for Comparison {
    fn drop(self) {
        let Comparison {
            text: _text,
            are_equal: _,
        } = self;
    }
}
