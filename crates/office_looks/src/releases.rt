//! The releases, and what each changed.
ghost use Rattle.std.specs.Prelude.{◌≡◌, ◌++◌, ◌∷◌, [], IfOk, OnOk};
ghost use Rattle.office_looks.specs.Releases.{release_row, releases_table};

use dbc_sheet::{Sheet, counts_of};
use office_seen::{View, last_of};
use office_views::signal_count;
use rows::{Alignment, Cell, Column, Rows, Table};
use std::alloc::{AllocError, Global};

/// The columns of a release.
pub const RELEASES: [Column; 6] = [
    Column(*b"release     ", Alignment::Right(5)),
    Column(*b"messages    ", Alignment::Counted(5)),
    Column(*b"signals     ", Alignment::Counted(5)),
    Column(*b"added       ", Alignment::Counted(4)),
    Column(*b"removed     ", Alignment::Counted(4)),
    Column(*b"changed     ", Alignment::Counted(4)),
];

/// How many there are.
pub const RELEASE_TOTALS: [Column; 1] = [Column(*b"releases    ", Alignment::Counted(0))];

/// Adds the row of the release of this number, after the one before it.
fn push_release(
    alloc: Global,
    rows: &mut Rows<'_>,
    number: usize,
    before: &Sheet,
    sheet: &Sheet,
) -> Result<(), AllocError>
    ensures { OnOk result
        (rows.new ≡ rows.old ++ release_row number before.now sheet.now ∷ []) }
{
    let counts = counts_of(before, sheet);
    let cells = vec![in alloc;
        Cell::Number(number as u128),
        Cell::Number(sheet.messages().len() as u128),
        Cell::Number(signal_count(sheet) as u128),
        Cell::Number(counts.added as u128),
        Cell::Number(counts.removed as u128),
        Cell::Number(counts.changed as u128),
    ]?;
    rows.push(cells)
}

/// The releases: for each how many messages and signals it has, and how many messages differ from those of the one
/// before it. The error is out of memory.
pub(crate) fn releases_table(alloc: Global, view: &View) -> Result<Table<'_>, AllocError>
    ensures { IfOk result (λ table. table ≡ releases_table view.now) }
{
    let empty = Sheet::new(alloc);
    let sheets = view.releases.as_slice();
    let mut rows = Rows::new(alloc);
    for index in 0..sheets.len() {
        let before = last_of(&sheets[..index], &empty);
        push_release(alloc, &mut rows, index + 1, before, &sheets[index])?;
    }
    let totals = vec![in alloc; Cell::Number(sheets.len() as u128)]?;
    Table::plain(alloc, &RELEASES, rows, &RELEASE_TOTALS, totals)
}
