//! What a network has once, and how many there are of each kind of thing.
ghost use Rattle.std.specs.Prelude.{◌≡◌, IfOk, length, map};
ghost use Rattle.dbc_sheet.specs.Pairs.{counts_of};
ghost use Rattle.office_seen.specs.Since.{last_release};
ghost use Rattle.office_looks.specs.State.{state_row, state_table};
ghost use Rattle.rows.specs.Fact.{fact_of};

use dbc_sheet::{Counts, Sheet, counts_of};
use office_seen::{View, last_release};
use office_views::{phase_word, signal_count};
use rows::{Alignment, Cell, Column, Table};
use std::alloc::{AllocError, Global};

/// What a network has once, and how many there are of each kind of thing.
pub const STATE: [Column; 15] = [
    Column(*b"network     ", Alignment::Plain),
    Column(*b"kind        ", Alignment::Plain),
    Column(*b"phase       ", Alignment::Plain),
    Column(*b"submitted   ", Alignment::Plain),
    Column(*b"approved    ", Alignment::Plain),
    Column(*b"lacking     ", Alignment::Plain),
    Column(*b"releases    ", Alignment::Plain),
    Column(*b"added       ", Alignment::Plain),
    Column(*b"removed     ", Alignment::Plain),
    Column(*b"changed     ", Alignment::Plain),
    Column(*b"held        ", Alignment::Plain),
    Column(*b"blocks      ", Alignment::Plain),
    Column(*b"nodes       ", Alignment::Plain),
    Column(*b"messages    ", Alignment::Plain),
    Column(*b"signals     ", Alignment::Plain),
];

/// How many messages differ from those of the last release.
fn changes(alloc: Global, view: &View) -> Counts
    ensures { result ≡ counts_of (last_release view.now.releases).messages
        view.now.sheet.messages }
{
    let empty = Sheet::new(alloc);
    counts_of(last_release(&view.releases, &empty), &view.sheet)
}

/// The row, with these differences from the last release.
fn state_row<'a>(
    alloc: Global,
    view: &'a View,
    changes: Counts,
) -> Result<Vec<Cell<'a>>, AllocError>
    ensures { IfOk result (λ row. map fact_of row.items
        ≡ state_row view.now (length view.now.releases) changes) }
{
    let reviews = usize::from(view.reviews.count());
    let approvals = view.approvals.as_slice();
    let approved = Cell::words(alloc, approvals)?;
    Ok(vec![in alloc;
        Cell::Word(view.name.as_bytes()),
        Cell::Name(view.kind.word().as_bytes()),
        Cell::Name(phase_word(&view.phase)),
        Cell::word(view.phase.submitter()),
        approved,
        Cell::Share(reviews.saturating_sub(approvals.len()), reviews),
        Cell::Number(view.releases.as_slice().len() as u128),
        Cell::Number(changes.added as u128),
        Cell::Number(changes.removed as u128),
        Cell::Number(changes.changed as u128),
        Cell::Number(view.held.as_slice().len() as u128),
        Cell::Number(view.blocks.as_slice().len() as u128),
        Cell::Number(view.sheet.nodes().len() as u128),
        Cell::Number(view.sheet.messages().len() as u128),
        Cell::Number(signal_count(&view.sheet) as u128),
    ]?)
}

/// The state. The error is out of memory.
pub(crate) fn state_table(alloc: Global, view: &View) -> Result<Table<'_>, AllocError>
    ensures { IfOk result (λ table. table ≡ state_table view.now) }
{
    let row = state_row(alloc, view, changes(alloc, view))?;
    Ok(Table::headed(&STATE, row, Vec::new(alloc)))
}
