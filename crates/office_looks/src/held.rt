//! The identifiers that are held.
ghost use Rattle.std.specs.Prelude.{◌≡◌, ◌++◌, ◌∷◌, [], IfOk, OnOk};
ghost use Rattle.office_looks.specs.Held.{held_row, held_table};

use can_id::Ident;
use office_seen::{View, last_name, releases_runs, team_of};
use rows::{Alignment, Cell, Column, Rows, Table};
use std::alloc::{AllocError, Global};

/// The columns of a held identifier.
pub const HELD: [Column; 4] = [
    Column(*b"identifier  ", Alignment::Plain),
    Column(*b"team        ", Alignment::Left(12)),
    Column(*b"releases    ", Alignment::Right(5)),
    Column(*b"last_name   ", Alignment::Plain),
];

/// How many there are.
pub const HELD_TOTALS: [Column; 1] = [Column(*b"held        ", Alignment::Counted(0))];

/// Adds the row of a held identifier: it, the team of its block, its releases and its last name. The error is out of
/// memory.
pub(crate) fn push_held<'a>(
    alloc: Global,
    rows: &mut Rows<'a>,
    view: &'a View,
    ident: &Ident,
) -> Result<(), AllocError>
    ensures { OnOk result (rows.new ≡ rows.old ++ held_row view.now ident.now ∷ []) }
{
    let releases = releases_runs(alloc, &view.releases, ident.to_dbc())?;
    let cells = vec![in alloc;
        Cell::Ident(Some(*ident)),
        Cell::word(team_of(view.blocks.as_slice(), ident)),
        Cell::Runs(releases),
        Cell::word(last_name(&view.releases, ident)),
    ]?;
    rows.push(cells)
}

/// The identifiers that are held. The error is out of memory.
pub(crate) fn held_table(alloc: Global, view: &View) -> Result<Table<'_>, AllocError>
    ensures { IfOk result (λ table. table ≡ held_table view.now) }
{
    let mut rows = Rows::new(alloc);
    for ident in view.held.as_slice() {
        push_held(alloc, &mut rows, view, ident)?;
    }
    let totals = vec![in alloc; Cell::Number(view.held.as_slice().len() as u128)]?;
    Table::plain(alloc, &HELD, rows, &HELD_TOTALS, totals)
}
