//! The granted blocks, and what is left of them.
ghost use Rattle.std.specs.Prelude.{◌≡◌, ◌&&◌, ◌++◌, ◌∷◌, [], IfOk, OnOk, filter, map};
ghost use Rattle.std.specs.Option.{option_copied};
ghost use Rattle.office_types.specs.Block.{same_form};
ghost use Rattle.office_seen.specs.declared.view.View.{View};
ghost use Rattle.office_blocks.specs.Blocks.{block_row, blocks_table, free_of_form, is_wanted, row_with};
ghost use Rattle.office_blocks.specs.Numbers.{AreNumbersOf};

use crate::free::{held_count, left_of, live_count};
use crate::numbers::{FormNumbers, Numbers};
use office_seen::View;
use office_types::{BlockForm, GrantedBlock, Team};
use rows::{Alignment, Cell, Column, Rows, Table};
use std::alloc::{AllocError, Global};

/// The columns of a granted block.
pub const BLOCKS: [Column; 8] = [
    Column(*b"form        ", Alignment::Plain),
    Column(*b"first       ", Alignment::Right(9)),
    Column(*b"last        ", Alignment::Right(9)),
    Column(*b"team        ", Alignment::Left(12)),
    Column(*b"live        ", Alignment::Counted(4)),
    Column(*b"held        ", Alignment::Counted(3)),
    Column(*b"free        ", Alignment::Counted(5)),
    Column(*b"numbers     ", Alignment::Plain),
];

/// How many blocks there are, and how many numbers of each form are left in them.
pub const BLOCK_TOTALS: [Column; 5] = [
    Column(*b"blocks      ", Alignment::Counted(0)),
    Column(*b"free_std    ", Alignment::Counted(0)),
    Column(*b"free_ext    ", Alignment::Again(0)),
    Column(*b"free_pgn    ", Alignment::Again(0)),
    Column(*b"free_spn    ", Alignment::Again(0)),
];

/// Adds the row of the block, where these are the numbers of its form.
fn push_with<'a>(
    alloc: Global,
    rows: &mut Rows<'a>,
    numbers: &FormNumbers,
    granted: &'a GrantedBlock,
) -> Result<(), AllocError>
    ensures { OnOk result (rows.new
        ≡ rows.old ++ row_with numbers.now.live numbers.now.taken granted.now ∷ []) }
{
    let block = granted.block;
    let range = block.numbers();
    let left = left_of(alloc, &numbers.taken, block)?;
    let cells = vec![in alloc;
        Cell::Name(block.form().word().as_bytes()),
        Cell::Number(u128::from(range.first)),
        Cell::Number(u128::from(range.last)),
        Cell::Word(granted.team.as_bytes()),
        Cell::Number(live_count(numbers, block) as u128),
        Cell::Number(held_count(numbers, block) as u128),
        Cell::Number(left.count as u128),
        Cell::Free(left.into_runs()),
    ]?;
    rows.push(cells)
}

/// Adds the row of a granted block of the view that has these numbers: its form and range, its team, how many of its
/// numbers are live, held and free, and which are free. The error is out of memory.
pub fn push_block<'a>(
    alloc: Global,
    rows: &mut Rows<'a>,
    numbers: &Numbers,
    granted: &'a GrantedBlock,
) -> Result<(), AllocError>
    ensures { OnOk result ((view : View) → AreNumbersOf view numbers.now
        → rows.new ≡ rows.old ++ block_row view granted.now ∷ []) }
{
    push_with(alloc, rows, numbers.of_form(granted.block.form()), granted)
}

/// Whether the block is the team's; without a team any block is wanted.
fn is_wanted(team: Option<&Team>, granted: &GrantedBlock) -> bool
    ensures { result ≡ is_wanted (option_copied team.entry) granted.now }
{
    match team {
        None => true,
        Some(team) => granted.team == *team,
    }
}

/// The rows of the wanted blocks.
fn block_rows<'a>(
    alloc: Global,
    view: &'a View,
    numbers: &Numbers,
    team: Option<&Team>,
) -> Result<Rows<'a>, AllocError>
    requires { AreNumbersOf view.now numbers.now }
    ensures { IfOk result (λ rows. rows ≡ map (block_row view.now)
        (filter (is_wanted (option_copied team.entry)) view.now.blocks)) }
{
    let mut rows = Rows::new(alloc);
    for granted in view.blocks.as_slice() {
        if is_wanted(team, granted) {
            push_block(alloc, &mut rows, numbers, granted)?;
        }
    }
    Ok(rows)
}

/// Whether the block is wanted and has the form.
fn is_of(team: Option<&Team>, form: BlockForm, granted: &GrantedBlock) -> bool
    ensures { result ≡ (is_wanted (option_copied team.entry) granted.now
        && same_form granted.now.block.form form) }
{
    is_wanted(team, granted) && granted.block.form() == form
}

/// How many numbers of the form are left in the wanted blocks.
fn free_of_form(
    alloc: Global,
    view: &View,
    numbers: &Numbers,
    team: Option<&Team>,
    form: BlockForm,
) -> Result<u128, AllocError>
    requires { AreNumbersOf view.now numbers.now }
    ensures { IfOk result (λ count. count ≡ free_of_form view.now
        (filter (is_wanted (option_copied team.entry)) view.now.blocks) form) }
{
    let taken = &numbers.of_form(form).taken;
    let mut count = 0u128;
    for granted in view.blocks.as_slice() {
        if is_of(team, form, granted) {
            let left = left_of(alloc, taken, granted.block)?;
            count += left.count as u128;
        }
    }
    Ok(count)
}

/// The team's blocks, or all where no team is given, and what is left of them. The error is out of memory.
pub fn blocks_table<'a>(
    alloc: Global,
    view: &'a View,
    team: Option<&Team>,
) -> Result<Table<'a>, AllocError>
    ensures { IfOk result (λ table. table ≡ blocks_table (option_copied team.entry) view.now) }
{
    let numbers = Numbers::of(alloc, view)?;
    let std = free_of_form(alloc, view, &numbers, team, BlockForm::Std)?;
    let ext = free_of_form(alloc, view, &numbers, team, BlockForm::Ext)?;
    let pgn = free_of_form(alloc, view, &numbers, team, BlockForm::Pgn)?;
    let spn = free_of_form(alloc, view, &numbers, team, BlockForm::Spn)?;
    let rows = block_rows(alloc, view, &numbers, team)?;
    let totals = vec![in alloc;
        Cell::Number(rows.count() as u128),
        Cell::Number(std),
        Cell::Number(ext),
        Cell::Number(pgn),
        Cell::Number(spn),
    ]?;
    Table::plain(alloc, &BLOCKS, rows, &BLOCK_TOTALS, totals)
}
