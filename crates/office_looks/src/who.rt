//! Who has a name or a number.
ghost use Rattle.std.specs.Prelude.{◌≡◌, ◌++◌, ◌∷◌, [], nat_lt, IfOk, OnOk};
ghost use Rattle.std.specs.List.{list_any};
ghost use Rattle.office_seen.specs.Since.{last_release};
ghost use Rattle.office_looks.specs.Who.{block_rows, held_numbers, held_rows, kinds_table, listing, live_numbers};
ghost use Rattle.office_looks.specs.Who.{live_rows, numbers_shown, spn_hit_rows, who_table};

use crate::held::{HELD, push_held};
use crate::messages::{MESSAGES, owned_count, push_message};
use crate::seeking::{
    add_numbers, has_one, is_held_sought, is_sought, is_spn_sought, numbers_sought,
};
use dbc_sheet::Sheet;
use office_blocks::{BLOCKS, Numbers, push_block};
use office_seen::{View, last_release};
use office_spns::{SPNS, SpnView, push_spn, shown_spns};
use office_types::{BlockForm, Sought};
use rows::{Alignment, Cell, Column, Kind, Rows, Table};
use std::alloc::{AllocError, Global};

/// The rows of the live messages that are looked for.
fn live_rows<'a>(
    alloc: Global,
    view: &'a View,
    before: &Sheet,
    sought: &Sought,
) -> Result<Rows<'a>, AllocError>
    requires { before.now ≡ last_release view.now.releases }
    ensures { IfOk result (λ rows. rows ≡ live_rows sought.now view.now) }
{
    let messages = view.sheet.messages();
    let owners = view.owners.as_slice();
    let mut rows = Rows::new(alloc);
    for index in 0..owned_count(view) {
        let message = &messages[index];
        if is_sought(sought, &message.ident, message.name.as_bytes()) {
            push_message(alloc, &mut rows, view, before, message, &owners[index])?;
        }
    }
    Ok(rows)
}

/// The rows of the held identifiers that are looked for.
fn held_rows<'a>(alloc: Global, view: &'a View, sought: &Sought) -> Result<Rows<'a>, AllocError>
    ensures { IfOk result (λ rows. rows ≡ held_rows sought.now view.now) }
{
    let mut rows = Rows::new(alloc);
    for ident in view.held.as_slice() {
        if is_held_sought(sought, &view.releases, ident) {
            push_held(alloc, &mut rows, view, ident)?;
        }
    }
    Ok(rows)
}

/// The rows of the suspect parameter numbers that are looked for.
fn spn_hit_rows<'a>(alloc: Global, view: &'a View, sought: &Sought) -> Result<Rows<'a>, AllocError>
    ensures { IfOk result (λ rows. rows ≡ spn_hit_rows sought.now view.now) }
{
    let indexed = SpnView::of(alloc, view)?;
    let shown = shown_spns(alloc, &indexed)?;
    let mut rows = Rows::new(alloc);
    for number in &shown {
        if is_spn_sought(sought, *number) {
            push_spn(alloc, &mut rows, &indexed, *number)?;
        }
    }
    Ok(rows)
}

/// Adds the numbers of the live messages that are looked for.
fn add_live_numbers(
    view: &View,
    sought: &Sought,
    numbers: &mut Vec<(BlockForm, u32)>,
) -> Result<(), AllocError>
    ensures { OnOk result
        (numbers.new.items ≡ numbers.old.items ++ live_numbers sought.now view.now) }
{
    let messages = view.sheet.messages();
    for index in 0..owned_count(view) {
        let message = &messages[index];
        if is_sought(sought, &message.ident, message.name.as_bytes()) {
            add_numbers(numbers, &message.ident)?;
        }
    }
    Ok(())
}

/// Adds the numbers of the held identifiers that are looked for.
fn add_held_numbers(
    view: &View,
    sought: &Sought,
    numbers: &mut Vec<(BlockForm, u32)>,
) -> Result<(), AllocError>
    ensures { OnOk result
        (numbers.new.items ≡ numbers.old.items ++ held_numbers sought.now view.now) }
{
    for ident in view.held.as_slice() {
        if is_held_sought(sought, &view.releases, ident) {
            add_numbers(numbers, ident)?;
        }
    }
    Ok(())
}

/// The numbers of which blocks are shown, each with the form of the blocks that may have it.
fn numbers_shown(
    alloc: Global,
    view: &View,
    sought: &Sought,
) -> Result<Vec<(BlockForm, u32)>, AllocError>
    ensures { IfOk result (λ numbers. numbers.items ≡ numbers_shown sought.now view.now) }
{
    let mut numbers = numbers_sought(alloc, sought)?;
    add_live_numbers(view, sought, &mut numbers)?;
    add_held_numbers(view, sought, &mut numbers)?;
    Ok(numbers)
}

/// The rows of the blocks that have one of the numbers.
fn block_rows<'a>(alloc: Global, view: &'a View, sought: &Sought) -> Result<Rows<'a>, AllocError>
    ensures { IfOk result (λ rows. rows ≡ block_rows sought.now view.now) }
{
    let wanted = numbers_shown(alloc, view, sought)?;
    let numbers = Numbers::of(alloc, view)?;
    let mut rows = Rows::new(alloc);
    for granted in view.blocks.as_slice() {
        if has_one(&wanted, granted) {
            push_block(alloc, &mut rows, &numbers, granted)?;
        }
    }
    Ok(rows)
}

/// How many rows there are of each kind.
pub const WHO_TOTALS: [Column; 4] = [
    Column(*b"live        ", Alignment::Counted(0)),
    Column(*b"held        ", Alignment::Counted(0)),
    Column(*b"spns        ", Alignment::Counted(0)),
    Column(*b"blocks      ", Alignment::Counted(0)),
];

/// Whether one of the counts isn't 0.
fn is_any(live: usize, held: usize, spns: usize, blocks: usize) -> bool
    ensures { result ≡ list_any (nat_lt 0) (live ∷ held ∷ spns ∷ blocks ∷ []) }
{
    live > 0 || (held > 0 || (spns > 0 || blocks > 0))
}

/// The rows of each kind, and how many there are.
fn kinds_table<'a>(
    alloc: Global,
    live: Rows<'a>,
    held: Rows<'a>,
    spns: Rows<'a>,
    blocks: Rows<'a>,
) -> Result<Table<'a>, AllocError>
    ensures { IfOk result
        (λ table. table ≡ kinds_table live.entry held.entry spns.entry blocks.entry) }
{
    let totals = vec![in alloc;
        Cell::Number(live.count() as u128),
        Cell::Number(held.count() as u128),
        Cell::Number(spns.count() as u128),
        Cell::Number(blocks.count() as u128),
    ]?;
    let kinds = vec![in alloc;
        Kind::of(b"live  ", &MESSAGES, live),
        Kind::of(b"held  ", &HELD, held),
        Kind::of(b"spn   ", &SPNS, spns),
        Kind::of(b"block ", &BLOCKS, blocks),
    ]?;
    Ok(Table::of(kinds, &WHO_TOTALS, totals))
}

/// The rows of each kind; `None` where there are none of any.
fn listing<'a>(
    alloc: Global,
    live: Rows<'a>,
    held: Rows<'a>,
    spns: Rows<'a>,
    blocks: Rows<'a>,
) -> Result<Option<Table<'a>>, AllocError>
    ensures { IfOk result
        (λ table. table ≡ listing live.entry held.entry spns.entry blocks.entry) }
{
    if !is_any(live.count(), held.count(), spns.count(), blocks.count()) {
        return Ok(None);
    }
    let table = kinds_table(alloc, live, held, spns, blocks)?;
    Ok(Some(table))
}

/// Who has the name or number: live messages, held identifiers, suspect parameter numbers and blocks; `None` where
/// nobody has it. The error is out of memory.
pub(crate) fn who_table<'a>(
    alloc: Global,
    view: &'a View,
    sought: &Sought,
) -> Result<Option<Table<'a>>, AllocError>
    ensures { IfOk result (λ table. table ≡ who_table sought.now view.now) }
{
    let empty = Sheet::new(alloc);
    let before = last_release(&view.releases, &empty);
    let live = live_rows(alloc, view, before, sought)?;
    let held = held_rows(alloc, view, sought)?;
    let spns = spn_hit_rows(alloc, view, sought)?;
    let blocks = block_rows(alloc, view, sought)?;
    listing(alloc, live, held, spns, blocks)
}
