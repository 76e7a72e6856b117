//! Identifiers of a network that are taken, within ranges of numbers: no message is read.
ghost use Rattle.std.specs.Prelude.{◌≡◌, List, Some};
ghost use Rattle.can_id.specs.declared.ident.Ident.{Ident as Identifier};
ghost use Rattle.office_rules.specs.Facts.{is_wanted, same_ident};
ghost use Rattle.std.specs.List.{list_any};
ghost use Rattle.store_net.specs.Numbers.{HasTaken, dbc_of, idents_between, idents_inside};
ghost use Rattle.store_rows.specs.Listed.{AreShown};
ghost use Rattle.store_rows.specs.Showing.{ShowsIdent};
ghost use Rattle.store_tables.specs.Frames.{Asks, ReadsOnly, ReadsWhileOpen};

use base::Items;
use can_id::{EXTENDED_FLAG, Ident, IdentForm};
use office_facts::has_ident;
use office_types::{Block, NetName};
use sqlite::{Alter, Error, Row, Transaction};
use std::alloc::Global;
use store_rows::items_of;
use store_statements::{select_held_numbers, select_msg_numbers};

/// A table of identifiers that a network doesn't give out.
#[derive(Clone, Copy, PartialEq, Eq)]
pub(crate) enum TakenTable {
    /// `msg`: those of its live messages.
    Live,
    /// `held`: those that are held for good.
    Held,
}

/// The rows of the network's identifiers in the table whose DBC numbers are from the first to the last, ascending.
fn numbers_between<S: Alter>(
    tx: &mut Transaction<'_, S>,
    name: &NetName,
    table: TakenTable,
    first: u32,
    last: u32,
) -> Result<Vec<Row>, Error>
    ensures found { Asks S.Store tx.old tx.new result
        (λ rows t. (idents : List Identifier) → HasTaken table name.now t idents
        → AreShown ShowsIdent (idents_between first last idents) rows.items) }
    ensures frame { ReadsOnly S.Store tx.old tx.new result }
{
    match table {
        TakenTable::Live => select_msg_numbers(tx, name.as_bytes(), first, last),
        TakenTable::Held => select_held_numbers(tx, name.as_bytes(), first, last),
    }
}

/// The identifiers that the network has in the table whose DBC numbers are from the first to the last, in ascending
/// order of these numbers. An error is out of memory, what `sqlite` answers, or `InvalidQuery` where a row has no
/// identifier's number.
pub(crate) fn idents_at<S: Alter>(
    alloc: Global,
    tx: &mut Transaction<'_, S>,
    name: &NetName,
    table: TakenTable,
    first: u32,
    last: u32,
) -> Result<Items<Ident>, Error>
    ensures found { Asks S.Store tx.old tx.new result
        (λ found t. (idents : List Identifier) → HasTaken table name.now t idents
        → found ≡ idents_between first last idents) }
    ensures frame { ReadsOnly S.Store tx.old tx.new result }
{
    let rows = numbers_between(tx, name, table, first, last)?;
    items_of(alloc, &rows)
}

/// The DBC number of the form and the number, or the greatest of 32 bits where it has more, which no identifier has.
fn dbc_of(form: IdentForm, number: u32) -> u32
    ensures { result ≡ dbc_of form number }
{
    match form {
        IdentForm::Standard => number,
        IdentForm::Extended => number.saturating_add(EXTENDED_FLAG),
    }
}

/// The identifiers that the network has in the table in blocks of the form, block by block. The errors are those of
/// [`idents_at`].
pub(crate) fn idents_inside_at<S: Alter>(
    alloc: Global,
    tx: &mut Transaction<'_, S>,
    name: &NetName,
    table: TakenTable,
    form: IdentForm,
    blocks: &[Block],
) -> Result<Vec<Ident>, Error>
    ensures found { Asks S.Store tx.old tx.new result
        (λ found t. (idents : List Identifier) → HasTaken table name.now t idents
        → found.items ≡ idents_inside form blocks.now idents) }
    ensures frame { ReadsWhileOpen S.Store tx.old tx.new result }
{
    let mut idents = Vec::new(alloc);
    for block in blocks {
        let first = dbc_of(form, block.first);
        let last = dbc_of(form, block.last);
        let inside = idents_at(alloc, tx, name, table, first, last)?;
        idents.extend_from_slice(inside.as_slice())?;
    }
    Ok(idents)
}

/// Whether the network has the identifier of the form and the number in the table. The errors are those of
/// [`idents_at`].
fn is_taken_at<S: Alter>(
    alloc: Global,
    tx: &mut Transaction<'_, S>,
    name: &NetName,
    table: TakenTable,
    form: IdentForm,
    number: u32,
) -> Result<bool, Error>
    ensures found { Asks S.Store tx.old tx.new result
        (λ found t. (idents : List Identifier) → HasTaken table name.now t idents → found
        ≡ is_wanted (λ i. list_any (λ taken. same_ident taken i) idents) form (Some number)) }
    ensures frame { ReadsOnly S.Store tx.old tx.new result }
{
    let number_of_dbc = dbc_of(form, number);
    let idents = idents_at(alloc, tx, name, table, number_of_dbc, number_of_dbc)?;
    Ok(has_ident(idents.as_slice(), form, number))
}

/// Whether the network has the wanted identifier in the table; where none is wanted, nothing is read. The errors are
/// those of [`idents_at`].
pub(crate) fn want_taken_at<S: Alter>(
    alloc: Global,
    tx: &mut Transaction<'_, S>,
    name: &NetName,
    table: TakenTable,
    form: IdentForm,
    want: Option<u32>,
) -> Result<bool, Error>
    ensures found { Asks S.Store tx.old tx.new result
        (λ found t. (idents : List Identifier) → HasTaken table name.now t idents
        → found ≡ is_wanted (λ i. list_any (λ taken. same_ident taken i) idents) form want) }
    ensures frame { ReadsWhileOpen S.Store tx.old tx.new result }
{
    match want {
        None => Ok(false),
        Some(number) => is_taken_at(alloc, tx, name, table, form, number),
    }
}
