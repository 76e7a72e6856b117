//! The parts of a network and of the book, each by one SELECT.
ghost use Rattle.std.specs.Prelude.{◌≡◌, ℕ, List, Option};
ghost use Rattle.can_id.specs.declared.ident.Ident.{Ident as Identifier};
ghost use Rattle.dbc_sheet.specs.declared.sheet.Sheet.{Sheet as SheetModel};
ghost use Rattle.office_types.specs.declared.book.SpnBlock.{SpnBlock as SpnRange};
ghost use Rattle.office_types.specs.declared.state.GrantedBlock.{GrantedBlock as Granted};
ghost use Rattle.office_types.specs.declared.state.Head.{Head as Heading};
ghost use Rattle.office_types.specs.declared.state.LiveMessage.{LiveMessage as Live};
ghost use Rattle.store_net.specs.Parts.{HasApprovals, HasBlocks, HasHead, HasHeld, HasLive, HasReleases};
ghost use Rattle.store_net.specs.Parts.{HasSpnBlocks, HasUsed};
ghost use Rattle.store_tables.specs.Frames.{Asks, ReadsOnly};

use base::Items;
use can_id::Ident;
use office_types::{
    BlockForm, FrozenSheet, GrantedBlock, Head, LiveMessage, NetName, SpnBlock, Team,
};
use sqlite::{Alter, Error, Transaction};
use std::alloc::Global;
use store_rows::{FromRow, granted_of, items_of};
use store_statements::{
    select_approvals, select_blocks, select_blocks_of_form, select_held, select_messages,
    select_net, select_releases, select_spns,
};

/// The head of the network, `None` where the network isn't there.
pub(crate) fn head_of<S: Alter>(
    alloc: Global,
    tx: &mut Transaction<'_, S>,
    name: &NetName,
) -> Result<Option<Head>, Error>
    ensures found { Asks S.Store tx.old tx.new result
        (λ head t. (other : Option Heading) → HasHead name.now t other → head ≡ other) }
    ensures frame { ReadsOnly S.Store tx.old tx.new result }
{
    let rows = select_net(tx, name.as_bytes())?;
    match rows.first() {
        Some(row) => Ok(Some(Head::from_row(alloc, row)?)),
        None => Ok(None),
    }
}

/// The live messages of the network that are there as bodies, in ascending order of their DBC numbers. An error is out
/// of memory, what `sqlite` answers, or `InvalidQuery` where a row is no live message's.
pub fn live_of<S: Alter>(
    alloc: Global,
    tx: &mut Transaction<'_, S>,
    name: &NetName,
) -> Result<Items<LiveMessage>, Error>
    ensures found { Asks S.Store tx.old tx.new result
        (λ live t. (others : List Live) → HasLive name.now t others → live ≡ others) }
    ensures frame { ReadsOnly S.Store tx.old tx.new result }
{
    let rows = select_messages(tx, name.as_bytes())?;
    items_of(alloc, &rows)
}

/// The blocks of the network, by form and then by their first number, but those of suspect parameter numbers.
pub(crate) fn blocks_of<S: Alter>(
    alloc: Global,
    tx: &mut Transaction<'_, S>,
    name: &NetName,
) -> Result<Items<GrantedBlock>, Error>
    ensures found { Asks S.Store tx.old tx.new result
        (λ blocks t. (others : List Granted) → HasBlocks name.now t others → blocks ≡ others) }
    ensures frame { ReadsOnly S.Store tx.old tx.new result }
{
    let rows = select_blocks(tx, name.as_bytes())?;
    granted_of(alloc, &rows)
}

/// The held identifiers of the network, in ascending order of their DBC numbers.
pub(crate) fn held_of<S: Alter>(
    alloc: Global,
    tx: &mut Transaction<'_, S>,
    name: &NetName,
) -> Result<Items<Ident>, Error>
    ensures found { Asks S.Store tx.old tx.new result
        (λ held t. (others : List Identifier) → HasHeld name.now t others → held ≡ others) }
    ensures frame { ReadsOnly S.Store tx.old tx.new result }
{
    let rows = select_held(tx, name.as_bytes())?;
    items_of(alloc, &rows)
}

/// The teams that approved the network, in ascending order of their names.
pub(crate) fn approvals_of<S: Alter>(
    alloc: Global,
    tx: &mut Transaction<'_, S>,
    name: &NetName,
) -> Result<Items<Team>, Error>
    ensures found { Asks S.Store tx.old tx.new result
        (λ teams t. (others : List (List ℕ)) → HasApprovals name.now t others → teams ≡ others) }
    ensures frame { ReadsOnly S.Store tx.old tx.new result }
{
    let rows = select_approvals(tx, name.as_bytes())?;
    items_of(alloc, &rows)
}

/// The releases of the network, from the first one on.
pub(crate) fn releases_of<S: Alter>(
    alloc: Global,
    tx: &mut Transaction<'_, S>,
    name: &NetName,
) -> Result<Items<FrozenSheet>, Error>
    ensures found { Asks S.Store tx.old tx.new result
        (λ releases t. (others : List SheetModel) → HasReleases name.now t others
        → releases ≡ others) }
    ensures frame { ReadsOnly S.Store tx.old tx.new result }
{
    let rows = select_releases(tx, name.as_bytes())?;
    items_of(alloc, &rows)
}

/// The blocks of suspect parameter numbers of all networks, by network and then by their first number.
pub(crate) fn spn_blocks_of<S: Alter>(
    alloc: Global,
    tx: &mut Transaction<'_, S>,
) -> Result<Items<SpnBlock>, Error>
    ensures found { Asks S.Store tx.old tx.new result
        (λ blocks t. (others : List SpnRange) → HasSpnBlocks t others → blocks ≡ others) }
    ensures frame { ReadsOnly S.Store tx.old tx.new result }
{
    let rows = select_blocks_of_form(tx, u32::from(BlockForm::Spn.number()))?;
    items_of(alloc, &rows)
}

/// The suspect parameter numbers that were ever used, ascending.
pub(crate) fn used_of<S: Alter>(
    alloc: Global,
    tx: &mut Transaction<'_, S>,
) -> Result<Items<u32>, Error>
    ensures found { Asks S.Store tx.old tx.new result
        (λ used t. (others : List ℕ) → HasUsed t others → used ≡ others) }
    ensures frame { ReadsOnly S.Store tx.old tx.new result }
{
    let rows = select_spns(tx)?;
    items_of(alloc, &rows)
}
