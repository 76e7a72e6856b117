//! What a command that gives out a number reads of its network: its row, its blocks, of the live messages whether one
//! has a name and whether there are as many as there may be, and which identifiers live messages have or are held:
//! those in the team's blocks, or all of 29 bits. No message is read.
ghost use Rattle.std.specs.Prelude.{ℕ, List, Option};
ghost use Rattle.office_facts.specs.Excerpt.{fits};
ghost use Rattle.office_facts.specs.Scope.{Groups, Idents};
ghost use Rattle.store_net.specs.Excerpts.{HasNameAndRoom, IsExcerptIn, MatchBoth};
ghost use Rattle.store_tables.specs.Frames.{Asks, ReadsOnly};
ghost use Rattle.store_net.specs.Reading.{IfReadFits, OnParts};

use crate::heads::{is_full_at, is_named_at};
use crate::parts::{blocks_of, head_of};
use crate::ranges::{TakenTable, idents_at, idents_inside_at, want_taken_at};
use base::Items;
use can_id::{EXTENDED_FLAG, GREATEST_EXTENDED};
use dbc_words::Name;
use office_facts::{Excerpt, NumberExcerpt, blocks_of as team_blocks, groups_of, numbers_of};
use office_types::{BlockForm, NetName, TakeIdent, TakePgn, Team};
use sqlite::{Alter, Error, Transaction};
use std::alloc::Global;

/// What is read for each of them, without identifiers: the head and the blocks, whether a live message has the name,
/// and whether there are as many as there may be. `None` where the network isn't there.
fn name_and_room<S: Alter>(
    alloc: Global,
    tx: &mut Transaction<'_, S>,
    name: &NetName,
    message: &Name,
) -> Result<Option<NumberExcerpt>, Error>
    ensures found { Asks S.Store tx.old tx.new result
        (OnParts name.now (λ net found. MatchBoth (HasNameAndRoom message.now) net found)) }
    ensures frame { ReadsOnly S.Store tx.old tx.new result }
{
    let Some(head) = head_of(alloc, tx, name)? else {
        return Ok(None);
    };
    let blocks = blocks_of(alloc, tx, name)?;
    let named = is_named_at(tx, name, message)?;
    let full = is_full_at(tx, name)?;
    Ok(Some(NumberExcerpt {
        head,
        blocks,
        named,
        full,
        want_live: false,
        want_held: false,
        taken: Items::new(alloc),
    }))
}

/// The excerpt for the team's `take_ident`, `None` where the network isn't there. Of the live and the held identifiers
/// it reads those in the team's blocks of the form, and the wanted one.
pub(crate) fn ident_excerpt<S: Alter>(
    alloc: Global,
    tx: &mut Transaction<'_, S>,
    name: &NetName,
    team: &Team,
    take: &TakeIdent,
) -> Result<Option<Excerpt>, Error>
    ensures found { Asks S.Store tx.old tx.new result
        (OnParts name.now (λ net found. IsExcerptIn team.now (Idents take.now) net found)) }
    ensures fits { IfReadFits (Idents take.now) result }
    ensures frame { ReadsOnly S.Store tx.old tx.new result }
{
    let Some(mut excerpt) = name_and_room(alloc, tx, name, &take.message.name)? else {
        return Ok(None);
    };
    let form = take.form;
    let own = team_blocks(
        alloc,
        excerpt.blocks.as_slice(),
        team,
        BlockForm::of_identifiers(form),
    )?;
    let live = idents_inside_at(alloc, tx, name, TakenTable::Live, form, &own)?;
    let held = idents_inside_at(alloc, tx, name, TakenTable::Held, form, &own)?;
    let want_live = want_taken_at(alloc, tx, name, TakenTable::Live, form, take.want)?;
    let want_held = want_taken_at(alloc, tx, name, TakenTable::Held, form, take.want)?;
    let numbers = numbers_of(alloc, form, &live, &held)?;
    excerpt.want_live = want_live;
    excerpt.want_held = want_held;
    excerpt.taken = Items::from_vec(numbers);
    Ok(Some(Excerpt::Numbers(excerpt)))
}

/// The excerpt for a `take_pgn`, of whatever team; `None` where the network isn't there. Of the live and the held
/// identifiers it reads all of 29 bits.
pub(crate) fn group_excerpt<S: Alter>(
    alloc: Global,
    tx: &mut Transaction<'_, S>,
    name: &NetName,
    take: &TakePgn,
) -> Result<Option<Excerpt>, Error>
    ensures found { Asks S.Store tx.old tx.new result
        (OnParts name.now (λ net found. (team : List ℕ)
        → IsExcerptIn team (Groups take.now) net found)) }
    ensures fits { IfReadFits (Groups take.now) result }
    ensures frame { ReadsOnly S.Store tx.old tx.new result }
{
    let Some(mut excerpt) = name_and_room(alloc, tx, name, &take.message.name)? else {
        return Ok(None);
    };
    let last = EXTENDED_FLAG + GREATEST_EXTENDED;
    let live = idents_at(alloc, tx, name, TakenTable::Live, EXTENDED_FLAG, last)?;
    let held = idents_at(alloc, tx, name, TakenTable::Held, EXTENDED_FLAG, last)?;
    let groups = groups_of(alloc, live.as_slice(), held.as_slice())?;
    excerpt.taken = Items::from_vec(groups);
    Ok(Some(Excerpt::Numbers(excerpt)))
}
