//! What is decided on a request that comes for the first time, on what its command reads of the tables.
//!
//! An action of a smaller scope than the whole network goes by an excerpt of that scope
//! (`office_facts/specs/Scope.antt`). The others, imports and bundles read all of their network but its releases; of
//! these they read how many there are, or what is in them, where they depend on it (`releases_read` in
//! `office_rules/specs/Commands.antt`). The book is read for `take_spn`, for a `grant` of suspect parameter numbers,
//! and with all of a network.
ghost use Rattle.std.specs.Prelude.{◌≡◌, true, false, Some};
ghost use Rattle.office_rules.specs.Commands.{reads_bodies, reads_releases};
ghost use Rattle.office_facts.specs.Scope.{reads_part};
ghost use Rattle.store.specs.Deciding.{IsDecidedIn, IsDecidedInOffice, IsDecidedWithoutRelease};
ghost use Rattle.store_tables.specs.Frames.{Asks, ReadsOnly};

use base::Items;
use office_decide::{decide, decide_by_excerpt};
use office_facts::{reads_bodies, reads_book, reads_part, reads_releases, scope_of};
use office_law::{bodies_dont_count, releases_dont_count};
use office_types::{Command, Decision, SpnBook, Task, Team, UsedSpns};
use sqlite::{Alter, Error, Transaction};
use std::alloc::Global;
use store_changes::next_release;
use store_net::{book_of, counted_net_at, excerpt_at, net_at, unreleased_net_at};

/// A book without blocks and numbers. Takes no memory.
fn empty_book(alloc: Global) -> SpnBook {
    SpnBook {
        blocks: Items::new(alloc),
        used: UsedSpns::new(alloc),
    }
}

/// Decides the team's command by the part of its network that it reads.
fn decide_by_part<S: Alter>(
    alloc: Global,
    tx: &mut Transaction<'_, S>,
    team: &Team,
    command: &Command,
) -> Result<Decision, Error>
    requires { reads_part command.now.task ≡ true }
    ensures decided { Asks S.Store tx.old tx.new result
        (IsDecidedWithoutRelease team.now command.now) }
    ensures frame { ReadsOnly S.Store tx.old tx.new result }
{
    releases_dont_count();
    let Task::Act(action) = &command.task else {
        unreachable!()
    };
    let Some(excerpt) = excerpt_at(alloc, tx, &command.net, team, &scope_of(action))? else {
        return Ok(decide(alloc, team, None, &empty_book(alloc), command)?);
    };
    if reads_book(&command.task) {
        let book = book_of(alloc, tx)?;
        return Ok(decide_by_excerpt(alloc, team, &excerpt, &book, command)?);
    }
    Ok(decide_by_excerpt(alloc, team, &excerpt, &empty_book(alloc), command)?)
}

/// The number of the next release: 1 where the network isn't there, and none is wanted where it is.
fn first_number(is_there: bool) -> Option<u32>
    ensures { is_there ≡ false → result ≡ Some 1 }
{
    if is_there { None } else { Some(1) }
}

/// Decides the team's command, which doesn't depend on releases, by its network without them.
fn decide_without_releases<S: Alter>(
    alloc: Global,
    tx: &mut Transaction<'_, S>,
    team: &Team,
    command: &Command,
) -> Result<(Decision, Option<u32>), Error>
    requires { reads_releases command.now.task ≡ false }
    ensures decided { Asks S.Store tx.old tx.new result (IsDecidedIn team.now command.now) }
    ensures frame { ReadsOnly S.Store tx.old tx.new result }
{
    releases_dont_count();
    let net = unreleased_net_at(alloc, tx, &command.net)?;
    let book = book_of(alloc, tx)?;
    let decision = decide(alloc, team, net.as_ref(), &book, command)?;
    let next = first_number(net.is_some());
    Ok((decision, next))
}

/// Decides the team's command, which retires nothing, by its network and how many releases it has.
fn decide_by_count<S: Alter>(
    alloc: Global,
    tx: &mut Transaction<'_, S>,
    team: &Team,
    command: &Command,
) -> Result<(Decision, Option<u32>), Error>
    requires { reads_bodies command.now.task ≡ false }
    ensures decided { Asks S.Store tx.old tx.new result (IsDecidedIn team.now command.now) }
    ensures frame { ReadsOnly S.Store tx.old tx.new result }
{
    bodies_dont_count();
    let net = counted_net_at(alloc, tx, &command.net)?;
    let book = book_of(alloc, tx)?;
    let decision = decide(alloc, team, net.as_ref(), &book, command)?;
    let next = next_release(net.as_ref())?;
    Ok((decision, Some(next)))
}

/// Decides the team's command by its whole network.
fn decide_by_net<S: Alter>(
    alloc: Global,
    tx: &mut Transaction<'_, S>,
    team: &Team,
    command: &Command,
) -> Result<(Decision, Option<u32>), Error>
    ensures decided { Asks S.Store tx.old tx.new result (IsDecidedIn team.now command.now) }
    ensures frame { ReadsOnly S.Store tx.old tx.new result }
{
    let net = net_at(alloc, tx, &command.net)?;
    let book = book_of(alloc, tx)?;
    let decision = decide(alloc, team, net.as_ref(), &book, command)?;
    let next = next_release(net.as_ref())?;
    Ok((decision, Some(next)))
}

/// Decides the team's command on what the tables have, where that is a network of an office, and gives the number of
/// the network's next release if the changes may have one. An error is out of memory, what `sqlite` answers, or
/// `InvalidQuery` where the rows are no office's.
pub(crate) fn decide_on_tables<S: Alter>(
    alloc: Global,
    tx: &mut Transaction<'_, S>,
    team: &Team,
    command: &Command,
) -> Result<(Decision, Option<u32>), Error>
    ensures decided { Asks S.Store tx.old tx.new result (IsDecidedInOffice team.now command.now) }
    ensures frame { ReadsOnly S.Store tx.old tx.new result }
{
    if reads_part(&command.task) {
        let decision = decide_by_part(alloc, tx, team, command)?;
        Ok((decision, None))
    } else if !reads_releases(&command.task) {
        decide_without_releases(alloc, tx, team, command)
    } else if !reads_bodies(&command.task) {
        decide_by_count(alloc, tx, team, command)
    } else {
        decide_by_net(alloc, tx, team, command)
    }
}
