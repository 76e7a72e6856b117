//! What an action reads of its network in the tables: an excerpt of the action's scope.
ghost use Rattle.std.specs.Prelude.{Option, ◌≡◌, ℕ, List, true, IfSome};
ghost use Rattle.office_facts.specs.Excerpt.{fits};
ghost use Rattle.office_facts.specs.Scope.{Head, Message, Parts, Retiring, is_part, scope_as};
ghost use Rattle.office_rules.specs.Kept.{IsNet};
ghost use Rattle.store_net.specs.Excerpts.{IsExcerptIn};
ghost use Rattle.store_tables.specs.Frames.{Asks, ReadsOnly};
ghost use Rattle.store_net.specs.Reading.{IfReadFits, OnNet, OnParts};

use crate::message::message_at;
use crate::number_excerpt::{group_excerpt, ident_excerpt};
use crate::parts::{blocks_of, head_of};
use crate::release::last_has_at;
use dbc_words::Name;
use office_facts::{Excerpt, Scope};
use office_types::{NetName, Team};
use sqlite::{Alter, Error, Transaction};
use std::alloc::Global;

/// The head, `None` where the network isn't there.
fn head_excerpt<S: Alter>(
    alloc: Global,
    tx: &mut Transaction<'_, S>,
    name: &NetName,
) -> Result<Option<Excerpt>, Error>
    ensures found { Asks S.Store tx.old tx.new result
        (OnParts name.now (λ net found. (team : List ℕ) → IsExcerptIn team Head net found)) }
    ensures fits { IfReadFits Head result }
    ensures frame { ReadsOnly S.Store tx.old tx.new result }
{
    let Some(head) = head_of(alloc, tx, name)? else {
        return Ok(None);
    };
    Ok(Some(Excerpt::Head(head)))
}

/// The head and the blocks.
fn parts_excerpt<S: Alter>(
    alloc: Global,
    tx: &mut Transaction<'_, S>,
    name: &NetName,
) -> Result<Option<Excerpt>, Error>
    ensures found { Asks S.Store tx.old tx.new result
        (OnParts name.now (λ net found. (team : List ℕ) → IsExcerptIn team Parts net found)) }
    ensures fits { IfReadFits Parts result }
    ensures frame { ReadsOnly S.Store tx.old tx.new result }
{
    let Some(head) = head_of(alloc, tx, name)? else {
        return Ok(None);
    };
    let blocks = blocks_of(alloc, tx, name)?;
    Ok(Some(Excerpt::Parts(head, blocks)))
}

/// The head and the message of the name.
fn message_excerpt<S: Alter>(
    alloc: Global,
    tx: &mut Transaction<'_, S>,
    name: &NetName,
    message: &Name,
) -> Result<Option<Excerpt>, Error>
    ensures found { Asks S.Store tx.old tx.new result
        (OnParts name.now (λ net found. (team : List ℕ)
        → IsExcerptIn team (Message message.now) net found)) }
    ensures fits { IfReadFits (Message message.now) result }
    ensures frame { ReadsOnly S.Store tx.old tx.new result }
{
    let Some(head) = head_of(alloc, tx, name)? else {
        return Ok(None);
    };
    let found = message_at(alloc, tx, name, message)?;
    Ok(Some(Excerpt::Message(head, found)))
}

/// The head and the message of the name, and whether a release has its identifier: whether the last one has it, which
/// in the network of an office has each live message that was released.
fn retiring_excerpt<S: Alter>(
    alloc: Global,
    tx: &mut Transaction<'_, S>,
    name: &NetName,
    message: &Name,
) -> Result<Option<Excerpt>, Error>
    ensures found { Asks S.Store tx.old tx.new result
        (OnNet name.now (λ net found. IfSome net IsNet → (team : List ℕ)
        → IsExcerptIn team (Retiring message.now) net found)) }
    ensures fits { IfReadFits (Retiring message.now) result }
    ensures frame { ReadsOnly S.Store tx.old tx.new result }
{
    let Some(head) = head_of(alloc, tx, name)? else {
        return Ok(None);
    };
    let found = message_at(alloc, tx, name, message)?;
    let ident = match &found {
        Some(live) => live.message.ident,
        None => return Ok(Some(Excerpt::Retiring(head, None, false))),
    };
    let released = last_has_at(alloc, tx, name, ident)?;
    Ok(Some(Excerpt::Retiring(head, found, released)))
}

/// What the tables have of the network for the team and the scope, which isn't the whole network; `None` where the
/// network isn't there. An error is out of memory, what `sqlite` answers, or `InvalidQuery` where the rows are no
/// network's.
pub fn excerpt_at<S: Alter>(
    alloc: Global,
    tx: &mut Transaction<'_, S>,
    name: &NetName,
    team: &Team,
    scope: &Scope<'_>,
) -> Result<Option<Excerpt>, Error>
    requires { is_part (scope_as scope.now) ≡ true }
    ensures found { Asks S.Store tx.old tx.new result (OnNet name.now (λ net found. IfSome net IsNet
        → IsExcerptIn team.now (scope_as scope.now) net found)) }
    ensures fits { IfReadFits (scope_as scope.now) result }
    ensures frame { ReadsOnly S.Store tx.old tx.new result }
{
    match scope {
        Scope::Head => head_excerpt(alloc, tx, name),
        Scope::Parts => parts_excerpt(alloc, tx, name),
        Scope::Message(message) => message_excerpt(alloc, tx, name, message),
        Scope::Retiring(message) => retiring_excerpt(alloc, tx, name, message),
        Scope::Idents(take) => ident_excerpt(alloc, tx, name, team, take),
        Scope::Groups(take) => group_excerpt(alloc, tx, name, take),
        Scope::Whole => unreachable!(),
    }
}
