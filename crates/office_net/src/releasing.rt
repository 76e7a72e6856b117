//! Releases: freezing the live sheet.
ghost use Rattle.std.specs.Prelude.{◌≡◌, ◌∷◌, [], ℕ, List, IfOk, Some};
ghost use Rattle.base.specs.Refusing.{first_refusal};
ghost use Rattle.office_types.specs.State.{sheet_of, live_messages};
ghost use Rattle.office_types.specs.declared.book.SpnBook.{SpnBook};
ghost use Rattle.office_types.specs.declared.change.Change.TheVariants.{AddRelease, SetHead, ClearApprovals};
ghost use Rattle.office_types.specs.declared.reply.Reply.TheVariants.{Release};
ghost use Rattle.office_types.specs.declared.state.Phase.TheVariants.{Draft};
ghost use Rattle.office_rules.specs.Change.{Decides};
ghost use Rattle.office_rules.specs.Reviewing.{release_tests, release};

use base::{Copying, Items};
use dbc_sheet::Message;
use office_facts::{head_in, in_review, refusal_decision};
use office_types::{
    Change, Decision, FrozenSheet, LiveMessage, Net, Phase, RELEASE_LIMIT, Refusal, Reply, Team,
    is_office,
};
use std::alloc::{AllocError, Global};

/// The first refusal of a release.
fn release_refusal(team: &Team, net: &Net) -> Option<Refusal>
    ensures { result ≡ first_refusal (release_tests team.now (Some net.now)) }
{
    if !is_office(team) {
        Some(Refusal::NotOffice)
    } else if !in_review(&net.head.phase) {
        Some(Refusal::NotInReview)
    } else if net.approvals.as_slice().len() < usize::from(net.head.reviews.count()) {
        Some(Refusal::NeedsMore)
    } else if net.releases.as_slice().len() >= RELEASE_LIMIT as usize {
        Some(Refusal::TooMany)
    } else {
        None
    }
}

/// The live messages, without their owners.
fn live_messages(alloc: Global, live: &[LiveMessage]) -> Result<Items<Message>, AllocError>
    ensures { IfOk result (λ messages. messages ≡ live_messages live.now) }
{
    let mut messages = Items::new(alloc);
    for one in live {
        messages.push(one.message.duplicate(alloc)?)?;
    }
    Ok(messages)
}

/// The live sheet, as a release.
fn frozen(alloc: Global, net: &Net) -> Result<FrozenSheet, AllocError>
    ensures { IfOk result (λ sheet. sheet ≡ sheet_of net.now) }
{
    let messages = live_messages(alloc, net.live.as_slice())?;
    Ok(FrozenSheet::of(net.head.frame.duplicate(alloc)?, messages))
}

/// The changes of a release.
fn release_changes(alloc: Global, net: &Net) -> Result<Items<Change>, AllocError>
    ensures { IfOk result (λ changes. changes ≡ AddRelease (sheet_of net.now) ∷ SetHead
        (record net.now.head { phase = Draft }) ∷ ClearApprovals ∷ []) }
{
    let mut changes = Items::new(alloc);
    changes.push(Change::AddRelease(frozen(alloc, net)?))?;
    changes.push(Change::SetHead(head_in(alloc, &net.head, Phase::Draft)?))?;
    changes.push(Change::ClearApprovals)?;
    Ok(changes)
}

/// Decides a `release` of the team: the live sheet is frozen as the network's next release, and the network is in draft
/// again, without approvals. It is refused, with no change, with the first of these that holds: 42 `NotOffice` where
/// the team isn't the office, 55 `NotInReview` where the network isn't in review, 57 `NeedsMore` where it has too few
/// approvals, 26 `TooMany` where it has [`RELEASE_LIMIT`] releases. The reply is the
/// number of the release, from 1. The error is out of memory.
pub fn decide_release(alloc: Global, team: &Team, net: &Net) -> Result<Decision, AllocError>
    ensures { IfOk result (λ d. (name : List ℕ) (book : SpnBook)
        → Decides name (record { net = Some net.now; book = book })
        (release team.now (Some net.now)) d) }
{
    if let Some(refusal) = release_refusal(team, net) {
        return Ok(refusal_decision(alloc, refusal));
    }
    let number = net.releases.as_slice().len() as u32 + 1;
    let changes = release_changes(alloc, net)?;
    Ok(Decision {
        changes,
        reply: Reply::Release(number),
    })
}
