//! Requesting a review, approving, and turning a review down.
ghost use Rattle.std.specs.Prelude.{◌≡◌, ◌∷◌, [], ℕ, List, Some, IfOk};
ghost use Rattle.base.specs.Refusing.{first_refusal};
ghost use Rattle.office_types.specs.declared.book.SpnBook.{SpnBook};
ghost use Rattle.office_types.specs.declared.change.Change.TheVariants.{ClearApprovals, SetHead};
ghost use Rattle.office_types.specs.declared.reply.Reply.TheVariants.{Done};
ghost use Rattle.office_types.specs.declared.state.Net.{Net as NetModel};
ghost use Rattle.office_rules.specs.Change.{Decides};
ghost use Rattle.office_rules.specs.Opening.{bare_net};
ghost use Rattle.office_rules.specs.Reviewing.{approve, reject, review_tests, submit};
ghost use Rattle.office_net.specs.FactsOf.{with_head};

use base::Copying;
use office_facts::{head_in, in_review, is_submitter, one_change, refusal_decision, two_changes};
use office_types::{Change, Decision, Head, Phase, Refusal, Reply, Team};
use std::alloc::{AllocError, Global};

/// The decision that brings the network with this head into the phase, without approvals.
fn phase_set(alloc: Global, head: &Head, phase: Phase) -> Result<Decision, AllocError>
    ensures changes { IfOk result
        (λ d. d.changes ≡ SetHead (record head.now { phase = phase }) ∷ ClearApprovals ∷ []) }
    ensures reply { IfOk result (λ d. d.reply ≡ Done) }
{
    let head = head_in(alloc, head, phase)?;
    two_changes(
        alloc,
        Change::SetHead(head),
        Change::ClearApprovals,
        Reply::Done,
    )
}

/// Decides the team's `submit` on a network that has this head. The error is out of memory.
pub fn decide_submit(alloc: Global, team: &Team, head: &Head) -> Result<Decision, AllocError>
    ensures { IfOk result (λ d. (name : List ℕ) (net : NetModel) (book : SpnBook)
        → Decides name (record { net = Some (with_head head.now net); book = book })
        (submit team.now (Some (with_head head.now net))) d) }
{
    if in_review(&head.phase) {
        return Ok(refusal_decision(alloc, Refusal::InReview));
    }
    let submitter = team.duplicate(alloc)?;
    phase_set(alloc, head, Phase::Review { submitter })
}
/// Why the team may not approve of a network that has this head or turn its review down.
fn review_refusal(team: &Team, head: &Head) -> Option<Refusal>
    ensures { result ≡ first_refusal (review_tests team.now (Some (bare_net [] head.now))) }
{
    if !in_review(&head.phase) {
        Some(Refusal::NotInReview)
    } else if is_submitter(team, &head.phase) {
        Some(Refusal::OwnReview)
    } else {
        None
    }
}

/// Decides the team's `approve` on a network that has this head. The error is out of memory.
pub fn decide_approve(alloc: Global, team: &Team, head: &Head) -> Result<Decision, AllocError>
    ensures { IfOk result (λ d. (name : List ℕ) (net : NetModel) (book : SpnBook)
        → Decides name (record { net = Some (with_head head.now net); book = book })
        (approve team.now (Some (with_head head.now net))) d) }
{
    match review_refusal(team, head) {
        Some(refusal) => Ok(refusal_decision(alloc, refusal)),
        None => {
            let team = team.duplicate(alloc)?;
            one_change(alloc, Change::SetApproval(team), Reply::Done)
        }
    }
}
/// Decides the team's `reject` on a network that has this head. The error is out of memory.
pub fn decide_reject(alloc: Global, team: &Team, head: &Head) -> Result<Decision, AllocError>
    ensures { IfOk result (λ d. (name : List ℕ) (net : NetModel) (book : SpnBook)
        → Decides name (record { net = Some (with_head head.now net); book = book })
        (reject team.now (Some (with_head head.now net))) d) }
{
    match review_refusal(team, head) {
        Some(refusal) => Ok(refusal_decision(alloc, refusal)),
        None => phase_set(alloc, head, Phase::Draft),
    }
}
