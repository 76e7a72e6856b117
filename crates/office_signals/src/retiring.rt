//! Taking a live message out.
ghost use Rattle.std.specs.Prelude.{◌≡◌, ◌∷◌, [], ℕ, List, IfOk, IfSome, Some, if◌then◌else◌};
ghost use Rattle.office_facts.specs.FactsOf.{message_facts_of};
ghost use Rattle.office_types.specs.declared.book.SpnBook.{SpnBook};
ghost use Rattle.office_types.specs.declared.change.Change.TheVariants.{Hold, RemoveMessage};
ghost use Rattle.office_types.specs.declared.reply.Reply.TheVariants.{Done};
ghost use Rattle.office_types.specs.declared.state.Net.{Net};
ghost use Rattle.office_rules.specs.Change.{Decides};
ghost use Rattle.office_rules.specs.Facts.{message_facts, was_released};
ghost use Rattle.office_rules.specs.Retiring.{retire};

use crate::own::own_message;
use can_id::Ident;
use office_facts::{MessageFacts, one_change, refusal_decision, two_changes};
use office_types::{Change, Decision, Reply, Team};
use std::alloc::{AllocError, Global};

/// The decision that takes the message of the identifier out, and holds the identifier where a release has it. The
/// error is out of memory.
fn message_retired(alloc: Global, ident: &Ident, released: bool) -> Result<Decision, AllocError>
    ensures changes { IfOk result
        (λ d. d.changes ≡ RemoveMessage ident.now
        ∷ (if released then Hold ident.now ∷ [] else [])) }
    ensures reply { IfOk result (λ d. d.reply ≡ Done) }
{
    let remove = Change::RemoveMessage(*ident);
    if released {
        two_changes(alloc, remove, Change::Hold(*ident), Reply::Done)
    } else {
        one_change(alloc, remove, Reply::Done)
    }
}

/// Decides the team's `retire` of a message on a network that has these facts for it; `released` says whether one of
/// the network's releases has the message's identifier. The error is out of memory.
pub fn decide_retire(
    alloc: Global,
    team: &Team,
    facts: &MessageFacts<'_>,
    released: bool,
) -> Result<Decision, AllocError>
    ensures { IfOk result (λ d. (name message : List ℕ) (net : Net) (book : SpnBook) →
        message_facts_of facts.now ≡ message_facts net message →
        IfSome (message_facts_of facts.now).found
        (λ m. was_released net.releases m.message.ident ≡ released) →
        Decides name (record { net = Some net; book = book }) (retire team.now (Some net) message)
        d) }
{
    match own_message(team, facts) {
        Err(refusal) => Ok(refusal_decision(alloc, refusal)),
        Ok(live) => message_retired(alloc, &live.message.ident, released),
    }
}
