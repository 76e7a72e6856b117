//! The team's own live message on a network in draft, which every command on a message needs first.
ghost use Rattle.std.specs.Prelude.{◌≡◌, IfErr, IfOk};
ghost use Rattle.base.specs.Refusing.{first_refusal};
ghost use Rattle.office_facts.specs.FactsOf.{message_facts_of};
ghost use Rattle.office_rules.specs.Retiring.{retire_tests};
ghost use Rattle.office_signals.specs.Given.{IsGiven};

use office_facts::{MessageFacts, in_review};
use office_types::{LiveMessage, Refusal, Team};

/// The message that the facts name, or why the team may not change it: the network is in review, there is no such
/// message, or it is another team's.
pub(crate) fn own_message<'a>(
    team: &Team,
    facts: &MessageFacts<'a>,
) -> Result<&'a LiveMessage, Refusal>
    ensures given { IfOk result (λ live.
        IsGiven (retire_tests team.now (message_facts_of facts.now))
        (message_facts_of facts.now).found (Ok live.now)) }
    ensures refused { IfErr result
        (λ refusal. first_refusal (retire_tests team.now (message_facts_of facts.now))
        ≡ Some refusal) }
{
    if in_review(facts.phase) {
        return Err(Refusal::InReview);
    }
    match facts.found {
        None => Err(Refusal::NoMessage),
        Some(live) => {
            if live.owner == *team {
                Ok(live)
            } else {
                Err(Refusal::NotOwner)
            }
        }
    }
}
