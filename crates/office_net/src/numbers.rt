//! What the commands that give out a number for a new message have in common: the tests of its name, and the message.
ghost use Rattle.std.specs.Prelude.{◌≡◌, ◌∷◌, [], IfOk};
ghost use Rattle.base.specs.Refusing.{first_refusal};
ghost use Rattle.office_types.specs.declared.change.Change.TheVariants.{SetMessage};
ghost use Rattle.office_types.specs.declared.reply.Reply.TheVariants.{Number};
ghost use Rattle.office_rules.specs.Numbers.{name_tests, new_message};
ghost use Rattle.office_facts.specs.FactsOf.{number_facts_of};

use base::Copying;
use can_id::Ident;
use dbc_sheet::{Message, Signals};
use dbc_words::Text;
use office_facts::{NumberFacts, in_review, knows_node, one_change};
use office_types::{Change, Decision, LiveMessage, NewMessage, Refusal, Reply, Team};
use std::alloc::{AllocError, Global};

/// Why no message can be made, whatever number it gets.
pub(crate) fn name_refusal(facts: &NumberFacts<'_>, message: &NewMessage) -> Option<Refusal>
    ensures { result ≡ first_refusal (name_tests (number_facts_of facts.now) message.now) }
{
    if in_review(facts.phase) {
        Some(Refusal::InReview)
    } else if !knows_node(facts.nodes, &message.node) {
        Some(Refusal::NoNode)
    } else if facts.named {
        Some(Refusal::NameTaken)
    } else if facts.full {
        Some(Refusal::TooMany)
    } else {
        None
    }
}

/// The team's new message, without signals.
fn new_message(
    alloc: Global,
    team: &Team,
    message: &NewMessage,
    ident: Ident,
) -> Result<LiveMessage, AllocError>
    ensures { IfOk result (λ live. live ≡ new_message team.now message.now ident) }
{
    let owner = team.duplicate(alloc)?;
    let name = message.name.duplicate(alloc)?;
    let transmitter = message.node.duplicate(alloc)?;
    Ok(LiveMessage {
        message: Message {
            ident,
            name,
            length: message.length,
            transmitter,
            comment: Text::empty(alloc),
            signals: Signals::new(alloc),
        },
        owner,
    })
}

/// The decision that makes the message with this identifier, and answers the number.
pub(crate) fn message_taken(
    alloc: Global,
    team: &Team,
    message: &NewMessage,
    ident: Ident,
    number: u32,
) -> Result<Decision, AllocError>
    ensures changes { IfOk result
        (λ d. d.changes ≡ SetMessage (new_message team.now message.now ident) ∷ []) }
    ensures reply { IfOk result (λ d. d.reply ≡ Number number) }
{
    let live = new_message(alloc, team, message, ident)?;
    one_change(alloc, Change::SetMessage(live), Reply::Number(number))
}
