//! Setting the texts of a signal's values.
ghost use Rattle.std.specs.Prelude.{◌≡◌, ◌≤◌, ◌∷◌, [], ℕ, List, IfOk, Some, length};
ghost use Rattle.dbc_words.specs.Limits.{value_text_limit};
ghost use Rattle.office_facts.specs.FactsOf.{message_facts_of};
ghost use Rattle.office_types.specs.declared.book.SpnBook.{SpnBook};
ghost use Rattle.office_types.specs.declared.change.Change.TheVariants.{SetValues as SetTexts};
ghost use Rattle.office_types.specs.declared.reply.Reply.TheVariants.{Done};
ghost use Rattle.office_types.specs.declared.state.Net.{Net};
ghost use Rattle.office_rules.specs.Change.{Decides};
ghost use Rattle.office_rules.specs.Facts.{message_facts};
ghost use Rattle.office_rules.specs.Signals.{set_values};

use crate::own::own_message;
use base::{Copying, Items};
use dbc_sheet::{ValueText, ValueTexts};
use dbc_words::VALUE_TEXT_LIMIT;
use office_facts::{MessageFacts, has_signal, one_change, refusal_decision};
use office_types::{Change, Decision, Refusal, Reply, SetValues, Team};
use std::alloc::{AllocError, Global};

/// A copy of the texts, of which there are few enough. The error is out of memory.
fn value_texts(alloc: Global, values: &Items<ValueText>) -> Result<ValueTexts, AllocError>
    requires { length values.now ≤ value_text_limit }
    ensures { IfOk result (λ texts. texts ≡ values.now) }
{
    let entries = values.duplicate(alloc)?.into_vec();
    match ValueTexts::of(entries) {
        Some(texts) => Ok(texts),
        None => unreachable!(),
    }
}

/// The decision that sets the texts. The error is out of memory.
fn values_set(alloc: Global, command: &SetValues) -> Result<Decision, AllocError>
    requires { length command.now.values ≤ value_text_limit }
    ensures changes { IfOk result
        (λ d. d.changes ≡ SetTexts command.now.path command.now.values ∷ []) }
    ensures reply { IfOk result (λ d. d.reply ≡ Done) }
{
    let path = command.path.duplicate(alloc)?;
    let values = value_texts(alloc, &command.values)?;
    one_change(alloc, Change::SetValues(path, values), Reply::Done)
}

/// Decides the team's `set_values` on a network that has these facts for the command's message. The error is out of
/// memory.
pub fn decide_set_values(
    alloc: Global,
    team: &Team,
    facts: &MessageFacts<'_>,
    command: &SetValues,
) -> Result<Decision, AllocError>
    ensures { IfOk result (λ d. (name : List ℕ) (net : Net) (book : SpnBook) →
        message_facts_of facts.now ≡ message_facts net command.now.path.message →
        Decides name (record { net = Some net; book = book })
        (set_values team.now (Some net) command.now) d) }
{
    match own_message(team, facts) {
        Err(refusal) => Ok(refusal_decision(alloc, refusal)),
        Ok(live) => {
            if !has_signal(live.message.signals.as_slice(), &command.path.signal) {
                Ok(refusal_decision(alloc, Refusal::NoSignal))
            } else if command.values.as_slice().len() > VALUE_TEXT_LIMIT {
                Ok(refusal_decision(alloc, Refusal::TooMany))
            } else {
                values_set(alloc, command)
            }
        }
    }
}
