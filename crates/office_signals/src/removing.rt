//! Removing a signal from its message.
ghost use Rattle.std.specs.Prelude.{◌≡◌, ◌&&◌, ◌∷◌, [], ℕ, List, IfOk, Some};
ghost use Rattle.std.specs.List.{list_any};
ghost use Rattle.std.specs.Str.{bytes_eq};
ghost use Rattle.bitlayout.specs.Mux.{is_under};
ghost use Rattle.dbc_sheet.specs.Signals.{signal_is_multiplexor};
ghost use Rattle.office_facts.specs.FactsOf.{message_facts_of};
ghost use Rattle.office_types.specs.declared.book.SpnBook.{SpnBook};
ghost use Rattle.office_types.specs.declared.change.Change.TheVariants.{RemoveSignal};
ghost use Rattle.office_types.specs.declared.reply.Reply.TheVariants.{Done};
ghost use Rattle.office_types.specs.declared.state.Net.{Net};
ghost use Rattle.office_rules.specs.Change.{Decides};
ghost use Rattle.office_rules.specs.Facts.{message_facts};
ghost use Rattle.office_rules.specs.Signals.{is_needed, remove_signal};

use crate::own::own_message;
use base::Copying;
use dbc_sheet::Signal;
use dbc_words::Name;
use office_facts::{MessageFacts, has_signal, one_change, refusal_decision};
use office_types::{Change, Decision, Refusal, Reply, SignalPath, Team};
use std::alloc::{AllocError, Global};

/// Whether the signal of the name is the multiplexor.
fn is_the_multiplexor(signals: &[Signal], name: &Name) -> bool
    ensures { result ≡ list_any (λ s. bytes_eq s.name name.now && signal_is_multiplexor s)
        signals.now }
{
    signals.iter().any(|signal| signal.name == *name && signal.mux.is_multiplexor())
}

/// Whether one of the signals is multiplexed.
fn some_multiplexed(signals: &[Signal]) -> bool
    ensures { result ≡ list_any (λ s. is_under s.mux) signals.now }
{
    signals.iter().any(|signal| signal.mux.is_under())
}

/// Whether the signal of the name is the multiplexor, and one of the signals is multiplexed.
fn is_needed(signals: &[Signal], name: &Name) -> bool
    ensures { result ≡ is_needed signals.now name.now }
{
    is_the_multiplexor(signals, name) && some_multiplexed(signals)
}

/// The decision that removes the signal. The error is out of memory.
fn signal_removed(alloc: Global, path: &SignalPath) -> Result<Decision, AllocError>
    ensures changes { IfOk result (λ d. d.changes ≡ RemoveSignal path.now ∷ []) }
    ensures reply { IfOk result (λ d. d.reply ≡ Done) }
{
    let removed = Change::RemoveSignal(path.duplicate(alloc)?);
    one_change(alloc, removed, Reply::Done)
}

/// Decides the team's `remove_signal` on a network that has these facts for the path's message. The error is out of
/// memory.
pub fn decide_remove_signal(
    alloc: Global,
    team: &Team,
    facts: &MessageFacts<'_>,
    path: &SignalPath,
) -> Result<Decision, AllocError>
    ensures { IfOk result (λ d. (name : List ℕ) (net : Net) (book : SpnBook) →
        message_facts_of facts.now ≡ message_facts net path.now.message →
        Decides name (record { net = Some net; book = book })
        (remove_signal team.now (Some net) path.now) d) }
{
    match own_message(team, facts) {
        Err(refusal) => Ok(refusal_decision(alloc, refusal)),
        Ok(live) => {
            let signals = live.message.signals.as_slice();
            if !has_signal(signals, &path.signal) {
                Ok(refusal_decision(alloc, Refusal::NoSignal))
            } else if is_needed(signals, &path.signal) {
                Ok(refusal_decision(alloc, Refusal::NoMultiplexor))
            } else {
                signal_removed(alloc, path)
            }
        }
    }
}
