//! Taking bits for a new signal.
ghost use Rattle.std.specs.Prelude.{◌≡◌, ◌&&◌, ◌∷◌, [], ℕ, List, IfErr, IfOk, None, Some, not};
ghost use Rattle.std.specs.List.{list_all};
ghost use Rattle.base.specs.Refusing.{first_refusal};
ghost use Rattle.bitlayout.specs.Mux.{is_multiplexor, is_under};
ghost use Rattle.dbc_sheet.specs.Signals.{has_multiplexor, places_of, signal_tests};
ghost use Rattle.office_facts.specs.FactsOf.{message_facts_of};
ghost use Rattle.office_types.specs.declared.book.SpnBook.{SpnBook};
ghost use Rattle.office_types.specs.declared.change.Change.TheVariants.{AddSignal};
ghost use Rattle.office_types.specs.declared.reply.Reply.TheVariants.{Start};
ghost use Rattle.office_types.specs.declared.state.Net.{Net};
ghost use Rattle.office_rules.specs.Change.{Decides};
ghost use Rattle.office_rules.specs.Facts.{has_node, message_facts};
ghost use Rattle.office_rules.specs.Signals.{new_signal, start_tests, take_bits, take_bits_tests};
ghost use Rattle.office_signals.specs.Adding.{IsNewSignal};

use crate::own::own_message;
use crate::start::{place_at, start_for};
use base::Copying;
use bitlayout::Mux;
use dbc_sheet::{Node, Receivers, Signal, Signals, ValueTexts};
use dbc_words::{Name, SIGNAL_LIMIT, Spn, Text, ValueType};
use office_facts::{MessageFacts, has_node, has_signal, one_change, refusal_decision};
use office_types::{Change, Decision, LiveMessage, Refusal, Reply, TakeBits, Team};
use std::alloc::{AllocError, Global};

/// Whether the signal would be a second multiplexor.
fn is_second_multiplexor(signals: &Signals, mux: Mux) -> bool
    ensures { result ≡ (is_multiplexor mux && has_multiplexor signals.now) }
{
    mux.is_multiplexor() && signals.are_multiplexed()
}

/// Whether the signal would depend on a multiplexor that isn't there.
fn lacks_multiplexor(signals: &Signals, mux: Mux) -> bool
    ensures { result ≡ (is_under mux && not (has_multiplexor signals.now)) }
{
    mux.is_under() && !signals.are_multiplexed()
}

/// Whether all of them are nodes.
fn has_nodes(nodes: &[Node], names: &[Name]) -> bool
    ensures { result ≡ list_all (has_node nodes.now) names.now }
{
    names.iter().all(|name| has_node(nodes, name))
}

/// The message that the signal may be added to wherever it starts, or the first refusal that doesn't depend on the
/// start.
fn message_for<'a>(
    team: &Team,
    facts: &MessageFacts<'a>,
    command: &TakeBits,
) -> Result<&'a LiveMessage, Refusal>
    ensures there { IfOk result (λ live. (message_facts_of facts.now).found ≡ Some live.now) }
    ensures passed { IfOk result (λ live.
        first_refusal (take_bits_tests team.now (message_facts_of facts.now) command.now)
        ≡ first_refusal (start_tests (places_of live.now.message.signals) live.now.message.length
        command.now)) }
    ensures room { IfOk result (λ live. (start : ℕ)
        → first_refusal (signal_tests live.now.message.signals (new_signal command.now start))
        ≡ None) }
    ensures refused { IfErr result (λ refusal.
        first_refusal (take_bits_tests team.now (message_facts_of facts.now) command.now)
        ≡ Some refusal) }
{
    let live = own_message(team, facts)?;
    let signals = &live.message.signals;
    if has_signal(signals.as_slice(), &command.path.signal) {
        Err(Refusal::NameTaken)
    } else if !has_nodes(facts.nodes, command.receivers.as_slice()) {
        Err(Refusal::NoNode)
    } else if signals.as_slice().len() >= SIGNAL_LIMIT {
        Err(Refusal::TooMany)
    } else if is_second_multiplexor(signals, command.mux) {
        Err(Refusal::TwoMultiplexors)
    } else if lacks_multiplexor(signals, command.mux) {
        Err(Refusal::NoMultiplexor)
    } else {
        Ok(live)
    }
}

/// The signal from a start. The error is out of memory.
fn new_signal(alloc: Global, command: &TakeBits, start: u16) -> Result<Signal, AllocError>
    ensures { IfOk result (λ s. s ≡ new_signal command.now start) }
{
    let place = place_at(command, start);
    Ok(Signal {
        name: command.path.signal.duplicate(alloc)?,
        layout: place.layout,
        signed: command.signed,
        mux: command.mux,
        factor: command.factor,
        offset: command.offset,
        minimum: command.minimum,
        maximum: command.maximum,
        unit: command.unit.duplicate(alloc)?,
        receivers: Receivers::from_vec(command.receivers.duplicate(alloc)?.into_vec()),
        comment: Text::empty(alloc),
        spn: Spn::NONE,
        values: ValueTexts::empty(alloc),
        value_type: ValueType::Integer,
    })
}

/// The decision that adds the signal to the message of the name. The error is out of memory.
fn bits_taken(alloc: Global, message: &Name, signal: Signal) -> Result<Decision, AllocError>
    ensures changes { IfOk result (λ d. d.changes ≡ AddSignal message.now signal ∷ []) }
    ensures reply { IfOk result (λ d. d.reply ≡ Start signal.layout.start) }
{
    let start = signal.layout.start;
    let message = message.duplicate(alloc)?;
    one_change(
        alloc,
        Change::AddSignal(message, signal),
        Reply::Start(start),
    )
}

/// The signal that the team's `take_bits` adds to its message, as the last one, on a network that has these facts for
/// it, or the first refusal. Nothing is changed here. The error is out of memory.
fn new_signal_for(
    alloc: Global,
    team: &Team,
    facts: &MessageFacts<'_>,
    command: &TakeBits,
) -> Result<Result<Signal, Refusal>, AllocError>
    ensures { IfOk result (IsNewSignal team.now (message_facts_of facts.now) command.now) }
{
    match message_for(team, facts, command) {
        Err(refusal) => Ok(Err(refusal)),
        Ok(live) => match start_for(alloc, &live.message, command)? {
            Err(refusal) => Ok(Err(refusal)),
            Ok(start) => Ok(Ok(new_signal(alloc, command, start)?)),
        },
    }
}

/// Decides the team's `take_bits` on a network that has these facts for the command's message. The error is out of
/// memory.
pub fn decide_take_bits(
    alloc: Global,
    team: &Team,
    facts: &MessageFacts<'_>,
    command: &TakeBits,
) -> Result<Decision, AllocError>
    ensures { IfOk result (λ d. (name : List ℕ) (net : Net) (book : SpnBook) →
        message_facts_of facts.now ≡ message_facts net command.now.path.message →
        Decides name (record { net = Some net; book = book })
        (take_bits team.now (Some net) command.now) d) }
{
    match new_signal_for(alloc, team, facts, command)? {
        Err(refusal) => Ok(refusal_decision(alloc, refusal)),
        Ok(signal) => bits_taken(alloc, &command.path.message, signal),
    }
}
