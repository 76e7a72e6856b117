//! Taking a suspect parameter number for a signal.
ghost use Rattle.std.specs.Prelude.{◌≡◌, ◌∷◌, [], IfOk, IsTrue, None, Some};
ghost use Rattle.office_facts.specs.FactsOf.{message_facts_of};
ghost use Rattle.office_types.specs.Book.{is_spn_number};
ghost use Rattle.office_types.specs.Free.{is_taken};
ghost use Rattle.office_types.specs.declared.change.Change.TheVariants.{EnterSpn, SetSpn};
ghost use Rattle.office_types.specs.declared.reply.Reply.TheVariants.{Number};
ghost use Rattle.office_types.specs.declared.state.Net.{Net};
ghost use Rattle.office_rules.specs.Change.{Decides};
ghost use Rattle.office_rules.specs.Facts.{message_facts, spn_blocks_of};
ghost use Rattle.office_rules.specs.Signals.{spn_given, spn_tests, take_spn};
ghost use Rattle.office_signals.specs.Given.{IsGiven};

use crate::own::own_message;
use base::Copying;
use office_facts::{MessageFacts, has_signal, refusal_decision, spn_blocks_of, two_changes};
use office_types::{
    Block, Change, Decision, NetName, NumberForm, Refusal, Reply, SignalPath, SpnBook, TakeSpn,
    Team, UsableSpn, least_gap,
};
use std::alloc::{AllocError, Global};

/// The number as one that a signal may be given.
fn usable_spn(number: u32) -> UsableSpn
    requires { IsTrue (is_spn_number number) }
    ensures { result ≡ number }
{
    match UsableSpn::of(number) {
        Some(spn) => spn,
        None => unreachable!(),
    }
}

/// Whether the number is one of these.
fn is_used(used: &[u32], number: u32) -> bool
    ensures { result ≡ is_taken number used.now }
{
    used.iter().any(|other| *other == number)
}

/// The number that was given out before, or that it never was.
fn same_spn(
    team: &Team,
    name: &NetName,
    book: &SpnBook,
    command: &TakeSpn,
    number: u32,
) -> Result<UsableSpn, Refusal>
    requires { command.now.same ≡ Some number }
    ensures { IsGiven (spn_tests team.now name.now book.now command.now)
        (spn_given team.now name.now book.now command.now) result }
{
    let used = book.used.as_slice();
    if is_used(used, number) {
        Ok(usable_spn(number))
    } else {
        Err(Refusal::NoSpn)
    }
}

/// The least number of the blocks that was never used, or that there is no block or none is left.
fn least_spn(
    team: &Team,
    name: &NetName,
    book: &SpnBook,
    command: &TakeSpn,
    blocks: &[Block],
) -> Result<UsableSpn, Refusal>
    requires wanted { command.now.same ≡ None }
    requires blocks { blocks.now ≡ spn_blocks_of book.now name.now team.now }
    ensures { IsGiven (spn_tests team.now name.now book.now command.now)
        (spn_given team.now name.now book.now command.now) result }
{
    if blocks.is_empty() {
        return Err(Refusal::NoBlock);
    }
    match least_gap(book.used.as_slice(), blocks, NumberForm::Spn) {
        Some(number) => Ok(usable_spn(number)),
        None => Err(Refusal::BlockFull),
    }
}

/// The number that the signal gets, or why it gets none. The error is out of memory.
fn spn_for(
    alloc: Global,
    team: &Team,
    name: &NetName,
    book: &SpnBook,
    command: &TakeSpn,
) -> Result<Result<UsableSpn, Refusal>, AllocError>
    ensures { IfOk result (IsGiven (spn_tests team.now name.now book.now command.now)
        (spn_given team.now name.now book.now command.now)) }
{
    match command.same {
        Some(number) => Ok(same_spn(team, name, book, command, number)),
        None => {
            let blocks = spn_blocks_of(alloc, book, name, team)?;
            Ok(least_spn(team, name, book, command, &blocks))
        }
    }
}

/// The decision that gives the signal the number. The error is out of memory.
fn spn_taken(alloc: Global, path: &SignalPath, spn: UsableSpn) -> Result<Decision, AllocError>
    ensures changes { IfOk result (λ d. d.changes ≡ SetSpn path.now spn ∷ EnterSpn spn ∷ []) }
    ensures reply { IfOk result (λ d. d.reply ≡ Number spn) }
{
    let number = spn.number();
    two_changes(
        alloc,
        Change::SetSpn(path.duplicate(alloc)?, spn),
        Change::EnterSpn(spn),
        Reply::Number(number),
    )
}

/// Decides the team's `take_spn` on the network of this name, which has these facts for the command's message. The
/// error is out of memory.
pub fn decide_take_spn(
    alloc: Global,
    team: &Team,
    name: &NetName,
    facts: &MessageFacts<'_>,
    book: &SpnBook,
    command: &TakeSpn,
) -> Result<Decision, AllocError>
    ensures { IfOk result (λ d. (net : Net) →
        message_facts_of facts.now ≡ message_facts net command.now.path.message →
        Decides name.now (record { net = Some net; book = book.now })
        (take_spn team.now name.now (Some net) book.now command.now) d) }
{
    match own_message(team, facts) {
        Err(refusal) => Ok(refusal_decision(alloc, refusal)),
        Ok(live) => {
            if !has_signal(live.message.signals.as_slice(), &command.path.signal) {
                return Ok(refusal_decision(alloc, Refusal::NoSignal));
            }
            match spn_for(alloc, team, name, book, command)? {
                Err(refusal) => Ok(refusal_decision(alloc, refusal)),
                Ok(spn) => spn_taken(alloc, &command.path, spn),
            }
        }
    }
}
