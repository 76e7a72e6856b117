//! Taking a J1939 parameter group for a new message.
ghost use Rattle.std.specs.Prelude.{◌≡◌, ℕ, List, Some, true, IfOk};
ghost use Rattle.base.specs.Refusing.{first_refusal};
ghost use Rattle.office_types.specs.Command.{group_form};
ghost use Rattle.office_types.specs.Free.{has_form};
ghost use Rattle.office_types.specs.declared.book.SpnBook.{SpnBook};
ghost use Rattle.office_types.specs.declared.state.Net.{Net};
ghost use Rattle.office_rules.specs.Change.{Decides};
ghost use Rattle.office_rules.specs.Numbers.{address_of, group_given, ident_with, take_pgn_tests};
ghost use Rattle.office_facts.specs.By.{take_pgn_by};
ghost use Rattle.office_facts.specs.FactsOf.{number_facts_of};
ghost use Rattle.office_net.specs.FactsOf.{refused_or_full};

use crate::numbers::{message_taken, name_refusal};
use crate::taken::least_of_team;
use can_id::{Ident, J1939};
use office_facts::{NumberFacts, has_block, is_j1939, refusal_decision};
use office_types::{BlockForm, Decision, Pdu, Refusal, TakePgn, Team};
use std::alloc::{AllocError, Global};

/// The address of every node (SAE J1939-21).
const EVERY_NODE: u8 = 255;

/// Why the command is refused, whatever is taken.
fn take_pgn_refusal(team: &Team, facts: &NumberFacts<'_>, command: &TakePgn) -> Option<Refusal>
    ensures { first_refusal (take_pgn_tests team.now (number_facts_of facts.now) command.now)
        ≡ refused_or_full result (group_given team.now (number_facts_of facts.now) command.now) }
{
    if !is_j1939(facts.kind) {
        return Some(Refusal::NotJ1939);
    }
    match name_refusal(facts, &command.message) {
        Some(refusal) => Some(refusal),
        None => {
            if has_block(facts.blocks, team, BlockForm::Pgn) {
                None
            } else {
                Some(Refusal::NoBlock)
            }
        }
    }
}

/// The address that the message goes to.
fn address_of(pdu: Pdu) -> u8
    ensures { result ≡ address_of pdu }
{
    match pdu {
        Pdu::Addressed(destination) => destination.unwrap_or(EVERY_NODE),
        Pdu::Broadcast => EVERY_NODE,
    }
}

/// The identifier of the message, with this parameter group.
fn ident_with(command: &TakePgn, pgn: u32) -> Ident
    requires { has_form (group_form command.now.pdu) pgn ≡ true }
    ensures { result ≡ ident_with command.now pgn }
{
    let priority = command.priority.number();
    let address = address_of(command.pdu);
    let fields = J1939::build(priority, pgn, address, command.source).unwrap();
    fields.ident()
}

/// Decides the team's `take_pgn` on every network of these facts. What is taken is looked at only where no other test
/// refuses. The error is out of memory.
pub fn decide_take_pgn(
    alloc: Global,
    team: &Team,
    facts: &NumberFacts<'_>,
    command: &TakePgn,
) -> Result<Decision, AllocError>
    ensures { IfOk result (λ d. (name : List ℕ) (net : Net) (book : SpnBook)
        → Decides name (record { net = Some net; book = book })
        (take_pgn_by team.now (number_facts_of facts.now) net command.now) d) }
{
    if let Some(refusal) = take_pgn_refusal(team, facts, command) {
        return Ok(refusal_decision(alloc, refusal));
    }
    let form = command.pdu.number_form();
    match least_of_team(alloc, facts, team, BlockForm::Pgn, form)? {
        None => Ok(refusal_decision(alloc, Refusal::BlockFull)),
        Some(pgn) => {
            let ident = ident_with(command, pgn);
            message_taken(alloc, team, &command.message, ident, pgn)
        }
    }
}
