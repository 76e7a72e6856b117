//! Taking an identifier for a new message.
ghost use Rattle.std.specs.Prelude.{◌≡◌, ℕ, List, Some, true, IfNone, IfOk, IfSome};
ghost use Rattle.base.specs.Refusing.{first_refusal};
ghost use Rattle.can_id.specs.Ident.{ident_of};
ghost use Rattle.office_types.specs.Free.{has_form, number_form};
ghost use Rattle.office_types.specs.declared.book.SpnBook.{SpnBook};
ghost use Rattle.office_types.specs.declared.state.Net.{Net};
ghost use Rattle.office_rules.specs.Change.{Decides};
ghost use Rattle.office_rules.specs.Numbers.{number_given, take_ident_tests, want_tests};
ghost use Rattle.office_facts.specs.By.{take_ident_by};
ghost use Rattle.office_facts.specs.FactsOf.{number_facts_of};
ghost use Rattle.office_net.specs.FactsOf.{refused_or_full};

use crate::numbers::{message_taken, name_refusal};
use crate::taken::least_of_team;
use can_id::{Ident, IdentForm};
use office_facts::{NumberFacts, has_block, has_number, refusal_decision};
use office_types::{BlockForm, Decision, NumberForm, Refusal, TakeIdent, Team};
use std::alloc::{AllocError, Global};

/// Why the number that the command gives out is refused, but for that there is none.
fn want_refusal(team: &Team, facts: &NumberFacts<'_>, command: &TakeIdent) -> Option<Refusal>
    ensures first { first_refusal (want_tests team.now (number_facts_of facts.now) command.now)
        ≡ refused_or_full result (number_given team.now (number_facts_of facts.now) command.now) }
    ensures formed { IfNone result
        (IfSome command.now.want (λ n. has_form (number_form command.now.form) n ≡ true)) }
{
    match command.want {
        None => None,
        Some(number) => {
            let form = BlockForm::of_identifiers(command.form);
            let formed = NumberForm::of_identifiers(command.form).has(number);
            if !(formed && has_number(facts.blocks, team, form, number)) {
                Some(Refusal::OutsideBlock)
            } else if facts.want_live {
                Some(Refusal::IdentTaken)
            } else if facts.want_held {
                Some(Refusal::Held)
            } else {
                None
            }
        }
    }
}

/// Why the command is refused, whatever is taken.
fn take_ident_refusal(team: &Team, facts: &NumberFacts<'_>, command: &TakeIdent) -> Option<Refusal>
    ensures first { first_refusal
        (take_ident_tests team.now (number_facts_of facts.now) command.now)
        ≡ refused_or_full result (number_given team.now (number_facts_of facts.now) command.now) }
    ensures formed { IfNone result
        (IfSome command.now.want (λ n. has_form (number_form command.now.form) n ≡ true)) }
{
    match name_refusal(facts, &command.message) {
        Some(refusal) => Some(refusal),
        None => {
            if has_block(facts.blocks, team, BlockForm::of_identifiers(command.form)) {
                want_refusal(team, facts, command)
            } else {
                Some(Refusal::NoBlock)
            }
        }
    }
}

/// The number that the command gives out, if there is one: the wanted one, or else the least of the team's blocks that
/// isn't taken.
fn number_given(
    alloc: Global,
    team: &Team,
    facts: &NumberFacts<'_>,
    command: &TakeIdent,
) -> Result<Option<u32>, AllocError>
    requires { IfSome command.now.want (λ n. has_form (number_form command.now.form) n ≡ true) }
    ensures given { IfOk result
        (λ given. given ≡ number_given team.now (number_facts_of facts.now) command.now) }
    ensures formed { IfOk result
        (λ given. IfSome given (λ n. has_form (number_form command.now.form) n ≡ true)) }
{
    match command.want {
        Some(number) => Ok(Some(number)),
        None => {
            let block_form = BlockForm::of_identifiers(command.form);
            let form = NumberForm::of_identifiers(command.form);
            least_of_team(alloc, facts, team, block_form, form)
        }
    }
}

/// The identifier of a number of the form.
fn ident_of(form: IdentForm, number: u32) -> Ident
    requires { has_form (number_form form) number ≡ true }
    ensures { result ≡ ident_of form number }
{
    Ident::new(form, number).unwrap()
}

/// Decides the team's `take_ident` on every network of these facts. What is taken is looked at only where no other test
/// refuses and no number is wanted. The error is out of memory.
pub fn decide_take_ident(
    alloc: Global,
    team: &Team,
    facts: &NumberFacts<'_>,
    command: &TakeIdent,
) -> Result<Decision, AllocError>
    ensures { IfOk result (λ d. (name : List ℕ) (net : Net) (book : SpnBook)
        → Decides name (record { net = Some net; book = book })
        (take_ident_by team.now (number_facts_of facts.now) net command.now) d) }
{
    if let Some(refusal) = take_ident_refusal(team, facts, command) {
        return Ok(refusal_decision(alloc, refusal));
    }
    match number_given(alloc, team, facts, command)? {
        None => Ok(refusal_decision(alloc, Refusal::BlockFull)),
        Some(number) => {
            let ident = ident_of(command.form, number);
            message_taken(alloc, team, &command.message, ident, number)
        }
    }
}
