//! What is decided on an action by what it reads of its network, whatever keeps that.
ghost use Rattle.std.specs.Prelude.{◌≡◌, true, IfOk, Some};
ghost use Rattle.office_types.specs.declared.book.SpnBook.{SpnBook as Book};
ghost use Rattle.office_types.specs.declared.command.Task.TheVariants.{Act};
ghost use Rattle.office_types.specs.declared.state.Net.{Net as NetModel};
ghost use Rattle.office_rules.specs.Change.{Decides};
ghost use Rattle.office_rules.specs.Commands.{acted};
ghost use Rattle.office_facts.specs.Excerpt.{AreFacts, fits};
ghost use Rattle.office_facts.specs.FactsOf.{facts_of};
ghost use Rattle.office_facts.specs.Scope.{reads_book, scope_of};

use office_facts::Facts;
use office_law::numbers_elsewhere_do_not_count;
use office_net::{
    decide_add_node, decide_approve, decide_grant, decide_open_again, decide_reject,
    decide_release, decide_submit, decide_take_ident, decide_take_pgn,
};
use office_signals::{
    decide_remove_signal, decide_retire, decide_set_values, decide_take_bits, decide_take_spn,
};
use office_types::{Action, Decision, NetName, SpnBook, Team};
use std::alloc::{AllocError, Global};

/// Decides the team's action by the facts of its scope, as for every network that has them, and with every book, where
/// the action doesn't read it. Where the scope is the whole network, it is this one.
pub fn decide_by(
    alloc: Global,
    team: &Team,
    name: &NetName,
    facts: &Facts<'_>,
    book: &SpnBook,
    action: &Action,
) -> Result<Decision, AllocError>
    requires { fits (scope_of action.now) (facts_of facts.now) ≡ true }
    ensures { IfOk result (λ d. (net : NetModel) (other : Book)
        → AreFacts team.now net (scope_of action.now) (facts_of facts.now)
        → (reads_book (Act action.now) ≡ true → other ≡ book.now)
        → Decides name.now (record { net = Some net; book = other })
        (acted team.now name.now (Some net) other action.now) d) }
{
    numbers_elsewhere_do_not_count();
    match facts {
        Facts::Head(head) => match action {
            Action::AddNode(node) => decide_add_node(alloc, head, node),
            Action::Submit => decide_submit(alloc, team, head),
            Action::Approve => decide_approve(alloc, team, head),
            Action::Reject => decide_reject(alloc, team, head),
            _ => unreachable!(),
        },
        Facts::Parts(head, blocks) => match action {
            Action::Grant(grant) => decide_grant(alloc, team, name, head, blocks, book, grant),
            _ => unreachable!(),
        },
        Facts::Message(facts) => match action {
            Action::TakeSpn(take) => decide_take_spn(alloc, team, name, facts, book, take),
            Action::TakeBits(take) => decide_take_bits(alloc, team, facts, take),
            Action::SetValues(set) => decide_set_values(alloc, team, facts, set),
            Action::RemoveSignal(path) => decide_remove_signal(alloc, team, facts, path),
            _ => unreachable!(),
        },
        Facts::Retiring(facts, released) => match action {
            Action::Retire(_) => decide_retire(alloc, team, facts, *released),
            _ => unreachable!(),
        },
        Facts::Numbers(facts) => match action {
            Action::TakeIdent(take) => decide_take_ident(alloc, team, facts, take),
            Action::TakePgn(take) => decide_take_pgn(alloc, team, facts, take),
            _ => unreachable!(),
        },
        Facts::Whole(net) => match action {
            Action::OpenNet(_) => Ok(decide_open_again(alloc, team)),
            Action::Release => decide_release(alloc, team, net),
            _ => unreachable!(),
        },
    }
}
