//! What is decided on any command.
ghost use Rattle.std.specs.Prelude.{◌≡◌, ◌&&◌, ◌∷◌, [], true, not, IfOk, None, Some};
ghost use Rattle.std.specs.Option.{option_copied};
ghost use Rattle.base.specs.Refusing.{first_refusal};
ghost use Rattle.office_types.specs.PlainName.{is_office};
ghost use Rattle.office_types.specs.declared.book.SpnBook.{SpnBook as Book};
ghost use Rattle.office_types.specs.declared.refusal.Refusal.TheVariants as no;
ghost use Rattle.office_types.specs.declared.state.Net.{Net as NetModel};
ghost use Rattle.office_rules.specs.Change.{Decides, IsDecision};
ghost use Rattle.office_rules.specs.Commands.{acted};
ghost use Rattle.office_rules.specs.Outcome.{when};
ghost use Rattle.office_facts.specs.Excerpt.{IsExcerptOf, is_for};
ghost use Rattle.office_facts.specs.Scope.{reads_book};
ghost use Rattle.office_decide.specs.Imported.{IsCommandDecision};

use crate::bundling::decide_bundle;
use crate::by_facts::decide_by;
use crate::importing::decide_import_of;
use crate::walking::walk;
use office_facts::{Excerpt, refusal_decision, scope_of};
use office_net::decide_open_net;
use office_types::{
    Action, Command, Decision, Net, NetName, Refusal, SpnBook, Task, Team, is_office,
};
use std::alloc::{AllocError, Global};

/// Why what needs a network is refused where it isn't there; what the office alone may do is refused to another team
/// first.
fn refusal_without_net(team: &Team, is_of_office: bool) -> Refusal
    ensures { Some result ≡ first_refusal
        (when (is_of_office && not (is_office team.now)) no.NotOffice ∷ when true no.NoNet ∷ []) }
{
    if is_of_office && !is_office(team) {
        Refusal::NotOffice
    } else {
        Refusal::NoNet
    }
}

/// Decides an action where the network isn't there.
fn decide_without_net(
    alloc: Global,
    team: &Team,
    name: &NetName,
    action: &Action,
) -> Result<Decision, AllocError>
    ensures { IfOk result (λ d. (book : Book)
        → Decides name.now (record { net = None; book = book })
        (acted team.now name.now None book action.now) d) }
{
    match action {
        Action::OpenNet(open) => decide_open_net(alloc, team, name, open),
        Action::Grant(_) | Action::Release => {
            Ok(refusal_decision(alloc, refusal_without_net(team, true)))
        }
        _ => Ok(refusal_decision(alloc, refusal_without_net(team, false))),
    }
}

/// Decides an action on a network in memory, which may not be there.
pub(crate) fn decide_by_walk(
    alloc: Global,
    team: &Team,
    name: &NetName,
    net: Option<&Net>,
    book: &SpnBook,
    action: &Action,
) -> Result<Decision, AllocError>
    ensures { IfOk result (Decides name.now
        (record { net = option_copied net.entry; book = book.now })
        (acted team.now name.now (option_copied net.entry) book.now action.now)) }
{
    match net {
        None => decide_without_net(alloc, team, name, action),
        Some(net) => {
            let facts = walk(net, &scope_of(action));
            decide_by(alloc, team, name, &facts, book, action)
        }
    }
}

/// Decides the team's command on its network, which may not be there: the reply, and the changes that lead to the
/// network and the book after the command. A refusal has no change. Nothing is changed here, and the file of an import
/// is read only where the network is there and in draft. A file that reads as no sheet is refused with the fault and
/// the offset that [`read`](dbc_read::read) gives. The error is out of memory.
pub fn decide(
    alloc: Global,
    team: &Team,
    net: Option<&Net>,
    book: &SpnBook,
    command: &Command,
) -> Result<Decision, AllocError>
    ensures decision { IfOk result (IsDecision team.now
        (record { net = option_copied net.entry; book = book.now }) command.now) }
    ensures read { IfOk result (IsCommandDecision team.now
        (record { net = option_copied net.entry; book = book.now }) command.now) }
{
    match &command.task {
        Task::Act(action) => decide_by_walk(alloc, team, &command.net, net, book, action),
        Task::Import(file) => match net {
            None => Ok(refusal_decision(alloc, refusal_without_net(team, false))),
            Some(net) => decide_import_of(alloc, team, net, file.as_slice()),
        },
        Task::Bundle(parts) => decide_bundle(alloc, team, &command.net, net, book, parts),
    }
}

/// Decides the team's command by an excerpt of its network, as [`decide`] does by every network that has this excerpt.
/// Only `take_spn`, and `grant` of suspect parameter numbers, read the book. The error is out of memory.
pub fn decide_by_excerpt(
    alloc: Global,
    team: &Team,
    excerpt: &Excerpt,
    book: &SpnBook,
    command: &Command,
) -> Result<Decision, AllocError>
    requires { is_for command.now.task excerpt.now ≡ true }
    ensures { IfOk result (λ d. (net : NetModel) (other : Book)
        → IsExcerptOf team.now net command.now.task excerpt.now
        → (reads_book command.now.task ≡ true → other ≡ book.now)
        → IsDecision team.now (record { net = Some net; book = other }) command.now d) }
{
    match &command.task {
        Task::Act(action) => decide_by(alloc, team, &command.net, &excerpt.facts(), book, action),
        Task::Import(_) | Task::Bundle(_) => unreachable!(),
    }
}
