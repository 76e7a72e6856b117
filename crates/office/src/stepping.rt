//! One step of an office on its networks and its book.
ghost use Rattle.std.specs.Prelude.{◌≡◌, ◌<◌, ◌≤◌, IfOk, None, OnErr, Some, false, length, true, vec_len};
ghost use Rattle.office_rules.specs.Change.{IsDecision};
ghost use Rattle.office_rules.specs.Kept.{IsNet, IsOffice};
ghost use Rattle.office_rules.specs.Profile.{Two};
ghost use Rattle.office_rules.specs.Step.{Step};
ghost use Rattle.office.specs.OfficeApplied.{IsNetFound};
ghost use Rattle.office.specs.Indexed.{AreIndexes, IsDoneOn, IsIndexIfThere};

use crate::applying::{apply_without_net, find_net};
use crate::applying_in_place::apply_in_place;
use crate::indexed::facts_for;
use crate::net_index::NetIndex;
use base::Copying;
use office_decide::{decide, decide_by};
use office_facts::{Scope, scope_of};
use office_types::{Command, Decision, Net, Reply, SpnBook, Task, Team};
use std::alloc::{AllocError, Global};

/// A network of at most so many live messages gets no index: it is walked over.
const WALKED_OVER: usize = 16;

/// Makes the index of a network that has none, where the task would use it and the network isn't small. It stays
/// without one where memory runs out.
fn make_index(alloc: Global, net: &Net, index: &mut Option<NetIndex>, task: &Task)
    requires { IsIndexIfThere index.old net.now }
    ensures { IsIndexIfThere index.new net.now }
{
    if index.is_none() && net.live.as_slice().len() > WALKED_OVER && looks_up(task) {
        *index = NetIndex::of(alloc, net).ok();
    }
}

/// Whether the task looks names or numbers up.
fn looks_up(task: &Task) -> bool {
    match task {
        Task::Import(_) | Task::Bundle(_) => false,
        Task::Act(action) => matches!(
            scope_of(action),
            Scope::Message(_) | Scope::Retiring(_) | Scope::Idents(_)
        ),
    }
}

/// Decides the team's command on a network that is there, by its index where it has one.
fn decide_by_index(
    alloc: Global,
    team: &Team,
    net: &Net,
    index: &Option<NetIndex>,
    book: &SpnBook,
    command: &Command,
) -> Result<Decision, AllocError>
    requires net { IsNet net.now }
    requires index { IsIndexIfThere index.now net.now }
    ensures { IfOk result (IsDecision team.now (record { net = Some net.now; book = book.now })
        command.now) }
{
    match &command.task {
        Task::Act(action) => {
            let facts = facts_for(net, index, &scope_of(action));
            decide_by(alloc, team, &command.net, &facts, book, action)
        }
        Task::Import(_) | Task::Bundle(_) => decide(alloc, team, Some(net), book, command),
    }
}

/// One step on a network that is there and the book: the team's command is carried out, or it is refused and nothing
/// changes. The reply is given twice. If memory runs out, nothing changes. The index follows.
fn step_on_net(
    alloc: Global,
    team: &Team,
    net: &mut Net,
    book: &mut SpnBook,
    index: &mut Option<NetIndex>,
    command: &Command,
) -> Result<(Reply, Reply), AllocError>
    requires net { IsNet net.old }
    requires index { IsIndexIfThere index.old net.old }
    ensures done { IfOk result
        (λ both. IsDoneOn team.now command.now (record { net = Some net.old; book = book.old })
        both.0 (record { net = Some net.new; book = book.new })) }
    ensures copy { IfOk result (λ both. both.1 ≡ both.0) }
    ensures err { OnErr result ((net.new ≡ net.old) × (book.new ≡ book.old)) }
    ensures name { net.new.name ≡ net.old.name }
    ensures index { IsIndexIfThere index.new net.new }
{
    make_index(alloc, net, index, &command.task);
    let decision = decide_by_index(alloc, team, net, index, book, command)?;
    let Decision { changes, reply } = decision;
    let copy = reply.duplicate(alloc)?;
    apply_in_place(alloc, &command.net, net, book, index, changes)?;
    Ok((reply, copy))
}

/// One step where the network isn't there. Where the command changes anything, so that it opens the network, all
/// indexes are dropped, since the network comes among the others.
fn step_without_net(
    alloc: Global,
    team: &Team,
    nets: &mut Vec<Net>,
    indexes: &mut Vec<Option<NetIndex>>,
    book: &mut SpnBook,
    command: &Command,
) -> Result<(Reply, Reply), AllocError>
    requires office { IsOffice (record { nets = nets.old.items; book = book.old }) }
    requires absent { IsNetFound (record { nets = nets.old.items; book = book.old }) command.now.net
        None }
    requires indexes { AreIndexes indexes.old.items nets.old.items }
    ensures step { IfOk result
        (λ both. Step Two (record { nets = nets.old.items; book = book.old }) team.now command.now
        both.0
        (record { nets = nets.new.items; book = book.new })) }
    ensures copy { IfOk result (λ both. both.1 ≡ both.0) }
    ensures err { OnErr result ((nets.new.items ≡ nets.old.items) × (book.new ≡ book.old)) }
    ensures indexes { AreIndexes indexes.new.items nets.new.items }
{
    let decision = decide(alloc, team, None, book, command)?;
    let Decision { changes, reply } = decision;
    let copy = reply.duplicate(alloc)?;
    if changes.as_slice().is_empty() {
        return Ok((reply, copy));
    }
    indexes.clear();
    apply_without_net(alloc, &command.net, nets, book, changes)?;
    Ok((reply, copy))
}

/// Makes room for the index of the network at an index of the list; answers whether memory was enough.
fn make_room(indexes: &mut Vec<Option<NetIndex>>, nets: &[Net], at: usize) -> bool
    requires are { AreIndexes indexes.old.items nets.now }
    requires within { at < length nets.now }
    ensures are { AreIndexes indexes.new.items nets.now }
    ensures room { result ≡ true → at < vec_len indexes.new }
    ensures full { result ≡ false → vec_len indexes.new ≤ at }
{
    while indexes.len() <= at {
        match indexes.push(None) {
            Ok(()) => {}
            Err(_) => return false,
        }
    }
    true
}

/// One step on these networks, which have these indexes, and this book: the team's command is carried out, or it is
/// refused and nothing changes. The reply is given twice. If memory runs out, nothing changes.
pub(crate) fn step(
    alloc: Global,
    team: &Team,
    nets: &mut Vec<Net>,
    indexes: &mut Vec<Option<NetIndex>>,
    book: &mut SpnBook,
    command: &Command,
) -> Result<(Reply, Reply), AllocError>
    requires office { IsOffice (record { nets = nets.old.items; book = book.old }) }
    requires indexes { AreIndexes indexes.old.items nets.old.items }
    ensures step { IfOk result
        (λ both. Step Two (record { nets = nets.old.items; book = book.old }) team.now command.now
        both.0
        (record { nets = nets.new.items; book = book.new })) }
    ensures copy { IfOk result (λ both. both.1 ≡ both.0) }
    ensures err { OnErr result ((nets.new.items ≡ nets.old.items) × (book.new ≡ book.old)) }
    ensures indexes { AreIndexes indexes.new.items nets.new.items }
{
    match find_net(nets.as_slice(), book, &command.net) {
        None => step_without_net(alloc, team, nets, indexes, book, command),
        Some(at) => {
            if make_room(indexes, nets.as_slice(), at) {
                step_on_net(alloc, team, &mut nets[at], book, &mut indexes[at], command)
            } else {
                let mut none = None;
                step_on_net(alloc, team, &mut nets[at], book, &mut none, command)
            }
        }
    }
}
