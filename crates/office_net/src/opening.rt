//! Opening a network.
ghost use Rattle.std.specs.Prelude.{ℕ, List, IfOk, None, Some};
ghost use Rattle.office_types.specs.declared.book.SpnBook.{SpnBook};
ghost use Rattle.office_types.specs.declared.command.OpenNet.{OpenNet as OpenNetModel};
ghost use Rattle.office_types.specs.declared.state.Net.{Net};
ghost use Rattle.office_rules.specs.Change.{Decides};
ghost use Rattle.office_rules.specs.Opening.{open_net};

use dbc_sheet::Sheet;
use office_facts::{one_change, refusal_decision};
use office_types::{
    Change, Decision, Head, NetName, OpenNet, Phase, Refusal, Reply, Team, is_office,
};
use std::alloc::{AllocError, Global};

/// Decides the team's `open_net` of the network of this name, which isn't there. It reads no book. The error is out of
/// memory.
pub fn decide_open_net(
    alloc: Global,
    team: &Team,
    name: &NetName,
    command: &OpenNet,
) -> Result<Decision, AllocError>
    ensures { IfOk result (λ d. (book : SpnBook)
        → Decides name.now (record { net = None; book = book })
        (open_net team.now name.now None command.now) d) }
{
    if !is_office(team) {
        return Ok(refusal_decision(alloc, Refusal::NotOffice));
    }
    let head = Head {
        kind: command.kind,
        reviews: command.reviews,
        phase: Phase::Draft,
        frame: Sheet::new(alloc),
    };
    one_change(alloc, Change::SetHead(head), Reply::Done)
}

/// Decides the team's `open_net` of a network that is there, which is refused. Takes no memory.
pub fn decide_open_again(alloc: Global, team: &Team) -> Decision
    ensures { (name : List ℕ) (net : Net) (book : SpnBook) (command : OpenNetModel)
        → Decides name (record { net = Some net; book = book })
        (open_net team.now name (Some net) command) result }
{
    if is_office(team) {
        refusal_decision(alloc, Refusal::NetThere)
    } else {
        refusal_decision(alloc, Refusal::NotOffice)
    }
}
