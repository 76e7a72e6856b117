//! Deciding a bundle: its parts one after the other, each on what the earlier ones left.
ghost use Rattle.std.specs.Prelude.{◌≡◌, ◌++◌, ◌+◌, IfOk, OnOk};
ghost use Rattle.std.specs.Option.{option_copied};
ghost use Rattle.office_rules.specs.Bundling.{bundle_outcome};
ghost use Rattle.office_rules.specs.Change.{Decides};
ghost use Rattle.office_rules.specs.Commands.{parts_done};
ghost use Rattle.office_decide.specs.Bundled.{IsPartDecided, refusal_in};

use crate::applying::{Draft, change_all, draft_of};
use crate::deciding::decide_by_walk;
use base::{Copying, Items};
use office_facts::refusal_decision;
use office_types::{
    Action, Change, Decision, FileFault, Net, NetName, PartReply, Parts, Refusal, Reply, SpnBook,
    Team,
};
use std::alloc::{AllocError, Global};

/// The outcome of the parts so far.
pub(crate) struct Progress {
    /// The network and the book after them.
    pub(crate) draft: Draft,
    /// Their changes, in order.
    pub(crate) changes: Items<Change>,
    /// Their answers, in order.
    pub(crate) replies: Items<PartReply>,
}

impl Progress {
    /// The changes and the answers.
    fn into_parts(self) -> (Items<Change>, Items<PartReply>)
        ensures { (result.0 ≡ self.changes) × (result.1 ≡ self.replies) }
    {
        let Progress {
            draft: _draft,
            changes,
            replies,
        } = self;
        (changes, replies)
    }
}

/// Adds copies of the changes at the end.
fn add_copies(alloc: Global, changes: &mut Items<Change>, more: &[Change]) -> Result<(), AllocError>
    ensures { OnOk result (changes.new ≡ changes.old ++ more.now) }
{
    for change in more {
        changes.push(change.duplicate(alloc)?)?;
    }
    Ok(())
}

fn refusal_in(reply: &Reply) -> Option<Refusal>
    ensures { result ≡ refusal_in reply.now }
{
    match reply {
        Reply::Refused(refusal) => Some(*refusal),
        _ => None,
    }
}

/// Decides the part and applies its changes. If it is refused, its refusal is the answer, and nothing changes.
fn add_part(
    alloc: Global,
    team: &Team,
    name: &NetName,
    progress: &mut Progress,
    part: &Action,
) -> Result<Option<Refusal>, AllocError>
    ensures { IfOk result (λ refused. IsPartDecided team.now name.now part.now progress.old
        progress.new refused) }
{
    let draft = &progress.draft;
    let decision = decide_by_walk(alloc, team, name, draft.net.as_ref(), &draft.book, part)?;
    let Decision { changes, reply } = decision;
    if let Some(refusal) = refusal_in(&reply) {
        return Ok(Some(refusal));
    }
    progress.replies.push(PartReply::of(&reply))?;
    add_copies(alloc, &mut progress.changes, changes.as_slice())?;
    change_all(alloc, name, &mut progress.draft, changes)?;
    Ok(None)
}

/// Decides the team's bundle on its network, which may not be there. The error is out of memory.
pub(crate) fn decide_bundle(
    alloc: Global,
    team: &Team,
    name: &NetName,
    net: Option<&Net>,
    book: &SpnBook,
    parts: &Parts<Action>,
) -> Result<Decision, AllocError>
    ensures { IfOk result (Decides name.now
        (record { net = option_copied net.entry; book = book.now })
        (bundle_outcome (parts_done team.now name.now 1 (option_copied net.entry) book.now
        parts.now))) }
{
    let mut progress = Progress {
        draft: draft_of(alloc, net, book)?,
        changes: Items::new(alloc),
        replies: Items::new(alloc),
    };
    let mut part_number = 0u32;
    for part in parts.as_slice() {
        part_number += 1;
        if let Some(refusal) = add_part(alloc, team, name, &mut progress, part)? {
            let refused = FileFault {
                fault: refusal.number(),
                at: part_number,
            };
            let decision = refusal_decision(alloc, Refusal::BundleRefused(refused));
            return Ok(decision);
        }
    }
    let (changes, replies) = progress.into_parts();
    Ok(Decision {
        changes,
        reply: Reply::Bundle(Parts::from_items(replies)),
    })
}

impl Drop for Progress {
    fn drop(self) {
        let Progress {
            draft: _draft,
            changes: _changes,
            replies: _replies,
        } = self;
    }
}
