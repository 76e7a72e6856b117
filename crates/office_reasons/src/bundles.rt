//! Why a bundle is refused: its refused command, on what the earlier ones leave.
ghost use Rattle.std.specs.Prelude.{◌≡◌, IfOk, IfSome, None, Some, string_bytes};
ghost use Rattle.office_types.specs.declared.book.SpnBook.{SpnBook as Book};
ghost use Rattle.office_rules.specs.Change.{Decides};
ghost use Rattle.office_rules.specs.Commands.{acted};
ghost use Rattle.office_reasons.specs.Bundles.{refused_text};

use crate::actions::action_reason;
use crate::case::{Told, told};
use crate::plain::plain_meaning;
use crate::seen::Seen;
use office_decide::{Draft, change_all, decide_by, draft_of, walk};
use office_facts::scope_of;
use office_fields::ActionKind;
use office_net::decide_open_net;
use office_types::{Action, Decision, FileFault, Net, NetName, Parts, Refusal, SpnBook, Team};
use std::alloc::{AllocError, Global};

/// What is decided on the command on this network.
fn decided_on(
    alloc: Global,
    team: &Team,
    name: &NetName,
    net: &Net,
    book: &SpnBook,
    part: &Action,
) -> Result<Decision, AllocError>
    ensures { IfOk result (Decides name.now (record { net = Some net.now; book = book.now })
        (acted team.now name.now (Some net.now) book.now part.now)) }
{
    let facts = walk(net, &scope_of(part));
    decide_by(alloc, team, name, &facts, book, part)
}

/// What is decided on the command where its network isn't there; `None` where it doesn't open it, and is refused.
fn opened(
    alloc: Global,
    team: &Team,
    name: &NetName,
    part: &Action,
) -> Result<Option<Decision>, AllocError>
    ensures { IfOk result (λ found. IfSome found (λ d. (book : Book)
        → Decides name.now (record { net = None; book = book })
        (acted team.now name.now None book part.now) d)) }
{
    match part {
        Action::OpenNet(open) => Ok(Some(decide_open_net(alloc, team, name, open)?)),
        _ => Ok(None),
    }
}

/// What is decided on the command on the draft; `None` where its network isn't there, and it is refused.
fn decided(
    alloc: Global,
    team: &Team,
    name: &NetName,
    draft: &Draft,
    part: &Action,
) -> Result<Option<Decision>, AllocError>
    ensures { IfOk result (λ found. IfSome found (Decides name.now draft.now
        (acted team.now name.now draft.now.net draft.now.book part.now))) }
{
    match &draft.net {
        Some(net) => Ok(Some(decided_on(alloc, team, name, net, &draft.book, part)?)),
        None => opened(alloc, team, name, part),
    }
}

/// Carries the command out on the draft; one that is refused changes nothing.
fn carry_out(
    alloc: Global,
    team: &Team,
    name: &NetName,
    draft: &mut Draft,
    part: &Action,
) -> Result<(), AllocError> {
    match decided(alloc, team, name, draft, part)? {
        Some(decision) => {
            let Decision {
                changes,
                reply: _reply,
            } = decision;
            change_all(alloc, name, draft, changes)
        }
        None => Ok(()),
    }
}

/// The network and the book after the first commands.
fn draft_after(
    alloc: Global,
    team: &Team,
    name: &NetName,
    seen: &Seen<'_>,
    parts: &[Action],
) -> Result<Draft, AllocError> {
    let mut draft = draft_of(alloc, seen.net, seen.book)?;
    for part in parts {
        carry_out(alloc, team, name, &mut draft, part)?;
    }
    Ok(draft)
}

/// Which command is refused, with which refusal, and why.
fn refused_text(
    alloc: Global,
    number: u32,
    part: &Action,
    refusal: Refusal,
    reason: &str,
) -> Result<String, AllocError>
    ensures { IfOk result (λ text. string_bytes text
        ≡ refused_text number part.now refusal reason.now) }
{
    let word = ActionKind::of(part).word();
    let code = refusal.number();
    let name = refusal.name();
    format!(in alloc; "command {number}, {word}, is refused {code} {name}: {reason}")
}

/// Why this command is refused after those before it.
fn part_reason(
    alloc: Global,
    team: &Team,
    name: &NetName,
    parts: (&[Action], &Action),
    number: u32,
    refusal: Refusal,
    seen: &Seen<'_>,
) -> Result<String, AllocError> {
    let (earlier, part) = parts;
    let draft = draft_after(alloc, team, name, seen, earlier)?;
    let left = Seen::of(draft.net.as_ref(), seen.names, &draft.book);
    match action_reason(alloc, team, name, part, refusal, &left)? {
        Some(reason) => refused_text(alloc, number, part, refusal, reason.as_str()),
        None => refused_text(alloc, number, part, refusal, plain_meaning(refusal)),
    }
}

/// Why the team's bundle on the network of this name is refused: which of its commands is, and why. `None` where the
/// refusal is that of no command. The error is out of memory.
pub(crate) fn bundle_reason(
    alloc: Global,
    team: &Team,
    name: &NetName,
    parts: &Parts<Action>,
    refusal: Refusal,
    seen: &Seen<'_>,
) -> Told {
    let Refusal::BundleRefused(FileFault { fault, at }) = refusal else {
        return Ok(None);
    };
    let nowhere = FileFault { fault: 0, at: 0 };
    let Some(refusal) = Refusal::of_number(u32::from(fault), nowhere) else {
        return Ok(None);
    };
    let all = parts.as_slice();
    let index = (at as usize).saturating_sub(1);
    let Some(part) = all.get(index) else {
        return Ok(None);
    };
    let earlier = &all[..index];
    told(part_reason(alloc, team, name, (earlier, part), at, refusal, seen))
}
