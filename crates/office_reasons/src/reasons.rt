//! The sentence of a refusal.
ghost use Rattle.std.specs.Prelude.{IfOk, IsTrue};
ghost use Rattle.office_rules.specs.Commands.{reads_releases};
ghost use Rattle.office_reasons.specs.Pieces.{IsSentence};

use crate::actions::action_reason;
use crate::bundles::bundle_reason;
use crate::case::Told;
use crate::files::import_reason;
use crate::pieces::sentence_of;
use crate::plain::plain_meaning;
use crate::seen::Seen;
use office_types::{Command, Refusal, Task, Team};
use std::alloc::{AllocError, Global};

/// What the state shows of the refusal, if it shows anything.
fn shown_reason(
    alloc: Global,
    team: &Team,
    command: &Command,
    refusal: Refusal,
    seen: &Seen<'_>,
) -> Told {
    let net = &command.net;
    match &command.task {
        Task::Act(action) => action_reason(alloc, team, net, action, refusal, seen),
        Task::Import(file) => import_reason(alloc, team, net, file.as_slice(), refusal, seen),
        Task::Bundle(parts) => bundle_reason(alloc, team, net, parts, refusal, seen),
    }
}

/// Why the office refuses the team's command so, while it is as it is seen: with what the command collides, and what
/// there is instead. It is one sentence of printable ASCII, without a line's end. Nothing depends on it: where what is
/// seen doesn't show the refusal, the sentence is what the refusal means. The error is out of memory.
pub fn reason(
    alloc: Global,
    team: &Team,
    command: &Command,
    refusal: Refusal,
    seen: &Seen<'_>,
) -> Result<Vec<u8>, AllocError>
    ensures { IfOk result (λ sentence. IsSentence sentence.items) }
{
    match shown_reason(alloc, team, command, refusal, seen)? {
        Some(text) => sentence_of(alloc, text.as_str()),
        None => sentence_of(alloc, plain_meaning(refusal)),
    }
}

/// Whether the sentence of the refusal depends on what is in the network's releases.
fn sentence_reads_releases(command: &Command, refusal: Refusal) -> bool {
    match &command.task {
        Task::Act(_) | Task::Import(_) => { matches!(refusal, Refusal::NoMessage | Refusal::Held) }
        Task::Bundle(_) => true,
    }
}

/// Whether [`crate::reason`] or [`crate::answer_reason`] depends on what is in the network's releases. Where it
/// doesn't, a network without its releases is enough to be seen.
pub fn reads_releases(command: &Command, refusal: Refusal) -> bool
    ensures { IsTrue (reads_releases command.now.task) → IsTrue result }
{
    office_facts::reads_releases(&command.task) || sentence_reads_releases(command, refusal)
}
