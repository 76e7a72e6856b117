//! What is reported of an answer that may be an earlier one.
ghost use Rattle.std.specs.Prelude.{◌≡◌, IfOk, string_bytes};
ghost use Rattle.office_reasons.specs.Kept.{key_reused_text, outdated_text};
ghost use Rattle.office_reasons.specs.Pieces.{IsSentence};

use crate::pieces::{sentence_of, shown};
use crate::reasons::reason;
use crate::seen::Seen;
use office_decide::decide;
use office_types::{Command, Refusal, Reply, Team};
use std::alloc::{AllocError, Global};

/// Why a request is answered that its key is used: the same key came with another request of the team.
pub fn key_reused_reason() -> &'static str
    ensures text { result.now ≡ key_reused_text }
    ensures sentence { IsSentence result.now }
{
    "the team has used this key for another request; another key asks anew"
}

/// How the office, as it is seen now, would refuse the command if it came under another key.
fn refusal_now(
    alloc: Global,
    team: &Team,
    command: &Command,
    seen: &Seen<'_>,
) -> Result<Option<Refusal>, AllocError> {
    let decision = decide(alloc, team, seen.net, seen.book, command)?;
    match &decision.reply {
        Reply::Refused(refusal) => Ok(Some(*refusal)),
        _ => Ok(None),
    }
}

/// What is reported of a kept refusal where the command would be refused with this one now, for this reason.
fn outdated_text(alloc: Global, now: Refusal, reason: &str) -> Result<String, AllocError>
    ensures { IfOk result (λ text. string_bytes text ≡ outdated_text now reason.now) }
{
    let code = now.number();
    let name = now.name();
    format!(in alloc;
        "answered so before under this key: another key asks anew, and is refused {code} {name} now: {reason}"
    )
}

/// What is reported of a kept refusal that the office wouldn't give now, but this one or none.
fn outdated_reason(
    alloc: Global,
    team: &Team,
    command: &Command,
    now: Option<Refusal>,
    seen: &Seen<'_>,
) -> Result<Vec<u8>, AllocError>
    ensures { IfOk result (λ sentence. IsSentence sentence.items) }
{
    match now {
        Some(now) => {
            let why = reason(alloc, team, command, now, seen)?;
            let text = outdated_text(alloc, now, shown(&why))?;
            sentence_of(alloc, text.as_str())
        }
        None => sentence_of(
            alloc,
            "answered so before under this key: another key asks anew, and nothing refuses it now",
        ),
    }
}

/// Why the team's command was refused so, by the office as it is seen now, where it isn't known whether that was
/// before. A command that came first is refused as the office decides now, since a refusal changes nothing: then this
/// is [`reason`]. Another refusal was kept under its key: then it is how the command would be answered under another
/// one. It is one sentence of printable ASCII, without a line's end. The error is out of memory.
pub fn answer_reason(
    alloc: Global,
    team: &Team,
    command: &Command,
    refusal: Refusal,
    seen: &Seen<'_>,
) -> Result<Vec<u8>, AllocError>
    ensures { IfOk result (λ sentence. IsSentence sentence.items) }
{
    let now = refusal_now(alloc, team, command, seen)?;
    if now == Some(refusal) {
        reason(alloc, team, command, refusal, seen)
    } else {
        outdated_reason(alloc, team, command, now, seen)
    }
}
