//! Refusals about the live message that a command names.
ghost use Rattle.std.specs.Prelude.{◌≡◌, IfOk, string_bytes};
ghost use Rattle.office_reasons.specs.Messages.{not_owner_text, released_hint};

use crate::case::{Case, Told, told};
use crate::few::few_text;
use crate::pieces::{ident_text, shown};
use crate::releases::{Released, last_named};
use dbc_words::Name;
use office_facts::live_named;
use office_types::{Action, LiveMessage, Refusal, Team};
use std::alloc::{AllocError, Global};

/// The live message that the action is to change, if it is to change one.
fn named_message(action: &Action) -> Option<&Name> {
    match action {
        Action::TakeSpn(take) => Some(&take.path.message),
        Action::TakeBits(take) => Some(&take.path.message),
        Action::SetValues(set) => Some(&set.path.message),
        Action::RemoveSignal(path) => Some(&path.message),
        Action::Retire(name) => Some(name),
        _ => None,
    }
}

/// Which release has the message, and as which identifier. It is held, or it would be live under this name.
fn released_hint(alloc: Global, released: &Released<'_>) -> Result<String, AllocError>
    ensures { IfOk result (λ text. string_bytes text
        ≡ released_hint released.now.release released.now.message.now) }
{
    let release = released.release;
    let ident = ident_text(alloc, &released.message.ident)?;
    let ident = ident.as_str();
    format!(in alloc; "in release {release} it is {ident}, which is held for good")
}

/// The names of the team's live messages.
fn owned_names(
    alloc: Global,
    team: &Team,
    live: &[LiveMessage],
) -> Result<Vec<String>, AllocError> {
    let mut names = Vec::new(alloc);
    for live in live {
        if live.owner == *team {
            let name = String::from_str(alloc, shown(live.message.name.as_bytes()))?;
            names.push(name)?;
        }
    }
    Ok(names)
}

/// Which live messages of the network belong to the team.
fn owned_hint(case: &Case<'_>) -> Result<String, AllocError> {
    let alloc = case.alloc;
    let owned = owned_names(alloc, case.team, case.net.live.as_slice())?;
    let team = shown(case.team.as_bytes());
    if owned.is_empty() {
        return format!(in alloc; "no live message is team {team}'s");
    }
    let owned = few_text(alloc, &owned)?;
    let owned = owned.as_str();
    format!(in alloc; "those of team {team}: {owned}")
}

/// That no live message has the name, and which release has it, or which messages are the team's.
fn no_message(case: &Case<'_>, name: &Name) -> Result<String, AllocError> {
    let hint = match last_named(case.net.releases.as_slice(), name) {
        Some(released) => released_hint(case.alloc, &released)?,
        None => owned_hint(case)?,
    };
    let hint = hint.as_str();
    let message = shown(name.as_bytes());
    let net = shown(case.net.name.as_bytes());
    format!(in case.alloc; "{net} has no live message {message}; {hint}")
}

/// Whose the live message is.
fn not_owner(alloc: Global, team: &Team, live: &LiveMessage) -> Result<String, AllocError>
    ensures { IfOk result (λ text. string_bytes text ≡ not_owner_text team.now live.now) }
{
    let name = shown(live.message.name.as_bytes());
    let owner = shown(live.owner.as_bytes());
    let team = shown(team.as_bytes());
    format!(in alloc; "{name} is team {owner}'s, which alone may change it, and not {team}")
}

/// Why the message that the action names can't be changed by the team; `None` where the network doesn't show it.
pub(crate) fn message_reason(case: &Case<'_>, action: &Action) -> Told {
    let Some(name) = named_message(action) else {
        return Ok(None);
    };
    match (case.refusal, live_named(case.net.live.as_slice(), name)) {
        (Refusal::NoMessage, None) => told(no_message(case, name)),
        (Refusal::NotOwner, Some(live)) => told(not_owner(case.alloc, case.team, live)),
        _ => Ok(None),
    }
}
