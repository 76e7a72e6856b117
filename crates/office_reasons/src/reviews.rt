//! Refusals about reviews and releases.
ghost use Rattle.std.specs.Prelude.{◌≡◌, IfOk, string_bytes};
ghost use Rattle.office_reasons.specs.Reviews.{draft_text, own_review_text, review_text, unapproved_text};

use crate::case::{Case, Told, told};
use crate::few::few_names;
use crate::networks::limit_text;
use crate::pieces::shown;
use office_types::{Net, Phase, RELEASE_LIMIT, Refusal, Team};
use std::alloc::{AllocError, Global};

/// That the network is in review, which this team requested.
fn review_text(alloc: Global, net: &Net, submitter: &Team) -> Result<String, AllocError>
    ensures { IfOk result (λ text. string_bytes text ≡ review_text net.now submitter.now) }
{
    let name = shown(net.name.as_bytes());
    let team = shown(submitter.as_bytes());
    format!(in alloc; "{name} is in review, which team {team} requested; release or reject ends it")
}

/// That the network is in draft.
fn draft_text(alloc: Global, net: &Net) -> Result<String, AllocError>
    ensures { IfOk result (λ text. string_bytes text ≡ draft_text net.now) }
{
    let name = shown(net.name.as_bytes());
    format!(in alloc; "{name} is in draft: submit it first")
}

/// That the team requested the review itself.
fn own_review_text(alloc: Global, net: &Net, team: &Team) -> Result<String, AllocError>
    ensures { IfOk result (λ text. string_bytes text ≡ own_review_text net.now team.now) }
{
    let name = shown(net.name.as_bytes());
    let team = shown(team.as_bytes());
    format!(in alloc;
        "team {team} requested the review of {name} itself, so another team has to decide"
    )
}

/// That no team has approved of the network, and how many have to.
fn unapproved_text(alloc: Global, net: &Net) -> Result<String, AllocError>
    ensures { IfOk result (λ text. string_bytes text ≡ unapproved_text net.now) }
{
    let name = shown(net.name.as_bytes());
    let reviews = net.head.reviews.count();
    format!(in alloc; "no team has approved of {name}, which has reviews={reviews}")
}

/// Who has approved of the network, and how many still have to.
fn needs_more(alloc: Global, net: &Net) -> Result<String, AllocError> {
    let approvals = net.approvals.as_slice();
    match approvals {
        [] => unapproved_text(alloc, net),
        [_, ..] => {
            let teams = few_names(alloc, approvals)?;
            let teams = teams.as_str();
            let name = shown(net.name.as_bytes());
            let reviews = usize::from(net.head.reviews.count());
            let lacking = reviews.saturating_sub(approvals.len());
            format!(in alloc;
                "only {teams} approved of {name}, which has reviews={reviews}: {lacking} more to go"
            )
        }
    }
}

/// That the network has as many releases as it may have.
pub(crate) fn many_releases(alloc: Global, net: &Net) -> Result<String, AllocError> {
    let name = shown(net.name.as_bytes());
    limit_text(alloc, name, RELEASE_LIMIT as usize, "releases", "network")
}

/// Why a command that depends on the review is refused; `None` where the network doesn't show it.
pub(crate) fn review_reason(case: &Case<'_>) -> Told {
    let alloc = case.alloc;
    let net = case.net;
    match (case.refusal, &net.head.phase) {
        (Refusal::InReview, Phase::Review { submitter }) => told(review_text(
            alloc, net, submitter,
        )),
        (Refusal::NotInReview, Phase::Draft) => told(draft_text(alloc, net)),
        (Refusal::OwnReview, Phase::Review { .. }) => told(own_review_text(alloc, net, case.team)),
        (Refusal::NeedsMore, Phase::Review { .. }) => told(needs_more(alloc, net)),
        _ => Ok(None),
    }
}
