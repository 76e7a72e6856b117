//! The head of a page: whether it is under review, how much there is.
ghost use Rattle.std.specs.Prelude.{◌≡◌, IfOk, filter, map};
ghost use Rattle.office_page.specs.Names.{has_team, may_approve, text_of};

use crate::names::team_names;
use markup::{Attribute, Markup, Tag};
use office_seen::View;
use office_types::{Phase, Team};
use page_parts::{Letters, put_count, put_isolated};
use std::alloc::{AllocError, Global};

/// Begins a list of large figures. One `close` ends it.
pub(crate) fn open_figures(page: &mut Markup) {
    page.open(Tag::List, &[Attribute::Class(b"big")]);
}

/// Adds a figure, and what is counted: one of them, or with an `s`.
pub(crate) fn put_figure(page: &mut Markup, count: usize, one: &[u8]) {
    page.open(Tag::Item, &[]);
    page.open(Tag::Bold, &[]);
    page.number(count as u64);
    page.close();
    page.text(b" ");
    page.text(one);
    if count != 1 {
        page.text(b"s");
    }
    page.close();
}

/// Adds the comment of the sheet, if it has one.
pub(crate) fn put_comment(page: &mut Markup, comment: &[u8]) {
    if !comment.is_empty() {
        page.open(Tag::Paragraph, &[]);
        put_isolated(page, comment);
        page.close();
    }
}

/// Adds a word for the phase.
fn put_phase_word(page: &mut Markup, word: &[u8]) {
    page.element(Tag::Bold, &[Attribute::Class(b"kind")], word);
}

/// Adds the teams after their letters, with commas between; `otherwise` where there are none.
fn put_teams(page: &mut Markup, letters: &Letters<'_>, teams: &[&[u8]], otherwise: &[u8]) {
    if teams.is_empty() {
        page.text(otherwise);
    }
    let mut is_first = true;
    for team in teams {
        if !is_first {
            page.text(b", ");
        }
        letters.put_badge(page, team);
        is_first = false;
    }
}

/// Whether the team is among these.
fn has_team(teams: &[Team], team: &[u8]) -> bool
    ensures { result ≡ has_team teams.now team.now }
{
    teams.iter().any(|one| one.as_bytes() == team)
}

/// Whether the team may still approve: it neither requested the review nor approved.
fn may_approve(submitter: &Team, approvals: &[Team], team: &[u8]) -> bool
    ensures { result ≡ may_approve submitter.now approvals.now team.now }
{
    let has_approved = has_team(approvals, team);
    submitter.as_bytes() != team && !has_approved
}

/// Those of the teams that may still approve.
fn waiting_of<'a>(
    alloc: Global,
    teams: &[&'a [u8]],
    submitter: &Team,
    approvals: &[Team],
) -> Result<Vec<&'a [u8]>, AllocError>
    ensures { IfOk result (λ waiting. map text_of waiting.items
        ≡ filter (may_approve submitter.now approvals.now) (map text_of teams.now)) }
{
    let mut waiting = Vec::new(alloc);
    for team in teams {
        if may_approve(submitter, approvals, team) {
            waiting.push(*team)?;
        }
    }
    Ok(waiting)
}

/// Adds how many approvals are still needed, and of whom.
fn put_needed(page: &mut Markup, letters: &Letters<'_>, count: usize, waiting: &[&[u8]]) {
    page.open(Tag::Bold, &[]);
    put_count(page, count, b"approval");
    page.text(b" to come");
    page.close();
    page.text(b", of ");
    put_teams(page, letters, waiting, b"any other team");
    page.text(b".");
}

/// Adds that the network is under review, which this team requested.
fn put_review(
    alloc: Global,
    page: &mut Markup,
    view: &View,
    letters: &Letters<'_>,
    submitter: &Team,
) -> Result<(), AllocError> {
    let approvals = view.approvals.as_slice();
    let wanted = usize::from(view.reviews.count());
    let needed = wanted.saturating_sub(approvals.len());
    put_phase_word(page, b"In review");
    page.text(b" Submitted by ");
    letters.put_badge(page, submitter.as_bytes());
    page.text(b", approved by ");
    put_teams(page, letters, &team_names(alloc, approvals)?, b"nobody yet");
    page.text(b": ");
    page.number(wanted.saturating_sub(needed) as u64);
    page.text(b" of ");
    page.number(wanted as u64);
    page.text(b". ");
    if needed == 0 {
        page.text(b"The office may release.");
        return Ok(());
    }
    let waiting = waiting_of(alloc, letters.names(), submitter, approvals)?;
    put_needed(page, letters, needed, &waiting);
    Ok(())
}

/// Adds that the network is a draft.
fn put_draft(page: &mut Markup, view: &View) {
    put_phase_word(page, b"Draft");
    page.text(b" A release needs ");
    put_count(page, usize::from(view.reviews.count()), b"approval");
    page.text(b".");
}

/// Adds whether the network is a draft or under review, and who may approve. The error is out of memory.
pub(crate) fn put_phase(
    alloc: Global,
    page: &mut Markup,
    view: &View,
    letters: &Letters<'_>,
) -> Result<(), AllocError> {
    page.open(Tag::Paragraph, &[]);
    match &view.phase {
        Phase::Draft => put_draft(page, view),
        Phase::Review { submitter } => put_review(alloc, page, view, letters, submitter)?,
    }
    page.close();
    Ok(())
}
