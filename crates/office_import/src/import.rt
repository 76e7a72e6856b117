//! Decisions on imports.
ghost use Rattle.std.specs.Prelude.{◌≡◌, ℕ, List, None, Some, IfOk, IfSome, MatchOption};
ghost use Rattle.base.specs.Refusing.{first_refusal};
ghost use Rattle.office_types.specs.declared.book.SpnBook.{SpnBook};
ghost use Rattle.office_types.specs.declared.command.Task.TheVariants.{Import};
ghost use Rattle.office_rules.specs.Change.{Decides};
ghost use Rattle.office_rules.specs.Importing.{FileReading, Reading, Unreadable, import, widened};
ghost use Rattle.office_rules.specs.Step.{file_wanted};
ghost use Rattle.office_import.specs.Changes.{import_changes};
ghost use Rattle.office_import.specs.News.{CanWiden, frame_news};
ghost use Rattle.office_import.specs.Tests.{early_tests};

use crate::changes::{add_all_spns, add_messages, counts};
use crate::clear::first_unclear;
use crate::frame::widened;
use crate::index::LiveIndex;
use crate::joining::first_refused;
use crate::limits::is_too_large;
use crate::news::{FrameNews, frame_news};
use crate::numbers::team_numbers;
use base::Items;
use dbc_sheet::Sheet;
use office_facts::{head_with, in_review, refusal_decision};
use office_types::{Change, Decision, FileFault, Head, Net, Refusal, Team};
use std::alloc::{AllocError, Global};

/// Why the network takes no file now, or why the first of the messages that isn't clear isn't.
fn early_refusal(alloc: Global, net: &Net, file: &Sheet) -> Result<Option<Refusal>, AllocError>
    ensures { IfOk result (λ refusal. refusal ≡ first_refusal (early_tests net.now file.now)) }
{
    if in_review(&net.head.phase) {
        return Ok(Some(Refusal::InReview));
    }
    first_unclear(alloc, file.messages())
}

/// The network's head, with what the file brings to its frame.
fn new_head(alloc: Global, net: &Net, file: &Sheet, news: FrameNews) -> Result<Head, AllocError>
    requires news { news ≡ frame_news net.now.head.frame file.now }
    requires room { CanWiden net.now.head.frame news }
    ensures { IfOk result (λ head. head
        ≡ record net.now.head { frame = widened net.now.head.frame file.now }) }
{
    let frame = widened(alloc, &net.head.frame, file, news)?;
    head_with(alloc, &net.head, frame)
}

/// The changes of an import: the head, the new messages, and their suspect parameter numbers.
fn import_changes(
    alloc: Global,
    team: &Team,
    index: &LiveIndex,
    file: &Sheet,
    news: FrameNews,
) -> Result<Items<Change>, AllocError>
    requires news { news ≡ frame_news index.now.head.frame file.now }
    requires room { CanWiden index.now.head.frame news }
    ensures { IfOk result (λ changes. changes ≡ import_changes team.now index.now file.now) }
{
    let mut changes = Items::new(alloc);
    changes.push(Change::SetHead(new_head(alloc, index.net(), file, news)?))?;
    add_messages(alloc, team, index, file.messages(), &mut changes)?;
    add_all_spns(index, file.messages(), &mut changes)?;
    Ok(changes)
}

/// Decides the team's import of a sheet whose messages are clear, on a network that isn't in review.
fn decide_clear(
    alloc: Global,
    team: &Team,
    index: &LiveIndex,
    file: &Sheet,
) -> Result<Decision, AllocError>
    requires { first_refusal (early_tests index.now file.now) ≡ None }
    ensures { IfOk result (λ d. (name : List ℕ) (book : SpnBook) →
        Decides name (record { net = Some index.now; book = book })
        (import team.now (Some index.now) (Reading file.now)) d) }
{
    let numbers = team_numbers(alloc, team, index.net().blocks.as_slice())?;
    if let Some(refusal) = first_refused(team, &numbers, index, file.messages()) {
        return Ok(refusal_decision(alloc, refusal));
    }
    let news = frame_news(alloc, &index.net().head.frame, file)?;
    if is_too_large(index, file, &news) {
        return Ok(refusal_decision(alloc, Refusal::TooMany));
    }
    let reply = counts(index, file);
    let changes = import_changes(alloc, team, index, file, news)?;
    Ok(Decision { changes, reply })
}

/// Decides the team's import of the sheet that its file reads as: the messages whose identifiers aren't live are added
/// as the team's, with the nodes and value tables of new names, the version and the comment where the network has none,
/// and the suspect parameter numbers of the messages that are added. It is refused, with no change, with the first of
/// these that holds: 54 `InReview` where the network is in review; 58 `FileFault` where a message isn't clear, with the
/// code of its first clash and its DBC number; then for each message, in the order of their numbers, 51 `IdentTaken`
/// where its identifier is that of a live message which isn't equal to it, 52 `Held` where the identifier is held, 50
/// `NameTaken` where a live message has its name, 49 `OutsideBlock` where the team isn't the office and has no block
/// with the identifier's number or its parameter group; then 26 `TooMany` where a limit of a sheet would be
/// passed. The reply shows how many messages are added and how many were live. The error is out of memory.
pub fn decide_import(
    alloc: Global,
    team: &Team,
    net: &Net,
    file: &Sheet,
) -> Result<Decision, AllocError>
    ensures { IfOk result (λ d. (name : List ℕ) (book : SpnBook) →
        Decides name (record { net = Some net.now; book = book })
        (import team.now (Some net.now) (Reading file.now)) d) }
{
    if let Some(refusal) = early_refusal(alloc, net, file)? {
        return Ok(refusal_decision(alloc, refusal));
    }
    let index = LiveIndex::of(alloc, net)?;
    decide_clear(alloc, team, &index, file)
}

/// Decides an import of a file that reads as no sheet: it is refused, with no change, with 54 `InReview` where the
/// network is in review, and else with 58 `FileFault` and this fault. Takes no memory.
pub fn decide_unreadable(alloc: Global, net: &Net, fault: FileFault) -> Decision
    ensures { (team name : List ℕ) (book : SpnBook) →
        Decides name (record { net = Some net.now; book = book })
        (import team (Some net.now) (Unreadable fault)) result }
{
    if in_review(&net.head.phase) {
        refusal_decision(alloc, Refusal::InReview)
    } else {
        refusal_decision(alloc, Refusal::FileFault(fault))
    }
}

/// Decides an import where the network is in review, whatever the file reads as: it is refused with 54 `InReview`.
/// `None` where the file must be read. Takes no memory.
pub fn decide_unread(alloc: Global, net: &Net) -> Option<Decision>
    ensures decision { IfSome result
        (λ d. (team name : List ℕ) (book : SpnBook) (reading : FileReading) →
        Decides name (record { net = Some net.now; book = book })
        (import team (Some net.now) reading) d) }
    ensures wanted { (file : List ℕ) → MatchOption result
        (file_wanted (Some net.now) (Import file) ≡ Some file)
        (λ d. file_wanted (Some net.now) (Import file) ≡ None) }
{
    if in_review(&net.head.phase) {
        Some(refusal_decision(alloc, Refusal::InReview))
    } else {
        None
    }
}
