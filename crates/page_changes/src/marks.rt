//! What has become of each message of the live network.
ghost use Rattle.std.specs.Prelude.{◌≡◌, IfOk, map};
ghost use Rattle.std.specs.List.{list_any};
ghost use Rattle.page_changes.specs.Changes.{AreByNumber, changes_in};
ghost use Rattle.page_changes.specs.Fates.{state_in, state_of};
ghost use Rattle.page_changes.specs.Marks.{AreMarks, IsMark, changed_by, has_messages, signals_in};
ghost use Rattle.page_changes.specs.Names.{text_of};
ghost use Rattle.page_changes.specs.Releases.{releases_of};

use crate::changes::{Changes, Fate, fate_in};
use crate::names::ascending;
use columns::{Run, runs_of};
use dbc_compare::{Difference, breaking_count};
use dbc_sheet::{Message, Sheet};
use office_seen::{FrozenSheets, releases_with};
use page_parts::{Mark, Marks, Names, State};
use std::alloc::{AllocError, Global};

/// The releases that have a message of the DBC number, as runs.
fn releases_of(alloc: Global, releases: &FrozenSheets, number: u32) -> Result<Vec<Run>, AllocError>
    ensures { IfOk result (λ runs. runs.items ≡ releases_of releases.now number) }
{
    let numbers = releases_with(alloc, releases, number)?;
    runs_of(alloc, 1, &numbers)
}

/// What is said of a message that has met this fate, by so many differences that break a receiver.
fn state_of(fate: Fate, breaking: usize) -> State
    ensures { result ≡ state_of fate breaking }
{
    match fate {
        Fate::Added => State::New,
        _ if breaking > 0 => State::Breaking(breaking),
        _ => State::Changed,
    }
}

/// What is said of a message that differs so, if it differs.
fn state_in(differences: &[Difference]) -> State
    ensures { result ≡ state_in differences.now }
{
    match differences {
        [] => State::Same,
        [_first, _later @ ..] => state_of(fate_in(differences), breaking_count(differences)),
    }
}

/// The names of the signals that these differences are about.
fn signals_in<'a>(alloc: Global, differences: &'a [Difference]) -> Result<Vec<&'a [u8]>, AllocError>
    ensures { IfOk result (λ names. map text_of names.items ≡ signals_in differences.now) }
{
    let mut names: Vec<&'a [u8]> = Vec::new(alloc);
    for difference in differences {
        if let Some(name) = &difference.name {
            names.push(name.as_bytes())?;
        }
    }
    Ok(names)
}

/// The names of the signals that have changed of a message that has met this fate, in ascending order.
fn changed_by<'a>(
    alloc: Global,
    fate: Fate,
    differences: &'a [Difference],
) -> Result<Names<'a>, AllocError>
    ensures { IfOk result (λ names. names ≡ changed_by fate differences.now) }
{
    match fate {
        Fate::Changed => ascending(signals_in(alloc, differences)?),
        Fate::Added | Fate::Removed => Ok(Names::none(alloc)),
    }
}

/// The mark of the message of this DBC number that differs so.
fn mark_of<'a>(
    alloc: Global,
    releases: &FrozenSheets,
    number: u32,
    differences: &'a [Difference],
) -> Result<Mark<'a>, AllocError>
    ensures { IfOk result (IsMark releases.now number differences.now) }
{
    let there = releases_of(alloc, releases, number)?;
    let signals = changed_by(alloc, fate_in(differences), differences)?;
    Ok(Mark {
        releases: there,
        state: state_in(differences),
        signals,
    })
}

/// Whether the sheet has a message.
fn has_messages(sheet: &Sheet) -> bool
    ensures { result ≡ has_messages sheet.now }
{
    !sheet.messages().is_empty()
}

/// The marks of the messages.
fn message_marks<'a>(
    alloc: Global,
    messages: &[Message],
    releases: &FrozenSheets,
    changes: &Changes<'a>,
) -> Result<Vec<Mark<'a>>, AllocError>
    ensures { IfOk result (λ marks. AreByNumber changes.now
        → AreMarks releases.now (changes_in changes.now) messages.now marks.items) }
{
    let mut marks = Vec::new(alloc);
    for message in messages {
        let number = message.number();
        let mark = mark_of(alloc, releases, number, changes.find(number))?;
        marks.push(mark)?;
    }
    Ok(marks)
}

/// The mark of each message of the sheet after these releases, since the last of which so much has changed. The error is
/// out of memory.
pub fn marks_of<'a>(
    alloc: Global,
    sheet: &Sheet,
    releases: &FrozenSheets,
    changes: &Changes<'a>,
) -> Result<Marks<'a>, AllocError>
    ensures marks { IfOk result (λ marks. AreByNumber changes.now
        → AreMarks releases.now (changes_in changes.now) sheet.now.messages marks.marks.items) }
    ensures releases { IfOk result
        (λ marks. marks.has_releases ≡ list_any has_messages releases.now) }
{
    let marks = message_marks(alloc, sheet.messages(), releases, changes)?;
    let has_releases = releases
        .as_slice()
        .iter()
        .any(|release| has_messages(release));
    Ok(Marks {
        marks,
        has_releases,
    })
}
