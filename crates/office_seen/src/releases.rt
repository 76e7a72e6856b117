//! What releases say of a message.
ghost use Rattle.std.specs.Prelude.{◌≡◌, IfOk};
ghost use Rattle.std.specs.Option.{option_copied};
ghost use Rattle.dbc_sheet.specs.Messages.{has_number};
ghost use Rattle.dbc_sheet.specs.Sheet.{empty_sheet};
ghost use Rattle.office_seen.specs.Since.{last_release, numbered_where, releases_runs, releases_text};
ghost use Rattle.office_seen.specs.Since.{since, since_word};

use crate::frozen::FrozenSheets;
use base::Items;
use columns::{Run, runs_of, runs_text};
use dbc_sheet::{Message, Sheet, has_number, partner};
use std::alloc::{AllocError, Global};

/// The last of the releases; of none the empty sheet.
pub fn last_of<'a>(releases: &'a [Sheet], empty: &'a Sheet) -> &'a Sheet
    requires { empty.now ≡ empty_sheet }
    ensures { result.now ≡ last_release releases.now }
{
    match releases {
        [] => empty,
        [.., last] => last,
    }
}

/// The last release; before the first one the empty sheet.
pub fn last_release<'a>(releases: &'a FrozenSheets, empty: &'a Sheet) -> &'a Sheet
    requires { empty.now ≡ empty_sheet }
    ensures { result.now ≡ last_release releases.now }
{
    last_of(releases.as_slice(), empty)
}

/// What has become of a message since it was the one that was found.
fn since_word(found: Option<&Message>, message: &Message) -> &'static [u8]
    ensures { result.now ≡ since_word (option_copied found.entry) message.now }
{
    match found {
        None => b"new",
        Some(found) => { if found == message { b"-" } else { b"changed" } }
    }
}

/// What has become of the message of the sheet since the sheet before: `new`, `changed` or `-`.
pub fn since(before: &Sheet, sheet: &Sheet, message: &Message) -> &'static [u8]
    ensures { result.now ≡ since before.now sheet.now message.now }
{
    since_word(partner(before, sheet, message), message)
}

/// The numbers of the releases, from 1, that have a message of the DBC number. The error is out of memory.
pub fn releases_with(
    alloc: Global,
    releases: &FrozenSheets,
    number: u32,
) -> Result<Vec<u32>, AllocError>
    ensures { IfOk result (λ numbers. numbers.items
        ≡ numbered_where (λ s. has_number s.messages number) 1 releases.now) }
{
    let mut numbers = Vec::new(alloc);
    let mut release = 1u32;
    for sheet in releases.as_slice() {
        if has_number(sheet, number) {
            numbers.push(release)?;
        }
        release += 1;
    }
    Ok(numbers)
}

/// The numbers of the releases that have a message of the DBC number, as runs. The error is out of memory.
pub fn releases_runs(
    alloc: Global,
    releases: &FrozenSheets,
    number: u32,
) -> Result<Items<Run>, AllocError>
    ensures { IfOk result (λ runs. runs ≡ releases_runs releases.now number) }
{
    let numbers = releases_with(alloc, releases, number)?;
    Ok(Items::from_vec(runs_of(alloc, 1, &numbers)?))
}

/// Those runs as text. The error is out of memory.
pub fn releases_text(
    alloc: Global,
    releases: &FrozenSheets,
    number: u32,
) -> Result<Vec<u8>, AllocError>
    ensures { IfOk result (λ text. text.items ≡ releases_text releases.now number) }
{
    let runs = releases_runs(alloc, releases, number)?;
    runs_text(alloc, runs.as_slice())
}
