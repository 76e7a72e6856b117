//! The parts of a bundle, as a file has them.
ghost use Rattle.office_fields.specs.Kind.{action_of_word};
ghost use Rattle.office_fields.specs.Reading.{ReadsField};
ghost use Rattle.office_script.specs.Bundles.{part_by, part_of_words, parts_in, parts_of_lines};
ghost use Rattle.office_script.specs.Lines.{lines_of};
ghost use Rattle.office_script.specs.Words.{words_after, words_of};

use crate::fields::read_fields;
use crate::lines::{first_line, says_nothing};
use crate::words::first_word;
use base::Items;
use office_fields::{ActionKind, Unread, part_of};
use office_types::{Action, Parts};
use std::alloc::Global;

fn kind_of(word: &[u8]) -> Result<ActionKind, Unread>
    ensures { ReadsField (action_of_word word.now) result }
{
    ActionKind::of_word(word).ok_or(Unread::Wrong)
}

/// The part that the command of this word is with the fields of the words in `rest`.
#[tactic(auto, unfolding(crate::specs::Bundles::part_by))]
fn part_by(alloc: Global, word: &[u8], rest: Option<&[u8]>) -> Result<Action, Unread>
    ensures { ReadsField (part_by word.now (words_after rest.entry)) result }
{
    let kind = kind_of(word)?;
    match read_fields(alloc, rest)? {
        Some(fields) => part_of(alloc, kind, &fields),
        None => Err(Unread::Wrong),
    }
}

fn part_of_line(alloc: Global, line: &[u8]) -> Result<Action, Unread>
    ensures { ReadsField (part_of_words (words_of line.now)) result }
{
    let first = first_word(line);
    part_by(alloc, first.word, first.rest)
}

/// The parts of all lines of a file.
fn parts_of_lines(alloc: Global, bytes: &[u8]) -> Result<Items<Action>, Unread>
    ensures { ReadsField (parts_of_lines (lines_of bytes.now)) result }
{
    let mut parts = Items::new(alloc);
    let mut rest = bytes;
    while let Some(first) = first_line(rest) {
        if !says_nothing(first.line) {
            let part = part_of_line(alloc, first.line)?;
            parts.push(part)?;
        }
        rest = first.rest;
    }
    Ok(parts)
}

/// The parts in a file: a line for each, its command and its fields without the network, and lines that say nothing.
/// `Wrong` where a line isn't so, and where there is no part or more than 64.
pub fn parts_in(alloc: Global, bytes: &[u8]) -> Result<Parts<Action>, Unread>
    ensures { ReadsField (parts_in bytes.now) result }
{
    let parts = parts_of_lines(alloc, bytes)?;
    Parts::of(parts).ok_or(Unread::Wrong)
}
