//! The word of a line that is to blame.
ghost use Rattle.std.specs.Prelude.{◌≡◌, ◌∷◌, IfOk, None, Some, is_some, if◌then◌else◌};
ghost use Rattle.office_fields.specs.Requested.{requested_of, part_of};
ghost use Rattle.office_fields.specs.Given.{named_values};
ghost use Rattle.office_fields.specs.Value.{plain_name_of};
ghost use Rattle.office_script.specs.Keys.{key_of};
ghost use Rattle.office_script.specs.Fields as script;
ghost use Rattle.office_script.specs.Words.{words_after};
ghost use Rattle.office_advice.specs.Cause.{can_be_had, fields_wrong, part_wrong, values_wrong, words_wrong, wrong_of};

use crate::cause::{Cause, LineCommand, Wrong};
use crate::forms::form_wrong;
use crate::values::values_wrong;
use crate::words::{LineParts, line_parts};
use office_fields::{ActionKind, CommandKind, GivenValue, Unread, part_of, requested_of, team_of};
use office_script::{Dash, first_word, key_of, read_fields, says_nothing};
use std::alloc::{AllocError, Global};

/// Whether the word is a key.
fn is_key(alloc: Global, dash: Dash, number: usize, word: &[u8]) -> Result<bool, AllocError>
    ensures { IfOk result (λ found. found ≡ is_some (key_of dash number word.now)) }
{
    match key_of(alloc, dash, number, word) {
        Ok(_key) => Ok(true),
        Err(Unread::Wrong) => Ok(false),
        Err(Unread::Memory) => Err(AllocError),
    }
}

/// Whether the word is a team.
fn is_team(alloc: Global, word: &[u8]) -> Result<bool, AllocError>
    ensures { IfOk result (λ found. found ≡ is_some (plain_name_of word.now)) }
{
    match team_of(alloc, word) {
        Ok(_team) => Ok(true),
        Err(Unread::Wrong) => Ok(false),
        Err(Unread::Memory) => Err(AllocError),
    }
}

/// Whether the command of a script can be had of the values.
fn whole_can_be_had(
    alloc: Global,
    kind: CommandKind,
    values: &[GivenValue<'_>],
) -> Result<bool, AllocError>
    ensures { IfOk result (λ can. can ≡ is_some (requested_of kind (named_values values.now))) }
{
    match requested_of(alloc, kind, values) {
        Ok(_requested) => Ok(true),
        Err(Unread::Wrong) => Ok(false),
        Err(Unread::Memory) => Err(AllocError),
    }
}

/// Whether the command of a bundle can be had of the values.
fn part_can_be_had(
    alloc: Global,
    kind: ActionKind,
    values: &[GivenValue<'_>],
) -> Result<bool, AllocError>
    ensures { IfOk result (λ can. can ≡ is_some (part_of kind (named_values values.now))) }
{
    match part_of(alloc, kind, values) {
        Ok(_part) => Ok(true),
        Err(Unread::Wrong) => Ok(false),
        Err(Unread::Memory) => Err(AllocError),
    }
}

/// Whether the command can be had of the values.
fn can_be_had(
    alloc: Global,
    command: LineCommand,
    values: &[GivenValue<'_>],
) -> Result<bool, AllocError>
    ensures { IfOk result (λ can. can ≡ can_be_had command (named_values values.now)) }
{
    match command {
        LineCommand::Whole(kind) => whole_can_be_had(alloc, kind, values),
        LineCommand::Part(kind) => part_can_be_had(alloc, kind, values),
    }
}

/// What is wrong with these values of the command, if the command can't be had of them.
fn had_wrong(
    alloc: Global,
    command: LineCommand,
    values: &[GivenValue<'_>],
) -> Result<Option<Wrong>, AllocError>
    ensures { IfOk result (λ found. found
        ≡ (if can_be_had command (named_values values.now) then None else Some
        (values_wrong command (named_values values.now)))) }
{
    if can_be_had(alloc, command, values)? {
        Ok(None)
    } else {
        Ok(Some(values_wrong(alloc, command, values)?))
    }
}

/// What is wrong with the words of `rest` as fields of the command.
fn fields_wrong(
    alloc: Global,
    command: LineCommand,
    rest: Option<&[u8]>,
) -> Result<Option<Wrong>, AllocError>
    ensures { IfOk result (λ found. found ≡ fields_wrong command (words_after rest.entry)
        (script.fields_of (words_after rest.entry))) }
{
    match read_fields(alloc, rest)? {
        Some(values) => had_wrong(alloc, command, &values),
        None => match rest {
            Some(words) => form_wrong(alloc, command.first_field(), words),
            None => Ok(None),
        },
    }
}

/// What is wrong with a line of these parts.
fn parts_wrong(
    alloc: Global,
    dash: Dash,
    number: usize,
    parts: LineParts<'_>,
) -> Result<Option<Wrong>, AllocError>
    ensures { IfOk result (λ found. found ≡ words_wrong dash number
        (parts.entry.key.now ∷ parts.entry.team.now ∷ parts.entry.command.now
        ∷ words_after parts.entry.rest)) }
{
    if !is_key(alloc, dash, number, parts.key)? {
        let cause = Cause::Key(dash);
        return Ok(Some(Wrong { word: 0, cause }));
    }
    if !is_team(alloc, parts.team)? {
        let cause = Cause::Team;
        return Ok(Some(Wrong { word: 1, cause }));
    }
    match CommandKind::of_word(parts.command) {
        Some(kind) => fields_wrong(alloc, LineCommand::Whole(kind), parts.rest),
        None => Ok(Some(Wrong {
            word: 2,
            cause: Cause::Command,
        })),
    }
}

/// Why the line of this number, from 1, is wrong, if it is.
pub(crate) fn wrong_of(
    alloc: Global,
    dash: Dash,
    number: usize,
    line: &[u8],
) -> Result<Option<Wrong>, AllocError>
    ensures { IfOk result (λ found. found ≡ wrong_of dash number line.now) }
{
    if says_nothing(line) {
        return Ok(None);
    }
    match line_parts(line) {
        Some(parts) => parts_wrong(alloc, dash, number, parts),
        None => Ok(Some(Wrong {
            word: 0,
            cause: Cause::Short,
        })),
    }
}

/// Why a line of a bundle's file is wrong, if it is.
pub(crate) fn part_wrong(alloc: Global, line: &[u8]) -> Result<Option<Wrong>, AllocError>
    ensures { IfOk result (λ found. found ≡ part_wrong line.now) }
{
    if says_nothing(line) {
        return Ok(None);
    }
    let first = first_word(line);
    match ActionKind::of_word(first.word) {
        Some(kind) => fields_wrong(alloc, LineCommand::Part(kind), first.rest),
        None => Ok(Some(Wrong {
            word: 0,
            cause: Cause::PartCommand,
        })),
    }
}
