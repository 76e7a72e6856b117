//! Fields that are wrong, missing, or do not go together.
ghost use Rattle.std.specs.Prelude.{◌≡◌, IfOk};
ghost use Rattle.office_fields.specs.Field.{row_of};
ghost use Rattle.office_fields.specs.Given.{named_value, named_values};
ghost use Rattle.office_advice.specs.Cause.{apart_wrong, field_cause, field_named, first_field, index_of, is_given};
ghost use Rattle.office_advice.specs.Cause.{is_missing, may_repeat, missing_field, must_be_given};
ghost use Rattle.office_advice.specs.Cause.{tied_field, tied_of, value_cause, value_wrong, values_wrong};

use crate::cause::{Cause, LineCommand, Wrong};
use office_fields::{ActionKind, CommandKind, Field, GivenValue, Occurrence, is_value};
use std::alloc::{AllocError, Global};

/// Whether a value is given under the name.
fn is_given(values: &[GivenValue<'_>], name: &str) -> bool
    ensures { result ≡ is_given (named_values values.now) name.now }
{
    for given in values {
        if given.name == name.as_bytes() {
            return true;
        }
    }
    false
}

/// Whether the field may be given more than once.
fn may_repeat(field: Field) -> bool
    ensures { result ≡ may_repeat (row_of field).occurrence }
{
    match field.occurrence() {
        Occurrence::Required | Occurrence::Optional => false,
        Occurrence::Repeated => true,
    }
}

/// Whether the field must be given.
fn must_be_given(field: Field) -> bool
    ensures { result ≡ must_be_given (row_of field).occurrence }
{
    match field.occurrence() {
        Occurrence::Required => true,
        Occurrence::Optional | Occurrence::Repeated => false,
    }
}

/// The field of the command that has the name.
fn field_named(command: LineCommand, name: &[u8]) -> Option<Field>
    ensures { result ≡ field_named command name.now }
{
    command
        .fields()
        .iter()
        .copied()
        .find(|field| field.name().as_bytes() == name)
}

/// What is wrong with this value of the field, after these values.
fn field_cause(
    alloc: Global,
    field: Field,
    earlier: &[GivenValue<'_>],
    value: &[u8],
) -> Result<Option<Cause>, AllocError>
    ensures { IfOk result (λ found. found ≡ field_cause field (named_values earlier.now)
        value.now) }
{
    if !may_repeat(field) && is_given(earlier, field.name()) {
        return Ok(Some(Cause::Doubled(field)));
    }
    if is_value(alloc, field.kind(), value)? {
        Ok(None)
    } else {
        Ok(Some(Cause::WrongValue(field)))
    }
}

/// What is wrong with a given value of the command, after these values.
fn value_cause(
    alloc: Global,
    command: LineCommand,
    earlier: &[GivenValue<'_>],
    given: &GivenValue<'_>,
) -> Result<Option<Cause>, AllocError>
    ensures { IfOk result (λ found. found ≡ value_cause command (named_values earlier.now)
        (named_value given.now)) }
{
    match field_named(command, given.name) {
        Some(field) => field_cause(alloc, field, earlier, &given.value),
        None => Ok(Some(Cause::Unknown(command))),
    }
}

/// The first of the values that is wrong by itself or after those before it.
fn value_wrong(
    alloc: Global,
    command: LineCommand,
    values: &[GivenValue<'_>],
) -> Result<Option<Wrong>, AllocError>
    ensures { IfOk result (λ found. found ≡ value_wrong command (named_values values.now) 0
        (named_values values.now)) }
{
    for (index, given) in values.iter().enumerate() {
        if let Some(cause) = value_cause(alloc, command, &values[..index], given)? {
            let word = index + command.first_field();
            return Ok(Some(Wrong { word, cause }));
        }
    }
    Ok(None)
}

/// Whether the field must be given and isn't.
fn is_missing(values: &[GivenValue<'_>], field: Field) -> bool
    ensures { result ≡ is_missing (named_values values.now) field }
{
    must_be_given(field) && !is_given(values, field.name())
}

/// The first field of the command that must be given and isn't.
fn missing_field(command: LineCommand, values: &[GivenValue<'_>]) -> Option<Field>
    ensures { result ≡ missing_field command (named_values values.now) }
{
    command
        .fields()
        .iter()
        .copied()
        .find(|field| is_missing(values, *field))
}

/// The field of the command whose value may not go with those of others.
fn tied_of(kind: ActionKind) -> Field
    ensures { result ≡ tied_of kind }
{
    match kind {
        ActionKind::Grant => Field::Last,
        ActionKind::TakePgn => Field::Destination,
        _ => Field::Net,
    }
}

/// The same of the command of a line.
fn tied_field(command: LineCommand) -> Field
    ensures { result ≡ tied_field command }
{
    match command {
        LineCommand::Whole(CommandKind::Act(kind)) | LineCommand::Part(kind) => tied_of(kind),
        LineCommand::Whole(_) => Field::Net,
    }
}

/// The index of the word that gives the first value under the name, or the command's.
fn index_of(command: LineCommand, values: &[GivenValue<'_>], name: &str) -> usize
    ensures { result ≡ index_of command name.now (first_field command) (named_values values.now) }
{
    for (index, given) in values.iter().enumerate() {
        if given.name == name.as_bytes() {
            return index + command.first_field();
        }
    }
    command.index()
}

/// That the command can't be had of values each of which is right.
fn apart_wrong(command: LineCommand, values: &[GivenValue<'_>]) -> Wrong
    ensures { result ≡ apart_wrong command (named_values values.now) }
{
    let field = tied_field(command);
    Wrong {
        word: index_of(command, values, field.name()),
        cause: Cause::Apart(field),
    }
}

/// What is wrong with values of which the command can't be had.
pub fn values_wrong(
    alloc: Global,
    command: LineCommand,
    values: &[GivenValue<'_>],
) -> Result<Wrong, AllocError>
    ensures { IfOk result (λ wrong. wrong ≡ values_wrong command (named_values values.now)) }
{
    if let Some(wrong) = value_wrong(alloc, command, values)? {
        return Ok(wrong);
    }
    match missing_field(command, values) {
        Some(field) => Ok(Wrong {
            word: command.index(),
            cause: Cause::Missing(field),
        }),
        None => Ok(apart_wrong(command, values)),
    }
}
