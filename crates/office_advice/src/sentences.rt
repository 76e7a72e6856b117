//! What is stated of a wrong line: one sentence.
ghost use Rattle.std.specs.Prelude.{◌≡◌, IfOk, string_bytes};
ghost use Rattle.office_advice.specs.declared.cause.Cause.TheVariants as why;
ghost use Rattle.office_advice.specs.Sentence.{apart_text, block_range, block_text, has_carriage_return};
ghost use Rattle.office_advice.specs.Sentence.{hint_of, is_text, key_meaning, meaning_of, sentence_of};

use crate::cause::{Cause, LineCommand};
use crate::lists::{command_words, field_names};
use crate::phrases::phrase_of;
use columns::concat;
use dbc_advice::quoted;
use office_fields::{CommandKind, Field};
use office_script::Dash;
use office_types::BlockForm;
use std::alloc::{AllocError, Global};

/// What a key is, after what was found.
fn key_meaning(dash: Dash) -> &'static str
    ensures { result.now ≡ key_meaning dash }
{
    match dash {
        Dash::LineNumber => {
            ", but a key is 1 to 64 bytes from ! to ~, or - for the number of the line"
        }
        Dash::Wrong => ", but a key is 1 to 64 bytes from ! to ~, and not - in a database",
    }
}

/// What the values of the field are.
fn is_text(alloc: Global, field: Field) -> Result<Vec<u8>, AllocError>
    ensures { IfOk result (λ text. text.items ≡ is_text field) }
{
    let phrase = phrase_of(alloc, field.kind())?;
    concat(alloc, &[field.name().as_bytes(), b" is ", &phrase])
}

/// The range of the numbers of a block.
fn block_range(alloc: Global, name: &str, form: BlockForm) -> Result<String, AllocError>
    ensures { IfOk result (λ text. string_bytes text ≡ block_range name.now form) }
{
    let least = form.least();
    let greatest = form.greatest();
    format!(in alloc; "{name} {least} to {greatest}")
}

/// That the numbers of a block do not go together, after what was found.
fn block_text(alloc: Global) -> Result<Vec<u8>, AllocError>
    ensures { IfOk result (λ text. text.items ≡ block_text) }
{
    let std = block_range(alloc, "std", BlockForm::Std)?;
    let ext = block_range(alloc, ", ext", BlockForm::Ext)?;
    let pgn = block_range(alloc, ", pgn", BlockForm::Pgn)?;
    let spn = block_range(alloc, ", spn", BlockForm::Spn)?;
    concat(
        alloc,
        &[
            b", but a block's last number is not below its first, and both are in the range of its form: ",
            std.as_bytes(),
            ext.as_bytes(),
            pgn.as_bytes(),
            spn.as_bytes(),
        ],
    )
}

/// That a value does not go with others, after what was found.
fn apart_text(alloc: Global, field: Field) -> Result<Vec<u8>, AllocError>
    ensures { IfOk result (λ text. text.items ≡ apart_text field) }
{
    match field {
        Field::Last => block_text(alloc),
        Field::Destination => {
            Vec::from_slice(alloc, b", but only pdu=addressed has a destination")
        }
        _ => Vec::from_slice(alloc, b", but the fields do not go together"),
    }
}

/// The commands, after what was found.
fn commands_text(alloc: Global) -> Result<Vec<u8>, AllocError>
    ensures { IfOk result (λ text. text.items ≡ meaning_of why.Command) }
{
    let words = command_words(alloc, CommandKind::all())?;
    concat(alloc, &[b", but the commands are ", &words])
}

/// The fields of the command, after what was found.
fn fields_text(alloc: Global, command: LineCommand) -> Result<Vec<u8>, AllocError>
    ensures { IfOk result (λ text. text.items ≡ meaning_of (why.Unknown command)) }
{
    let names = field_names(alloc, command.fields())?;
    let word = command.word().as_bytes();
    concat(alloc, &[b", but the fields of ", word, b" are ", &names])
}

/// That the field is given before, after what was found.
fn doubled_text(alloc: Global, field: Field) -> Result<Vec<u8>, AllocError>
    ensures { IfOk result (λ text. text.items ≡ meaning_of (why.Doubled field)) }
{
    concat(
        alloc,
        &[
            b", but ",
            field.name().as_bytes(),
            b" is given before, and may be given once only",
        ],
    )
}

/// What the field's values are, after what was found.
fn value_text(alloc: Global, field: Field) -> Result<Vec<u8>, AllocError>
    ensures { IfOk result (λ text. text.items ≡ meaning_of (why.WrongValue field)) }
{
    let text = is_text(alloc, field)?;
    concat(alloc, &[b", but ", &text])
}

/// That the field is missing, after what was found.
fn missing_text(alloc: Global, field: Field) -> Result<Vec<u8>, AllocError>
    ensures { IfOk result (λ text. text.items ≡ meaning_of (why.Missing field)) }
{
    let text = is_text(alloc, field)?;
    let name = field.name().as_bytes();
    concat(alloc, &[b", but ", name, b" is missing: ", &text])
}

/// What the cause means, after what was found: it begins with `, but `.
pub fn meaning_of(alloc: Global, cause: Cause) -> Result<Vec<u8>, AllocError>
    ensures { IfOk result (λ text. text.items ≡ meaning_of cause) }
{
    match cause {
        Cause::Short => Vec::from_slice(
            alloc,
            b", but a line is a key, a team, a command and its fields, with one space between two",
        ),
        Cause::Key(dash) => Vec::from_slice(alloc, key_meaning(dash).as_bytes()),
        Cause::Team => Vec::from_slice(
            alloc,
            b", but a team is 1 to 32 bytes of a to z, 0 to 9 and -",
        ),
        Cause::Command => commands_text(alloc),
        Cause::PartCommand => Vec::from_slice(
            alloc,
            b", but a line of a bundle's file is a command other than import and bundle, and its fields but net",
        ),
        Cause::Count => {
            Vec::from_slice(alloc, b", but the file of a bundle has 1 to 64 commands")
        }
        Cause::NoField => Vec::from_slice(alloc, b", but a field is name=value"),
        Cause::Escape => Vec::from_slice(
            alloc,
            b", but in a value % and two hexadecimal digits stand for a byte: write %25 for %",
        ),
        Cause::Unknown(command) => fields_text(alloc, command),
        Cause::Doubled(field) => doubled_text(alloc, field),
        Cause::WrongValue(field) => value_text(alloc, field),
        Cause::Missing(field) => missing_text(alloc, field),
        Cause::Apart(field) => apart_text(alloc, field),
    }
}

/// Whether the word has a carriage return.
fn has_carriage_return(word: &[u8]) -> bool
    ensures { result ≡ has_carriage_return word.now }
{
    word.iter().any(|byte| *byte == b'\r')
}

/// What to do about an empty word, or one with a carriage return.
fn hint_of(word: &[u8]) -> &'static str
    ensures { result.now ≡ hint_of word.now }
{
    if word.is_empty() {
        "; there is exactly one space between words, and none at the ends of a line"
    } else if has_carriage_return(word) {
        "; end lines with a line feed alone, without a carriage return"
    } else {
        ""
    }
}

/// What is stated of the word: what was found, what that means, and what to do. The error is out of memory.
pub(crate) fn sentence_of(alloc: Global, cause: Cause, word: &[u8]) -> Result<Vec<u8>, AllocError>
    ensures { IfOk result (λ text. text.items ≡ sentence_of cause word.now) }
{
    let quoted = quoted(alloc, word)?;
    let meaning = meaning_of(alloc, cause)?;
    let hint = hint_of(word).as_bytes();
    concat(alloc, &[b"found ", &quoted, &meaning, hint])
}
