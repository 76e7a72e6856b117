//! The sections after the comments: suspect parameter numbers, value texts, and value types, each with the lines of one
//! signal after the other.
ghost use Rattle.std.specs.Prelude.{◌≡◌, ◌∷◌, [], OnOk};
ghost use Rattle.std.specs.List.{flat_map};
ghost use Rattle.dbc_grammar.specs.Canon.{each_signal, line_text, spn_default, spn_definition, spn_lines, type_lines};
ghost use Rattle.dbc_grammar.specs.Canon.{value_lines, with_spn_definitions};
ghost use Rattle.dbc_write.specs.Adding.{Adds};
ghost use Rattle.dbc_write.specs.Sections.{has_spn, message_has_spn, section_lines};

use crate::entries::entries;
use crate::tokens::{
    push_all, quoted, spaced_mark, spaced_number, spaced_word, tight_mark, tight_word,
};
use dbc_sheet::{Message, Sheet, Signal};
use dbc_words::SPN_LIMIT;
use itoa::Buffer;
use std::alloc::AllocError;

/// What the lines of a section give for a signal.
#[derive(Clone, Copy)]
pub(crate) enum Section {
    /// The suspect parameter number.
    Spns,
    /// The texts of its values.
    Values,
    /// How its bits are to be read.
    ValueTypes,
}

fn spn_line(text: &mut Vec<u8>, message: &Message, signal: &Signal) -> Result<(), AllocError>
    ensures { OnOk result (Adds line_text text.old.items text.new.items
        (spn_lines message.now signal.now)) }
{
    let spn = signal.spn.number();
    if spn == 0 {
        return Ok(());
    }
    let (mut message_number, mut number) = (Buffer::new(), Buffer::new());
    push_all(
        text,
        &[
            b"BA_ \"SPN\" SG_ ",
            message_number.format(message.number()).as_bytes(),
            b" ",
            signal.name.as_bytes(),
            b" ",
            number.format(spn).as_bytes(),
            b";\n",
        ],
    )?;
    Ok(())
}

fn value_line(text: &mut Vec<u8>, message: &Message, signal: &Signal) -> Result<(), AllocError>
    ensures { OnOk result (Adds line_text text.old.items text.new.items
        (value_lines message.now signal.now)) }
{
    if signal.values.as_slice().is_empty() {
        return Ok(());
    }
    let mut number = Buffer::new();
    push_all(
        text,
        &[
            b"VAL_ ",
            number.format(message.number()).as_bytes(),
            b" ",
            signal.name.as_bytes(),
        ],
    )?;
    entries(text, &signal.values)?;
    text.push(b'\n')?;
    Ok(())
}

fn type_line(text: &mut Vec<u8>, message: &Message, signal: &Signal) -> Result<(), AllocError>
    ensures { OnOk result (Adds line_text text.old.items text.new.items
        (type_lines message.now signal.now)) }
{
    let number = u32::from(signal.value_type.number());
    if number == 0 {
        return Ok(());
    }
    tight_word(text, b"SIG_VALTYPE_")?;
    spaced_number(text, message.number())?;
    spaced_word(text, signal.name.as_bytes())?;
    spaced_mark(text, b':')?;
    spaced_number(text, number)?;
    tight_mark(text, b';')?;
    text.push(b'\n')?;
    Ok(())
}

fn signal_line(
    text: &mut Vec<u8>,
    section: Section,
    message: &Message,
    signal: &Signal,
) -> Result<(), AllocError>
    ensures { OnOk result (Adds line_text text.old.items text.new.items
        (section_lines section message.now signal.now)) }
{
    match section {
        Section::Spns => spn_line(text, message, signal),
        Section::Values => value_line(text, message, signal),
        Section::ValueTypes => type_line(text, message, signal),
    }
}

fn message_lines(text: &mut Vec<u8>, section: Section, message: &Message) -> Result<(), AllocError>
    ensures { OnOk result (Adds line_text text.old.items text.new.items
        (flat_map (section_lines section message.now) message.now.signals)) }
{
    for signal in message.signals.as_slice() {
        signal_line(text, section, message, signal)?;
    }
    Ok(())
}

/// The lines of a section.
pub(crate) fn lines(text: &mut Vec<u8>, section: Section, sheet: &Sheet) -> Result<(), AllocError>
    ensures { OnOk result (Adds line_text text.old.items text.new.items
        (each_signal (section_lines section) sheet.now)) }
{
    for message in sheet.messages() {
        message_lines(text, section, message)?;
    }
    Ok(())
}

fn message_has_spn(message: &Message) -> bool
    ensures { result ≡ message_has_spn message.now }
{
    message
        .signals
        .as_slice()
        .iter()
        .any(|signal| signal.spn.number() != 0)
}

/// Whether some signal has a suspect parameter number.
pub fn has_spn(sheet: &Sheet) -> bool
    ensures { result ≡ has_spn sheet.now }
{
    sheet
        .messages()
        .iter()
        .any(|message| message_has_spn(message))
}

pub(crate) fn definition(text: &mut Vec<u8>) -> Result<(), AllocError>
    ensures { OnOk result (Adds line_text text.old.items text.new.items (spn_definition ∷ [])) }
{
    tight_word(text, b"BA_DEF_")?;
    spaced_word(text, b"SG_")?;
    quoted(text, b"SPN")?;
    spaced_word(text, b"INT")?;
    spaced_number(text, 0)?;
    spaced_number(text, SPN_LIMIT)?;
    tight_mark(text, b';')?;
    text.push(b'\n')?;
    Ok(())
}

pub(crate) fn default_value(text: &mut Vec<u8>) -> Result<(), AllocError>
    ensures { OnOk result (Adds line_text text.old.items text.new.items (spn_default ∷ [])) }
{
    tight_word(text, b"BA_DEF_DEF_")?;
    quoted(text, b"SPN")?;
    spaced_number(text, 0)?;
    tight_mark(text, b';')?;
    text.push(b'\n')?;
    Ok(())
}

/// The suspect parameter numbers; before them, if there are any, the definition of the attribute.
pub(crate) fn spns(text: &mut Vec<u8>, sheet: &Sheet) -> Result<(), AllocError>
    ensures { OnOk result (Adds line_text text.old.items text.new.items
        (with_spn_definitions (each_signal spn_lines sheet.now))) }
{
    if !has_spn(sheet) {
        return Ok(());
    }
    definition(text)?;
    default_value(text)?;
    lines(text, Section::Spns, sheet)?;
    Ok(())
}
