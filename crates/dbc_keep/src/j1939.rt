//! The attributes by which other tools take messages as those of SAE J1939.
ghost use Rattle.std.specs.Prelude.{◌≡◌, ◌++◌, [], IfErr, IfOk, OnOk, codes, if◌then◌else◌, nat_le};
ghost use Rattle.std.specs.Fmt.{decimal};
ghost use Rattle.std.specs.List.{flat_map};
ghost use Rattle.can_id.specs.Ident.{extended_flag};
ghost use Rattle.dbc_grammar.specs.Reads.{ReadsOnlyAs};
ghost use Rattle.dbc_keep.specs.J1939.{IsUnreadable, KeepsJ1939, defines_attribute, format_statements, format_value};
ghost use Rattle.dbc_keep.specs.J1939.{has_attribute, is_definition, j1939_text, protocol_statements};
ghost use Rattle.dbc_lex.specs.Fault.{UnlessMemory};

use crate::said::{is_next, skip};
use crate::staying::text_with_staying;
use dbc_lex::Lexer;
use dbc_read::{Passed, ReadFault, read};
use dbc_sheet::{Message, Sheet};
use dbc_words::Keyword;
use itoa::Buffer;
use std::alloc::{AllocError, Global};

fn is_definition(keyword: Keyword) -> bool
    ensures { result ≡ is_definition keyword }
{
    match keyword {
        Keyword::AttributeDefinition => true,
        _ => false,
    }
}

/// Whether the statement defines the attribute of this name, which is in its quotes.
fn defines_attribute(source: &[u8], name: &[u8], one: Passed) -> bool
    ensures { result ≡ defines_attribute source.now name.now one }
{
    if !is_definition(one.keyword) {
        return false;
    }
    let mut lexer = Lexer::at(source, one.at);
    skip(&mut lexer);
    let first = is_next(&mut lexer, name);
    let second = is_next(&mut lexer, name);
    first || second
}

/// Whether one of the statements does.
fn has_attribute(source: &[u8], name: &[u8], passed: &[Passed]) -> bool
    ensures { result ≡ has_attribute source.now name.now passed.now }
{
    passed
        .iter()
        .any(|one| defines_attribute(source, name, *one))
}

/// The network's protocol, unless the source defines that attribute.
fn protocol(text: &mut Vec<u8>, source: &[u8], passed: &[Passed]) -> Result<(), AllocError>
    ensures { OnOk result (text.new.items
        ≡ text.old.items ++ (if has_attribute source.now (codes "\"ProtocolType\"") passed.now
        then [] else protocol_statements)) }
{
    if has_attribute(source, b"\"ProtocolType\"", passed) {
        return Ok(());
    }
    text.extend_from_slice(b"BA_DEF_ \"ProtocolType\" STRING ;\n")?;
    text.extend_from_slice(b"BA_DEF_DEF_ \"ProtocolType\" \"\";\n")?;
    text.extend_from_slice(b"BA_ \"ProtocolType\" \"J1939\";\n")?;
    Ok(())
}

/// Whether the DBC number is that of a message with 29 bits.
fn is_extended(number: u32) -> bool
    ensures { result ≡ nat_le extended_flag number }
{
    number >= 0x8000_0000
}

/// The number in decimal digits.
fn decimal(text: &mut Vec<u8>, number: u32) -> Result<(), AllocError>
    ensures { OnOk result (text.new.items ≡ text.old.items ++ decimal number) }
{
    text.extend_from_slice(Buffer::new().format(number).as_bytes())?;
    Ok(())
}

/// The format of a message with 29 bits.
fn format_value(text: &mut Vec<u8>, message: &Message) -> Result<(), AllocError>
    ensures { OnOk result (text.new.items ≡ text.old.items ++ format_value message.now) }
{
    let number = message.number();
    if !is_extended(number) {
        return Ok(());
    }
    text.extend_from_slice(b"BA_ \"VFrameFormat\" BO_ ")?;
    decimal(text, number)?;
    text.extend_from_slice(b" 3;\n")?;
    Ok(())
}

/// The formats of all messages with 29 bits.
fn format_values(text: &mut Vec<u8>, messages: &[Message]) -> Result<(), AllocError>
    ensures { OnOk result (text.new.items ≡ text.old.items ++ flat_map format_value messages.now) }
{
    for message in messages {
        format_value(text, message)?;
    }
    Ok(())
}

/// The format of messages, unless the source defines that attribute.
fn format(
    text: &mut Vec<u8>,
    source: &[u8],
    passed: &[Passed],
    sheet: &Sheet,
) -> Result<(), AllocError>
    ensures { OnOk result (text.new.items
        ≡ text.old.items ++ (if has_attribute source.now (codes "\"VFrameFormat\"") passed.now
        then [] else format_statements sheet.now)) }
{
    if has_attribute(source, b"\"VFrameFormat\"", passed) {
        return Ok(());
    }
    text.extend_from_slice(
        b"BA_DEF_ BO_ \"VFrameFormat\" ENUM \"StandardCAN\",\"ExtendedCAN\",\"reserved\",\"J1939PG\";\n",
    )?;
    text.extend_from_slice(b"BA_DEF_DEF_ \"VFrameFormat\" \"StandardCAN\";\n")?;
    format_values(text, sheet.messages())?;
    Ok(())
}

/// The statements by which other tools take the sheet's 29-bit messages as messages of SAE J1939: the attributes
/// `ProtocolType` and `VFrameFormat`, each unless one of the text's skipped statements defines it. The text comes after
/// them.
fn with_statements(
    alloc: Global,
    text: &[u8],
    passed: &[Passed],
    sheet: &Sheet,
) -> Result<Vec<u8>, AllocError>
    ensures { IfOk result (λ joined. joined.items ≡ j1939_text sheet.now text.now passed.now
        ++ text.now) }
{
    let mut joined = Vec::new(alloc);
    protocol(&mut joined, text, passed)?;
    format(&mut joined, text, passed, sheet)?;
    joined.extend_from_slice(text)?;
    Ok(joined)
}

/// The text of the sheet with the attributes by which other tools take its 29-bit messages as messages of SAE J1939:
/// `ProtocolType` and `VFrameFormat`, each unless a statement that was skipped of `text` defines it. What was skipped
/// of `text` stays as in [`text_with_staying`]. A fault other than out of memory comes only if the text reads as no
/// sheet, or no longer with these statements before it.
pub fn text_with_j1939(alloc: Global, text: &[u8], sheet: &Sheet) -> Result<Vec<u8>, ReadFault>
    ensures reads { IfOk result (λ made. ReadsOnlyAs made.items sheet.now) }
    ensures stay { IfOk result (λ made. KeepsJ1939 text.now made.items sheet.now) }
    ensures none { IfErr result (λ fault. UnlessMemory fault.code (IsUnreadable text.now sheet.now)) }
{
    let reading = read(alloc, text)?;
    let joined = with_statements(alloc, text, reading.passed.as_slice(), sheet)?;
    let again = read(alloc, &joined)?;
    let (made, _others) = text_with_staying(alloc, &joined, &again, sheet)?;
    Ok(made)
}
