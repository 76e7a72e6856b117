//! Bytes as words of a line.
ghost use Rattle.std.specs.Prelude.{◌≡◌, ◌++◌, IfOk, OnOk};
ghost use Rattle.columns.specs.Word.{escape, escaped, is_plain, later_words, rest, shown, shown_byte, word, words};

use crate::padding::filled;
use crate::texts::concat;
use base::{Checked, Rule};
use std::alloc::{AllocError, Global};

/// Where bytes are shown.
#[derive(Clone, Copy, PartialEq, Eq)]
enum Column {
    /// In a column, or as an item of a list with commas.
    Word,
    /// In the last column, up to the end of the line.
    Rest,
}

/// Whether the byte is shown as it is.
fn is_plain(column: Column, byte: u8) -> bool
    ensures { result ≡ is_plain column byte }
{
    match column {
        Column::Word => 33 <= byte && byte <= 126 && byte != b'%' && byte != b',',
        Column::Rest => 32 <= byte && byte <= 126 && byte != b'%',
    }
}

/// A percent sign and the byte in two lower case hexadecimal digits.
fn escape(alloc: Global, byte: u8) -> Result<Vec<u8>, AllocError>
    ensures { IfOk result (λ text. text.items ≡ escape byte) }
{
    let digits = format!(in alloc; "{byte:x}")?;
    let padded = filled(alloc, b'0', 2, digits.as_bytes())?;
    concat(alloc, &[b"%", &padded])
}

/// Appends the byte, escaped where it isn't shown as it is.
fn push_byte(alloc: Global, column: Column, text: &mut Vec<u8>, byte: u8) -> Result<(), AllocError>
    ensures { OnOk result (text.new.items ≡ text.old.items ++ shown_byte column byte) }
{
    if is_plain(column, byte) {
        text.push(byte)?;
    } else {
        let escape = escape(alloc, byte)?;
        text.extend_from_slice(&escape)?;
    }
    Ok(())
}

fn escaped(alloc: Global, column: Column, bytes: &[u8]) -> Result<Vec<u8>, AllocError>
    ensures { IfOk result (λ text. text.items ≡ escaped column bytes.now) }
{
    let mut text = Vec::new(alloc);
    for byte in bytes {
        push_byte(alloc, column, &mut text, *byte)?;
    }
    Ok(text)
}

fn shown(alloc: Global, column: Column, bytes: &[u8]) -> Result<Vec<u8>, AllocError>
    ensures { IfOk result (λ text. text.items ≡ shown column bytes.now) }
{
    if bytes.is_empty() {
        return Vec::from_slice(alloc, b"-");
    }
    if bytes == b"-".as_slice() {
        return Vec::from_slice(alloc, b"%2d");
    }
    escaped(alloc, column, bytes)
}

/// The bytes as a word of a line: a column, or an item of a list with commas. Nothing is `-`, a lone `-` is `%2d`, and
/// each byte that isn't visible ASCII, each `%` and each `,` is `%` and two lower case hexadecimal digits. The error is
/// out of memory.
pub fn word(alloc: Global, bytes: &[u8]) -> Result<Vec<u8>, AllocError>
    ensures { IfOk result (λ text. text.items ≡ word bytes.now) }
{
    shown(alloc, Column::Word, bytes)
}

/// The bytes as the last column of a line, in which spaces and commas stay. The error is out of memory.
pub fn rest(alloc: Global, bytes: &[u8]) -> Result<Vec<u8>, AllocError>
    ensures { IfOk result (λ text. text.items ≡ rest bytes.now) }
{
    shown(alloc, Column::Rest, bytes)
}

/// The words of the texts, each after a comma.
fn later_words<R: Rule>(alloc: Global, texts: &[Checked<R>]) -> Result<Vec<u8>, AllocError>
    ensures { IfOk result (λ text. text.items ≡ later_words texts.now) }
{
    let mut text = Vec::new(alloc);
    for bytes in texts {
        let one = word(alloc, bytes.as_bytes())?;
        text.push(b',')?;
        text.extend_from_slice(&one)?;
    }
    Ok(text)
}

/// The texts as words with commas between; `-` for none. The error is out of memory.
pub fn words<R: Rule>(alloc: Global, texts: &[Checked<R>]) -> Result<Vec<u8>, AllocError>
    ensures { IfOk result (λ text. text.items ≡ words texts.now) }
{
    match texts {
        [] => Vec::from_slice(alloc, b"-"),
        [first, others @ ..] => {
            let first = word(alloc, first.as_bytes())?;
            let later = later_words(alloc, others)?;
            concat(alloc, &[&first, &later])
        }
    }
}
