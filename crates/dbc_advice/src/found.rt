//! What is found at the offset of a fault.
ghost use Rattle.std.specs.Prelude.{◌≡◌, ◌≤◌, IfOk, drop, length, map};
ghost use Rattle.dbc_grammar.specs.Lexing.{lexed};
ghost use Rattle.dbc_advice.specs.Sentence.{found_text, quoted, shown, visible};
ghost use Rattle.dbc_advice.specs.Tokens.{IsFound};

use columns::concat;
use dbc_lex::{Lexer, ReadCode};
use std::alloc::{AllocError, Global};

/// What is at the offset of a fault.
#[derive(Clone, Copy)]
pub(crate) enum Found<'a> {
    /// The text ends there.
    End,
    /// The opening quote of a text that isn't closed.
    Quote,
    /// A token.
    Token(&'a [u8]),
    /// A byte with which no token begins.
    Byte(u8),
}

/// How many bytes of a token are shown.
const SHOWN: usize = 40;

/// A byte as it is shown.
fn visible(byte: u8) -> u8
    ensures { result ≡ visible byte }
{
    if (32..=126).contains(&byte) {
        byte
    } else {
        b'?'
    }
}

/// The bytes as one line shows them: a question mark for each that isn't printable ASCII. The error is out of memory.
pub fn visible_bytes(alloc: Global, bytes: &[u8]) -> Result<Vec<u8>, AllocError>
    ensures { IfOk result (λ text. text.items ≡ map visible bytes.now) }
{
    bytes.iter().map(|byte| visible(*byte)).collect(alloc)
}

/// The bytes, as they are shown, or the first of them.
fn shown(alloc: Global, bytes: &[u8]) -> Result<Vec<u8>, AllocError>
    ensures { IfOk result (λ text. text.items ≡ shown bytes.now) }
{
    if bytes.len() > SHOWN {
        let (first, _) = bytes.split_at(SHOWN);
        let text = visible_bytes(alloc, first)?;
        concat(alloc, &[&text, b".."])
    } else {
        visible_bytes(alloc, bytes)
    }
}

/// The bytes in single quotes, at most 40 of them, and a question mark for each that isn't printable ASCII. The error
/// is out of memory.
pub fn quoted(alloc: Global, bytes: &[u8]) -> Result<Vec<u8>, AllocError>
    ensures { IfOk result (λ text. text.items ≡ quoted bytes.now) }
{
    let text = shown(alloc, bytes)?;
    concat(alloc, &[b"'", &text, b"'"])
}

/// How a sentence says it.
pub(crate) fn found_text(alloc: Global, found: Found) -> Result<Vec<u8>, AllocError>
    ensures { IfOk result (λ text. text.items ≡ found_text found.entry) }
{
    match found {
        Found::End => Vec::from_slice(alloc, b"the end of the file"),
        Found::Quote => Vec::from_slice(alloc, b"a quote"),
        Found::Token(bytes) => quoted(alloc, bytes),
        Found::Byte(byte @ 33..=126) => quoted(alloc, &[byte]),
        Found::Byte(byte) => {
            let text = format!(in alloc; "the byte {byte}")?;
            Ok(text.into_bytes())
        }
    }
}

/// What is at the offset of the text: its next token from there on, or why there is none.
pub(crate) fn found_at(text: &[u8], at: usize) -> Found<'_>
    requires { at ≤ length text.now }
    ensures { IsFound text.now (lexed at (drop at text.now)) result }
{
    match Lexer::at(text, at).next_token() {
        Ok(Some(token)) => Found::Token(token.text),
        Ok(None) => Found::End,
        Err(fault) => match fault.code {
            ReadCode::StrayByte => Found::Byte(text.get(fault.at).copied().unwrap_or(0)),
            _ => Found::Quote,
        },
    }
}
