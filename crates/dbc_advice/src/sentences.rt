//! What is stated of a fault: one sentence, and a line with it.
ghost use Rattle.std.specs.Prelude.{◌≡◌, IfOk};
ghost use Rattle.dbc_advice.specs.Sentence.{hinted, listed, meaning_of, plain_meaning, sentence_of, statement_text};
ghost use Rattle.dbc_advice.specs.Sentence.{wanted_text};
ghost use Rattle.dbc_advice.specs.ReportedLine.{code_label, more_line, reported_line};

use crate::candidate::Candidate;
use crate::found::{Found, found_text};
use crate::hint::{Hint, hint_text};
use crate::position::Position;
use columns::concat;
use dbc_lex::ReadCode;
use dbc_words::Keyword;
use std::alloc::{AllocError, Global};

/// A list in words: `a`, `a or b`, `a, b or c`.
fn listed(alloc: Global, wanted: &[Candidate]) -> Result<Vec<u8>, AllocError>
    ensures { IfOk result (λ text. text.items ≡ listed wanted.now) }
{
    match wanted {
        [] => Ok(Vec::new(alloc)),
        [a] => Vec::from_slice(alloc, a.phrase().as_bytes()),
        [a, b] => concat(
            alloc,
            &[a.phrase().as_bytes(), b" or ", b.phrase().as_bytes()],
        ),
        [a, rest @ ..] => {
            let others = listed(alloc, rest)?;
            concat(alloc, &[a.phrase().as_bytes(), b", ", &others])
        }
    }
}

/// What may be there, after what was found.
fn wanted_text(alloc: Global, wanted: &[Candidate]) -> Result<Vec<u8>, AllocError>
    ensures { IfOk result (λ text. text.items ≡ wanted_text wanted.now) }
{
    if wanted.is_empty() {
        return Vec::from_slice(alloc, plain_meaning(ReadCode::Unexpected).as_bytes());
    }
    let mut text = Vec::from_slice(alloc, b", ")?;
    text.extend_from_slice(&listed(alloc, wanted)?)?;
    text.extend_from_slice(b" is wanted here")?;
    Ok(text)
}

/// What a code means, after what was found.
fn plain_meaning(code: ReadCode) -> &'static str
    ensures { result.now ≡ plain_meaning code }
{
    match code {
        ReadCode::DoubleNumber => {
            ", the number of an earlier message too: give one of them another number"
        }
        ReadCode::DoubleName => ", the name of an earlier one too: rename one of them",
        ReadCode::TwoMultiplexors => {
            ", but the message has a multiplexor already: mark only one signal with M"
        }
        ReadCode::TooMany => ", one more than a sheet may have (README.md): split the file",
        ReadCode::UnclosedText => ", and no other quote closes the text that it opens",
        ReadCode::StrayByte => ", with which no name, number, text or mark begins",
        ReadCode::Unexpected => ", which can't come here",
        ReadCode::UnknownStatement => ", but a statement begins with a keyword",
        ReadCode::ExtendedMultiplexing => {
            ", but extended multiplexing can't be read: use M and m0, not m0M"
        }
        ReadCode::Number => {
            ", out of range: at most 36 digits, powers of ten -400 to 400; a type is 0 to 2, m is m0 to m4294967295"
        }
        ReadCode::Identifier => ", no message's number: 0 to 2047, or 2147483648 more than 29 bits",
        ReadCode::Name => ", which can't be a name here: a keyword, Vector__XXX or over 128 bytes",
        ReadCode::Length => ", but a length is 0 to 1785 bytes: take out messages that are longer",
        ReadCode::Size => {
            ", but a start is 0 to 65535, and a size 1 to 64 bits: split a longer signal"
        }
        ReadCode::Memory => ", and memory ran out",
    }
}

/// What the code means, with what may be there where a token is unexpected.
fn meaning_of(alloc: Global, wanted: &[Candidate], code: ReadCode) -> Result<Vec<u8>, AllocError>
    ensures { IfOk result (λ text. text.items ≡ meaning_of wanted.now code) }
{
    match code {
        ReadCode::Unexpected => wanted_text(alloc, wanted),
        _ => Vec::from_slice(alloc, plain_meaning(code).as_bytes()),
    }
}

/// The statement, in parentheses.
fn statement_text(alloc: Global, statement: Option<Keyword>) -> Result<Vec<u8>, AllocError>
    ensures { IfOk result (λ text. text.items ≡ statement_text statement) }
{
    match statement {
        None => Ok(Vec::new(alloc)),
        Some(keyword) => {
            let text = format!(in alloc; " (in {})", keyword.text())?;
            Ok(text.into_bytes())
        }
    }
}

/// What is plain to do, if anything is.
fn hinted(alloc: Global, hint: Option<Hint>) -> Result<Vec<u8>, AllocError>
    ensures { IfOk result (λ text. text.items ≡ hinted hint) }
{
    match hint {
        None => Ok(Vec::new(alloc)),
        Some(hint) => {
            let text = hint_text(alloc, hint)?;
            Ok(text.into_bytes())
        }
    }
}

/// What is stated of a fault of this code: what was found, what that means or what may be there, the statement, and
/// what is plain to do. The error is out of memory.
pub(crate) fn sentence(
    alloc: Global,
    code: ReadCode,
    found: Found,
    wanted: &[Candidate],
    statement: Option<Keyword>,
    hint: Option<Hint>,
) -> Result<Vec<u8>, AllocError>
    ensures { IfOk result (λ text. text.items ≡ sentence_of code found.entry wanted.now statement
        hint) }
{
    let found = found_text(alloc, found)?;
    let meaning = meaning_of(alloc, wanted, code)?;
    let place = statement_text(alloc, statement)?;
    let advice = hinted(alloc, hint)?;
    concat(alloc, &[b"found ", &found, &meaning, &place, &advice])
}

/// The label of a code: its number and its name.
pub(crate) fn code_label(alloc: Global, number: u8, name: &str) -> Result<Vec<u8>, AllocError>
    ensures { IfOk result (λ text. text.items ≡ code_label number name.now) }
{
    let text = format!(in alloc; "{number} {name}")?;
    Ok(text.into_bytes())
}

/// The line `FILE:LINE:COLUMN: LABEL: sentence`, with its LF. The error is out of memory.
pub fn reported_line(
    alloc: Global,
    file: &[u8],
    position: Position,
    label: &[u8],
    sentence: &[u8],
) -> Result<Vec<u8>, AllocError>
    ensures { IfOk result (λ line. line.items ≡ reported_line file.now position label.now
        sentence.now) }
{
    let Position { line, column } = position;
    let file = Vec::from_slice(alloc, file)?;
    let place = format!(in alloc; ":{line}:{column}: ")?;
    concat(
        alloc,
        &[&file, place.as_bytes(), label, b": ", sentence, b"\n"],
    )
}

/// The line `FILE: LIMIT WHAT shown; there are more`, with its LF.
pub(crate) fn more_line(
    alloc: Global,
    file: &[u8],
    limit: usize,
    what: &str,
) -> Result<Vec<u8>, AllocError>
    ensures { IfOk result (λ line. line.items ≡ more_line file.now limit what.now) }
{
    let words = format!(in alloc; ": {limit} {what} shown; there are more\n")?;
    concat(alloc, &[file, words.as_bytes()])
}
