//! Which lines a fault is about.
//!
//! A statement is taken to begin on each line that begins with a keyword and has more than that, and to go on up to the
//! next such line. So one mistake costs the lines of one statement, and of a message's heading its signals too, even
//! where a text isn't closed.
ghost use Rattle.std.specs.Prelude.{◌≡◌, ◌≤◌, ◌<◌, IfOk, IfSome, length};
ghost use Rattle.dbc_advice.specs.FaultyLines.{AreLines};
ghost use Rattle.dbc_advice.specs.Tokens.{keyword_at};

use crate::lines::{line_end, line_start};
use crate::pieces::{alone, goes_on, is_gap, line_keyword, reads};
use dbc_grammar::TokenKind;
use dbc_lex::{Lexer, ReadCode, ReadFault};
use dbc_words::Keyword;
use std::alloc::{AllocError, Global};

/// Lines of a text.
#[derive(Clone, Copy)]
pub(crate) struct Lines {
    /// An offset in the first of them.
    pub first: usize,
    /// An offset in the last of them.
    pub last: usize,
}

/// The keyword that begins the line of the offset, where more follows on it.
pub(crate) fn keyword_at(text: &[u8], at: usize) -> Option<Keyword>
    requires { at ≤ length text.now }
    ensures { result ≡ keyword_at text.now at }
{
    line_keyword(&text[line_start(text, at)..line_end(text, at)])
}

/// Where the statement of the offset begins: the start of the last line up to it that begins with a keyword, or else 0.
fn statement_start(text: &[u8], at: usize) -> usize
    requires { at ≤ length text.now }
    ensures { result ≤ at }
{
    let mut start = line_start(text, at);
    while start > 0 && keyword_at(text, start).is_none() {
        start = line_start(text, start - 1);
    }
    start
}

/// Whether a line with this keyword belongs to the statement before it.
fn belongs(keyword: Option<Keyword>, with_signals: bool) -> bool {
    match keyword {
        None => true,
        Some(Keyword::Signal) => with_signals,
        Some(_) => false,
    }
}

/// The end of the last line of the statement, with the lines of the signals after it or without.
fn statement_end(text: &[u8], at: usize, with_signals: bool) -> usize
    requires { at ≤ length text.now }
    ensures least { at ≤ result }
    ensures most { result ≤ length text.now }
{
    let mut end = line_end(text, at);
    while end < text.len() && belongs(keyword_at(text, end + 1), with_signals) {
        end = line_end(text, end + 1);
    }
    end
}

/// The start of the first line between the offsets that begins with a keyword.
fn keyword_line_between(text: &[u8], start: usize, end: usize) -> Option<usize>
    requires { start ≤ length text.now }
    ensures { IfSome result (λ line. (start < line) × (line ≤ length text.now)) }
{
    // Ends of lines are looked for up to `end` alone: a line of many texts would else be walked to its end for each.
    let (front, _) = text.split_at(end.min(text.len()).max(start));
    let mut before = line_end(front, start);
    while before + 1 < front.len() {
        let line = before + 1;
        if keyword_at(text, line).is_some() {
            return Some(line);
        }
        before = line_end(front, line);
    }
    None
}

/// A text in quotes that goes on over a line that begins with a keyword: its closing quote is likely missing.
#[derive(Clone, Copy)]
struct Runaway {
    /// The offset of its opening quote.
    quote: usize,
    /// The start of that line.
    line: usize,
    /// The offset of its end.
    end: usize,
}

/// Whether a fault of the code, in the statement that begins at `statement`, may come of this text: no quote closes
/// some text, or the text ends in that statement.
fn concerns(text: &[u8], runaway: &Runaway, code: ReadCode, statement: usize) -> bool
    requires { runaway.now.end ≤ length text.now }
{
    match code {
        ReadCode::UnclosedText => true,
        _ => statement_start(text, runaway.end) == statement,
    }
}

/// The first text in quotes before the fault that runs over a line which begins with a keyword, if the fault may come
/// of it.
fn runaway_before(text: &[u8], fault: ReadFault) -> Option<Runaway>
    requires { fault.at ≤ length text.now }
    ensures before { IfSome result (λ r. r.quote ≤ fault.at) }
    ensures line { IfSome result (λ r. r.quote < r.line) }
    ensures within { IfSome result (λ r. r.line ≤ length text.now) }
{
    let statement = statement_start(text, fault.at);
    let mut lexer = Lexer::of(text);
    for _ in 0..text.len() {
        let token = match lexer.next_token() {
            Ok(Some(token)) if token.start < fault.at => token,
            _ => return None,
        };
        if token.kind == TokenKind::Text {
            let quote = token.start.min(text.len());
            let end = token.end.min(text.len());
            match keyword_line_between(text, quote, end) {
                Some(line) => {
                    let runaway = Runaway { quote, line, end };
                    if concerns(text, &runaway, fault.code, statement) {
                        return Some(runaway);
                    }
                }
                None => {}
            }
        }
    }
    None
}

/// Whether the lines from `start` up to the line of the offset `at` read by themselves, and nothing of that line comes
/// before it, unless the text ends there: then the line is one that was cut off.
fn begins_anew(alloc: Global, text: &[u8], start: usize, at: usize) -> Result<bool, AllocError>
    requires { at ≤ length text.now }
{
    let line = line_start(text, at);
    if start >= line || at < text.len() && !is_gap(&text[line..at]) {
        return Ok(false);
    }
    reads(alloc, &alone(alloc, &text[start..line])?)
}

/// Where the statement begins that the fault is in.
fn faulty_start(alloc: Global, text: &[u8], fault: ReadFault) -> Result<usize, AllocError>
    requires { fault.at ≤ length text.now }
    ensures { IfOk result (λ start. start ≤ fault.at) }
{
    let line = line_start(text, fault.at);
    let start = statement_start(text, fault.at);
    let anew = match fault.code {
        ReadCode::UnknownStatement => true,
        _ => begins_anew(alloc, text, start, fault.at)?,
    };
    if anew { Ok(line) } else { Ok(start) }
}

/// The offset of the end of the token at the offset.
fn token_end(text: &[u8], at: usize) -> usize
    requires { at ≤ length text.now }
    ensures least { at ≤ result }
    ensures most { result ≤ length text.now }
{
    match Lexer::at(text, at).next_token() {
        Ok(Some(token)) => token.end.min(text.len()).max(at),
        _ => at,
    }
}

/// Whether the statement that begins at `start` could go on after the token at the offset `at`, if it came after
/// another one. At the end of the text it couldn't, unless it is finished: else it is the one that was cut off.
fn fits_elsewhere(
    alloc: Global,
    text: &[u8],
    start: usize,
    fault: ReadFault,
) -> Result<bool, AllocError>
    requires ordered { start ≤ fault.at }
    requires within { fault.at ≤ length text.now }
{
    match fault.code {
        ReadCode::Unexpected | ReadCode::Name => {
            let piece = alone(alloc, &text[start..token_end(text, fault.at)])?;
            if fault.at < text.len() {
                goes_on(alloc, &piece)
            } else {
                reads(alloc, &piece)
            }
        }
        _ => Ok(false),
    }
}

/// The lines of the statement before, if the fault only shows that it was left unfinished.
fn unfinished_lines(
    alloc: Global,
    text: &[u8],
    start: usize,
    fault: ReadFault,
) -> Result<Option<Lines>, AllocError>
    requires ordered { start ≤ fault.at }
    requires within { fault.at ≤ length text.now }
    ensures { IfOk result (λ lines. IfSome lines (AreLines text.now fault.at)) }
{
    if start == 0 || !fits_elsewhere(alloc, text, start, fault)? {
        return Ok(None);
    }
    let before = statement_start(text, start - 1);
    let signal = keyword_at(text, start) == Some(Keyword::Signal);
    if signal && reads(alloc, &alone(alloc, &text[before..start])?)? {
        return Ok(None);
    }
    let message = keyword_at(text, before) == Some(Keyword::Message);
    let last = if message {
        statement_end(text, before, true)
    } else {
        start - 1
    };
    Ok(Some(Lines {
        first: before,
        last,
    }))
}

/// Whether the fault is at the first token of the statement at `start`.
fn is_at_start(text: &[u8], start: usize, at: usize) -> bool
    requires ordered { start ≤ at }
    requires within { at ≤ length text.now }
{
    is_gap(&text[start..at])
}

/// The lines of the statement at `start`, in which the fault is. Of more than a sheet may have, all from there on.
fn own_lines(text: &[u8], start: usize, fault: ReadFault) -> Lines
    requires ordered { start ≤ fault.at }
    requires within { fault.at ≤ length text.now }
    ensures { AreLines text.now fault.at result }
{
    let keyword = keyword_at(text, start);
    let with_signals = match fault.code {
        ReadCode::UnknownStatement => true,
        ReadCode::Unexpected if is_at_start(text, start, fault.at) => {
            keyword == Some(Keyword::Signal) || keyword == Some(Keyword::Message)
        }
        _ => keyword == Some(Keyword::Message),
    };
    let last = match fault.code {
        ReadCode::TooMany => text.len(),
        _ => statement_end(text, fault.at, with_signals),
    };
    Lines { first: start, last }
}

/// The lines to blank for the fault of the text: those of its statement, or of the one before that was left unfinished,
/// or those from a text in quotes that seems not to be closed. The error is out of memory.
pub(crate) fn lines_at_fault(
    alloc: Global,
    text: &[u8],
    fault: ReadFault,
) -> Result<Lines, AllocError>
    requires { fault.at ≤ length text.now }
    ensures { IfOk result (AreLines text.now fault.at) }
{
    match runaway_before(text, fault) {
        Some(runaway) => {
            let first = statement_start(text, runaway.quote);
            let last = runaway.line - 1;
            return Ok(Lines { first, last });
        }
        None => {}
    }
    let start = faulty_start(alloc, text, fault)?;
    match unfinished_lines(alloc, text, start, fault)? {
        Some(lines) => Ok(lines),
        None => Ok(own_lines(text, start, fault)),
    }
}
