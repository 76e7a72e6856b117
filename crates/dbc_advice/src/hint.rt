//! What is plain to do about some faults.
ghost use Rattle.std.specs.Prelude.{◌≤◌, ◌≡◌, IfOk, length, string_bytes};
ghost use Rattle.dbc_advice.specs.Sentence.{hint_text};

use crate::faulty_lines::{Lines, keyword_at};
use crate::lines::line_end;
use crate::pieces::is_gap;
use crate::position::position_of;
use dbc_grammar::TokenKind;
use dbc_lex::{Lexer, ReadCode, ReadFault, Token};
use std::alloc::{AllocError, Global};

/// What is plain to do about a fault.
#[derive(Clone, Copy)]
pub(crate) enum Hint {
    /// The file begins with a byte order mark of UTF-8.
    ByteOrderMark,
    /// The file begins with a byte order mark of UTF-16.
    Utf16,
    /// A comment of C or C++.
    Comment,
    /// A hexadecimal number.
    Hexadecimal,
    /// A number that begins with its point.
    PointFirst,
    /// A signal that comes after no message.
    SignalAlone,
    /// The statement that begins on this line isn't finished.
    Unfinished(usize),
}

/// What the bytes at the offset of a stray byte look like.
fn stray_hint(rest: &[u8], at: usize) -> Option<Hint> {
    match rest {
        [0xEF, 0xBB, 0xBF, ..] if at == 0 => Some(Hint::ByteOrderMark),
        [0xFF, 0xFE, ..] | [0xFE, 0xFF, ..] if at == 0 => Some(Hint::Utf16),
        [b'/', b'/' | b'*', ..] => Some(Hint::Comment),
        [b'.', b'0'..=b'9', ..] => Some(Hint::PointFirst),
        _ => None,
    }
}

/// Whether the token goes on with the digits of a hexadecimal number.
fn is_hexadecimal_tail(token: &Token) -> bool {
    match token.text {
        [b'x' | b'X', ..] => token.kind == TokenKind::Name,
        _ => false,
    }
}

/// Whether a token up to the one at the offset `at` is a `0` with a name that begins with `x` right after it.
fn has_hexadecimal(text: &[u8], start: usize, at: usize) -> bool {
    let mut lexer = Lexer::at(text, start);
    let mut zero_end = None;
    for _ in 0..text.len() {
        let token = match lexer.next_token() {
            Ok(Some(token)) if token.start <= at => token,
            _ => return false,
        };
        if zero_end == Some(token.start) && is_hexadecimal_tail(&token) {
            return true;
        }
        zero_end = if token.text == b"0".as_slice() {
            Some(token.end)
        } else {
            None
        };
    }
    false
}

/// Whether a signal begins at the offset, and nothing of its lines comes before it.
fn is_signal_alone(text: &[u8], start: usize, at: usize) -> bool
    requires ordered { start ≤ at }
    requires within { at ≤ length text.now }
{
    match Lexer::at(text, at).next_token() {
        Ok(Some(token)) => is_gap(&text[start..at]) && token.text == b"SG_".as_slice(),
        _ => false,
    }
}

/// Whether the fault is only where a further line shows that the first of these lines begins a statement which isn't
/// finished: past them, or at the end of the text, or on a line that begins with a keyword.
fn is_unfinished(text: &[u8], at: usize, lines: Lines) -> bool
    requires ordered { lines.first ≤ lines.last }
    requires within { lines.last ≤ length text.now }
    requires at { at ≤ length text.now }
{
    line_end(text, lines.last) < at
        || line_end(text, lines.first) < at && (at == text.len() || keyword_at(text, at).is_some())
}

/// What is plain to do about the fault of the text, of which these lines are reported.
pub(crate) fn hint_for(text: &[u8], fault: ReadFault, lines: Lines) -> Option<Hint>
    requires ordered { lines.first ≤ lines.last }
    requires within { lines.last ≤ length text.now }
    requires at { fault.at ≤ length text.now }
{
    if is_unfinished(text, fault.at, lines) {
        return Some(Hint::Unfinished(position_of(text, lines.first).line));
    }
    match fault.code {
        ReadCode::StrayByte => stray_hint(&text[fault.at..], fault.at),
        ReadCode::Unexpected if has_hexadecimal(text, lines.first, fault.at) => {
            Some(Hint::Hexadecimal)
        }
        ReadCode::Unexpected
            if lines.first <= fault.at && is_signal_alone(text, lines.first, fault.at) => {
            Some(Hint::SignalAlone)
        }
        _ => None,
    }
}

/// What a sentence says of it.
pub(crate) fn hint_text(alloc: Global, hint: Hint) -> Result<String, AllocError>
    ensures { IfOk result (λ text. string_bytes text ≡ hint_text hint) }
{
    match hint {
        Hint::ByteOrderMark => {
            format!(in alloc;
                "; the file begins with a byte order mark: save it as UTF-8 without one"
            )
        }
        Hint::Utf16 => {
            format!(in alloc; "; the file is UTF-16: save it as UTF-8 without a byte order mark")
        }
        Hint::Comment => {
            format!(in alloc; "; a DBC file has no such comments: take it out, or write CM_")
        }
        Hint::Hexadecimal => { format!(in alloc; "; numbers are decimal, so write no 0x") }
        Hint::PointFirst => { format!(in alloc; "; write a digit before the point") }
        Hint::SignalAlone => {
            format!(in alloc; "; a signal comes after its message (BO_) or another signal of it")
        }
        Hint::Unfinished(line) => {
            format!(in alloc; "; the statement of line {line} isn't finished")
        }
    }
}
