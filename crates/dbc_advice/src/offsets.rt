//! Where messages and signals are in a text that reads.
ghost use Rattle.std.specs.Prelude.{◌≤◌, length};

use base::whole_number;
use dbc_grammar::TokenKind;
use dbc_lex::{Lexer, Token};
use dbc_words::Keyword;
use std::alloc::{AllocError, Global};

/// Where a message is.
#[derive(Clone, Copy)]
pub(crate) struct Heading {
    /// Its DBC number.
    pub number: u32,
    /// The offset of that.
    pub at: usize,
}

/// What of a heading has come so far.
#[derive(Clone, Copy)]
enum Seen {
    /// Nothing.
    Nothing,
    /// `BO_`.
    Keyword,
    /// `BO_` and the number.
    Number(Heading),
    /// `BO_`, the number and the name.
    Name(Heading),
}

/// What has come of a heading after this token too.
fn seen_after(seen: Seen, token: &Token) -> Seen {
    if token.text == Keyword::Message.text().as_bytes() {
        return Seen::Keyword;
    }
    match seen {
        Seen::Keyword => match whole_number(token.text) {
            Some(number) => Seen::Number(Heading {
                number,
                at: token.start,
            }),
            None => Seen::Nothing,
        },
        Seen::Number(heading) if token.kind == TokenKind::Name => Seen::Name(heading),
        _ => Seen::Nothing,
    }
}

/// The headings of messages in the text: `BO_`, a number, a name and a colon. The error is out of memory.
pub(crate) fn headings(alloc: Global, text: &[u8]) -> Result<Vec<Heading>, AllocError> {
    let mut headings = Vec::new(alloc);
    let mut seen = Seen::Nothing;
    let mut lexer = Lexer::of(text);
    for _ in 0..text.len() {
        let token = match lexer.next_token() {
            Ok(Some(token)) => token,
            _ => return Ok(headings),
        };
        match seen {
            Seen::Name(heading) if token.text == b":".as_slice() => headings.push(heading)?,
            _ => {}
        }
        seen = seen_after(seen, &token);
    }
    Ok(headings)
}

/// The offset of the message's number, or 0 if none of the headings has it.
pub(crate) fn message_offset(headings: &[Heading], number: u32) -> usize {
    match headings.iter().find(|heading| heading.number == number) {
        Some(heading) => heading.at,
        None => 0,
    }
}

/// The offset of the name of the first signal of the name after the offset, or the offset itself if there is none.
pub(crate) fn signal_offset(text: &[u8], from: usize, name: &[u8]) -> usize
    requires { from ≤ length text.now }
    ensures { result ≤ length text.now }
{
    let mut signal = false;
    let mut lexer = Lexer::at(text, from);
    for _ in 0..text.len() {
        let token = match lexer.next_token() {
            Ok(Some(token)) => token,
            _ => return from,
        };
        if signal && token.text == name {
            return token.start.min(text.len());
        }
        signal = token.text == Keyword::Signal.text().as_bytes();
    }
    from
}
