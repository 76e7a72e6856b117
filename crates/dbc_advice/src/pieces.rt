//! Pieces of a text, read by themselves.
ghost use Rattle.std.specs.Prelude.{◌≡◌, IfOk};
ghost use Rattle.dbc_words.specs.declared.keyword.Keyword.TheVariants.{Signal};
ghost use Rattle.dbc_grammar.specs.Fields.{is_key, key_of};
ghost use Rattle.dbc_grammar.specs.Lexing.{lexed};
ghost use Rattle.dbc_grammar.specs.Rules.{starts};
ghost use Rattle.dbc_advice.specs.GoesOn.{IsGoingOn};
ghost use Rattle.dbc_advice.specs.Pieces.{alone, heading};
ghost use Rattle.dbc_advice.specs.Tokens.{line_keyword};
ghost use Rattle.dbc_lex.specs.Token.{token_of};

use columns::concat;
use dbc_grammar::TokenKind;
use dbc_lex::{Lexer, ReadCode, Token};
use dbc_read::read;
use dbc_words::Keyword;
use std::alloc::{AllocError, Global};

/// The heading of a message, which makes a signal's line a text of its own.
const HEADING: &[u8] = b"BO_ 0 Message: 1785 Vector__XXX\n";

/// Whether the text reads as a sheet, or is only ended too early. The error is out of memory.
pub(crate) fn goes_on(alloc: Global, text: &[u8]) -> Result<bool, AllocError>
    ensures { IfOk result (IsGoingOn text.now) }
{
    match read(alloc, text) {
        Ok(_reading) => Ok(true),
        Err(fault) => match fault.code {
            ReadCode::Memory => Err(AllocError),
            _ => {
                if fault.at < text.len() {
                    Ok(false)
                } else {
                    Ok(true)
                }
            }
        },
    }
}

/// Whether the text reads as a sheet. The error is out of memory.
pub(crate) fn reads(alloc: Global, text: &[u8]) -> Result<bool, AllocError> {
    match read(alloc, text) {
        Ok(_) => Ok(true),
        Err(fault) => match fault.code {
            ReadCode::Memory => Err(AllocError),
            _ => Ok(false),
        },
    }
}

/// Whether the text begins with a signal.
fn begins_signal(text: &[u8]) -> bool
    ensures { result ≡ starts (is_key Signal) (lexed 0 text.now).tokens }
{
    match Lexer::of(text).next_token() {
        Ok(Some(token)) => {
            matches!(token.kind, TokenKind::Name) && token.text == Keyword::Signal.text().as_bytes()
        }
        _ => false,
    }
}

/// The piece, with the heading of a message before it where it begins with a signal. The error is out of memory.
#[tactic(auto, unfolding(crate::specs::Pieces::alone))]
pub(crate) fn alone(alloc: Global, piece: &[u8]) -> Result<Vec<u8>, AllocError>
    ensures { IfOk result (λ text. text.items ≡ alone piece.now) }
{
    if begins_signal(piece) {
        concat(alloc, &[HEADING, piece])
    } else {
        Vec::from_slice(alloc, piece)
    }
}

/// The keyword that the token is.
fn key_of(token: &Token) -> Option<Keyword>
    ensures { result ≡ key_of (token_of token.now) }
{
    match token.kind {
        TokenKind::Name => Keyword::of(token.text),
        _ => None,
    }
}

/// The keyword that begins the line, where more follows on it. A statement begins there, or a signal of one; a keyword
/// that is alone on its line is one of a list of new symbols.
pub(crate) fn line_keyword(line: &[u8]) -> Option<Keyword>
    ensures { result ≡ line_keyword line.now }
{
    let mut lexer = Lexer::of(line);
    let keyword = match lexer.next_token() {
        Ok(Some(token)) => key_of(&token)?,
        _ => return None,
    };
    match lexer.next_token() {
        Ok(None) => None,
        _ => Some(keyword),
    }
}

/// Whether the bytes are only gaps.
pub(crate) fn is_gap(bytes: &[u8]) -> bool {
    match Lexer::of(bytes).next_token() {
        Ok(None) => true,
        _ => false,
    }
}
