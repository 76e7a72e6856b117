//! Where names are in a file.
ghost use Rattle.std.specs.Prelude.{◌≡◌, drop};
ghost use Rattle.dbc_lint.specs.Tokens.{GivesToken};
ghost use Rattle.dbc_lint.specs.OfFile.{at_signal, from_word, start_of};

use dbc_lex::{Lexer, Token};
use dbc_words::Keyword;

/// The next token, if there is one.
fn next<'a>(lexer: &mut Lexer<'a>) -> Option<Token<'a>>
    ensures { GivesToken lexer.old.tokens result lexer.new.tokens }
{
    match lexer.next_token() {
        Ok(token) => token,
        Err(_) => None,
    }
}

/// Takes the next token, and returns its offset; 0 if there is none.
fn next_start(lexer: &mut Lexer) -> usize
    ensures start { result ≡ start_of lexer.old.tokens }
    ensures rest { lexer.new.tokens ≡ drop 1 lexer.old.tokens }
{
    match next(lexer) {
        Some(token) => token.start,
        None => 0,
    }
}

/// Takes the tokens up to the first one of these bytes, and that one too, and returns its offset; 0 if there is none.
pub(crate) fn word_start(lexer: &mut Lexer, word: &[u8]) -> usize
    ensures start { result ≡ start_of (from_word word.now lexer.old.tokens) }
    ensures rest { lexer.new.tokens ≡ drop 1 (from_word word.now lexer.old.tokens) }
{
    'tokens: while let Some(token) = next(lexer) {
        if token.text == word {
            return token.start;
        }
    }
    0
}

/// Takes the tokens up to the next `SG_`, and the name of the signal after it, and returns its offset; 0 if there is
/// none.
pub(crate) fn signal_start(lexer: &mut Lexer) -> usize
    ensures start { result ≡ start_of (at_signal lexer.old.tokens) }
    ensures rest { lexer.new.tokens ≡ drop 1 (at_signal lexer.old.tokens) }
{
    word_start(lexer, Keyword::Signal.text().as_bytes());
    next_start(lexer)
}
