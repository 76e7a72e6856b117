//! The bytes of skipped statements.
ghost use Rattle.std.specs.Prelude.{◌≡◌, ◌≤◌, length, slice_range};
ghost use Rattle.dbc_grammar.specs.Grammar as grammar;
ghost use Rattle.dbc_grammar.specs.Fields as fields;
ghost use Rattle.dbc_grammar.specs.declared.token.TokenKind.TheVariants.{Name};
ghost use Rattle.dbc_keep.specs.Finding.{bytes_of, found_in, last_end};
ghost use Rattle.dbc_keep_law.specs.Found.{before_next, others_of, to_mark};
ghost use Rattle.dbc_lex.specs.Token.{token_of};

use dbc_grammar::TokenKind;
use dbc_lex::{Lexer, Token};
use dbc_read::Passed;
use dbc_words::Keyword;

/// Whether the token is another one than the `;` that ends a statement.
pub(crate) fn is_open(token: &Token) -> bool
    ensures { result ≡ grammar.is_open (token_of token.now) }
{
    match token.kind {
        TokenKind::Mark => token.text != b";".as_slice(),
        _ => true,
    }
}

/// Whether the token is a name.
fn is_word(token: &Token) -> bool
    ensures { result ≡ fields.is_a Name (token_of token.now) }
{
    matches!(token.kind, TokenKind::Name)
}

/// Whether a statement begins with the token: it is a keyword other than `SG_`.
fn begins_next(token: &Token) -> bool
    ensures { result ≡ grammar.begins_next (token_of token.now) }
{
    is_word(token) && Keyword::of(token.text).is_some() && token.text != b"SG_".as_slice()
}

/// The end of the last token before the next with which a statement begins, or `start` if that is the first.
fn end_before_next(lexer: &mut Lexer, start: usize) -> usize
    ensures { result ≡ last_end start (before_next lexer.old.tokens) }
{
    let mut end = start;
    'tokens: loop {
        match lexer.next_token() {
            Ok(Some(token)) => {
                if begins_next(&token) {
                    return end;
                }
                end = token.end;
            }
            Ok(None) => return end,
            Err(_) => return end,
        }
    }
}

/// The end of the next `;`, or of the last token if there is none.
fn end_of_mark(lexer: &mut Lexer, start: usize) -> usize
    ensures { result ≡ last_end start (to_mark lexer.old.tokens) }
{
    let mut end = start;
    'tokens: loop {
        match lexer.next_token() {
            Ok(Some(token)) => {
                end = token.end;
                if !is_open(&token) {
                    return end;
                }
            }
            Ok(None) => return end,
            Err(_) => return end,
        }
    }
}

/// The end of the keyword's statement, of which the tokens after the keyword are left.
fn end_of(keyword: Keyword, lexer: &mut Lexer, start: usize) -> usize
    ensures { result ≡ last_end start (others_of keyword lexer.old.tokens) }
{
    match keyword {
        Keyword::Message => end_before_next(lexer, start),
        _ => end_of_mark(lexer, start),
    }
}

fn between<'a>(source: &'a [u8], start: usize, end: usize) -> &'a [u8]
    requires ordered { start ≤ end }
    requires within { end ≤ length source.now }
    ensures { result.now ≡ slice_range source.now start end }
{
    &source[start..end]
}

/// The statement's bytes, from its first token to its last.
pub(crate) fn passage<'a>(source: &'a [u8], one: Passed) -> &'a [u8]
    ensures { result.now ≡ bytes_of (found_in source.now one).line }
{
    let mut lexer = Lexer::at(source, one.at);
    match lexer.next_token() {
        Ok(Some(first)) => {
            let end = end_of(one.keyword, &mut lexer, first.end);
            between(source, first.start, end)
        }
        Ok(None) => &[],
        Err(_) => &[],
    }
}
