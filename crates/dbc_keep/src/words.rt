//! The words of skipped statements.
ghost use Rattle.std.specs.Prelude.{◌≡◌, drop, map, IfOk};
ghost use Rattle.dbc_keep.specs.Staying.{all_seen, seen, token_word};
ghost use Rattle.dbc_keep_law.specs.Found.{to_mark, tokens_at};
ghost use Rattle.dbc_keep_law.specs.Staying.{is_name_word};

use crate::passages::is_open;
use crate::said::skip;
use dbc_grammar::TokenKind;
use dbc_lex::{Lexer, Token};
use std::alloc::{AllocError, Global};

/// Whether the word is a name.
pub(crate) fn is_name(word: &Token) -> bool
    ensures { result ≡ is_name_word (seen word.now) }
{
    matches!(word.kind, TokenKind::Name)
}

/// The tokens that are left up to the next `;`, and that.
fn words_to_mark<'a>(alloc: Global, lexer: &mut Lexer<'a>) -> Result<Vec<Token<'a>>, AllocError>
    ensures { IfOk result (λ words. all_seen words.items
        ≡ map token_word (to_mark lexer.old.tokens)) }
{
    let mut words = Vec::new(alloc);
    'tokens: loop {
        match lexer.next_token() {
            Ok(Some(token)) => {
                words.push(token)?;
                if !is_open(&token) {
                    return Ok(words);
                }
            }
            Ok(None) => return Ok(words),
            Err(_) => return Ok(words),
        }
    }
}

/// The words after the keyword that is at the offset, up to the next `;`, and that.
pub(crate) fn words_after<'a>(
    alloc: Global,
    source: &'a [u8],
    at: usize,
) -> Result<Vec<Token<'a>>, AllocError>
    ensures { IfOk result (λ words. all_seen words.items
        ≡ map token_word (to_mark (drop 1 (tokens_at source.now at)))) }
{
    let mut lexer = Lexer::at(source, at);
    skip(&mut lexer);
    words_to_mark(alloc, &mut lexer)
}

/// Those after the first.
pub(crate) fn after_first<'a, 'b>(words: &'b [Token<'a>]) -> &'b [Token<'a>]
    ensures { result.now ≡ drop 1 words.now }
{
    match words {
        [_, rest @ ..] => rest,
        [] => words,
    }
}
