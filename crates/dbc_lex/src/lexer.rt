//! Reading a text token by token.
ghost use Rattle.std.specs.Prelude.{◌≡◌, ◌≤◌, [], ◌∷◌, length, min, drop, IfSome, IfOk};
ghost use Rattle.dbc_grammar.specs.Fields.{is_mark};
ghost use Rattle.dbc_lex.specs.Token.{token_of};
ghost use Rattle.dbc_grammar.specs.Lexing.{token_at};
ghost use Rattle.dbc_lex.specs.First.{GivesFirst, kind_at};

use crate::fault::{ReadCode, ReadFault};
use crate::spelling::{first_after_gap, mark_start, word_end};
use crate::token::Token;
use dbc_grammar::TokenKind;
use std::marker::Model;

/// The token of this kind whose first byte is at the offset; without a kind none begins there, or the text ends.
#[inline(always)]
#[tactic(auto, unfolding(dbc_grammar::specs::Lexing::token_at))]
fn token_at<'a>(
    source: &'a [u8],
    start: usize,
    kind: Option<TokenKind>,
) -> Result<Option<Token<'a>>, ReadFault>
    requires within { start ≤ length source.now }
    requires kind { kind ≡ kind_at source.now start }
    ensures first { GivesFirst result (token_at start (drop start source.now)) }
    ensures within { IfOk result (λ next. IfSome next (λ t.
        (start ≤ t.end) × (t.end ≤ length source.now))) }
{
    match kind {
        None if start == source.len() => Ok(None),
        None => Err(ReadFault {
            code: ReadCode::StrayByte,
            at: start,
        }),
        Some(kind) => match word_end(kind, source, start) {
            None => Err(ReadFault {
                code: ReadCode::UnclosedText,
                at: start,
            }),
            Some(end) => Ok(Some(Token {
                kind,
                start,
                end,
                text: &source[start..end],
            })),
        },
    }
}

/// A reader of the tokens of a text. Contracts see it as what is left: the tokens, and the fault after them.
#[derive(Drop)]
pub struct Lexer<'a> {
    source: &'a [u8],
    at: usize,
}

impl<'a> Model for Lexer<'a> {
    ghost use Rattle.std.specs.Prelude.{◌≤◌, length, drop};
    ghost use Rattle.dbc_grammar.specs.Lexing.{Lexed, lexed};

    ghost Value = { Lexed };

    ghost view = { λ l. lexed l.at (drop l.at l.source.now) };

    ghost invariant = { λ l. l.at ≤ length l.source.now };
}

impl<'a> Lexer<'a> {
    ghost use Rattle.std.specs.Prelude.{◌≡◌, [], ◌∷◌, IfNone, IfSome, Ok, Some, false, true};
    ghost use Rattle.dbc_grammar.specs.Rules.{starts};
    ghost use Rattle.dbc_grammar.specs.Fields.{is_mark};
    ghost use Rattle.dbc_grammar.specs.Lexing.{kind_of, lexed};
    ghost use Rattle.dbc_grammar.specs.declared.token.TokenKind.TheVariants.{Mark};
    ghost use Rattle.dbc_lex.specs.Next.{GivesNext};
    ghost use Rattle.dbc_lex.specs.Token.{token_of};

    /// The lexer of the text, at its first byte.
    pub fn of(source: &'a [u8]) -> Lexer<'a>
        ensures { result ≡ lexed 0 source.now }
    {
        Lexer { source, at: 0 }
    }

    /// The lexer of the text from an offset on, or at its end where the offset is past that.
    pub fn at(source: &'a [u8], offset: usize) -> Lexer<'a>
        ensures { result ≡ lexed (min offset (length source.now)) (drop offset source.now) }
    {
        Lexer {
            source,
            at: offset.min(source.len()),
        }
    }

    /// Another lexer at the same offset, for reading on without moving this one.
    pub fn fork(&self) -> Lexer<'a>
        ensures { result ≡ self.now }
    {
        Lexer {
            source: self.source,
            at: self.at,
        }
    }

    /// Takes the next token, or returns `None` if only gaps are left.
    ///
    /// Where no token begins it returns a fault: code 30 (`UnclosedText`) at the opening quote of a text that no quote
    /// closes, or else code 31 (`StrayByte`) at the byte. `None` and a fault take nothing, so the next call returns the
    /// same again.
    ///
    /// Names, unsigned numbers, character strings and punctuation are those of Vector's DBC File Format Documentation;
    /// that only gaps come between tokens, and that each is as long as it can be, is this project's dialect. That the
    /// tokens are slices of the text, in order, is a law of `dbc_grammar` (`tokens_are_exact`).
    #[inline(always)]
    pub fn next_token(&mut self) -> Result<Option<Token<'a>>, ReadFault>
        ensures { GivesNext self.old result self.new }
    {
        let (start, kind) = first_after_gap(self.source, self.at);
        match token_at(self.source, start, kind) {
            Ok(Some(token)) => {
                self.at = token.end;
                Ok(Some(token))
            }
            Ok(None) => Ok(None),
            Err(fault) => Err(fault),
        }
    }

    /// Takes the next token if it is this mark, and else nothing. It takes little time where the mark comes at once or
    /// after one space.
    #[inline(always)]
    pub fn next_mark(&mut self, mark: u8) -> Option<Token<'a>>
        requires { kind_of mark ≡ Some Mark }
        ensures some { IfSome result (λ t. GivesNext self.old (Ok (Some t)) self.new) }
        ensures mark { IfSome result (λ t. is_mark (mark ∷ []) (token_of t) ≡ true) }
        ensures none { IfNone result (starts (is_mark (mark ∷ [])) self.old.tokens ≡ false) }
        ensures kept { IfNone result (self.new ≡ self.old) }
    {
        match mark_start(self.source, self.at, mark) {
            Some(start) => {
                let end = start + 1;
                self.at = end;
                Some(Token {
                    kind: TokenKind::Mark,
                    start,
                    end,
                    text: &self.source[start..end],
                })
            }
            None => self.far_mark(mark),
        }
    }

    /// The same as [`Lexer::next_mark`], wherever the mark comes.
    #[inline(never)]
    fn far_mark(&mut self, mark: u8) -> Option<Token<'a>>
        ensures some { IfSome result (λ t. GivesNext self.old (Ok (Some t)) self.new) }
        ensures mark { IfSome result (λ t. is_mark (mark ∷ []) (token_of t) ≡ true) }
        ensures none { IfNone result (starts (is_mark (mark ∷ [])) self.old.tokens ≡ false) }
        ensures kept { IfNone result (self.new ≡ self.old) }
    {
        let mut trial = self.fork();
        match trial.next_token() {
            Ok(Some(token)) if is_this_mark(&token, mark) => {
                *self = trial;
                Some(token)
            }
            _ => None,
        }
    }
}

/// Whether the token is this mark.
fn is_this_mark(token: &Token, mark: u8) -> bool
    ensures { result ≡ is_mark (mark ∷ []) (token_of token.now) }
{
    match token.kind {
        TokenKind::Mark => token.text == [mark].as_slice(),
        _ => false,
    }
}
