//! The tokens of a text up to its end, or up to the first offset where none begins, one by one, with a look at the next
//! one.
ghost use Rattle.std.specs.Prelude.{◌≡◌, [], ◌∷◌, IfErr, IfOk, None, OnErr, OnOk, Some, drop, true};
ghost use Rattle.dbc_grammar.specs.Fields.{is_mark};
ghost use Rattle.dbc_grammar.specs.Lexing.{kind_of, lexed};
ghost use Rattle.dbc_grammar.specs.Rules.{starts};
ghost use Rattle.dbc_grammar.specs.Spelling.{Spells};
ghost use Rattle.dbc_grammar.specs.declared.token.TokenKind.TheVariants.{Mark};
ghost use Rattle.dbc_lex.specs.Token.{token_of};
ghost use Rattle.dbc_statements.specs.Tokens.{EndsWith, IsFirst, IsReached, IsSecond, IsSpelled};

use dbc_grammar::TokenKind;
use dbc_lex::{Lexer, ReadCode, ReadFault, Token};
use std::marker::Model;

/// The tokens that are left of a text. Contracts see them as their list.
#[derive(Drop)]
pub(crate) struct Tokens<'a> {
    source: &'a [u8],
    /// The kind of the first of them, if there is one.
    kind: Option<TokenKind>,
    /// The offset of its first byte; the text's length if there is none.
    start: usize,
    /// The offset after its last byte; the text's length if there is none.
    end: usize,
}

impl<'a> Model for Tokens<'a> {
    ghost use Rattle.std.specs.Prelude.{List};
    ghost use Rattle.dbc_grammar.specs.Token.{Token};
    ghost use Rattle.dbc_statements.specs.Tokens.{AreTokens, tokens_from};

    ghost Value = { List Token };

    ghost view = { λ t. tokens_from t.source.now t.kind t.start t.end };

    ghost invariant = { λ t. AreTokens t.source.now t.kind t.start t.end };
}

/// The fault of tokens that the text has, if any: at the first offset where no token begins. A token ends at the given
/// offset, or it is 0, so what comes before it needn't be read again.
pub(crate) fn fault_after(source: &[u8], offset: usize) -> Result<(), ReadFault>
    requires { IsReached (lexed 0 source.now).tokens offset }
    ensures ok { IfOk result (λ u. (lexed 0 source.now).fault ≡ None) }
    ensures err { IfErr result (λ fault. EndsWith (lexed 0 source.now) fault) }
{
    let mut lexer = Lexer::at(source, offset);
    'tokens: loop {
        match lexer.next_token() {
            Ok(Some(_)) => {}
            Ok(None) => return Ok(()),
            Err(fault) => return Err(fault),
        }
    }
}

impl<'a> Tokens<'a> {
    /// The tokens of the source.
    pub(crate) fn of(source: &'a [u8]) -> Tokens<'a>
        ensures { result ≡ (lexed 0 source.now).tokens }
    {
        match Lexer::at(source, 0).next_token() {
            Ok(Some(token)) => Tokens {
                source,
                kind: Some(token.kind),
                start: token.start,
                end: token.end,
            },
            Ok(None) | Err(_) => Tokens {
                source,
                kind: None,
                start: source.len(),
                end: source.len(),
            },
        }
    }

    /// The first of them.
    #[inline(always)]
    pub(crate) fn first(&self) -> Option<Token<'a>>
        ensures first { IsFirst self.now result }
        ensures spelled { IsSpelled result }
    {
        match self.kind {
            Some(kind) => Some(Token {
                kind,
                start: self.start,
                end: self.end,
                text: &self.source[self.start..self.end],
            }),
            None => None,
        }
    }

    /// The first of them, or the fault of a text that ends too early.
    #[inline(always)]
    pub(crate) fn front(&self) -> Result<Token<'a>, ReadFault>
        ensures first { IfOk result (λ t. self.now ≡ token_of t ∷ drop 1 self.now) }
        ensures spelled { IfOk result (λ t. Spells t.kind t.text.now) }
        ensures none { OnErr result (self.now ≡ []) }
    {
        match self.first() {
            Some(token) => Ok(token),
            None => Err(self.unexpected()),
        }
    }

    /// The one after the first.
    pub(crate) fn second(&self) -> Option<Token<'a>>
        ensures first { IsSecond self.now result }
        ensures spelled { IsSpelled result }
    {
        let mut after = self.fork();
        after.skip();
        after.first()
    }

    /// Removes the first of them.
    #[inline(never)]
    pub(crate) fn skip(&mut self)
        ensures { self.new ≡ drop 1 self.old }
    {
        match Lexer::at(self.source, self.end).next_token() {
            Ok(Some(token)) => {
                self.kind = Some(token.kind);
                self.start = token.start;
                self.end = token.end;
            }
            Ok(None) | Err(_) => {
                self.kind = None;
                self.start = self.source.len();
                self.end = self.source.len();
            }
        }
    }

    /// Removes the first of them, where this mark is expected after it, and says whether it is.
    #[inline(always)]
    pub(crate) fn skip_to(&mut self, mark: u8) -> bool
        requires { kind_of mark ≡ Some Mark }
        ensures rest { self.new ≡ drop 1 self.old }
        ensures mark { result ≡ starts (is_mark (mark ∷ [])) self.new }
    {
        match Lexer::at(self.source, self.end).next_mark(mark) {
            Some(token) => {
                self.kind = Some(token.kind);
                self.start = token.start;
                self.end = token.end;
                true
            }
            None => {
                self.skip();
                false
            }
        }
    }

    /// The value of the first of them, which is then removed; or this fault if there is no value.
    #[inline(always)]
    pub(crate) fn accept<T>(&mut self, value: Option<T>, fault: ReadFault) -> Result<T, ReadFault>
        ensures ok { IfOk result (λ v. value ≡ Some v) }
        ensures rest { OnOk result (self.new ≡ drop 1 self.old) }
        ensures none { IfErr result (λ e. (value ≡ None) × (e ≡ fault)) }
    {
        match value {
            Some(value) => {
                self.skip();
                Ok(value)
            }
            None => Err(fault),
        }
    }

    /// The offset of the first of them, or of the end of the text.
    #[inline(always)]
    pub(crate) fn offset(&self) -> usize {
        self.start
    }

    /// The fault of a token that isn't allowed here, or of a text that ends too early.
    pub(crate) fn unexpected(&self) -> ReadFault {
        ReadFault {
            code: ReadCode::Unexpected,
            at: self.offset(),
        }
    }

    /// Where the text ends.
    pub(crate) fn end(&self) -> usize {
        self.source.len()
    }

    /// The same tokens once more.
    #[inline(always)]
    pub(crate) fn fork(&self) -> Tokens<'a>
        ensures { result ≡ self.now }
    {
        Tokens {
            source: self.source,
            kind: self.kind,
            start: self.start,
            end: self.end,
        }
    }
}
