//! The statements of a text, one by one.
ghost use Rattle.std.specs.Prelude.{◌≡◌, [], IfErr, IfNone, IfOk, IfSome, None, OnErr, Some};
ghost use Rattle.dbc_grammar.specs.Lexing.{lexed};
ghost use Rattle.dbc_grammar.specs.Parsing.{statements_at};
ghost use Rattle.dbc_lex.specs.Fault.{UnlessMemory};
ghost use Rattle.dbc_statements.specs.Left.{BeginsWith};
ghost use Rattle.dbc_statements.specs.Statement.{NothingIsAttached, statement_of};
ghost use Rattle.dbc_statements.specs.Tokens.{EndsWith};

use crate::names::ListEnd;
use crate::reading::statement;
use crate::statement::Statement;
use crate::tokens::{Tokens, fault_after};
use dbc_lex::ReadFault;
use std::alloc::Global;
use std::marker::Model;

/// The statements of a text that are left, which are read one by one. Contracts see the text, and the tokens that are
/// left of it.
#[derive(Drop)]
pub struct Statements<'a> {
    source: &'a [u8],
    tokens: Tokens<'a>,
    ended: ListEnd,
    reached: usize,
}

impl<'a> Model for Statements<'a> {
    ghost use Rattle.dbc_statements.specs.Left.{IsLeft, Left};

    ghost Value = { Left };

    ghost view = { λ s. record { source = s.source.now; tokens = s.tokens } };

    ghost invariant = { λ s. IsLeft s.source.now s.tokens s.reached };
}

impl<'a> Statements<'a> {
    /// All statements of the text.
    pub fn of(source: &'a [u8]) -> Statements<'a>
        ensures source { result.source ≡ source.now }
        ensures tokens { result.tokens ≡ (lexed 0 source.now).tokens }
    {
        Statements {
            source,
            tokens: Tokens::of(source),
            ended: ListEnd::Other,
            reached: 0,
        }
    }

    /// The next statement, or `None` if no token is left.
    ///
    /// A fault comes only if the tokens that are left aren't a sequence of statements, or memory ran out: one of 32 to
    /// 39 at the first token that can't continue the statement, or at the text's length if it ends too early. Then the
    /// statements that are left are the same as before.
    pub fn read_next(&mut self, alloc: Global) -> Result<Option<Statement<'a>>, ReadFault>
        ensures source { self.new.source ≡ self.old.source }
        ensures next { IfOk result (λ found. IfSome found
            (λ s. BeginsWith (statement_of s) self.old.tokens self.new.tokens)) }
        ensures nothing { IfOk result (λ found. IfSome found (λ s. NothingIsAttached s.content)) }
        ensures end { IfOk result
            (λ found. IfNone found (statements_at self.old.tokens ≡ Some [])) }
        ensures err { IfErr result
            (λ fault. UnlessMemory fault.code (statements_at self.old.tokens ≡ None)) }
        ensures last { IfOk result (λ found. IfNone found (self.new ≡ self.old)) }
        ensures unchanged { OnErr result (self.new ≡ self.old) }
    {
        match self.tokens.first() {
            None => Ok(None),
            Some(first) => {
                self.reached = first.end;
                let mut trial = self.tokens.fork();
                let (next, ended) = statement(alloc, &mut trial, self.ended)?;
                self.tokens = trial;
                self.ended = ended;
                Ok(Some(next))
            }
        }
    }

    /// The fault of tokens that the text has, if any: code 30 or 31 at the first offset where no token begins, wherever
    /// it is. It comes before any fault of a statement.
    pub fn token_fault(&self) -> Result<(), ReadFault>
        ensures ok { IfOk result (λ u. (lexed 0 self.now.source).fault ≡ None) }
        ensures err { IfErr result (λ fault. EndsWith (lexed 0 self.now.source) fault) }
    {
        fault_after(self.source, self.reached)
    }
}
