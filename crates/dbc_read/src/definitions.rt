//! The first fault of a text's definitions: its nodes, value tables and messages with their signals.
//!
//! What is gathered for a sheet is consumed, and the offsets of signals aren't kept. So if the sheet is refused, or the
//! statements can't be gathered one by one, the text is read once more for its first fault: statement by statement, and
//! nothing is kept but the definitions. Others can be at fault in one way only, by too many texts for the values of a
//! signal. If there is such a statement, the definitions alone don't show the first fault, since the texts may be of no
//! signal, or not the last ones of theirs.
ghost use Rattle.std.specs.Prelude.{◌≡◌, ◌++◌, [], ◌∷◌, List, None, IfErr, IfNone, IfOk, IfSome, OnOk};
ghost use Rattle.dbc_grammar.specs.Parsing.{statements_at};
ghost use Rattle.dbc_grammar.specs.Statement as dbc;
ghost use Rattle.dbc_lex.specs.Fault.{UnlessMemory};
ghost use Rattle.dbc_read.specs.Definitions.{AreDefinitions, AreDefinitionsOfTokens, DefineFurther, HasManyTexts};
ghost use Rattle.dbc_read.specs.Definitions.{IsDefinitionFault, TokensHaveManyTexts, has_many_texts, is_definition};
ghost use Rattle.dbc_read.specs.Reading.{CanNeverBeSheet};
ghost use Rattle.dbc_statements.specs.Division.{HasNoDivision, TokensComeFirst};
ghost use Rattle.dbc_statements.specs.Statement.{content_of, statement_of};

use crate::first_fault::definition_fault;
use crate::gathered::{Gathered, gather_statement};
use dbc_lex::ReadFault;
use dbc_statements::{Content, Statement, Statements};
use std::alloc::{AllocError, Global};

/// Whether it defines nodes, a value table or a message.
fn is_definition(content: &Content) -> bool
    ensures { result ≡ is_definition (content_of content.now) }
{
    match content {
        Content::Nodes(_) => true,
        Content::Table(_) => true,
        Content::Message(_) => true,
        _ => false,
    }
}

/// Whether it has more texts for the values of a signal than one can have.
fn has_many_texts(content: &Content) -> bool
    ensures { result ≡ has_many_texts (content_of content.now) }
{
    match content {
        Content::ValueTexts(_, entries) => entries.above().is_some(),
        _ => false,
    }
}

/// Gathers a statement that defines something. Another one is dropped.
pub(crate) fn gather_definition(
    statement: Statement,
    gathered: &mut Gathered,
) -> Result<(), AllocError>
    ensures { OnOk result ((stated : List dbc.Statement) → AreDefinitions stated gathered.old
        → AreDefinitions (stated ++ statement_of statement.entry ∷ []) gathered.new) }
{
    if is_definition(&statement.content) {
        return gather_statement(None, statement, gathered);
    }
    Ok(())
}

/// What is gathered, and what the statements that are left define, with the offsets of signals; or `None` if one of
/// the statements has too many texts for values.
pub(crate) fn further_definitions(
    alloc: Global,
    gathered: Gathered,
    statements: &mut Statements,
) -> Result<Option<Gathered>, ReadFault>
    ensures source { statements.new.source ≡ statements.old.source }
    ensures ok { IfOk result
        (λ found. IfSome found (DefineFurther statements.old.tokens gathered)) }
    ensures many { IfOk result (λ found. IfNone found (TokensHaveManyTexts statements.old.tokens)) }
    ensures err { IfErr result
        (λ fault. UnlessMemory fault.code (statements_at statements.old.tokens ≡ None)) }
{
    let mut definitions = gathered;
    'statements: while let Some(next) = statements.read_next(alloc)? {
        if has_many_texts(&next.content) {
            return Ok(None);
        }
        gather_definition(next, &mut definitions)?;
    }
    Ok(Some(definitions))
}

/// The definitions of the statements that are left, as [`further_definitions`].
fn definitions_of(alloc: Global, statements: &mut Statements) -> Result<Option<Gathered>, ReadFault>
    ensures source { statements.new.source ≡ statements.old.source }
    ensures ok { IfOk result
        (λ found. IfSome found (AreDefinitionsOfTokens statements.old.tokens)) }
    ensures many { IfOk result (λ found. IfNone found (TokensHaveManyTexts statements.old.tokens)) }
    ensures err { IfErr result
        (λ fault. UnlessMemory fault.code (statements_at statements.old.tokens ≡ None)) }
{
    let nothing = Gathered::empty(alloc);
    further_definitions(alloc, nothing, statements)
}

/// The first fault of the definitions of a text. `None` if they have none, or if one of its statements has too many
/// texts for values. A text that can never be one sheet and has no such statement has a fault.
pub(crate) fn fault_of_definitions(
    alloc: Global,
    source: &[u8],
) -> Result<Option<ReadFault>, ReadFault>
    ensures fault { IfOk result (λ found. IfSome found (IsDefinitionFault source.now)) }
    ensures many { IfOk result
        (λ found. IfNone found (CanNeverBeSheet source.now → HasManyTexts source.now)) }
    ensures err { IfErr result (λ fault. UnlessMemory fault.code (HasNoDivision source.now)) }
    ensures tokens { TokensComeFirst source.now result }
{
    let mut statements = Statements::of(source);
    let read = definitions_of(alloc, &mut statements);
    statements.token_fault()?;
    match read? {
        Some(gathered) => {
            let fault = definition_fault(alloc, &gathered)?;
            Ok(fault)
        }
        None => Ok(None),
    }
}
