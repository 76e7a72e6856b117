//! The heading of a file: its version, new symbols, bit timing, nodes and value tables.
ghost use Rattle.std.specs.Prelude.{◌≡◌, IfOk, codes};
ghost use Rattle.dbc_grammar.specs.Fields as fields;
ghost use Rattle.dbc_grammar.specs.Grammar as grammar;
ghost use Rattle.dbc_grammar.specs.Parsing.{registers_at, symbols_at, table_at, timing_at, timing_line_at};
ghost use Rattle.dbc_grammar.specs.Parsing.{nodes_line_at, version_at};
ghost use Rattle.dbc_grammar.specs.Rules.{starts};
ghost use Rattle.dbc_grammar.specs.declared.token.TokenKind.TheVariants.{Number};
ghost use Rattle.dbc_statements.specs.Reading.{ReadsTokens, itself};
ghost use Rattle.dbc_statements.specs.Skipping.{Skips};
ghost use Rattle.dbc_statements.specs.Statement.{NothingIsAttached, content_of, content_in};

use crate::ended_content::EndedContent;
use crate::entries::entry_list;
use crate::fields::{any_number, made_name, mark, text};
use crate::names::nodes_with_offsets;
use crate::statement::{Content, TableLine};
use crate::tokens::Tokens;
use crate::words::{is_key, is_mark, is_number, is_word};
use dbc_lex::ReadFault;
use dbc_words::Keyword;
use std::alloc::Global;

/// The rest of a statement after `VERSION`.
#[tactic(auto, unfolding(dbc_grammar::specs::Parsing::version_at))]
pub(crate) fn version<'a>(alloc: Global, tokens: &mut Tokens<'a>) -> Result<Content<'a>, ReadFault>
    ensures reads { ReadsTokens content_of result (version_at tokens.old) tokens.new }
    ensures nothing { IfOk result NothingIsAttached }
{
    let version = text(alloc, tokens)?;
    Ok(Content::Version(version))
}

/// Whether a name comes next, other than `BS_` and `BU_`.
fn is_symbol(tokens: &Tokens) -> bool
    ensures { result ≡ starts grammar.is_symbol tokens.now }
{
    match tokens.first() {
        Some(token) => {
            is_word(&token)
                && !(is_key(&token, Keyword::BitTiming) || is_key(&token, Keyword::Nodes))
        }
        None => false,
    }
}

/// Whether a list of new symbols ends here: at `BS_`, `BU_`, or the end.
fn ends_symbols(tokens: &Tokens) -> bool
    ensures { result ≡ grammar.ends_symbols tokens.now }
{
    match tokens.first() {
        Some(token) => is_key(&token, Keyword::BitTiming) || is_key(&token, Keyword::Nodes),
        None => true,
    }
}

/// Skips all new symbols that come next.
fn skip_symbols(tokens: &mut Tokens)
    ensures { Skips grammar.is_symbol tokens.old tokens.new }
{
    'symbols: while is_symbol(tokens) {
        tokens.skip();
    }
}

/// The rest of a statement after `NS_`.
#[tactic(auto, unfolding(dbc_grammar::specs::Parsing::symbols_at))]
pub(crate) fn new_symbols<'a>(tokens: &mut Tokens<'a>) -> Result<Content<'a>, ReadFault>
    ensures reads { ReadsTokens content_of result (symbols_at tokens.old) tokens.new }
    ensures nothing { IfOk result NothingIsAttached }
{
    mark(tokens, b':')?;
    skip_symbols(tokens);
    if ends_symbols(tokens) {
        Ok(Content::Dropped)
    } else {
        Err(tokens.unexpected())
    }
}

/// A colon, a number, a comma and a number.
#[tactic(auto, unfolding(dbc_grammar::specs::Parsing::registers_at))]
fn registers(tokens: &mut Tokens) -> Result<(), ReadFault>
    ensures { ReadsTokens itself result (registers_at tokens.old) tokens.new }
{
    mark(tokens, b':')?;
    any_number(tokens)?;
    mark(tokens, b',')?;
    any_number(tokens)?;
    Ok(())
}

/// Whether a colon comes next.
fn is_colon(tokens: &Tokens) -> bool
    ensures { result ≡ starts (fields.is_mark (codes ":")) tokens.now }
{
    match tokens.first() {
        Some(token) => is_mark(&token, b':'),
        None => false,
    }
}

/// A number, and the numbers of the registers if a colon comes next.
#[tactic(auto, unfolding(dbc_grammar::specs::Parsing::timing_at))]
fn timing(tokens: &mut Tokens) -> Result<(), ReadFault>
    ensures { ReadsTokens itself result (timing_at tokens.old) tokens.new }
{
    any_number(tokens)?;
    if is_colon(tokens) {
        registers(tokens)?;
    }
    Ok(())
}

/// Whether a number comes next.
fn is_timing(tokens: &Tokens) -> bool
    ensures { result ≡ starts (fields.is_a Number) tokens.now }
{
    match tokens.first() {
        Some(token) => is_number(&token),
        None => false,
    }
}

/// The rest of a statement after `BS_`.
#[tactic(auto, unfolding(dbc_grammar::specs::Parsing::timing_line_at))]
pub(crate) fn bit_timing<'a>(tokens: &mut Tokens<'a>) -> Result<Content<'a>, ReadFault>
    ensures reads { ReadsTokens content_of result (timing_line_at tokens.old) tokens.new }
    ensures nothing { IfOk result NothingIsAttached }
{
    mark(tokens, b':')?;
    if is_timing(tokens) {
        timing(tokens)?;
    }
    Ok(Content::Dropped)
}

/// The rest of a statement after `BU_`.
#[tactic(auto, unfolding(dbc_grammar::specs::Parsing::nodes_line_at))]
pub(crate) fn node_names<'a>(
    alloc: Global,
    tokens: &mut Tokens<'a>,
) -> Result<EndedContent<'a>, ReadFault>
    ensures reads { ReadsTokens content_in result (nodes_line_at tokens.old) tokens.new }
    ensures nothing { IfOk result (λ line. NothingIsAttached line.content) }
{
    mark(tokens, b':')?;
    let (names, ended) = nodes_with_offsets(alloc, tokens)?;
    Ok(EndedContent {
        content: Content::Nodes(names),
        ended,
    })
}

/// The rest of a statement after `VAL_TABLE_`.
#[tactic(auto, unfolding(dbc_grammar::specs::Parsing::table_at))]
pub(crate) fn value_table<'a>(
    alloc: Global,
    tokens: &mut Tokens<'a>,
) -> Result<Content<'a>, ReadFault>
    ensures reads { ReadsTokens content_of result (table_at tokens.old) tokens.new }
    ensures nothing { IfOk result NothingIsAttached }
{
    let at = tokens.offset();
    let name = made_name(alloc, tokens)?;
    let entries = entry_list(alloc, tokens)?;
    mark(tokens, b';')?;
    let line = Box::new(alloc, TableLine { at, name, entries })?;
    Ok(Content::Table(line))
}
