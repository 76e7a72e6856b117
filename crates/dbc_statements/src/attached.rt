//! What statements attach to signals: texts for their values, types, and suspect parameter numbers.
ghost use Rattle.std.specs.Prelude.{IfOk};
ghost use Rattle.dbc_grammar.specs.Fields as fields;
ghost use Rattle.dbc_grammar.specs.Parsing.{either_at, or_else, passed_value_texts_at, skipped_at, spn_at};
ghost use Rattle.dbc_grammar.specs.Parsing.{value_texts_at, value_type_at};
ghost use Rattle.dbc_grammar.specs.Rules.{begins};
ghost use Rattle.dbc_statements.specs.Reading.{ReadsTokens};
ghost use Rattle.dbc_statements.specs.Statement.{NothingIsAttached, content_of};

use crate::entries::entry_list;
use crate::fields::{any_name, attribute, cited_number, key, mark, optional_mark, spn, value_type};
use crate::passing::{passed_value_texts, skip_to_end};
use crate::statement::{CitedSignal, Content};
use crate::tokens::Tokens;
use crate::words::cited_number_of;
use dbc_lex::{ReadCode, ReadFault};
use dbc_words::Keyword;
use std::alloc::Global;

/// The rest of a statement after `VAL_`.
#[tactic(auto, unfolding(dbc_grammar::specs::Parsing::value_texts_at, dbc_grammar::specs::Parsing::passed_value_texts_at))]
pub(crate) fn value_texts<'a>(
    alloc: Global,
    tokens: &mut Tokens<'a>,
) -> Result<Content<'a>, ReadFault>
    ensures reads { ReadsTokens content_of result (either_at
        (begins fields.cited_number) value_texts_at passed_value_texts_at tokens.old) tokens.new }
    ensures nothing { IfOk result NothingIsAttached }
{
    let token = tokens.front()?;
    match cited_number_of(&token) {
        Some(number) => {
            tokens.skip();
            let name = any_name(tokens)?;
            let entries = entry_list(alloc, tokens)?;
            mark(tokens, b';')?;
            Ok(Content::ValueTexts(CitedSignal { number, name }, entries))
        }
        None => passed_value_texts(tokens),
    }
}

/// The rest of a statement after `SIG_VALTYPE_`.
#[tactic(auto, unfolding(dbc_grammar::specs::Parsing::value_type_at))]
pub(crate) fn value_types<'a>(tokens: &mut Tokens<'a>) -> Result<Content<'a>, ReadFault>
    ensures reads { ReadsTokens content_of result (value_type_at tokens.old) tokens.new }
    ensures nothing { IfOk result NothingIsAttached }
{
    let number = cited_number(tokens)?;
    let name = any_name(tokens)?;
    optional_mark(tokens, b':');
    let value_type = value_type(tokens)?;
    mark(tokens, b';')?;
    Ok(Content::ValueType(CitedSignal { number, name }, value_type))
}

#[tactic(auto, unfolding(dbc_grammar::specs::Parsing::spn_at))]
fn spn_of_signal<'a>(tokens: &mut Tokens<'a>) -> Result<Content<'a>, ReadFault>
    ensures reads { ReadsTokens content_of result (spn_at tokens.old) tokens.new }
    ensures nothing { IfOk result NothingIsAttached }
{
    attribute(tokens)?;
    key(tokens, Keyword::Signal)?;
    let number = cited_number(tokens)?;
    let name = any_name(tokens)?;
    let spn = spn(tokens)?;
    mark(tokens, b';')?;
    Ok(Content::Spn(CitedSignal { number, name }, spn))
}

/// The rest of a statement after `BA_`: a suspect parameter number, or else anything up to `;`.
pub(crate) fn attribute_value<'a>(tokens: &mut Tokens<'a>) -> Result<Content<'a>, ReadFault>
    ensures reads { ReadsTokens content_of result
        (or_else (spn_at tokens.old) (skipped_at tokens.old)) tokens.new }
    ensures nothing { IfOk result NothingIsAttached }
{
    let mut trial = tokens.fork();
    match spn_of_signal(&mut trial) {
        Ok(content) => {
            *tokens = trial;
            Ok(content)
        }
        // No field here takes memory, but their contracts don't say so.
        Err(
            ReadFault {
                code: ReadCode::Memory,
                ..
            },
        ) => Err(ReadFault::MEMORY),
        Err(_) => skip_to_end(tokens),
    }
}
