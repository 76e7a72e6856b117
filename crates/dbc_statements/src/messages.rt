//! Messages with their signals.
ghost use Rattle.std.specs.Prelude.{IfOk};
ghost use Rattle.dbc_grammar.specs.Fields as fields;
ghost use Rattle.dbc_grammar.specs.Parsing.{either_at, independent_at, message_at};
ghost use Rattle.dbc_grammar.specs.Rules.{begins};
ghost use Rattle.dbc_statements.specs.Reading.{ReadsTokens};
ghost use Rattle.dbc_statements.specs.Statement.{NothingIsAttached, content_in};

use crate::ended_content::{EndedContent, content_without_list};
use crate::fields::{begins_message, length, made_name, mark, message_ident};
use crate::names::transmitter;
use crate::passing::independent;
use crate::signals::signals;
use crate::statement::{Content, MessageLine};
use crate::tokens::Tokens;
use dbc_lex::ReadFault;
use std::alloc::Global;

#[tactic(auto, unfolding(dbc_grammar::specs::Parsing::message_at))]
fn message<'a>(alloc: Global, tokens: &mut Tokens<'a>) -> Result<EndedContent<'a>, ReadFault>
    ensures reads { ReadsTokens content_in result (message_at tokens.old) tokens.new }
    ensures nothing { IfOk result (λ line. NothingIsAttached line.content) }
{
    let at = tokens.offset();
    let ident = message_ident(tokens)?;
    let name_at = tokens.offset();
    let name = made_name(alloc, tokens)?;
    mark(tokens, b':')?;
    let length = length(tokens)?;
    let transmitter = transmitter(alloc, tokens)?;
    let (signals, offsets, ended) = signals(alloc, tokens)?;
    let line = MessageLine {
        at,
        name_at,
        ident,
        name,
        length,
        transmitter,
        signals,
        offsets,
    };
    let content = Content::Message(Box::new(alloc, line)?);
    Ok(EndedContent { content, ended })
}

/// The rest of a statement after `BO_`.
pub(crate) fn message_or_independent<'a>(
    alloc: Global,
    tokens: &mut Tokens<'a>,
) -> Result<EndedContent<'a>, ReadFault>
    ensures reads { ReadsTokens content_in result (either_at
        (begins fields.message_ident) message_at independent_at tokens.old) tokens.new }
    ensures nothing { IfOk result (λ line. NothingIsAttached line.content) }
{
    if begins_message(tokens) {
        message(alloc, tokens)
    } else {
        content_without_list(independent(tokens))
    }
}
