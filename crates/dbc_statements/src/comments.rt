//! Comments.
ghost use Rattle.std.specs.Prelude.{IfOk};
ghost use Rattle.dbc_grammar.specs.Fields as fields;
ghost use Rattle.dbc_grammar.specs.Parsing.{comment_at, file_comment_at, message_comment_at, node_comment_at};
ghost use Rattle.dbc_grammar.specs.Parsing.{signal_comment_at};
ghost use Rattle.dbc_statements.specs.Reading.{ReadsTokens};
ghost use Rattle.dbc_statements.specs.Statement.{NothingIsAttached, content_of};

use crate::fields::{any_name, cited_number, key, mark, text};
use crate::passing::passed_comment;
use crate::statement::{CitedSignal, Content};
use crate::tokens::Tokens;
use crate::words::{is_key, is_text};
use dbc_lex::ReadFault;
use dbc_words::Keyword;
use std::alloc::Global;

#[tactic(auto, unfolding(dbc_grammar::specs::Parsing::file_comment_at))]
fn file_comment<'a>(alloc: Global, tokens: &mut Tokens<'a>) -> Result<Content<'a>, ReadFault>
    ensures reads { ReadsTokens content_of result (file_comment_at tokens.old) tokens.new }
    ensures nothing { IfOk result NothingIsAttached }
{
    let text = text(alloc, tokens)?;
    mark(tokens, b';')?;
    Ok(Content::Comment(text))
}

#[tactic(auto, unfolding(dbc_grammar::specs::Parsing::node_comment_at))]
fn node_comment<'a>(alloc: Global, tokens: &mut Tokens<'a>) -> Result<Content<'a>, ReadFault>
    ensures reads { ReadsTokens content_of result (node_comment_at tokens.old) tokens.new }
    ensures nothing { IfOk result NothingIsAttached }
{
    key(tokens, Keyword::Nodes)?;
    let node = any_name(tokens)?;
    let text = text(alloc, tokens)?;
    mark(tokens, b';')?;
    Ok(Content::NodeComment(node, text))
}

#[tactic(auto, unfolding(dbc_grammar::specs::Parsing::message_comment_at))]
fn message_comment<'a>(alloc: Global, tokens: &mut Tokens<'a>) -> Result<Content<'a>, ReadFault>
    ensures reads { ReadsTokens content_of result (message_comment_at tokens.old) tokens.new }
    ensures nothing { IfOk result NothingIsAttached }
{
    key(tokens, Keyword::Message)?;
    let number = cited_number(tokens)?;
    let text = text(alloc, tokens)?;
    mark(tokens, b';')?;
    Ok(Content::MessageComment(number, text))
}

#[tactic(auto, unfolding(dbc_grammar::specs::Parsing::signal_comment_at))]
fn signal_comment<'a>(alloc: Global, tokens: &mut Tokens<'a>) -> Result<Content<'a>, ReadFault>
    ensures reads { ReadsTokens content_of result (signal_comment_at tokens.old) tokens.new }
    ensures nothing { IfOk result NothingIsAttached }
{
    key(tokens, Keyword::Signal)?;
    let number = cited_number(tokens)?;
    let name = any_name(tokens)?;
    let text = text(alloc, tokens)?;
    mark(tokens, b';')?;
    Ok(Content::SignalComment(CitedSignal { number, name }, text))
}

/// The rest of a statement after `CM_`.
#[tactic(auto, unfolding(dbc_grammar::specs::Parsing::comment_at))]
pub(crate) fn comment<'a>(alloc: Global, tokens: &mut Tokens<'a>) -> Result<Content<'a>, ReadFault>
    ensures reads { ReadsTokens content_of result (comment_at tokens.old) tokens.new }
    ensures nothing { IfOk result NothingIsAttached }
{
    match tokens.first() {
        Some(token) if is_text(&token) => file_comment(alloc, tokens),
        Some(token) if is_key(&token, Keyword::Nodes) => node_comment(alloc, tokens),
        Some(token) if is_key(&token, Keyword::Message) => message_comment(alloc, tokens),
        Some(token) if is_key(&token, Keyword::Signal) => signal_comment(alloc, tokens),
        _ => passed_comment(tokens),
    }
}
