//! Statements that are skipped. Only their first keyword and its offset are reported.
ghost use Rattle.std.specs.Prelude.{◌≡◌, IfOk, true};
ghost use Rattle.dbc_grammar.specs.Grammar as grammar;
ghost use Rattle.dbc_grammar.specs.Parsing.{independent_at, passed_comment_at, passed_value_texts_at, skipped_at};
ghost use Rattle.dbc_grammar.specs.Rules.{starts};
ghost use Rattle.dbc_lex.specs.Token.{token_of};
ghost use Rattle.dbc_statements.specs.Reading.{ReadsTokens};
ghost use Rattle.dbc_statements.specs.Statement.{NothingIsAttached, content_of};
ghost use Rattle.dbc_statements.specs.Skipping.{Skips, begins_no_next};

use crate::entries::is_open;
use crate::fields::{any_name, independent_number, key, mark};
use crate::statement::Content;
use crate::tokens::Tokens;
use crate::words::{is_key, key_of};
use dbc_lex::{ReadFault, Token};
use dbc_words::Keyword;

/// Skips all tokens before the next `;`.
fn skip_open(tokens: &mut Tokens)
    ensures { Skips grammar.is_open tokens.old tokens.new }
{
    'open: while is_open(tokens) {
        tokens.skip();
    }
}

/// All tokens up to `;`, and that mark.
#[tactic(auto, unfolding(dbc_grammar::specs::Parsing::skipped_at))]
pub(crate) fn skip_to_end<'a>(tokens: &mut Tokens<'a>) -> Result<Content<'a>, ReadFault>
    ensures reads { ReadsTokens content_of result (skipped_at tokens.old) tokens.new }
    ensures nothing { IfOk result NothingIsAttached }
{
    skip_open(tokens);
    mark(tokens, b';')?;
    Ok(Content::PassedOver)
}

/// The rest of a statement after `CM_` that is about an environment variable.
#[tactic(auto, unfolding(dbc_grammar::specs::Parsing::passed_comment_at))]
pub(crate) fn passed_comment<'a>(tokens: &mut Tokens<'a>) -> Result<Content<'a>, ReadFault>
    ensures reads { ReadsTokens content_of result (passed_comment_at tokens.old) tokens.new }
    ensures nothing { IfOk result NothingIsAttached }
{
    key(tokens, Keyword::EnvironmentVariable)?;
    skip_to_end(tokens)
}

/// The rest of a statement after `VAL_` that is about an environment variable.
#[tactic(auto, unfolding(dbc_grammar::specs::Parsing::passed_value_texts_at))]
pub(crate) fn passed_value_texts<'a>(tokens: &mut Tokens<'a>) -> Result<Content<'a>, ReadFault>
    ensures reads { ReadsTokens content_of result (passed_value_texts_at tokens.old) tokens.new }
    ensures nothing { IfOk result NothingIsAttached }
{
    any_name(tokens)?;
    skip_to_end(tokens)
}

/// Whether the token ends this statement: it is a keyword other than `SG_`.
fn begins_next(token: &Token) -> bool
    ensures { result ≡ grammar.begins_next (token_of token.now) }
{
    key_of(token).is_some() && !is_key(token, Keyword::Signal)
}

/// Whether a token comes next that doesn't end this statement.
fn goes_on(tokens: &Tokens) -> bool
    ensures { result ≡ starts begins_no_next tokens.now }
{
    match tokens.first() {
        Some(token) => !begins_next(&token),
        None => false,
    }
}

/// Skips all up to the next statement, or to the end.
fn skip_to_next(tokens: &mut Tokens)
    ensures skips { Skips begins_no_next tokens.old tokens.new }
    ensures next { grammar.next tokens.new ≡ true }
{
    'others: while goes_on(tokens) {
        tokens.skip();
    }
}

/// The rest of a statement after `BO_` with the number of the message that holds the signals of no message.
#[tactic(auto, unfolding(dbc_grammar::specs::Parsing::independent_at))]
pub(crate) fn independent<'a>(tokens: &mut Tokens<'a>) -> Result<Content<'a>, ReadFault>
    ensures reads { ReadsTokens content_of result (independent_at tokens.old) tokens.new }
    ensures nothing { IfOk result NothingIsAttached }
{
    independent_number(tokens)?;
    skip_to_next(tokens);
    Ok(Content::PassedOver)
}
