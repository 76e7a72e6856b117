//! Statements, one after the other.
ghost use Rattle.std.specs.Prelude.{◌≡◌, IfOk, IfErr, None, Some};
ghost use Rattle.dbc_grammar.specs.Grammar as grammar;
ghost use Rattle.dbc_grammar.specs.Parsing.{line_at, statement_at, statements_at, token_at};
ghost use Rattle.dbc_grammar.specs.Spelling.{Spells};
ghost use Rattle.dbc_lex.specs.Fault.{UnlessMemory};
ghost use Rattle.dbc_statements.specs.Division.{HasNoDivision, IsDivided, TokensComeFirst};
ghost use Rattle.dbc_statements.specs.Reading.{ReadsTokens, itself};
ghost use Rattle.dbc_statements.specs.Statement.{NothingIsAttached, content_in, statement_of, statements_of};
ghost use Rattle.dbc_statements.specs.Tokens.{IsReached};

use crate::attached::{attribute_value, value_texts, value_types};
use crate::comments::comment;
use crate::ended_content::{EndedContent, content_without_list};
use crate::heading::{bit_timing, new_symbols, node_names, value_table, version};
use crate::messages::message_or_independent;
use crate::names::ListEnd;
use crate::passing::skip_to_end;
use crate::statement::Statement;
use crate::tokens::{Tokens, fault_after};
use crate::words::{is_mark, is_word, key_of};
use dbc_lex::{ReadCode, ReadFault, Token};
use dbc_words::{Keyword, NAME_LIMIT};
use std::alloc::Global;

/// What is wrong with a word that is no keyword, where a statement or a further name of a list may begin: code 37 if a
/// list may go on, since the word is too long for a name, and else 33.
fn word_code(word: &Token, before: ListEnd) -> ReadCode {
    match before {
        ListEnd::Names | ListEnd::NoNames if word.text.len() > NAME_LIMIT => ReadCode::Name,
        _ => ReadCode::UnknownStatement,
    }
}

/// The fault after a comma that follows the last name of a list.
fn fault_after_comma(tokens: &Tokens, before: ListEnd) -> ReadFault {
    match tokens.second() {
        Some(token) if is_word(&token) && key_of(&token).is_none() => ReadFault {
            code: word_code(&token, before),
            at: token.start,
        },
        Some(token) => ReadFault {
            code: ReadCode::Unexpected,
            at: token.start,
        },
        None => ReadFault {
            code: ReadCode::Unexpected,
            at: tokens.end(),
        },
    }
}

/// The fault of a token with which no statement begins, after a statement that ended as `before` says.
fn fault_at_start(tokens: &Tokens, token: &Token, before: ListEnd) -> ReadFault
    requires { Spells token.now.kind token.now.text.now }
{
    if is_word(token) {
        return ReadFault {
            code: word_code(token, before),
            at: token.start,
        };
    }
    match before {
        ListEnd::Names if is_mark(token, b',') => fault_after_comma(tokens, before),
        _ => tokens.unexpected(),
    }
}

/// The first keyword of a statement, and its offset.
fn first_word(tokens: &mut Tokens, before: ListEnd) -> Result<(usize, Keyword), ReadFault>
    ensures { ReadsTokens itself result (token_at grammar.first_word tokens.old) tokens.new }
{
    let token = tokens.front()?;
    match key_of(&token) {
        Some(keyword) => {
            tokens.skip();
            Ok((token.start, keyword))
        }
        None => Err(fault_at_start(tokens, &token, before)),
    }
}

/// The rest of a statement after its first keyword, which is at the offset `start`.
#[tactic(auto, unfolding(dbc_grammar::specs::Parsing::line_at))]
fn line<'a>(
    alloc: Global,
    start: usize,
    keyword: Keyword,
    tokens: &mut Tokens<'a>,
) -> Result<EndedContent<'a>, ReadFault>
    ensures reads { ReadsTokens content_in result (line_at keyword tokens.old) tokens.new }
    ensures nothing { IfOk result (λ line. NothingIsAttached line.content) }
{
    match keyword {
        Keyword::Version => content_without_list(version(alloc, tokens)),
        Keyword::NewSymbols => content_without_list(new_symbols(tokens)),
        Keyword::BitTiming => content_without_list(bit_timing(tokens)),
        Keyword::Nodes => node_names(alloc, tokens),
        Keyword::ValueTable => content_without_list(value_table(alloc, tokens)),
        Keyword::Message => message_or_independent(alloc, tokens),
        Keyword::Comment => content_without_list(comment(alloc, tokens)),
        Keyword::ValueTexts => content_without_list(value_texts(alloc, tokens)),
        Keyword::SignalValueType => content_without_list(value_types(tokens)),
        Keyword::AttributeValue => content_without_list(attribute_value(tokens)),
        Keyword::Signal => Err(ReadFault {
            code: ReadCode::Unexpected,
            at: start,
        }),
        Keyword::ExtendedMultiplexing => Err(ReadFault {
            code: ReadCode::ExtendedMultiplexing,
            at: start,
        }),
        _ => content_without_list(skip_to_end(tokens)),
    }
}

/// A statement, and how it ends, after a statement that ended as `before` says.
#[tactic(auto, unfolding(dbc_grammar::specs::Parsing::statement_at))]
pub(crate) fn statement<'a>(
    alloc: Global,
    tokens: &mut Tokens<'a>,
    before: ListEnd,
) -> Result<(Statement<'a>, ListEnd), ReadFault>
    ensures reads { ReadsTokens (λ next. statement_of next.0) result (statement_at tokens.old)
        tokens.new }
    ensures nothing { IfOk result (λ next. NothingIsAttached next.0.content) }
{
    let (start, keyword) = first_word(tokens, before)?;
    let EndedContent { content, ended } = line(alloc, start, keyword, tokens)?;
    let statement = Statement {
        start,
        keyword,
        content,
    };
    Ok((statement, ended))
}

/// Reads all statements. Whatever it returns, the tokens were read at least up to the offset `reached`.
fn all_statements<'a>(
    alloc: Global,
    tokens: &mut Tokens<'a>,
    reached: &mut usize,
) -> Result<Vec<Statement<'a>>, ReadFault>
    ensures ok { IfOk result
        (λ statements. statements_at tokens.old ≡ Some (statements_of statements.items)) }
    ensures err { IfErr result
        (λ fault. UnlessMemory fault.code (statements_at tokens.old ≡ None)) }
    ensures reached { IsReached tokens.old reached.new }
{
    *reached = 0;
    let mut statements = Vec::new(alloc);
    let mut ended = ListEnd::Other;
    'statements: while let Some(first) = tokens.first() {
        *reached = first.end;
        let (next, end) = statement(alloc, tokens, ended)?;
        ended = end;
        statements.push(next)?;
    }
    Ok(statements)
}

/// The statements of a DBC text, in order. The grammar is that of Vector's DBC File Format Documentation, in this
/// project's dialect (docs/use/GRAMMAR.md).
///
/// A fault comes only if the text isn't a sequence of statements, or memory ran out: code 30 or 31 at the first offset
/// where no token begins, wherever it is, and else one of 32 to 39 at the first token that can't continue the
/// statement, or at the text's length if it ends too early.
pub fn statements_of<'a>(alloc: Global, source: &'a [u8]) -> Result<Vec<Statement<'a>>, ReadFault>
    ensures ok { IfOk result (λ statements. IsDivided source.now (statements_of statements.items)) }
    ensures err { IfErr result (λ fault. UnlessMemory fault.code (HasNoDivision source.now)) }
    ensures tokens { TokensComeFirst source.now result }
{
    let mut tokens = Tokens::of(source);
    let mut reached = 0;
    let read = all_statements(alloc, &mut tokens, &mut reached);
    fault_after(source, reached)?;
    let statements = read?;
    Ok(statements)
}
