//! What skipped statements cite.
ghost use Rattle.std.specs.Prelude.{◌≡◌, IfOk, option_map};
ghost use Rattle.dbc_sheet.specs.declared.sheet.Sheet as of_sheet;
ghost use Rattle.std.specs.Option.{option_copied};
ghost use Rattle.dbc_advice.specs.Citation.{citation_at, citation_text, cited_by_comment, cited_by_spn};
ghost use Rattle.dbc_advice.specs.Citation.{cited_message, cited_node, cited_number, cited_of, cited_signal};
ghost use Rattle.dbc_advice.specs.Citation.{cited_text, has_signal, is_missing};
ghost use Rattle.dbc_advice.specs.Names.{AreNamesOf};
ghost use Rattle.dbc_advice.specs.Tokens.{GivesToken};

use crate::names::Names;
use base::whole_number;
use columns::concat;
use dbc_grammar::TokenKind;
use dbc_lex::{Lexer, Token};
use dbc_sheet::{Message, Sheet};
use dbc_words::Keyword;
use std::alloc::{AllocError, Global};

/// What a statement cites. A number is the bytes of its token.
#[derive(Clone, Copy)]
pub(crate) enum Citation<'a> {
    /// A node, by its name.
    Node(&'a [u8]),
    /// A message, by its number.
    Message(&'a [u8]),
    /// A signal, by the number of its message and its name.
    Signal(&'a [u8], &'a [u8]),
}

/// The next token, if there is one.
fn next<'a>(lexer: &mut Lexer<'a>) -> Option<Token<'a>>
    ensures { GivesToken lexer.old.tokens result lexer.new.tokens }
{
    match lexer.next_token() {
        Ok(token) => token,
        Err(_) => None,
    }
}

/// A name of a node.
fn node_next<'a>(lexer: &mut Lexer<'a>) -> Option<Citation<'a>>
    ensures { option_map cited_of result ≡ cited_node lexer.old.tokens }
{
    let name = next(lexer)?;
    Some(Citation::Node(name.text))
}

/// A number of a message.
fn message_next<'a>(lexer: &mut Lexer<'a>) -> Option<Citation<'a>>
    ensures { option_map cited_of result ≡ cited_number lexer.old.tokens }
{
    let number = next(lexer)?;
    Some(Citation::Message(number.text))
}

/// A number of a message and the name of a signal.
fn signal_next<'a>(lexer: &mut Lexer<'a>) -> Option<Citation<'a>>
    ensures { option_map cited_of result ≡ cited_signal lexer.old.tokens }
{
    let number = next(lexer)?;
    let name = next(lexer)?;
    match number.kind {
        TokenKind::Number => Some(Citation::Signal(number.text, name.text)),
        _ => None,
    }
}

/// What a comment cites.
fn comment_next<'a>(lexer: &mut Lexer<'a>) -> Option<Citation<'a>>
    ensures { option_map cited_of result ≡ cited_by_comment lexer.old.tokens }
{
    let kind = next(lexer)?;
    match Keyword::of(kind.text) {
        Some(Keyword::Nodes) => node_next(lexer),
        Some(Keyword::Message) => message_next(lexer),
        Some(Keyword::Signal) => signal_next(lexer),
        _ => None,
    }
}

/// What a value of the attribute `SPN` cites.
fn spn_next<'a>(lexer: &mut Lexer<'a>) -> Option<Citation<'a>>
    ensures { option_map cited_of result ≡ cited_by_spn lexer.old.tokens }
{
    let attribute = next(lexer)?;
    let kind = next(lexer)?;
    if attribute.text == b"\"SPN\"".as_slice() && kind.text == Keyword::Signal.text().as_bytes() {
        signal_next(lexer)
    } else {
        None
    }
}

/// What the statement cites that begins at the offset: a node, a message or a signal. `None` if it is about nothing of
/// these.
pub(crate) fn citation_at(text: &[u8], at: usize) -> Option<Citation<'_>>
    ensures { option_map cited_of result ≡ citation_at text.now at }
{
    let mut lexer = Lexer::at(text, at);
    let keyword = next(&mut lexer)?;
    match Keyword::of(keyword.text) {
        Some(Keyword::Comment) => comment_next(&mut lexer),
        Some(Keyword::ValueTexts | Keyword::SignalValueType) => signal_next(&mut lexer),
        Some(Keyword::AttributeValue) => spn_next(&mut lexer),
        _ => None,
    }
}

/// The message of the number.
fn cited_message<'a>(sheet: &'a Sheet, number: &[u8]) -> Option<&'a Message>
    ensures { option_copied result ≡ cited_message sheet.now number.now }
{
    sheet.find(whole_number(number)?)
}

/// Whether the sheet's message of the number has a signal of the name.
fn has_signal(names: &Names, number: &[u8], name: &[u8]) -> bool
    ensures { (s : of_sheet.Sheet) → AreNamesOf names.now s
        → result ≡ has_signal s number.now name.now }
{
    match whole_number(number) {
        Some(number) => names.has_signal(number, name),
        None => false,
    }
}

/// Whether the sheet, whose names these are, has nothing that is cited so.
pub(crate) fn is_missing(sheet: &Sheet, names: &Names, citation: Citation) -> bool
    ensures { AreNamesOf names.now sheet.now
        → result ≡ is_missing sheet.now (cited_of citation.entry) }
{
    match citation {
        Citation::Node(name) => !names.has_node(name),
        Citation::Message(number) => cited_message(sheet, number).is_none(),
        Citation::Signal(number, name) => !has_signal(names, number, name),
    }
}

/// What the statement is about.
fn cited_text(alloc: Global, citation: Citation) -> Result<Vec<u8>, AllocError>
    ensures { IfOk result (λ text. text.items ≡ cited_text (cited_of citation.entry)) }
{
    match citation {
        Citation::Node(name) => concat(alloc, &[b"it is about node ", name]),
        Citation::Message(number) => concat(alloc, &[b"it is about message ", number]),
        Citation::Signal(number, name) => concat(
            alloc,
            &[b"it is about signal ", name, b" of message ", number],
        ),
    }
}

/// What is stated of a citation of what isn't in the file. The error is out of memory.
pub(crate) fn citation_text(alloc: Global, citation: Citation) -> Result<Vec<u8>, AllocError>
    ensures { IfOk result (λ text. text.items ≡ citation_text (cited_of citation.entry)) }
{
    let text = cited_text(alloc, citation)?;
    concat(alloc, &[&text, b", which isn't in the file"])
}
