//! What single tokens mean.
ghost use Rattle.std.specs.Prelude.{◌≡◌, [], ◌∷◌, ◌&&◌, IsTrue, is_some, nat_lt};
ghost use Rattle.std.specs.Char.{digit_value};
ghost use Rattle.std.specs.List.{list_all};
ghost use Rattle.std.specs.Str.{bytes_eq};
ghost use Rattle.base.specs.WholeNumber.{is_numeral};
ghost use Rattle.dbc_words.specs.Keyword.{keyword_text};
ghost use Rattle.dbc_words.specs.Name.{is_c_identifier, is_name, no_node};
ghost use Rattle.dbc_grammar.specs.Fields as fields;
ghost use Rattle.dbc_grammar.specs.Grammar as grammar;
ghost use Rattle.dbc_grammar.specs.Inside.{inside_of};
ghost use Rattle.dbc_grammar.specs.Spelling.{Spells};
ghost use Rattle.dbc_grammar.specs.declared.token.TokenKind.TheVariants.{Name, Number, Text, Mark};
ghost use Rattle.dbc_lex.specs.Token.{token_of};

use base::whole_number;
use bitlayout::{Mux, Order, Size};
use can_id::Ident;
use dbc_grammar::TokenKind;
use dbc_lex::Token;
use dbc_words::{Keyword, NAME_LIMIT, NO_NODE, Spn, mux_of_indicator};
use decimal::Decimal;

/// Whether the token is a text.
#[inline(always)]
pub(crate) fn is_text(token: &Token) -> bool
    ensures { result ≡ fields.is_a Text (token_of token.now) }
{
    matches!(token.kind, TokenKind::Text)
}

/// Whether the token is a name of any kind, also a keyword.
#[inline(always)]
pub(crate) fn is_word(token: &Token) -> bool
    ensures { result ≡ fields.is_a Name (token_of token.now) }
{
    matches!(token.kind, TokenKind::Name)
}

/// Whether the token is a number of any spelling.
#[inline(always)]
pub(crate) fn is_number(token: &Token) -> bool
    ensures { result ≡ fields.is_a Number (token_of token.now) }
{
    matches!(token.kind, TokenKind::Number)
}

/// Whether the token is this mark.
#[inline(always)]
pub(crate) fn is_mark(token: &Token, mark: u8) -> bool
    requires { Spells token.now.kind token.now.text.now }
    ensures { result ≡ fields.is_mark (mark ∷ []) (token_of token.now) }
{
    match token.kind {
        TokenKind::Mark => token.text[0] == mark,
        _ => false,
    }
}

/// Whether the bytes spell the keyword. The most frequent ones of those that are looked for are compared as patterns.
#[inline(always)]
fn spells(bytes: &[u8], keyword: Keyword) -> bool
    ensures { result ≡ bytes_eq bytes.now (keyword_text keyword) }
{
    match keyword {
        Keyword::Signal => matches!(bytes, b"SG_"),
        Keyword::Message => matches!(bytes, b"BO_"),
        Keyword::Nodes => matches!(bytes, b"BU_"),
        _ => bytes == keyword.text().as_bytes(),
    }
}

/// Whether the token is this keyword.
#[inline(always)]
pub(crate) fn is_key(token: &Token, keyword: Keyword) -> bool
    ensures { result ≡ fields.is_key keyword (token_of token.now) }
{
    is_word(token) && spells(token.text, keyword)
}

/// The keyword that the token is.
#[inline(always)]
pub(crate) fn key_of(token: &Token) -> Option<Keyword>
    ensures { result ≡ fields.key_of (token_of token.now) }
{
    if is_word(token) {
        Keyword::of(token.text)
    } else {
        None
    }
}

/// The bytes between the quotes of a text.
#[inline(always)]
pub(crate) fn inside<'a>(text: &'a [u8]) -> &'a [u8]
    ensures { result.now ≡ inside_of text.now }
{
    match text {
        [] => text,
        [_, rest @ ..] => &rest[..rest.len().saturating_sub(1)],
    }
}

/// Whether the token is the name that means no node.
#[inline(always)]
pub(crate) fn is_no_node(token: &Token) -> bool
    ensures { result ≡ (fields.is_a Name (token_of token.now) && bytes_eq (token_of token.now).text
        no_node) }
{
    is_word(token) && token.text == NO_NODE
}

/// Whether the bytes of a name token are a name: they are a C identifier already.
#[inline(always)]
#[tactic(auto, unfolding(dbc_words::specs::Name::is_name))]
fn is_name_word(word: &[u8]) -> bool
    requires { IsTrue (is_c_identifier word.now) }
    ensures { result ≡ is_name word.now }
{
    word.len() <= NAME_LIMIT && Keyword::of(word).is_none() && word != NO_NODE
}

/// Whether the token is a name that a statement may give to something.
#[inline(always)]
pub(crate) fn is_made_name(token: &Token) -> bool
    requires { Spells token.now.kind token.now.text.now }
    ensures { result ≡ (fields.is_a Name (token_of token.now) && is_name token.now.text.now) }
{
    match token.kind {
        TokenKind::Name => is_name_word(token.text),
        _ => false,
    }
}

/// Whether the token is a name of a list: that of a node, or the one that means no node.
#[inline(always)]
pub(crate) fn is_node(token: &Token) -> bool
    requires { Spells token.now.kind token.now.text.now }
    ensures { result ≡ is_some (fields.node_of (token_of token.now)) }
{
    is_no_node(token) || is_made_name(token)
}

/// A whole number up to 4294967295.
#[inline(always)]
pub(crate) fn whole(token: &Token) -> Option<u32>
    ensures { result ≡ fields.whole (token_of token.now) }
{
    if is_number(token) {
        whole_number(token.text)
    } else {
        None
    }
}

/// A whole number that only cites a message; `Some(None)` if it is above 4294967295.
#[inline(always)]
pub(crate) fn cited_number_of(token: &Token) -> Option<Option<u32>>
    ensures { result ≡ fields.cited_number (token_of token.now) }
{
    if !is_number(token) {
        return None;
    }
    match whole_number(token.text) {
        Some(number) => Some(Some(number)),
        None if is_numeral(token.text) => Some(None),
        None => None,
    }
}

/// The identifier that DBC files write as the number.
fn ident_of(number: u32) -> Option<Ident>
    ensures { result ≡ fields.ident_of number }
{
    Ident::from_dbc(number).ok()
}

/// The identifier of a message.
pub(crate) fn message_ident_of(token: &Token) -> Option<Ident>
    ensures { result ≡ fields.message_ident (token_of token.now) }
{
    ident_of(whole(token)?)
}

/// The number of the message that holds the signals of no message.
const INDEPENDENT: u32 = 3_221_225_472;

/// The number of the message that holds the signals of no message.
pub(crate) fn independent_number_of(token: &Token) -> Option<u32>
    ensures { result ≡ fields.independent_number (token_of token.now) }
{
    let number = whole(token)?;
    if number == INDEPENDENT {
        Some(number)
    } else {
        None
    }
}

/// The start bit of a signal.
#[inline(always)]
pub(crate) fn start_of(token: &Token) -> Option<u16>
    ensures { result ≡ fields.start_of (token_of token.now) }
{
    let start = whole(token)?;
    if start <= 65_535 {
        Some(start as u16)
    } else {
        None
    }
}

/// The size of a signal.
#[inline(always)]
pub(crate) fn size_of(token: &Token) -> Option<Size>
    ensures { result ≡ fields.size_of (token_of token.now) }
{
    let size = whole(token)?;
    if size <= 64 {
        Size::new(size as u8)
    } else {
        None
    }
}

/// Whether a sign is a minus.
#[inline(always)]
pub(crate) fn sign_of(token: &Token) -> Option<bool>
    requires { Spells token.now.kind token.now.text.now }
    ensures { result ≡ fields.sign_of (token_of token.now) }
{
    if is_mark(token, b'+') {
        Some(false)
    } else if is_mark(token, b'-') {
        Some(true)
    } else {
        None
    }
}

/// The byte order that a number token names.
#[inline(always)]
pub(crate) fn order_of(token: &Token) -> Option<Order>
    ensures { result ≡ fields.order_of (token_of token.now) }
{
    Order::from_number(whole(token)?)
}

/// The decimal of a number token, negated or not.
pub(crate) fn number_of(negative: bool, token: &Token) -> Option<Decimal>
    ensures { result ≡ fields.number_of negative (token_of token.now) }
{
    if is_number(token) {
        Decimal::read(negative, token.text).ok()
    } else {
        None
    }
}

/// A multiplexer indicator: `M`, or `m` and digits.
pub(crate) fn mux_of(token: &Token) -> Option<Mux>
    ensures { result ≡ fields.mux_of (token_of token.now) }
{
    if is_word(token) {
        mux_of_indicator(token.text)
    } else {
        None
    }
}

/// Whether the token is the name of the attribute with suspect parameter numbers.
pub(crate) fn is_spn_name(token: &Token) -> bool
    ensures { result ≡ grammar.is_spn_name (token_of token.now) }
{
    is_text(token) && inside(token.text) == b"SPN".as_slice()
}

/// A suspect parameter number.
pub(crate) fn spn_of(token: &Token) -> Option<Spn>
    ensures { result ≡ grammar.spn_of (token_of token.now) }
{
    Spn::new(whole(token)?)
}

fn are_digits(bytes: &[u8]) -> bool
    ensures { result ≡ list_all (λ d. nat_lt (digit_value d) 10) bytes.now }
{
    bytes
        .iter()
        .all(|byte| char::from(*byte).to_digit(10).is_some())
}

/// Whether the bytes are one or more digits.
pub(crate) fn is_numeral(bytes: &[u8]) -> bool
    ensures { result ≡ is_numeral bytes.now }
{
    match bytes {
        [] => false,
        [_, ..] => are_digits(bytes),
    }
}
