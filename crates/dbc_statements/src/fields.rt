//! The fields of statements, read from the front of the tokens. Each function removes the tokens of what it returns; a
//! fault leaves the token that it is about.
ghost use Rattle.std.specs.Prelude.{◌≡◌, [], ◌∷◌, Some, codes, drop, option_map};
ghost use Rattle.dbc_grammar.specs.Fields as fields;
ghost use Rattle.dbc_grammar.specs.Grammar as grammar;
ghost use Rattle.dbc_grammar.specs.Lexing.{kind_of};
ghost use Rattle.dbc_grammar.specs.Parsing.{token_at, one_at, optional_at, key_at, mark_at, decimal_at, pair_at};
ghost use Rattle.dbc_grammar.specs.Parsing.{layout_at};
ghost use Rattle.dbc_grammar.specs.Rules.{begins, starts};
ghost use Rattle.dbc_grammar.specs.declared.token.TokenKind.TheVariants.{Mark, Number};
ghost use Rattle.dbc_statements.specs.Reading.{ReadsTokens, itself, with_mark};

use crate::tokens::Tokens;
use crate::words::{
    cited_number_of, independent_number_of, inside, is_key, is_made_name, is_mark, is_number,
    is_spn_name, is_text, is_word, message_ident_of, number_of, order_of, sign_of, size_of, spn_of,
    start_of, whole,
};
use bitlayout::{Layout, Order, Size};
use can_id::Ident;
use dbc_lex::{ReadCode, ReadFault, Token};
use dbc_words::{Keyword, Name, PayloadLength, Spn, Text, ValueType};
use decimal::Decimal;
use std::alloc::Global;

/// The fault of this code at the token.
#[inline(always)]
fn fault(token: &Token, code: ReadCode) -> ReadFault {
    ReadFault {
        code,
        at: token.start,
    }
}

/// The fault of a token that isn't allowed here.
#[inline(always)]
fn unexpected(token: &Token) -> ReadFault {
    fault(token, ReadCode::Unexpected)
}

/// The fault of a token where a certain number should be: this code if it is another number, and else 32.
#[inline(always)]
fn number_fault(token: &Token, code: ReadCode) -> ReadFault {
    if is_number(token) {
        fault(token, code)
    } else {
        unexpected(token)
    }
}

/// A mark of this spelling.
#[inline(always)]
pub(crate) fn mark(tokens: &mut Tokens, mark: u8) -> Result<(), ReadFault>
    ensures { ReadsTokens itself result (mark_at (mark ∷ []) tokens.old) tokens.new }
{
    let token = tokens.front()?;
    tokens.accept(is_mark(&token, mark).then_some(()), unexpected(&token))
}

/// Removes the first token and the mark of this spelling after it.
#[inline(always)]
fn skip_with(tokens: &mut Tokens, spelling: u8) -> Result<(), ReadFault>
    requires { kind_of spelling ≡ Some Mark }
    ensures { ReadsTokens itself result (mark_at (spelling ∷ []) (drop 1 tokens.old)) tokens.new }
{
    if tokens.skip_to(spelling) {
        tokens.skip();
        Ok(())
    } else {
        Err(tokens.unexpected())
    }
}

/// A mark of this spelling, if one comes next.
#[inline(always)]
#[tactic(auto, unfolding(dbc_grammar::specs::Parsing::optional_at))]
pub(crate) fn optional_mark(tokens: &mut Tokens, mark: u8) -> Option<()>
    ensures { optional_at (starts (fields.is_mark (mark ∷ []))) (mark_at (mark ∷ [])) tokens.old
        ≡ Some (result, tokens.new) }
{
    match tokens.first() {
        Some(token) if is_mark(&token, mark) => {
            tokens.skip();
            Some(())
        }
        _ => None,
    }
}

/// This keyword.
#[inline(always)]
pub(crate) fn key(tokens: &mut Tokens, keyword: Keyword) -> Result<(), ReadFault>
    ensures { ReadsTokens itself result (key_at keyword tokens.old) tokens.new }
{
    let token = tokens.front()?;
    tokens.accept(is_key(&token, keyword).then_some(()), unexpected(&token))
}

/// A number of any spelling.
pub(crate) fn any_number(tokens: &mut Tokens) -> Result<(), ReadFault>
    ensures { ReadsTokens itself result (one_at (fields.is_a Number) tokens.old) tokens.new }
{
    let token = tokens.front()?;
    tokens.accept(is_number(&token).then_some(()), unexpected(&token))
}

/// A name of any kind, a keyword too.
#[inline(always)]
pub(crate) fn any_name<'a>(tokens: &mut Tokens<'a>) -> Result<&'a [u8], ReadFault>
    ensures { ReadsTokens (λ name. name.now) result (token_at fields.cited_name tokens.old)
        tokens.new }
{
    let token = tokens.front()?;
    tokens.accept(is_word(&token).then_some(token.text), unexpected(&token))
}

/// The bytes between the quotes of a text.
#[inline(always)]
pub(crate) fn text(alloc: Global, tokens: &mut Tokens) -> Result<Text, ReadFault>
    ensures { ReadsTokens itself result (token_at fields.text_of tokens.old) tokens.new }
{
    let token = tokens.front()?;
    if !is_text(&token) {
        return Err(unexpected(&token));
    }
    let text = Text::of_kept(alloc, inside(token.text))?;
    tokens.skip();
    Ok(text)
}

/// The name of something that the statement defines. Code 37 at a name that isn't allowed for it.
#[inline(always)]
pub(crate) fn made_name(alloc: Global, tokens: &mut Tokens) -> Result<Name, ReadFault>
    ensures { ReadsTokens itself result (token_at fields.made_name tokens.old) tokens.new }
{
    let token = tokens.front()?;
    if !is_word(&token) {
        return Err(unexpected(&token));
    }
    if !is_made_name(&token) {
        return Err(fault(&token, ReadCode::Name));
    }
    let name = Name::of_kept(alloc, token.text)?;
    tokens.skip_to(b':');
    Ok(name)
}

/// A whole number that only cites a message; `None` if it is above 4294967295.
#[inline(always)]
pub(crate) fn cited_number(tokens: &mut Tokens) -> Result<Option<u32>, ReadFault>
    ensures { ReadsTokens itself result (token_at fields.cited_number tokens.old) tokens.new }
{
    let token = tokens.front()?;
    tokens.accept(cited_number_of(&token), unexpected(&token))
}

/// The identifier of a message. Code 36 at a number that isn't that of an identifier.
pub(crate) fn message_ident(tokens: &mut Tokens) -> Result<Ident, ReadFault>
    ensures { ReadsTokens itself result (token_at fields.message_ident tokens.old) tokens.new }
{
    let token = tokens.front()?;
    tokens.accept(
        message_ident_of(&token),
        number_fault(&token, ReadCode::Identifier),
    )
}

/// Whether the identifier of a message comes next.
pub(crate) fn begins_message(tokens: &Tokens) -> bool
    ensures { result ≡ begins fields.message_ident tokens.now }
{
    match tokens.first() {
        Some(token) => message_ident_of(&token).is_some(),
        None => false,
    }
}

/// The number of the message that holds the signals of no message. Code 36 at another number.
pub(crate) fn independent_number(tokens: &mut Tokens) -> Result<u32, ReadFault>
    ensures { ReadsTokens itself result (token_at fields.independent_number tokens.old) tokens.new }
{
    let token = tokens.front()?;
    tokens.accept(
        independent_number_of(&token),
        number_fault(&token, ReadCode::Identifier),
    )
}

/// The length of a message in bytes. Code 38 at another number.
pub(crate) fn length(tokens: &mut Tokens) -> Result<PayloadLength, ReadFault>
    ensures { ReadsTokens itself result (token_at fields.length_of tokens.old) tokens.new }
{
    let token = tokens.front()?;
    let length = whole(&token).and_then(|bytes| PayloadLength::new(bytes));
    tokens.accept(length, number_fault(&token, ReadCode::Length))
}

/// The start bit of a signal, and the bar after it. Code 39 at another number.
#[inline(always)]
fn start(tokens: &mut Tokens) -> Result<u16, ReadFault>
    ensures { ReadsTokens itself result
        (with_mark (token_at fields.start_of tokens.old) (codes "|")) tokens.new }
{
    let token = tokens.front()?;
    let start = start_of(&token).ok_or(number_fault(&token, ReadCode::Size))?;
    skip_with(tokens, b'|')?;
    Ok(start)
}

/// The size of a signal, and the `@` after it. Code 39 at another number.
#[inline(always)]
fn size(tokens: &mut Tokens) -> Result<Size, ReadFault>
    ensures { ReadsTokens itself result (with_mark (token_at fields.size_of tokens.old) (codes "@"))
        tokens.new }
{
    let token = tokens.front()?;
    let size = size_of(&token).ok_or(number_fault(&token, ReadCode::Size))?;
    skip_with(tokens, b'@')?;
    Ok(size)
}

/// The byte order of a signal.
#[inline(always)]
fn order(tokens: &mut Tokens) -> Result<Order, ReadFault>
    ensures { ReadsTokens itself result (token_at fields.order_of tokens.old) tokens.new }
{
    let token = tokens.front()?;
    let order = order_of(&token).ok_or(unexpected(&token))?;
    tokens.skip_to(b'+');
    Ok(order)
}

/// Whether values have a sign.
#[inline(always)]
fn minus(tokens: &mut Tokens) -> Result<bool, ReadFault>
    ensures { ReadsTokens itself result (token_at fields.sign_of tokens.old) tokens.new }
{
    let token = tokens.front()?;
    let minus = sign_of(&token).ok_or(unexpected(&token))?;
    tokens.skip_to(b'(');
    Ok(minus)
}

/// Where a signal is in the payload, and whether its values have a sign.
#[inline(always)]
#[tactic(auto, unfolding(dbc_grammar::specs::Parsing::layout_at))]
pub(crate) fn layout(tokens: &mut Tokens) -> Result<(Layout, bool), ReadFault>
    ensures { ReadsTokens itself result (layout_at tokens.old) tokens.new }
{
    let start = start(tokens)?;
    let size = size(tokens)?;
    let order = order(tokens)?;
    let signed = minus(tokens)?;
    Ok((Layout { start, size, order }, signed))
}

/// A sign, if one comes next: whether it is a minus.
#[inline(always)]
#[tactic(auto, unfolding(dbc_grammar::specs::Parsing::optional_at))]
fn sign(tokens: &mut Tokens) -> Option<bool>
    ensures { optional_at (begins fields.sign_of) (token_at fields.sign_of) tokens.old
        ≡ Some (result, tokens.new) }
{
    let sign = sign_of(&tokens.first()?)?;
    tokens.skip();
    Some(sign)
}

/// A decimal, with a sign or without, whose number is left. `None` leaves the token that isn't one.
// An `Option`, since a `Result` of a decimal and a fault is moved byte by byte.
#[tactic(auto, unfolding(dbc_grammar::specs::Parsing::decimal_at))]
fn decimal_here(tokens: &mut Tokens) -> Option<Decimal>
    ensures { decimal_at tokens.old ≡ option_map (λ d. (d, drop 1 tokens.new)) result }
{
    let negative = sign(tokens).unwrap_or(false);
    number_of(negative, &tokens.first()?)
}

/// The fault of a token that is no decimal, or of a text that ends too early.
fn no_decimal(tokens: &Tokens) -> ReadFault {
    match tokens.first() {
        Some(token) => number_fault(&token, ReadCode::Number),
        None => tokens.unexpected(),
    }
}

/// Reads a decimal, with a sign or without. Code 35 at a number that is out of range.
// It is given by reference, since a result of a decimal or a fault is moved byte by byte.
#[inline(always)]
pub(crate) fn decimal(tokens: &mut Tokens, decimal: &mut Decimal) -> Result<(), ReadFault>
    ensures { ReadsTokens (λ u. decimal.new) result (decimal_at tokens.old) tokens.new }
{
    match decimal_here(tokens) {
        Some(number) => {
            *decimal = number;
            tokens.skip();
            Ok(())
        }
        None => Err(no_decimal(tokens)),
    }
}

/// Reads a decimal and the mark after it. Code 35 as [`decimal`].
#[inline(always)]
fn decimal_with(tokens: &mut Tokens, spelling: u8, decimal: &mut Decimal) -> Result<(), ReadFault>
    requires { kind_of spelling ≡ Some Mark }
    ensures { ReadsTokens (λ u. decimal.new) result
        (with_mark (decimal_at tokens.old) (spelling ∷ [])) tokens.new }
{
    match decimal_here(tokens) {
        Some(number) => {
            *decimal = number;
            skip_with(tokens, spelling)
        }
        None => Err(no_decimal(tokens)),
    }
}

/// Two decimals.
#[derive(Clone, Copy)]
pub(crate) struct Decimals {
    /// The first of them.
    pub first: Decimal,
    /// The second.
    pub second: Decimal,
}

impl Decimals {
    /// Two zeros.
    pub(crate) const ZEROS: Decimals = Decimals {
        first: Decimal::ZERO,
        second: Decimal::ZERO,
    };
}

/// Reads two decimals, each with the mark after it, after another mark.
#[inline(always)]
#[tactic(auto, unfolding(dbc_grammar::specs::Parsing::pair_at))]
pub(crate) fn pair(
    tokens: &mut Tokens,
    left: u8,
    between: u8,
    right: u8,
    pair: &mut Decimals,
) -> Result<(), ReadFault>
    requires between { kind_of between ≡ Some Mark }
    requires right { kind_of right ≡ Some Mark }
    ensures { ReadsTokens (λ u. (pair.new.first, pair.new.second)) result
        (pair_at (left ∷ []) (between ∷ []) (right ∷ []) tokens.old) tokens.new }
{
    mark(tokens, left)?;
    decimal_with(tokens, between, &mut pair.first)?;
    decimal_with(tokens, right, &mut pair.second)?;
    Ok(())
}

/// The type of a signal's values. Code 35 at another number.
pub(crate) fn value_type(tokens: &mut Tokens) -> Result<ValueType, ReadFault>
    ensures { ReadsTokens itself result (token_at fields.type_of tokens.old) tokens.new }
{
    let token = tokens.front()?;
    let value_type = whole(&token).and_then(|number| ValueType::of(number));
    tokens.accept(value_type, number_fault(&token, ReadCode::Number))
}

/// The name of the attribute with suspect parameter numbers.
pub(crate) fn attribute(tokens: &mut Tokens) -> Result<(), ReadFault>
    ensures { ReadsTokens itself result (one_at grammar.is_spn_name tokens.old) tokens.new }
{
    let token = tokens.front()?;
    tokens.accept(is_spn_name(&token).then_some(()), unexpected(&token))
}

/// A suspect parameter number.
pub(crate) fn spn(tokens: &mut Tokens) -> Result<Spn, ReadFault>
    ensures { ReadsTokens itself result (token_at grammar.spn_of tokens.old) tokens.new }
{
    let token = tokens.front()?;
    tokens.accept(spn_of(&token), unexpected(&token))
}
