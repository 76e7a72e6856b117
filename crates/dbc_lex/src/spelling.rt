//! Where a gap or a token ends.
//!
//! All of it is inlined into the one function that takes the next token. It calls none, so it saves no registers.
ghost use Rattle.std.specs.Prelude.{◌≡◌, ◌==◌, ◌||◌, ◌≤◌, ◌<◌, ◌+◌, length, get_or, drop, false, Some, IfSome};
ghost use Rattle.std.specs.Bool.{if◌then◌else◌};
ghost use Rattle.std.specs.Char.{is_ascii_digit};
ghost use Rattle.std.specs.List.{prefix_len};
ghost use Rattle.decimal.specs.Cutting.{fraction_len};
ghost use Rattle.decimal.specs.Spelling.{is_letter_e, is_sign};
ghost use Rattle.dbc_words.specs.Name.{continues_identifier};
ghost use Rattle.dbc_grammar.specs.Spelling.{is_gap};
ghost use Rattle.dbc_grammar.specs.Lexing.{kind_of, exponent_len, number_len, inside_len, tail_len, word_len};
ghost use Rattle.dbc_grammar.specs.declared.token.TokenKind.TheVariants.{Mark, Number};
ghost use Rattle.dbc_lex.specs.First.{kind_at};
ghost use Rattle.dbc_lex.specs.Offset.{further_by};

use crate::kinds::{Class, class_of, continues_name};
use dbc_grammar::TokenKind;

/// The offset of the first byte at the offset or after it that is no gap, or the end; and the kind of the tokens that
/// begin with that byte, if one does.
#[inline(always)]
pub(crate) fn first_after_gap(source: &[u8], at: usize) -> (usize, Option<TokenKind>)
    requires { at ≤ length source.now }
    ensures is { result.0 ≡ at + prefix_len is_gap (drop at source.now) }
    ensures within { result.0 ≤ length source.now }
    ensures kind { result.1 ≡ kind_at source.now result.0 }
{
    let mut end = at;
    while end < source.len() {
        match class_of(source[end]) {
            Class::Name => return (end, Some(TokenKind::Name)),
            Class::Number => return (end, Some(TokenKind::Number)),
            Class::Text => return (end, Some(TokenKind::Text)),
            Class::Mark => return (end, Some(TokenKind::Mark)),
            Class::Gap | Class::Space => end += 1,
            Class::Stray => return (end, None),
        }
    }
    (source.len(), None)
}

/// The offset of the mark if it comes at the offset or after one space there.
#[inline(always)]
pub(crate) fn mark_start(source: &[u8], at: usize, mark: u8) -> Option<usize>
    requires { kind_of mark ≡ Some Mark }
    ensures is { IfSome result (λ start. start ≡ at + prefix_len is_gap (drop at source.now)) }
    ensures within { IfSome result (λ start. start < length source.now) }
    ensures kind { IfSome result (λ start. kind_of (get_or source.now start 0) ≡ Some Mark) }
    ensures mark { IfSome result (λ start. get_or source.now start 0 ≡ mark) }
{
    if at < source.len() && source[at] == mark {
        return Some(at);
    }
    if at < source.len() && source[at] == b' ' {
        let next = at + 1;
        if next < source.len() && source[next] == mark {
            return Some(next);
        }
    }
    None
}

/// The offset after the bytes at the offset that may come after the first one of a name. The end of the text is looked
/// for after each byte and not before it, which takes fewer instructions.
#[inline(always)]
fn name_end(source: &[u8], at: usize) -> usize
    requires { at ≤ length source.now }
    ensures is { result ≡ at + prefix_len continues_identifier (drop at source.now) }
    ensures within { result ≤ length source.now }
{
    if at == source.len() {
        return at;
    }
    let mut end = at;
    while continues_name(source[end]) {
        end += 1;
        if end == source.len() {
            return end;
        }
    }
    end
}

/// The offset after the digits at the offset.
#[inline(always)]
fn digits_end(source: &[u8], at: usize) -> usize
    requires { at ≤ length source.now }
    ensures is { result ≡ at + prefix_len is_ascii_digit (drop at source.now) }
    ensures within { result ≤ length source.now }
{
    let mut end = at;
    while end < source.len() {
        if !source[end].is_ascii_digit() {
            return end;
        }
        end += 1;
    }
    source.len()
}

/// The offset after a point with its digits, if they come at the offset.
#[inline(always)]
fn fraction_end(source: &[u8], at: usize) -> usize
    requires { at ≤ length source.now }
    ensures is { result ≡ at + fraction_len (drop at source.now) }
    ensures within { (at ≤ result) × (result ≤ length source.now) }
{
    if at < source.len() && source[at] == b'.' {
        digits_end(source, at + 1)
    } else {
        at
    }
}

/// The offset after a sign, if one comes at the offset.
#[inline(always)]
fn sign_end(source: &[u8], at: usize) -> usize
    requires { at ≤ length source.now }
    ensures is { result ≡ (if is_sign (get_or source.now at 0) then at + 1 else at) }
    ensures within { (at ≤ result) × (result ≤ length source.now) }
{
    if at < source.len() && matches!(source[at], b'+' | b'-') {
        at + 1
    } else {
        at
    }
}

/// Whether the byte may begin an exponent.
#[inline(always)]
fn is_letter_e(byte: u8) -> bool
    ensures { result ≡ is_letter_e byte }
{
    matches!(byte, b'E' | b'e')
}

/// The offset after an exponent with its letter, if one comes at the offset.
#[inline(always)]
fn exponent_end(source: &[u8], at: usize) -> usize
    requires { at ≤ length source.now }
    ensures is { result ≡ at + exponent_len (drop at source.now) }
    ensures within { (at ≤ result) × (result ≤ length source.now) }
{
    if at == source.len() {
        return at;
    }
    if !is_letter_e(source[at]) {
        return at;
    }
    let digits = sign_end(source, at + 1);
    let end = digits_end(source, digits);
    if end == digits { at } else { end }
}

/// The offset after a point with its digits and an exponent, if they come at the offset.
#[inline(always)]
fn tail_end(source: &[u8], whole: usize) -> usize
    requires { whole ≤ length source.now }
    ensures is { result ≡ whole + tail_len (drop whole source.now) }
    ensures within { (whole ≤ result) × (result ≤ length source.now) }
{
    exponent_end(source, fraction_end(source, whole))
}

/// Whether a point or an exponent may begin with the byte. Most bytes after digits are before or after all of these.
#[inline(always)]
fn begins_tail(byte: u8) -> bool
    ensures { result ≡ (byte == 46 || is_letter_e byte) }
{
    byte >= b'.' && byte <= b'e' && (byte == b'.' || is_letter_e(byte))
}

/// The offset after the number whose first digit is at the offset. Most numbers are digits alone.
#[inline(always)]
fn number_end(source: &[u8], start: usize) -> usize
    requires there { start < length source.now }
    requires kind { kind_of (get_or source.now start 0) ≡ Some Number }
    ensures is { result ≡ start + number_len (drop start source.now) }
    ensures within { (start ≤ result) × (result ≤ length source.now) }
{
    let whole = digits_end(source, start + 1);
    if whole == source.len() {
        return whole;
    }
    if begins_tail(source[whole]) {
        tail_end(source, whole)
    } else {
        whole
    }
}

/// The offset of the quote that closes a text whose first byte after its opening quote is at the offset; `None` if no
/// quote closes it. A backslash escapes the next byte. Most bytes of texts are small letters, which come after both
/// marks.
#[inline(always)]
fn closing_quote(source: &[u8], at: usize) -> Option<usize>
    requires { at ≤ length source.now }
    ensures is { result ≡ further_by at (inside_len false (drop at source.now)) }
    ensures within { IfSome result (λ n. n < length source.now) }
{
    let mut n = at;
    while n < source.len() {
        match source[n] {
            byte if byte > b'\\' => n += 1,
            b'"' => return Some(n),
            b'\\' => n += 2,
            _ => n += 1,
        }
    }
    None
}

/// The offset after the token of this kind whose first byte is at the offset; `None` for a text that no quote closes.
#[inline(always)]
#[tactic(auto, unfolding(dbc_grammar::specs::Lexing::word_len))]
pub(crate) fn word_end(kind: TokenKind, source: &[u8], start: usize) -> Option<usize>
    requires there { start < length source.now }
    requires kind { kind_of (get_or source.now start 0) ≡ Some kind }
    ensures is { result ≡ further_by start (word_len kind (drop start source.now)) }
    ensures within { IfSome result (λ n. (start ≤ n) × (n ≤ length source.now)) }
{
    match kind {
        TokenKind::Name => Some(name_end(source, start + 1)),
        TokenKind::Number => Some(number_end(source, start)),
        TokenKind::Text => Some(closing_quote(source, start + 1)? + 1),
        TokenKind::Mark => Some(start + 1),
    }
}
