//! The signals of a message.
ghost use Rattle.std.specs.Prelude.{◌≡◌, IfErr, IfOk, None, OnOk, Some, codes};
ghost use Rattle.dbc_words.specs.declared.keyword.Keyword.TheVariants.{Signal as SignalWord};
ghost use Rattle.dbc_grammar.specs.Fields as fields;
ghost use Rattle.dbc_grammar.specs.Parsing.{token_at, optional_at, mark_at, signal_at, signals_at};
ghost use Rattle.dbc_grammar.specs.Rules.{begins, starts};
ghost use Rattle.dbc_lex.specs.Fault.{UnlessMemory};
ghost use Rattle.dbc_statements.specs.Reading.{ReadsTokens, itself, with_one};
ghost use Rattle.dbc_statements.specs.Statement.{HaveNothingAttached, signals_of};

use crate::fields::{Decimals, key, layout, made_name, mark, pair, text};
use crate::names::{ListEnd, receivers};
use crate::statement::SignalOffsets;
use crate::tokens::Tokens;
use crate::words::{is_key, is_numeral, is_word, mux_of};
use bitlayout::Mux;
use dbc_lex::{ReadCode, ReadFault};
use dbc_sheet::{Signal, ValueTexts};
use dbc_words::{Keyword, Spn, Text, ValueType};
use std::alloc::Global;

/// A multiplexer indicator, if one comes next.
#[tactic(auto, unfolding(dbc_grammar::specs::Parsing::optional_at))]
fn mux(tokens: &mut Tokens) -> Option<Mux>
    ensures { optional_at (begins fields.mux_of) (token_at fields.mux_of) tokens.old
        ≡ Some (result, tokens.new) }
{
    let mux = mux_of(&tokens.first()?)?;
    tokens.skip();
    Some(mux)
}

/// What is wrong with a word where a multiplexer indicator may come: code 34 for extended multiplexing, `m`, digits and
/// `M`; 35 for a number above 4294967295; and else 32.
fn mux_code(word: &[u8]) -> ReadCode {
    match word {
        [b'm', digits @ .., b'M'] if is_numeral(digits) => ReadCode::ExtendedMultiplexing,
        [b'm', digits @ ..] if is_numeral(digits) => ReadCode::Number,
        _ => ReadCode::Unexpected,
    }
}

/// The colon after the name, or after the multiplexer indicator if there was one (`is_marked`). If there was none, a
/// word before the colon has the fault of a wrong indicator.
fn colon(tokens: &mut Tokens, is_marked: bool) -> Result<(), ReadFault>
    ensures { ReadsTokens itself result (mark_at (codes ":") tokens.old) tokens.new }
{
    match tokens.first() {
        Some(token) if !is_marked && is_word(&token) => Err(ReadFault {
            code: mux_code(token.text),
            at: token.start,
        }),
        _ => mark(tokens, b':'),
    }
}

/// Adds the signal from `SG_` on, and its offsets, and returns how its list of receivers ends.
#[inline(always)]
#[tactic(auto, unfolding(dbc_grammar::specs::Parsing::signal_at))]
fn add_signal(
    alloc: Global,
    tokens: &mut Tokens,
    signals: &mut Vec<Signal>,
    offsets: &mut Vec<SignalOffsets>,
) -> Result<ListEnd, ReadFault>
    ensures ok { OnOk result (with_one (signals_of signals.old.items) (signal_at tokens.old)
        ≡ Some (signals_of signals.new.items, tokens.new)) }
    ensures nothing { OnOk result
        (HaveNothingAttached signals.old.items → HaveNothingAttached signals.new.items) }
    ensures err { IfErr result (λ fault. UnlessMemory fault.code (signal_at tokens.old ≡ None)) }
{
    key(tokens, Keyword::Signal)?;
    let at = tokens.offset();
    let name = made_name(alloc, tokens)?;
    let mux_at = tokens.offset();
    let mux = mux(tokens);
    colon(tokens, mux.is_some())?;
    let (layout, signed) = layout(tokens)?;
    let mut scale = Decimals::ZEROS;
    pair(tokens, b'(', b',', b')', &mut scale)?;
    let mut range = Decimals::ZEROS;
    pair(tokens, b'[', b'|', b']', &mut range)?;
    let unit = text(alloc, tokens)?;
    let (receivers, ended) = receivers(alloc, tokens)?;
    signals.reserve(1)?;
    offsets.reserve(1)?;
    signals.push_reserved(Signal {
        name,
        layout,
        signed,
        mux: mux.unwrap_or(Mux::Always),
        factor: scale.first,
        offset: scale.second,
        minimum: range.first,
        maximum: range.second,
        unit,
        receivers,
        comment: Text::empty(alloc),
        spn: Spn::NONE,
        values: ValueTexts::empty(alloc),
        value_type: ValueType::Integer,
    });
    offsets.push_reserved(SignalOffsets { at, mux_at });
    Ok(ended)
}

/// Whether a signal comes next.
#[inline(always)]
fn is_signal(tokens: &Tokens) -> bool
    ensures { result ≡ starts (fields.is_key SignalWord) tokens.now }
{
    match tokens.first() {
        Some(token) => is_key(&token, Keyword::Signal),
        None => false,
    }
}

/// Signals, up to anything else, their offsets, and how the last one ends.
pub(crate) fn signals(
    alloc: Global,
    tokens: &mut Tokens,
) -> Result<(Vec<Signal>, Vec<SignalOffsets>, ListEnd), ReadFault>
    ensures reads { ReadsTokens (λ found. signals_of found.0.items) result (signals_at tokens.old)
        tokens.new }
    ensures nothing { IfOk result (λ found. HaveNothingAttached found.0.items) }
{
    let mut signals = Vec::new(alloc);
    let mut offsets = Vec::new(alloc);
    let mut ended = ListEnd::Other;
    'signals: while is_signal(tokens) {
        ended = add_signal(alloc, tokens, &mut signals, &mut offsets)?;
    }
    Ok((signals, offsets, ended))
}
