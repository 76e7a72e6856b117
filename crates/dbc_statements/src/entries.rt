//! Lists of values with their texts.
ghost use Rattle.std.specs.Prelude.{◌≡◌, ◌≤◌, [], ◌∷◌, ◌++◌, IfErr, IfOk, None, OnErr, OnOk, Some, SomeIff, is_some};
ghost use Rattle.std.specs.Prelude.{length, nat_lt};
ghost use Rattle.dbc_words.specs.Limits.{value_text_limit};
ghost use Rattle.dbc_grammar.specs.Grammar as grammar;
ghost use Rattle.dbc_grammar.specs.Parsing.{entry_at, entries_at};
ghost use Rattle.dbc_grammar.specs.Rules.{starts};
ghost use Rattle.dbc_lex.specs.Fault.{UnlessMemory};
ghost use Rattle.dbc_statements.specs.Reading.{ReadsTokens, itself, with_one};

use crate::fields::{decimal, text};
use crate::tokens::Tokens;
use crate::words::is_mark;
use dbc_lex::ReadFault;
use dbc_sheet::{ValueText, ValueTexts};
use dbc_words::VALUE_TEXT_LIMIT;
use decimal::Decimal;
use std::alloc::{AllocError, Global};
use std::marker::Model;

/// Values and their texts, in order, any number of them. Contracts see them as their list.
#[derive(Drop)]
pub struct Entries {
    entries: Vec<ValueText>,
    above: Option<usize>,
}

impl Model for Entries {
    ghost use Rattle.std.specs.Prelude.{◌≡◌, List, is_some, length, nat_lt};
    ghost use Rattle.dbc_words.specs.Limits.{value_text_limit};
    ghost use Rattle.dbc_sheet.specs.declared.value_texts.ValueText.{ValueText};

    ghost Value = { List ValueText };

    ghost view = { λ e. e.entries.items };

    ghost invariant = { λ e. is_some e.above ≡ nat_lt value_text_limit (length e.entries.items) };
}

/// For how many entries room is reserved at first: most lists have two.
const USUAL_ENTRIES: usize = 2;

impl Entries {
    /// No entries. Takes no memory.
    pub fn empty(alloc: Global) -> Entries
        ensures { result ≡ [] }
    {
        Entries {
            entries: Vec::new(alloc),
            above: None,
        }
    }

    /// No entries yet, with room for some.
    fn with_room(alloc: Global) -> Result<Entries, AllocError>
        ensures { IfOk result (λ entries. entries ≡ []) }
    {
        Ok(Entries {
            entries: Vec::with_capacity(alloc, USUAL_ENTRIES)?,
            above: None,
        })
    }

    /// Adds the entry at this offset as the last one.
    #[inline(always)]
    fn push(&mut self, offset: usize, entry: ValueText) -> Result<(), AllocError>
        ensures ok { OnOk result (self.new ≡ self.old ++ entry ∷ []) }
        ensures err { OnErr result (self.new ≡ self.old) }
    {
        self.entries.reserve(1)?;
        self.entries.push_reserved(entry);
        if self.entries.len() == VALUE_TEXT_LIMIT + 1 {
            self.above = Some(offset);
        }
        Ok(())
    }

    /// The entries, in order.
    pub fn as_slice(&self) -> &[ValueText]
        ensures { result.now ≡ self.now }
    {
        &self.entries
    }

    /// The offset of the first entry above the limit of 65,536, or `None` if there aren't more.
    pub fn above(&self) -> Option<usize>
        ensures { is_some result ≡ nat_lt value_text_limit (length self.now) }
    {
        self.above
    }

    /// The texts of a signal or a value table, or `None` if there are more than 65,536. Takes no memory.
    pub fn into_texts(self) -> Option<ValueTexts>
        ensures { SomeIff result (length self ≤ value_text_limit) self }
    {
        ValueTexts::of(self.entries)
    }
}

/// Whether a token other than `;` comes next.
#[inline(always)]
pub(crate) fn is_open(tokens: &Tokens) -> bool
    ensures { result ≡ starts grammar.is_open tokens.now }
{
    match tokens.first() {
        Some(token) => !is_mark(&token, b';'),
        None => false,
    }
}

/// Adds a value and its text to the entries.
#[inline(always)]
#[tactic(auto, unfolding(dbc_grammar::specs::Parsing::entry_at))]
fn add_entry(alloc: Global, tokens: &mut Tokens, entries: &mut Entries) -> Result<(), ReadFault>
    ensures ok { OnOk result
        (with_one entries.old (entry_at tokens.old) ≡ Some (entries.new, tokens.new)) }
    ensures err { IfErr result (λ fault. UnlessMemory fault.code (entry_at tokens.old ≡ None)) }
{
    let offset = tokens.offset();
    let mut value = Decimal::ZERO;
    decimal(tokens, &mut value)?;
    let text = text(alloc, tokens)?;
    entries.push(offset, ValueText { value, text })?;
    Ok(())
}

/// Values and their texts, up to `;`.
pub(crate) fn entry_list(alloc: Global, tokens: &mut Tokens) -> Result<Entries, ReadFault>
    ensures { ReadsTokens itself result (entries_at tokens.old) tokens.new }
{
    let mut entries = Entries::with_room(alloc)?;
    'entries: while is_open(tokens) {
        add_entry(alloc, tokens, &mut entries)?;
    }
    Ok(entries)
}
