//! What stands in a list, and its columns.
ghost use Rattle.std.specs.Prelude.{◌≡◌, [], IfOk, unwrap_or};
ghost use Rattle.std.specs.Option.{option_copied};
ghost use Rattle.rows.specs.Fact.{fact_of, of_word, of_words};

use base::{Checked, Items, Rule};
use bitlayout::{Layout, Mux};
use can_id::Ident;
use columns::Run;
use decimal::Decimal;
use std::alloc::{AllocError, Global};

/// A name in snake case, up to the first space.
pub type Name = [u8; 12];

/// Where a value stands in a line.
#[derive(Clone, Copy)]
pub enum Alignment {
    /// As wide as it is.
    Plain,
    /// Left-aligned in so many columns.
    Left(usize),
    /// Right-aligned in so many columns.
    Right(usize),
    /// After the column's name, right-aligned in so many columns.
    Counted(usize),
    /// The same, where the line has the first word of the name already: after the rest of it.
    Again(usize),
    /// After `<-`.
    From,
}

/// A column: its name, and where its values stand in a line.
#[derive(Clone, Copy)]
pub struct Column(pub Name, pub Alignment);

/// A value. A line has what people wrote escaped, so that it can be taken apart. Contracts see it as a `Fact`.
#[derive(Drop)]
pub enum Cell<'a> {
    /// An identifier, which takes four columns of a line, with `-` in each where there is none.
    Ident(Option<Ident>),
    /// A number.
    Number(u128),
    /// A name, or a word of ours, which needs no escapes. `-` is none.
    Name(&'a [u8]),
    /// A name that the list owns. `-` is none.
    Made(Items<u8>),
    /// What people wrote, as a word; no bytes are none.
    Word(&'a [u8]),
    /// What people wrote, up to the end of the line; no bytes are none.
    Rest(&'a [u8]),
    /// The front of what people wrote, and whether there is more; two points say so.
    Front(&'a [u8], bool),
    /// Numbers as runs.
    Runs(Items<Run>),
    /// Numbers as runs, of which a line has the first four.
    Free(Items<Run>),
    /// Whether something is so: a line has `!` or a point.
    Mark(bool),
    /// A name, and after a point that of its part, if it is about one. `-` is none.
    Path(&'a [u8], Option<&'a [u8]>),
    /// A word for what has changed, and, of a value, what was there and what is, as words. `-` is none.
    Change(&'a [u8], Option<(&'a [u8], &'a [u8])>),
    /// A number, `-` in a line where there is none.
    Maybe(Option<u128>),
    /// So many of so many.
    Share(usize, usize),
    /// A line of a file, and a column.
    Position(usize, usize),
    /// What people wrote, as words.
    Words(Items<&'a [u8]>),
    /// An identifier, of which a line has the form and the digits.
    Digits(Ident),
    /// Where a signal lies, and whether its raw value is signed.
    Layout(Layout, bool),
    /// When a signal is present.
    Mux(Mux),
    /// A decimal.
    Decimal(&'a Decimal),
    /// A factor and an offset.
    Scale(&'a Decimal, &'a Decimal),
    /// The least and the greatest value.
    Range(&'a Decimal, &'a Decimal),
}

impl<'a> Cell<'a> {
    /// What people wrote, if they wrote something, as a word.
    pub fn word<R: Rule>(text: Option<&'a Checked<R>>) -> Cell<'a>
        ensures { fact_of result ≡ of_word (unwrap_or (option_copied text.entry) []) }
    {
        match text {
            Some(text) => Cell::Word(text.as_bytes()),
            None => Cell::Word(&[]),
        }
    }

    /// What people wrote, as words. The error is out of memory.
    pub fn words<R: Rule>(alloc: Global, texts: &'a [Checked<R>]) -> Result<Cell<'a>, AllocError>
        ensures { IfOk result (λ cell. fact_of cell ≡ of_words texts.now) }
    {
        let mut words = Vec::new(alloc);
        for text in texts {
            words.push(text.as_bytes())?;
        }
        Ok(Cell::Words(Items::from_vec(words)))
    }
}
