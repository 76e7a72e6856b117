//! Letters and colours of teams and nodes.
ghost use Rattle.std.specs.Prelude.{◌≡◌, IfOk, filter, map};
ghost use Rattle.markup.specs.Writing.{Becomes, adding};
ghost use Rattle.page_parts.specs.Colours.{class, classes};
ghost use Rattle.page_parts.specs.Letters.{AreAscending, AreNamesOf, badge, before_name, class_in, has_bytes, index_in};
ghost use Rattle.page_parts.specs.Letters.{letter, letter_or};

use crate::names::Names;
use markup::{Attribute, Markup, Tag};
use std::alloc::AllocError;
use std::marker::Model;

/// How many colours there are.
const TONES: usize = 8;

/// How a cell of a colour is filled.
#[derive(Clone, Copy)]
pub enum Shade {
    /// Of a live number: filled.
    Live,
    /// Of a held number: striped.
    Held,
    /// Of a free number: tinted.
    Free,
}

/// Names in ascending order of their bytes, each of which has a letter and a colour on the page. Contracts see it as
/// the list of the names.
#[derive(Drop)]
pub struct Letters<'a> {
    names: Names<'a>,
}

impl<'a> Model for Letters<'a> {
    ghost use Rattle.std.specs.Prelude.{ℕ, List};

    ghost Value = { List (List ℕ) };

    ghost view = { λ letters. letters.names };
}

/// The classes of a shade, by the index of a colour; the last is that of no colour.
fn classes_of(shade: Shade) -> &'static [&'static [u8]; 9]
    ensures { map (λ one. one.now) result.now ≡ classes shade }
{
    match shade {
        Shade::Live => &[
            b"l t0", b"l t1", b"l t2", b"l t3", b"l t4", b"l t5", b"l t6", b"l t7", b"l tx",
        ],
        Shade::Held => &[
            b"h t0", b"h t1", b"h t2", b"h t3", b"h t4", b"h t5", b"h t6", b"h t7", b"h tx",
        ],
        Shade::Free => &[
            b"f t0", b"f t1", b"f t2", b"f t3", b"f t4", b"f t5", b"f t6", b"f t7", b"f tx",
        ],
    }
}

/// The class of a cell of this shade, in the colour of an index.
fn class_of(shade: Shade, index: Option<usize>) -> &'static [u8]
    ensures { result.now ≡ class shade index }
{
    let classes = classes_of(shade);
    match index {
        Some(index) => classes[index % TONES],
        None => classes[TONES],
    }
}

/// Adds the letter of an index: A to Z, and then AA, AB and so on.
#[tactic(auto, unfolding(crate::specs::Letters::letter))]
fn put_letter(page: &mut Markup, index: usize, is_small: bool)
    ensures { Becomes page.new (adding (letter index is_small) page.old) }
{
    if index >= 26 {
        put_letter(page, index / 26 - 1, is_small);
    }
    let first = if is_small { b'a' } else { b'A' };
    page.text(&[first + (index % 26) as u8]);
}

/// Those of the names that have bytes.
fn with_bytes<'a>(names: Vec<&'a [u8]>) -> Vec<&'a [u8]>
    ensures { map (λ one. one.now) result.items
        ≡ filter has_bytes (map (λ one. one.now) names.entry.items) }
{
    let mut names = names;
    names.retain(|name| !name.is_empty());
    names
}

impl<'a> Letters<'a> {
    /// Letters for these names but those without bytes. The error is out of memory.
    pub fn of(names: Vec<&'a [u8]>) -> Result<Letters<'a>, AllocError>
        ensures { IfOk result (λ letters. AreNamesOf (map (λ one. one.now) names.entry.items) letters) }
    {
        let names = Names::of(with_bytes(names))?;
        Ok(Letters { names })
    }

    /// The names, in ascending order.
    pub fn names(&self) -> &[&'a [u8]]
        ensures names { map (λ one. one.now) result.now ≡ self.now }
        ensures ascending { AreAscending self.now }
    {
        self.names.as_slice()
    }

    /// Where the name is among the names, if it is one of them.
    pub fn index_of(&self, name: &[u8]) -> Option<usize>
        ensures { result ≡ index_in self.now name.now }
    {
        self.names.index_of(name)
    }

    /// The class of a cell of this shade, in the colour of the name.
    pub fn class_of(&self, shade: Shade, name: &[u8]) -> &'static [u8]
        ensures { result.now ≡ class_in shade self.now name.now }
    {
        class_of(shade, self.index_of(name))
    }

    /// Adds the letter of the name, or `otherwise` where it has none.
    #[tactic(auto, unfolding(crate::specs::Letters::letter_or))]
    pub fn put_letter_or(&self, page: &mut Markup, name: &[u8], is_small: bool, otherwise: &str)
        ensures { Becomes page.new
            (adding (letter_or self.now name.now is_small otherwise.now) page.old) }
    {
        match self.index_of(name) {
            Some(index) => put_letter(page, index, is_small),
            None => page.text(otherwise.as_bytes()),
        }
    }

    /// Adds the name after its letter in its colour; a name without a letter alone.
    #[tactic(auto, unfolding(crate::specs::Letters::badge))]
    pub fn put_badge(&self, page: &mut Markup, name: &[u8])
        ensures { Becomes page.new (adding (badge self.now name.now) page.old) }
    {
        put_before_name(page, self.index_of(name));
        page.text(name);
    }
}

/// Adds what stands before the name of an index: its letter in its colour.
fn put_before_name(page: &mut Markup, index: Option<usize>)
    ensures { Becomes page.new (adding (before_name index) page.old) }
{
    if let Some(index) = index {
        let class = class_of(Shade::Live, Some(index));
        page.open(Tag::Bold, &[Attribute::Class(class)]);
        put_letter(page, index, false);
        page.close();
        page.text("\u{a0}".as_bytes());
    }
}
