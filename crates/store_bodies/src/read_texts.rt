//! Texts that were read, with their sheets, so that a text that is met again isn't read again.
ghost use Rattle.std.specs.Prelude.{◌≡◌, ◌++◌, ◌∷◌, [], ℕ, IfOk, IfSome, IsTrue, MatchOption, Some, take};
ghost use Rattle.std.specs.Option.{option_map};
ghost use Rattle.dbc_grammar.specs.Reads.{Reads};
ghost use Rattle.dbc_sheet.specs.declared.sheet.Sheet.{Sheet as Whole};
ghost use Rattle.store_bodies.specs.ReadText.{AreReadAs, IsLongestWithin, IsReadAs, first_read};

use crate::bodies::sheet_of;
use base::Items;
use dbc_sheet::Sheet;
use std::alloc::{AllocError, Global};
use std::marker::Model;
use std::vec::IntoIter;

/// A text, and the sheet that it reads as.
pub struct ReadText {
    text: Items<u8>,
    sheet: Sheet,
}

impl Model for ReadText {
    ghost use Rattle.store_bodies.specs.ReadText.{IsReadAs, TextRead};

    ghost Value = { TextRead };

    ghost view = { λ read. record { text = read.text; sheet = read.sheet } };

    ghost invariant = { λ read. IsReadAs read.text read.sheet };
}

impl ReadText {
    /// The text, and its sheet.
    fn into_parts(self) -> (Items<u8>, Sheet)
        ensures text { result.0 ≡ self.text }
        ensures sheet { result.1 ≡ self.sheet }
        ensures read { IsReadAs result.0 result.1 }
    {
        let ReadText { text, sheet } = self;
        (text, sheet)
    }

    /// The sheet. Takes no memory.
    pub fn into_sheet(self) -> Sheet
        ensures { result ≡ self.sheet }
    {
        let (_, sheet) = self.into_parts();
        sheet
    }

    /// Whether it is this text, byte for byte.
    fn is_of(&self, text: &[u8]) -> bool
        ensures same { IsTrue result → self.now.text ≡ text.now }
        ensures read { IsReadAs self.now.text self.now.sheet }
    {
        self.text.as_slice() == text
    }
}

impl Drop for ReadText {
    fn drop(self) {
        let ReadText {
            text: _text,
            sheet: _sheet,
        } = self;
    }
}

/// The text, read. The errors and `None` are those of [`sheet_of`].
fn read_anew(alloc: Global, text: &[u8]) -> Result<Option<ReadText>, AllocError>
    ensures found { IfOk result (λ found. (sheet : Whole) → Reads text.now sheet
        → option_map (λ read. read.sheet) found ≡ Some sheet) }
    ensures text { IfOk result (λ found. IfSome found (λ read. read.text ≡ text.now)) }
{
    match sheet_of(alloc, text)? {
        Some(sheet) => {
            let copy = Vec::from_slice(alloc, text)?;
            Ok(Some(ReadText {
                text: Items::from_vec(copy),
                sheet,
            }))
        }
        None => Ok(None),
    }
}

/// The text with the sheet that it reads as, whatever is skipped; `None` where it reads as none. Where it is the known
/// text, byte for byte, that is given back, and nothing is read. The error is out of memory.
pub fn read_text(
    alloc: Global,
    text: &[u8],
    known: Option<ReadText>,
) -> Result<Option<ReadText>, AllocError>
    ensures found { IfOk result (λ found. (sheet : Whole) → Reads text.now sheet
        → option_map (λ read. read.sheet) found ≡ Some sheet) }
    ensures text { IfOk result (λ found. IfSome found (λ read. read.text ≡ text.now)) }
{
    match known {
        Some(known) => {
            if known.is_of(text) {
                return Ok(Some(known));
            }
            read_anew(alloc, text)
        }
        None => read_anew(alloc, text),
    }
}

/// Texts, each with the sheet that it reads as. The sheets are in a list of their own, so that they can be moved out of
/// it and back. Nothing of it says where a text comes from: it holds of the bytes alone.
pub struct ReadTexts {
    texts: Items<Items<u8>>,
    sheets: Items<Sheet>,
}

impl Model for ReadTexts {
    ghost use Rattle.store_bodies.specs.ReadText.{AreReadAs, TextsRead};

    ghost Value = { TextsRead };

    ghost view = { λ read. record { texts = read.texts; sheets = read.sheets } };

    ghost invariant = { λ read. AreReadAs read.texts read.sheets };
}

impl ReadTexts {
    /// No texts. Takes no memory.
    pub fn none(alloc: Global) -> ReadTexts
        ensures { result ≡ record { texts = []; sheets = [] } }
    {
        ReadTexts {
            texts: Items::new(alloc),
            sheets: Items::new(alloc),
        }
    }

    /// These texts, with these sheets. Takes no memory.
    pub fn of(texts: Items<Items<u8>>, sheets: Items<Sheet>) -> ReadTexts
        requires { AreReadAs texts sheets }
        ensures { result ≡ record { texts = texts; sheets = sheets } }
    {
        ReadTexts { texts, sheets }
    }

    /// The texts, and their sheets. Takes no memory.
    pub fn into_parts(self) -> (Items<Items<u8>>, Items<Sheet>)
        ensures texts { result.0 ≡ self.texts }
        ensures sheets { result.1 ≡ self.sheets }
        ensures read { AreReadAs result.0 result.1 }
    {
        let ReadTexts { texts, sheets } = self;
        (texts, sheets)
    }

    /// These texts, and this one after them. The error is out of memory.
    pub fn with(self, read: ReadText) -> Result<ReadTexts, AllocError>
        ensures { IfOk result (λ all. all ≡ record {
          texts = self.texts ++ read.text ∷ [];
          sheets = self.sheets ++ read.sheet ∷ [];
        }) }
    {
        let (mut texts, mut sheets) = self.into_parts();
        let (text, sheet) = read.into_parts();
        texts.push(text)?;
        sheets.push(sheet)?;
        Ok(ReadTexts { texts, sheets })
    }

    /// The longest beginning of them that has at most so many bytes of text.
    pub fn cut_to(self, limit: usize) -> ReadTexts
        ensures { (count : ℕ) × IsLongestWithin limit self.texts count × (result ≡ first_read count self) }
    {
        let (texts, sheets) = self.into_parts();
        let count = count_within(texts.as_slice(), limit);
        ReadTexts {
            texts: first_of(texts, count),
            sheets: first_of(sheets, count),
        }
    }
}

impl Drop for ReadTexts {
    fn drop(self) {
        let ReadTexts {
            texts: _texts,
            sheets: _sheets,
        } = self;
    }
}

/// How many texts the longest beginning has that has at most so many bytes.
fn count_within(texts: &[Items<u8>], limit: usize) -> usize
    ensures { IsLongestWithin limit texts.now result }
{
    let mut room = limit;
    for (count, text) in texts.iter().enumerate() {
        let size = text.as_slice().len();
        if size > room {
            return count;
        }
        room -= size;
    }
    texts.len()
}

/// The first items, so many.
fn first_of<T: Drop>(items: Items<T>, count: usize) -> Items<T>
    ensures { result ≡ take count items }
{
    let mut items = items.into_vec();
    items.truncate(count);
    Items::from_vec(items)
}

/// Texts with their sheets that are handed out one by one, from the first on. Contracts see those that are left.
pub struct TextsLeft {
    texts: IntoIter<Items<u8>>,
    sheets: IntoIter<Sheet>,
}

impl Model for TextsLeft {
    ghost use Rattle.std.specs.Vec.Iter.{into_iter_items};
    ghost use Rattle.store_bodies.specs.ReadText.{AreReadAs, TextsRead};

    ghost Value = { TextsRead };

    ghost view = { λ left. record { texts = into_iter_items left.texts; sheets = into_iter_items left.sheets } };

    ghost invariant = { λ left. AreReadAs (into_iter_items left.texts) (into_iter_items left.sheets) };
}

impl TextsLeft {
    /// All of these. Takes no memory.
    pub fn of(read: ReadTexts) -> TextsLeft
        ensures { result ≡ read }
    {
        let (texts, sheets) = read.into_parts();
        TextsLeft {
            texts: texts.into_vec().into_iter(),
            sheets: sheets.into_vec().into_iter(),
        }
    }

    /// The first one that is left, which is handed out; `None` where none is left.
    pub fn next(&mut self) -> Option<ReadText>
        ensures { MatchOption result (self.old.texts ≡ []) (λ read. self.old ≡ record {
          texts = read.text ∷ self.new.texts;
          sheets = read.sheet ∷ self.new.sheets;
        }) }
    {
        let text = self.texts.next()?;
        let sheet = self.sheets.next()?;
        Some(ReadText { text, sheet })
    }
}

impl Drop for TextsLeft {
    fn drop(self) {
        let TextsLeft {
            texts: _texts,
            sheets: _sheets,
        } = self;
    }
}
