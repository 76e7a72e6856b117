//! The releases of a network as sheets, each read after the one before it.
ghost use Rattle.std.specs.Prelude.{◌≡◌, Some, ◌+◌, length, slice_get, take, IfOk};
ghost use Rattle.dbc_grammar.specs.Reads.{Reads};
ghost use Rattle.dbc_sheet.specs.declared.sheet.Sheet.{Sheet as SheetModel};
ghost use Rattle.store_net.specs.NetParts.{HasLast};
ghost use Rattle.store_net.specs.Parts.{releases_in};
ghost use Rattle.store_net.specs.Reading.{OnNet, OnNetThere};
ghost use Rattle.store_net.specs.Texts.{release_at};
ghost use Rattle.store_tables.specs.Frames.{Asks, ReadsOnly, ReadsWhileOpen};

use crate::nets::release_count;
use base::Items;
use dbc_sheet::Sheet;
use office_types::NetName;
use sqlite::{Alter, Error, Transaction};
use std::alloc::{AllocError, Global};
use store_bodies::{ReadText, ReadTexts, TextsLeft, read_text};
use store_rows::blob_at;
use store_statements::select_release;

/// The body with the sheet that it reads as; where it is the known text, it isn't read. An error is out of memory, or
/// `InvalidQuery` where it reads as none.
fn read_body(alloc: Global, body: &[u8], known: Option<ReadText>) -> Result<ReadText, Error>
    ensures { IfOk result (λ found. (sheet : SheetModel) → Reads body.now sheet → found.sheet ≡ sheet) }
{
    match read_text(alloc, body, known)? {
        Some(read) => Ok(read),
        None => Err(Error::InvalidQuery),
    }
}

/// The network's release of the number, with its text; where that is the known one, it isn't read. An error is out of
/// memory, what `sqlite` answers, or `InvalidQuery` where there is no such release, or the row is no release's.
fn release_numbered<S: Alter>(
    alloc: Global,
    tx: &mut Transaction<'_, S>,
    name: &NetName,
    number: u32,
    known: Option<ReadText>,
) -> Result<ReadText, Error>
    ensures found { Asks S.Store tx.old tx.new result
        (OnNet name.now (λ net found. release_at net number ≡ Some found.sheet)) }
    ensures frame { ReadsOnly S.Store tx.old tx.new result }
{
    let rows = select_release(tx, name.as_bytes(), number)?;
    match rows.first() {
        Some(row) => read_body(alloc, blob_at(row, 0)?, known),
        None => Err(Error::InvalidQuery),
    }
}

/// The releases of the network from the first one to that of this number, with their texts. The known texts are those
/// of the first release, the second, and so on. The errors are those of [`release_numbered`].
fn releases_to<S: Alter>(
    alloc: Global,
    tx: &mut Transaction<'_, S>,
    name: &NetName,
    last: u32,
    known: TextsLeft,
) -> Result<ReadTexts, Error>
    ensures found { Asks S.Store tx.old tx.new result
        (OnNet name.now (λ net found. found.sheets ≡ take last (releases_in net))) }
    ensures frame { ReadsWhileOpen S.Store tx.old tx.new result }
{
    let mut known = known;
    let mut read = ReadTexts::none(alloc);
    for index in 0..last {
        let next = known.next();
        let text = release_numbered(alloc, tx, name, index + 1, next)?;
        read = read.with(text)?;
    }
    Ok(read)
}

/// The releases of the network of the name with their texts, from the first one on; none where it isn't there. The
/// known texts may be of an earlier time, or of another network: the first one is compared with the body of the first
/// release, and so on, and a body that is another text is read. An error is out of memory, what `sqlite` answers, or
/// `InvalidQuery` where the rows are no network's.
pub fn release_texts_at<S: Alter>(
    alloc: Global,
    tx: &mut Transaction<'_, S>,
    name: &NetName,
    known: ReadTexts,
) -> Result<ReadTexts, Error>
    ensures found { Asks S.Store tx.old tx.new result
        (OnNet name.now (λ net found. found.sheets ≡ releases_in net)) }
    ensures frame { ReadsOnly S.Store tx.old tx.new result }
{
    let count = release_count(tx, name)?;
    match u32::try_from(count) {
        Ok(last) => releases_to(alloc, tx, name, last, TextsLeft::of(known)),
        Err(_) => Err(Error::InvalidQuery),
    }
}

/// Sheets without anything, this many, and then this one. The error is out of memory.
fn sheets_before(alloc: Global, count: usize, last: Sheet) -> Result<Items<Sheet>, AllocError>
    ensures many { IfOk result (λ sheets. length sheets ≡ count + 1) }
    ensures last { IfOk result (λ sheets. slice_get sheets count ≡ Some last) }
{
    let mut sheets = Items::new(alloc);
    for _ in 0..count {
        sheets.push(Sheet::new(alloc))?;
    }
    sheets.push(last)?;
    Ok(sheets)
}

/// As many sheets as the network of the name has releases: the last one is the last release, the others are without
/// anything. No body of another release is read. The errors are those of [`release_texts_at`].
pub fn last_sheets_at<S: Alter>(
    alloc: Global,
    tx: &mut Transaction<'_, S>,
    name: &NetName,
) -> Result<Items<Sheet>, Error>
    ensures found { Asks S.Store tx.old tx.new result
        (OnNetThere name.now (λ net found. HasLast net.releases found)) }
    ensures frame { ReadsOnly S.Store tx.old tx.new result }
{
    let count = release_count(tx, name)?;
    if count == 0 {
        return Ok(Items::new(alloc));
    }
    match u32::try_from(count) {
        Ok(number) => {
            let last = release_numbered(alloc, tx, name, number, None)?;
            Ok(sheets_before(alloc, count - 1, last.into_sheet())?)
        }
        Err(_) => Err(Error::InvalidQuery),
    }
}
