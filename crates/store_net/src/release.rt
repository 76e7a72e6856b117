//! The text of a release, and whether one has an identifier.
ghost use Rattle.std.specs.Prelude.{◌≡◌, Option, Some, IfOk};
ghost use Rattle.can_id.specs.Ident.{dbc_number};
ghost use Rattle.dbc_sheet.specs.Messages.{has_number};
ghost use Rattle.dbc_grammar.specs.Canon.{canonical_text};
ghost use Rattle.dbc_grammar.specs.Reads.{Reads, ReadsOnlyAs};
ghost use Rattle.dbc_sheet.specs.declared.sheet.Sheet.{Sheet as SheetModel};
ghost use Rattle.std.specs.Option.{option_map};
ghost use Rattle.office_rules.specs.Facts.{in_last};
ghost use Rattle.store_net.specs.Texts.{IsTextOf, release_at, release_has, release_text};
ghost use Rattle.store_tables.specs.Frames.{Asks, ReadsOnly};
ghost use Rattle.store_net.specs.Reading.{OnNet, OnNetThere};

use crate::nets::release_count;
use can_id::Ident;
use dbc_sheet::Message;
use dbc_write::text_of;
use office_types::NetName;
use sqlite::{Alter, Error, Transaction};
use std::alloc::Global;
use store_bodies::sheet_of;
use store_rows::blob_at;
use store_statements::select_release;

/// The canonical text of the sheet that the body reads as. An error is out of memory, or `InvalidQuery` where it reads
/// as none.
fn canonical_of(alloc: Global, body: &[u8]) -> Result<Vec<u8>, Error>
    ensures text { IfOk result (λ text. (sheet : SheetModel) → Reads body.now sheet
        → text.items ≡ canonical_text sheet) }
    ensures reads { IfOk result (λ text. (sheet : SheetModel) → Reads body.now sheet
        → ReadsOnlyAs text.items sheet) }
{
    match sheet_of(alloc, body)? {
        Some(sheet) => Ok(text_of(alloc, &sheet)?),
        None => Err(Error::InvalidQuery),
    }
}

/// The canonical text of the network's release of the number, `None` where there is no such release. It reads as that
/// release and as no other sheet. An error is out of memory, what `sqlite` answers, or `InvalidQuery` where the row is
/// no release's.
pub fn release_text<S: Alter>(
    alloc: Global,
    tx: &mut Transaction<'_, S>,
    name: &NetName,
    number: u32,
) -> Result<Option<Vec<u8>>, Error>
    ensures found { Asks S.Store tx.old tx.new result (OnNet name.now (λ net found.
        option_map (λ text. text.items) found ≡ release_text net number)) }
    ensures reads { Asks S.Store tx.old tx.new result (OnNet name.now (λ net found.
        IsTextOf (release_at net number) (option_map (λ text. text.items) found))) }
    ensures frame { ReadsOnly S.Store tx.old tx.new result }
{
    let rows = select_release(tx, name.as_bytes(), number)?;
    match rows.first() {
        Some(row) => Ok(Some(canonical_of(alloc, blob_at(row, 0)?)?)),
        None => Ok(None),
    }
}

/// Whether one of the messages has the identifier.
fn has_ident(messages: &[Message], ident: Ident) -> bool
    ensures { result ≡ has_number messages.now (dbc_number ident) }
{
    let number = ident.to_dbc();
    messages.iter().any(|message| message.number() == number)
}

/// Whether the sheet that the body reads as has a message of the identifier. An error is out of memory, or
/// `InvalidQuery` where it reads as none.
fn body_has(alloc: Global, body: &[u8], ident: Ident) -> Result<bool, Error>
    ensures { IfOk result (λ found. (sheet : SheetModel) → Reads body.now sheet
        → found ≡ has_number sheet.messages (dbc_number ident)) }
{
    match sheet_of(alloc, body)? {
        Some(sheet) => Ok(has_ident(sheet.messages(), ident)),
        None => Err(Error::InvalidQuery),
    }
}

/// Whether the network's release of the number has a message of the identifier; false where there is none of the
/// number. The errors are those of [`release_text`].
fn release_has_at<S: Alter>(
    alloc: Global,
    tx: &mut Transaction<'_, S>,
    name: &NetName,
    number: u32,
    ident: Ident,
) -> Result<bool, Error>
    ensures found { Asks S.Store tx.old tx.new result
        (OnNet name.now (λ net found. found ≡ release_has (release_at net number) ident)) }
    ensures frame { ReadsOnly S.Store tx.old tx.new result }
{
    let rows = select_release(tx, name.as_bytes(), number)?;
    match rows.first() {
        Some(row) => body_has(alloc, blob_at(row, 0)?, ident),
        None => Ok(false),
    }
}

/// Whether the last release of the network has a message of the identifier. The errors are those of [`release_text`].
pub(crate) fn last_has_at<S: Alter>(
    alloc: Global,
    tx: &mut Transaction<'_, S>,
    name: &NetName,
    ident: Ident,
) -> Result<bool, Error>
    ensures found { Asks S.Store tx.old tx.new result
        (OnNetThere name.now (λ net found. found ≡ in_last net.releases ident)) }
    ensures frame { ReadsOnly S.Store tx.old tx.new result }
{
    let count = release_count(tx, name)?;
    match u32::try_from(count) {
        Ok(number) => release_has_at(alloc, tx, name, number, ident),
        Err(_) => Err(Error::InvalidQuery),
    }
}
