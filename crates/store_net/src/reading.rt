//! A network, and the book of suspect parameter numbers, as the tables have them.
ghost use Rattle.std.specs.Prelude.{◌≡◌, [], length, Option, IfOk};
ghost use Rattle.std.specs.Option.{option_map};
ghost use Rattle.office_law.specs.Released.{with_releases};
ghost use Rattle.office_types.specs.declared.book.SpnBook.{SpnBook as Book};
ghost use Rattle.store_rows.specs.Rows.{IsBookIn};
ghost use Rattle.store_net.specs.Counted.{HasAsMany};
ghost use Rattle.store_net.specs.NetParts.{outline, partial_net};
ghost use Rattle.store_tables.specs.Frames.{Asks, ReadsOnly};
ghost use Rattle.store_net.specs.Reading.{OnNet};

use crate::live_list::{live_messages, messages_with};
use crate::nets::release_count;
use crate::parts::{
    approvals_of, blocks_of, head_of, held_of, releases_of, spn_blocks_of, used_of,
};
use crate::signal_parts::SignalParts;
use base::{Copying, Items};
use dbc_sheet::Sheet;
use office_types::{FrozenSheet, Net, NetName, SpnBook, UsedSpns};
use sqlite::{Alter, Error, Transaction};
use std::alloc::{AllocError, Global};

/// The network of the name with all its parts but its live messages and its releases, of which it has none; `None`
/// where it isn't there. No row of a live message and no body of a release is read. If the tables have a network under
/// the name, it is that one without them. An error is out of memory, what `sqlite` answers, or `InvalidQuery` where the
/// rows are no network's.
pub fn outline_at<S: Alter>(
    alloc: Global,
    tx: &mut Transaction<'_, S>,
    name: &NetName,
) -> Result<Option<Net>, Error>
    ensures found { Asks S.Store tx.old tx.new result
        (OnNet name.now (λ net found. found ≡ option_map outline net)) }
    ensures frame { ReadsOnly S.Store tx.old tx.new result }
{
    let Some(head) = head_of(alloc, tx, name)? else {
        return Ok(None);
    };
    let blocks = blocks_of(alloc, tx, name)?;
    let held = held_of(alloc, tx, name)?;
    let approvals = approvals_of(alloc, tx, name)?;
    Ok(Some(Net {
        name: name.duplicate(alloc)?,
        head,
        live: Items::new(alloc),
        blocks,
        held,
        approvals,
        releases: Items::new(alloc),
    }))
}

/// The network of the name with all its parts but its releases, of which it has none; `None` where it isn't there. No
/// body of a release is read. If the tables have a network under the name, it is that one without its releases. The
/// errors are those of [`outline_at`].
pub fn unreleased_net_at<S: Alter>(
    alloc: Global,
    tx: &mut Transaction<'_, S>,
    name: &NetName,
) -> Result<Option<Net>, Error>
    ensures found { Asks S.Store tx.old tx.new result
        (OnNet name.now (λ net found. found ≡ option_map (with_releases []) net)) }
    ensures frame { ReadsOnly S.Store tx.old tx.new result }
{
    let Some(mut net) = outline_at(alloc, tx, name)? else {
        return Ok(None);
    };
    net.live = live_messages(alloc, tx, name)?;
    Ok(Some(net))
}

/// The network of the name with its live messages, of which the signals are as far as they are wanted, and without its
/// releases; `None` where it isn't there. It isn't looked whether there are rows of signals that no live message has.
/// The errors are those of [`outline_at`].
pub fn partial_net_at<S: Alter>(
    alloc: Global,
    tx: &mut Transaction<'_, S>,
    name: &NetName,
    detail: SignalParts,
) -> Result<Option<Net>, Error>
    ensures found { Asks S.Store tx.old tx.new result
        (OnNet name.now (λ net found. found ≡ option_map (partial_net detail) net)) }
    ensures frame { ReadsOnly S.Store tx.old tx.new result }
{
    let Some(mut net) = outline_at(alloc, tx, name)? else {
        return Ok(None);
    };
    net.live = messages_with(alloc, tx, name, detail)?;
    Ok(Some(net))
}

/// Sheets without anything, this many. The error is out of memory.
fn empty_sheets(alloc: Global, count: usize) -> Result<Items<FrozenSheet>, AllocError>
    ensures { IfOk result (λ sheets. length sheets ≡ count) }
{
    let mut sheets = Items::new(alloc);
    for _ in 0..count {
        sheets.push(FrozenSheet::of(Sheet::new(alloc), Items::new(alloc)))?;
    }
    Ok(sheets)
}

/// The network of the name, with sheets without anything in the place of its releases, as many as it has, for a command
/// that depends on how many there are; `None` where it isn't there. No body of a release is read. The errors are those
/// of [`unreleased_net_at`].
pub fn counted_net_at<S: Alter>(
    alloc: Global,
    tx: &mut Transaction<'_, S>,
    name: &NetName,
) -> Result<Option<Net>, Error>
    ensures found { Asks S.Store tx.old tx.new result
        (OnNet name.now (λ net found. HasAsMany net found)) }
    ensures frame { ReadsOnly S.Store tx.old tx.new result }
{
    let Some(mut net) = unreleased_net_at(alloc, tx, name)? else {
        return Ok(None);
    };
    let count = release_count(tx, name)?;
    net.releases = empty_sheets(alloc, count)?;
    Ok(Some(net))
}

/// The network of the name with all its parts, `None` where it isn't there. If the tables have a network under the
/// name, it is that one. The errors are those of [`unreleased_net_at`].
pub fn net_at<S: Alter>(
    alloc: Global,
    tx: &mut Transaction<'_, S>,
    name: &NetName,
) -> Result<Option<Net>, Error>
    ensures found { Asks S.Store tx.old tx.new result (OnNet name.now (λ net found. found ≡ net)) }
    ensures frame { ReadsOnly S.Store tx.old tx.new result }
{
    let Some(mut net) = unreleased_net_at(alloc, tx, name)? else {
        return Ok(None);
    };
    net.releases = releases_of(alloc, tx, name)?;
    Ok(Some(net))
}

/// The book of suspect parameter numbers: the blocks of all networks, and the numbers that were ever used. If the
/// tables have a book, it is that one. An error is out of memory, what `sqlite` answers, or `InvalidQuery` where the
/// rows are no book's.
pub fn book_of<S: Alter>(alloc: Global, tx: &mut Transaction<'_, S>) -> Result<SpnBook, Error>
    ensures found { Asks S.Store tx.old tx.new result
        (λ found t. (book : Book) → IsBookIn t book → found ≡ book) }
    ensures frame { ReadsOnly S.Store tx.old tx.new result }
{
    let blocks = spn_blocks_of(alloc, tx)?;
    let numbers = used_of(alloc, tx)?;
    match UsedSpns::of(numbers) {
        Some(used) => Ok(SpnBook { blocks, used }),
        None => Err(Error::InvalidQuery),
    }
}
