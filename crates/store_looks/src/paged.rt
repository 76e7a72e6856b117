//! A network, or a release of it, on one page.
ghost use Rattle.std.specs.Prelude.{◌≡◌, ◌⊎◌, IfOk, None, OnOk, true};
ghost use Rattle.std.specs.Option.{option_map};
ghost use Rattle.store_looks.specs.Seen.{IsPageOf, IsPageOfNet, IsPageOfRelease, IsReleasePageOf, IsTrueOf};
ghost use Rattle.store_looks.specs.Seen.{MayRemember, OnNetAndBook, reads_whole, whole_view};
ghost use Rattle.store_tables.specs.Frames.{Asks, ReadsOnly};

use crate::remembered::Remembered;
use crate::seen::NetSeen;
use crate::view::view_at;
use base::Copying;
use office_looks::{MessagesRead, Reads, ReleasesRead};
use office_page::{page_of, release_page};
use office_types::NetName;
use sqlite::{Alter, Error, Transaction};
use std::alloc::{AllocError, Global};

/// A page shows the live messages whole, and all releases.
fn all_read() -> Reads
    ensures { result ≡ reads_whole }
{
    Reads {
        messages: MessagesRead::Whole,
        releases: ReleasesRead::All,
    }
}

/// What is seen of the whole network of the name; `None` where it isn't there. The errors are those of [`page_at`].
fn whole_view_at<S: Alter>(
    alloc: Global,
    tx: &mut Transaction<'_, S>,
    name: &NetName,
    known: &mut Remembered,
) -> Result<Option<NetSeen>, Error>
    ensures found { Asks S.Store tx.old tx.new result (OnNetAndBook name.now (λ net book found.
        found ≡ whole_view net book)) }
    ensures known { (known.new ≡ known.old) ⊎ (known.new ≡ None) }
    ensures frame { ReadsOnly S.Store tx.old tx.new result }
{
    let reads = all_read();
    view_at(alloc, tx, name, reads, known)
}

/// The page of what is seen of the network of the name, if anything is. That is the whole network, and is remembered.
fn page_of_seen(
    alloc: Global,
    name: &NetName,
    seen: Option<NetSeen>,
    known: &mut Remembered,
) -> Result<Option<Vec<u8>>, AllocError>
    ensures page { IfOk result
        (λ page. IsPageOf seen (option_map (λ text. text.items) page)) }
    ensures known { OnOk result (MayRemember name.now true seen known.old known.new) }
{
    match seen {
        Some(seen) => {
            let page = page_of(alloc, seen.view())?;
            known.keep(name.duplicate(alloc)?, seen, true);
            Ok(Some(page))
        }
        None => Ok(None),
    }
}

/// The page of the release of this number of what is seen of the network of the name, if there is one. What is seen is
/// the whole network, and is remembered.
fn release_page_of_seen(
    alloc: Global,
    name: &NetName,
    seen: Option<NetSeen>,
    number: u32,
    known: &mut Remembered,
) -> Result<Option<Vec<u8>>, AllocError>
    ensures page { IfOk result
        (λ page. IsReleasePageOf seen number (option_map (λ text. text.items) page)) }
    ensures known { OnOk result (MayRemember name.now true seen known.old known.new) }
{
    match seen {
        Some(seen) => {
            let page = release_page(alloc, seen.view(), number)?;
            known.keep(name.duplicate(alloc)?, seen, true);
            Ok(page)
        }
        None => Ok(None),
    }
}

/// The page of the network of the name; `None` where it isn't there. Releases whose texts are known are not read again,
/// and after it all of the network is known. An error is out of memory, what `sqlite` answers, or `InvalidQuery` where
/// the rows are no office's.
pub fn page_at<S: Alter>(
    alloc: Global,
    tx: &mut Transaction<'_, S>,
    name: &NetName,
    known: &mut Remembered,
) -> Result<Option<Vec<u8>>, Error>
    ensures found { Asks S.Store tx.old tx.new result (OnNetAndBook name.now (λ net book found.
        IsPageOfNet net book (option_map (λ text. text.items) found))) }
    ensures known { Asks S.Store tx.old tx.new result (λ _ t. IsTrueOf known.old t → IsTrueOf known.new t) }
    ensures frame { ReadsOnly S.Store tx.old tx.new result }
{
    let seen = whole_view_at(alloc, tx, name, known)?;
    Ok(page_of_seen(alloc, name, seen, known)?)
}

/// The page of the release of this number of the network of the name; `None` where it isn't there. What is known is as
/// at [`page_at`], and so are the errors.
pub fn release_page_at<S: Alter>(
    alloc: Global,
    tx: &mut Transaction<'_, S>,
    name: &NetName,
    number: u32,
    known: &mut Remembered,
) -> Result<Option<Vec<u8>>, Error>
    ensures found { Asks S.Store tx.old tx.new result (OnNetAndBook name.now (λ net book found.
        IsPageOfRelease net book number (option_map (λ text. text.items) found))) }
    ensures known { Asks S.Store tx.old tx.new result (λ _ t. IsTrueOf known.old t → IsTrueOf known.new t) }
    ensures frame { ReadsOnly S.Store tx.old tx.new result }
{
    let seen = whole_view_at(alloc, tx, name, known)?;
    Ok(release_page_of_seen(alloc, name, seen, number, known)?)
}
