//! The text of a look.
ghost use Rattle.std.specs.Prelude.{◌≡◌, IfOk, IsTrue, OnOk};
ghost use Rattle.std.specs.Option.{option_map};
ghost use Rattle.office_looks.specs.Looks.{net_shown};
ghost use Rattle.store_looks.specs.Seen.{IsTrueOf, MayRemember, OnNetAndBook, reads_whole, seen_text};
ghost use Rattle.store_tables.specs.Frames.{Asks, ReadsOnly};

use crate::remembered::Remembered;
use crate::seen::NetSeen;
use crate::view::view_at;
use base::Copying;
use office_looks::{MessagesRead, Reads, ReleasesRead, reads_of, shown_of};
use office_types::{LookForm, NetLook, NetName};
use sqlite::{Alter, Error, Transaction};
use std::alloc::{AllocError, Global};

/// Whether the live messages are read whole, and all releases.
fn is_whole(reads: Reads) -> bool
    ensures { IsTrue result → reads ≡ reads_whole }
{
    matches!(
        (reads.messages, reads.releases),
        (MessagesRead::Whole, ReleasesRead::All)
    )
}

/// The text of what is seen of the network of the name, if anything is, in the form. That is remembered, if it is the
/// whole network, and else the texts of its releases.
fn shown(
    alloc: Global,
    name: &NetName,
    seen: Option<NetSeen>,
    is_whole: bool,
    look: &NetLook,
    form: LookForm,
    known: &mut Remembered,
) -> Result<Option<Vec<u8>>, AllocError>
    ensures text { IfOk result (λ text. option_map (λ t. t.items) text ≡ seen_text form look.now seen) }
    ensures known { OnOk result (MayRemember name.now is_whole seen known.old known.new) }
{
    match seen {
        Some(seen) => {
            let text = shown_of(alloc, seen.view(), look, form)?;
            known.keep(name.duplicate(alloc)?, seen, is_whole);
            Ok(text)
        }
        None => Ok(None),
    }
}

/// What is shown for the look at the network of the name, in the form; `None` where the network isn't there, or what the
/// look names. Of the network no more is read than the text depends on. Where that is all releases, those whose texts
/// are known aren't read again, and after it their texts are known, and where it is the whole network, all of it. An
/// error is out of memory, what `sqlite` answers, or `InvalidQuery` where the rows are no office's.
pub fn net_look_at<S: Alter>(
    alloc: Global,
    tx: &mut Transaction<'_, S>,
    name: &NetName,
    look: &NetLook,
    form: LookForm,
    known: &mut Remembered,
) -> Result<Option<Vec<u8>>, Error>
    ensures found { Asks S.Store tx.old tx.new result (OnNetAndBook name.now (λ net book found.
        option_map (λ text. text.items) found ≡ net_shown form net book look.now)) }
    ensures known { Asks S.Store tx.old tx.new result (λ _ t. IsTrueOf known.old t → IsTrueOf known.new t) }
    ensures frame { ReadsOnly S.Store tx.old tx.new result }
{
    let reads = reads_of(look);
    let seen = view_at(alloc, tx, name, reads, known)?;
    Ok(shown(alloc, name, seen, is_whole(reads), look, form, known)?)
}
