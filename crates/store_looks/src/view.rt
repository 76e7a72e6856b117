//! What is seen of a network.
ghost use Rattle.std.specs.Prelude.{◌≡◌, ◌⊎◌, [], map, IfOk, None};
ghost use Rattle.std.specs.Option.{option_map};
ghost use Rattle.std.specs.List.Sorted.{IsStrictlySortedBy};
ghost use Rattle.dbc_sheet.specs.Messages.{by_number};
ghost use Rattle.office_law.specs.Released.{with_releases};
ghost use Rattle.office_looks.specs.Reads.{AreRead, net_read};
ghost use Rattle.office_seen.specs.View.{blocks_of, spn_block, view_of};
ghost use Rattle.office_types.specs.State.{live_messages};
ghost use Rattle.store_looks.specs.Seen.{IsSeen, OnNetAndBook};
ghost use Rattle.store_net.specs.Reading.{OnNet, OnNetThere};
ghost use Rattle.store_tables.specs.Frames.{Asks, ReadsOnly, ReadsWhileOpen};

use crate::remembered::Remembered;
use crate::seen::{NetSeen, ReleasesSeen};
use base::{Copying, Items};
use office_looks::{MessagesRead, Reads, ReleasesRead};
use office_seen::{FrozenSheets, View};
use office_types::{
    BlockForm, FormBlock, GrantedBlock, LiveMessage, Net, NetName, SpnBlock, SpnBook, Team,
};
use sqlite::{Alter, Error, Transaction};
use std::alloc::{AllocError, Global};
use store_net::{
    SignalParts, book_of, last_sheets_at, live_sheet, outline_at, partial_net_at, release_texts_at,
};

/// The teams that own the messages, in order. The error is out of memory.
fn owners_of(alloc: Global, live: &[LiveMessage]) -> Result<Items<Team>, AllocError>
    ensures { IfOk result (λ owners. owners ≡ map (λ m. m.owner) live.now) }
{
    let mut owners = Items::new(alloc);
    for one in live {
        let owner = one.owner.duplicate(alloc)?;
        owners.push(owner)?;
    }
    Ok(owners)
}

/// The block of suspect parameter numbers as a granted one. An error is out of memory, or `InvalidQuery` where the
/// numbers are no block's.
fn granted(alloc: Global, block: &SpnBlock) -> Result<GrantedBlock, Error>
    ensures { IfOk result (λ granted. granted ≡ spn_block block.now) }
{
    match FormBlock::new(BlockForm::Spn, block.first, block.last) {
        Some(numbers) => Ok(GrantedBlock {
            block: numbers,
            team: block.team.duplicate(alloc)?,
        }),
        None => Err(Error::InvalidQuery),
    }
}

/// The network's blocks, those of suspect parameter numbers last. The errors are those of [`granted`].
fn blocks_of(alloc: Global, net: &Net, book: &SpnBook) -> Result<Items<GrantedBlock>, Error>
    ensures { IfOk result (λ blocks. blocks ≡ blocks_of net.now book.now) }
{
    let mut blocks = net.blocks.duplicate(alloc)?;
    for block in book.blocks.as_slice() {
        if block.net == net.name {
            let block = granted(alloc, block)?;
            blocks.push(block)?;
        }
    }
    Ok(blocks)
}

/// The network as it is seen with these releases and the book. An error is out of memory, or `InvalidQuery` where the
/// parts are no office's.
fn seen(alloc: Global, net: &Net, releases: ReleasesSeen, book: &SpnBook) -> Result<NetSeen, Error>
    ensures { IfOk result (λ view. IsStrictlySortedBy by_number (live_messages net.now.live)
        → view ≡ view_of (with_releases releases net.now) book.now) }
{
    let (sheets, texts) = releases.into_parts();
    let Some(releases) = FrozenSheets::of(sheets) else {
        return Err(Error::InvalidQuery);
    };
    let owners = owners_of(alloc, net.live.as_slice())?;
    let blocks = blocks_of(alloc, net, book)?;
    let sheet = live_sheet(alloc, net.head.duplicate(alloc)?, net.live.as_slice())?;
    let view = View {
        name: net.name.duplicate(alloc)?,
        kind: net.head.kind,
        reviews: net.head.reviews,
        phase: net.head.phase.duplicate(alloc)?,
        sheet,
        owners,
        blocks,
        held: net.held.duplicate(alloc)?,
        approvals: net.approvals.duplicate(alloc)?,
        releases,
        used: book.used.duplicate(alloc)?,
    };
    Ok(NetSeen::of(view, texts))
}

/// The network of the name with its live messages as far as they are read, and without its releases; `None` where it
/// isn't there. The errors are those of [`view_at`].
fn net_for<S: Alter>(
    alloc: Global,
    tx: &mut Transaction<'_, S>,
    name: &NetName,
    messages: MessagesRead,
) -> Result<Option<Net>, Error>
    ensures found { Asks S.Store tx.old tx.new result
        (OnNet name.now (λ net found. found ≡ option_map (net_read messages []) net)) }
    ensures frame { ReadsOnly S.Store tx.old tx.new result }
{
    match messages {
        MessagesRead::Nothing => outline_at(alloc, tx, name),
        MessagesRead::Rows => partial_net_at(alloc, tx, name, SignalParts::RowOnly),
        MessagesRead::Received => partial_net_at(alloc, tx, name, SignalParts::Received),
        MessagesRead::Whole => partial_net_at(alloc, tx, name, SignalParts::All),
    }
}

/// The releases of the network of the name, as far as they are read. Where all of them are, the known texts are taken,
/// and nothing is remembered any more.
/// The errors are those of [`view_at`].
fn releases_for<S: Alter>(
    alloc: Global,
    tx: &mut Transaction<'_, S>,
    name: &NetName,
    releases: ReleasesRead,
    known: &mut Remembered,
) -> Result<ReleasesSeen, Error>
    ensures found { Asks S.Store tx.old tx.new result
        (OnNetThere name.now (λ net found. AreRead releases net.releases found)) }
    ensures known { (known.new ≡ known.old) ⊎ (known.new ≡ None) }
    ensures frame { ReadsWhileOpen S.Store tx.old tx.new result }
{
    match releases {
        ReleasesRead::Nothing => Ok(ReleasesSeen::without_texts(Items::new(alloc))),
        ReleasesRead::Last => {
            let sheets = last_sheets_at(alloc, tx, name)?;
            Ok(ReleasesSeen::without_texts(sheets))
        }
        ReleasesRead::All => {
            let read = release_texts_at(alloc, tx, name, known.take_texts(alloc))?;
            Ok(ReleasesSeen::of(read))
        }
    }
}

/// What is seen of the network of the name where so much is read of it, `None` where it isn't there. Where all releases
/// are read, the known texts are taken, and nothing is remembered any more. An error is out of memory, what `sqlite`
/// answers, or `InvalidQuery` where the rows are no office's.
pub(crate) fn view_at<S: Alter>(
    alloc: Global,
    tx: &mut Transaction<'_, S>,
    name: &NetName,
    reads: Reads,
    known: &mut Remembered,
) -> Result<Option<NetSeen>, Error>
    ensures found { Asks S.Store tx.old tx.new result (OnNetAndBook name.now (IsSeen reads)) }
    ensures known { (known.new ≡ known.old) ⊎ (known.new ≡ None) }
    ensures frame { ReadsOnly S.Store tx.old tx.new result }
{
    let Some(net) = net_for(alloc, tx, name, reads.messages)? else {
        return Ok(None);
    };
    let book = book_of(alloc, tx)?;
    let releases = releases_for(alloc, tx, name, reads.releases, known)?;
    Ok(Some(seen(alloc, &net, releases, &book)?))
}
