//! A network, read to report why a command on it was refused.
ghost use Rattle.std.specs.Prelude.{◌≡◌, option_map};
ghost use Rattle.store_looks.specs.Read.{AreNamesRead, IsRead, read_so};
ghost use Rattle.store_looks.specs.Seen.{OnNetAndBook};
ghost use Rattle.store_net.specs.Reading.{OnNet};
ghost use Rattle.store_tables.specs.Frames.{Asks, ReadsOnly};

use office_types::{Net, NetName, SpnBook};
use sqlite::{Alter, Error, Transaction};
use std::alloc::Global;
use store_net::{book_of, names_of, net_at, unreleased_net_at};

/// A network, the names of all where it isn't there, and the book of suspect parameter numbers.
pub struct ReadNet {
    /// The network, `None` where it isn't there.
    pub net: Option<Net>,
    /// The names of all networks, in their order, where it isn't there, and else none.
    pub names: Vec<NetName>,
    /// The suspect parameter numbers of the whole office.
    pub book: SpnBook,
}

impl Drop for ReadNet {
    fn drop(self) {
        let ReadNet {
            net: _net,
            names: _names,
            book: _book,
        } = self;
    }
}

/// The network of the name with its releases, or without them, of which no body is read then.
fn net_so<S: Alter>(
    alloc: Global,
    tx: &mut Transaction<'_, S>,
    name: &NetName,
    releases: bool,
) -> Result<Option<Net>, Error>
    ensures found { Asks S.Store tx.old tx.new result
        (OnNet name.now (λ net found. found ≡ option_map (read_so releases) net)) }
    ensures frame { ReadsOnly S.Store tx.old tx.new result }
{
    if releases {
        net_at(alloc, tx, name)
    } else {
        unreleased_net_at(alloc, tx, name)
    }
}

/// What there is of the network of the name, with its releases or without them, and where it isn't there the names of
/// all. An error is out of memory, what `sqlite` answers, or `InvalidQuery` where the rows are no office's.
pub fn read_net_at<S: Alter>(
    alloc: Global,
    tx: &mut Transaction<'_, S>,
    name: &NetName,
    releases: bool,
) -> Result<ReadNet, Error>
    ensures found { Asks S.Store tx.old tx.new result (OnNetAndBook name.now (IsRead releases)) }
    ensures names { Asks S.Store tx.old tx.new result (AreNamesRead name.now) }
    ensures frame { ReadsOnly S.Store tx.old tx.new result }
{
    let net = net_so(alloc, tx, name, releases)?;
    if net.is_some() {
        let names = Vec::new(alloc);
        let book = book_of(alloc, tx)?;
        return Ok(ReadNet { net, names, book });
    }
    let names = names_of(alloc, tx)?;
    let book = book_of(alloc, tx)?;
    Ok(ReadNet { net, names, book })
}
