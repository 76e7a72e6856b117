//! Live messages of all networks, from bodies to rows.
ghost use Rattle.std.specs.Prelude.{List, [], map};
ghost use Rattle.office_rules.specs.Profile.{Two};
ghost use Rattle.store_tables.specs.Frames.{Edits, EndsIn, OnlyWrites, Relates, StaysIn, WritesAndStaysIn};
ghost use Rattle.office_types.specs.declared.state.Net.{Net as Network};
ghost use Rattle.store_net.specs.Nets.{AreKnownNets};
ghost use Rattle.store_migrate.specs.Carried.{AddsLive, CarriesNet, CarriesNets};
ghost use Rattle.store_migrate.specs.Carrying.{CarriesEach};
ghost use Rattle.store_migrate.specs.Forms.{HoldsAsBodies, row_marks};

use crate::renewing::renew_profile;
use crate::watch::Watch;
use office_history::histories_leave_offices;
use office_types::{LiveMessage, NetName};
use sqlite::{Alter, Error, Transaction};
use std::alloc::Global;
use store_changes::write_message;
use store_net::{live_of, names_of};
use store_statements::clear_messages;

/// Writes the live messages of a network as rows.
fn write_messages<S: Alter, W: Watch>(
    alloc: Global,
    tx: &mut Transaction<'_, S>,
    name: &NetName,
    live: &[LiveMessage],
    watch: &mut W,
) -> Result<(), Error>
    ensures added { Relates S.Store tx.old tx.new result (AddsLive name.now live.now) }
    ensures frame { WritesAndStaysIn S.Store tx.old tx.new result }
{
    for message in live {
        watch.show(name, &message.message.name);
        write_message(alloc, tx, name, message)?;
    }
    Ok(())
}

/// Writes the live messages of a network that are bodies as rows.
fn carry_network<S: Alter, W: Watch>(
    alloc: Global,
    tx: &mut Transaction<'_, S>,
    name: &NetName,
    watch: &mut W,
) -> Result<(), Error>
    ensures carried { Relates S.Store tx.old tx.new result (CarriesNet name.now) }
    ensures frame { StaysIn S.Store tx.old tx.new result }
{
    let live = live_of(alloc, tx, name)?;
    write_messages(alloc, tx, name, live.as_slice(), watch)
}

/// Does so with the networks of these names.
fn carry_networks<S: Alter, W: Watch>(
    alloc: Global,
    tx: &mut Transaction<'_, S>,
    names: &[NetName],
    watch: &mut W,
) -> Result<(), Error>
    ensures carried { Relates S.Store tx.old tx.new result (CarriesNets names.now) }
    ensures frame { StaysIn S.Store tx.old tx.new result }
{
    for name in names {
        carry_network(alloc, tx, name, watch)?;
    }
    Ok(())
}

/// Does so with all networks.
fn carry_live<S: Alter, W: Watch>(
    alloc: Global,
    tx: &mut Transaction<'_, S>,
    watch: &mut W,
) -> Result<(), Error>
    ensures carried { Relates S.Store tx.old tx.new result
        (λ before after. (nets : List Network) → AreKnownNets before nets
        → CarriesNets (map (λ net. net.name) nets) before after) }
    ensures frame { StaysIn S.Store tx.old tx.new result }
{
    let names = names_of(alloc, tx)?;
    carry_networks(alloc, tx, &names, watch)
}

/// Empties `message`, and renews the profile.
fn end_bodies<S: Alter>(tx: &mut Transaction<'_, S>) -> Result<(), Error>
    ensures ended { Edits S.Store tx.old tx.new result
        (λ t. record t { message = []; profile = row_marks Two }) }
    ensures frame { OnlyWrites S.Store tx.old tx.new }
{
    clear_messages(tx)?;
    renew_profile(tx)
}

/// Carries the live messages of all networks over from bodies to rows, empties `message`, and renews the profile.
/// Tables with live messages as bodies that hold a history of profile 1 hold the same history as rows then, under
/// profile 2. This is of all of the office's tables, those of rows too; [`carry_bodies`](crate::carry_bodies) makes
/// them first.
///
/// The error is out of memory, what `sqlite` answers, or `InvalidQuery` where rows are no office's.
pub fn carry_over<S: Alter, W: Watch>(
    alloc: Global,
    tx: &mut Transaction<'_, S>,
    watch: &mut W,
) -> Result<(), Error>
    ensures held { Relates S.Store tx.old tx.new result (CarriesEach HoldsAsBodies) }
    ensures frame { EndsIn S.Store tx.old tx.new result }
{
    histories_leave_offices();
    carry_live(alloc, tx, watch)?;
    end_bodies(tx)
}
