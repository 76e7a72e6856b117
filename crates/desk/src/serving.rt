//! Serving connections in turn.
ghost use Rattle.std.specs.Prelude.{◌≡◌, ◌<◌, List, [], ◌∷◌, length, IfOk, IsTrue, MatchResult, OnErr};
ghost use Rattle.sqlite.specs.Held.{state};
ghost use Rattle.store.specs.Calls.{KeepsDoubt, KeepsStatistics, LeavesStatistics, OnHistory, StatisticsStayAfter};
ghost use Rattle.desk.specs.Noted.{IsLeftAlone};
ghost use Rattle.desk.specs.Responding.{StaysOpen};
ghost use Rattle.desk.specs.Serving.{GoesOn, HasServedAll, NoneWaits, SaysFailure, Visit, fault_of};
ghost use Rattle.desk.specs.Visits.{HasNoVisit, HasVisits};

use crate::fault::ServeFault;
use crate::listener::Listener;
use crate::responding::serve_one;
use desk_call::{Exchange, Notes, OfficeRead, Routes};
use desk_types::{DeskFault, Failed};
use sqlite::Alter;
use std::alloc::Global;
use std::io::Write;
use store::{ReadNet, StoredOffice};

/// What is printed when the office fails, as of any call that is lost because the database failed.
const OFFICE_FAILED: &[u8] = b"lost 72\n";

/// Serves the next connection, and gives whether a fault ended it. The error is that none can be accepted: then nothing
/// is done.
fn serve_next<S: Alter, L: Listener>(
    alloc: Global,
    routes: &Routes,
    office: &mut StoredOffice<S>,
    listener: &mut L,
    exchange: &mut Exchange,
) -> Result<Result<(), DeskFault>, Failed>
    ensures clean { KeepsDoubt S.Store office.old.conn office.new.conn }
    ensures open { StaysOpen S.Store office.old office.new }
    ensures statistics { KeepsStatistics S.Store office.old.conn office.new.conn }
    ensures statistics_left { LeavesStatistics S.Store office.old.conn office.new.conn }
    ensures refused { IsTrue office.old.failed → office.new ≡ office.old }
    ensures served { IfOk result (λ ended. (v : Visit) × (v.fault ≡ fault_of ended)
        × HasVisits L.Listener listener.old listener.new office.old.failed office.new.failed
        (v ∷ [])
        × OnHistory S.Store office.old.conn office.new.conn
        (λ h. GoesOn h v (state S.Store office.new.conn))) }
    ensures kept { OnErr result (office.new ≡ office.old) }
    ensures none { OnErr result (HasNoVisit L.Listener listener.old listener.new) }
{
    let (mut request, mut response) = listener.accept()?;
    let ended = serve_one(alloc, routes, office, &mut request, &mut response, exchange);
    office.leaves_now();
    listener.finish(request, response);
    Ok(ended)
}

/// Reads of the office what the report on the connection depends on, if it depends on anything and that can be read.
#[tactic(auto, using(crate::proofs::Noted::left_alone, crate::proofs::Noted::read_alone))]
fn read_for<S: Alter, N: Notes>(
    alloc: Global,
    office: &mut StoredOffice<S>,
    notes: &N,
    exchange: &Exchange,
) -> Option<ReadNet>
    ensures { IsLeftAlone S.Store office.old office.new }
{
    office.leaves_now();
    if !exchange.is_wanted {
        return None;
    }
    let wanted = notes.wanted(alloc, exchange)?;
    match office.see(alloc, &wanted.name, wanted.releases) {
        Ok(read) => Some(read),
        Err(_) => None,
    }
}

/// Reports what went over a connection that has ended, by what the report depends on of the office. That is read as any
/// look is: nothing changes, and if it is lost since the database failed, the office has failed.
fn report<S: Alter, N: Notes>(
    alloc: Global,
    office: &mut StoredOffice<S>,
    notes: &mut N,
    exchange: &Exchange,
)
    ensures { IsLeftAlone S.Store office.old office.new }
{
    match read_for(alloc, office, notes, exchange) {
        Some(read) => {
            let read = OfficeRead::of(read.net.as_ref(), &read.names, &read.book);
            notes.note(alloc, exchange, Some(read));
        }
        None => notes.note(alloc, exchange, None),
    }
}

/// Says that the office has failed, if it has by now and had not before, by one write.
fn say_failure<E: Write>(errors: &mut E, had_failed: bool, has_failed: bool)
    ensures { SaysFailure had_failed has_failed (E.contents errors.old) (E.contents errors.new) }
{
    if has_failed && !had_failed {
        // Whether it can be printed changes nothing of what is served.
        let _stated = errors.write(OFFICE_FAILED);
    }
}

/// Serves `count` connections of the listener, one after the other. A fault of the desk ends its connection alone. Once
/// the office has failed, it changes nothing any more, and whatever reaches it is answered by 503. When it fails,
/// `lost 72` is written to `errors`, once and as far as the writer takes it. `notes` reports each connection after its
/// end, and nothing that is promised depends on it.
///
/// `Accept` if a connection can't be accepted: then those before it were served. With a listener that states what
/// comes, none came any more.
pub fn serve<S: Alter, L: Listener, E: Write, N: Notes>(
    alloc: Global,
    routes: &Routes,
    office: &mut StoredOffice<S>,
    listener: &mut L,
    errors: &mut E,
    notes: &mut N,
    count: u32,
) -> Result<(), ServeFault>
    ensures clean { KeepsDoubt S.Store office.old.conn office.new.conn }
    ensures stated { SaysFailure office.old.failed office.new.failed (E.contents errors.old)
        (E.contents errors.new) }
    ensures served { (visits : List Visit)
        × HasVisits L.Listener listener.old listener.new office.old.failed office.new.failed visits
        × MatchResult result (λ done. length visits ≡ count)
        (λ fault. (fault ≡ ServeFault.Accept) × (length visits < count)
        × NoneWaits (L.coming listener.new))
        × OnHistory S.Store office.old.conn office.new.conn
        (λ h. HasServedAll h visits office.new.failed (state S.Store office.new.conn)) }
    ensures statistics { StatisticsStayAfter S.Store office.old.conn office.new.conn }
{
    office.leaves_now();
    for _served in 0..count {
        let had_failed = office.is_failed();
        let mut exchange = Exchange::new(alloc, notes.is_on());
        match serve_next(alloc, routes, office, listener, &mut exchange) {
            Ok(_ended) => {
                report(alloc, office, notes, &exchange);
                say_failure(errors, had_failed, office.is_failed());
            }
            Err(Failed) => return Err(ServeFault::Accept),
        }
    }
    Ok(())
}
