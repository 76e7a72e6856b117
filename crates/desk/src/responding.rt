//! One request and one response.
ghost use Rattle.std.specs.Prelude.{◌≡◌, ◌⊎◌, ◌-◌, ◌<◌, ◌^◌, IsErrOf, IsTrue};
ghost use Rattle.sqlite.specs.Held.{state};
ghost use Rattle.store.specs.Calls.{KeepsDoubt, KeepsStatistics, LeavesStatistics, OnHistory};
ghost use Rattle.desk.specs.Devices.{UsesDevices};
ghost use Rattle.desk.specs.Responding.{Refuses, Serves, StaysOpen};

use crate::answering::response_to;
use desk_call::{Exchange, Routes, read_call};
use desk_types::{DeskFault, Failed, Sink, Source, put_all};
use sqlite::Alter;
use std::alloc::Global;
use store::StoredOffice;

/// Reads the first request of the source, carries it out, and writes its response to the sink. No call of a device
/// follows one that failed. Whatever the source has, no more is read of it than a greatest head and a greatest body.
///
/// `Read` if the source failed before the request was whole: nothing was written, and the office is as before.
/// `Write` if the sink failed: a beginning of the response was written, and the request is carried out as if it had all
/// been. `Memory` if memory ran out: nothing was written, and an arrival may have been taken. A request that is sent
/// again under its key is answered as it would have been. An office that has failed stays as it is, and each request to
/// it is answered by 503.
///
/// A crash leaves the history after the response. After a 503, or where memory ran out, it leaves the history from
/// before, or that one with the arrival that was requested.
///
/// What was read, and the response if all of it was written, is kept where that is wanted.
pub fn serve_one<S: Alter, R: Source, W: Sink>(
    alloc: Global,
    routes: &Routes,
    office: &mut StoredOffice<S>,
    source: &mut R,
    sink: &mut W,
    exchange: &mut Exchange,
) -> Result<(), DeskFault>
    requires reads { R.failure_count source.old < 2 ^ 64 - 1 }
    requires writes { W.failure_count sink.old < 2 ^ 64 - 1 }
    ensures devices { UsesDevices R.Source W.Sink result source.old source.new sink.old sink.new }
    ensures clean { KeepsDoubt S.Store office.old.conn office.new.conn }
    ensures open { StaysOpen S.Store office.old office.new }
    ensures statistics { KeepsStatistics S.Store office.old.conn office.new.conn }
    ensures statistics_left { LeavesStatistics S.Store office.old.conn office.new.conn }
    ensures kept { IsTrue office.old.failed ⊎ IsErrOf result DeskFault.Read
        → office.new ≡ office.old }
    ensures refused { IsTrue office.old.failed
        → Refuses result (R.left source.old) (W.reported sink.old) (W.reported sink.new) }
    ensures served { OnHistory S.Store office.old.conn office.new.conn
        (λ h. Serves h result (R.left source.old) (W.reported sink.old) (W.reported sink.new)
        (state S.Store office.new.conn)) }
{
    office.leaves_now();
    let call = read_call(alloc, routes, source, exchange)?;
    let Ok(text) = response_to(alloc, office, call) else {
        return Err(DeskFault::Memory);
    };
    match put_all(sink, &text) {
        Ok(()) => {
            exchange.keep_response(text);
            Ok(())
        }
        Err(Failed) => Err(DeskFault::Write),
    }
}
