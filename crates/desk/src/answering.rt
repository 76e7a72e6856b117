//! What the office is to do, and the responses to it.
ghost use Rattle.std.specs.Prelude.{◌≡◌, IfOk, IsTrue, OnErr};
ghost use Rattle.sqlite.specs.Held.{state};
ghost use Rattle.desk_call.specs.Call.{arrives, arrival_seen, seen, shows};
ghost use Rattle.store.specs.Calls.{KeepsDoubt, KeepsStatistics, LeavesStatistics, OnHistory};
ghost use Rattle.desk.specs.Responding.{MayHaveTaken, Responds, StaysOpen, body_kind_of, failed_response};

use desk_call::Call;
use desk_reply::{BodyKind, answer_response, problem_response, text_response};
use desk_types::Problem;
use office_history::Arrival;
use office_types::{Look, LookForm};
use sqlite::Alter;
use std::alloc::{AllocError, Global};
use store::StoredOffice;

/// What the text of a look is: DBC text, a page, JSON, or lines.
fn body_kind_of(look: &Look) -> BodyKind
    ensures { result ≡ body_kind_of look.now }
{
    match look {
        Look::Live(_) | Look::Release(_, _) => BodyKind::Bytes,
        Look::Page(_) | Look::ReleasePage(_, _) => BodyKind::Html,
        Look::Net(_, _, LookForm::Json) => BodyKind::Json,
        _ => BodyKind::Plain,
    }
}

/// Looks something up, and gives the response that shows it.
fn show<S: Alter>(
    alloc: Global,
    office: &mut StoredOffice<S>,
    look: Look,
) -> Result<Vec<u8>, AllocError>
    ensures clean { KeepsDoubt S.Store office.old.conn office.new.conn }
    ensures refused { IsTrue office.old.failed → office.new ≡ office.old }
    ensures failed { IsTrue office.old.failed
        → IfOk result (λ text. text.items ≡ failed_response (shows look)) }
    ensures open { StaysOpen S.Store office.old office.new }
    ensures statistics { KeepsStatistics S.Store office.old.conn office.new.conn }
    ensures statistics_left { LeavesStatistics S.Store office.old.conn office.new.conn }
    ensures ok { OnHistory S.Store office.old.conn office.new.conn
        (λ h. IfOk result (λ text. Responds h (shows look) text.items
        (state S.Store office.new.conn))) }
    ensures err { OnHistory S.Store office.old.conn office.new.conn
        (λ h. OnErr result (MayHaveTaken h (shows look) (state S.Store office.new.conn))) }
{
    let content = body_kind_of(&look);
    match office.look(alloc, &look) {
        Ok(Some(text)) => text_response(alloc, content, &text),
        Ok(None) => problem_response(alloc, Problem::NotFound),
        Err(_) => problem_response(alloc, Problem::TryAgain),
    }
}

/// Has an arrival answered, and gives the response that shows the answer.
fn answer_arrival<S: Alter>(
    alloc: Global,
    office: &mut StoredOffice<S>,
    arrival: &Arrival,
) -> Result<Vec<u8>, AllocError>
    ensures clean { KeepsDoubt S.Store office.old.conn office.new.conn }
    ensures refused { IsTrue office.old.failed → office.new ≡ office.old }
    ensures failed { IsTrue office.old.failed → IfOk result
        (λ text. text.items ≡ failed_response (arrives (arrival_seen arrival.now))) }
    ensures open { StaysOpen S.Store office.old office.new }
    ensures statistics { KeepsStatistics S.Store office.old.conn office.new.conn }
    ensures statistics_left { LeavesStatistics S.Store office.old.conn office.new.conn }
    ensures ok { OnHistory S.Store office.old.conn office.new.conn
        (λ h. IfOk result (λ text. Responds h (arrives (arrival_seen arrival.now)) text.items
        (state S.Store office.new.conn))) }
    ensures err { OnHistory S.Store office.old.conn office.new.conn
        (λ h. OnErr result (MayHaveTaken h (arrives (arrival_seen arrival.now))
        (state S.Store office.new.conn))) }
{
    match office.arrive(alloc, &arrival.team, &arrival.key, &arrival.request) {
        Ok(answer) => answer_response(alloc, &answer),
        Err(_) => problem_response(alloc, Problem::TryAgain),
    }
}

/// Carries out a request, and gives its response. The only error is out of memory: then an arrival may have
/// been taken.
pub(crate) fn response_to<S: Alter>(
    alloc: Global,
    office: &mut StoredOffice<S>,
    call: Call,
) -> Result<Vec<u8>, AllocError>
    ensures clean { KeepsDoubt S.Store office.old.conn office.new.conn }
    ensures refused { IsTrue office.old.failed → office.new ≡ office.old }
    ensures failed { IsTrue office.old.failed
        → IfOk result (λ text. text.items ≡ failed_response (seen call)) }
    ensures open { StaysOpen S.Store office.old office.new }
    ensures statistics { KeepsStatistics S.Store office.old.conn office.new.conn }
    ensures statistics_left { LeavesStatistics S.Store office.old.conn office.new.conn }
    ensures ok { OnHistory S.Store office.old.conn office.new.conn
        (λ h. IfOk result (λ text. Responds h (seen call) text.items
        (state S.Store office.new.conn))) }
    ensures err { OnHistory S.Store office.old.conn office.new.conn
        (λ h. OnErr result (MayHaveTaken h (seen call) (state S.Store office.new.conn))) }
{
    office.leaves_now();
    match call {
        Call::Fails(problem) => problem_response(alloc, problem),
        Call::Shows(look) => show(alloc, office, look),
        Call::Arrives(arrival) => answer_arrival(alloc, office, &arrival),
    }
}
