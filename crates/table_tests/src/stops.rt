//! Stops at each call of each file, and after each of them the list again.
use crate::disks::{Bytes, Taking, Unsynced, Which, is_whole};
use crate::lists::{BUNDLES, ELEVEN, FREE, HELD, List, arrivals};
use crate::offices::{Opening, Trial, Way, is_after, is_run, passes_on, sent, try_on};
use office_history::Arrival;
use sqlite::{Alter, Files};
use sqlite_disk::Disk;
use std::alloc::Global;
use std::io;
use store::{Lost, StoredOffice};

/// What an office does, and is stopped at.
#[derive(Clone, Copy)]
struct Work<'a> {
    /// The bytes that the files have.
    before: &'a Bytes,
    /// How many requests of the list are in them.
    kept: usize,
    /// How the office is opened.
    opening: Opening,
    /// What it is sent then, from the first request that isn't in the files.
    list: List<'a>,
    /// How it is sent.
    way: Way,
    /// Sent at the end, by `arrive`.
    last: List<'a>,
}

/// Where an office is stopped, and what is left of its files.
#[derive(Clone, Copy)]
struct Stop {
    which: Which,
    calls: u64,
    taking: Taking,
    unsynced: Unsynced,
}

/// What came of a stop.
#[derive(Clone, Copy)]
struct Tried {
    /// No call failed.
    is_whole: bool,
    /// Everything is as it must be.
    is_right: bool,
}

/// That an office does its work, as far as it can.
#[derive(Drop)]
struct Worked<'a> {
    work: Work<'a>,
    /// How many requests of the list are then answered; `None` if a reply is wrong.
    answered: Option<usize>,
}

impl Trial for Worked<'_> {
    fn is_passed<S: Alter>(&mut self, alloc: Global, office: &mut StoredOffice<S>) -> bool {
        let work = self.work;
        self.answered = sent(alloc, office, work.list, work.way, work.kept);
        self.answered.is_some()
    }
}

/// Does the work on the files, and takes them. How many requests of the list are then answered; `None` if a reply is
/// wrong.
fn first_run<D: Disk + Drop>(
    alloc: Global,
    files: Files<D>,
    work: Work<'_>,
    taking: Taking,
) -> (Option<usize>, Files<D>) {
    let mut worked = Worked {
        work,
        answered: None,
    };
    let (opened, files) = try_on(alloc, files, work.opening, taking, &mut worked);
    match opened {
        Err(Lost::Store) => (Some(work.kept), files),
        _ => (worked.answered, files),
    }
}

/// That an office has all that was kept, and nothing else.
#[derive(Drop)]
struct Kept<'a> {
    work: Work<'a>,
}

impl Trial for Kept<'_> {
    fn is_passed<S: Alter>(&mut self, alloc: Global, office: &mut StoredOffice<S>) -> bool {
        is_after(alloc, office, self.work.list.steps, self.work.kept, 0)
    }
}

/// Whether the tables are those of an earlier version, or those of this one with all that was kept.
fn is_old_or_new<D: Disk + Drop>(alloc: Global, files: Files<D>, work: Work<'_>) -> bool {
    let (passed, _files) = try_on(
        alloc,
        files,
        Opening::Open,
        Taking::Left,
        &mut Kept { work },
    );
    passed == Ok(true) || passed == Err(Lost::OlderProfile)
}

/// That an office has what was answered, and of the next request all or nothing; gives the list its replies; and is
/// then as it must be.
#[derive(Drop)]
struct Again<'a> {
    work: Work<'a>,
    answered: usize,
}

impl Trial for Again<'_> {
    fn is_passed<S: Alter>(&mut self, alloc: Global, office: &mut StoredOffice<S>) -> bool {
        let work = self.work;
        let steps = work.list.steps;
        let count = steps.len();
        is_after(alloc, office, steps, self.answered, 1)
            && sent(alloc, office, work.list, work.way, 0) == Some(count)
            && is_after(alloc, office, steps, count, 0)
            && sent(alloc, office, work.last, Way::Arrive, 0) == Some(work.last.steps.len())
            && is_after(alloc, office, work.last.steps, work.last.steps.len(), 0)
    }
}

/// Whether a new office on the files does so.
fn second_run<D: Disk + Drop>(
    alloc: Global,
    files: Files<D>,
    work: Work<'_>,
    answered: usize,
) -> bool {
    passes_on(alloc, files, work.opening, &mut Again { work, answered })
}

/// Whether the bytes that a stop left are right, after so many requests were answered.
fn is_right(alloc: Global, bytes: &Bytes, work: Work<'_>, answered: usize) -> io::Result<bool> {
    let files = bytes.whole_files(alloc)?;
    match work.opening {
        Opening::Open => Ok(second_run(alloc, files, work, answered)),
        Opening::Migrate => {
            let same = bytes.whole_files(alloc)?;
            Ok(is_old_or_new(alloc, files, work) && second_run(alloc, same, work, answered))
        }
    }
}

/// Does the work up to the stop, and again after it.
fn try_stop(alloc: Global, work: Work<'_>, stop: Stop) -> io::Result<Tried> {
    let files = work.before.files(alloc, stop.which, stop.calls)?;
    let (answered, mut files) = first_run(alloc, files, work, stop.taking);
    let is_whole = is_whole(&mut files, stop.which);
    let bytes = Bytes::left_of(alloc, files, stop.unsynced)?;
    let is_right = match answered {
        // Where no call failed, no request is lost.
        Some(answered) if is_whole && answered < work.list.steps.len() => false,
        Some(answered) => is_right(alloc, &bytes, work, answered)?,
        None => false,
    };
    Ok(Tried { is_whole, is_right })
}

/// More calls than a work makes of a file.
const CALLS: u64 = 100_000;

/// Stops the work at each call, and prints how often something was wrong.
fn try_calls(rt: &HostRuntime, work: Work<'_>, stop: Stop, name: &str) -> io::Result<()> {
    let mut wrong = 0u64;
    for calls in 0..CALLS {
        let tried = try_stop(rt.alloc(), work, Stop { calls, ..stop })?;
        if !tried.is_right {
            println!(rt; "{name}: WRONG after {calls} calls")?;
            wrong = wrong.saturating_add(1);
        }
        if tried.is_whole {
            return println!(rt; "{name}: {wrong} wrong");
        }
    }
    println!(rt; "{name}: TOO MANY CALLS")
}

/// What is left of the files after a stop, and its name. Files of which no further call is made are torn too.
const WAYS: [(Taking, Unsynced, &str); 5] = [
    (Taking::Closed, Unsynced::IsLost, "closed, lost"),
    (Taking::Closed, Unsynced::IsKept, "closed, kept"),
    (Taking::Left, Unsynced::IsLost, "left, lost"),
    (Taking::Left, Unsynced::IsKept, "left, kept"),
    (Taking::Left, Unsynced::IsTorn, "left, torn"),
];

/// Stops the work at each call of each file, in each way.
fn try_work(rt: &HostRuntime, work: Work<'_>, of: &str) -> io::Result<()> {
    for (which, file) in [(Which::Log, "log"), (Which::Database, "database")] {
        for (taking, unsynced, left) in WAYS {
            let name = format!(in rt.alloc(); "{of}, {file}, {left}")?;
            let stop = Stop {
                which,
                calls: 0,
                taking,
                unsynced,
            };
            try_calls(rt, work, stop, name.as_str())?;
        }
    }
    Ok(())
}

/// The work of a new office on the list of eleven, by `arrive`.
fn work_on_eleven<'a>(new: &'a Bytes, list: &'a [Arrival], last: &'a [Arrival]) -> Work<'a> {
    Work {
        before: new,
        kept: 0,
        opening: Opening::Open,
        list: List {
            steps: &ELEVEN,
            arrivals: list,
        },
        way: Way::Arrive,
        last: List {
            steps: &HELD,
            arrivals: last,
        },
    }
}

/// That the list gets its replies by `run`, and leaves what is due.
#[derive(Drop)]
struct Run<'a> {
    list: List<'a>,
}

impl Trial for Run<'_> {
    fn is_passed<S: Alter>(&mut self, alloc: Global, office: &mut StoredOffice<S>) -> bool {
        let steps = self.list.steps;
        is_run(alloc, office, self.list) && is_after(alloc, office, steps, steps.len(), 0)
    }
}

/// Has a new office answer the list by `run`, without a stop.
fn try_run(rt: &HostRuntime, list: List<'_>) -> io::Result<()> {
    let files = Bytes::none(rt.alloc()).whole_files(rt.alloc())?;
    if passes_on(rt.alloc(), files, Opening::Open, &mut Run { list }) {
        println!(rt; "run: right")
    } else {
        println!(rt; "run: WRONG")
    }
}

/// Stops the work of a new office on the list with bundles.
fn try_bundles(rt: &HostRuntime, new: &Bytes) -> io::Result<()> {
    let list = arrivals(rt.alloc(), &BUNDLES)?;
    let last = arrivals(rt.alloc(), &FREE)?;
    let work = Work {
        before: new,
        kept: 0,
        opening: Opening::Open,
        list: List {
            steps: &BUNDLES,
            arrivals: &list,
        },
        way: Way::Arrive,
        last: List {
            steps: &FREE,
            arrivals: &last,
        },
    };
    try_work(rt, work, "bundles")
}

/// Stops each work. `older` are the bytes of a database of an earlier version, which has the list of eleven.
pub(crate) fn try_stops(rt: &HostRuntime, older: Vec<u8>) -> io::Result<()> {
    let new = Bytes::none(rt.alloc());
    let older = Bytes {
        log: Vec::new(rt.alloc()),
        db: older,
    };
    let list = arrivals(rt.alloc(), &ELEVEN)?;
    let last = arrivals(rt.alloc(), &HELD)?;
    let by_arrive = work_on_eleven(&new, &list, &last);
    let by_serve_one = Work {
        way: Way::Serve,
        ..by_arrive
    };
    let by_migrate = Work {
        before: &older,
        kept: ELEVEN.len(),
        opening: Opening::Migrate,
        ..by_arrive
    };
    try_run(rt, by_arrive.list)?;
    try_work(rt, by_arrive, "arrive")?;
    try_work(rt, by_serve_one, "serve_one")?;
    try_bundles(rt, &new)?;
    try_work(rt, by_migrate, "migrate")
}
