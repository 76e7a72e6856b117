//! Readers and writers of one byte a call that fail at one call.
ghost use Rattle.std.specs.Prelude.{◌≡◌, IfOk};

use crate::disks::{Bytes, Taking, Unsynced};
use crate::eleven::{request, response};
use crate::lists::ELEVEN;
use crate::offices::{Opening, Outcome, Trial, is_after, passes_on, served, try_on};
use desk::{Counted, DeskFault, Exchange, Routes, Sink, Source, serve_one};
use sqlite::Alter;
use std::alloc::Global;
use std::io::{self, ErrorKind, Read, Write};
use store::StoredOffice;

/// How a call fails.
#[derive(Clone, Copy, PartialEq, Eq)]
enum Failing {
    /// The peer ends the connection.
    Reset,
    /// A signal comes.
    Interrupted,
    /// It moves nothing, and says so.
    Zero,
}

/// The failure of a call.
fn failure(failing: Failing) -> io::Result<usize>
    ensures { IfOk result (λ n. n ≡ 0) }
{
    match failing {
        Failing::Reset => Err(io::Error::from(ErrorKind::ConnectionReset)),
        Failing::Interrupted => Err(io::Error::from(ErrorKind::Interrupted)),
        Failing::Zero => Ok(0),
    }
}

/// Gives one byte a call. One call fails.
#[derive(Drop)]
struct Reader<'a> {
    left: &'a [u8],
    calls: usize,
    fails_at: usize,
    failing: Failing,
}

impl Read for Reader<'_> {
    fn read(&mut self, buf: &mut [u8]) -> io::Result<usize> {
        self.calls = self.calls.saturating_add(1);
        if self.calls == self.fails_at {
            return failure(self.failing);
        }
        let most = buf.len().min(self.left.len()).min(1);
        let (piece, left) = self.left.split_at(most);
        buf[..most].copy_from_slice(piece);
        self.left = left;
        Ok(most)
    }
}

/// Takes one byte a call. One call fails.
#[derive(Drop)]
struct Writer {
    held: Vec<u8>,
    calls: usize,
    fails_at: usize,
    failing: Failing,
}

impl Write for Writer {
    fn write(&mut self, buf: &[u8]) -> io::Result<usize> {
        self.calls = self.calls.saturating_add(1);
        if self.calls == self.fails_at {
            return failure(self.failing);
        }
        let Some(byte) = buf.first() else {
            return Ok(0);
        };
        self.held.push(*byte)?;
        Ok(1)
    }

    fn flush(&mut self) -> io::Result<()> {
        Ok(())
    }
}

fn is_fault(served: Result<(), DeskFault>, code: u8) -> bool {
    match served {
        Ok(()) => false,
        Err(fault) => fault.code() == code,
    }
}

/// Whether the request from a reader that fails at this call ends with the fault 80, one failed call, and nothing
/// written.
fn fails_to_read<S: Alter>(
    alloc: Global,
    office: &mut StoredOffice<S>,
    request: &[u8],
    at: usize,
    failing: Failing,
) -> bool {
    let Ok(routes) = Routes::new(alloc) else {
        return false;
    };
    let mut source = Counted::new(Reader {
        left: request,
        calls: 0,
        fails_at: at,
        failing,
    });
    let mut sink = Counted::new(Vec::new(alloc));
    let mut unwanted = Exchange::new(alloc, false);
    let served = serve_one(
        alloc,
        &routes,
        office,
        &mut source,
        &mut sink,
        &mut unwanted,
    );
    let counts = source.failures() == 1 && sink.failures() == 0;
    is_fault(served, 80) && counts && sink.into_inner().is_empty()
}

/// Whether the request to a writer that fails at this call ends with the fault 81, one failed call, and as much of the
/// response as the calls before it took.
fn fails_to_write<S: Alter>(
    alloc: Global,
    office: &mut StoredOffice<S>,
    (request, response): (&[u8], &[u8]),
    at: usize,
    failing: Failing,
) -> bool {
    let Ok(routes) = Routes::new(alloc) else {
        return false;
    };
    let mut source = Counted::new(request);
    let mut sink = Counted::new(Writer {
        held: Vec::new(alloc),
        calls: 0,
        fails_at: at,
        failing,
    });
    let mut unwanted = Exchange::new(alloc, false);
    let served = serve_one(
        alloc,
        &routes,
        office,
        &mut source,
        &mut sink,
        &mut unwanted,
    );
    let counts = source.failures() == 0 && sink.failures() == 1;
    let Writer { held, .. } = sink.into_inner();
    is_fault(served, 81) && counts && response.get(..at.saturating_sub(1)) == Some(held.as_slice())
}

/// Whether the requests before this one get their responses.
fn serves_before<S: Alter>(alloc: Global, office: &mut StoredOffice<S>, number: usize) -> bool {
    for earlier in 0..number {
        if served(alloc, office, earlier) != Outcome::Right {
            return false;
        }
    }
    true
}

/// The number of the request that the readers and writers are tried with: the first that takes an identifier.
const TAKE: usize = 2;

/// That the request isn't carried out where its reader fails, and gets its response when it is sent again.
#[derive(Drop)]
struct Unread<'a> {
    request: &'a [u8],
    at: usize,
    failing: Failing,
}

impl Trial for Unread<'_> {
    fn is_passed<S: Alter>(&mut self, alloc: Global, office: &mut StoredOffice<S>) -> bool {
        serves_before(alloc, office, TAKE)
            && fails_to_read(alloc, office, self.request, self.at, self.failing)
            && is_after(alloc, office, &ELEVEN, TAKE, 0)
            && served(alloc, office, TAKE) == Outcome::Right
    }
}

/// That the request is carried out where its writer fails, and gets its response when it is sent again.
#[derive(Drop)]
struct Unwritten<'a> {
    request: &'a [u8],
    response: &'a [u8],
    at: usize,
    failing: Failing,
}

impl Trial for Unwritten<'_> {
    fn is_passed<S: Alter>(&mut self, alloc: Global, office: &mut StoredOffice<S>) -> bool {
        let texts = (self.request, self.response);
        serves_before(alloc, office, TAKE)
            && fails_to_write(alloc, office, texts, self.at, self.failing)
            && is_after(alloc, office, &ELEVEN, TAKE.saturating_add(1), 0)
            && served(alloc, office, TAKE) == Outcome::Right
    }
}

fn try_readers(rt: &HostRuntime, request: &[u8]) -> io::Result<()> {
    let none = Bytes::none(rt.alloc());
    let mut right = 0usize;
    for (failing, name) in [
        (Failing::Reset, "reset"),
        (Failing::Interrupted, "interrupted"),
    ] {
        for at in 1..request.len().saturating_add(1) {
            let files = none.whole_files(rt.alloc())?;
            let mut unread = Unread {
                request,
                at,
                failing,
            };
            if passes_on(rt.alloc(), files, Opening::Open, &mut unread) {
                right = right.saturating_add(1);
            } else {
                println!(rt; "a reader, {name}: WRONG at call {at}")?;
            }
        }
    }
    println!(rt; "readers: {right} right")
}

fn try_writers(rt: &HostRuntime, request: &[u8], response: &[u8]) -> io::Result<()> {
    let none = Bytes::none(rt.alloc());
    let mut right = 0usize;
    for (failing, name) in [
        (Failing::Reset, "reset"),
        (Failing::Interrupted, "interrupted"),
        (Failing::Zero, "zero"),
    ] {
        for at in 1..response.len().saturating_add(1) {
            let files = none.whole_files(rt.alloc())?;
            let mut unwritten = Unwritten {
                request,
                response,
                at,
                failing,
            };
            if passes_on(rt.alloc(), files, Opening::Open, &mut unwritten) {
                right = right.saturating_add(1);
            } else {
                println!(rt; "a writer, {name}: WRONG at call {at}")?;
            }
        }
    }
    println!(rt; "writers: {right} right")
}

/// That the request of this number fails at the first call of its writer, and those before it get their responses.
#[derive(Drop)]
struct Unanswered<'a> {
    request: &'a [u8],
    number: usize,
}

impl Trial for Unanswered<'_> {
    fn is_passed<S: Alter>(&mut self, alloc: Global, office: &mut StoredOffice<S>) -> bool {
        serves_before(alloc, office, self.number)
            && fails_to_write(alloc, office, (self.request, b""), 1, Failing::Reset)
    }
}

/// That the request of this number gets its response.
#[derive(Drop)]
struct Answered {
    number: usize,
}

impl Trial for Answered {
    fn is_passed<S: Alter>(&mut self, alloc: Global, office: &mut StoredOffice<S>) -> bool {
        served(alloc, office, self.number) == Outcome::Right
    }
}

/// Whether the request of this number gets its response from a new office on the files of one whose writer failed.
fn is_answered_later(alloc: Global, number: usize, unsynced: Unsynced) -> io::Result<bool> {
    let request = request(alloc, number)?;
    let files = Bytes::none(alloc).whole_files(alloc)?;
    let mut unanswered = Unanswered {
        request: &request,
        number,
    };
    let (failed, left) = try_on(alloc, files, Opening::Open, Taking::Left, &mut unanswered);
    let files = Bytes::left_of(alloc, left, unsynced)?.whole_files(alloc)?;
    let answered = passes_on(alloc, files, Opening::Open, &mut Answered { number });
    Ok(failed == Ok(true) && answered)
}

/// Each request of the list of eleven with a writer that fails at its first call.
fn try_requests(rt: &HostRuntime) -> io::Result<()> {
    let mut right = 0usize;
    for number in 0..ELEVEN.len() {
        for (unsynced, left) in [(Unsynced::IsLost, "lost"), (Unsynced::IsKept, "kept")] {
            if is_answered_later(rt.alloc(), number, unsynced)? {
                right = right.saturating_add(1);
            } else {
                println!(rt; "a writer that fails, {left}: WRONG at request {number}")?;
            }
        }
    }
    println!(rt; "a writer that fails: {right} right")
}

/// Writers that fail at the first call for each request; readers and writers that fail at each call for one of them.
pub(crate) fn try_devices(rt: &HostRuntime) -> io::Result<()> {
    let request = request(rt.alloc(), TAKE)?;
    let response = response(rt.alloc(), TAKE)?;
    try_requests(rt)?;
    try_readers(rt, &request)?;
    try_writers(rt, &request, &response)
}
