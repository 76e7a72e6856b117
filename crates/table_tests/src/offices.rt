//! Offices on the files, what is tried on them, and ways to send them the requests of a list.
//!
//! All that is done with an office is over any store: what names the one on two files takes twenty times as long to
//! prove. So `try_on` alone goes from files to an office and back.
use crate::disks::{Taking, connected, taken};
use crate::eleven::{request, response};
use crate::lists::{List, Step, is_live_after};
use dbc_words::Name;
use desk::{Counted, Exchange, Routes, serve_one};
use office_history::{Answer, Arrival};
use office_types::{Look, NetName};
use sqlite::{Alter, Connection, Files};
use sqlite_disk::Disk;
use std::alloc::Global;
use std::io::{self, ErrorKind};
use store::{Lost, StoredOffice, Watch};

/// How an office is opened.
#[derive(Clone, Copy, PartialEq, Eq)]
pub(crate) enum Opening {
    /// By `open`.
    Open,
    /// By `migrate`.
    Migrate,
}

/// How a request is sent.
#[derive(Clone, Copy, PartialEq, Eq)]
pub(crate) enum Way {
    /// By `arrive`.
    Arrive,
    /// By `serve_one`, if it is one of the list of eleven.
    Serve,
}

/// What came of a request.
#[derive(Clone, Copy, PartialEq, Eq)]
pub(crate) enum Outcome {
    /// Its reply is right.
    Right,
    /// It was lost because of the store.
    Lost,
    /// Its reply is wrong, or memory ran out.
    Wrong,
}

/// Nobody waits for `migrate`.
#[derive(Clone, Copy)]
struct Nobody;

impl Watch for Nobody {
    fn show(&mut self, _net: &NetName, _message: &Name) {}
}

/// An office on the connection.
fn open_office<S: Alter + Drop>(
    alloc: Global,
    conn: Connection<S>,
    opening: Opening,
) -> Result<StoredOffice<S>, (Lost, Connection<S>)> {
    if !conn.is_autocommit() {
        return Err((Lost::Store, conn));
    }
    match opening {
        Opening::Open => StoredOffice::open(conn),
        Opening::Migrate => StoredOffice::migrate(alloc, conn, &mut Nobody),
    }
}

/// What is tried on an office.
pub(crate) trait Trial {
    /// Whether the office does all that it must.
    fn is_passed<S: Alter>(&mut self, alloc: Global, office: &mut StoredOffice<S>) -> bool;
}

/// Opens an office on the connection, tries it, and gives the connection back. Whether it passed, or why it wasn't
/// opened.
fn try_opened<S: Alter + Drop, T: Trial>(
    alloc: Global,
    conn: Connection<S>,
    opening: Opening,
    trial: &mut T,
) -> (Result<bool, Lost>, Connection<S>) {
    match open_office(alloc, conn, opening) {
        Ok(mut office) => {
            let passed = trial.is_passed(alloc, &mut office);
            (Ok(passed), office.close())
        }
        Err((lost, conn)) => (Err(lost), conn),
    }
}

/// Opens an office on the files, tries it, and takes the files. Whether it passed, or why it wasn't opened.
pub(crate) fn try_on<D: Disk + Drop, T: Trial>(
    alloc: Global,
    files: Files<D>,
    opening: Opening,
    taking: Taking,
    trial: &mut T,
) -> (Result<bool, Lost>, Files<D>) {
    match connected(alloc, files) {
        Ok(conn) => {
            let (passed, conn) = try_opened(alloc, conn, opening, trial);
            (passed, taken(conn, taking))
        }
        Err(files) => (Err(Lost::Store), files),
    }
}

/// Whether an office on the files passes the trial.
pub(crate) fn passes_on<D: Disk + Drop, T: Trial>(
    alloc: Global,
    files: Files<D>,
    opening: Opening,
    trial: &mut T,
) -> bool {
    let (passed, _files) = try_on(alloc, files, opening, Taking::Left, trial);
    passed == Ok(true)
}

/// Whether the answer is the reply of these words.
fn is_reply(alloc: Global, answer: &Answer, words: &str) -> bool {
    match answer {
        Answer::Reply(reply) => match format!(in alloc; "{reply}") {
            Ok(text) => text.as_str() == words,
            Err(_) => false,
        },
        Answer::KeyReused => false,
    }
}

fn answer_arrival<S: Alter>(
    alloc: Global,
    office: &mut StoredOffice<S>,
    arrival: &Arrival,
    words: &str,
) -> Outcome {
    match office.arrive(alloc, &arrival.team, &arrival.key, &arrival.request) {
        Ok(answer) => {
            if is_reply(alloc, &answer, words) {
                Outcome::Right
            } else {
                Outcome::Wrong
            }
        }
        Err(Lost::Store) => Outcome::Lost,
        Err(_) => Outcome::Wrong,
    }
}

/// What is written for the request of this number.
fn written<S: Alter>(
    alloc: Global,
    office: &mut StoredOffice<S>,
    number: usize,
) -> io::Result<Vec<u8>> {
    let routes = Routes::new(alloc)?;
    let request = request(alloc, number)?;
    let mut source = Counted::new(request.as_slice());
    let mut sink = Counted::new(Vec::new(alloc));
    let mut unwanted = Exchange::new(alloc, false);
    match serve_one(
        alloc,
        &routes,
        office,
        &mut source,
        &mut sink,
        &mut unwanted,
    ) {
        Ok(()) => Ok(sink.into_inner()),
        Err(_) => Err(ErrorKind::Other)?,
    }
}

/// Serves the request of this number, from 0, of the list of eleven.
pub(crate) fn served<S: Alter>(
    alloc: Global,
    office: &mut StoredOffice<S>,
    number: usize,
) -> Outcome {
    let Ok(right) = response(alloc, number) else {
        return Outcome::Wrong;
    };
    let Ok(text) = written(alloc, office, number) else {
        return Outcome::Wrong;
    };
    if text.as_slice() == right.as_slice() {
        Outcome::Right
    } else if text.starts_with(b"HTTP/1.1 503 ") {
        Outcome::Lost
    } else {
        Outcome::Wrong
    }
}

fn send<S: Alter>(
    alloc: Global,
    office: &mut StoredOffice<S>,
    list: List<'_>,
    way: Way,
    number: usize,
) -> Outcome {
    match way {
        Way::Arrive => match (list.arrivals.get(number), list.steps.get(number)) {
            (Some(arrival), Some(step)) => answer_arrival(alloc, office, arrival, step.reply),
            _ => Outcome::Wrong,
        },
        Way::Serve => served(alloc, office, number),
    }
}

/// Sends the list from the request of this number on, up to the first that is lost. How many requests of the list have
/// then been answered; `None` if a reply is wrong.
pub(crate) fn sent<S: Alter>(
    alloc: Global,
    office: &mut StoredOffice<S>,
    list: List<'_>,
    way: Way,
    first: usize,
) -> Option<usize> {
    for number in first..list.steps.len() {
        match send(alloc, office, list, way, number) {
            Outcome::Right => {}
            Outcome::Lost => return Some(number),
            Outcome::Wrong => return None,
        }
    }
    Some(list.steps.len())
}

/// Whether the answer is there, and is the reply of these words.
fn is_answered(alloc: Global, answered: &Result<Answer, Lost>, words: &str) -> bool {
    match answered {
        Ok(answer) => is_reply(alloc, answer, words),
        Err(_) => false,
    }
}

/// Whether the list gets its replies by `run`.
pub(crate) fn is_run<S: Alter>(
    alloc: Global,
    office: &mut StoredOffice<S>,
    list: List<'_>,
) -> bool {
    let Ok(answers) = office.run(alloc, list.arrivals) else {
        return false;
    };
    answers.len() == list.steps.len()
        && answers.iter().zip(list.steps.iter()).all(|(answered, step)| is_answered(
            alloc, answered, step.reply,
        ))
}

/// Whether the network's live sheet is that after the first steps, so many, or after at most so many more.
pub(crate) fn is_after<S: Alter>(
    alloc: Global,
    office: &mut StoredOffice<S>,
    steps: &[Step],
    count: usize,
    more: usize,
) -> bool {
    let Ok(Some(net)) = NetName::of(alloc, b"truck") else {
        return false;
    };
    let Ok(sheet) = office.look(alloc, &Look::Live(net)) else {
        return false;
    };
    let text = sheet.as_deref();
    is_live_after(text, steps, count) || is_live_after(text, steps, count.saturating_add(more))
}
