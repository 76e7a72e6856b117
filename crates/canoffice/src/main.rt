//! The program `canoffice`: the words of its command line, the machine's files, databases and desks, and the two
//! streams, given to the program's library.
#![tactic(auto)]

mod databases;
mod desks;
mod files;

use crate::databases::HostDatabases;
use crate::desks::HostDesks;
use canoffice_cli::{
    ExitStatus, HostFiles, JobFault, Progress, deliver, fault_report, not_utf8_fault, perform,
};
use std::alloc::AllocError;
use std::env;
use std::io::{ErrorKind, IsTerminal};
use std::process::ExitCode;

fn main(rt: HostRuntime) -> ExitCode {
    ExitCode::from(run(&rt).code())
}

/// Reads the words, and performs what they request.
fn run(rt: &HostRuntime) -> ExitStatus {
    let words = match words(rt) {
        Ok(words) => words,
        Err(fault) => {
            let report = fault_report(rt.alloc(), fault);
            return deliver(report, &mut rt.stdout(), &mut rt.stderr());
        }
    };
    match texts(rt, &words) {
        Ok(texts) => run_words(rt, &texts),
        Err(lost) => deliver(Err(lost), &mut rt.stdout(), &mut rt.stderr()),
    }
}

/// Performs what the words request. How far it is, is shown on standard error if that is a terminal.
fn run_words(rt: &HostRuntime, words: &[&str]) -> ExitStatus {
    let errors = rt.stderr();
    let mut progress = Progress {
        to: if errors.is_terminal() {
            Some(errors)
        } else {
            None
        },
    };
    perform(
        rt.alloc(),
        words,
        &HostFiles { rt },
        &mut HostDatabases { rt },
        &mut HostDesks { rt },
        &mut rt.stdout(),
        &mut rt.stderr(),
        &mut progress,
    )
}

/// The program's arguments, the first of which is its own name.
fn words(rt: &HostRuntime) -> Result<Vec<String>, JobFault> {
    match env::args(rt) {
        Ok(words) => words.collect(rt.alloc()).map_err(|_| JobFault::Memory),
        Err(error) if matches!(error.kind(), ErrorKind::OutOfMemory) => Err(JobFault::Memory),
        Err(_) => Err(not_utf8_fault(rt.alloc())),
    }
}

fn texts<'a>(rt: &HostRuntime, words: &'a [String]) -> Result<Vec<&'a str>, AllocError> {
    words.iter().map(|word| word.as_str()).collect(rt.alloc())
}
