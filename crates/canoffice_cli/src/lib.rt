//! The library of the program `canoffice`: from the words of its command line to its exit status.
//!
//! - What the words of the command line request is in the crate `canoffice_jobs`.
//! - `files` reads files and standard input: those of the machine, or those of a list in memory. `databases` has the
//!   offices in databases, of which one in memory is here, and `Desks` of the crate `desk_send` those that desks serve;
//!   those of the machine are in the program itself.
//! - `jobs` has the jobs, a module for each: `report_of` does one. `file_jobs` does those that read a file of which
//!   something may be stated, and `explaining` says what `--explain` states of it.
//! - `answering` answers the arrivals of a script, by an office in memory or on a connection to a database, `progress`
//!   shows how far it is, `room` is taken before for what is printed after, and `reasons` has what `--explain` adds of
//!   the commands of a script that are refused.
//! - `report` is the result of a run: bytes for standard output and standard error, and a `ExitStatus`.
//! - `delivery` writes a report to the two streams.
//! - `program` joins them: `perform` is a whole run.
//!
//! The definitions in `specs/` describe the same in terms of bytes and of the histories that databases hold:
//! `IsPerformed` is a whole run.
#![tactic(auto)]

mod answering;
mod databases;
mod delivery;
mod files;
mod jobs;
mod lines;
mod program;
mod progress;
mod reasons;
mod refused_line;
mod report;
mod room;

pub use answering::{Answers, answer_on, answers_when_closed, nothing_answered};
pub use canoffice_jobs::{
    Extras, Job, JobFault, Manner, OfficePlace, Sending, job_of, not_utf8_fault,
};
pub use databases::{Databases, MemoryDatabase};
pub use delivery::deliver;
pub use desk_send::{Desks, NoDesk};
pub use files::{
    FileSource, HostFiles, ListedFiles, NamedFile, PathFault, StandardInput, bytes_at,
};
pub use jobs::{ServeEnd, apply_script, look_on, migrate_on, report_of};
pub use program::{fault_report, perform};
pub use progress::Progress;
pub use reasons::Reasons;
pub use report::{ExitStatus, LOST_MEMORY, Report, bad_line, bad_word, cannot_read, help, usage};
pub use room::answers_fit;
pub use store::{Arrival, Look, Lost, StoredOffice};
