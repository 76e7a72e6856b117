//! A run of the program, from its words to its exit status.
ghost use Rattle.std.specs.Prelude.{IfOk, OnErr, is_some, map};
ghost use Rattle.canoffice_cli.specs.Outcome.{outcome_of};
ghost use Rattle.canoffice_jobs.specs.CommandLine.{entered};
ghost use Rattle.canoffice_cli.specs.Performance.{IsAnswered, IsEnteredAnswer, IsFaultAnswer, IsPerformed};
ghost use Rattle.canoffice_cli.specs.Unprinted.{IsUnprinted};

use crate::databases::Databases;
use crate::delivery::deliver;
use crate::files::{FileSource, StandardInput};
use crate::jobs::report_of;
use crate::progress::Progress;
use crate::report::{ExitStatus, Report, help, usage};
use canoffice_jobs::{JobFault, is_check, job_of, lint_entered, name_before_help};
use desk_send::Desks;
use std::alloc::{AllocError, Global};
use std::io::Write;

/// Does what the program's words request, writes the result to `out` and `errors`, and returns how the program ends. It
/// is shown in between how far a script is; where that is shown on a terminal, the first wrong line of a script is
/// explained without `--explain`.
///
/// The first word is the program's own name. If memory runs out, `LOST_MEMORY` is written instead of anything else;
/// only if it runs out while an arrival of a script is answered, the answers so far are written before it.
pub fn perform<
    'a,
    F: FileSource + StandardInput,
    D: Databases,
    K: Desks,
    O: Write,
    E: Write,
    W: Write,
>(
    alloc: Global,
    words: &'a [&'a str],
    files: &F,
    databases: &mut D,
    desks: &mut K,
    out: &mut O,
    errors: &mut E,
    progress: &mut Progress<W>,
) -> ExitStatus
    ensures { IsPerformed (map (λ s. s.now) words.entry.now) (F.held files.now) (F.given files.now)
        (is_some progress.old.to) (K.known desks.old) (K.known desks.new)
        (D.known databases.old) (D.known databases.new) (O.contents out.old, O.contents out.new)
        (E.contents errors.old, E.contents errors.new) result }
{
    let report = answer(alloc, words, files, databases, desks, progress);
    deliver(report, out, errors)
}

/// The report on the words, as they are meant.
fn answer<'a, F: FileSource + StandardInput, D: Databases, K: Desks, W: Write>(
    alloc: Global,
    words: &'a [&'a str],
    files: &F,
    databases: &mut D,
    desks: &mut K,
    progress: &mut Progress<W>,
) -> Result<Report, AllocError>
    ensures answered { IfOk result (λ report. IsAnswered (map (λ s. s.now) words.entry.now)
        (F.held files.now) (F.given files.now)
        (is_some progress.old.to) (K.known desks.old) (K.known desks.new)
        (D.known databases.old) (D.known databases.new) (outcome_of report)) }
    ensures lost { OnErr result (IsUnprinted (K.known desks.old) (K.known desks.new)
        (IsAnswered (map (λ s. s.now) words.entry.now)
        (F.held files.now) (F.given files.now)
        (is_some progress.old.to) (K.known desks.old) (K.known desks.new)
        (D.known databases.old) (D.known databases.new))) }
{
    match name_before_help(words) {
        Some(name) => {
            let meant = [name, "help", "help"];
            answer_meant(alloc, &meant, files, databases, desks, progress)
        }
        None => answer_meant(alloc, words, files, databases, desks, progress),
    }
}

/// The report on the words that are meant. `--lint` alone is entered as `--lint=`.
fn answer_meant<'a, F: FileSource + StandardInput, D: Databases, K: Desks, W: Write>(
    alloc: Global,
    words: &'a [&'a str],
    files: &F,
    databases: &mut D,
    desks: &mut K,
    progress: &mut Progress<W>,
) -> Result<Report, AllocError>
    ensures answered { IfOk result (λ report. IsEnteredAnswer (entered (map (λ s. s.now) words.entry.now))
        (F.held files.now) (F.given files.now)
        (is_some progress.old.to) (K.known desks.old) (K.known desks.new)
        (D.known databases.old) (D.known databases.new) (outcome_of report)) }
    ensures lost { OnErr result (IsUnprinted (K.known desks.old) (K.known desks.new)
        (IsEnteredAnswer (entered (map (λ s. s.now) words.entry.now))
        (F.held files.now) (F.given files.now)
        (is_some progress.old.to) (K.known desks.old) (K.known desks.new)
        (D.known databases.old) (D.known databases.new))) }
{
    if is_check(words) {
        let entered = lint_entered(alloc, words)?;
        return answer_entered(alloc, &entered, files, databases, desks, progress);
    }
    answer_entered(alloc, words, files, databases, desks, progress)
}

/// The report on the words that were entered.
fn answer_entered<'a, F: FileSource + StandardInput, D: Databases, K: Desks, W: Write>(
    alloc: Global,
    words: &'a [&'a str],
    files: &F,
    databases: &mut D,
    desks: &mut K,
    progress: &mut Progress<W>,
) -> Result<Report, AllocError>
    ensures answered { IfOk result (λ report. IsEnteredAnswer (map (λ s. s.now) words.entry.now)
        (F.held files.now) (F.given files.now)
        (is_some progress.old.to) (K.known desks.old) (K.known desks.new)
        (D.known databases.old) (D.known databases.new) (outcome_of report)) }
    ensures lost { OnErr result (IsUnprinted (K.known desks.old) (K.known desks.new)
        (IsEnteredAnswer (map (λ s. s.now) words.entry.now)
        (F.held files.now) (F.given files.now)
        (is_some progress.old.to) (K.known desks.old) (K.known desks.new)
        (D.known databases.old) (D.known databases.new))) }
{
    match job_of(alloc, words) {
        Ok(job) => report_of(alloc, &job, files, databases, desks, progress),
        Err(fault) => fault_report(alloc, fault),
    }
}

/// The report on words that request no job: the text of help, or of the version, or of usage.
pub fn fault_report(alloc: Global, fault: JobFault) -> Result<Report, AllocError>
    ensures { IfOk result (λ report. IsFaultAnswer fault (outcome_of report)) }
{
    match fault {
        JobFault::Help(text) => Ok(help(alloc, text)),
        JobFault::Usage(text) => Ok(usage(alloc, text)),
        JobFault::Memory => Err(AllocError),
    }
}
