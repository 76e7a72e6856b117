//! Jobs on the bytes of one file, or of standard input, of which something may be stated on standard error.
ghost use Rattle.std.specs.Prelude.{◌≡◌, List, IfOk, option_map};
ghost use Rattle.office_history.specs.declared.arrival.Answer.{Answer as AnAnswer};
ghost use Rattle.office_script.specs.declared.files.PathFault.TheVariants.{Unreadable};
ghost use Rattle.canoffice_cli.specs.Jobs.Applied.{IsApplyOutcome};
ghost use Rattle.canoffice_cli.specs.Jobs.Explaining.{IsExplainedBy, IsExplanation, IsStated, MayBeStatedBy, MayState};
ghost use Rattle.canoffice_cli.specs.Jobs.Formatted.{IsFormatted};
ghost use Rattle.canoffice_cli.specs.Outcome.{outcome_of, unreadable};
ghost use Rattle.canoffice_cli.specs.Jobs.{IsTaskOutcome, IsFileOutcome, IsOfBytes};
ghost use Rattle.canoffice_cli.specs.Reasons.{HasReasons};
ghost use Rattle.dbc_advice.specs.ShownPath.{shown_path};

use crate::databases::Databases;
use crate::files::{FileSource, PathFault, StandardInput, bytes_at};
use crate::jobs::apply::apply_script;
use crate::jobs::checking::check_report;
use crate::jobs::explaining::{Advice, stated};
use crate::jobs::formatting::{format_report, kept_report};
use crate::progress::Progress;
use crate::reasons::Reasons;
use crate::report::{ExitStatus, Report, cannot_read};
use canoffice_jobs::Manner;
use dbc_advice::{Source, shown_path};
use std::alloc::{AllocError, Global};
use std::io::Write;

/// What is done with the bytes of a file.
#[derive(Clone, Copy)]
pub(crate) enum FileTask<'a> {
    /// They are a script, which is applied so to the office in the database of this path, or to one in memory.
    Apply(Option<&'a str>, Manner),
    /// They are DBC text, which is checked; where there are names, with the remarks whose kinds they choose; and as JSON
    /// where that is wanted.
    Check(Option<&'a str>, bool),
    /// They are DBC text, which is printed in its canonical form, with the statements that are skipped or without.
    Format(bool),
}

/// A job on a file.
#[derive(Clone, Copy)]
pub(crate) struct FileJob<'a> {
    /// What is done with its bytes.
    pub task: FileTask<'a>,
    /// Its path, or `-` for standard input. Messages name it so, as [`shown_path`] shows it.
    pub path: &'a str,
    /// How much is stated of it on standard error.
    pub advice: Advice,
}

impl<'a> FileJob<'a> {
    /// The job of this task on the file of this path.
    pub fn new(task: FileTask<'a>, path: &'a str, advice: Advice) -> FileJob<'a>
        ensures { result ≡ record { task = task.entry; path = path.entry; advice = advice } }
    {
        FileJob { task, path, advice }
    }
}

/// The report that the file can't be read, unless memory ran out.
pub(crate) fn unreadable_report(
    alloc: Global,
    file: &str,
    fault: PathFault,
) -> Result<Report, AllocError>
    ensures { IfOk result (λ report. (fault ≡ Unreadable)
        × (outcome_of report ≡ unreadable file.now)) }
{
    match fault {
        PathFault::Unreadable => cannot_read(alloc, file),
        PathFault::Memory => Err(AllocError),
    }
}

/// The report on the file of the job: that on its bytes, or that it can't be read.
pub(crate) fn file_report<F: FileSource + StandardInput, D: Databases, W: Write>(
    alloc: Global,
    job: FileJob<'_>,
    files: &F,
    databases: &mut D,
    progress: &mut Progress<W>,
) -> Result<Report, AllocError>
    ensures { IfOk result (λ report. IsFileOutcome (F.held files.now) (F.given files.now)
        (D.known databases.old)
        (D.known databases.new) job.entry (outcome_of report)) }
{
    match bytes_at(alloc, files, job.path) {
        Ok(bytes) => bytes_report(alloc, job, &bytes, files, databases, progress),
        Err(fault) => unreadable_report(alloc, job.path, fault),
    }
}

/// The report on the script of these bytes, with this and then why its commands are refused on standard error.
fn script_report<F: FileSource, D: Databases, W: Write>(
    alloc: Global,
    source: Source,
    stated: &[u8],
    files: &F,
    database: Option<&str>,
    manner: Manner,
    databases: &mut D,
    progress: &mut Progress<W>,
) -> Result<Report, AllocError>
    ensures { IfOk result (λ report. IsExplainedBy
        (IsApplyOutcome (F.held files.now) (option_map (λ path. path.now) database.entry) manner
        (D.known databases.old) (D.known databases.new) source.entry.text.now)
        (HasReasons source.entry.name.now source.entry.text.now stated.now) (outcome_of report)) }
{
    let mut reasons = Reasons::new(alloc, true);
    let report = apply_script(
        alloc,
        source.text,
        files,
        database,
        manner,
        databases,
        &mut reasons,
        progress,
    )?;
    let report = report.and_errors(stated)?;
    let advice = reasons.advice(alloc, source.name);
    Ok(report.and_advice(&advice))
}

/// The report of the task on the bytes, with what is stated of them on standard error.
fn explained_report<F: FileSource, D: Databases, W: Write>(
    alloc: Global,
    task: FileTask<'_>,
    source: Source,
    files: &F,
    databases: &mut D,
    progress: &mut Progress<W>,
) -> Result<Report, AllocError>
    ensures { IfOk result (λ report. IsExplainedBy
        (IsTaskOutcome (F.held files.now) (D.known databases.old) (D.known databases.new)
        task.entry source.entry.text.now)
        (IsExplanation (F.held files.now) task.entry source.entry.name.now source.entry.text.now)
        (outcome_of report)) }
{
    // First of all, so that memory for this can't run out after a database has answered.
    let stated = stated(alloc, task, source, files)?;
    match task {
        FileTask::Apply(database, manner) => script_report(
            alloc, source, &stated, files, database, manner, databases, progress,
        ),
        _ => {
            let report = task_report(alloc, task, source.text, files, databases, progress)?;
            report.and_errors(&stated)
        }
    }
}

/// The report of the job's task on the bytes, with what is stated of them on standard error.
fn full_report<F: FileSource, D: Databases, W: Write>(
    alloc: Global,
    job: FileJob<'_>,
    bytes: &[u8],
    files: &F,
    databases: &mut D,
    progress: &mut Progress<W>,
) -> Result<Report, AllocError>
    ensures { IfOk result (λ report. IsExplainedBy
        (IsTaskOutcome (F.held files.now) (D.known databases.old) (D.known databases.new)
        job.entry.task bytes.now)
        (IsExplanation (F.held files.now) job.entry.task (shown_path job.entry.path.now) bytes.now)
        (outcome_of report)) }
{
    let shown = shown_path(alloc, job.path)?;
    let source = Source {
        name: shown.as_bytes(),
        text: bytes,
    };
    explained_report(alloc, job.task, source, files, databases, progress)
}

/// What is stated of the job's file. The error is out of memory.
fn stated_of_job<F: FileSource>(
    alloc: Global,
    job: FileJob<'_>,
    bytes: &[u8],
    files: &F,
) -> Result<Vec<u8>, AllocError>
    ensures { IfOk result (λ stated. IsStated (F.held files.now) job.entry.task
        (shown_path job.entry.path.now) bytes.now stated.items) }
{
    let shown = shown_path(alloc, job.path)?;
    let source = Source {
        name: shown.as_bytes(),
        text: bytes,
    };
    stated(alloc, job.task, source, files)
}

/// The report, with what is stated of the job's file on standard error, unless memory runs out for that.
fn with_stated<F: FileSource>(
    alloc: Global,
    report: Report,
    job: FileJob<'_>,
    bytes: &[u8],
    files: &F,
) -> Report
    ensures { MayState (IsStated (F.held files.now) job.entry.task
        (shown_path job.entry.path.now) bytes.now) (outcome_of report) (outcome_of result) }
{
    match stated_of_job(alloc, job, bytes, files) {
        Ok(stated) => report.and_advice(&stated),
        Err(AllocError) => report,
    }
}

/// The report of the job's task on the bytes; where a line is wrong, with what is stated of it, unless memory runs out
/// for that.
fn report_at_terminal<F: FileSource, D: Databases, W: Write>(
    alloc: Global,
    job: FileJob<'_>,
    bytes: &[u8],
    files: &F,
    databases: &mut D,
    progress: &mut Progress<W>,
) -> Result<Report, AllocError>
    ensures { IfOk result (λ report. MayBeStatedBy
        (IsTaskOutcome (F.held files.now) (D.known databases.old) (D.known databases.new)
        job.entry.task bytes.now)
        (IsStated (F.held files.now) job.entry.task (shown_path job.entry.path.now) bytes.now)
        (outcome_of report)) }
{
    let report = task_report(alloc, job.task, bytes, files, databases, progress)?;
    match report.status {
        ExitStatus::WrongInput => Ok(with_stated(alloc, report, job, bytes, files)),
        _ => Ok(report),
    }
}

/// The report on the bytes of the job's file.
fn bytes_report<F: FileSource, D: Databases, W: Write>(
    alloc: Global,
    job: FileJob<'_>,
    bytes: &[u8],
    files: &F,
    databases: &mut D,
    progress: &mut Progress<W>,
) -> Result<Report, AllocError>
    ensures { IfOk result (λ report. IsOfBytes (F.held files.now) (D.known databases.old)
        (D.known databases.new) job.entry bytes.now (outcome_of report)) }
{
    match job.advice {
        Advice::Nothing => task_report(alloc, job.task, bytes, files, databases, progress),
        Advice::WrongLine => report_at_terminal(alloc, job, bytes, files, databases, progress),
        Advice::Everything => full_report(alloc, job, bytes, files, databases, progress),
    }
}

/// The canonical form of DBC text, with the statements that are skipped or without.
fn formatted_report(alloc: Global, bytes: &[u8], keep: bool) -> Result<Report, AllocError>
    ensures { IfOk result (λ report. IsFormatted keep bytes.now (outcome_of report)) }
{
    if keep {
        kept_report(alloc, bytes)
    } else {
        format_report(alloc, bytes)
    }
}

/// The report of the task on the bytes, without more.
fn task_report<F: FileSource, D: Databases, W: Write>(
    alloc: Global,
    task: FileTask<'_>,
    bytes: &[u8],
    files: &F,
    databases: &mut D,
    progress: &mut Progress<W>,
) -> Result<Report, AllocError>
    ensures { IfOk result (λ report. (answers : List AnAnswer)
        × IsTaskOutcome (F.held files.now) (D.known databases.old)
        (D.known databases.new) task.entry bytes.now (outcome_of report) answers) }
{
    match task {
        FileTask::Apply(database, manner) => {
            let mut reasons = Reasons::new(alloc, false);
            apply_script(
                alloc,
                bytes,
                files,
                database,
                manner,
                databases,
                &mut reasons,
                progress,
            )
        }
        FileTask::Check(lint, json) => check_report(alloc, bytes, lint, json),
        FileTask::Format(keep) => formatted_report(alloc, bytes, keep),
    }
}
