//! The result of a run: bytes for the program's two streams, and its exit status.
ghost use Rattle.std.specs.Prelude.{◌≡◌, ◌⊎◌, [], IfOk, string_bytes};
ghost use Rattle.canoffice_cli.specs.Outcome.{and_errors, code_of, outcome_of, success};
ghost use Rattle.canoffice_cli.specs.Outcome.{unreadable, wrong_input, wrong_line, wrong_word};

use dbc_advice::shown_path;
use std::alloc::{AllocError, Global};

/// How the program ends.
#[derive(Clone, Copy, PartialEq, Eq)]
pub enum ExitStatus {
    /// All went well: 0.
    Success,
    /// A fault was found in what was checked, formatted or charted, or there is a remark on it, what was looked up
    /// isn't there, or a script stopped at a refusal: 1.
    FaultFound,
    /// The command line or a script is wrong: 2.
    WrongInput,
    /// A file can't be read, a desk gives no answer, a write failed, or memory ran out: 3.
    Failed,
}

impl ExitStatus {
    /// The exit status, 0 to 3.
    pub fn code(self) -> u8
        ensures { result ≡ code_of self }
    {
        match self {
            ExitStatus::Success => 0,
            ExitStatus::FaultFound => 1,
            ExitStatus::WrongInput => 2,
            ExitStatus::Failed => 3,
        }
    }
}

/// The result of a run.
#[derive(Drop)]
pub struct Report {
    /// The bytes for standard output.
    pub output: Vec<u8>,
    /// The bytes for standard error.
    pub errors: Vec<u8>,
    /// How the program ends.
    pub status: ExitStatus,
}

impl Report {
    /// The report with these bytes for standard output and none for standard error.
    pub fn of_output(alloc: Global, output: Vec<u8>, status: ExitStatus) -> Report
        ensures { outcome_of result
            ≡ record { output = output.items; errors = []; status = status } }
    {
        Report {
            output,
            errors: Vec::new(alloc),
            status,
        }
    }

    /// The report with these bytes for standard error and none for standard output.
    pub fn of_errors(alloc: Global, errors: Vec<u8>, status: ExitStatus) -> Report
        ensures { outcome_of result
            ≡ record { output = []; errors = errors.items; status = status } }
    {
        Report {
            output: Vec::new(alloc),
            errors,
            status,
        }
    }

    /// The report with these bytes after its own for standard error. The error is out of memory.
    pub fn and_errors(self, more: &[u8]) -> Result<Report, AllocError>
        ensures { IfOk result (λ report. outcome_of report ≡ and_errors (outcome_of self)
            more.now) }
    {
        let mut report = self;
        report.errors.extend_from_slice(more)?;
        Ok(report)
    }

    /// The same with bytes that may be left out, and are where there is no memory for them.
    pub(crate) fn and_advice(self, advice: &[u8]) -> Report
        ensures { (outcome_of result ≡ and_errors (outcome_of self) advice.now)
            ⊎ (outcome_of result ≡ outcome_of self) }
    {
        let mut report = self;
        let _added = report.errors.extend_from_slice(advice);
        report
    }
}

/// What is written to standard error when memory runs out. It takes no memory itself.
pub const LOST_MEMORY: &[u8] = b"lost 71\n";

/// The report that the file at the path can't be read: with the path as [`shown_path`] shows it.
pub fn cannot_read(alloc: Global, path: &str) -> Result<Report, AllocError>
    ensures { IfOk result (λ report. outcome_of report ≡ unreadable path.now) }
{
    let shown = shown_path(alloc, path)?;
    let text = format!(in alloc; "cannot read {shown}\n")?;
    Ok(Report::of_errors(alloc, text.into_bytes(), ExitStatus::Failed))
}

/// The report that the script's line of this number, from 1, is wrong.
pub fn bad_line(alloc: Global, number: usize) -> Result<Report, AllocError>
    ensures { IfOk result (λ report. outcome_of report ≡ wrong_line number) }
{
    let text = format!(in alloc; "bad line {number}\n")?;
    Ok(Report::of_errors(alloc, text.into_bytes(), ExitStatus::WrongInput))
}

/// The report that this word of the command line is malformed.
pub fn bad_word(alloc: Global, word: &str) -> Result<Report, AllocError>
    ensures { IfOk result (λ report. outcome_of report ≡ wrong_word word.now) }
{
    let text = format!(in alloc; "bad word {word}\n")?;
    Ok(usage(alloc, text))
}

/// The report that shows this text of help, or of the version.
pub fn help(alloc: Global, text: String) -> Report
    ensures { outcome_of result ≡ success (string_bytes text) }
{
    Report::of_output(alloc, text.into_bytes(), ExitStatus::Success)
}

/// The report that the command line is wrong, with this text about the error and the usage.
pub fn usage(alloc: Global, text: String) -> Report
    ensures { outcome_of result ≡ wrong_input (string_bytes text) }
{
    Report::of_errors(alloc, text.into_bytes(), ExitStatus::WrongInput)
}
