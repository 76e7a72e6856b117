//! Serving the office over HTTP.
ghost use Rattle.std.specs.Prelude.{◌≡◌, IfOk};
ghost use Rattle.canoffice_cli.specs.Outcome.{failure, outcome_of};
ghost use Rattle.canoffice_cli.specs.Jobs.Served.{IsServeOutcome, end_outcome};

use crate::answering::lost_report;
use crate::databases::Databases;
use crate::report::{ExitStatus, Report};
use std::alloc::{AllocError, Global};
use store::Lost;

/// Why serving ended before all connections were served, or wasn't all well.
#[derive(Clone, Copy, PartialEq, Eq)]
pub enum ServeEnd {
    /// The port can't be listened on.
    CannotListen,
    /// A connection can't be accepted.
    CannotAccept,
    /// The database can't be opened, or closed, or it failed in between.
    IsLost(Lost),
}

/// The report with this text for standard error, of what could not be done.
pub(crate) fn failed_report(alloc: Global, text: &[u8]) -> Result<Report, AllocError>
    ensures { IfOk result (λ report. outcome_of report ≡ failure text.now) }
{
    let text = text.to_vec(alloc)?;
    Ok(Report::of_errors(alloc, text, ExitStatus::Failed))
}

/// The report on how serving ended.
fn end_report(alloc: Global, end: Result<(), ServeEnd>) -> Result<Report, AllocError>
    ensures { IfOk result (λ report. outcome_of report ≡ end_outcome end) }
{
    match end {
        Ok(()) => Ok(Report::of_output(alloc, Vec::new(alloc), ExitStatus::Success)),
        Err(ServeEnd::CannotListen) => failed_report(alloc, b"cannot listen\n"),
        Err(ServeEnd::CannotAccept) => failed_report(alloc, b"cannot accept\n"),
        Err(ServeEnd::IsLost(lost)) => lost_report(alloc, lost),
    }
}

/// Serves the office in the database of the path, on the port of this machine and for so many connections. Each answer
/// other than 200 is reported on the machine's standard error where `explain` says so. The error is out of memory for
/// the report.
pub fn serve_report<D: Databases>(
    alloc: Global,
    databases: &mut D,
    path: &str,
    port: u16,
    count: u32,
    explain: bool,
) -> Result<Report, AllocError>
    ensures { IfOk result (λ report. IsServeOutcome (D.known databases.old) (D.known databases.new)
        path.now count
        (outcome_of report)) }
{
    let end = databases.serve(alloc, path, port, count, explain);
    end_report(alloc, end)
}
