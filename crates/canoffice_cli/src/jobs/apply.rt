//! Applying a script.
ghost use Rattle.std.specs.Prelude.{IfOk, OnErr, option_map, ⊤};
ghost use Rattle.canoffice_cli.specs.Answered.{InDatabase, InMemory};
ghost use Rattle.canoffice_cli.specs.Jobs.Applied.{AreTold, IsApplyOutcome, IsScriptOutcome, Reports};
ghost use Rattle.canoffice_cli.specs.Databases.{AreKept};
ghost use Rattle.canoffice_cli.specs.Outcome.{outcome_of};
ghost use Rattle.canoffice_cli.specs.Unprinted.{IsUnprintedIn};

use crate::answering::answer_in_memory;
use crate::databases::Databases;
use crate::files::FileSource;
use crate::progress::Progress;
use crate::reasons::Reasons;
use crate::report::{Report, bad_line, cannot_read};
use crate::room::Room;
use canoffice_jobs::Manner;
use office_script::{Dash, ScriptFault, arrivals_of};
use std::alloc::{AllocError, Global};
use std::io::Write;

/// The report that a script can't be read.
pub(crate) fn amiss_report(alloc: Global, fault: ScriptFault) -> Result<Report, AllocError>
    ensures { IfOk result (λ report. Reports fault (outcome_of report)) }
{
    match fault {
        ScriptFault::BadLine(number) => bad_line(alloc, number),
        ScriptFault::Unreadable(path) => cannot_read(alloc, path.as_str()),
        ScriptFault::Memory => Err(AllocError),
    }
}

/// Applies the script to a new office in memory. The key `-` stands for the number of its line.
fn apply_in_memory<F: FileSource, W: Write>(
    alloc: Global,
    script: &[u8],
    files: &F,
    manner: Manner,
    reasons: &mut Reasons,
    progress: &mut Progress<W>,
) -> Result<Report, AllocError>
    ensures { IfOk result (λ report. AreTold (IsScriptOutcome (F.held files.now) Dash.LineNumber
        manner InMemory ⊤ script.now (outcome_of report)) script.now reasons.old reasons.new) }
{
    match arrivals_of(alloc, script, Dash::LineNumber, files) {
        Ok(arrivals) => {
            // Room first, so that no answer is lost because memory for its line runs out.
            let room = Room::for_answers(alloc, &arrivals, manner.echo)?;
            let strict = manner.strict;
            let reported = answer_in_memory(alloc, script, &arrivals, strict, reasons, progress);
            progress.clear();
            reported?.report(alloc, &arrivals, manner, room)
        }
        Err(fault) => amiss_report(alloc, fault),
    }
}

/// Applies the script to the office in the database of the path. The key `-` is wrong.
fn apply_in_database<F: FileSource, D: Databases, W: Write>(
    alloc: Global,
    script: &[u8],
    files: &F,
    manner: Manner,
    databases: &mut D,
    path: &str,
    reasons: &mut Reasons,
    progress: &mut Progress<W>,
) -> Result<Report, AllocError>
    ensures done { IfOk result (λ report. AreTold (IsScriptOutcome (F.held files.now) Dash.Wrong
        manner (InDatabase (D.known databases.old) (D.known databases.new) path.now)
        (AreKept (D.known databases.old) (D.known databases.new)) script.now (outcome_of report))
        script.now reasons.old reasons.new) }
    ensures lost { OnErr result (IsUnprintedIn (D.known databases.old) (D.known databases.new)
        (IsScriptOutcome (F.held files.now) Dash.Wrong
        manner (InDatabase (D.known databases.old) (D.known databases.new) path.now)
        (AreKept (D.known databases.old) (D.known databases.new)) script.now)) }
{
    match arrivals_of(alloc, script, Dash::Wrong, files) {
        Ok(arrivals) => {
            // Room first, so that no answer is lost because memory for its line runs out.
            let room = Room::for_answers(alloc, &arrivals, manner.echo)?;
            let reported = databases.answer(
                alloc,
                path,
                script,
                &arrivals,
                manner.strict,
                reasons,
                progress,
            );
            progress.clear();
            reported?.report(alloc, &arrivals, manner, room)
        }
        Err(fault) => amiss_report(alloc, fault),
    }
}

/// Applies the script of these bytes to the office in the database of the path, or to a new one in memory.
///
/// The whole script is read first, and each file that it names, line by line: if a line is wrong, the number of the
/// first one is reported, and if a file can't be read, the path of the first one; then nothing is done. Else each
/// arrival is answered in turn, up to the first that is lost, or in the strict manner up to the first that is refused,
/// and the answers are printed, with `echo` each after what was requested. The status is `Success` whatever was
/// refused, but `FaultFound` where the strict manner stopped; after the last one `lost` and its number if one was lost,
/// with the status `Failed`. The error is out of memory for the report. Room for the lines of all answers is taken
/// before the first arrival. Why requests are refused is added to the reasons.
pub fn apply_script<F: FileSource, D: Databases, W: Write>(
    alloc: Global,
    script: &[u8],
    files: &F,
    database: Option<&str>,
    manner: Manner,
    databases: &mut D,
    reasons: &mut Reasons,
    progress: &mut Progress<W>,
) -> Result<Report, AllocError>
    ensures done { IfOk result (λ report. AreTold (IsApplyOutcome (F.held files.now)
        (option_map (λ path. path.now) database.entry) manner
        (D.known databases.old) (D.known databases.new) script.now (outcome_of report))
        script.now reasons.old reasons.new) }
    ensures lost { OnErr result (IsUnprintedIn (D.known databases.old) (D.known databases.new)
        (IsApplyOutcome (F.held files.now) (option_map (λ path. path.now) database.entry) manner
        (D.known databases.old) (D.known databases.new) script.now)) }
{
    match database {
        None => apply_in_memory(alloc, script, files, manner, reasons, progress),
        Some(path) => apply_in_database(
            alloc, script, files, manner, databases, path, reasons, progress,
        ),
    }
}
