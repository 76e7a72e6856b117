//! Writing the program's report to its two streams.
ghost use Rattle.std.specs.Prelude.{OnErr, OnOk};
ghost use Rattle.canoffice_cli.specs.Outcome.{final_outcome};
ghost use Rattle.canoffice_cli.specs.Delivery.{IsCut, IsDelivered, IsWritten};

use crate::report::{ExitStatus, LOST_MEMORY, Report};
use std::alloc::AllocError;
use std::io::Write;

/// A writer failed.
#[derive(Clone, Copy)]
struct Unwritten;

/// Writes the report's output to `out` and then its errors to `errors`, and returns its status. If memory ran out,
/// `LOST_MEMORY` is written to `errors`, and the status is `Failed`.
///
/// If a write or a flush fails, the status is `Failed`: a prefix of the output was written and nothing of the errors,
/// or the output and a prefix of the errors.
pub fn deliver<O: Write, E: Write>(
    report: Result<Report, AllocError>,
    out: &mut O,
    errors: &mut E,
) -> ExitStatus
    ensures { IsDelivered (final_outcome report) (O.contents out.old, O.contents out.new)
        (E.contents errors.old, E.contents errors.new) result }
{
    match report {
        Ok(
            Report {
                output,
                errors: text,
                status,
            },
        ) => write_both(&output, &text, status, out, errors),
        Err(AllocError) => write_both(&[], LOST_MEMORY, ExitStatus::Failed, out, errors),
    }
}

/// Like `deliver`, for the parts of a report.
fn write_both<O: Write, E: Write>(
    output: &[u8],
    text: &[u8],
    status: ExitStatus,
    out: &mut O,
    errors: &mut E,
) -> ExitStatus
    ensures { IsDelivered (record { output = output.now; errors = text.now; status = status })
        (O.contents out.old, O.contents out.new) (E.contents errors.old, E.contents errors.new)
        result }
{
    if write_whole(out, output).is_err() {
        return ExitStatus::Failed;
    }
    if write_whole(errors, text).is_err() {
        return ExitStatus::Failed;
    }
    status
}

/// Writes the whole text and flushes.
fn write_whole<W: Write>(writer: &mut W, text: &[u8]) -> Result<(), Unwritten>
    ensures whole { OnOk result
        (IsWritten (W.contents writer.old, W.contents writer.new) text.now) }
    ensures cut { OnErr result (IsCut (W.contents writer.old, W.contents writer.new) text.now) }
{
    let mut at = 0;
    while at < text.len() {
        match writer.write(&text[at..]) {
            Ok(count) if count > 0 => at += count,
            _ => return Err(Unwritten),
        }
    }
    writer.flush().map_err(|_| Unwritten)
}
