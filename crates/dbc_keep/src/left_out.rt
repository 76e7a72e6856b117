//! A line for each statement that is left out.
ghost use Rattle.std.specs.Prelude.{◌≡◌, IfOk, length, min};
ghost use Rattle.dbc_advice.specs.LeftOut.{passed_label};
ghost use Rattle.dbc_keep.specs.LeftOut.{left_out_line, left_out_lines, line_at, reason_text};

use crate::counting::{line_from, position_in};
use crate::staying::LeftOut;
use dbc_advice::{Source, reported_line};
use dbc_keep_law::LeavingReason;
use dbc_words::Keyword;
use std::alloc::{AllocError, Global};

/// Why a statement is left out.
fn reason_text(reason: LeavingReason) -> &'static str
    ensures { result.now ≡ reason_text reason }
{
    match reason {
        LeavingReason::NoNode => "left out, since a node that it names isn't in the sheet",
        LeavingReason::NoMessage => "left out, since a message that it names isn't in the sheet",
        LeavingReason::NoSignal => "left out, since a signal that it names isn't in the sheet",
        LeavingReason::SheetSays => "left out, since the sheet has its own",
    }
}

/// `passed` and the keyword.
fn passed_label(alloc: Global, keyword: Keyword) -> Result<Vec<u8>, AllocError>
    ensures { IfOk result (λ label. label.items ≡ passed_label keyword) }
{
    let text = format!(in alloc; "passed {}", keyword.text())?;
    Ok(text.into_bytes())
}

/// The line of a statement that begins in this line of the file, at this offset, with its LF.
fn left_out_line(
    alloc: Global,
    source: Source,
    line: usize,
    at: usize,
    one: LeftOut,
) -> Result<Vec<u8>, AllocError>
    requires at { at ≡ min one.statement.at (length source.text.now) }
    requires line { line ≡ line_at source.text.now at }
    ensures { IfOk result (λ line. line.items ≡ left_out_line source.entry.name.now
        source.entry.text.now one) }
{
    let label = passed_label(alloc, one.statement.keyword)?;
    let position = position_in(source.text, line, at);
    let why = reason_text(one.reason);
    reported_line(alloc, source.name, position, &label, why.as_bytes())
}

/// A line for each of the statements of the file that are left out: where it begins, its keyword, and why. The error is
/// out of memory.
pub fn left_out_lines(
    alloc: Global,
    source: Source,
    left_out: &[LeftOut],
) -> Result<Vec<u8>, AllocError>
    ensures { IfOk result (λ lines. lines.items ≡ left_out_lines source.entry.name.now
        source.entry.text.now left_out.now) }
{
    let mut lines = Vec::new(alloc);
    let mut from = 0usize;
    let mut line = 1usize;
    for one in left_out {
        let at = one.statement.at.min(source.text.len());
        line = line_from(source.text, from, line, at);
        from = at;
        let written = left_out_line(alloc, source, line, at, *one)?;
        lines.extend_from_slice(&written)?;
    }
    Ok(lines)
}
