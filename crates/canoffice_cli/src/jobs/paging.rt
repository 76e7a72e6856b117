//! Pages: of DBC texts, and of what an office has.
ghost use Rattle.std.specs.Prelude.{◌≡◌, ◌≤◌, ⊤, length, IfOk, OnErr};
ghost use Rattle.std.specs.List.{suffix_len};
ghost use Rattle.canoffice_cli.specs.Outcome.{outcome_of};
ghost use Rattle.canoffice_cli.specs.Holding.{source_at};
ghost use Rattle.canoffice_cli.specs.Jobs.{IsOfFile};
ghost use Rattle.canoffice_cli.specs.Jobs.Paged.{IsFilePageOutcome, IsPageOutcome, in_part, last_part, page_name};
ghost use Rattle.canoffice_cli.specs.Unprinted.{IsUnprinted};

use crate::databases::Databases;
use crate::files::{FileSource, StandardInput, bytes_at};
use crate::jobs::file_jobs::unreadable_report;
use crate::jobs::looking::look_report;
use crate::jobs::reading::{reading_of, unread_report};
use crate::report::{ExitStatus, Report};
use canoffice_jobs::{OfficePlace, page_look};
use desk_send::Desks;
use office_page::file_page;
use std::alloc::{AllocError, Global};

/// Whether the byte doesn't end a part of a path.
fn in_part(byte: u8) -> bool
    ensures { result ≡ in_part byte }
{
    byte != b'/'
}

/// How many bytes come after the last slash of a path.
fn last_length(path: &[u8]) -> usize
    ensures is { result ≡ suffix_len in_part path.now }
    ensures within { result ≤ length path.now }
{
    path.iter().rev().take_while(|byte| in_part(**byte)).count()
}

/// What comes after the last slash of a path.
fn last_part(path: &[u8]) -> &[u8]
    ensures { result.now ≡ last_part path.now }
{
    let (_, last) = path.split_at(path.len() - last_length(path));
    last
}

/// The name that the page of the file at the path has.
fn page_name(path: &str) -> &[u8]
    ensures { result.now ≡ page_name path.now }
{
    if path == "-" {
        b"standard input"
    } else {
        last_part(path.as_bytes())
    }
}

/// A page of the sheet that the DBC text reads as, whether it is clear or not, with the name of the file at the path;
/// or, if the text reads as no sheet, the fault's code and offset on standard error, with the status `FaultFound`.
fn page_of_text(alloc: Global, path: &str, source: &[u8]) -> Result<Report, AllocError>
    ensures { IfOk result (λ report. IsFilePageOutcome path.now source.now (outcome_of report)) }
{
    match reading_of(alloc, source)? {
        Ok(reading) => {
            let output = file_page(alloc, page_name(path), source, &reading)?;
            Ok(Report::of_output(alloc, output, ExitStatus::Success))
        }
        Err(fault) => unread_report(alloc, fault),
    }
}

/// The same of the file at the path, or that it can't be read.
pub fn file_page_report<F: FileSource + StandardInput>(
    alloc: Global,
    files: &F,
    path: &str,
) -> Result<Report, AllocError>
    ensures { IfOk result (λ report. IsOfFile ⊤ (IsFilePageOutcome path.now) path.now
        (source_at (F.held files.now) (F.given files.now) path.now) (outcome_of report)) }
{
    match bytes_at(alloc, files, path) {
        Ok(bytes) => page_of_text(alloc, path, &bytes),
        Err(fault) => unreadable_report(alloc, path, fault),
    }
}

/// Prints a page of the release of this number, or for 0 of the live network, as the office at the place has it, and
/// else as [`show_report`](crate::show_report).
pub fn page_report<D: Databases, K: Desks>(
    alloc: Global,
    databases: &mut D,
    desks: &mut K,
    place: OfficePlace<'_>,
    net: &str,
    number: u32,
) -> Result<Report, AllocError>
    ensures shown { IfOk result (λ report. IsPageOutcome (K.known desks.old) (K.known desks.new)
        (D.known databases.old) (D.known databases.new) place.entry net.now number
        (outcome_of report)) }
    ensures lost { OnErr result (IsUnprinted (K.known desks.old) (K.known desks.new)
        (IsPageOutcome (K.known desks.old) (K.known desks.new) (D.known databases.old)
        (D.known databases.new) place.entry net.now number)) }
{
    let look = page_look(alloc, net, number)?;
    look_report(alloc, databases, desks, place, look)
}
