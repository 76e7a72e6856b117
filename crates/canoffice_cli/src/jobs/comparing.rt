//! Comparing two DBC texts, or two releases of a network.
ghost use Rattle.std.specs.Prelude.{◌≡◌, ⊤, IfOk, OnErr};
ghost use Rattle.canoffice_cli.specs.Jobs.Compared.{IsCompareOutcome, IsComparedWith, IsComparison, IsReleasesOutcome};
ghost use Rattle.canoffice_cli.specs.Jobs.Compared.{compare_look, fault_in, judged, status_by};
ghost use Rattle.canoffice_cli.specs.Jobs.Formatted.{fault_errors};
ghost use Rattle.canoffice_cli.specs.Holding.{source_at};
ghost use Rattle.canoffice_cli.specs.Outcome.{outcome_of};
ghost use Rattle.canoffice_cli.specs.Jobs.{IsOfFile, IsOfTwoFiles};
ghost use Rattle.canoffice_cli.specs.Unprinted.{IsUnprinted};

use crate::databases::Databases;
use crate::files::{FileSource, StandardInput, bytes_at};
use crate::jobs::file_jobs::unreadable_report;
use crate::jobs::looking::look_report;
use crate::jobs::reading::reading_of;
use crate::report::{ExitStatus, Report};
use canoffice_jobs::OfficePlace;
use dbc_advice::shown_path;
use dbc_compare::{compare, has_no_difference};
use dbc_read::ReadFault;
use dbc_sheet::Sheet;
use desk_send::Desks;
use office_types::{Look, LookForm, NetLook, NetName};
use std::alloc::{AllocError, Global};
use std::mem::{forget, replace};

/// The report that the file at the path reads as no sheet.
fn fault_report(alloc: Global, path: &str, fault: ReadFault) -> Result<Report, AllocError>
    ensures { IfOk result (λ report. outcome_of report ≡ fault_errors (fault_in path.now fault)) }
{
    let shown = shown_path(alloc, path)?;
    let code = fault.code;
    let line = format!(in alloc; "fault {} {code} {} {shown}\n", code.number(), fault.at)?;
    Ok(Report::of_errors(alloc, line.into_bytes(), ExitStatus::FaultFound))
}

/// The status of a comparison.
fn status_of(are_equal: bool) -> ExitStatus
    ensures { result ≡ status_by are_equal }
{
    if are_equal {
        ExitStatus::Success
    } else {
        ExitStatus::FaultFound
    }
}

/// The report on what changed from the one sheet to the other.
fn sheets_report(alloc: Global, old: &Sheet, new: &Sheet, json: bool) -> Result<Report, AllocError>
    ensures { IfOk result (λ report. IsComparison json old.now new.now (outcome_of report)) }
{
    let mut comparison = compare(alloc, old, new, json)?;
    let status = status_of(comparison.are_equal);
    let text = replace(&mut comparison.text, Vec::new(alloc));
    Ok(Report::of_output(alloc, text, status))
}

/// The report on what changed from the sheet to that of the DBC text, which is in the file at the path.
fn compared_with(
    alloc: Global,
    old: &Sheet,
    path: &str,
    source: &[u8],
    json: bool,
) -> Result<Report, AllocError>
    ensures { IfOk result
        (λ report. IsComparedWith json old.now path.now source.now (outcome_of report)) }
{
    match reading_of(alloc, source)? {
        Ok(new) => {
            let report = sheets_report(alloc, old, &new.sheet, json);
            // As in a check, the sheet's blocks aren't given back.
            forget(new);
            report
        }
        Err(fault) => fault_report(alloc, path, fault),
    }
}

/// The report on what changed from the one DBC text to the other, each of which is in the file at its path; or, if one
/// reads as no sheet, the first one's fault with its path.
fn texts_report(
    alloc: Global,
    old_path: &str,
    old: &[u8],
    new_path: &str,
    new: &[u8],
    json: bool,
) -> Result<Report, AllocError>
    ensures { IfOk result (λ report. IsCompareOutcome json old_path.now new_path.now old.now
        new.now (outcome_of report)) }
{
    match reading_of(alloc, old)? {
        Ok(old) => {
            let report = compared_with(alloc, &old.sheet, new_path, new, json);
            forget(old);
            report
        }
        Err(fault) => fault_report(alloc, old_path, fault),
    }
}

/// The report on what changed from the DBC text to that in the newer file.
#[tactic(auto, using(crate::proofs::FileJobs::of_bytes, crate::proofs::FileJobs::unread))]
fn newer_report<F: FileSource + StandardInput>(
    alloc: Global,
    files: &F,
    old_path: &str,
    old: &[u8],
    new_path: &str,
    json: bool,
) -> Result<Report, AllocError>
    ensures { IfOk result (λ report. IsOfFile ⊤
        (IsCompareOutcome json old_path.now new_path.now old.now) new_path.now
        (source_at (F.held files.now) (F.given files.now) new_path.now) (outcome_of report)) }
{
    match bytes_at(alloc, files, new_path) {
        Ok(new) => texts_report(alloc, old_path, old, new_path, &new, json),
        Err(fault) => unreadable_report(alloc, new_path, fault),
    }
}

/// Prints what changed from the DBC text in the one file to that in the other: a line for each difference and a last
/// one that counts them, or the same as JSON, and the status says whether the sheets are equal. A text that reads as no
/// sheet is reported with its fault and its path, and a file that can't be read as such: the first one of them. The
/// error is out of memory.
#[tactic(auto, using(crate::proofs::FileJobs::of_bytes, crate::proofs::FileJobs::unread))]
pub fn compare_report<F: FileSource + StandardInput>(
    alloc: Global,
    files: &F,
    old: &str,
    new: &str,
    json: bool,
) -> Result<Report, AllocError>
    ensures { IfOk result (λ report. IsOfTwoFiles (IsCompareOutcome json old.now new.now)
        (F.held files.now)
        (F.given files.now) old.now new.now (outcome_of report)) }
{
    match bytes_at(alloc, files, old) {
        Ok(text) => newer_report(alloc, files, old, &text, new, json),
        Err(fault) => unreadable_report(alloc, old, fault),
    }
}

/// The report with the status of a comparison, where a list of differences was found.
fn judged(report: Report, json: bool) -> Report
    ensures { outcome_of result ≡ judged json (outcome_of report) }
{
    let mut report = report;
    if report.status == ExitStatus::Success {
        report.status = status_of(has_no_difference(&report.output, json));
    }
    report
}

/// What is looked up: two releases of the network that the word names, by their numbers, 0 for the live sheet. `None`
/// where it names none. The error is out of memory.
fn compare_look(
    alloc: Global,
    net: &str,
    old: u32,
    new: u32,
    json: bool,
) -> Result<Option<Look>, AllocError>
    ensures { IfOk result (λ look. look ≡ compare_look json net.now old new) }
{
    match NetName::of(alloc, net.as_bytes())? {
        Some(net) => {
            let look = NetLook::Compare(old, new);
            Ok(Some(Look::Net(net, look, LookForm::Lines).formed(json)))
        }
        None => Ok(None),
    }
}

/// Prints what changed from the release of the first number to that of the second, as the office at the place has them,
/// where 0 stands for the live sheet; or that one of them, or the network, isn't there. The status says whether they
/// are equal. Where NET hasn't the form of a network's name, no database is opened and no request is sent; where there
/// is no database, none is made. The error is out of memory for the report, or for what a desk answers.
pub fn compare_releases_report<D: Databases, K: Desks>(
    alloc: Global,
    databases: &mut D,
    desks: &mut K,
    place: OfficePlace<'_>,
    net: &str,
    old: u32,
    new: u32,
    json: bool,
) -> Result<Report, AllocError>
    ensures shown { IfOk result (λ report. IsReleasesOutcome (K.known desks.old) (K.known desks.new)
        (D.known databases.old) (D.known databases.new) place.entry net.now old new json
        (outcome_of report)) }
    ensures lost { OnErr result (IsUnprinted (K.known desks.old) (K.known desks.new)
        (IsReleasesOutcome (K.known desks.old) (K.known desks.new) (D.known databases.old)
        (D.known databases.new) place.entry net.now old new json)) }
{
    let look = compare_look(alloc, net, old, new, json)?;
    let report = look_report(alloc, databases, desks, place, look)?;
    Ok(judged(report, json))
}
