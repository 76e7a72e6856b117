//! Looking at an office: one in a database, or one that a desk serves.
ghost use Rattle.std.specs.Prelude.{◌≡◌, None, Ok, IfOk, IsErr, OnErr, OnOk};
ghost use Rattle.std.specs.Option.{option_map};
ghost use Rattle.std.specs.Result.{result_map_both};
ghost use Rattle.sqlite.specs.Held.{state};
ghost use Rattle.desk_client.specs.Received.{seen};
ghost use Rattle.office_types.specs.declared.state.Office.{Office as Whole};
ghost use Rattle.office_history.specs.History.{IsLegal};
ghost use Rattle.store.specs.Calls.{IsSettled, KeepsDoubt};
ghost use Rattle.store.specs.Holding.{Holding};
ghost use Rattle.store.specs.Looking.{IsShown, bytes_of};
ghost use Rattle.store.specs.Opening.{HasNone};
ghost use Rattle.store.specs.OpensAs.{OnSomeForm};
ghost use Rattle.canoffice_cli.specs.Databases.{HoldsIfOpen, HoldsInFormIfOpen, OnBeginning, OnOlder};
ghost use Rattle.canoffice_cli.specs.Databases.{ShowsSameIfOpen, ShowsStatisticsIfOpen};
ghost use Rattle.canoffice_cli.specs.Desks.{asked_outcome, no_answer, response_outcome};
ghost use Rattle.canoffice_cli.specs.Jobs.Looked.{IsLookOutcome, IsLookedAt, IsRequestsOutcome, IsShowOutcome};
ghost use Rattle.canoffice_cli.specs.Jobs.Looked.{shown_outcome};
ghost use Rattle.canoffice_cli.specs.Outcome.{not_found, outcome_of};
ghost use Rattle.canoffice_cli.specs.Unprinted.{IsUnprinted};

use crate::answering::{lost_report, office_on};
use crate::databases::Databases;
use crate::jobs::serving::failed_report;
use crate::report::{ExitStatus, Report};
use canoffice_jobs::{OfficePlace, What, requests_look, show_look};
use desk_client::{AskFault, Received, Response, target_of};
use desk_send::Desks;
use desk_types::DeskFault;
use office_types::Look;
use sqlite::{Alter, Connection};
use std::alloc::{AllocError, Global};
use store::Lost;
use store_tables::{is_new, knows_tables};

/// The report that what is looked up isn't there.
pub(crate) fn not_found(alloc: Global) -> Result<Report, AllocError>
    ensures { IfOk result (λ report. outcome_of report ≡ not_found) }
{
    let text = b"not found\n".to_vec(alloc)?;
    Ok(Report::of_errors(alloc, text, ExitStatus::FaultFound))
}

/// The report on what was shown.
pub(crate) fn shown_report(
    alloc: Global,
    shown: Result<Option<Vec<u8>>, Lost>,
) -> Result<Report, AllocError>
    ensures { IfOk result (λ report. outcome_of report
        ≡ shown_outcome (result_map_both bytes_of (λ lost. lost) shown)) }
{
    match shown {
        Ok(Some(text)) => Ok(Report::of_output(alloc, text, ExitStatus::Success)),
        Ok(None) => not_found(alloc),
        Err(lost) => lost_report(alloc, lost),
    }
}

/// What the office on the connection, which is given back, shows for the look, in the form of this version or of an
/// earlier one. Where the connection has no table, nothing is shown, and nothing is made. Under the first profile the
/// look is lost, and the tables stay.
pub fn look_on<S: Alter + Drop>(
    alloc: Global,
    conn: Connection<S>,
    look: &Look,
) -> (Result<Option<Vec<u8>>, Lost>, Connection<S>)
    requires { IsSettled S.Store conn }
    ensures clean { KeepsDoubt S.Store conn result.1 }
    ensures shown { OnSomeForm S.Store conn result.1 (λ h. (office : Whole) → IsLegal h office
        → IfOk result.0 (λ text. IsShown h office look.now (bytes_of text))) }
    ensures held { HoldsIfOpen S.Store conn result.1 }
    ensures kept { OnSomeForm S.Store conn result.1
        (λ h. OnOk result.0 (Holding h (state S.Store result.1))) }
    ensures left { HoldsInFormIfOpen S.Store conn result.1 }
    ensures older { OnOlder S.Store conn result.1 (λ h. IsErr result.0
        × ShowsSameIfOpen S.Store conn result.1) }
    ensures statistics { OnBeginning S.Store conn result.1 (λ h.
        ShowsStatisticsIfOpen S.Store conn result.1) }
    ensures none { HasNone (state S.Store conn) → (result.0 ≡ Ok None) × (result.1 ≡ conn) }
{
    knows_tables(&conn);
    if is_new(&conn) {
        return (Ok(None), conn);
    }
    match office_on(conn) {
        Ok(mut office) => {
            let shown = office.look(alloc, look);
            (shown, office.close())
        }
        Err((lost, conn)) => (Err(lost), conn),
    }
}

/// The report that no desk answers on the port.
fn no_answer(alloc: Global, port: u16) -> Result<Report, AllocError>
    ensures { IfOk result (λ report. outcome_of report ≡ no_answer port) }
{
    let text = format!(in alloc; "no desk answers on port {port}\n")?;
    Ok(Report::of_errors(alloc, text.into_bytes(), ExitStatus::Failed))
}

/// The report on a whole response.
fn response_report(alloc: Global, response: Response) -> Result<Report, AllocError>
    ensures { IfOk result (λ report. outcome_of report
        ≡ response_outcome response.status response.body.items) }
{
    match response.status {
        desk_client::DeskStatus::Success => {
            Ok(Report::of_output(alloc, response.body, ExitStatus::Success))
        }
        desk_client::DeskStatus::NotFound => not_found(alloc),
        desk_client::DeskStatus::Other(code) => {
            let text = format!(in alloc; "the desk answers with status {code}\n")?;
            Ok(Report::of_errors(alloc, text.into_bytes(), ExitStatus::Failed))
        }
    }
}

/// The report on what came of asking the desk on the port. The error is out of memory, also for what came back.
fn asked_report(
    alloc: Global,
    port: u16,
    asked: Result<Received, AskFault>,
) -> Result<Report, AllocError>
    ensures { IfOk result (λ report. outcome_of report
        ≡ asked_outcome port (result_map_both seen (λ fault. fault) asked)) }
{
    match asked {
        Ok(Received::Whole(response)) => response_report(alloc, response),
        Ok(Received::Cut) => failed_report(alloc, b"the desk's response is cut\n"),
        Ok(Received::NotHttp) => failed_report(alloc, b"the desk's response is no HTTP\n"),
        Ok(Received::TooLong) => failed_report(alloc, b"the desk's response is too long\n"),
        Err(AskFault::Connect) | Err(AskFault::Connection(DeskFault::Write)) => {
            no_answer(alloc, port)
        }
        Err(AskFault::Connection(DeskFault::Read)) => {
            failed_report(alloc, b"the desk's response is cut\n")
        }
        Err(AskFault::Connection(DeskFault::Memory)) => Err(AllocError),
    }
}

/// Prints what the office at the place shows for the look. The error is out of memory.
fn report_at<D: Databases, K: Desks>(
    alloc: Global,
    databases: &mut D,
    desks: &mut K,
    place: OfficePlace<'_>,
    look: &Look,
) -> Result<Report, AllocError>
    ensures shown { IfOk result (λ report. IsLookedAt (K.known desks.old) (K.known desks.new)
        (D.known databases.old) (D.known databases.new) place.entry look.now (outcome_of report)) }
    ensures lost { OnErr result (IsUnprinted (K.known desks.old) (K.known desks.new)
        (IsLookedAt (K.known desks.old) (K.known desks.new) (D.known databases.old)
        (D.known databases.new) place.entry look.now)) }
{
    match place {
        OfficePlace::Database(path) => shown_report(alloc, databases.look(alloc, path, look)),
        OfficePlace::Desk(port) => {
            let target = target_of(alloc, look)?;
            let form = look.form();
            asked_report(alloc, port, desks.ask(alloc, port, &target, form))
        }
    }
}

/// The same, or that it isn't there where there is nothing to look up. The error is out of memory.
pub(crate) fn look_report<D: Databases, K: Desks>(
    alloc: Global,
    databases: &mut D,
    desks: &mut K,
    place: OfficePlace<'_>,
    look: Option<Look>,
) -> Result<Report, AllocError>
    ensures shown { IfOk result (λ report. IsLookOutcome (K.known desks.old) (K.known desks.new)
        (D.known databases.old) (D.known databases.new) place.entry look (outcome_of report)) }
    ensures lost { OnErr result (IsUnprinted (K.known desks.old) (K.known desks.new)
        (IsLookOutcome (K.known desks.old) (K.known desks.new) (D.known databases.old)
        (D.known databases.new) place.entry look)) }
{
    match look {
        Some(look) => report_at(alloc, databases, desks, place, &look),
        None => not_found(alloc),
    }
}

/// Prints what the office at the place shows of the network that the word names, or its networks where there is no
/// word; or that it isn't there. It is JSON where that is wanted and there is any. Where a word hasn't the form of what
/// it names, no database is opened and no request is sent; where there is no database, none is made. The error is out
/// of memory for the report, or for what a desk answers.
pub fn show_report<D: Databases, K: Desks>(
    alloc: Global,
    databases: &mut D,
    desks: &mut K,
    place: OfficePlace<'_>,
    net: Option<&str>,
    what: What,
    name: Option<&str>,
    json: bool,
) -> Result<Report, AllocError>
    ensures shown { IfOk result (λ report. IsShowOutcome (K.known desks.old) (K.known desks.new)
        (D.known databases.old) (D.known databases.new) place.entry
        (option_map (λ w. w.now) net.entry) what (option_map (λ w. w.now) name.entry) json
        (outcome_of report)) }
    ensures lost { OnErr result (IsUnprinted (K.known desks.old) (K.known desks.new)
        (IsShowOutcome (K.known desks.old) (K.known desks.new) (D.known databases.old)
        (D.known databases.new) place.entry (option_map (λ w. w.now) net.entry) what
        (option_map (λ w. w.now) name.entry) json)) }
{
    let look = show_look(alloc, net, what, name, json)?;
    look_report(alloc, databases, desks, place, look)
}

/// Prints the requests of the team that the word names, as the office at the place has answered them, and else as
/// [`show_report`].
pub fn requests_report<D: Databases, K: Desks>(
    alloc: Global,
    databases: &mut D,
    desks: &mut K,
    place: OfficePlace<'_>,
    team: &str,
    json: bool,
) -> Result<Report, AllocError>
    ensures shown { IfOk result (λ report. IsRequestsOutcome (K.known desks.old) (K.known desks.new)
        (D.known databases.old) (D.known databases.new) place.entry team.now json
        (outcome_of report)) }
    ensures lost { OnErr result (IsUnprinted (K.known desks.old) (K.known desks.new)
        (IsRequestsOutcome (K.known desks.old) (K.known desks.new) (D.known databases.old)
        (D.known databases.new) place.entry team.now json)) }
{
    let look = requests_look(alloc, team, json)?;
    look_report(alloc, databases, desks, place, look)
}
