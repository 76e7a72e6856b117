//! Making a database of an earlier version one of this version.
ghost use Rattle.std.specs.Prelude.{◌≡◌, [], IsTrue, IfOk, OnErr, OnOk};
ghost use Rattle.sqlite.specs.Held.{state};
ghost use Rattle.store.specs.Calls.{IsSettled, KeepsDoubt};
ghost use Rattle.store.specs.Holding.{Holding};
ghost use Rattle.store.specs.Opening.{HoldingInSomeForm};
ghost use Rattle.store.specs.OpensAs.{OnNone, OnSomeForm};
ghost use Rattle.canoffice_cli.specs.Databases.{HoldsIfOpen, ShowsStatisticsIfOpen};
ghost use Rattle.canoffice_cli.specs.Jobs.Migrated.{IsMigrateOutcome, migrated_outcome};
ghost use Rattle.canoffice_cli.specs.Outcome.{outcome_of};

use crate::answering::lost_report;
use crate::databases::Databases;
use crate::progress::Progress;
use crate::report::{ExitStatus, Report};
use sqlite::{Alter, Connection};
use std::alloc::{AllocError, Global};
use std::io::Write;
use store::{Lost, StoredOffice};

/// Makes the tables on the connection, which is given back, those of this version: they hold the history that they
/// held. New ones are made where it has no tables. It is shown which message is carried over. Where it is lost, they
/// are as before. The statistics stay.
pub fn migrate_on<S: Alter + Drop, W: Write>(
    alloc: Global,
    conn: Connection<S>,
    progress: &mut Progress<W>,
) -> (Result<(), Lost>, Connection<S>)
    requires { IsSettled S.Store conn }
    ensures clean { KeepsDoubt S.Store conn result.1 }
    ensures carried { OnSomeForm S.Store conn result.1
        (λ h. OnOk result.0 (Holding h (state S.Store result.1))) }
    ensures left { OnSomeForm S.Store conn result.1 (λ h. IsTrue (state S.Store result.1).is_open
        → OnErr result.0 (HoldingInSomeForm h (state S.Store result.1))) }
    ensures held { HoldsIfOpen S.Store conn result.1 }
    ensures made { OnNone S.Store conn result.1
        (OnOk result.0 (Holding [] (state S.Store result.1))) }
    ensures statistics { OnSomeForm S.Store conn result.1 (λ h.
        ShowsStatisticsIfOpen S.Store conn result.1) }
    ensures statistics_new { OnNone S.Store conn result.1
        (ShowsStatisticsIfOpen S.Store conn result.1) }
{
    let _settled_before = conn.is_autocommit();
    match StoredOffice::migrate(alloc, conn, progress) {
        Ok(office) => (Ok(()), office.close()),
        Err((lost, conn)) => {
            let _settled = conn.is_autocommit();
            (Err(lost), conn)
        }
    }
}

/// The report that the tables are those of this version, or why that was lost.
fn migrated_report(alloc: Global, done: Result<(), Lost>) -> Result<Report, AllocError>
    ensures { IfOk result (λ report. outcome_of report ≡ migrated_outcome done) }
{
    match done {
        Ok(()) => {
            let text = b"profile 2\n".to_vec(alloc)?;
            Ok(Report::of_output(alloc, text, ExitStatus::Success))
        }
        Err(lost) => lost_report(alloc, lost),
    }
}

/// Makes the database of the path one of this version, and prints its profile. The error is out of memory for the
/// report.
pub fn migrate_report<D: Databases, W: Write>(
    alloc: Global,
    databases: &mut D,
    path: &str,
    progress: &mut Progress<W>,
) -> Result<Report, AllocError>
    ensures { IfOk result (λ report. IsMigrateOutcome (D.known databases.old)
        (D.known databases.new) path.now
        (outcome_of report)) }
{
    let done = databases.migrate(alloc, path, progress);
    progress.clear();
    migrated_report(alloc, done)
}
