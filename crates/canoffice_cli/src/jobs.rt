//! The jobs, each in a module of its own.
ghost use Rattle.std.specs.Prelude.{IfOk, OnErr, is_some};
ghost use Rattle.canoffice_cli.specs.Jobs.{IsDone};
ghost use Rattle.canoffice_cli.specs.Outcome.{outcome_of};
ghost use Rattle.canoffice_cli.specs.Unprinted.{IsUnprinted};

mod apply;
mod charting;
mod checking;
mod comparing;
mod explaining;
mod exporting;
mod file_jobs;
mod formatting;
mod looking;
mod migrating;
mod paging;
mod reading;
mod sending;
mod serving;
mod tabling;

use crate::databases::Databases;
use crate::files::{FileSource, StandardInput};
use crate::progress::Progress;
use crate::report::Report;
pub use apply::apply_script;
use canoffice_jobs::Job;
use charting::chart_report;
use checking::check_report;
use comparing::{compare_releases_report, compare_report};
use desk_send::Desks;
use explaining::Advice;
use exporting::export_report;
use file_jobs::{FileJob, FileTask, file_report};
use formatting::{format_report, kept_report};
pub use looking::look_on;
use looking::{requests_report, show_report};
pub use migrating::migrate_on;
use migrating::migrate_report;
use paging::{file_page_report, page_report};
use sending::send_report;
pub use serving::ServeEnd;
use serving::serve_report;
use std::alloc::{AllocError, Global};
use std::io::Write;
use tabling::table_report;

/// Does the job, and reports on it.
pub fn report_of<F: FileSource + StandardInput, D: Databases, K: Desks, W: Write>(
    alloc: Global,
    job: &Job<'_>,
    files: &F,
    databases: &mut D,
    desks: &mut K,
    progress: &mut Progress<W>,
) -> Result<Report, AllocError>
    ensures done { IfOk result (λ report. IsDone
        (F.held files.now) (F.given files.now)
        (is_some progress.old.to) (K.known desks.old) (K.known desks.new)
        (D.known databases.old) (D.known databases.new) job.now (outcome_of report)) }
    ensures lost { OnErr result (IsUnprinted (K.known desks.old) (K.known desks.new)
        (IsDone
        (F.held files.now) (F.given files.now)
        (is_some progress.old.to) (K.known desks.old) (K.known desks.new)
        (D.known databases.old) (D.known databases.new) job.now)) }
{
    match job {
        Job::Apply {
            database,
            script,
            explain,
            manner,
        } => {
            let task = FileTask::Apply(*database, *manner);
            let advice = Advice::of_script(*explain, progress.to.is_some());
            let job = FileJob::new(task, script, advice);
            file_report(alloc, job, files, databases, progress)
        }
        Job::Chart { length, signals } => chart_report(alloc, *length, signals),
        Job::Check {
            file,
            explain,
            lint,
            json,
        } => {
            let task = FileTask::Check(*lint, *json);
            let job = FileJob::new(task, file, Advice::requested(*explain));
            file_report(alloc, job, files, databases, progress)
        }
        Job::Compare { old, new, json } => compare_report(alloc, files, old, new, *json),
        Job::CompareReleases {
            place,
            net,
            old,
            new,
            json,
        } => compare_releases_report(alloc, databases, desks, *place, net, *old, *new, *json),
        Job::Export {
            database,
            net,
            number,
            extras,
        } => export_report(alloc, files, databases, database, net, *number, *extras),
        Job::Format {
            file,
            explain,
            keep,
        } => {
            let advice = Advice::requested(*explain);
            let job = FileJob::new(FileTask::Format(*keep), file, advice);
            file_report(alloc, job, files, databases, progress)
        }
        Job::Migrate { database } => migrate_report(alloc, databases, database, progress),
        Job::Page { place, net, number } => {
            page_report(alloc, databases, desks, *place, net, *number)
        }
        Job::PageFile { file } => file_page_report(alloc, files, file),
        Job::Requests { place, team, json } => {
            requests_report(alloc, databases, desks, *place, team, *json)
        }
        Job::Send { sending, script } => {
            send_report(alloc, script, files, desks, *sending, progress)
        }
        Job::Serve {
            database,
            port,
            count,
            explain,
        } => serve_report(alloc, databases, database, *port, *count, *explain),
        Job::Show {
            place,
            net,
            what,
            name,
            json,
        } => show_report(alloc, databases, desks, *place, *net, *what, *name, *json),
        Job::Table { file, json } => table_report(alloc, files, file, *json),
    }
}
