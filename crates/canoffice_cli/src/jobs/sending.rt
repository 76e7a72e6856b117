//! Sending a script to a desk.
ghost use Rattle.std.specs.Prelude.{◌≡◌, length, List, IfOk, IfSome, OnErr};
ghost use Rattle.std.specs.List.{AllZip};
ghost use Rattle.desk_send.specs.Desks.{TakesNone};
ghost use Rattle.desk_send.specs.Request.{IsSentAs};
ghost use Rattle.office_history.specs.declared.arrival.Arrival.{Arrival as AnArrival};
ghost use Rattle.office_script.specs.Lines.{lines_of};
ghost use Rattle.canoffice_cli.specs.Answered.{IsFarEnough};
ghost use Rattle.canoffice_cli.specs.Holding.{source_at};
ghost use Rattle.canoffice_cli.specs.Outcome.{outcome_of};
ghost use Rattle.canoffice_cli.specs.Jobs.{IsOfFile};
ghost use Rattle.canoffice_cli.specs.Jobs.Sent.{AreSent, AreTaken, IsSendOutcome, lost_by, requesting_line};
ghost use Rattle.canoffice_cli.specs.Unprinted.{IsUnprinted};

use crate::answering::{Answers, stops_at};
use crate::files::{FileSource, StandardInput, bytes_at};
use crate::jobs::apply::amiss_report;
use crate::jobs::file_jobs::unreadable_report;
use crate::progress::{Progress, RequestLines};
use crate::report::{Report, bad_line};
use crate::room::Room;
use base::Items;
use canoffice_jobs::Sending;
use desk_send::{Desks, SendFault, post_requests, reply_to};
use office_history::Arrival;
use office_script::{Dash, arrivals_of, first_line, says_nothing};
use std::alloc::{AllocError, Global};
use std::io::Write;
use store::Lost;

/// Why an arrival is lost whose request has no answer.
fn lost_by(fault: SendFault) -> Lost
    ensures { result ≡ lost_by fault }
{
    match fault {
        SendFault::NoReply => Lost::Store,
        SendFault::Memory => Lost::Memory,
    }
}

/// The number of the line, from 1, that requests the arrival of this index, from 0.
fn line_of(script: &[u8], index: usize) -> usize
    ensures { IfSome (requesting_line 1 index (lines_of script.now)) (λ number. result ≡ number) }
{
    let mut rest = script;
    let mut number = 0usize;
    let mut left = index;
    while let Some(first) = first_line(rest) {
        number += 1;
        rest = first.rest;
        if !says_nothing(first.line) {
            if left == 0 {
                return number;
            }
            left -= 1;
        }
    }
    number
}

/// Sends the requests in turn, each until it is answered, up to the first that has no answer, and in the strict manner
/// up to the first that is refused. It is shown how far the script is. The error is out of memory for the answers: then
/// nothing was sent.
fn send_all<K: Desks, W: Write>(
    alloc: Global,
    desks: &mut K,
    sending: Sending,
    script: &[u8],
    requests: &[Items<u8>],
    progress: &mut Progress<W>,
) -> Result<Answers, AllocError>
    ensures far { IfOk result (λ sent. (arrivals : List AnArrival)
        → length requests.now ≡ length arrivals
        → IsFarEnough sending.manner.strict arrivals sent.answers.items sent.lost) }
    ensures came { IfOk result (λ sent. AreTaken (K.known desks.old) (K.known desks.new) sending
        requests.now sent.answers.items sent.lost) }
    ensures none { OnErr result (TakesNone (K.known desks.old) (K.known desks.new)) }
{
    let mut answers = Vec::with_capacity(alloc, requests.len())?;
    let mut lines = RequestLines::of(script);
    for request in requests {
        progress.show_line(lines.next_number());
        match reply_to(
            alloc,
            desks,
            sending.port,
            request.as_slice(),
            sending.tries,
        ) {
            Ok(answer) => {
                let stops = stops_at(sending.manner.strict, &answer);
                answers.push_reserved(answer);
                if stops {
                    return Ok(Answers {
                        answers,
                        lost: None,
                    });
                }
            }
            Err(fault) => {
                return Ok(Answers {
                    answers,
                    lost: Some(lost_by(fault)),
                });
            }
        }
    }
    Ok(Answers {
        answers,
        lost: None,
    })
}

/// Sends the requests of the arrivals, and prints the answers.
fn sent_report<K: Desks, W: Write>(
    alloc: Global,
    desks: &mut K,
    sending: Sending,
    script: &[u8],
    arrivals: &[Arrival],
    requests: &[Items<u8>],
    progress: &mut Progress<W>,
) -> Result<Report, AllocError>
    requires { AllZip IsSentAs arrivals.now requests.now }
    ensures sent { IfOk result (λ report. AreSent (K.known desks.old) (K.known desks.new) sending
        arrivals.now (outcome_of report)) }
    ensures lost { OnErr result (IsUnprinted (K.known desks.old) (K.known desks.new)
        (AreSent (K.known desks.old) (K.known desks.new) sending arrivals.now)) }
{
    // Room first, so that no answer is lost because memory for its line runs out.
    let room = Room::for_answers(alloc, arrivals, sending.manner.echo)?;
    let sent = send_all(alloc, desks, sending, script, requests, progress);
    progress.clear();
    sent?.report(alloc, arrivals, sending.manner, room)
}

/// Sends the script. The key `-` is wrong, and so is a line of which no request is sent.
fn send_script<F: FileSource, K: Desks, W: Write>(
    alloc: Global,
    script: &[u8],
    files: &F,
    desks: &mut K,
    sending: Sending,
    progress: &mut Progress<W>,
) -> Result<Report, AllocError>
    ensures sent { IfOk result (λ report. IsSendOutcome (F.held files.now) (K.known desks.old)
        (K.known desks.new) sending script.now (outcome_of report)) }
    ensures lost { OnErr result (IsUnprinted (K.known desks.old) (K.known desks.new)
        (IsSendOutcome (F.held files.now) (K.known desks.old) (K.known desks.new) sending
        script.now)) }
{
    let arrivals = match arrivals_of(alloc, script, Dash::Wrong, files) {
        Ok(arrivals) => arrivals,
        Err(fault) => return amiss_report(alloc, fault),
    };
    match post_requests(alloc, &arrivals)? {
        Ok(requests) => {
            let requests = requests.as_slice();
            sent_report(alloc, desks, sending, script, &arrivals, requests, progress)
        }
        Err(index) => bad_line(alloc, line_of(script, index)),
    }
}

/// Sends each line of the script in the file of the path as a request to a desk, and prints the answers.
///
/// The whole script is read first, and each file that it names, and each request is made: if a line is wrong, or can't
/// be sent since a text isn't UTF-8 or its file is longer than a desk takes, the number of the first one is reported,
/// and if a file can't be read, its path; then nothing is sent. Else each request is sent in turn, as often as its
/// tries allow, up to the first that has no answer, or in the strict manner up to the first that is refused. The
/// answers are printed as [`apply_script`](crate::apply_script) prints them, after the last one `lost 72` if a request
/// has none, or `lost 71` if memory ran out. The error is out of memory for the report. Room for the lines of all
/// answers is taken before the first request is sent.
pub fn send_report<F: FileSource + StandardInput, K: Desks, W: Write>(
    alloc: Global,
    path: &str,
    files: &F,
    desks: &mut K,
    sending: Sending,
    progress: &mut Progress<W>,
) -> Result<Report, AllocError>
    ensures sent { IfOk result (λ report. IsOfFile (TakesNone (K.known desks.old) (K.known desks.new))
        (IsSendOutcome (F.held files.now) (K.known desks.old) (K.known desks.new) sending) path.now
        (source_at (F.held files.now) (F.given files.now) path.now) (outcome_of report)) }
    ensures lost { OnErr result (IsUnprinted (K.known desks.old) (K.known desks.new)
        (IsOfFile (TakesNone (K.known desks.old) (K.known desks.new))
        (IsSendOutcome (F.held files.now) (K.known desks.old) (K.known desks.new) sending) path.now
        (source_at (F.held files.now) (F.given files.now) path.now))) }
{
    match bytes_at(alloc, files, path) {
        Ok(script) => send_script(alloc, &script, files, desks, sending, progress),
        Err(fault) => unreadable_report(alloc, path, fault),
    }
}
