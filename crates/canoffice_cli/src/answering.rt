//! Answering arrivals, up to the first that is lost.
ghost use Rattle.std.specs.Prelude.{◌≡◌, ◌⊎◌, ◌++◌, ◌&&◌, [], Bool, List, None, Some, IsTrue, IsSome, IfOk};
ghost use Rattle.std.specs.Prelude.{IfErr, IsErr, OnErr};
ghost use Rattle.sqlite.specs.Held.{state};
ghost use Rattle.sqlite.specs.State.{HasCleanDisk};
ghost use Rattle.std.specs.List.{list_any};
ghost use Rattle.office_script.specs.Echoes.{is_refused};
ghost use Rattle.office_history.specs.declared.arrival.Arrival.{Arrival as AnArrival};
ghost use Rattle.office_history.specs.History.{IsLegalHistory};
ghost use Rattle.store.specs.Calls.{HoldsOnErr, IsSettled, KeepsDoubt, OnHistory, ShowsSame};
ghost use Rattle.store.specs.Holding.{Holding};
ghost use Rattle.store.specs.Opening.{HasNone, HasOffice};
ghost use Rattle.store.specs.OpensAs.{conn_of};
ghost use Rattle.canoffice_cli.specs.Answered.{InMemory, IsFarEnough, NoneAnswered, answered_with};
ghost use Rattle.canoffice_cli.specs.Answered.{answers_outcome, lost_outcome, printed, status_of};
ghost use Rattle.canoffice_cli.specs.Databases.{OnBeginning, OnOlder, ShowsSameIfOpen, ShowsStatisticsIfOpen};
ghost use Rattle.canoffice_cli.specs.Numbers.{HaveLines};
ghost use Rattle.canoffice_cli.specs.Outcome.{outcome_of};
ghost use Rattle.canoffice_cli.specs.Reasons.{TellsOf};

use crate::lines::{PrintedLine, add_lines};
use crate::progress::{Progress, RequestLines};
use crate::reasons::Reasons;
use crate::report::{ExitStatus, Report};
use crate::room::Room;
use canoffice_jobs::Manner;
use office::KeyedOffice;
use office_history::{Answer, Arrival, histories_grow};
use office_script::{add_answer, add_echoes, is_refused};
use sqlite::{Alter, Connection};
use std::alloc::{AllocError, Global};
use std::io::Write;
use store::{Lost, StoredOffice};

/// The answers to the first arrivals, and why the next one was lost, if one was.
#[derive(Drop)]
pub struct Answers {
    pub(crate) answers: Vec<Answer>,
    pub(crate) lost: Option<Lost>,
}

/// No answer, since already the first call was lost.
pub fn nothing_answered(alloc: Global, lost: Lost) -> Answers
    ensures answers { result.answers.items ≡ [] }
    ensures lost { result.lost ≡ Some lost }
    ensures far { (strict : Bool) (arrivals : List AnArrival)
        → IsFarEnough strict arrivals result.answers.items result.lost }
{
    Answers {
        answers: Vec::new(alloc),
        lost: Some(lost),
    }
}

/// An office on the connection, as it is there, in the form of this version or of an earlier one, or a new one. If
/// opening it is lost, the connection is given back, as it was; so it is under the first profile.
pub(crate) fn office_on<S: Alter>(
    conn: Connection<S>,
) -> Result<StoredOffice<S>, (Lost, Connection<S>)>
    requires { IsSettled S.Store conn }
    ensures clean { KeepsDoubt S.Store conn (conn_of result) }
    ensures begun { OnBeginning S.Store conn (conn_of result) (λ h.
        IfOk result (λ office. Holding h (state S.Store office.conn))) }
    ensures older { OnOlder S.Store conn (conn_of result) (λ h. IsErr result) }
    ensures held { HoldsOnErr S.Store conn (conn_of result) result }
    ensures back { HasCleanDisk (state S.Store (conn_of result))
        → HasOffice (state S.Store conn) ⊎ HasNone (state S.Store conn)
        → OnErr result (ShowsSameIfOpen S.Store conn (conn_of result)) }
    ensures statistics { OnBeginning S.Store conn (conn_of result) (λ h.
        ShowsStatisticsIfOpen S.Store conn (conn_of result)) }
{
    let _settled_before = conn.is_autocommit();
    match StoredOffice::open(conn) {
        Ok(office) => Ok(office),
        Err((lost, conn)) => {
            let _settled = conn.is_autocommit();
            Err((lost, conn))
        }
    }
}

/// Whether answering stops at this answer: it is a refusal, and it is strict.
pub(crate) fn stops_at(strict: bool, answer: &Answer) -> bool
    ensures { result ≡ (strict && is_refused answer.now) }
{
    strict && is_refused(answer)
}

/// Answers the arrivals in turn, up to the first that is lost, and where it is strict, up to the first that is refused.
/// The error is out of memory for the answers: then nothing arrived.
fn answer_all<S: Alter, W: Write>(
    alloc: Global,
    office: &mut StoredOffice<S>,
    script: &[u8],
    arrivals: &[Arrival],
    strict: bool,
    reasons: &mut Reasons,
    progress: &mut Progress<W>,
) -> Result<Answers, AllocError>
    ensures clean { KeepsDoubt S.Store office.old.conn office.new.conn }
    ensures far { IfOk result
        (λ reported. IsFarEnough strict arrivals.now reported.answers.items reported.lost) }
    ensures held { OnHistory S.Store office.old.conn office.new.conn
        (λ h. IsTrue (state S.Store office.new.conn).is_open
        → IfOk result (λ reported.
        Holding (h ++ answered_with arrivals.now reported.answers.items)
        (state S.Store office.new.conn))) }
    ensures legal { OnHistory S.Store office.old.conn office.new.conn (λ h.
        IfOk result (λ reported. IsLegalHistory
        (h ++ answered_with arrivals.now reported.answers.items))) }
    ensures statistics { OnHistory S.Store office.old.conn office.new.conn (λ h.
        ShowsStatisticsIfOpen S.Store office.old.conn office.new.conn) }
    ensures err { OnErr result (office.new ≡ office.old) }
    ensures told { HaveLines script.now arrivals.now → IfOk result
        (λ reported. TellsOf script.now reported.answers.items reasons.old reasons.new) }
{
    let mut answers = Vec::with_capacity(alloc, arrivals.len())?;
    let mut lines = RequestLines::of(script);
    for arrival in arrivals {
        // It may have failed after the last answer, while it was read why that was a refusal.
        if office.is_failed() {
            return Ok(Answers {
                answers,
                lost: Some(Lost::Store),
            });
        }
        let number = lines.next_number();
        progress.show_line(number);
        match office.arrive(alloc, &arrival.team, &arrival.key, &arrival.request) {
            Ok(answer) => {
                reasons.add_in_tables(alloc, office, number, arrival, &answer);
                let stops = stops_at(strict, &answer);
                answers.push_reserved(answer);
                if stops {
                    return Ok(Answers {
                        answers,
                        lost: None,
                    });
                }
            }
            Err(lost) => {
                return Ok(Answers {
                    answers,
                    lost: Some(lost),
                });
            }
        }
    }
    Ok(Answers {
        answers,
        lost: None,
    })
}

/// Answers the arrivals in turn by the office on the connection, up to the first that is lost, and where it is strict,
/// up to the first that is refused, and gives the connection back. A new office is made where the connection has no
/// table, and one of an earlier version goes on in tables of this one. Under the first profile nothing is answered, and
/// the tables stay. It is shown how far the script of the arrivals is, and why arrivals are refused is added to the
/// reasons: where the office fails while that is read, the answer stands, and the next arrival is lost. The error is
/// out of memory for the answers: then nothing arrived.
pub fn answer_on<S: Alter + Drop, W: Write>(
    alloc: Global,
    conn: Connection<S>,
    script: &[u8],
    arrivals: &[Arrival],
    strict: bool,
    reasons: &mut Reasons,
    progress: &mut Progress<W>,
) -> (Result<Answers, AllocError>, Connection<S>)
    requires { IsSettled S.Store conn }
    ensures clean { KeepsDoubt S.Store conn result.1 }
    ensures far { IfOk result.0
        (λ reported. IsFarEnough strict arrivals.now reported.answers.items reported.lost) }
    ensures held { OnHistory S.Store conn result.1 (λ h. IsTrue (state S.Store result.1).is_open
        → IfOk result.0 (λ reported.
        Holding (h ++ answered_with arrivals.now reported.answers.items)
        (state S.Store result.1))) }
    ensures begun { OnBeginning S.Store conn result.1 (λ h. IsTrue (state S.Store result.1).is_open
        → IfOk result.0 (λ reported.
        Holding (h ++ answered_with arrivals.now reported.answers.items) (state S.Store result.1)
        ⊎ (NoneAnswered reported.answers.items reported.lost
        × ShowsSame S.Store conn result.1))) }
    ensures older { OnOlder S.Store conn result.1 (λ h. IfOk result.0
        (λ reported. NoneAnswered reported.answers.items reported.lost)
        × ShowsSameIfOpen S.Store conn result.1) }
    ensures legal { OnBeginning S.Store conn result.1 (λ h.
        IfOk result.0 (λ reported. IsLegalHistory
        (h ++ answered_with arrivals.now reported.answers.items))) }
    ensures statistics { OnBeginning S.Store conn result.1 (λ h.
        ShowsStatisticsIfOpen S.Store conn result.1) }
    ensures err { OnBeginning S.Store conn result.1 (λ h.
        OnErr result.0 (Holding h (state S.Store result.1))) }
    ensures told { HaveLines script.now arrivals.now → IfOk result.0
        (λ reported. TellsOf script.now reported.answers.items reasons.old reasons.new) }
{
    histories_grow();
    match office_on(conn) {
        Ok(mut office) => {
            let reported = answer_all(
                alloc,
                &mut office,
                script,
                arrivals,
                strict,
                reasons,
                progress,
            );
            (reported, office.close())
        }
        Err((lost, conn)) => (Ok(nothing_answered(alloc, lost)), conn),
    }
}

/// Answers the arrivals in turn by a new office in memory, up to one for which memory runs out, which is lost, and
/// where it is strict, up to the first that is refused. Why arrivals are refused is added to the reasons. The error is
/// out of memory for the answers.
pub(crate) fn answer_in_memory<W: Write>(
    alloc: Global,
    script: &[u8],
    arrivals: &[Arrival],
    strict: bool,
    reasons: &mut Reasons,
    progress: &mut Progress<W>,
) -> Result<Answers, AllocError>
    ensures far { IfOk result
        (λ reported. IsFarEnough strict arrivals.now reported.answers.items reported.lost) }
    ensures goes_on { IfOk result (λ reported. InMemory
        (answered_with arrivals.now reported.answers.items) reported.lost) }
    ensures told { HaveLines script.now arrivals.now → IfOk result
        (λ reported. TellsOf script.now reported.answers.items reasons.old reasons.new) }
{
    let mut answers = Vec::with_capacity(alloc, arrivals.len())?;
    let mut office = KeyedOffice::new(alloc);
    let mut lines = RequestLines::of(script);
    for arrival in arrivals {
        let number = lines.next_number();
        progress.show_line(number);
        match office.arrive(alloc, &arrival.team, &arrival.key, &arrival.request) {
            Ok(answer) => {
                reasons.add_in_memory(alloc, office.office(), number, arrival, &answer);
                let stops = stops_at(strict, &answer);
                answers.push_reserved(answer);
                if stops {
                    return Ok(Answers {
                        answers,
                        lost: None,
                    });
                }
            }
            Err(AllocError) => {
                return Ok(Answers {
                    answers,
                    lost: Some(Lost::Memory),
                });
            }
        }
    }
    Ok(Answers {
        answers,
        lost: None,
    })
}

/// What was reported, and why closing the database after it was lost, if that was and nothing before.
pub fn answers_when_closed(reported: Answers, closed: Result<(), Lost>) -> Answers
    ensures answers { result.answers ≡ reported.answers }
    ensures lost { IsSome reported.lost → result.lost ≡ reported.lost }
    ensures none { result.lost ≡ None → reported.lost ≡ None }
    ensures closing { IfErr closed (λ closing. reported.lost ≡ None → result.lost ≡ Some closing) }
    ensures far { (strict : Bool) (arrivals : List AnArrival)
        → IsFarEnough strict arrivals reported.answers.items reported.lost
        → IsFarEnough strict arrivals result.answers.items result.lost }
{
    let Answers { answers, lost } = reported;
    match (lost, closed) {
        (None, Err(closing)) => Answers {
            answers,
            lost: Some(closing),
        },
        (lost, _) => Answers { answers, lost },
    }
}

impl PrintedLine for Answer {
    ghost use Rattle.office_script.specs.Echoes.{answer_line};

    ghost line = { answer_line };

    fn add_to(&self, text: &mut String) -> Result<(), AllocError> {
        add_answer(text, self)
    }
}

/// The report that a call was lost, and nothing else.
pub(crate) fn lost_report(alloc: Global, lost: Lost) -> Result<Report, AllocError>
    ensures { IfOk result (λ report. outcome_of report ≡ lost_outcome lost) }
{
    let text = format!(in alloc; "{lost}\n")?;
    Ok(Report::of_errors(alloc, text.into_bytes(), ExitStatus::Failed))
}

/// The line of each answer, or the echo of each of the first arrivals with it, put into the room in the place of what
/// it has.
fn printed(
    echo: bool,
    arrivals: &[Arrival],
    answers: &[Answer],
    lines: String,
    echoes: Vec<u8>,
) -> Result<Vec<u8>, AllocError>
    ensures { IfOk result (λ text. text.items ≡ printed echo arrivals.now answers.now) }
{
    let mut lines = lines;
    lines.clear();
    if echo {
        let mut echoes = echoes;
        echoes.clear();
        add_echoes(&mut echoes, &mut lines, arrivals, answers)?;
        Ok(echoes)
    } else {
        add_lines(&mut lines, answers)?;
        Ok(lines.into_bytes())
    }
}

/// Whether one of the answers is a refusal.
fn is_some_refused(answers: &[Answer]) -> bool
    ensures { result ≡ list_any is_refused answers.now }
{
    answers.iter().any(|answer| is_refused(answer))
}

/// The status where nothing was lost: where it is strict, a refusal is a fault.
fn status_of(strict: bool, answers: &[Answer]) -> ExitStatus
    ensures { result ≡ status_of strict answers.now }
{
    if !strict {
        return ExitStatus::Success;
    }
    if is_some_refused(answers) {
        ExitStatus::FaultFound
    } else {
        ExitStatus::Success
    }
}

impl Answers {
    /// What is printed of each answer to the arrivals, and then why the next one was lost, if it was. It is put into
    /// the room, in the place of what it has. The error is out of memory, which can be only if there is too little
    /// room.
    pub(crate) fn report(
        &self,
        alloc: Global,
        arrivals: &[Arrival],
        manner: Manner,
        room: Room,
    ) -> Result<Report, AllocError>
        ensures { IfOk result (λ report. outcome_of report
            ≡ answers_outcome manner arrivals.now self.now.answers.items self.now.lost) }
    {
        let Room {
            lines,
            echoes,
            loss,
        } = room;
        let output = printed(manner.echo, arrivals, &self.answers, lines, echoes)?;
        match self.lost {
            None => {
                let status = status_of(manner.strict, &self.answers);
                Ok(Report::of_output(alloc, output, status))
            }
            Some(lost) => {
                let mut errors = loss;
                errors.clear();
                write!(errors, "{lost}\n")?;
                Ok(Report {
                    output,
                    errors: errors.into_bytes(),
                    status: ExitStatus::Failed,
                })
            }
        }
    }
}
