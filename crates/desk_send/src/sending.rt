//! Sending a request until it is answered.
ghost use Rattle.std.specs.Prelude.{Ok};
ghost use Rattle.std.specs.Result.{result_map_both};
ghost use Rattle.desk_client.specs.Received.{seen, whole};
ghost use Rattle.desk_send.specs.Desks.{AreStill, TakesNone};
ghost use Rattle.desk_send.specs.Replies.{HasCome, IsStep, Shows};

use crate::answer::answer_of;
use crate::desks::Desks;
use desk_client::{AskFault, Received, Response};
use desk_types::DeskFault;
use office_history::Answer;
use std::alloc::{AllocError, Global};

/// The status of an office that couldn't answer: what it was asked may be kept or not.
const TRY_AGAIN: u16 = 503;

/// Why a request has no answer.
#[derive(Clone, Copy, PartialEq, Eq)]
pub enum SendFault {
    /// No try is left, or what came back is no answer of an office.
    NoReply,
    /// Memory ran out.
    Memory,
}

/// What a try shows.
#[derive(Drop)]
enum Step {
    /// The office's answer.
    Answered(Answer),
    /// Nothing is known: the request is to be sent again.
    Again,
    /// It isn't answered, and wouldn't be otherwise if it were sent again.
    Over,
    /// Memory ran out for the answer.
    OutOfMemory,
}

/// What a whole response shows.
fn response_step(alloc: Global, response: &Response) -> Step
    ensures { IsStep (Ok (whole response.now.status response.now.body.items)) result }
{
    let code = response.status.code();
    if code == TRY_AGAIN {
        return Step::Again;
    }
    match answer_of(alloc, code, &response.body) {
        Ok(Some(answer)) => Step::Answered(answer),
        Ok(None) => Step::Over,
        Err(AllocError) => Step::OutOfMemory,
    }
}

/// What a try shows of which this came.
fn step_of(alloc: Global, came: Result<Received, AskFault>) -> Step
    ensures { IsStep (result_map_both seen (λ fault. fault) came) result }
{
    match came {
        Ok(Received::Whole(response)) => response_step(alloc, &response),
        Ok(Received::Cut) => Step::Again,
        Ok(Received::NotHttp) | Ok(Received::TooLong) => Step::Over,
        Err(AskFault::Connect) => Step::Again,
        Err(AskFault::Connection(DeskFault::Read)) => Step::Again,
        Err(AskFault::Connection(DeskFault::Write)) => Step::Again,
        Err(AskFault::Connection(DeskFault::Memory)) => Step::OutOfMemory,
    }
}

/// Waits for a moment, unless it is the first try.
fn pause_before<K: Desks>(desks: &mut K, is_first: bool)
    ensures still { AreStill (K.known desks.old) (K.known desks.new) }
    ensures takes { TakesNone (K.known desks.old) (K.known desks.new) }
{
    if !is_first {
        desks.pause();
    }
}

/// Sends the request once, after a moment unless it is the first try.
fn try_once<K: Desks>(
    alloc: Global,
    desks: &mut K,
    port: u16,
    request: &[u8],
    is_first: bool,
) -> Step
    ensures shows { Shows (K.known desks.old) (K.known desks.new) port request.now result }
    ensures still { AreStill (K.known desks.old) (K.known desks.new) }
{
    pause_before(desks, is_first);
    step_of(alloc, desks.send(alloc, port, request))
}

/// The office's answer to the request of these bytes, which is sent to the desk on the port: again after a moment where
/// no connection was made, it failed, the response is cut or its status is 503, up to so many times in all. Since a
/// request has its team and its key, an office carries it out once at most, however often it arrives.
pub fn reply_to<K: Desks>(
    alloc: Global,
    desks: &mut K,
    port: u16,
    request: &[u8],
    tries: u32,
) -> Result<Answer, SendFault>
    ensures comes { HasCome (K.known desks.old) (K.known desks.new) port request.now tries result }
    ensures still { AreStill (K.known desks.old) (K.known desks.new) }
{
    let mut left = tries;
    while left > 0 {
        let is_first = left == tries;
        left -= 1;
        match try_once(alloc, desks, port, request, is_first) {
            Step::Answered(answer) => return Ok(answer),
            Step::Again => {}
            Step::Over => return Err(SendFault::NoReply),
            Step::OutOfMemory => return Err(SendFault::Memory),
        }
    }
    Err(SendFault::NoReply)
}
