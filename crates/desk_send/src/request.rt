//! The request that is sent.
ghost use Rattle.std.specs.Prelude.{◌≡◌, IfErr, IfOk, IfSome, None};
ghost use Rattle.std.specs.List.{AllZip};
ghost use Rattle.desk_send.specs.Request.{IsFirstUnsent, IsSentAs, IsUnsent, request_bytes};

use crate::body::command_body;
use crate::target::post_target;
use base::Items;
use desk_head::BODY_LIMIT;
use office_history::Arrival;
use office_types::command_is_in_range;
use std::alloc::{AllocError, Global};

/// A request line, the headers, the empty line after them and the body.
#[tactic(auto, unfolding(crate::specs::Request::request_bytes))]
fn request_text(
    alloc: Global,
    target: &[u8],
    team: &[u8],
    key: &[u8],
    body: &[u8],
) -> Result<Vec<u8>, AllocError>
    ensures { IfOk result (λ text. text.items
        ≡ request_bytes target.now team.now key.now body.now) }
{
    let length = body.len();
    let size = format!(in alloc; "{length}")?;
    let mut text = Vec::from_slice(alloc, b"POST ")?;
    text.extend_from_slice(target)?;
    text.extend_from_slice(b" HTTP/1.1\r\nHost: 127.0.0.1\r\nTeam: ")?;
    text.extend_from_slice(team)?;
    text.extend_from_slice(b"\r\nRequest-Key: ")?;
    text.extend_from_slice(key)?;
    text.extend_from_slice(b"\r\nContent-Length: ")?;
    text.extend_from_slice(size.as_bytes())?;
    text.extend_from_slice(b"\r\nConnection: close\r\n\r\n")?;
    text.extend_from_slice(body)?;
    Ok(text)
}

/// The bytes of the request of an arrival, over a connection that closes after its response: a POST of its command's
/// body at its target, with its team and its key. A desk that reads them sees this arrival. Its content is the target,
/// a space and the body, whatever content the arrival has here. `None` where the command has no body
/// ([`command_body`]), and where this is longer than a desk takes. The error is out of memory.
pub fn post_request(alloc: Global, arrival: &Arrival) -> Result<Option<Vec<u8>>, AllocError>
    ensures request { IfOk result (λ found. IfSome found
        (λ request. IsSentAs arrival.now request.items)) }
    ensures none { IfOk result (λ found. found ≡ None → IsUnsent arrival.now) }
{
    let command = &arrival.request.command;
    command_is_in_range(command);
    let Some(body) = command_body(alloc, command)? else {
        return Ok(None);
    };
    if body.len() > BODY_LIMIT as usize {
        return Ok(None);
    }
    let target = post_target(alloc, command)?;
    let team = arrival.team.as_bytes();
    let key = arrival.key.as_bytes();
    Ok(Some(request_text(alloc, &target, team, key, &body)?))
}

/// The request of each of the arrivals, in order. The inner error is the index of the first arrival of which no request
/// is sent ([`post_request`]), the outer one out of memory.
pub fn post_requests(
    alloc: Global,
    arrivals: &[Arrival],
) -> Result<Result<Items<Items<u8>>, usize>, AllocError>
    ensures requests { IfOk result (λ made. IfOk made (AllZip IsSentAs arrivals.now)) }
    ensures unsent { IfOk result (λ made. IfErr made (IsFirstUnsent arrivals.now)) }
{
    let mut requests = Items::new(alloc);
    for arrival in arrivals {
        match post_request(alloc, arrival)? {
            Some(request) => requests.push(Items::from_vec(request))?,
            None => return Ok(Err(requests.as_slice().len())),
        }
    }
    Ok(Ok(requests))
}
