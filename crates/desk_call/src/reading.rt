//! Reading one request.
ghost use Rattle.std.specs.Prelude.{◌≡◌, ◌-◌, ◌<◌, ◌≤◌, ◌^◌, true, false, IfOk, OnOk, IsErrOf, vec_len};
ghost use Rattle.std.specs.Io.KnownBytes.{IsAtEnd};
ghost use Rattle.httparse.specs.Grammar.{RequestHead};
ghost use Rattle.httparse.specs.Spans.{IsRequestAt};
ghost use Rattle.desk_types.specs.Moved.{Moves};
ghost use Rattle.desk_types.specs.Reading.{ReadsAtMost};
ghost use Rattle.desk_head.specs.Head.{IsHeadAt};
ghost use Rattle.desk_head.specs.Limits.{request_limit};
ghost use Rattle.desk_head.specs.Demand.{demand_of};
ghost use Rattle.desk_call.specs.Call.{call_of, seen};
ghost use Rattle.desk_call.specs.Read.{IsRequested, StopsShort};

use crate::call::Call;
use crate::calling::call_by;
use crate::exchange::Exchange;
use desk_head::{Demand, HEADER_LIMIT, Routes, body_size, demand_at, empty_headers, read_head};
use desk_types::{Problem, ReadFault, Source, take_more};
use httparse::spans::{HeaderSpan, RequestSpans};
use std::alloc::{AllocError, Global};

/// Reads until so many bytes are there, and says whether they are: else the source is at its end.
fn read_until<R: Source>(source: &mut R, got: &mut Vec<u8>, until: usize) -> Result<bool, ReadFault>
    requires { R.failure_count source.old < 2 ^ 64 - 1 }
    ensures reads { ReadsAtMost R.Source source.old source.new (until - vec_len got.old) result }
    ensures moves { OnOk result
        (Moves (R.left source.old) (R.left source.new) got.old.items got.new.items) }
    ensures whole { result ≡ Ok true → until ≤ vec_len got.new }
    ensures end { result ≡ Ok false → IsAtEnd (R.left source.new) × (vec_len got.new < until) }
    ensures failed { IsErrOf result ReadFault.Read
        → Moves (R.left source.old) (R.left source.new) got.old.items got.new.items
        × (vec_len got.new < until) }
{
    while got.len() < until {
        let room = until - got.len();
        match take_more(source, got, room) {
            Err(e) => return Err(e),
            Ok(true) => {}
            Ok(false) => return Ok(false),
        }
    }
    Ok(true)
}

/// The call of a request whose head is at the front of the bytes, and that goes on with the rest.
#[tactic(auto, unfolding(crate::specs::Call::call_of))]
pub fn call_read(
    alloc: Global,
    demand: Demand,
    got: &[u8],
    headers: &[HeaderSpan; HEADER_LIMIT],
    spans: RequestSpans,
    rest: &[u8],
) -> Result<Call, AllocError>
    requires { IsHeadAt got.now headers.now spans }
    ensures { IfOk result (λ call. (h : RequestHead) → IsRequestAt got.now headers.now spans h
        → demand ≡ demand_of h
        → seen call ≡ call_of h rest.now) }
{
    let target = spans.path.of(got);
    let headers = &headers[..spans.headers];
    call_by(alloc, demand, target, got, headers, spans.len, rest)
}

/// Reads the first request of a source, as a call. Nothing is read once the request is whole, or known to be
/// wrong by its head, and never more than a greatest head and a greatest body. `Read` if a call of the source fails
/// before that, `Memory` if memory runs out. What was read for a call is kept where that is wanted.
pub fn read_call<R: Source>(
    alloc: Global,
    routes: &Routes,
    source: &mut R,
    exchange: &mut Exchange,
) -> Result<Call, ReadFault>
    requires { R.failure_count source.old < 2 ^ 64 - 1 }
    ensures reads { ReadsAtMost R.Source source.old source.new request_limit result }
    ensures ok { IfOk result (λ call. IsRequested (R.left source.old) (seen call)) }
    ensures failed { IsErrOf result ReadFault.Read
        → StopsShort (R.left source.old) (R.left source.new) }
{
    let mut got = Vec::new(alloc);
    let mut headers = empty_headers();
    let spans = match read_head(source, &mut got, &mut headers) {
        Err(e) => return Err(e),
        Ok(Some(spans)) => spans,
        Ok(None) => {
            exchange.keep_request(got, Vec::new(alloc));
            return Ok(Call::Fails(Problem::BadRequest));
        }
    };
    let demand = demand_at(routes, &got, &headers, spans);
    let Ok(mut rest) = Vec::from_slice(alloc, &got[spans.len..]) else {
        return Err(ReadFault::Memory);
    };
    match read_until(source, &mut rest, body_size(demand) as usize) {
        Err(e) => return Err(e),
        Ok(_) => {}
    }
    match call_read(alloc, demand, &got, &headers, spans, &rest) {
        Ok(call) => {
            exchange.keep_request(got, rest);
            Ok(call)
        }
        Err(_) => Err(ReadFault::Memory),
    }
}
