//! The call of a request that was read.
ghost use Rattle.std.specs.Prelude.{◌≡◌, ◌≤◌, All, IfOk, length, map};
ghost use Rattle.std.specs.Option.{option_map};
ghost use Rattle.httparse.specs.Spans.{IsHeaderWithin, header_bytes};
ghost use Rattle.office_types.specs.Look.{formed};
ghost use Rattle.desk_call.specs.Call.{call_by, look_of, seen, show_by, wants_json};

use crate::arrivals::arrival_of;
use crate::call::Call;
use crate::looks::look_of;
use desk_head::{Demand, Header, Showing, header_named};
use desk_types::Problem;
use httparse::spans::HeaderSpan;
use office_fields::Unread;
use std::alloc::{AllocError, Global};

/// Whether JSON is wanted: the request has one header Accept, which names that alone. The headers are in the first
/// `len` bytes of the buffer.
fn wants_json(buf: &[u8], headers: &[HeaderSpan], len: usize) -> bool
    requires fits { len ≤ length buf.now }
    requires within { All (IsHeaderWithin len) headers.now }
    ensures { result ≡ wants_json (map (header_bytes buf.now) headers.now) }
{
    match header_named(buf, headers, len, b"accept") {
        Header::Once(value) => value.eq_ignore_ascii_case(b"application/json"),
        Header::Absent | Header::Double => false,
    }
}

fn show_at(alloc: Global, showing: Showing, target: &[u8], json: bool) -> Result<Call, AllocError>
    ensures { IfOk result
        (λ call. seen call ≡ show_by (option_map (formed json) (look_of showing target.now))) }
{
    match look_of(alloc, showing, target) {
        Ok(look) => Ok(Call::Shows(look.formed(json))),
        Err(Unread::Wrong) => Ok(Call::Fails(Problem::NotFound)),
        Err(Unread::Memory) => Err(AllocError),
    }
}

/// The call of a request whose head demands this, with this target and these headers in the first `len` bytes of the
/// buffer, and with what was read after the head.
pub(crate) fn call_by(
    alloc: Global,
    demand: Demand,
    target: &[u8],
    buf: &[u8],
    headers: &[HeaderSpan],
    len: usize,
    rest: &[u8],
) -> Result<Call, AllocError>
    requires fits { len ≤ length buf.now }
    requires within { All (IsHeaderWithin len) headers.now }
    ensures { IfOk result (λ call. seen call
        ≡ call_by demand target.now (map (header_bytes buf.now) headers.now) rest.now) }
{
    match demand {
        Demand::Fails(problem) => Ok(Call::Fails(problem)),
        Demand::Shows(showing) => { show_at(alloc, showing, target, wants_json(buf, headers, len)) }
        Demand::Does(posting, length) => {
            let length = length as usize;
            if length <= rest.len() {
                match arrival_of(alloc, posting, target, buf, headers, len, &rest[..length]) {
                    Ok(arrival) => Ok(Call::Arrives(arrival)),
                    Err(Unread::Wrong) => Ok(Call::Fails(Problem::BadRequest)),
                    Err(Unread::Memory) => Err(AllocError),
                }
            } else {
                Ok(Call::Fails(Problem::BadRequest))
            }
        }
    }
}
