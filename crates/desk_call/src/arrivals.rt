//! Arrivals.
ghost use Rattle.std.specs.Prelude.{◌≡◌, ◌≤◌, All, IfOk, codes, length, map};
ghost use Rattle.httparse.specs.Spans.{IsHeaderWithin, header_bytes};
ghost use Rattle.office_fields.specs.Given.{read_once};
ghost use Rattle.office_fields.specs.Reading.{ReadsField};
ghost use Rattle.office_fields.specs.Value.{plain_name_of};
ghost use Rattle.desk_head.specs.Fields.{named};
ghost use Rattle.desk_call.specs.Call.{arrival_of, bundle_of, command_of, content_of, import_of, key_of};
ghost use Rattle.desk_call.specs.Read.{ReadsArrival};

use crate::body::command_in;
use crate::bundle::bundle_in;
use crate::values::{key_of, net_in};
use base::Items;
use desk_head::{Header, Posting, header_named};
use httparse::spans::HeaderSpan;
use office_fields::{Unread, team_of};
use office_history::{Arrival, Key, Request};
use office_types::{Command, Task, Team};
use std::alloc::{AllocError, Global};

/// The value of the header `Team`.
fn team_in(alloc: Global, buf: &[u8], headers: &[HeaderSpan], len: usize) -> Result<Team, Unread>
    requires fits { len ≤ length buf.now }
    requires within { All (IsHeaderWithin len) headers.now }
    ensures { ReadsField (read_once plain_name_of
        (named (codes "team") (map (header_bytes buf.now) headers.now))) result }
{
    match header_named(buf, headers, len, b"team") {
        Header::Absent => Err(Unread::Wrong),
        Header::Once(value) => team_of(alloc, value),
        Header::Double => Err(Unread::Wrong),
    }
}

/// The value of the header `Request-Key`.
fn key_in(alloc: Global, buf: &[u8], headers: &[HeaderSpan], len: usize) -> Result<Key, Unread>
    requires fits { len ≤ length buf.now }
    requires within { All (IsHeaderWithin len) headers.now }
    ensures { ReadsField (read_once key_of
        (named (codes "request-key") (map (header_bytes buf.now) headers.now))) result }
{
    match header_named(buf, headers, len, b"request-key") {
        Header::Absent => Err(Unread::Wrong),
        Header::Once(value) => key_of(alloc, value),
        Header::Double => Err(Unread::Wrong),
    }
}

fn import_of(alloc: Global, target: &[u8], body: &[u8]) -> Result<Command, Unread>
    ensures { ReadsField (import_of target.now body.now) result }
{
    let net = net_in(alloc, target)?;
    let bytes = Vec::from_slice(alloc, body)?;
    Ok(Command {
        net,
        task: Task::Import(Items::from_vec(bytes)),
    })
}

fn bundle_of(alloc: Global, target: &[u8], body: &[u8]) -> Result<Command, Unread>
    ensures { ReadsField (bundle_of target.now body.now) result }
{
    let net = net_in(alloc, target)?;
    let parts = bundle_in(alloc, body)?;
    Ok(Command {
        net,
        task: Task::Bundle(parts),
    })
}

fn command_of(
    alloc: Global,
    posting: Posting,
    target: &[u8],
    body: &[u8],
) -> Result<Command, Unread>
    ensures { ReadsField (command_of posting target.now body.now) result }
{
    match posting {
        Posting::Act(kind) => command_in(alloc, kind, body),
        Posting::Import => import_of(alloc, target, body),
        Posting::Bundle => bundle_of(alloc, target, body),
    }
}

fn content_of(alloc: Global, target: &[u8], body: &[u8]) -> Result<Vec<u8>, AllocError>
    ensures { IfOk result (λ content. content.items ≡ content_of target.now body.now) }
{
    let mut content = Vec::from_slice(alloc, target)?;
    content.push(b' ')?;
    content.extend_from_slice(body)?;
    Ok(content)
}

/// The arrival of a request with this target, these headers in the first `len` bytes of the buffer, and this body.
/// `Wrong` where a header or the body isn't as it must be.
#[tactic(auto, unfolding(crate::specs::Call::arrival_of))]
pub(crate) fn arrival_of(
    alloc: Global,
    posting: Posting,
    target: &[u8],
    buf: &[u8],
    headers: &[HeaderSpan],
    len: usize,
    body: &[u8],
) -> Result<Arrival, Unread>
    requires fits { len ≤ length buf.now }
    requires within { All (IsHeaderWithin len) headers.now }
    ensures { ReadsArrival (arrival_of posting target.now (map (header_bytes buf.now) headers.now)
        body.now) result }
{
    let team = team_in(alloc, buf, headers, len)?;
    let key = key_in(alloc, buf, headers, len)?;
    let command = command_of(alloc, posting, target, body)?;
    let content = content_of(alloc, target, body)?;
    Ok(Arrival {
        team,
        key,
        request: Request { content, command },
    })
}
