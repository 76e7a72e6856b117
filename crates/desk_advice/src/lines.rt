//! The line of a request that isn't answered by 200.
ghost use Rattle.std.specs.Prelude.{◌≡◌, ◌++◌, IfOk, IfSome, codes, is_some};
ghost use Rattle.desk_advice.specs.Front.{is_reported};
ghost use Rattle.desk_advice.specs.Line.{IsLine, IsLineOn, line_text};

use crate::bodies::body_wrong;
use crate::fronts::front_of;
use crate::heads::{HeadParts, demand_wrong, head_of};
use crate::looks::look_wrong;
use crate::pieces::{Told, as_line, text_of, told};
use crate::reasons::{is_reported, refused_text};
use crate::refused::{refused_of, status_of};
use crate::senders::{key_wrong, team_wrong};
use crate::values::malformed;
use desk_call::{Exchange, OfficeRead};
use desk_head::{Demand, Posting, Routes, first_parameter};
use office_fields::FieldKind;
use office_types::NetName;
use std::alloc::{AllocError, Global};

/// Why a network of the target isn't named there, if the target has to name one and doesn't.
fn net_wrong(alloc: Global, posting: Posting, target: &[u8]) -> Told {
    if let Posting::Act(_) = posting {
        return Ok(None);
    }
    match NetName::of(alloc, first_parameter(target))? {
        Some(_net) => Ok(None),
        None => told(malformed(alloc, "network", FieldKind::NetName)),
    }
}

/// Why a request for something to be done, with a body of this length, isn't one.
fn posting_wrong(
    alloc: Global,
    parts: HeadParts<'_>,
    posting: Posting,
    length: u32,
    body: &[u8],
) -> Result<String, AllocError> {
    let came = body.len();
    let Some(body) = body.get(..length as usize) else {
        return format!(in alloc; "the body has {came} bytes, and Content-Length says {length}");
    };
    if let Some(text) = team_wrong(alloc, parts.team)? {
        return Ok(text);
    }
    if let Some(text) = key_wrong(alloc, parts.key)? {
        return Ok(text);
    }
    if let Some(text) = net_wrong(alloc, posting, parts.target)? {
        return Ok(text);
    }
    match body_wrong(alloc, posting, body)? {
        Some(text) => Ok(text),
        None => text_of(alloc, "the body gives no command"),
    }
}

/// Why a request with this head isn't one for the office, or shows nothing.
fn parts_wrong(
    alloc: Global,
    parts: HeadParts<'_>,
    body: &[u8],
    is_there: Option<bool>,
) -> Result<String, AllocError> {
    match parts.demand {
        Demand::Fails(problem) => demand_wrong(alloc, problem, parts),
        Demand::Shows(showing) => look_wrong(alloc, showing, parts.target, is_there),
        Demand::Does(posting, length) => posting_wrong(alloc, parts, posting, length, body),
    }
}

/// Why the bytes of a request, those up to the end of its head and those after it, are none, or show nothing: by the
/// first of the desk's tests that fails. It may be known whether the network is there that is looked at. The error is
/// out of memory.
pub fn why(
    alloc: Global,
    routes: &Routes,
    head: &[u8],
    body: &[u8],
    is_there: Option<bool>,
) -> Result<String, AllocError> {
    match head_of(routes, head) {
        Ok(parts) => parts_wrong(alloc, parts, body, is_there),
        Err(text) => text_of(alloc, text),
    }
}

/// Why a request was answered so.
fn reason(
    alloc: Global,
    routes: &Routes,
    exchange: &Exchange,
    read: Option<OfficeRead<'_>>,
) -> Result<String, AllocError> {
    if status_of(&exchange.response) == b"503".as_slice() {
        return text_of(
            alloc,
            "the office could not answer, for want of memory or since its database failed: send it again under its key",
        );
    }
    if let Some(refused) = refused_of(alloc, &exchange.response)? {
        return refused_text(alloc, routes, exchange, refused, read);
    }
    let is_there = match read {
        Some(read) => Some(read.net.is_some()),
        None => None,
    };
    why(alloc, routes, &exchange.head, &exchange.body, is_there)
}

/// The line of a front and a reason.
fn line_with(alloc: Global, front: Vec<u8>, reason: &str) -> Result<Vec<u8>, AllocError>
    ensures { IfOk result
        (λ line. line.items ≡ line_text (front.items ++ codes ": " ++ reason.now)) }
{
    let mut text = front;
    text.extend_from_slice(b": ")?;
    text.extend_from_slice(reason.as_bytes())?;
    as_line(alloc, &text)
}

/// The line of an exchange, or `None` where nothing was answered, or by 200: `METHOD TARGET STATUS TEAM KEY: REASON`,
/// by what was wanted of the office, if that could be read. The error is out of memory.
pub fn line_of(
    alloc: Global,
    routes: &Routes,
    exchange: &Exchange,
    read: Option<OfficeRead<'_>>,
) -> Result<Option<Vec<u8>>, AllocError>
    ensures reported { IfOk result
        (λ line. is_some line ≡ is_reported exchange.now.response.items) }
    ensures line { IfOk result (λ line. IfSome line (λ bytes. IsLine bytes.items)) }
    ensures on { IfOk result (λ line. IfSome line
        (λ bytes. IsLineOn exchange.now.head.items exchange.now.response.items bytes.items)) }
{
    if !is_reported(exchange) {
        return Ok(None);
    }
    let front = front_of(alloc, exchange)?;
    let reason = reason(alloc, routes, exchange, read)?;
    let line = line_with(alloc, front, reason.as_str())?;
    Ok(Some(line))
}
