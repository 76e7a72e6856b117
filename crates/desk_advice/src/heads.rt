//! What is read of a head, and why it demands nothing.
ghost use Rattle.desk_head.specs.Head.{IsHeadAt};

use crate::pieces::text_of;
use desk_call::{Call, call_read};
use desk_head::{
    BODY_LIMIT, Demand, HEAD_LIMIT, HEADER_LIMIT, HeadState, Header, Routes, demand_at,
    empty_headers, header_named, parse_head,
};
use desk_types::Problem;
use httparse::Error;
use httparse::spans::{HeaderSpan, RequestSpans, parse_request};
use office_fields::CommandKind;
use std::alloc::{AllocError, Global};

/// What a head has, and what it demands.
#[derive(Clone, Copy)]
pub(crate) struct HeadParts<'b> {
    pub(crate) target: &'b [u8],
    pub(crate) team: Header<'b>,
    pub(crate) key: Header<'b>,
    transfer: Header<'b>,
    length: Header<'b>,
    pub(crate) demand: Demand,
}

/// The parts of the head that the bytes begin with.
fn parts_of<'b>(
    routes: &Routes,
    head: &'b [u8],
    headers: &[HeaderSpan; HEADER_LIMIT],
    spans: RequestSpans,
) -> HeadParts<'b>
    requires { IsHeadAt head.now headers.now spans }
{
    let demand = demand_at(routes, head, headers, spans);
    let fields = &headers[..spans.headers];
    HeadParts {
        target: spans.path.of(head),
        team: header_named(head, fields, spans.len, b"team"),
        key: header_named(head, fields, spans.len, b"request-key"),
        transfer: header_named(head, fields, spans.len, b"transfer-encoding"),
        length: header_named(head, fields, spans.len, b"content-length"),
        demand,
    }
}

/// What the head that bytes begin with has, or why they begin with none.
pub(crate) fn head_of<'b>(routes: &Routes, head: &'b [u8]) -> Result<HeadParts<'b>, &'static str> {
    if head.len() > HEAD_LIMIT {
        return Err("the head has more than 8192 bytes");
    }
    let mut headers = empty_headers();
    match parse_head(head, &mut headers) {
        HeadState::Complete(spans) => Ok(parts_of(routes, head, &headers, spans)),
        HeadState::Incomplete => Err("the connection ended in the head, before an empty line"),
        HeadState::Impossible => Err(malformed(head)),
    }
}

/// What a request of these bytes is to the office, if they are one: what it was when they were read.
pub(crate) fn call_in(
    alloc: Global,
    routes: &Routes,
    head: &[u8],
    body: &[u8],
) -> Result<Option<Call>, AllocError> {
    if head.len() > HEAD_LIMIT {
        return Ok(None);
    }
    let mut headers = empty_headers();
    match parse_head(head, &mut headers) {
        HeadState::Complete(spans) => {
            let demand = demand_at(routes, head, &headers, spans);
            let call = call_read(alloc, demand, head, &headers, spans, body)?;
            Ok(Some(call))
        }
        HeadState::Incomplete | HeadState::Impossible => Ok(None),
    }
}

/// Why bytes can't become a head.
fn malformed(head: &[u8]) -> &'static str {
    let mut headers = empty_headers();
    match parse_request(head, &mut headers) {
        Ok(_) => "the head has more than 8192 bytes",
        Err(Error::TooManyHeaders) => "the head has more than 32 fields",
        Err(Error::HeaderName) =>
            "a header of the head has a wrong name, as with a space before its colon",
        Err(Error::HeaderValue) => "a header of the head has a control character in its value",
        Err(Error::NewLine) => "a carriage return of the head has no line feed after it",
        Err(Error::Version) => "the head is not one of HTTP/1.0 or HTTP/1.1",
        Err(Error::Token) | Err(Error::Status) => {
            "the head does not begin with a method, a space, a target and a space"
        }
    }
}

/// The commands that have a target, in words: `open_net, grant, ..`.
pub(crate) fn action_words(alloc: Global) -> Result<String, AllocError> {
    let mut text = String::new(alloc);
    for kind in CommandKind::all() {
        if let CommandKind::Act(kind) = *kind {
            if !text.is_empty() {
                text.push_str(", ")?;
            }
            text.push_str(kind.word())?;
        }
    }
    Ok(text)
}

/// Why there is nothing at the target.
fn no_target(alloc: Global, target: &[u8]) -> Result<String, AllocError> {
    if target.starts_with(b"/do/") {
        let words = action_words(alloc)?;
        format!(in alloc;
            "no command has this name: there are {words}, and /import/NET and /bundle/NET"
        )
    } else if target.starts_with(b"/nets/") {
        text_of(
            alloc,
            "nothing of a network is there: a network has live, state, blocks, messages, held, releases, compare, nodes, spns, who and teams",
        )
    } else {
        text_of(
            alloc,
            "nothing is there: targets begin with /nets, /requests/TEAM, /do/COMMAND, /import/NET or /bundle/NET",
        )
    }
}

/// Which method the target has.
fn other_method(target: &[u8]) -> &'static str {
    if target.starts_with(b"/nets") || target.starts_with(b"/requests") {
        "the method of this target is GET"
    } else {
        "the method of this target is POST"
    }
}

/// Why the length of a body is wrong.
fn wrong_length(transfer: Header<'_>, length: Header<'_>) -> &'static str {
    match (transfer, length) {
        (Header::Absent, Header::Double) => "Content-Length is given twice",
        (Header::Absent, _) => "Content-Length must be 1 to 19 digits",
        _ =>
            "Transfer-Encoding is given, and no coding is taken: send the body with its Content-Length",
    }
}

/// Why the head demands nothing that there is.
pub(crate) fn demand_wrong(
    alloc: Global,
    problem: Problem,
    parts: HeadParts<'_>,
) -> Result<String, AllocError> {
    match problem {
        Problem::NotFound => no_target(alloc, parts.target),
        Problem::WrongMethod => text_of(alloc, other_method(parts.target)),
        Problem::NoLength => text_of(
            alloc,
            "Content-Length is missing: a POST has it, also where its body is empty",
        ),
        Problem::TooLarge => {
            format!(in alloc; "Content-Length is too great: a body has at most {BODY_LIMIT} bytes")
        }
        Problem::BadRequest => text_of(alloc, wrong_length(parts.transfer, parts.length)),
        Problem::TryAgain => text_of(alloc, "the office could not answer"),
    }
}
