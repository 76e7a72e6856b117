//! The text of a response.
ghost use Rattle.std.specs.Prelude.{◌≡◌, IfOk, string_bytes};
ghost use Rattle.desk_reply.specs.Response.{content_type, header_lines, phrase_of, policy_line, response, status_line};

use crate::responses::BodyKind;
use http::StatusCode;
use std::alloc::{AllocError, Global};

fn phrase_of(status: StatusCode) -> &'static str
    ensures { result.now ≡ phrase_of status }
{
    match status.canonical_reason() {
        Some(text) => text,
        None => "",
    }
}

fn content_type(content: BodyKind) -> &'static str
    ensures { result.now ≡ content_type content }
{
    match content {
        BodyKind::Json => "application/json",
        BodyKind::Plain => "text/plain",
        BodyKind::Bytes => "application/octet-stream",
        BodyKind::Html => "text/html; charset=us-ascii",
    }
}

/// The line that forbids a page scripts and whatever comes from outside it; nothing for another body.
fn policy_line(content: BodyKind) -> &'static str
    ensures { result.now ≡ policy_line content }
{
    match content {
        BodyKind::Html => {
            "Content-Security-Policy: default-src 'none';style-src 'unsafe-inline'\r\n"
        }
        _ => "",
    }
}

#[tactic(auto, unfolding(crate::specs::Response::status_line))]
fn status_line(alloc: Global, code: u16, phrase: &str) -> Result<String, AllocError>
    ensures { IfOk result (λ line. string_bytes line ≡ status_line code phrase.now) }
{
    format!(in alloc; "HTTP/1.1 {code} {phrase}\r\n")
}

#[tactic(auto, unfolding(crate::specs::Response::header_lines))]
fn header_lines(alloc: Global, kind: &str, policy: &str, size: usize) -> Result<String, AllocError>
    ensures { IfOk result (λ lines. string_bytes lines ≡ header_lines kind.now policy.now size) }
{
    format!(in alloc;
        "Content-Type: {kind}\r\n{policy}Content-Length: {size}\r\nConnection: close\r\n\r\n"
    )
}

/// The response of a status with a body.
pub(crate) fn response(
    alloc: Global,
    status: StatusCode,
    content: BodyKind,
    body: &[u8],
) -> Result<Vec<u8>, AllocError>
    ensures { IfOk result (λ text. text.items ≡ response status content body.now) }
{
    let mut text = status_line(alloc, status.as_u16(), phrase_of(status))?.into_bytes();
    let lines = header_lines(
        alloc,
        content_type(content),
        policy_line(content),
        body.len(),
    )?;
    text.extend_from_slice(lines.as_bytes())?;
    text.extend_from_slice(body)?;
    Ok(text)
}
