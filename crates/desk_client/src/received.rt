//! What comes back.
ghost use Rattle.std.specs.Prelude.{◌≡◌, ◌+◌, ◌≤◌, ℕ, All, List, drop, length, map, take, vec_len};
ghost use Rattle.httparse.specs.Grammar.{ResponseHead};
ghost use Rattle.httparse.specs.Spans.{IsHeaderWithin, header_bytes};
ghost use Rattle.desk_client.specs.Limits.{response_limit};
ghost use Rattle.desk_client.specs.Received.{HasResponse, IsReceived, body_length, code_of, received_by};
ghost use Rattle.desk_client.specs.Received.{received_of, seen, status_of};

use crate::limits::RESPONSE_LIMIT;
use base::whole_number;
use desk_head::{Header, empty_headers, header_named};
use httparse::spans::{HeaderSpan, parse_response};

/// What a desk says of a request by the status of its response (RFC 9110, on status codes).
#[derive(Clone, Copy, PartialEq, Eq)]
pub enum DeskStatus {
    /// 200: the body is what was asked for.
    Success,
    /// 404: there is nothing at the target.
    NotFound,
    /// Any other one, as 503 of an office that couldn't answer.
    Other(u16),
}

impl DeskStatus {
    /// Its number.
    pub fn code(self) -> u16
        ensures { result ≡ code_of self }
    {
        match self {
            DeskStatus::Success => 200,
            DeskStatus::NotFound => 404,
            DeskStatus::Other(code) => code,
        }
    }
}

/// A response that came whole.
#[derive(Drop)]
pub struct Response {
    /// Its status.
    pub status: DeskStatus,
    /// Its body, of as many bytes as its `Content-Length` says.
    pub body: Vec<u8>,
}

/// What came back.
#[derive(Drop)]
pub enum Received {
    /// A whole response. What follows its body isn't looked at.
    Whole(Response),
    /// The beginning of a response: its head doesn't end, or its body is shorter than its `Content-Length`.
    Cut,
    /// No response of HTTP/1.0 or 1.1 that a desk gives: no head, more than 32 headers, a transfer coding, or not
    /// exactly one `Content-Length` that is a whole number of 32 bits.
    NotHttp,
    /// More than [`RESPONSE_LIMIT`] bytes, whatever they are.
    TooLong,
}

fn status_of(code: u16) -> DeskStatus
    ensures { result ≡ status_of code }
{
    match code {
        200 => DeskStatus::Success,
        404 => DeskStatus::NotFound,
        _ => DeskStatus::Other(code),
    }
}

/// How long the body is by the headers, which are in the first `len` bytes of the buffer.
#[tactic(auto, unfolding(crate::specs::Received::body_length))]
fn body_length(buf: &[u8], headers: &[HeaderSpan], len: usize) -> Option<u32>
    requires fits { len ≤ length buf.now }
    requires within { All (IsHeaderWithin len) headers.now }
    ensures { result ≡ body_length (map (header_bytes buf.now) headers.now) }
{
    match header_named(buf, headers, len, b"transfer-encoding") {
        Header::Absent => {}
        _ => return None,
    }
    match header_named(buf, headers, len, b"content-length") {
        Header::Once(value) => whole_number(value),
        _ => None,
    }
}

/// So many bytes of a text from a start on, in its own memory.
fn part_of(mut text: Vec<u8>, start: usize, size: usize) -> Vec<u8>
    requires { start + size ≤ vec_len text }
    ensures { result.items ≡ take size (drop start text.items) }
{
    text.copy_within(start..start + size, 0);
    text.truncate(size);
    text
}

/// What a text is received as whose head ends at `len` and has these headers.
fn received_at(text: Vec<u8>, headers: &[HeaderSpan], code: u16, len: usize) -> Received
    requires fits { len ≤ vec_len text }
    requires within { All (IsHeaderWithin len) headers.now }
    ensures { seen result ≡ received_by (body_length (map (header_bytes text.items) headers.now)) code
        (drop len text.items) }
{
    let Some(size) = body_length(&text, headers, len) else {
        return Received::NotHttp;
    };
    let size = size as usize;
    if size > text.len() - len {
        return Received::Cut;
    }
    Received::Whole(Response {
        status: status_of(code),
        body: part_of(text, len, size),
    })
}

/// What the bytes are received as. It takes no memory: the body of a response is in that of the text.
pub fn response_in(text: Vec<u8>) -> Received
    ensures is { IsReceived text.items (seen result) }
    ensures found { (h : ResponseHead) (rest : List ℕ) → length text.items ≤ response_limit
        → HasResponse text.items h rest → seen result ≡ received_of h rest }
{
    if text.len() > RESPONSE_LIMIT {
        return Received::TooLong;
    }
    let mut headers = empty_headers();
    match parse_response(&text, &mut headers) {
        Ok(httparse::Status::Complete(spans)) => {
            received_at(text, &headers[..spans.headers], spans.code, spans.len)
        }
        Ok(httparse::Status::Partial) => Received::Cut,
        Err(_) => Received::NotHttp,
    }
}
