//! The length of a body.
ghost use Rattle.std.specs.Prelude.{◌≡◌, ◌≤◌, All, length, map};
ghost use Rattle.std.specs.List.{list_all};
ghost use Rattle.std.specs.Char.{is_ascii_digit};
ghost use Rattle.httparse.specs.Spans.{IsHeaderWithin, header_bytes};
ghost use Rattle.desk_head.specs.Fields.{body_length, length_in, taken_length};

use crate::fields::{Header, header_named};
use crate::limits::BODY_LIMIT;
use base::whole_number;
use desk_types::Problem;
use httparse::spans::HeaderSpan;

fn taken_length(number: Option<u32>) -> Result<u32, Problem>
    ensures { result ≡ taken_length number }
{
    match number {
        Some(n) if n <= BODY_LIMIT => Ok(n),
        _ => Err(Problem::TooLarge),
    }
}

fn all_digits(text: &[u8]) -> bool
    ensures { result ≡ list_all is_ascii_digit text.now }
{
    text.iter().all(|byte| byte.is_ascii_digit())
}

fn length_in(text: &[u8]) -> Result<u32, Problem>
    ensures { result ≡ length_in text.now }
{
    if !text.is_empty() && text.len() <= 19 && all_digits(text) {
        taken_length(whole_number(text))
    } else {
        Err(Problem::BadRequest)
    }
}

/// How long the body is, of a request that must have one, or which problem answers the request: a
/// `Transfer-Encoding`, a `Content-Length` that is double or not 1 to 19 digits; no length; a length above the limit.
#[tactic(auto, unfolding(crate::specs::Fields::body_length))]
pub(crate) fn body_length(buf: &[u8], headers: &[HeaderSpan], len: usize) -> Result<u32, Problem>
    requires fits { len ≤ length buf.now }
    requires within { All (IsHeaderWithin len) headers.now }
    ensures { result ≡ body_length (map (header_bytes buf.now) headers.now) }
{
    match header_named(buf, headers, len, b"transfer-encoding") {
        Header::Absent => {}
        _ => return Err(Problem::BadRequest),
    }
    match header_named(buf, headers, len, b"content-length") {
        Header::Absent => Err(Problem::NoLength),
        Header::Once(value) => length_in(value),
        Header::Double => Err(Problem::BadRequest),
    }
}
