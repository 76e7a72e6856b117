//! The head at the front of bytes.
ghost use Rattle.std.specs.Prelude.{◌≡◌, ◌≤◌, length, replicate};
ghost use Rattle.desk_head.specs.Limits.{head_limit, header_limit};
ghost use Rattle.desk_head.specs.HeadState.{IsHeadState};

use crate::limits::{HEAD_LIMIT, HEADER_LIMIT};
use httparse::Status;
use httparse::spans::{EMPTY_HEADER_SPAN, HeaderSpan, RequestSpans, parse_request};

/// What bytes say of the head of a request.
#[derive(Clone, Copy)]
pub enum HeadState {
    /// The bytes begin with the whole head. Its headers are at the front of the array.
    Complete(RequestSpans),
    /// The bytes are less than a head, and more may follow that complete it.
    Incomplete,
    /// No bytes can follow that make it a head within the limits.
    Impossible,
}

/// Room for the headers of one head.
pub fn empty_headers() -> [HeaderSpan; HEADER_LIMIT]
    ensures { result ≡ replicate header_limit EMPTY_HEADER_SPAN }
{
    [EMPTY_HEADER_SPAN; HEADER_LIMIT]
}

/// Looks for the head of a request at the front of the bytes. Takes no memory.
pub fn parse_head(bytes: &[u8], headers: &mut [HeaderSpan; HEADER_LIMIT]) -> HeadState
    requires { length bytes.now ≤ head_limit }
    ensures { IsHeadState bytes.now headers.new result }
{
    match parse_request(bytes, headers) {
        Ok(Status::Complete(spans)) => HeadState::Complete(spans),
        Ok(Status::Partial) => {
            if bytes.len() < HEAD_LIMIT {
                HeadState::Incomplete
            } else {
                HeadState::Impossible
            }
        }
        Err(_) => HeadState::Impossible,
    }
}
