//! What a line says before the reason.
ghost use Rattle.std.specs.Prelude.{◌≡◌, IfOk, codes, unwrap_or};
ghost use Rattle.httparse.specs.Grammar.{RequestHead};
ghost use Rattle.httparse.specs.Spans.{IsRequestAt};
ghost use Rattle.desk_head.specs.Head.{IsHeadAt};
ghost use Rattle.desk_advice.specs.Front.{IsFront, front_text, head_text, headless_text, status_of};

use crate::pieces::shown;
use crate::refused::status_of;
use crate::senders::{key_in, team_in};
use base::{Checked, Rule};
use columns::concat;
use desk_call::Exchange;
use desk_head::{HEAD_LIMIT, HEADER_LIMIT, HeadState, empty_headers, parse_head};
use httparse::spans::{HeaderSpan, RequestSpans};
use office_history::Key;
use office_types::Team;
use std::alloc::{AllocError, Global};

/// The bytes of a name, or `-`.
fn or_dash<R: Rule>(alloc: Global, found: &Option<Checked<R>>) -> Result<Vec<u8>, AllocError>
    ensures { IfOk result (λ text. text.items ≡ unwrap_or found.now (codes "-")) }
{
    match found {
        Some(name) => Vec::from_slice(alloc, name.as_bytes()),
        None => Vec::from_slice(alloc, b"-"),
    }
}

/// The front of a line on a request of which these are known.
fn front_text(
    alloc: Global,
    method: &[u8],
    target: &[u8],
    status: &[u8],
    team: &Option<Team>,
    key: &Option<Key>,
) -> Result<Vec<u8>, AllocError>
    ensures { IfOk result (λ front. front.items
        ≡ front_text method.now target.now status.now team.now key.now) }
{
    let method = shown(alloc, method)?;
    let target = shown(alloc, target)?;
    let team = or_dash(alloc, team)?;
    let key = or_dash(alloc, key)?;
    concat(
        alloc,
        &[
            &method, b" ", &target, b" ", status, b" ", &team, b" ", &key,
        ],
    )
}

/// The front of a line on bytes that begin with no head.
fn headless_text(alloc: Global, status: &[u8]) -> Result<Vec<u8>, AllocError>
    ensures { IfOk result (λ front. front.items ≡ headless_text status.now) }
{
    concat(alloc, &[b"- - ", status, b" - -"])
}

/// The front of a line on the head that the bytes begin with.
fn head_text(
    alloc: Global,
    head: &[u8],
    headers: &[HeaderSpan; HEADER_LIMIT],
    spans: RequestSpans,
    status: &[u8],
) -> Result<Vec<u8>, AllocError>
    requires { IsHeadAt head.now headers.now spans }
    ensures { IfOk result (λ front. (h : RequestHead) → IsRequestAt head.now headers.now spans h
        → front.items ≡ head_text h status.now) }
{
    let headers = &headers[..spans.headers];
    let team = team_in(alloc, head, headers, spans.len)?;
    let key = key_in(alloc, head, headers, spans.len)?;
    let method = spans.method.of(head);
    let target = spans.path.of(head);
    front_text(alloc, method, target, status, &team, &key)
}

/// The front of a line on a request of whose head these bytes were read, and that was answered by this status.
fn front_on(alloc: Global, head: &[u8], status: &[u8]) -> Result<Vec<u8>, AllocError>
    ensures { IfOk result (λ front. IsFront head.now status.now front.items) }
{
    if head.len() > HEAD_LIMIT {
        let long = headless_text(alloc, status)?;
        return Ok(long);
    }
    let mut headers = empty_headers();
    match parse_head(head, &mut headers) {
        HeadState::Complete(spans) => {
            let whole = head_text(alloc, head, &headers, spans, status)?;
            Ok(whole)
        }
        HeadState::Incomplete => {
            let cut = headless_text(alloc, status)?;
            Ok(cut)
        }
        HeadState::Impossible => {
            let wrong = headless_text(alloc, status)?;
            Ok(wrong)
        }
    }
}

/// What comes before the reason: the method, the target, the status, the team and the key, as far as the bytes that
/// were read begin with a head.
pub(crate) fn front_of(alloc: Global, exchange: &Exchange) -> Result<Vec<u8>, AllocError>
    ensures { IfOk result (λ front. IsFront exchange.now.head.items
        (status_of exchange.now.response.items) front.items) }
{
    let front = front_on(alloc, &exchange.head, status_of(&exchange.response))?;
    Ok(front)
}
