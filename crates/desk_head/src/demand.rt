//! What the head of a request demands.
ghost use Rattle.std.specs.Prelude.{◌≡◌};
ghost use Rattle.httparse.specs.Grammar.{RequestHead};
ghost use Rattle.httparse.specs.Spans.{IsRequestAt};
ghost use Rattle.desk_head.specs.Demand.{demand_of, body_size, does_by};
ghost use Rattle.desk_head.specs.Head.{IsHeadAt};

use crate::endpoint::{Endpoint, Posting, Showing};
use crate::length::body_length;
use crate::limits::HEADER_LIMIT;
use crate::routes::Routes;
use desk_types::Problem;
use http::Method;
use httparse::spans::{HeaderSpan, RequestSpans};

/// What the head of a request demands.
#[derive(Clone, Copy)]
pub enum Demand {
    /// The head demands nothing that there is: a problem answers it.
    Fails(Problem),
    /// It demands to show something.
    Shows(Showing),
    /// It demands to do something, with a body of so many bytes.
    Does(Posting, u32),
}

/// How many bytes after the head belong to the request.
pub fn body_size(demand: Demand) -> u32
    ensures { result ≡ body_size demand }
{
    match demand {
        Demand::Does(_, length) => length,
        _ => 0,
    }
}

fn does_by(posting: Posting, length: Result<u32, Problem>) -> Demand
    ensures { result ≡ does_by posting length }
{
    match length {
        Ok(length) => Demand::Does(posting, length),
        Err(problem) => Demand::Fails(problem),
    }
}

/// What the head demands, by the first of these tests: nothing is at the target (404); what is there has another
/// method (405); the length of a body is missing, wrong or too great (400, 411, 413).
#[tactic(auto, unfolding(crate::specs::Demand::demand_of))]
pub fn demand_at(
    routes: &Routes,
    buf: &[u8],
    headers: &[HeaderSpan; HEADER_LIMIT],
    spans: RequestSpans,
) -> Demand
    requires { IsHeadAt buf.now headers.now spans }
    ensures { (h : RequestHead) → IsRequestAt buf.now headers.now spans h → result ≡ demand_of h }
{
    let method = spans.method.of(buf);
    match routes.endpoint_of(spans.path.of(buf)) {
        None => Demand::Fails(Problem::NotFound),
        Some(Endpoint::Shows(showing)) => {
            if method == Method::GET.as_str().as_bytes() {
                Demand::Shows(showing)
            } else {
                Demand::Fails(Problem::WrongMethod)
            }
        }
        Some(Endpoint::Does(posting)) => {
            if method == Method::POST.as_str().as_bytes() {
                let length = body_length(buf, &headers[..spans.headers], spans.len);
                does_by(posting, length)
            } else {
                Demand::Fails(Problem::WrongMethod)
            }
        }
    }
}
