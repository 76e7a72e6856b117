//! The responses of the desk.
ghost use Rattle.std.specs.Prelude.{◌≡◌, IfOk, false, string_bytes};
ghost use Rattle.serde_json.specs.View.{view};
ghost use Rattle.serde_json.specs.Written.{compact_text, has_float};
ghost use Rattle.desk_reply.specs.Reply.{answer_data, answer_status, reply_status};
ghost use Rattle.desk_reply.specs.Response.{answer_response, json_response, problem_response, text_response};
ghost use Rattle.desk_types.specs.Problem.{problem_status};

use crate::json::{answer_value, problem_value};
use crate::text::response;
use desk_types::Problem;
use http::StatusCode;
use office_history::Answer;
use office_types::{Refusal, Reply};
use serde_json::Value;
use std::alloc::{AllocError, Global};

/// What a body is.
#[derive(Clone, Copy, PartialEq, Eq)]
pub enum BodyKind {
    /// JSON: replies and problems.
    Json,
    /// Lines of text: networks, tables and charts.
    Plain,
    /// Bytes: DBC text.
    Bytes,
    /// HTML, all of it ASCII: a page.
    Html,
}

fn json_response(alloc: Global, status: StatusCode, value: &Value) -> Result<Vec<u8>, AllocError>
    requires { has_float (view value.now) ≡ false }
    ensures { IfOk result (λ text. text.items ≡ json_response status (view value.now)) }
{
    let body = value.to_string(alloc)?;
    response(alloc, status, BodyKind::Json, body.as_bytes())
}

fn status_of_problem(problem: Problem) -> StatusCode
    ensures { result ≡ problem_status problem }
{
    match problem {
        Problem::BadRequest => StatusCode::BAD_REQUEST,
        Problem::NotFound => StatusCode::NOT_FOUND,
        Problem::WrongMethod => StatusCode::METHOD_NOT_ALLOWED,
        Problem::NoLength => StatusCode::LENGTH_REQUIRED,
        Problem::TooLarge => StatusCode::PAYLOAD_TOO_LARGE,
        Problem::TryAgain => StatusCode::SERVICE_UNAVAILABLE,
    }
}

fn status_of_reply(reply: &Reply) -> StatusCode
    ensures { result ≡ reply_status reply.now }
{
    match reply {
        Reply::Refused(Refusal::NoNet) => StatusCode::NOT_FOUND,
        Reply::Refused(_) => StatusCode::CONFLICT,
        _ => StatusCode::OK,
    }
}

fn status_of_answer(answer: &Answer) -> StatusCode
    ensures { result ≡ answer_status answer.now }
{
    match answer {
        Answer::Reply(reply) => status_of_reply(reply),
        Answer::KeyReused => StatusCode::CONFLICT,
    }
}

/// The response to a request that has a problem.
#[tactic(auto, unfolding(crate::specs::Response::problem_response))]
pub fn problem_response(alloc: Global, problem: Problem) -> Result<Vec<u8>, AllocError>
    ensures { IfOk result (λ text. text.items ≡ problem_response problem) }
{
    let value = problem_value(alloc, problem)?;
    json_response(alloc, status_of_problem(problem), &value)
}

/// The response to an arrival that was answered so: 404 where there is no such network, 409 where the office refused
/// it otherwise or its key was used, else 200.
#[tactic(auto, unfolding(crate::specs::Response::answer_response), using(crate::proofs::Floats::answer_float))]
pub fn answer_response(alloc: Global, answer: &Answer) -> Result<Vec<u8>, AllocError>
    ensures { IfOk result (λ text. text.items ≡ answer_response answer.now) }
{
    let value = answer_value(alloc, answer)?;
    json_response(alloc, status_of_answer(answer), &value)
}

/// The body of that response: the answer as JSON.
#[tactic(auto, using(crate::proofs::Floats::answer_float))]
pub fn answer_text(alloc: Global, answer: &Answer) -> Result<String, AllocError>
    ensures { IfOk result (λ text. string_bytes text ≡ compact_text (answer_data answer.now)) }
{
    answer_value(alloc, answer)?.to_string(alloc)
}

/// The response that shows a text: 200.
#[tactic(auto, unfolding(crate::specs::Response::text_response))]
pub fn text_response(alloc: Global, content: BodyKind, body: &[u8]) -> Result<Vec<u8>, AllocError>
    ensures { IfOk result (λ text. text.items ≡ text_response content body.now) }
{
    response(alloc, StatusCode::OK, content, body)
}
