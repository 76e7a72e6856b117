//! The bytes of responses.
//!
//! A response is a status line, header lines and a body (RFC 9112). [`problem_response`] is the response to a request
//! that has a [`Problem`](desk_types::Problem), [`answer_response`] the one to an arrival, by what the office
//! answered ([`answer_text`] is its body), and [`text_response`] the one that shows something. Statuses and their
//! phrases are those of `http`, and JSON is written by `serde_json`.
//!
//! `specs/Response.antt` has the text of a response, `Reply.antt` the JSON of replies.
#![tactic(auto)]

mod json;
mod responses;
mod text;

pub use responses::{BodyKind, answer_response, answer_text, problem_response, text_response};
