//! A command sent to a desk: the bytes of its request, the answer in its response, and sending it until it is answered.
//!
//! [`post_request`] gives the request of an arrival: a POST at the command's target ([`post_target`]), with its body
//! ([`command_body`]). A desk that reads it sees that arrival. Where a text isn't UTF-8, the request is absent, since
//! JSON can't hold it. [`answer_of`] gives the answer that a desk writes by a response, which has a status and a body.
//!
//! [`Desks`] are the desks of this machine by their ports: one is asked for a target, or is sent the bytes of a request.
//! Those of the machine are in the program itself; [`NoDesk`] has none. [`reply_to`] sends a request as often as it
//! takes until the office's answer comes back, up to a number of tries.
//!
//! Three laws are functions that do nothing: [`values_come_back`], [`actions_come_back`] and [`posts_lead_there`].
//!
//! The definitions are in `specs/`: `Texts.antt` and `Json.antt` have values as bytes and as JSON, `Fields.antt` the
//! fields of each command, `Body.antt` the body, `Target.antt`, `Request.antt` and `Answer.antt` the rest of a request
//! and its answer. `Desks.antt` has what is known of desks, and `Replies.antt` which tries are repeated, and what they
//! end with. No contract states what a desk answers.
#![tactic(auto)]

mod actions;
mod answer;
mod body;
mod desks;
mod laws;
mod members;
mod objects;
mod reading;
mod request;
mod sending;
mod target;
mod unwritten;
mod words;

pub use answer::answer_of;
pub use body::command_body;
pub use desks::{Desks, NoDesk};
pub use laws::{actions_come_back, posts_lead_there, values_come_back};
pub use request::{post_request, post_requests};
pub use sending::{SendFault, reply_to};
pub use target::post_target;
