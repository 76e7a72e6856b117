//! The head of a request (RFC 9112), and what it demands.
//!
//! [`parse_head`] finds the head at the front of bytes, by `httparse`, within the desk's limits, and [`read_head`]
//! reads a source until the head is there or can't come. [`demand_at`] says what the head demands: which [`Endpoint`],
//! by the target's route in `matchit`'s router ([`Routes`]), and how long the body is; or which problem answers it.
//! [`header_named`] gives the value of a header field, [`first_parameter`], [`second_parameter`] and
//! [`third_parameter`] the parameters of the target.
//!
//! The definitions are in `specs/`: `Head.antt` has the heads that bytes begin with, `Fields.antt` header fields and
//! lengths, `Target.antt` what is at a target, and `Demand.antt` the tests that a head has to pass, in order.
//! `Asked.antt` has the target of each look; the law [`targets_lead_there`] says that what is there shows it.
#![tactic(auto)]

mod demand;
mod endpoint;
mod fields;
mod laws;
mod length;
mod limits;
mod parsing;
mod parts;
mod reading;
mod routes;

pub use demand::{Demand, body_size, demand_at};
pub use endpoint::{Endpoint, Posting, Showing};
pub use fields::{Header, header_named};
pub use laws::targets_lead_there;
pub use limits::{BODY_LIMIT, HEAD_LIMIT, HEADER_LIMIT};
pub use parsing::{HeadState, empty_headers, parse_head};
pub use parts::{first_parameter, second_parameter, third_parameter};
pub use reading::read_head;
pub use routes::Routes;
