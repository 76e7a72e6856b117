//! The client of a desk: one request to a running desk of this machine, and what it gets.
//!
//! [`ask`] connects to a port of 127.0.0.1, asks for one target by a GET and gives what came back, within time limits.
//! [`send`] does so with the bytes of any request. [`asked`] and [`exchange`] are the same over any sink and source.
//! [`target_of`] gives the target of a look. What comes back is one of four
//! ([`Received`]): a whole [`Response`] with its [`DeskStatus`] and body, one that is cut off, no response of HTTP, or more
//! bytes than are read. [`response_in`] says which of them bytes are; its contract holds for all bytes. [`request_for`]
//! makes the bytes of the request, for a target that passes [`is_target`].
//!
//! The law [`replies_come_back`] says that each response that a desk writes is received as what it is. That a desk
//! reads the target of a look as that look are laws of `desk_head` and `desk_call`.
//!
//! The definitions are in `specs/`: `Request.antt` has what is sent, `Received.antt` what bytes are received as, by
//! `httparse`'s grammar, `Asking.antt` what becomes of the sink and the source, `Replies.antt` the law, and
//! `Limits.antt` the limits. No contract states the bytes of a socket.
#![tactic(auto)]

mod asking;
mod calling;
mod fault;
mod laws;
mod limits;
mod reading;
mod received;
mod request;
mod side;
mod target;

pub use asking::{asked, exchange};
pub use calling::{ask, send};
pub use fault::AskFault;
pub use laws::replies_come_back;
pub use limits::{RESPONSE_LIMIT, TARGET_LIMIT};
pub use received::{DeskStatus, Received, Response, response_in};
pub use request::{is_target, request_for};
pub use target::target_of;
