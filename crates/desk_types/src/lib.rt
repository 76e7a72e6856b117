//! What the desk is made of: its devices, its faults, and what can be wrong with a request.
//!
//! A [`Source`] gives the bytes of requests and a [`Sink`] takes those of responses. Each counts its calls that
//! failed, so that whoever serves knows when a device failed. [`Counted`] makes either of any reader or writer.
//! [`take_more`] and [`put_all`] are how the desk uses them. A [`ReadFault`] is why a request isn't read to its end. A
//! [`DeskFault`] ends a connection without its response. A [`Problem`] is answered by a response of its own.
//!
//! `specs/Moved.antt` says what moved, `Counts.antt` how many calls failed, and `Reading.antt` both of a source.
//! `Codes.antt` has the numbers of faults, `Problem.antt` those of problems.
#![tactic(auto)]

mod device;
mod fault;
mod moving;
mod problem;

pub use device::{Counted, Failed, Sink, Source};
pub use fault::{DeskFault, ReadFault};
pub use moving::{put_all, take_more};
pub use problem::Problem;
