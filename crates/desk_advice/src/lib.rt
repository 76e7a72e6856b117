//! What people need of a request that isn't answered by 200: one line, with the status and why.
//!
//! [`line_of`] makes the line of an [`Exchange`](desk_call::Exchange): the method and the target of the request, the
//! status, the team and the key, each `-` where it isn't known (`fronts`), and why. [`why`] says that of the bytes that
//! were read, by the first of the desk's tests that fails, in the order of `call_of` (`desk_call/specs/Call.antt`):
//! `heads` of a head and of what it demands, `looks` of a target that shows nothing, `senders` of the team and the key,
//! `bodies`, `members` and `bundles` of the body. `refused` says what a response refuses, and `reasons` why, by what is
//! read of the office. [`NoteLines`] writes each line by one write. No line has anything of a body but the names of
//! members, and what isn't printable ASCII is written as a question mark, or in a target by its digits. Nothing that
//! decides loads this crate.
#![tactic(auto)]

mod bodies;
mod bundles;
mod fronts;
mod heads;
mod lines;
mod looks;
mod members;
mod notes;
mod pieces;
mod reasons;
mod refused;
mod senders;
mod values;

pub use lines::{line_of, why};
pub use notes::NoteLines;
