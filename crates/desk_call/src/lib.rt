//! What a request is to the office: the ordered tests of the desk, and the reading of one request.
//!
//! [`read_call`] reads the first request of a source, and no further than to its end, as a [`Call`]: a problem that
//! answers it, something to look up, or an arrival. The tests are one function of the head and of what follows it
//! (`call_of`, `specs/Call.antt`), whose first part is `demand_of` of `desk_head`. `specs/Read.antt` says which call
//! the bytes of a source are; by [`bytes_request_one_thing`] it is one. By [`looks_come_back`] a GET of the target of a
//! look (`specs/Asked.antt`) is that look.
//!
//! [`command_in`] reads a body as the command of a kind (`specs/Body.antt`). The body is an object with a member for
//! each field of the command, by `office_fields`' one table: its names, kinds and how often each may be given. Only how
//! JSON writes a value is known here. The values go to `office_fields` as bytes, as they would from a script, so that
//! each range is tested in one place. [`json_name`], [`is_name_of`] and [`bytes_of`] are the rules by which a member is
//! that of a field, for whoever says why a body gives no command.
//!
//! What was read is kept in an [`Exchange`] where that is wanted, for [`Notes`]; nothing here depends on it.
#![tactic(auto)]

mod arrivals;
mod body;
mod bundle;
mod call;
mod calling;
mod exchange;
mod json_values;
mod laws;
mod looks;
mod members;
mod reading;
mod values;

pub use body::command_in;
pub use bundle::bundle_in;
pub use call::Call;
pub use desk_head::Routes;
pub use exchange::{Exchange, Notes, OfficeRead, WantedNet};
pub use json_values::bytes_of;
pub use laws::{bytes_request_one_thing, looks_come_back};
pub use members::{is_name_of, json_name};
pub use office_types::Look;
pub use reading::{call_read, read_call};
