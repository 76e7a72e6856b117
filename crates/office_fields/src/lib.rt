//! Commands as named values: the fields of each command, and the command that values of them give.
//!
//! [`CommandKind`] names the commands by their words. The table of fields is one: each [`Field`] has a name, a
//! [`FieldKind`] and an [`Occurrence`], and [`CommandKind::fields`] says which fields a command has. [`command_of`]
//! makes the command of a list of [`GivenValue`]s, or says that they are wrong; [`requested_of`] does it for every
//! command, and leaves the file of an import to be read. [`is_value`] tests one value. How values are written, as words
//! of a script or as JSON, isn't known here: a value is bytes that are decoded already.
//!
//! The definitions are in `specs/`: `Kind.antt` has the commands with their words, their fields and what values of them
//! give, `Field.antt` the table, `Value.antt` the values of each kind, `Given.antt` what is given for a field, and
//! `Requested.antt` what values of a command request.
#![tactic(auto)]

mod addressing;
mod choices;
mod field;
mod given;
mod kind;
mod messages;
mod numbers;
mod opening;
mod path;
mod requested;
mod signals;
mod texts;
mod unread;
mod values;

pub use field::{Field, FieldKind, Occurrence};
pub use given::GivenValue;
pub use kind::{ActionKind, CommandKind};
pub use path::FilePath;
pub use requested::{FileImport, Requested, command_of, part_of, requested_of};
pub use texts::team_of;
pub use unread::Unread;
pub use values::is_value;
