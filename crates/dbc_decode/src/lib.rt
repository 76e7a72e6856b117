//! What a receiver reads from a frame, and what the marks of a comparison say of it.
//!
//! `specs/Decoding.antt` defines what a receiver that was built for a sheet reads: the message of the frame's
//! identifier, which of its signals are there, and of each its raw value, its factor and its offset. `Laws.antt` there
//! has the laws of the marks of `dbc_compare`, of whole sheets and of frames, and `Marks.antt` those of one signal.
//! They are the contracts of functions that do nothing.
#![tactic(auto)]

mod laws;

pub use laws::{layouts_tell_apart, marked_changes_are_read, unmarked_sheets_are_read};
