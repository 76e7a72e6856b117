//! What people need beside a fault of reading a DBC text: its line, what was found there, what may be there, and the
//! further faults of the text.
#![tactic(auto)]

mod blanking;
mod candidate;
mod citation;
mod clashes;
mod explaining;
mod faulty_lines;
mod findings;
mod first;
mod found;
mod hint;
mod key_set;
mod leaving;
mod lines;
mod names;
mod notes;
mod offsets;
mod paths;
mod pieces;
mod position;
mod reasons;
mod sentences;
mod unclear;
mod wanted;

pub use clashes::{CLASHES_REPORTED, clash_sentences};
pub use explaining::explained;
pub use findings::{BYTES_READ_AGAIN, FAULTS_REPORTED};
pub use first::{Stated, first_stated};
pub use found::{quoted, visible_bytes};
pub use leaving::{CITATIONS_REPORTED, left_out};
pub use notes::Source;
pub use paths::shown_path;
pub use position::{Position, position_of};
pub use reasons::{first_outside, first_shared};
pub use sentences::reported_line;
