//! What people need of a script with a wrong line, beside the number of the line: which of its words is to blame, why,
//! and what may be there.
//!
//! [`explained`] gives the bytes for standard error. `specs/Cause.antt` defines why a line is wrong, in terms of the
//! words of a line (`office_script`) and of the table of fields (`office_fields`), `specs/Words.antt` where a word is,
//! `specs/Sentence.antt` and `specs/Phrase.antt` what is stated, and `specs/Explained.antt` the whole. Whether a line
//! is wrong is the matter of `office_script`, and by the contract of [`explained`] what is reported here agrees with
//! it. [`values_wrong`], [`phrase_of`] and [`meaning_of`] are the rules for given values, however they are written.
#![tactic(auto)]

mod bundles;
mod cause;
mod explaining;
mod finding;
mod forms;
mod lists;
mod phrases;
mod sentences;
mod values;
mod words;

pub use cause::{Cause, LineCommand, Wrong};
pub use explaining::explained;
pub use phrases::{NumberRange, phrase_of, range_of};
pub use sentences::meaning_of;
pub use values::values_wrong;
