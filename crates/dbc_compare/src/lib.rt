//! What differs between two sheets.
//!
//! [`differences`] lists the differences of two sheets: a [`Alteration`] in a [`Region`], and there of a node, a value table
//! or a signal by its name. [`differences_table`] makes a list of them (`rows`), with totals that count them; [`compare`]
//! gives it as lines or as JSON, and says whether the sheets are equal. A message is compared with its partner
//! (`dbc_sheet`).
//!
//! There is no difference if and only if the sheets are equal ([`differences_tell_apart`]), as the list says in either
//! form ([`list_tells_apart`], [`has_no_difference`]), and each difference has its opposite the other way round
//! ([`differences_are_swapped`]).
//!
//! The definitions are in `specs/`: the fields of each thing and which of them break a receiver (`Fields.antt`), how
//! what they have is shown (`Value.antt`), what differs (`Differences.antt`), its list (`List.antt`), the laws
//! (`Laws.antt`).
#![tactic(auto)]

mod changes;
mod difference;
mod field;
mod fields;
mod laws;
mod list;
mod messages;
mod place;
mod sheets;
mod things;
mod values;

pub use difference::{Alteration, Difference};
pub use field::SheetField;
pub use laws::{differences_are_swapped, differences_tell_apart, list_tells_apart};
pub use list::{
    Comparison, DIFFERENCE_TOTALS, DIFFERENCES, breaking_count, breaks, compare, differences_table,
    has_no_difference,
};
pub use place::{MessageKey, Region};
pub use sheets::differences;
