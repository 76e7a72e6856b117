//! What the parts of a page have in common.
//!
//! - [`Subject`]: what a page is of: a sheet, whose its messages are, and which names have letters.
//! - [`Names`]: names in ascending order, each once.
//! - [`Letters`]: each team, or node that sends, has one letter and one of eight colours on a page.
//! - [`open_part`], [`open_wide`], [`open_fold`], [`open_table`]: what parts begin with; `close` of the markup ends each.
//! - [`put_quiet`], [`put_bad`], [`put_count`], [`put_hex`], [`put_runs`], ..: words and numbers.
//!
//! `specs/` has what each of them is as HTML. Contracts see [`Letters`] as the list of the names, in ascending order.
#![tactic(auto)]

mod checked;
mod decimals;
mod frames;
mod letters;
mod marks;
mod names;
mod numbers;
mod subject;
mod words;

pub use checked::Checked;
pub use decimals::{decimal_text, put_decimal};
pub use frames::{open_fold, open_part, open_part_link, open_table, open_wide, put_part_link};
pub use letters::{Letters, Shade};
pub use marks::{Mark, Marks, State};
pub use names::Names;
pub use numbers::{
    HexWidth, is_addressed, is_broadcast, put_both, put_hex, put_ident_hex, put_number_cell,
    put_runs,
};
pub use subject::Subject;
pub use words::{put_bad, put_count, put_dot, put_isolated, put_quiet};
