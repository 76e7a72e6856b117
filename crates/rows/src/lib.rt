//! Lists that are described once and shown in several forms.
//!
//! - A [`Cell`] is a value, and a [`Column`] is what all values at one place of the rows have in common. Columns are a
//!   `const` of the crate that makes the list, and its definitions cite it.
//! - [`Rows`] are rows of values. A [`Table`] is a list: rows under columns, or several kinds of rows, each under its
//!   own, and a last row with the totals. What there is one of has its row first and upright, a line for each column.
//! - [`table_text`] gives a list as lines, [`table_json`] as JSON, and [`list_text`] as either.
//!
//! The definitions are in `specs/`: `Fact.antt` says what contracts see of a value, `Table.antt` of a list, and
//! `Lines.antt` and `Json.antt` define the two forms.
#![tactic(auto)]

mod cell;
mod json;
mod lines;
mod table;

pub use cell::{Alignment, Cell, Column, Name};
pub use json::{list_text, table_json};
pub use lines::table_text;
pub use table::{Kind, Rows, Table};
