//! The tables of the office: their schema, the rows that they keep, and making them.
//!
//! [`make_tables`] makes all tables on an empty store, in one fixed order: `profile`, `net`, `message`, `block`,
//! `held`, `spn`, `approval`, `frozen`, `reply`, `msg`, `sig`, `receiver`, `sigvalue`, `part`. A table that comes later
//! is made last. docs/use/TABLES.md says what each row means.
//!
//! [`is_new`] shows whether there is a table yet, and [`knows_schema`] that trees of the office are read with its
//! schema; [`knows_tables`] says so of every schema, as those of earlier times (`IsOfficeSchema`). [`is_begun`]
//! compares the tables of a database with those of an office.
//!
//! The statements that read and write rows are in the crate `store_statements`. What a statement of each form makes of
//! the tables is proved here once, for any table: `proofs/Changing.antt` has INSERT and DELETE, `proofs/Selecting.antt`
//! SELECT, and `proofs/TopRow.antt` that with LIMIT 1.
//!
//! The definitions are in `specs/`: `Schema.antt` (the tables, as `sqlite` has them), `Tables.antt` (their rows),
//! `Statements.antt` (what a statement makes of them), `Frames.antt` (the words of contracts on a transaction),
//! `Selected.antt` (what a SELECT shows) and `Comparing.antt` (what is compared of tables).
#![tactic(auto)]

mod comparing;
mod creating;
mod office_column;
mod office_index;
mod office_table;
mod opening;

pub use comparing::is_begun;
pub use creating::{create_part, make_live_tables, make_tables};
pub use opening::{is_new, knows_none, knows_schema, knows_tables};
