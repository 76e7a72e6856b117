//! What the office decides on imports.
//!
//! [`decide_import`] decides an import of the sheet that a file reads as, and [`decide_unreadable`] one of a file that
//! reads as none. [`decide_unread`] says where a file need not be read, and decides there. The caller reads the
//! file and carries the changes out. The definitions are those of `office_rules` (`Importing.antt`); `specs/` has only
//! words that the functions of this crate share.
//!
//! An import takes time about linear in the network and in the file. An `index` finds live messages and held
//! identifiers by binary search (`searching`) and names in sets (`names`), and `numbers` finds a number in a team's
//! blocks by binary search. A list is searched so where one walk found it in order, as every list of an office is;
//! otherwise each lookup walks over it. The tests are in `clear`, `joining` and `limits`, in this order; `news`,
//! `frame` and `changes` make the changes.
#![tactic(auto)]

mod changes;
mod clear;
mod frame;
mod import;
mod index;
mod joining;
mod limits;
mod names;
mod news;
mod numbers;
mod searching;

pub use import::{decide_import, decide_unread, decide_unreadable};
