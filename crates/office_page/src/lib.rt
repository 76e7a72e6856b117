//! A network, a release or a DBC file on one HTML page.
//!
//! [`page_of`] gives the page of a live network, [`release_page`] that of one of its releases, and [`file_page`] that of
//! a DBC file: which numbers are taken and which are left, what is at each bit of each message, who owns it, what has
//! changed since the last release, and what a check remarks. The same network has the same page. A page has no script,
//! loads nothing, and is well-formed by its type (`markup`).
//!
//! The parts of a page are those of `page_changes`, `page_numbers` and `page_messages`. Here are its head, its style, and
//! the order of the parts. What has changed is what `dbc_compare` lists, what is remarked what `dbc_lint` and
//! `dbc_advice` state, and what is left what the looks show (`office_looks`).
//!
//! Nothing here decides anything: no crate that does uses it.
#![tactic(auto)]

mod checking;
mod document;
mod head;
mod names;
mod net_page;
mod parts;
mod sheet_page;
mod style;

pub use net_page::page_of;
pub use sheet_page::{file_page, release_page};
