//! What has changed since a release, on a page.
//!
//! All of it comes of the differences of two sheets (`dbc_compare`). [`Changes`] has them by message, and how many of
//! them break a receiver. [`put_since_words`] and [`put_since`] show what has changed since the last release, and
//! [`marks_of`] tells the other parts of the page what has become of each message. [`put_releases`] lists the releases,
//! with what each of them changed.
//!
//! The definitions are in `specs/`: which messages differ (`Changes.antt`) and what has become of them (`Fates.antt`,
//! `Marks.antt`), the part of the last release (`LastRelease.antt`) with the nodes that must act (`Act.antt`) and the
//! lists of messages (`Since.antt`), and the releases (`Releases.antt`).
#![tactic(auto, using(markup::proofs::Changes::joins))]

mod act;
mod changes;
mod laws;
mod marks;
mod names;
mod releases;
mod since;
mod words;

pub use changes::{Changes, Fate};
pub use laws::differences_rise;
pub use marks::marks_of;
pub use names::ascending;
pub use releases::put_releases;
pub use since::{put_since, put_since_words};
