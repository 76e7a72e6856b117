//! HTML that is well-formed by its type.
//!
//! [`Markup`] is a piece of HTML while it is written: a beginning of it, in which some elements are open. Each call
//! adds something at its end: [`Markup::open`] begins an element of a [`Tag`] with its [`Attribute`]s,
//! [`Markup::close`] ends the one that began last, [`Markup::text`] adds a text, and [`Markup::put`] a whole piece that
//! was written apart. No call fails: where memory runs out this is remembered, and [`Markup::into_page`] says so at the
//! end. Whatever was called, in whatever order, the page is well-formed, and a text is a text: there is no way to write
//! anything else.
//!
//! The definitions are in `specs/`: `Reader.antt` has a reader that goes over a page byte by byte as a browser does,
//! and by it what is well-formed; `Html.antt` has elements and attributes as HTML, and `Writing.antt` what contracts
//! see of a [`Markup`]: what is written so far, and how each call changes it.
#![tactic(auto)]

mod attribute;
mod laws;
mod markup;
mod pushing;
mod tag;

pub use attribute::{Attribute, Piece};
pub use laws::pages_are_ascii;
pub use markup::Markup;
pub use tag::{Tag, Void};
