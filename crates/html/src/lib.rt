//! Texts of HTML, in ASCII alone.
//!
//! - [`push_text`]: any bytes as a text, or as the value of an attribute. Bytes that are well-formed UTF-8 are shown as
//!   their characters ([`utf8_is_decoded`]), and each other byte as the character of its number. What is written reads
//!   back as what is shown, whatever the bytes are ([`escaped_texts_read_back`]): no bytes end the text or the
//!   attribute. A plain text stays what it is ([`plain_texts_are_kept`]).
//! - [`push_all`]: texts that are HTML already, as they are, one after the other. One call for the parts of a text
//!   costs much less to prove than a chain of calls that may each fail.
//!
//! Each appends to a buffer, and fails only if memory runs out. The definitions are in `specs/`: `Characters.antt` has
//! the characters of bytes, `Text.antt` how they are shown and written, and `Reading.antt` how a browser reads them.
#![tactic(auto)]

mod appending;
mod characters;
mod escaping;
mod laws;

pub use appending::push_all;
pub use escaping::push_text;
pub use laws::{escaped_texts_read_back, plain_texts_are_kept, utf8_is_decoded};
