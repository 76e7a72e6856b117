//! The words of DBC files, and what sheets are made of: keywords, names, texts, small numbers, and lists of things with
//! names.
//!
//! Sheets and grammar use the words that DBC text reserves ([`Keyword`]), names ([`Name`]), texts ([`Text`]),
//! multiplexer indicators ([`mux_of_indicator`]), lengths ([`PayloadLength`]), suspect parameter numbers ([`Spn`]) and
//! the types of values ([`ValueType`]). A [`Roster`] is a list of things no two of which have one name. What it
//! refuses, and what a sheet or a message does, is a [`SheetCode`]; a [`SheetFault`] has with it what it is about. The
//! limits are constants, such as [`MESSAGE_LIMIT`].
#![tactic(auto)]

mod fault;
mod indicator;
mod keyword;
mod limits;
mod name;
mod name_index;
mod name_set;
mod payload;
mod roster;
mod spn;
mod text;
mod value_type;

pub use fault::{About, SheetCode, SheetFault};
pub use indicator::mux_of_indicator;
pub use keyword::Keyword;
pub use limits::{
    LENGTH_LIMIT, MESSAGE_LIMIT, NAME_LIMIT, NODE_LIMIT, ROSTER_LIMIT, SIGNAL_LIMIT, SPN_LIMIT,
    TABLE_LIMIT, VALUE_TEXT_LIMIT,
};
pub use name::{NO_NODE, Name, continues_identifier, is_c_identifier, is_name, starts_identifier};
pub use name_set::NameSet;
pub use payload::PayloadLength;
pub use roster::{Named, Roster};
pub use spn::Spn;
pub use text::Text;
pub use value_type::ValueType;
