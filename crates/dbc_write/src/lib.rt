//! The text of a sheet, as a DBC file.
//!
//! [`text_of`] writes the one canonical text of a sheet: the lines that `dbc_grammar`'s `specs/Canon.antt` lists, each
//! as pieces that are a gap and a token. Everything is appended to one buffer, in one walk over the sheet for each
//! section of the file. The contract of each function states which pieces or lines it appends (`Adds` of
//! `specs/Adding.antt`), so the functions are composed as the lists of the definition are: tokens to lines (`tokens`;
//! `push_all` appends the parts of a line at once), lines to sections (`heading`, `entries`, `messages`, `comments`,
//! `sections`), and these to the text.
//!
//! It fails only if memory runs out. No sheet is refused, and none needs to be clear: everything that a sheet holds is
//! written, and by the grammar law (`dbc_law`) the text reads as this sheet and as no other.
#![tactic(auto)]

mod comments;
mod entries;
mod heading;
mod messages;
mod parts;
mod sections;
mod sheet;
mod signals;
mod tokens;

pub use parts::{
    comment_lines, definitions, spn_default, spn_definition, spn_lines, type_lines, value_lines,
};
pub use sections::has_spn;
pub use sheet::text_of;
