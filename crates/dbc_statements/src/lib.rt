//! The statements of a DBC text.
//!
//! [`Statements`] gives the [`Statement`]s of a text one by one, and [`statements_of`] all of them. Which statements
//! there are is defined in `dbc_grammar`'s `specs/Grammar.antt`, as rules, and each function here reads what one of
//! them describes (`Reads` of `specs/Reading.antt`). A statement has a [`Content`], which owns its parts, those of a
//! sheet, and has the offsets that faults need. The names that it cites are slices of the text. Contracts see the
//! statements of the grammar (`statements_of` of `specs/Statement.antt`).
//!
//! A text is read once, token by token (`tokens`). A byte with which no token begins is reported before any other
//! fault, wherever it is, so after the last statement that was begun the rest of the text is searched for one
//! (`fault_after`). The fields are read from the tokens (`words`, `fields`, `names`, `entries`), the rest of a
//! statement after each keyword from the fields (`line`, `heading`, `messages`, `signals`, `comments`, `attached`,
//! `passing`), and a statement is a keyword with its rest (`reading`, `dividing`). What the statements mean together,
//! and whether that is a sheet, is left to the next layer.
#![tactic(auto)]

mod attached;
mod comments;
mod dividing;
mod ended_content;
mod entries;
mod fields;
mod heading;
mod messages;
mod names;
mod passing;
mod reading;
mod signals;
mod statement;
mod tokens;
mod words;

pub use dividing::Statements;
pub use entries::Entries;
pub use reading::statements_of;
pub use statement::{
    CitedSignal, Content, MessageLine, NodeName, SignalOffsets, Statement, TableLine,
};
