//! The tokens of a DBC text, one after the other.
//!
//! A [`Lexer`] reads a text from its first byte on, in one pass, copies nothing and takes no memory. Each call of
//! [`Lexer::next_token`] gives the next [`Token`], a slice of the text with its offset; or `None` at the end; or a
//! [`ReadFault`] where no token begins, and then each further call gives the same fault.
//!
//! Which tokens a text has is defined in `dbc_grammar`. Contracts see a lexer as what is left to read: the tokens, and
//! the fault after them (`Lexing`). The law `dbc_grammar::tokens_are_exact` states that these are the tokens of the
//! text, each as long as it can be with only gaps between them, that they are slices of it in order, and that a fault
//! comes exactly where no token begins. [`ReadCode`] has all faults of reading a DBC text, including those of the
//! layers above.
#![tactic(auto)]

mod fault;
mod kinds;
mod lexer;
mod spelling;
mod token;

pub use fault::{ReadCode, ReadFault};
pub use lexer::Lexer;
pub use token::Token;
