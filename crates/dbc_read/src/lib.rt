//! Reading a DBC text: the sheet that it reads as, and the statements that are skipped.
//!
//! [`read`] returns the one sheet that the text reads as, or a fault if it reads as none (`ReadsAs` of `dbc_grammar`'s
//! `specs/Reads.antt`). `dbc_statements` divides the text; here its statements are put together.
//!
//! Statements are gathered as they come (`one_by_one`), so none of them is kept. First come those up to the first that
//! cites a node, a message or a signal: their contents are gathered by kind (`gathered`). Then messages are found by
//! number, in a set of the kit's `indexmap` (`numbers`), and signals by name among those of their message (`finding`):
//! few names are compared one by one; among many one is guessed (`guesses`), and if the guess is wrong, searched for in
//! their ascending order (`orders`). What a statement attaches to a signal is set there at once (`attaching`,
//! `settling`), so that the last one counts; if there is no such signal, the statement is skipped.
//!
//! If a node or a message is defined after something was cited, what is cited is known only at the end. Then nothing
//! but definitions is gathered up to there, and a second reading gathers all else (`late`).
//!
//! Messages are built by moving their parts (`signals`, `messages`), and the sheet by its own calls (`sheets`), which
//! refuse what can't be in one. Then the text is read once more, for its definitions alone (`definitions`), since it is
//! they that are at fault: the first fault is searched for among them (`first_fault`), with the offsets of signals
//! (`described`). So it is for a file that can't be gathered as it comes: one that uses a number twice, say.
//!
//! Only where a statement lists too many texts for values, the definitions don't show whether that is a fault. Such a
//! file is read into a list of all statements. The indices of what they cite are found by binary search (`keys`,
//! `lookup`, `lookups`) before any of them is gathered; what is attached to signals is listed at these indices,
//! searched for a fault, and then moved into the signals (`feed`, `feeding`).
#![tactic(auto)]

mod attaching;
mod definitions;
mod described;
mod feed;
mod feeding;
mod finding;
mod first_fault;
mod gathered;
mod guesses;
mod items;
mod keys;
mod late;
mod lookup;
mod lookups;
mod messages;
mod numbers;
mod one_by_one;
mod orders;
mod passed;
mod reading;
mod refusal;
mod settling;
mod sheets;
mod signals;

pub use dbc_lex::{ReadCode, ReadFault};
pub use passed::Passed;
pub use reading::{Reading, read};
