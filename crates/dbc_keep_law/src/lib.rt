//! The text that keeps what the reader skips, and its laws.
//!
//! `specs/Kept.antt` is the text: the canonical lines of a sheet, and among them the skipped statements of a source,
//! each verbatim on a line of its own (`specs/Passages.antt`). `specs/Staying.antt` says which of them stay in the text
//! of another sheet, as that of a release. `specs/Found.antt` is a skipped statement as the code finds it again, by its
//! offset and its keyword. `specs/Law.antt` is what holds of all this; it is the contract of a function that does
//! nothing.
//!
//! The proof has three parts. A skipped statement is read the same wherever its words are (`Framing`,
//! `FramedStatements`), and its words are the longest there too (`LongestBeforeEnd`, `LegibleLines`, `Verbatim`,
//! `Standing`). So the lines of a kept text have tokens and statements (`KeptDivides`), and these say the sheet, since
//! what skipped statements say isn't heard (`Unheard`, `KeptSays`, `KeptReads`). The skipped statements of a kept text
//! are those of its source, verbatim (`ExactLines`, `KeptParts`, `KeptAgain`), so it is its own kept text
//! (`KeptIsKept`). Besides, a statement is found by where it ends (`Ends`, `Never`, `Found`), and those that stay are
//! skipped in the other text as well (`Staying`).
#![tactic(auto)]

mod reason;

ghost use Rattle.dbc_keep_law.specs.Law.{EachOnce, KeepsPassed, KeepsSheet, KeptIsKept, KeptIsOne, KeptIsRead, NothingKept};
ghost use Rattle.dbc_keep_law.specs.Law.{StatementsAreFound, StatementsStay};

use dbc_grammar::{statements_say_one_sheet, texts_read_as_one_sheet};
pub use reason::LeavingReason;

/// A source has one kept text at most. It reads as the sheet that the source reads as, with the same passed statements,
/// each once, in the order of their places, and it is its own kept text; without passed statements it is the canonical
/// text. The passed statements are those that are found at their offsets, and those that stay in the text of another
/// sheet are passed there too. The function does nothing; code whose contract needs these laws calls it.
pub fn kept_texts_read_as_their_sheets()
    ensures sheet { KeepsSheet }
    ensures passed { KeepsPassed }
    ensures once { EachOnce }
    ensures again { KeptIsKept }
    ensures one { KeptIsOne }
    ensures nothing { NothingKept }
    ensures found { StatementsAreFound }
    ensures stay { StatementsStay }
    ensures read { KeptIsRead }
{
    texts_read_as_one_sheet();
    statements_say_one_sheet();
}
