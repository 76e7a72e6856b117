//! The grammar law of DBC text: what is written reads as itself, and as nothing else.
//!
//! The canonical text of every sheet (`dbc_grammar`'s `specs/Canon.antt`) has tokens, these divide into statements, and
//! the statements say the sheet; and since a text reads as one sheet at most, they say no other. So reading the text
//! gives back the network from which it was written (nodes, tables, messages, signals, comments), and no other.
//! Besides, the text has only fixed lines that contribute nothing to a sheet: `NS_`, `BS_`, and the declaration of the
//! attribute `SPN` if it is used. The law is the contract of a function that does nothing.
//!
//! Its proof follows the steps of reading, in three parts, which `proofs/Law.antt` joins:
//!
//! - The text has tokens, one for each piece of its lines: `Tokens`. A spelling is the longest if what follows doesn't
//!   continue it (`TokenLengths`, `TokenEnds`); pieces and lines are legible if that holds of each (`TokenLegible`,
//!   `TokenPieces`, `TokenLines`), as it does in the sections (`TokenHeading`, `TokenMessages`, `TokenComments`,
//!   `TokenAttached`); and legible lines have their tokens (`TokensOfLines`).
//! - These tokens form the statements that the lines write: `Statements`. First come single tokens and fields
//!   (`StatementRules`, `StatementWords`, `StatementValues`, `StatementNodes`, `StatementEnds`), then lines
//!   (`StatementLines`), and then the sections (`StatementHeading`, `StatementSignals`, `StatementMessages`,
//!   `StatementComments`, `StatementAttached`).
//! - These statements say the sheet: `Saying`. Each kind of statement (`SayingContents`, `SayingKinds`) comes from one
//!   section (`SayingEntries`, `SayingSections`), and the others have none of it (`SayingOtherKinds`).
//!
//! The parts share two files: `PieceTokens` defines which tokens belong to which pieces, and `Contents` lists the
//! contents of the statements. `DecimalPieces` and `MessageNumbers` serve the first two parts.
#![tactic(auto)]

ghost use Rattle.dbc_law.specs.Law.{GrammarLaw};

use dbc_grammar::texts_read_as_one_sheet;

/// The canonical text of every well-formed sheet reads as that sheet, and as no other. The function does nothing; code
/// whose contract needs the law calls it.
pub fn canonical_texts_read_as_their_sheets()
    ensures { GrammarLaw }
{
    texts_read_as_one_sheet();
}
