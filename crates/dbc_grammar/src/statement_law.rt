//! Laws about the statements of a DBC file. The functions do nothing: their contracts are the laws.
ghost use Rattle.dbc_grammar.specs.Division.{DivisionsAreParts, OneDivision, OneParting, OneStatement};
ghost use Rattle.dbc_grammar.specs.Division.{ReadingIsExact, StatementsAreRuns};
ghost use Rattle.dbc_grammar.specs.Fields.{NumbersAreDecimals, NumbersAreIdentifiers};

use decimal::readings_are_computed;

/// Fix a first token. Of all runs of tokens that start there and are followed by the end of the file or by a keyword
/// other than `SG_`, at most one is a statement, and it can be read in only one way. What a statement leaves is what
/// follows such a run, which is not empty.
pub fn statements_are_single()
    ensures one { OneStatement }
    ensures runs { StatementsAreRuns }
{}

/// Tokens can be divided into statements in at most one way: the statements are determined, and so are their runs of
/// tokens.
pub fn divisions_are_single()
    ensures one { OneDivision }
    ensures parts { DivisionsAreParts }
    ensures runs { OneParting }
{}

/// The computed reading finds the division if there is one, and nothing if there is none.
pub fn reading_is_exact()
    ensures { ReadingIsExact }
{}

/// The numbers that a message can have are the DBC numbers of identifiers.
pub fn message_numbers_are_identifiers()
    ensures { NumbersAreIdentifiers }
{}

/// The decimals that the grammar reads are those that number tokens write, by the equation of values.
pub fn numbers_are_decimals()
    ensures { NumbersAreDecimals }
{
    readings_are_computed();
}
