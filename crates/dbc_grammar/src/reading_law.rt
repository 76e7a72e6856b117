//! A law about what DBC texts read as. It is about the definitions; it involves no code.
ghost use Rattle.dbc_grammar.specs.Reads.{ReadsAsOneAtMost};

use crate::saying_law::statements_say_one_sheet;
use crate::statement_law::divisions_are_single;
use crate::token_law::tokens_are_exact;

/// A DBC text reads as one sheet at most, with one list of skipped statements. The function does nothing.
pub fn texts_read_as_one_sheet()
    ensures { ReadsAsOneAtMost }
{
    tokens_are_exact();
    divisions_are_single();
    statements_say_one_sheet();
}
