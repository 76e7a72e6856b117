//! What becomes of a network depends on its own history alone.
ghost use Rattle.office_law.specs.Histories.{OneHistoryOneNetwork, OutcomesAreLeft, RepliesApart};

use dbc_grammar::texts_read_as_one_sheet;

/// After a command the network of its name is the one that its outcome leaves; after a refusal it is as it was.
pub fn outcomes_are_left()
    ensures { OutcomesAreLeft }
{}

/// A command that doesn't read the book is answered alike in two offices that have one network of its name, but for the
/// faults of a file that reads as no sheet.
pub fn replies_are_apart()
    ensures { RepliesApart }
{
    texts_read_as_one_sheet();
}

/// What becomes of a network depends on the commands on it and on what they are answered, and on no other network.
pub fn one_history_leaves_one_network()
    ensures { OneHistoryOneNetwork }
{
    texts_read_as_one_sheet();
}
