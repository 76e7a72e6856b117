//! Live messages as bodies, the form of profile 1.
ghost use Rattle.std.specs.Prelude.{[], length, ◌≡◌};
ghost use Rattle.store_tables.specs.Selected.{IsSelected};
ghost use Rattle.store_statements.specs.Rows.{is_of_net};
ghost use Rattle.store_statements.specs.Shown.{messages_order, messages_shown};
ghost use Rattle.store_tables.specs.Frames.{Asks, Edits, OnlyWrites, ReadsOnly};

use sqlite::types::ValueRef;
use sqlite::{Alter, Error, Row, Transaction};

/// Removes all messages of all networks. Gives how many rows it removed.
pub fn clear_messages<S: Alter>(tx: &mut Transaction<'_, S>) -> Result<usize, Error>
    ensures removed { Edits S.Store tx.old tx.new result (λ t. record t { message = [] }) }
    ensures rows { Asks S.Store tx.old tx.new result (λ rows t. rows ≡ length t.message) }
    ensures frame { OnlyWrites S.Store tx.old tx.new }
{
    tx.execute("DELETE FROM message", &[])
}

/// The live messages of the network (`owner`, `body`; the body has the number and the name), in the order of their
/// numbers.
pub fn select_messages<S: Alter>(tx: &mut Transaction<'_, S>, net: &[u8]) -> Result<Vec<Row>, Error>
    ensures found { Asks S.Store tx.old tx.new result (λ rows t.
        IsSelected (is_of_net net.now) messages_shown messages_order t.message rows.items) }
    ensures frame { ReadsOnly S.Store tx.old tx.new result }
{
    tx.query_all(
        "SELECT owner, body FROM message WHERE net = ?1 ORDER BY number",
        &[ValueRef::Text(net)],
    )
}
