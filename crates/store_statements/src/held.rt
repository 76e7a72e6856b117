//! Held numbers.
ghost use Rattle.std.specs.Prelude.{[], filter, length, ◌++◌, ◌∷◌, ◌≡◌};
ghost use Rattle.store_tables.specs.Selected.{IsSelected};
ghost use Rattle.store_statements.specs.Rows.{has_net_and_number, has_number_between, held_row, is_of_net, without};
ghost use Rattle.store_statements.specs.Shown.{held_order, held_shown};
ghost use Rattle.store_tables.specs.Frames.{Asks, Edits, OnlyWrites, ReadsOnly};

use sqlite::types::{ToSql, ValueRef};
use sqlite::{Alter, Error, Row, Transaction};

/// Adds a held number. Gives 1. An error where its key is there.
pub fn insert_held<S: Alter>(
    tx: &mut Transaction<'_, S>,
    net: &[u8],
    number: u32,
) -> Result<usize, Error>
    ensures added { Edits S.Store tx.old tx.new result
        (λ t. record t { held = t.held ++ held_row net.now number ∷ [] }) }
    ensures rows { Asks S.Store tx.old tx.new result (λ rows t. rows ≡ 1) }
    ensures frame { OnlyWrites S.Store tx.old tx.new }
{
    tx.execute(
        "INSERT INTO held VALUES (?1, ?2)",
        &[ValueRef::Text(net), number.to_sql()],
    )
}

/// Removes the held number of the network, if it is there. Gives how many rows it removed.
pub fn delete_held<S: Alter>(
    tx: &mut Transaction<'_, S>,
    net: &[u8],
    number: u32,
) -> Result<usize, Error>
    ensures removed { Edits S.Store tx.old tx.new result
        (λ t. record t { held = without (has_net_and_number net.now number) t.held }) }
    ensures rows { Asks S.Store tx.old tx.new result
        (λ rows t. rows ≡ length (filter (has_net_and_number net.now number) t.held)) }
    ensures frame { OnlyWrites S.Store tx.old tx.new }
{
    tx.execute(
        "DELETE FROM held WHERE net = ?1 AND number = ?2",
        &[ValueRef::Text(net), number.to_sql()],
    )
}

/// The held numbers of the network (`number`), ascending.
pub fn select_held<S: Alter>(tx: &mut Transaction<'_, S>, net: &[u8]) -> Result<Vec<Row>, Error>
    ensures found { Asks S.Store tx.old tx.new result
        (λ rows t. IsSelected (is_of_net net.now) held_shown held_order t.held rows.items) }
    ensures frame { ReadsOnly S.Store tx.old tx.new result }
{
    tx.query_all(
        "SELECT number FROM held WHERE net = ?1 ORDER BY number",
        &[ValueRef::Text(net)],
    )
}

/// The held numbers of the network from the first to the last (`number`), ascending.
pub fn select_held_numbers<S: Alter>(
    tx: &mut Transaction<'_, S>,
    net: &[u8],
    first: u32,
    last: u32,
) -> Result<Vec<Row>, Error>
    ensures found { Asks S.Store tx.old tx.new result (λ rows t.
        IsSelected (has_number_between net.now first last)
        held_shown held_order t.held rows.items) }
    ensures frame { ReadsOnly S.Store tx.old tx.new result }
{
    tx.query_all(
        "SELECT number FROM held WHERE net = ?1 AND number >= ?2 AND number <= ?3 ORDER BY number",
        &[ValueRef::Text(net), first.to_sql(), last.to_sql()],
    )
}
