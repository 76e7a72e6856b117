//! Networks.
ghost use Rattle.std.specs.Prelude.{[], filter, length, ◌++◌, ◌∷◌, ◌≡◌};
ghost use Rattle.store_tables.specs.Selected.{IsSelected};
ghost use Rattle.store_statements.specs.Rows.{is_any, is_of_net, net_row, without};
ghost use Rattle.store_statements.specs.Shown.{net_names_order, net_names_shown, net_order, net_shown};
ghost use Rattle.store_tables.specs.Frames.{Asks, Edits, OnlyWrites, ReadsOnly};

use crate::row::NetRow;
use sqlite::types::{ToSql, ValueRef};
use sqlite::{Alter, Error, Row, Transaction};

/// Adds a network. Gives 1. An error where its key is there.
pub fn insert_net<S: Alter>(tx: &mut Transaction<'_, S>, row: &NetRow<'_>) -> Result<usize, Error>
    ensures added { Edits S.Store tx.old tx.new result
        (λ t. record t { net = t.net ++ net_row row.now ∷ [] }) }
    ensures rows { Asks S.Store tx.old tx.new result (λ rows t. rows ≡ 1) }
    ensures frame { OnlyWrites S.Store tx.old tx.new }
{
    tx.execute(
        "INSERT INTO net VALUES (?1, ?2, ?3, ?4, ?5, ?6)",
        &[
            ValueRef::Text(row.name),
            row.kind.to_sql(),
            row.reviews.to_sql(),
            row.phase.to_sql(),
            ValueRef::Text(row.submitter),
            ValueRef::Blob(row.frame),
        ],
    )
}

/// Removes the row of the network, if it is there. Gives how many rows it removed.
pub fn delete_net<S: Alter>(tx: &mut Transaction<'_, S>, name: &[u8]) -> Result<usize, Error>
    ensures removed { Edits S.Store tx.old tx.new result
        (λ t. record t { net = without (is_of_net name.now) t.net }) }
    ensures rows { Asks S.Store tx.old tx.new result
        (λ rows t. rows ≡ length (filter (is_of_net name.now) t.net)) }
    ensures frame { OnlyWrites S.Store tx.old tx.new }
{
    tx.execute("DELETE FROM net WHERE name = ?1", &[ValueRef::Text(name)])
}

/// The names of all networks (`name`), in their order.
pub fn select_net_names<S: Alter>(tx: &mut Transaction<'_, S>) -> Result<Vec<Row>, Error>
    ensures found { Asks S.Store tx.old tx.new result
        (λ rows t. IsSelected is_any net_names_shown net_names_order t.net rows.items) }
    ensures frame { ReadsOnly S.Store tx.old tx.new result }
{
    tx.query_all("SELECT name FROM net ORDER BY name", &[])
}

/// The row of the network, if it is there (`kind`, `reviews`, `phase`, `submitter`, `frame`).
pub fn select_net<S: Alter>(tx: &mut Transaction<'_, S>, name: &[u8]) -> Result<Vec<Row>, Error>
    ensures found { Asks S.Store tx.old tx.new result
        (λ rows t. IsSelected (is_of_net name.now) net_shown net_order t.net rows.items) }
    ensures frame { ReadsOnly S.Store tx.old tx.new result }
{
    tx.query_all(
        "SELECT kind, reviews, phase, submitter, frame FROM net WHERE name = ?1 ORDER BY name",
        &[ValueRef::Text(name)],
    )
}
