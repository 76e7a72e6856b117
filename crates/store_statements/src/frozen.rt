//! Releases.
ghost use Rattle.std.specs.Prelude.{[], ◌++◌, ◌∷◌, ◌≡◌};
ghost use Rattle.store_tables.specs.Selected.{IsSelected};
ghost use Rattle.store_statements.specs.Rows.{frozen_row, has_net_and_number, is_of_net};
ghost use Rattle.store_statements.specs.Shown.{release_numbers_order, release_numbers_shown, release_order, release_shown};
ghost use Rattle.store_statements.specs.Shown.{releases_order, releases_shown};
ghost use Rattle.store_tables.specs.Frames.{Asks, Edits, OnlyWrites, ReadsOnly};

use crate::row::FrozenRow;
use sqlite::types::{ToSql, ValueRef};
use sqlite::{Alter, Error, Row, Transaction};

/// Adds a release. Gives 1. An error where its key is there.
pub fn insert_frozen<S: Alter>(
    tx: &mut Transaction<'_, S>,
    row: &FrozenRow<'_>,
) -> Result<usize, Error>
    ensures added { Edits S.Store tx.old tx.new result
        (λ t. record t { frozen = t.frozen ++ frozen_row row.now ∷ [] }) }
    ensures rows { Asks S.Store tx.old tx.new result (λ rows t. rows ≡ 1) }
    ensures frame { OnlyWrites S.Store tx.old tx.new }
{
    tx.execute(
        "INSERT INTO frozen VALUES (?1, ?2, ?3)",
        &[
            ValueRef::Text(row.net),
            row.number.to_sql(),
            ValueRef::Blob(row.body),
        ],
    )
}

/// The releases of the network (`number`, `body`), in the order of their numbers.
pub fn select_releases<S: Alter>(tx: &mut Transaction<'_, S>, net: &[u8]) -> Result<Vec<Row>, Error>
    ensures found { Asks S.Store tx.old tx.new result (λ rows t.
        IsSelected (is_of_net net.now) releases_shown releases_order t.frozen rows.items) }
    ensures frame { ReadsOnly S.Store tx.old tx.new result }
{
    tx.query_all(
        "SELECT number, body FROM frozen WHERE net = ?1 ORDER BY number",
        &[ValueRef::Text(net)],
    )
}

/// The numbers of the releases of the network (`number`), ascending.
pub fn select_release_numbers<S: Alter>(
    tx: &mut Transaction<'_, S>,
    net: &[u8],
) -> Result<Vec<Row>, Error>
    ensures found { Asks S.Store tx.old tx.new result (λ rows t.
        IsSelected (is_of_net net.now)
        release_numbers_shown release_numbers_order t.frozen rows.items) }
    ensures frame { ReadsOnly S.Store tx.old tx.new result }
{
    tx.query_all(
        "SELECT number FROM frozen WHERE net = ?1 ORDER BY number",
        &[ValueRef::Text(net)],
    )
}

/// The release of the network with the number, if it is there (`body`).
pub fn select_release<S: Alter>(
    tx: &mut Transaction<'_, S>,
    net: &[u8],
    number: u32,
) -> Result<Vec<Row>, Error>
    ensures found { Asks S.Store tx.old tx.new result (λ rows t.
        IsSelected (has_net_and_number net.now number)
        release_shown release_order t.frozen rows.items) }
    ensures frame { ReadsOnly S.Store tx.old tx.new result }
{
    tx.query_all(
        "SELECT body FROM frozen WHERE net = ?1 AND number = ?2 ORDER BY number",
        &[ValueRef::Text(net), number.to_sql()],
    )
}
