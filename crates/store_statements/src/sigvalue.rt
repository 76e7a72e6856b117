//! Rows of `sigvalue`.
ghost use Rattle.std.specs.Prelude.{[], filter, length, ◌++◌, ◌∷◌, ◌≡◌};
ghost use Rattle.store_tables.specs.Selected.{IsSelected};
ghost use Rattle.store_statements.specs.Rows.{has_net_and_number, has_place_of, is_of_net, sigvalue_row, without};
ghost use Rattle.store_statements.specs.Shown.{sigvalues_order, sigvalues_shown};
ghost use Rattle.sqlite_sql.specs.Aggregate.{count};
ghost use Rattle.store_tables.specs.Frames.{Asks, Edits, OnlyWrites, ReadsOnly};

use crate::row::SigValueRow;
use sqlite::types::{ToSql, ValueRef};
use sqlite::{Alter, Error, Row, Transaction};

/// Adds the text of a value of a signal. Gives 1. An error where its key is there.
pub fn insert_sigvalue<S: Alter>(
    tx: &mut Transaction<'_, S>,
    row: &SigValueRow<'_>,
) -> Result<usize, Error>
    ensures added { Edits S.Store tx.old tx.new result
        (λ t. record t { sigvalue = t.sigvalue ++ sigvalue_row row.now ∷ [] }) }
    ensures rows { Asks S.Store tx.old tx.new result (λ rows t. rows ≡ 1) }
    ensures frame { OnlyWrites S.Store tx.old tx.new }
{
    tx.execute(
        "INSERT INTO sigvalue VALUES (?1, ?2, ?3, ?4, ?5, ?6)",
        &[
            ValueRef::Text(row.net),
            row.number.to_sql(),
            row.place.to_sql(),
            row.index.to_sql(),
            ValueRef::Text(row.value),
            ValueRef::Blob(row.text),
        ],
    )
}

/// Removes the rows of the network's message with the number. Gives how many rows it removed.
pub fn delete_sigvalues<S: Alter>(
    tx: &mut Transaction<'_, S>,
    net: &[u8],
    number: u32,
) -> Result<usize, Error>
    ensures removed { Edits S.Store tx.old tx.new result
        (λ t. record t { sigvalue = without (has_net_and_number net.now number) t.sigvalue }) }
    ensures rows { Asks S.Store tx.old tx.new result
        (λ rows t. rows ≡ length (filter (has_net_and_number net.now number) t.sigvalue)) }
    ensures frame { OnlyWrites S.Store tx.old tx.new }
{
    tx.execute(
        "DELETE FROM sigvalue WHERE net = ?1 AND number = ?2",
        &[ValueRef::Text(net), number.to_sql()],
    )
}

/// Removes the rows of the signal at the place of the network's message with the number. Gives how many rows it
/// removed.
pub fn delete_sigvalues_at<S: Alter>(
    tx: &mut Transaction<'_, S>,
    net: &[u8],
    number: u32,
    place: u32,
) -> Result<usize, Error>
    ensures removed { Edits S.Store tx.old tx.new result
        (λ t. record t { sigvalue = without (has_place_of net.now number place) t.sigvalue }) }
    ensures rows { Asks S.Store tx.old tx.new result
        (λ rows t. rows ≡ length (filter (has_place_of net.now number place) t.sigvalue)) }
    ensures frame { OnlyWrites S.Store tx.old tx.new }
{
    tx.execute(
        "DELETE FROM sigvalue WHERE net = ?1 AND number = ?2 AND place = ?3",
        &[ValueRef::Text(net), number.to_sql(), place.to_sql()],
    )
}

/// The value texts of the signals of the network's message with the number (`place`, `value`, `words`), in the order of
/// the signals' places and then of their seats.
pub fn select_sigvalues<S: Alter>(
    tx: &mut Transaction<'_, S>,
    net: &[u8],
    number: u32,
) -> Result<Vec<Row>, Error>
    ensures found { Asks S.Store tx.old tx.new result (λ rows t. IsSelected
        (has_net_and_number net.now number) sigvalues_shown sigvalues_order t.sigvalue rows.items) }
    ensures frame { ReadsOnly S.Store tx.old tx.new result }
{
    tx.query_all(
        "SELECT place, value, words FROM sigvalue WHERE net = ?1 AND number = ?2 ORDER BY place, seat",
        &[ValueRef::Text(net), number.to_sql()],
    )
}

/// How many value texts the signals of the network's live messages have, as one row of one number.
pub fn count_sigvalues<S: Alter>(tx: &mut Transaction<'_, S>, net: &[u8]) -> Result<Vec<Row>, Error>
    ensures found { Asks S.Store tx.old tx.new result (λ rows t.
        rows.items ≡ (count (length (filter (is_of_net net.now) t.sigvalue)) ∷ []) ∷ []) }
    ensures frame { ReadsOnly S.Store tx.old tx.new result }
{
    tx.query_all(
        "SELECT count(*) FROM sigvalue WHERE net = ?1",
        &[ValueRef::Text(net)],
    )
}
