//! Rows of `sig`.
ghost use Rattle.std.specs.Prelude.{[], filter, length, ◌++◌, ◌∷◌, ◌≡◌};
ghost use Rattle.store_tables.specs.Selected.{IsFirstSelected, IsSelected};
ghost use Rattle.store_statements.specs.Rows.{has_name_of, has_net_and_number, has_place_of, is_of_net, sig_row, without};
ghost use Rattle.store_statements.specs.Shown.{last_place_order, last_place_shown, sigs_order, sigs_shown};
ghost use Rattle.sqlite_sql.specs.Aggregate.{count};
ghost use Rattle.store_tables.specs.Frames.{Asks, Edits, OnlyWrites, ReadsOnly};

use crate::row::SigRow;
use sqlite::types::{ToSql, ValueRef};
use sqlite::{Alter, Error, Row, Transaction};

/// Adds a signal of a live message, without its receivers and value texts. Gives 1. An error where its key is there.
pub fn insert_sig<S: Alter>(tx: &mut Transaction<'_, S>, row: &SigRow<'_>) -> Result<usize, Error>
    ensures added { Edits S.Store tx.old tx.new result
        (λ t. record t { sig = t.sig ++ sig_row row.now ∷ [] }) }
    ensures rows { Asks S.Store tx.old tx.new result (λ rows t. rows ≡ 1) }
    ensures frame { OnlyWrites S.Store tx.old tx.new }
{
    tx.execute(
        "INSERT INTO sig VALUES (?1, ?2, ?3, ?4, ?5, ?6, ?7, ?8, ?9, ?10, ?11, ?12, ?13, ?14, ?15, ?16, ?17)",
        &[
            ValueRef::Text(row.net),
            row.number.to_sql(),
            row.place.to_sql(),
            ValueRef::Text(row.name),
            row.start.to_sql(),
            row.size.to_sql(),
            row.motorola.to_sql(),
            row.signed.to_sql(),
            row.mux.value(),
            ValueRef::Text(row.factor),
            ValueRef::Text(row.offset),
            ValueRef::Text(row.minimum),
            ValueRef::Text(row.maximum),
            ValueRef::Blob(row.unit),
            ValueRef::Blob(row.comment),
            row.spn.to_sql(),
            row.value_type.to_sql(),
        ],
    )
}

/// Removes the rows of the network's message with the number. Gives how many rows it removed.
pub fn delete_sigs<S: Alter>(
    tx: &mut Transaction<'_, S>,
    net: &[u8],
    number: u32,
) -> Result<usize, Error>
    ensures removed { Edits S.Store tx.old tx.new result
        (λ t. record t { sig = without (has_net_and_number net.now number) t.sig }) }
    ensures rows { Asks S.Store tx.old tx.new result
        (λ rows t. rows ≡ length (filter (has_net_and_number net.now number) t.sig)) }
    ensures frame { OnlyWrites S.Store tx.old tx.new }
{
    tx.execute(
        "DELETE FROM sig WHERE net = ?1 AND number = ?2",
        &[ValueRef::Text(net), number.to_sql()],
    )
}

/// Removes the rows of the signal at the place of the network's message with the number. Gives how many rows it
/// removed.
pub fn delete_sig_at<S: Alter>(
    tx: &mut Transaction<'_, S>,
    net: &[u8],
    number: u32,
    place: u32,
) -> Result<usize, Error>
    ensures removed { Edits S.Store tx.old tx.new result
        (λ t. record t { sig = without (has_place_of net.now number place) t.sig }) }
    ensures rows { Asks S.Store tx.old tx.new result
        (λ rows t. rows ≡ length (filter (has_place_of net.now number place) t.sig)) }
    ensures frame { OnlyWrites S.Store tx.old tx.new }
{
    tx.execute(
        "DELETE FROM sig WHERE net = ?1 AND number = ?2 AND place = ?3",
        &[ValueRef::Text(net), number.to_sql(), place.to_sql()],
    )
}

/// The signals of the network's message with the number, in the order of their places: all columns but `net` and
/// `number`.
pub fn select_sigs<S: Alter>(
    tx: &mut Transaction<'_, S>,
    net: &[u8],
    number: u32,
) -> Result<Vec<Row>, Error>
    ensures found { Asks S.Store tx.old tx.new result (λ rows t.
        IsSelected (has_net_and_number net.now number) sigs_shown sigs_order t.sig rows.items) }
    ensures frame { ReadsOnly S.Store tx.old tx.new result }
{
    tx.query_all(
        "SELECT place, name, start, size, motorola, signed, mux, factor, shift, least, most, unit, comment, spn, label FROM sig WHERE net = ?1 AND number = ?2 ORDER BY place",
        &[ValueRef::Text(net), number.to_sql()],
    )
}

/// The signals of the name, of the network's message with the number, in the order of their places: the columns of
/// [`select_sigs`].
pub fn select_sigs_named<S: Alter>(
    tx: &mut Transaction<'_, S>,
    net: &[u8],
    number: u32,
    name: &[u8],
) -> Result<Vec<Row>, Error>
    ensures found { Asks S.Store tx.old tx.new result (λ rows t.
        IsSelected (has_name_of net.now number name.now) sigs_shown sigs_order t.sig rows.items) }
    ensures frame { ReadsOnly S.Store tx.old tx.new result }
{
    tx.query_all(
        "SELECT place, name, start, size, motorola, signed, mux, factor, shift, least, most, unit, comment, spn, label FROM sig WHERE net = ?1 AND number = ?2 AND name = ?3 ORDER BY place",
        &[ValueRef::Text(net), number.to_sql(), ValueRef::Text(name)],
    )
}

/// The greatest `place` of the signals of the network's message with the number, as one row of one number; no row where
/// it has no signal.
pub fn select_last_place<S: Alter>(
    tx: &mut Transaction<'_, S>,
    net: &[u8],
    number: u32,
) -> Result<Vec<Row>, Error>
    ensures found { Asks S.Store tx.old tx.new result (λ rows t. IsFirstSelected
        (has_net_and_number net.now number) last_place_shown last_place_order t.sig rows.items) }
    ensures frame { ReadsOnly S.Store tx.old tx.new result }
{
    tx.query_all(
        "SELECT place FROM sig WHERE net = ?1 AND number = ?2 ORDER BY place DESC LIMIT 1",
        &[ValueRef::Text(net), number.to_sql()],
    )
}

/// How many signals the network's live messages have, as one row of one number.
pub fn count_sigs<S: Alter>(tx: &mut Transaction<'_, S>, net: &[u8]) -> Result<Vec<Row>, Error>
    ensures found { Asks S.Store tx.old tx.new result
        (λ rows t. rows.items ≡ (count (length (filter (is_of_net net.now) t.sig)) ∷ []) ∷ []) }
    ensures frame { ReadsOnly S.Store tx.old tx.new result }
{
    tx.query_all(
        "SELECT count(*) FROM sig WHERE net = ?1",
        &[ValueRef::Text(net)],
    )
}
