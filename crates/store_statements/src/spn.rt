//! Suspect parameter numbers that were ever used.
ghost use Rattle.std.specs.Prelude.{filter, length, ◌≡◌};
ghost use Rattle.sqlite.specs.Tree.{put_row};
ghost use Rattle.store_tables.specs.Selected.{IsSelected};
ghost use Rattle.store_statements.specs.Rows.{is_any, is_number, spn_row, without};
ghost use Rattle.store_statements.specs.Shown.{spns_order, spns_shown};
ghost use Rattle.store_tables.specs.Frames.{Asks, Edits, OnlyWrites, ReadsOnly};

use sqlite::types::ToSql;
use sqlite::{Alter, Error, Row, Transaction};

/// Adds a used number. Gives 1. An error where its key is there.
pub fn insert_spn<S: Alter>(tx: &mut Transaction<'_, S>, number: u32) -> Result<usize, Error>
    ensures added { Edits S.Store tx.old tx.new result
        (λ t. record t { spn = put_row (spn_row number) t.spn }) }
    ensures rows { Asks S.Store tx.old tx.new result (λ rows t. rows ≡ 1) }
    ensures frame { OnlyWrites S.Store tx.old tx.new }
{
    tx.execute("INSERT INTO spn VALUES (?1)", &[number.to_sql()])
}

/// Removes the number, if it is there. Gives how many rows it removed.
pub fn delete_spn<S: Alter>(tx: &mut Transaction<'_, S>, number: u32) -> Result<usize, Error>
    ensures removed { Edits S.Store tx.old tx.new result
        (λ t. record t { spn = without (is_number number) t.spn }) }
    ensures rows { Asks S.Store tx.old tx.new result
        (λ rows t. rows ≡ length (filter (is_number number) t.spn)) }
    ensures frame { OnlyWrites S.Store tx.old tx.new }
{
    tx.execute("DELETE FROM spn WHERE number = ?1", &[number.to_sql()])
}

/// The numbers that were ever used (`number`), ascending.
pub fn select_spns<S: Alter>(tx: &mut Transaction<'_, S>) -> Result<Vec<Row>, Error>
    ensures found { Asks S.Store tx.old tx.new result
        (λ rows t. IsSelected is_any spns_shown spns_order t.spn rows.items) }
    ensures frame { ReadsOnly S.Store tx.old tx.new result }
{
    tx.query_all("SELECT number FROM spn ORDER BY number", &[])
}
