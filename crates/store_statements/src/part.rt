//! Answers of parts of bundles.
ghost use Rattle.std.specs.Prelude.{[], ◌++◌, ◌∷◌, ◌≡◌};
ghost use Rattle.store_tables.specs.Selected.{IsSelected};
ghost use Rattle.store_statements.specs.Rows.{has_two_texts, part_row};
ghost use Rattle.store_statements.specs.Shown.{parts_order, parts_shown};
ghost use Rattle.store_tables.specs.Frames.{Asks, Edits, OnlyWrites, ReadsOnly};

use crate::row::PartRow;
use sqlite::types::{ToSql, ValueRef};
use sqlite::{Alter, Error, Row, Transaction};

/// Adds what a part is answered. Gives 1. An error where its key is there.
pub fn insert_part<S: Alter>(tx: &mut Transaction<'_, S>, row: &PartRow<'_>) -> Result<usize, Error>
    ensures added { Edits S.Store tx.old tx.new result
        (λ t. record t { part = t.part ++ part_row row.now ∷ [] }) }
    ensures rows { Asks S.Store tx.old tx.new result (λ rows t. rows ≡ 1) }
    ensures frame { OnlyWrites S.Store tx.old tx.new }
{
    tx.execute(
        "INSERT INTO part VALUES (?1, ?2, ?3, ?4, ?5, ?6)",
        &[
            ValueRef::Text(row.team),
            ValueRef::Text(row.key),
            row.place.to_sql(),
            row.kind.to_sql(),
            row.a.to_sql(),
            row.b.to_sql(),
        ],
    )
}

/// What the parts of the bundle are answered that the team requested under the key (`kind`, `a`), in order.
pub fn select_parts<S: Alter>(
    tx: &mut Transaction<'_, S>,
    team: &[u8],
    key: &[u8],
) -> Result<Vec<Row>, Error>
    ensures found { Asks S.Store tx.old tx.new result (λ rows t.
        IsSelected (has_two_texts team.now key.now) parts_shown parts_order t.part rows.items) }
    ensures frame { ReadsOnly S.Store tx.old tx.new result }
{
    tx.query_all(
        "SELECT kind, a FROM part WHERE team = ?1 AND key = ?2 ORDER BY place",
        &[ValueRef::Text(team), ValueRef::Text(key)],
    )
}
