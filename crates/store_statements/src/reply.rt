//! Replies to requests.
ghost use Rattle.std.specs.Prelude.{[], ◌++◌, ◌∷◌, ◌≡◌};
ghost use Rattle.store_tables.specs.Selected.{IsSelected};
ghost use Rattle.store_statements.specs.Rows.{has_two_texts, is_of_team, reply_row};
ghost use Rattle.store_statements.specs.Shown.{keys_order, keys_shown, reply_order, reply_shown};
ghost use Rattle.store_tables.specs.Frames.{Asks, Edits, OnlyWrites, ReadsOnly};

use crate::row::ReplyRow;
use sqlite::types::{ToSql, ValueRef};
use sqlite::{Alter, Error, Row, Transaction};

/// Adds a reply. Gives 1. An error where its key is there.
pub fn insert_reply<S: Alter>(
    tx: &mut Transaction<'_, S>,
    row: &ReplyRow<'_>,
) -> Result<usize, Error>
    ensures added { Edits S.Store tx.old tx.new result
        (λ t. record t { reply = t.reply ++ reply_row row.now ∷ [] }) }
    ensures rows { Asks S.Store tx.old tx.new result (λ rows t. rows ≡ 1) }
    ensures frame { OnlyWrites S.Store tx.old tx.new }
{
    tx.execute(
        "INSERT INTO reply VALUES (?1, ?2, ?3, ?4, ?5, ?6, ?7)",
        &[
            ValueRef::Text(row.team),
            ValueRef::Text(row.key),
            ValueRef::Blob(row.content),
            row.kind.to_sql(),
            row.a.to_sql(),
            row.b.to_sql(),
            row.c.to_sql(),
        ],
    )
}

/// The reply to the request of the team with the key, if it is there (`content`, `kind`, `a`, `b`, `c`).
pub fn select_reply<S: Alter>(
    tx: &mut Transaction<'_, S>,
    team: &[u8],
    key: &[u8],
) -> Result<Vec<Row>, Error>
    ensures found { Asks S.Store tx.old tx.new result (λ rows t.
        IsSelected (has_two_texts team.now key.now) reply_shown reply_order t.reply rows.items) }
    ensures frame { ReadsOnly S.Store tx.old tx.new result }
{
    tx.query_all(
        "SELECT content, kind, a, b, c FROM reply WHERE team = ?1 AND key = ?2 ORDER BY key",
        &[ValueRef::Text(team), ValueRef::Text(key)],
    )
}

/// The keys of the team's requests (`key`), in the order of their bytes.
pub fn select_keys<S: Alter>(tx: &mut Transaction<'_, S>, team: &[u8]) -> Result<Vec<Row>, Error>
    ensures found { Asks S.Store tx.old tx.new result (λ rows t.
        IsSelected (is_of_team team.now) keys_shown keys_order t.reply rows.items) }
    ensures frame { ReadsOnly S.Store tx.old tx.new result }
{
    tx.query_all(
        "SELECT key FROM reply WHERE team = ?1 ORDER BY key",
        &[ValueRef::Text(team)],
    )
}
