//! Blocks of numbers.
ghost use Rattle.std.specs.Prelude.{[], filter, length, ◌++◌, ◌∷◌, ◌≡◌};
ghost use Rattle.store_tables.specs.Selected.{IsSelected};
ghost use Rattle.store_statements.specs.Rows.{block_row, is_block, is_of_form, is_of_net, without};
ghost use Rattle.store_statements.specs.Shown.{blocks_of_form_order, blocks_of_form_shown, blocks_order, blocks_shown};
ghost use Rattle.store_tables.specs.Frames.{Asks, Edits, OnlyWrites, ReadsOnly};

use crate::row::BlockRow;
use sqlite::types::{ToSql, ValueRef};
use sqlite::{Alter, Error, Row, Transaction};

/// Adds a block. Gives 1. An error where its key is there.
pub fn insert_block<S: Alter>(
    tx: &mut Transaction<'_, S>,
    row: &BlockRow<'_>,
) -> Result<usize, Error>
    ensures added { Edits S.Store tx.old tx.new result
        (λ t. record t { block = t.block ++ block_row row.now ∷ [] }) }
    ensures rows { Asks S.Store tx.old tx.new result (λ rows t. rows ≡ 1) }
    ensures frame { OnlyWrites S.Store tx.old tx.new }
{
    tx.execute(
        "INSERT INTO block VALUES (?1, ?2, ?3, ?4, ?5)",
        &[
            ValueRef::Text(row.net),
            row.form.to_sql(),
            row.first.to_sql(),
            row.last.to_sql(),
            ValueRef::Text(row.team),
        ],
    )
}

/// Removes the block of the network with the form and the first number, if it is there. Gives how many rows it removed.
pub fn delete_block<S: Alter>(
    tx: &mut Transaction<'_, S>,
    net: &[u8],
    form: u32,
    first: u32,
) -> Result<usize, Error>
    ensures removed { Edits S.Store tx.old tx.new result
        (λ t. record t { block = without (is_block net.now form first) t.block }) }
    ensures rows { Asks S.Store tx.old tx.new result
        (λ rows t. rows ≡ length (filter (is_block net.now form first) t.block)) }
    ensures frame { OnlyWrites S.Store tx.old tx.new }
{
    tx.execute(
        "DELETE FROM block WHERE net = ?1 AND form = ?2 AND first = ?3",
        &[ValueRef::Text(net), form.to_sql(), first.to_sql()],
    )
}

/// The blocks of the network (`form`, `first`, `last`, `team`), in the order of their forms and first numbers.
pub fn select_blocks<S: Alter>(tx: &mut Transaction<'_, S>, net: &[u8]) -> Result<Vec<Row>, Error>
    ensures found { Asks S.Store tx.old tx.new result
        (λ rows t. IsSelected (is_of_net net.now) blocks_shown blocks_order t.block rows.items) }
    ensures frame { ReadsOnly S.Store tx.old tx.new result }
{
    tx.query_all(
        "SELECT form, first, last, team FROM block WHERE net = ?1 ORDER BY form, first",
        &[ValueRef::Text(net)],
    )
}

/// The blocks of a form on all networks (`net`, `first`, `last`, `team`), in the order of their networks and first
/// numbers.
pub fn select_blocks_of_form<S: Alter>(
    tx: &mut Transaction<'_, S>,
    form: u32,
) -> Result<Vec<Row>, Error>
    ensures found { Asks S.Store tx.old tx.new result (λ rows t.
        IsSelected (is_of_form form) blocks_of_form_shown blocks_of_form_order t.block rows.items) }
    ensures frame { ReadsOnly S.Store tx.old tx.new result }
{
    tx.query_all(
        "SELECT net, first, last, team FROM block WHERE form = ?1 ORDER BY net, first",
        &[form.to_sql()],
    )
}
