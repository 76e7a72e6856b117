//! Rows of `msg`.
ghost use Rattle.std.specs.Prelude.{[], filter, length, min, ◌++◌, ◌∷◌, ◌≡◌};
ghost use Rattle.store_tables.specs.Selected.{IsSelected};
ghost use Rattle.store_statements.specs.Rows.{has_net_and_name, has_net_and_number, has_number_between, has_rowid_above};
ghost use Rattle.store_statements.specs.Rows.{without};
ghost use Rattle.store_statements.specs.Rows.{has_rowid_below, is_of_net, msg_entries, msg_row};
ghost use Rattle.store_statements.specs.Shown.{msg_numbers_order, msg_numbers_shown, msg_named_order, msgs_order};
ghost use Rattle.store_statements.specs.Shown.{msg_named_shown, msgs_shown};
ghost use Rattle.sqlite_sql.specs.Aggregate.{count};
ghost use Rattle.store_tables.specs.Frames.{Asks, AsksTrees, Edits, OnlyWrites, ReadsOnly};

use crate::row::LiveRow;
use sqlite::types::{ToSql, ValueRef};
use sqlite::{Alter, Error, Row, Transaction};

/// Adds a live message of a network, without its signals. Gives 1. An error where its key is there.
pub fn insert_msg<S: Alter>(tx: &mut Transaction<'_, S>, row: &LiveRow<'_>) -> Result<usize, Error>
    ensures added { Edits S.Store tx.old tx.new result
        (λ t. record t { msg = t.msg ++ msg_row row.now ∷ [] }) }
    ensures rows { Asks S.Store tx.old tx.new result (λ rows t. rows ≡ 1) }
    ensures frame { OnlyWrites S.Store tx.old tx.new }
{
    tx.execute(
        "INSERT INTO msg VALUES (?1, ?2, ?3, ?4, ?5, ?6, ?7)",
        &[
            ValueRef::Text(row.net),
            row.number.to_sql(),
            ValueRef::Text(row.name),
            ValueRef::Text(row.owner),
            row.length.to_sql(),
            ValueRef::Text(row.transmitter),
            ValueRef::Blob(row.comment),
        ],
    )
}

/// Removes the rows of the network's message with the number. Gives how many rows it removed.
pub fn delete_msgs<S: Alter>(
    tx: &mut Transaction<'_, S>,
    net: &[u8],
    number: u32,
) -> Result<usize, Error>
    ensures removed { Edits S.Store tx.old tx.new result
        (λ t. record t { msg = without (has_net_and_number net.now number) t.msg }) }
    ensures rows { Asks S.Store tx.old tx.new result
        (λ rows t. rows ≡ length (filter (has_net_and_number net.now number) t.msg)) }
    ensures frame { OnlyWrites S.Store tx.old tx.new }
{
    tx.execute(
        "DELETE FROM msg WHERE net = ?1 AND number = ?2",
        &[ValueRef::Text(net), number.to_sql()],
    )
}

/// The live message of the network with the name (`number`, `name`, `owner`, `length`, `sender`, `comment`), if it is
/// there.
pub fn select_msg_named<S: Alter>(
    tx: &mut Transaction<'_, S>,
    net: &[u8],
    name: &[u8],
) -> Result<Vec<Row>, Error>
    ensures found { Asks S.Store tx.old tx.new result (λ rows t.
        IsSelected (has_net_and_name net.now name.now)
        msg_named_shown msg_named_order t.msg rows.items) }
    ensures frame { ReadsOnly S.Store tx.old tx.new result }
{
    tx.query_all(
        "SELECT number, name, owner, length, sender, comment FROM msg WHERE net = ?1 AND name = ?2 ORDER BY number",
        &[ValueRef::Text(net), ValueRef::Text(name)],
    )
}

/// The live messages of the network (the columns of [`select_msg_named`]), in the order of their numbers.
pub fn select_msgs<S: Alter>(tx: &mut Transaction<'_, S>, net: &[u8]) -> Result<Vec<Row>, Error>
    ensures found { Asks S.Store tx.old tx.new result
        (λ rows t. IsSelected (is_of_net net.now) msgs_shown msgs_order t.msg rows.items) }
    ensures frame { ReadsOnly S.Store tx.old tx.new result }
{
    tx.query_all(
        "SELECT number, name, owner, length, sender, comment FROM msg WHERE net = ?1 ORDER BY number",
        &[ValueRef::Text(net)],
    )
}

/// How many live messages the network has, as one row of one number.
pub fn count_msgs<S: Alter>(tx: &mut Transaction<'_, S>, net: &[u8]) -> Result<Vec<Row>, Error>
    ensures found { Asks S.Store tx.old tx.new result
        (λ rows t. rows.items ≡ (count (length (filter (is_of_net net.now) t.msg)) ∷ []) ∷ []) }
    ensures frame { ReadsOnly S.Store tx.old tx.new result }
{
    tx.query_all(
        "SELECT count(*) FROM msg WHERE net = ?1",
        &[ValueRef::Text(net)],
    )
}

/// The `number` of one row of the table, of whatever network, whose rowid is above this one, if there is one.
pub fn select_msg_above<S: Alter>(
    tx: &mut Transaction<'_, S>,
    rowid: u32,
) -> Result<Vec<Row>, Error>
    ensures found { AsksTrees S.Store tx.old tx.new result (λ rows db.
        length rows.items ≡ min 1 (length (filter (has_rowid_above rowid) (msg_entries db)))) }
    ensures frame { ReadsOnly S.Store tx.old tx.new result }
{
    tx.query_all(
        "SELECT number FROM msg WHERE rowid > ?1 LIMIT 1",
        &[rowid.to_sql()],
    )
}

/// The `number` of one row of the table, of whatever network, whose rowid is below this one, if there is one.
pub fn select_msg_below<S: Alter>(
    tx: &mut Transaction<'_, S>,
    rowid: u32,
) -> Result<Vec<Row>, Error>
    ensures found { AsksTrees S.Store tx.old tx.new result (λ rows db.
        length rows.items ≡ min 1 (length (filter (has_rowid_below rowid) (msg_entries db)))) }
    ensures frame { ReadsOnly S.Store tx.old tx.new result }
{
    tx.query_all(
        "SELECT number FROM msg WHERE rowid < ?1 LIMIT 1",
        &[rowid.to_sql()],
    )
}

/// The numbers of the network's live messages from the first to the last, ascending.
pub fn select_msg_numbers<S: Alter>(
    tx: &mut Transaction<'_, S>,
    net: &[u8],
    first: u32,
    last: u32,
) -> Result<Vec<Row>, Error>
    ensures found { Asks S.Store tx.old tx.new result (λ rows t. IsSelected
        (has_number_between net.now first last) msg_numbers_shown msg_numbers_order t.msg
        rows.items) }
    ensures frame { ReadsOnly S.Store tx.old tx.new result }
{
    tx.query_all(
        "SELECT number FROM msg WHERE net = ?1 AND number >= ?2 AND number <= ?3 ORDER BY number",
        &[ValueRef::Text(net), first.to_sql(), last.to_sql()],
    )
}
