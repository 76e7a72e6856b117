//! Approvals of a network in review.
ghost use Rattle.std.specs.Prelude.{[], filter, length, ◌++◌, ◌∷◌, ◌≡◌};
ghost use Rattle.store_tables.specs.Selected.{IsSelected};
ghost use Rattle.store_statements.specs.Rows.{approval_row, has_two_texts, is_of_net, without};
ghost use Rattle.store_statements.specs.Shown.{approvals_order, approvals_shown};
ghost use Rattle.store_tables.specs.Frames.{Asks, Edits, OnlyWrites, ReadsOnly};

use sqlite::types::ValueRef;
use sqlite::{Alter, Error, Row, Transaction};

/// Adds a team's approval. Gives 1. An error where its key is there.
pub fn insert_approval<S: Alter>(
    tx: &mut Transaction<'_, S>,
    net: &[u8],
    team: &[u8],
) -> Result<usize, Error>
    ensures added { Edits S.Store tx.old tx.new result
        (λ t. record t { approval = t.approval ++ approval_row net.now team.now ∷ [] }) }
    ensures rows { Asks S.Store tx.old tx.new result (λ rows t. rows ≡ 1) }
    ensures frame { OnlyWrites S.Store tx.old tx.new }
{
    tx.execute(
        "INSERT INTO approval VALUES (?1, ?2)",
        &[ValueRef::Text(net), ValueRef::Text(team)],
    )
}

/// Removes the team's approval of the network, if it is there. Gives how many rows it removed.
pub fn delete_approval<S: Alter>(
    tx: &mut Transaction<'_, S>,
    net: &[u8],
    team: &[u8],
) -> Result<usize, Error>
    ensures removed { Edits S.Store tx.old tx.new result
        (λ t. record t { approval = without (has_two_texts net.now team.now) t.approval }) }
    ensures rows { Asks S.Store tx.old tx.new result
        (λ rows t. rows ≡ length (filter (has_two_texts net.now team.now) t.approval)) }
    ensures frame { OnlyWrites S.Store tx.old tx.new }
{
    tx.execute(
        "DELETE FROM approval WHERE net = ?1 AND team = ?2",
        &[ValueRef::Text(net), ValueRef::Text(team)],
    )
}

/// Removes all approvals of the network. Gives how many.
pub fn delete_approvals<S: Alter>(tx: &mut Transaction<'_, S>, net: &[u8]) -> Result<usize, Error>
    ensures removed { Edits S.Store tx.old tx.new result
        (λ t. record t { approval = without (is_of_net net.now) t.approval }) }
    ensures rows { Asks S.Store tx.old tx.new result
        (λ rows t. rows ≡ length (filter (is_of_net net.now) t.approval)) }
    ensures frame { OnlyWrites S.Store tx.old tx.new }
{
    tx.execute(
        "DELETE FROM approval WHERE net = ?1",
        &[ValueRef::Text(net)],
    )
}

/// The teams that approved the network (`team`), in their order.
pub fn select_approvals<S: Alter>(
    tx: &mut Transaction<'_, S>,
    net: &[u8],
) -> Result<Vec<Row>, Error>
    ensures found { Asks S.Store tx.old tx.new result (λ rows t.
        IsSelected (is_of_net net.now) approvals_shown approvals_order t.approval rows.items) }
    ensures frame { ReadsOnly S.Store tx.old tx.new result }
{
    tx.query_all(
        "SELECT team FROM approval WHERE net = ?1 ORDER BY team",
        &[ValueRef::Text(net)],
    )
}
