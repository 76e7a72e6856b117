//! Rows in place of those of their key: the rows of the key are removed, and the row is added.
ghost use Rattle.store_rows.specs.Written.{with_net_row, with_block_row, with_held_row, with_spn_row};
ghost use Rattle.store_rows.specs.Written.{with_approval_row};
ghost use Rattle.store_tables.specs.Frames.{Edits, OnlyWrites};

use sqlite::{Alter, Error, Transaction};
use store_statements::{
    BlockRow, NetRow, delete_approval, delete_block, delete_held, delete_net, delete_spn,
    insert_approval, insert_block, insert_held, insert_net, insert_spn,
};

/// Sets the row of a network.
pub(crate) fn set_net<S: Alter>(tx: &mut Transaction<'_, S>, row: &NetRow<'_>) -> Result<(), Error>
    ensures set { Edits S.Store tx.old tx.new result (with_net_row row.now) }
    ensures frame { OnlyWrites S.Store tx.old tx.new }
{
    delete_net(tx, row.name)?;
    insert_net(tx, row)?;
    Ok(())
}

/// Sets the row of a block.
pub(crate) fn set_block<S: Alter>(
    tx: &mut Transaction<'_, S>,
    row: &BlockRow<'_>,
) -> Result<(), Error>
    ensures set { Edits S.Store tx.old tx.new result (with_block_row row.now) }
    ensures frame { OnlyWrites S.Store tx.old tx.new }
{
    delete_block(tx, row.net, row.form, row.first)?;
    insert_block(tx, row)?;
    Ok(())
}

/// Sets the row of a held identifier, by its DBC number.
pub(crate) fn set_held<S: Alter>(
    tx: &mut Transaction<'_, S>,
    net: &[u8],
    number: u32,
) -> Result<(), Error>
    ensures set { Edits S.Store tx.old tx.new result (with_held_row net.now number) }
    ensures frame { OnlyWrites S.Store tx.old tx.new }
{
    delete_held(tx, net, number)?;
    insert_held(tx, net, number)?;
    Ok(())
}

/// Sets the row of a used suspect parameter number.
pub(crate) fn set_spn<S: Alter>(tx: &mut Transaction<'_, S>, number: u32) -> Result<(), Error>
    ensures set { Edits S.Store tx.old tx.new result (with_spn_row number) }
    ensures frame { OnlyWrites S.Store tx.old tx.new }
{
    delete_spn(tx, number)?;
    insert_spn(tx, number)?;
    Ok(())
}

/// Sets the row of a team's approval.
pub(crate) fn set_approval<S: Alter>(
    tx: &mut Transaction<'_, S>,
    net: &[u8],
    team: &[u8],
) -> Result<(), Error>
    ensures set { Edits S.Store tx.old tx.new result (with_approval_row net.now team.now) }
    ensures frame { OnlyWrites S.Store tx.old tx.new }
{
    delete_approval(tx, net, team)?;
    insert_approval(tx, net, team)?;
    Ok(())
}
