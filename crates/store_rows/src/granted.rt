//! A network's own blocks, among the rows of all its blocks.
ghost use Rattle.std.specs.Prelude.{◌≡◌, List, IfOk, filter};
ghost use Rattle.office_types.specs.declared.state.GrantedBlock.{GrantedBlock as Granted};
ghost use Rattle.store_rows.specs.Listed.{AreShown};
ghost use Rattle.store_rows.specs.Showing.{ShowsBlock, is_own};

use crate::columns::number_at;
use crate::from_row::FromRow;
use base::Items;
use office_types::{BlockForm, GrantedBlock};
use sqlite::{Error, Row};
use std::alloc::Global;

/// Whether the row is that of a block of the network's own: one of suspect parameter numbers is the book's.
fn is_own(row: &Row) -> Result<bool, Error>
    ensures { IfOk result (λ own. own ≡ is_own row.now) }
{
    let form = number_at(row, 0)?;
    Ok(form != u32::from(BlockForm::Spn.number()))
}

/// The blocks that the rows show, in order, but those of suspect parameter numbers. An error where a row shows none, or
/// memory ran out.
pub fn granted_of(alloc: Global, rows: &[Row]) -> Result<Items<GrantedBlock>, Error>
    ensures { IfOk result (λ items. (others : List Granted)
        → AreShown ShowsBlock others (filter is_own rows.now)
        → items ≡ others) }
{
    let mut items = Items::new(alloc);
    for row in rows {
        if is_own(row)? {
            items.push(GrantedBlock::from_row(alloc, row)?)?;
        }
    }
    Ok(items)
}
