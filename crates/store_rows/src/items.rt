//! Rows of a query as the items of a list.
ghost use Rattle.std.specs.Prelude.{◌≡◌, List, IfOk};
ghost use Rattle.store_rows.specs.Listed.{AreShown};

use crate::from_row::FromRow;
use base::Items;
use sqlite::{Error, Row};
use std::alloc::Global;

/// The values that the rows show, in order. An error where a row shows none, or memory ran out.
pub fn items_of<T: FromRow + Drop>(alloc: Global, rows: &[Row]) -> Result<Items<T>, Error>
    ensures { IfOk result (λ items. (others : List T) → AreShown T.shows others rows.now
        → items ≡ others) }
{
    let mut items = Items::new(alloc);
    for row in rows {
        items.push(T::from_row(alloc, row)?)?;
    }
    Ok(items)
}
