//! The differences of two sheets.
ghost use Rattle.std.specs.Prelude.{◌≡◌, IfOk};
ghost use Rattle.dbc_compare.specs.Differences.{differences};

use crate::difference::Difference;
use crate::fields::sheet_changes;
use crate::messages::push_messages;
use crate::place::Region;
use crate::things::{push_here, push_things};
use dbc_sheet::Sheet;
use std::alloc::{AllocError, Global};

/// The differences of two sheets: of the sheet itself, of nodes, of value tables, and of messages by number. The error
/// is out of memory.
pub fn differences(alloc: Global, old: &Sheet, new: &Sheet) -> Result<Vec<Difference>, AllocError>
    ensures { IfOk result (λ found. found.items ≡ differences old.now new.now) }
{
    let mut found = Vec::new(alloc);
    let changes = sheet_changes(alloc, old, new)?;
    push_here(alloc, &mut found, &Region::Sheet, &changes)?;
    push_things(alloc, &mut found, &Region::Nodes, old.nodes(), new.nodes())?;
    push_things(
        alloc,
        &mut found,
        &Region::Tables,
        old.tables(),
        new.tables(),
    )?;
    push_messages(alloc, &mut found, old, new)?;
    Ok(found)
}
