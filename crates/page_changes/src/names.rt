//! Names in ascending order.
ghost use Rattle.std.specs.Prelude.{◌≡◌, IfOk, map};
ghost use Rattle.page_changes.specs.Names.{ascending, text_of};

use page_parts::Names;
use std::alloc::AllocError;

/// The names in ascending order of their bytes, each once. The error is out of memory.
pub fn ascending(names: Vec<&[u8]>) -> Result<Names<'_>, AllocError>
    ensures { IfOk result (λ all. all ≡ ascending (map text_of names.entry.items)) }
{
    let all = Names::of(names)?;
    let _ = all.as_slice();
    Ok(all)
}
