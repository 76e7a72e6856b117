//! Texts one after the other at the end of a text.
ghost use Rattle.std.specs.List.{flat_map};
ghost use Rattle.std.specs.Prelude.{◌≡◌, ◌++◌, OnOk};

use std::alloc::AllocError;

/// Appends the texts, one after the other. The error is out of memory; then the text may have a part of them.
pub fn push_all(text: &mut Vec<u8>, parts: &[&[u8]]) -> Result<(), AllocError>
    ensures { OnOk result (text.new.items ≡ text.old.items ++ flat_map (λ part. part.now) parts.now) }
{
    for part in parts {
        text.extend_from_slice(part)?;
    }
    Ok(())
}
