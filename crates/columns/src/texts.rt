//! Texts one after the other.
ghost use Rattle.std.specs.Prelude.{◌≡◌, IfOk};
ghost use Rattle.std.specs.List.{flat_map};

use std::alloc::{AllocError, Global};

/// The texts, one after the other. The error is out of memory.
pub fn concat(alloc: Global, texts: &[&[u8]]) -> Result<Vec<u8>, AllocError>
    ensures { IfOk result (λ whole. whole.items ≡ flat_map (λ text. text.now) texts.now) }
{
    texts.concat(alloc)
}
