//! Copies of values that hold memory.
ghost use Rattle.std.specs.Prelude.{◌≡◌, IfOk};

use crate::items::Items;
use std::alloc::{AllocError, Global};

/// A value that can be copied if there is memory. The copy equals it, as contracts see both.
pub trait Copying {
    /// A copy of the value. The error is out of memory.
    fn duplicate(&self, alloc: Global) -> Result<Self, AllocError>
        ensures { IfOk result (λ copy. copy ≡ self.now) };
}

impl Copying for u32 {
    fn duplicate(&self, alloc: Global) -> Result<Self, AllocError> {
        Ok(*self)
    }
}

/// Copies of the items, in order.
pub fn duplicates<T: Copying + Drop>(alloc: Global, items: &[T]) -> Result<Vec<T>, AllocError>
    ensures { IfOk result (λ copies. copies.items ≡ items.now) }
{
    let mut copies = Vec::new(alloc);
    for item in items {
        copies.push(item.duplicate(alloc)?)?;
    }
    Ok(copies)
}

impl<T: Copying + Drop> Copying for Items<T> {
    fn duplicate(&self, alloc: Global) -> Result<Self, AllocError> {
        Ok(Items::from_vec(duplicates(alloc, self.as_slice())?))
    }
}

impl<T: Copying + Drop> Copying for Option<T> {
    fn duplicate(&self, alloc: Global) -> Result<Self, AllocError> {
        match self {
            None => Ok(None),
            Some(value) => Ok(Some(value.duplicate(alloc)?)),
        }
    }
}
