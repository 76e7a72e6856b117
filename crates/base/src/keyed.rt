//! Lists in the order of a key.
ghost use Rattle.std.specs.Prelude.{◌≡◌, OnOk, OnErr};
ghost use Rattle.std.specs.declared.cmp.Ordering.{Ordering as Order};
ghost use Rattle.std.specs.Cmp.{IsTotalOrder};
ghost use Rattle.base.specs.Keyed.{put, IsSlotOf};

use crate::items::Items;
use std::alloc::AllocError;
use std::cmp::Ordering;

/// A value with a key, by which lists are kept in order.
pub trait Keyed {
    /// How the keys of two values compare.
    ghost order: { Self → Self → Order };

    /// How the key of this value compares with the other's.
    fn compare(&self, other: &Self) -> Ordering
        ensures { result ≡ order self.now other.now };

    /// The keys are in a total order.
    ghost ordered: { IsTotalOrder order };
}

impl Keyed for u32 {
    ghost use Rattle.std.specs.Ordering.{nat_cmp};
    ghost use Rattle.std.proofs.Common.{rules};
    ghost use Rattle.std.specs.Cmp.Rules.{comparing};

    ghost order = { nat_cmp };

    ghost ordered = { Prim.search (comparing, rules) };

    fn compare(&self, other: &u32) -> Ordering {
        self.cmp(other)
    }
}

/// Where an item goes in a list.
#[derive(Clone, Copy, PartialEq, Eq)]
pub enum Slot {
    /// It replaces the item at this index, which has its key.
    At(usize),
    /// Before the item at this index, or at the end where the index is the length.
    Before(usize),
}

/// Where the item goes: after the last one that isn't above it, or in place of that one where it has its key. It is
/// looked for from the end, so that rising keys are found at once.
pub fn slot_of<T: Keyed>(items: &[T], item: &T) -> Slot
    ensures { IsSlotOf T.order item.now items.now result }
{
    let mut end = items.len();
    while end > 0 {
        let index = end - 1;
        match item.compare(&items[index]) {
            Ordering::Less => end = index,
            Ordering::Equal => return Slot::At(index),
            Ordering::Greater => return Slot::Before(end),
        }
    }
    Slot::Before(0)
}

/// Puts the item where its key belongs, and replaces an item that has its key. One above all others is appended without
/// a walk over them. When memory runs out, nothing changes.
pub fn put_item<T: Keyed + Drop>(items: &mut Items<T>, item: T) -> Result<(), AllocError>
    ensures ok { OnOk result (items.new ≡ put T.order item items.old) }
    ensures err { OnErr result (items.new ≡ items.old) }
{
    match slot_of(items.as_slice(), &item) {
        Slot::At(index) => {
            items.replace(index, item);
            Ok(())
        }
        Slot::Before(index) => items.insert(index, item),
    }
}
