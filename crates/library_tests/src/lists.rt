//! Lists in the order of a key, and edits of lists. Lists of identifiers are in `can_id/proofs/ListRows.antt`.
use base::{Copying, Items, Slot, put_item, slot_of};
use std::alloc::{AllocError, Global};

/// The numbers in ascending order, with each number once.
pub(crate) fn put_all(alloc: Global, numbers: &[u32]) -> Result<Items<u32>, AllocError> {
    let mut items = Items::new(alloc);
    for number in numbers {
        put_item(&mut items, *number)?;
    }
    Ok(items)
}

/// Edits a list of 1, 2, 3 by each call.
fn edited(alloc: Global) -> Result<Items<u32>, AllocError> {
    let mut items = Items::from_vec(Vec::from_slice(alloc, &[1, 2, 3])?);
    items.push(4)?;
    items.insert(0, 9)?;
    if items.as_slice().len() == 5 {
        let _ = items.remove(1);
    }
    if items.as_slice().len() == 4 {
        items.replace(3, 5);
    }
    items.duplicate(alloc)
}

fn holds(items: Result<Items<u32>, AllocError>, wanted: &[u32]) -> bool {
    match items {
        Ok(items) => items.into_vec().as_slice() == wanted,
        Err(AllocError) => false,
    }
}

/// Whether the number has this slot among 7, 9, 300 and 2147483648.
fn is_slot(number: u32, wanted: Slot) -> bool {
    let numbers: [u32; 4] = [7, 9, 300, 2147483648];
    slot_of(&numbers, &number) == wanted
}

#[test]
fn lists_are_put_and_edited(rt: HostRuntime) {
    let put = put_all(rt.alloc(), &[300, 2147483648, 7, 300, 9]);
    assert!(rt; holds(put, &[7, 9, 300, 2147483648]));
    assert!(rt; holds(edited(rt.alloc()), &[9, 2, 3, 5]));
    assert!(rt; is_slot(7, Slot::At(0)) && is_slot(8, Slot::Before(1)) && is_slot(9, Slot::At(1)));
    assert!(rt; is_slot(300, Slot::At(2)) && is_slot(2147483648, Slot::At(3)));
}
