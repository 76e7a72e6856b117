//! A sheet of the greatest size, and its copy.
use crate::made::message;
use dbc_sheet::Sheet;
use dbc_words::MESSAGE_LIMIT;
use std::alloc::Global;

/// Whether the sheet takes a message of the number, whose name is `M` and the number.
fn takes(alloc: Global, sheet: &mut Sheet, number: u32) -> Option<bool> {
    let name = format!(in alloc; "M{number}").ok()?;
    let message = message(alloc, number, name.as_bytes())?;
    Some(sheet.with_message(alloc, message).is_ok())
}

/// Whether a copy is equal to the sheet until a message is taken out of it.
fn is_copied(alloc: Global, sheet: &Sheet) -> Option<bool> {
    let mut copy = sheet.copy(alloc).ok()?;
    let equal = copy == *sheet;
    let taken = copy.without_message(2_147_491_840).is_some();
    Some(equal && taken && copy != *sheet)
}

#[test]
fn the_greatest_sheet(rt: HostRuntime) {
    let mut sheet = Sheet::new(rt.alloc());
    for index in 0..16_384 {
        let taken = takes(rt.alloc(), &mut sheet, 2_147_483_648 + index);
        assert!(rt; taken == Some(true));
    }
    assert!(rt; sheet.messages().len() == MESSAGE_LIMIT);
    assert!(rt; is_copied(rt.alloc(), &sheet) == Some(true));
    assert!(rt; takes(rt.alloc(), &mut sheet, 1) == Some(false));
    assert!(rt; takes(rt.alloc(), &mut sheet, 2_147_483_648) == Some(false));
    assert!(rt; sheet.messages().len() == 16_384);
}
