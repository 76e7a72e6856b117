//! Numbers of identifiers, and one that is of none. Further ones are in `can_id/proofs/Rows.antt`, and in the files of
//! `tests/`.
use can_id::{ExtendedId, Ident, StandardId, has_destination};

/// Whether the DBC number is refused with fault 1.
fn is_refused(number: u32) -> bool {
    match Ident::from_dbc(number) {
        Ok(_) => false,
        Err(fault) => fault.number() == 1,
    }
}

#[test]
fn numbers_in_range(rt: HostRuntime) {
    assert!(rt; is_refused(2684354560) && !is_refused(2684354559));
    assert!(rt; StandardId::new(2047).is_some() && StandardId::new(2048).is_none());
    assert!(rt; ExtendedId::new(536870911).is_some() && ExtendedId::new(536870912).is_none());
}

/// Electronic engine controller 1 goes to all; a request, group 59904, goes to one node.
#[test]
fn groups_with_a_destination(rt: HostRuntime) {
    assert!(rt; has_destination(59904) && !has_destination(61444));
}
