//! The least free number.
use office_types::{Block, NumberForm, is_ascending, least_free, least_free_counted, next_of};

#[test]
fn the_least_free_number(rt: HostRuntime) {
    let block = Block {
        first: 256,
        last: 258,
    };
    assert!(rt;
        is_ascending(&[7, 8, 4294967295]) && !is_ascending(&[7, 7]) && !is_ascending(&[1, 3, 2])
    );
    assert!(rt; least_free(&[256, 258], &[block], NumberForm::Std) == Some(257));
}

#[test]
fn the_next_number_of_a_form(rt: HostRuntime) {
    assert!(rt; next_of(NumberForm::Pdu1, 61_185) == Some(65_536));
    assert!(rt; next_of(NumberForm::Pdu2, 0) == Some(61_440));
    assert!(rt; next_of(NumberForm::Pdu1, 126_721).is_none());
    assert!(rt; next_of(NumberForm::Pdu2, 131_071) == Some(131_071));
    assert!(rt; next_of(NumberForm::Spn, 0) == Some(1));
    assert!(rt; next_of(NumberForm::Spn, 524_288).is_none());
    assert!(rt; next_of(NumberForm::Ext, 4_294_967_295).is_none());
}

#[test]
fn the_turns_of_a_search(rt: HostRuntime) {
    let all = Block {
        first: 0,
        last: 536_870_911,
    };
    let (number, turns) = least_free_counted(&[0, 1, 2], &[all], NumberForm::Ext);
    assert!(rt; number == Some(3) && turns <= 4, "{turns}");
    let last = Block {
        first: 536_870_911,
        last: 536_870_911,
    };
    assert!(rt; least_free(&[], &[last], NumberForm::Ext) == Some(536_870_911));
    assert!(rt; least_free(&[536_870_911], &[last], NumberForm::Ext).is_none());
}
