//! Masks and the searches over them beside intervals.
use crate::layouts::layout_at;
use bitlayout::{
    Clash, Layout, Mask, Mux, Order, Place, Size, first_clash, has_bit, inside, share_bit,
};

/// How many layouts `layout_at` gives: of both orders, of starts 0 to 23 and of 1 to 24 bits.
const LAYOUTS: u16 = 1152;

/// A signal of one bit, in every message.
fn bit_at(start: u16) -> Option<Place> {
    let size = Size::new(1)?;
    let layout = Layout {
        start,
        size,
        order: Order::Intel,
    };
    Some(Place {
        layout,
        mux: Mux::Always,
    })
}

/// The signal, in every message.
fn placed(layout: &Layout) -> Place {
    Place {
        layout: *layout,
        mux: Mux::Always,
    }
}

/// The first clash of two signals after eight others in another byte: a list so long that it is searched by masks.
fn clash_of(a: &Layout, b: &Layout) -> Option<Option<Clash>> {
    let places = [
        bit_at(40)?,
        bit_at(41)?,
        bit_at(42)?,
        bit_at(43)?,
        bit_at(44)?,
        bit_at(45)?,
        bit_at(46)?,
        bit_at(47)?,
        placed(a),
        placed(b),
    ];
    Some(first_clash(&places, 8))
}

/// Whether two masks meet, and the signals clash, where their intervals meet.
fn clash_as_their_intervals(a: &Layout, b: &Layout) -> bool {
    let shared = share_bit(*a, *b);
    let clash = if shared {
        Some(Clash::Overlap {
            earlier: 8,
            later: 9,
        })
    } else {
        None
    };
    Mask::of(*a).meets(&Mask::of(*b)) == shared && clash_of(a, b) == Some(clash)
}

fn past_three_bytes(a: &Layout, b: &Layout) -> bool {
    !inside(*a, 3) || !inside(*b, 3)
}

/// Whether two layouts, if they are inside 3 bytes, clash where their intervals meet.
fn clash_at(first: u16, second: u16) -> bool {
    match (layout_at(first), layout_at(second)) {
        (Some(a), Some(b)) => past_three_bytes(&a, &b) || clash_as_their_intervals(&a, &b),
        _ => false,
    }
}

/// Whether the layout's mask has the positions that the layout has.
fn is_masked(layout: &Layout) -> bool {
    let mask = Mask::of(*layout);
    let mut alike = true;
    for position in 0..64 {
        alike = alike && mask.has(position) == has_bit(*layout, u32::from(position));
    }
    alike && !mask.has(14_335) && !mask.has(65_535)
}

/// Whether the mask of the last bit of the longest payload has that position, and the one before it not.
fn last_bit_is_masked() -> bool {
    match bit_at(14_279) {
        Some(place) => {
            let mask = Mask::of(place.layout);
            mask.has(14_279) && !mask.has(14_278)
        }
        None => false,
    }
}

#[test]
fn masks_reach_the_longest_payload(rt: HostRuntime) {
    assert!(rt; last_bit_is_masked());
}

fn is_masked_at(index: u16) -> bool {
    match layout_at(index) {
        Some(layout) => is_masked(&layout),
        None => false,
    }
}

#[test]
fn masks_have_the_positions(rt: HostRuntime) {
    for index in 0..LAYOUTS {
        assert!(rt; is_masked_at(index), "{index}");
    }
}

#[test]
fn masks_clash_where_intervals_do(rt: HostRuntime) {
    for first in 0..LAYOUTS {
        for second in 0..LAYOUTS {
            assert!(rt; clash_at(first, second), "{first} and {second}");
        }
    }
}
