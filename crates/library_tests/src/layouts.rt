//! Layouts beside walks over their bits, and a start. Further starts, and clashes, are rows of
//! `bitlayout/proofs/Rows.antt`.
use bitlayout::{
    Layout, Mux, Order, Place, Size, has_bit, inside, least_start, same_bits, share_bit,
};

/// The position after this one in a walk.
fn next_position(order: Order, position: u16) -> u16 {
    match order {
        Order::Intel => position.wrapping_add(1),
        Order::Motorola if position % 8 == 0 => position.wrapping_add(15),
        Order::Motorola => position.wrapping_sub(1),
    }
}

/// The positions of a layout as a set of numbers below 128, walked one by one as the definition says.
fn walk_positions(layout: &Layout) -> u128 {
    let mut set = 0;
    let mut position = layout.start;
    for _ in 0..layout.size.bits() {
        set |= 1u128.wrapping_shl(u32::from(position));
        position = next_position(layout.order, position);
    }
    set
}

/// The position of a layout's bit of this weight, a power of two, found on the walk: an Intel walk starts with the
/// least significant bit, a Motorola walk ends with it.
fn position_of(layout: &Layout, weight: u8) -> u16 {
    let steps = match layout.order {
        Order::Intel => weight,
        Order::Motorola => layout.size.bits().wrapping_sub(weight).wrapping_sub(1),
    };
    let mut position = layout.start;
    for _ in 0..steps {
        position = next_position(layout.order, position);
    }
    position
}

/// The layouts of both orders, of starts 0 to 23 and of 1 to 24 bits, by their index below 1152.
pub(crate) fn layout_at(index: u16) -> Option<Layout> {
    let order = if index % 2 == 0 {
        Order::Intel
    } else {
        Order::Motorola
    };
    let size = Size::new((index / 48 % 24) as u8 + 1)?;
    let start = index / 2 % 24;
    Some(Layout { start, size, order })
}

/// Whether the layout has the bits of its walk, and lies in payloads of 0 to 4 bytes where that does.
fn lies_on_its_walk(layout: &Layout) -> bool {
    let walk = walk_positions(layout);
    let mut alike = true;
    for length in 0..5u16 {
        let within = walk.wrapping_shr(8 * u32::from(length)) == 0;
        alike = alike && inside(*layout, length) == within;
    }
    for position in 0..128 {
        let there = walk.wrapping_shr(position) % 2 == 1;
        alike = alike && has_bit(*layout, position) == there;
    }
    alike
}

/// Whether the layouts share a bit where their walks do.
fn share_as_their_walks(a: &Layout, b: &Layout) -> bool {
    let common = walk_positions(a) & walk_positions(b) != 0;
    share_bit(*a, *b) == common
}

/// Whether the layouts are the same where they are of one size, and each weight is at one position in both.
fn same_as_their_weights(a: &Layout, b: &Layout) -> bool {
    let mut alike = a.size == b.size;
    for weight in 0..a.size.bits() {
        alike = alike && position_of(a, weight) == position_of(b, weight);
    }
    same_bits(*a, *b) == alike
}

fn lies_at(index: u16) -> bool {
    match layout_at(index) {
        Some(layout) => lies_on_its_walk(&layout),
        None => false,
    }
}

fn share_at(first: u16, second: u16) -> bool {
    match (layout_at(first), layout_at(second)) {
        (Some(a), Some(b)) => share_as_their_walks(&a, &b),
        _ => false,
    }
}

fn same_at(first: u16, second: u16) -> bool {
    match (layout_at(first), layout_at(second)) {
        (Some(a), Some(b)) => same_as_their_weights(&a, &b),
        _ => false,
    }
}

#[test]
fn layouts_lie_where_their_walks_do(rt: HostRuntime) {
    for index in 0..1152 {
        assert!(rt; lies_at(index), "{index}");
    }
}

#[test]
fn layouts_share_where_their_walks_do(rt: HostRuntime) {
    for first in 0..1152 {
        for second in 0..1152 {
            assert!(rt; share_at(first, second), "{first} and {second}");
        }
    }
}

#[test]
fn layouts_are_the_same_where_their_weights_are(rt: HostRuntime) {
    for first in 0..1152 {
        for second in 0..1152 {
            assert!(rt; same_at(first, second), "{first} and {second}");
        }
    }
}

/// Where twelve more bits start in 8 bytes of which the first two are taken.
fn twelve_after_sixteen() -> Option<u16> {
    let layout = Layout {
        start: 0,
        size: Size::new(16)?,
        order: Order::Intel,
    };
    let mux = Mux::Always;
    let taken = [Place { layout, mux }];
    let twelve = Size::new(12)?;
    least_start(&taken, 8, twelve, Order::Motorola, mux)
}

#[test]
fn a_start(rt: HostRuntime) {
    assert!(rt; twelve_after_sixteen() == Some(16));
}
