//! Questions about the set of a signal's bits.
ghost use Rattle.std.specs.Prelude.{◌≡◌, ◌≢◌, ◌↔◌, IsTrue};
ghost use Rattle.bitlayout.specs.Bits.{IsBit, IsInside, SharesBit, is_bit, is_inside, shares_bit};

use crate::interval::{rank_of, ranks};
use crate::layout::Layout;

/// Whether the position is that of one of the signal's bits.
pub fn has_bit(layout: Layout, position: u32) -> bool
    ensures bit { IsTrue result ↔ IsBit layout position }
    ensures computed { result ≡ is_bit layout position }
{
    let rank = rank_of(layout.order, position);
    ranks(layout).has(rank)
}

/// Whether each of the signal's bits is in a payload of `length` bytes: each position is below 8 times
/// `length`.
pub fn inside(layout: Layout, length: u16) -> bool
    ensures inside { IsTrue result ↔ IsInside layout length }
    ensures computed { result ≡ is_inside layout length }
{
    ranks(layout).end <= 8 * u32::from(length)
}

/// Whether the two signals have a position in common.
pub fn share_bit(a: Layout, b: Layout) -> bool
    ensures shared { IsTrue result ↔ SharesBit a b }
    ensures computed { result ≡ shares_bit a b }
{
    if a.order == b.order {
        ranks(a).meets(ranks(b))
    } else {
        share_bit_across(a, b)
    }
}

/// `share_bit` for signals of different byte orders. Each has one interval in each byte that it touches, and one
/// order counts a byte's bits in the opposite direction.
fn share_bit_across(a: Layout, b: Layout) -> bool
    requires { a.order ≢ b.order }
    ensures { IsTrue result ↔ SharesBit a b }
{
    let ranks_of_a = ranks(a);
    let ranks_of_b = ranks(b);
    let first_byte = (ranks_of_a.first / 8).max(ranks_of_b.first / 8);
    let last_byte = ((ranks_of_a.end - 1) / 8).min((ranks_of_b.end - 1) / 8);
    for byte in first_byte..last_byte + 1 {
        let part_of_a = ranks_of_a.in_byte(byte).reversed_in_byte(byte);
        if part_of_a.meets(ranks_of_b.in_byte(byte)) {
            return true;
        }
    }
    false
}
