//! Walks as intervals of ranks.
ghost use Rattle.std.specs.Prelude.{◌≡◌, ℕ, ◌+◌, ◌-◌, ◌*◌, ◌^◌, ◌<◌, ◌≤◌, ◌↔◌, IsTrue, min, max};
ghost use Rattle.bitlayout.specs.Interval.{rank, IsWithin};
ghost use Rattle.bitlayout.specs.Limits.{size_limit};

use crate::layout::{Layout, Order};

/// The numbers from `first` up to, but not including, `end`.
#[derive(Clone, Copy, Debug, PartialEq, Eq)]
pub struct Interval {
    /// The least number.
    pub first: u32,
    /// The number after the greatest one.
    pub end: u32,
}

/// The rank of a position: its number if each byte is numbered in the order's own direction, Intel from the
/// least significant bit, Motorola from the most significant. The ranks of a walk are one interval.
pub fn rank_of(order: Order, position: u32) -> u32
    ensures { result ≡ rank order position }
{
    match order {
        Order::Intel => position,
        Order::Motorola => 8 * (position / 8) + (7 - position % 8),
    }
}

/// The ranks of the signal's bits.
pub fn ranks(layout: Layout) -> Interval
    ensures first { result.first ≡ rank layout.order layout.start }
    ensures end { result.end ≡ rank layout.order layout.start + layout.size }
    ensures some { result.first < result.end }
    ensures few { result.end ≤ result.first + size_limit }
    ensures small { result.end < 2 ^ 17 }
{
    let first = rank_of(layout.order, u32::from(layout.start));
    Interval {
        first,
        end: first + u32::from(layout.size.bits()),
    }
}

impl Interval {
    /// Whether the number lies in it.
    pub fn has(self, n: u32) -> bool
        ensures { IsTrue result ↔ IsWithin self n }
    {
        self.first <= n && n < self.end
    }

    /// Whether some number lies in both.
    pub fn meets(self, other: Interval) -> bool
        ensures { IsTrue result ↔ ((n : ℕ) × IsWithin self n × IsWithin other n) }
    {
        self.first.max(other.first) < self.end.min(other.end)
    }

    /// The part in one byte.
    pub fn in_byte(self, byte: u32) -> Interval
        requires { byte < 2 ^ 20 }
        ensures first { result.first ≡ max self.first (8 * byte) }
        ensures end { result.end ≡ min self.end (8 * byte + 8) }
    {
        Interval {
            first: self.first.max(8 * byte),
            end: self.end.min(8 * byte + 8),
        }
    }

    /// A part of one byte, with that byte's bits numbered in the opposite direction.
    pub fn reversed_in_byte(self, byte: u32) -> Interval
        requires byte { byte < 2 ^ 20 }
        requires end { self.end ≤ 8 * byte + 8 }
        requires first { self.first ≤ 8 * byte + 8 }
        ensures first { result.first + self.end ≡ 16 * byte + 8 }
        ensures end { result.end + self.first ≡ 16 * byte + 8 }
    {
        Interval {
            first: 16 * byte + 8 - self.end,
            end: 16 * byte + 8 - self.first,
        }
    }
}
