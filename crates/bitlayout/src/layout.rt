//! Which bits of a payload a signal has: its start, its size and its byte order.
ghost use Rattle.std.specs.Prelude.{◌≡◌, ◌≤◌, SomeIff};
ghost use Rattle.bitlayout.specs.Limits.{size_limit};

use std::marker::Model;

/// The greatest start of a signal, a bit position. A start has 16 bits.
pub const GREATEST_START: u16 = 65_535;

/// The greatest size of a signal, in bits.
pub const SIZE_LIMIT: u8 = 64;

/// How a signal's bits follow one another from its start (the byte order of a signal in Vector's DBC File
/// Format Documentation). Positions are numbered 8 times the byte plus the bit in the byte, 7 being the
/// byte's most significant bit.
#[derive(Clone, Copy, Debug, PartialEq, Eq)]
pub enum Order {
    /// Little endian, `@1` in a DBC file: the start is the least significant bit, and after position `p`
    /// comes `p + 1`.
    Intel,
    /// Big endian, `@0` in a DBC file: the start is the most significant bit, and after position `p` comes
    /// `p - 1`, or `p + 15` where `p` is a multiple of 8.
    Motorola,
}

impl Order {
    ghost use Rattle.bitlayout.specs.Order.{order_number, order_numbered, order_word};

    /// The order that a DBC file writes as this number after `@`: 0 or 1, `None` for any other number.
    pub fn from_number(number: u32) -> Option<Order>
        ensures { result ≡ order_numbered number }
    {
        match number {
            0 => Some(Order::Motorola),
            1 => Some(Order::Intel),
            _ => None,
        }
    }

    /// The number that a DBC file writes for the order after `@`: 1 for Intel, 0 for Motorola.
    pub fn number(self) -> u8
        ensures { result ≡ order_number self }
    {
        match self {
            Order::Intel => 1,
            Order::Motorola => 0,
        }
    }

    /// The order's word.
    pub fn word(self) -> &'static str
        ensures { result.now ≡ order_word self }
    {
        match self {
            Order::Intel => "intel",
            Order::Motorola => "motorola",
        }
    }
}

/// How many bits a signal has, 1 to 64. Contracts see it as the number.
#[derive(Clone, Copy, Debug, PartialEq, Eq, PartialOrd, Ord)]
pub struct Size {
    bits: u8,
}

impl Model for Size {
    ghost use Rattle.std.specs.Prelude.{ℕ, ◌≤◌};
    ghost use Rattle.bitlayout.specs.Limits.{size_limit};

    ghost Value = { ℕ };

    ghost view = { λ size. size.bits };

    ghost invariant = { λ size. (1 ≤ size.bits) × (size.bits ≤ size_limit) };

    ghost inverse = { λ n. record { bits = n } };
}

impl Size {
    /// The size of this many bits, or `None` outside 1 to 64.
    pub fn new(bits: u8) -> Option<Size>
        ensures { SomeIff result ((1 ≤ bits) × (bits ≤ size_limit)) bits }
    {
        if bits >= 1 && bits <= SIZE_LIMIT {
            Some(Size { bits })
        } else {
            None
        }
    }

    /// The number of bits, 1 to 64.
    pub fn bits(self) -> u8
        ensures value { result ≡ self }
        ensures least { 1 ≤ result }
        ensures most { result ≤ size_limit }
    {
        self.bits
    }
}

/// Where a signal lies: the first `size` positions of the walk from `start` in its order.
#[derive(Clone, Copy, Debug, PartialEq, Eq)]
pub struct Layout {
    /// The position of the first bit of the walk: of an Intel signal the least significant, of a Motorola
    /// signal the most significant.
    pub start: u16,
    /// How many bits the signal has.
    pub size: Size,
    /// How the bits follow one another.
    pub order: Order,
}
