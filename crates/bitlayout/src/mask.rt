//! Sets of positions, kept as a bit for each position.
ghost use Rattle.std.specs.Prelude.{◌≡◌, ℕ, ◌+◌, ◌-◌, ◌*◌, ◌/◌, ◌%◌, ◌<◌, ◌≤◌, ◌↔◌, ◌⊎◌, IsTrue};
ghost use Rattle.bitlayout.specs.Bits.{IsBit};
ghost use Rattle.bitlayout.specs.declared.layout.Order.TheVariants.{Motorola};
ghost use Rattle.bitlayout.specs.Interval.{rank};
ghost use Rattle.bitlayout.specs.Taken.{IsStripOf};
ghost use Rattle.bitlayout.specs.Mask.{HasBit, mask_end, Has, StripHas};

use crate::interval::ranks;
use crate::layout::{Layout, Order};
use std::marker::Model;

/// The number of words of 64 positions in a mask: 224, for payloads of up to 1785 bytes.
pub const MASK_WORDS: usize = 224;

/// The positions 0 up to, but not including, this number, 14,336, have a bit in a mask.
pub const MASK_END: u32 = 64 * MASK_WORDS as u32;

/// The number of bytes of a payload that a mask reaches: 1792.
pub(crate) const MASK_BYTES: u16 = 8 * MASK_WORDS as u16;

/// The bits of one signal, as two neighbouring words of a mask.
#[derive(Clone, Copy, Debug, PartialEq, Eq)]
pub(crate) struct Strip {
    /// The index of the first of the two words.
    word: usize,
    /// The two words: the first is the low half, the second the high half.
    bits: u128,
}

/// A set of positions of a payload, each below [`MASK_END`]. Contracts see it as the set.
#[derive(Clone, Copy, Debug)]
pub struct Mask {
    /// Bit i of word w is 1 where position 64 * w + i is in the set.
    words: [u64; MASK_WORDS],
}

impl Model for Mask {
    ghost use Rattle.std.specs.Coded.{coded_ℕ};
    ghost use Rattle.std.specs.FinSet as set;
    ghost use Rattle.bitlayout.specs.Mask.{Positions};
    ghost use Rattle.bitlayout.specs.Words.{AreWords, positions_of, words_of};
    ghost use Rattle.bitlayout.specs.WordsBack.{words_back};

    ghost Value = { Positions };

    ghost coded = { set.code coded_ℕ };

    ghost view = { λ mask. positions_of mask.words };

    ghost invariant = { λ mask. AreWords mask.words };

    ghost inverse = { λ positions. record { words = words_of positions } };

    ghost inverse_ok = { λ mask h i. record { words = words_back mask.words h i } };
}

/// A word whose bits from `first` up to, but not including, `end` are 1.
fn run(first: u32, end: u32) -> u128
    requires order { first ≤ end }
    requires few { end < first + 128 }
    requires end { end ≤ 128 }
    requires first { first < 128 }
    ensures { (i : ℕ) → HasBit result i ↔ ((first ≤ i) × (i < end)) }
{
    ((1u128 << (end - first)) - 1) << first
}

/// A word in which a bit is 1 if its rank in Motorola order is from `first` up to, but not including, `end`.
fn motorola_run(first: u32, end: u32) -> u128
    requires some { first < end }
    requires few { end ≤ first + 64 }
    requires end { first < 64 }
    ensures { (i : ℕ) → HasBit result i ↔ ((first ≤ rank Motorola i) × (rank Motorola i < end)) }
{
    let first_byte = first / 8;
    let last_byte = (end - 1) / 8;
    if first_byte == last_byte {
        return run(16 * first_byte + 8 - end, 16 * first_byte + 8 - first);
    }
    run(8 * first_byte, 16 * first_byte + 8 - first)
        | run(8 * first_byte + 8, 8 * last_byte)
        | run(16 * last_byte + 8 - end, 8 * last_byte + 8)
}

/// The bits of a signal. The two words may be past a mask's end.
pub(crate) fn strip_of(layout: Layout) -> Strip
    ensures positions { IsStripOf result layout }
    ensures small { result.word < 1024 }
{
    let order = layout.order;
    let ranks = ranks(layout);
    let word = ranks.first / 64;
    let first = ranks.first - 64 * word;
    let end = ranks.end - 64 * word;
    let bits = match order {
        Order::Intel => run(first, end),
        Order::Motorola => motorola_run(first, end),
    };
    Strip {
        word: word as usize,
        bits,
    }
}

/// Whether some bit is 1 in both words.
fn have_common(a: u64, b: u64) -> bool
    ensures { IsTrue result ↔ ((i : ℕ) × (i < 64) × HasBit a i × HasBit b i) }
{
    a & b != 0
}

impl Strip {
    /// The first word.
    fn low(self) -> u64
        ensures { (i : ℕ) → i < 64 → HasBit result i ↔ HasBit self.bits i }
    {
        (self.bits & 0xFFFF_FFFF_FFFF_FFFF) as u64
    }

    /// The second word.
    fn high(self) -> u64
        ensures { (i : ℕ) → HasBit result i ↔ HasBit self.bits (64 + i) }
    {
        (self.bits >> 64) as u64
    }
}

impl Mask {
    /// The mask of no position.
    pub fn empty() -> Mask
        ensures { (q : ℕ) → Has result q → ⊥ }
    {
        Mask {
            words: [0; MASK_WORDS],
        }
    }

    /// The bits of the 64 positions from 64 times the index on.
    fn word(&self, index: usize) -> u64
        ensures bits { (i : ℕ) → i < 64 → HasBit result i ↔ Has self.now (64 * index + i) }
        ensures end { (q : ℕ) → Has self.now q → q < mask_end }
    {
        if index < MASK_WORDS {
            self.words[index]
        } else {
            0
        }
    }

    /// Whether the position, 0 to 65535, is in the mask: `false` from [`MASK_END`] on.
    pub fn has(&self, position: u16) -> bool
        ensures { IsTrue result ↔ Has self.now position }
    {
        let position = usize::from(position);
        (self.word(position / 64) >> (position % 64)) & 1 == 1
    }

    /// Sets bits of the word at an index. Past the last word the mask stays as it is.
    fn put(&mut self, index: usize, bits: u64)
        ensures { (q : ℕ) → Has self.new q ↔ (Has self.old q
            ⊎ ((q < mask_end) × (q / 64 ≡ index) × HasBit bits (q % 64))) }
    {
        if index < MASK_WORDS {
            self.words[index] |= bits;
        }
    }

    /// Adds the positions of a signal's bits that are below [`MASK_END`].
    pub(crate) fn add(&mut self, strip: Strip)
        requires { strip.word < 1024 }
        ensures { (q : ℕ) → Has self.new q
            ↔ (Has self.old q ⊎ ((q < mask_end) × StripHas strip q)) }
    {
        self.put(strip.word, strip.low());
        self.put(strip.word + 1, strip.high());
    }

    /// `add`, if `wanted` is true.
    pub(crate) fn add_if(&mut self, strip: Strip, wanted: bool)
        requires { strip.word < 1024 }
        ensures { (q : ℕ) → Has self.new q
            ↔ (Has self.old q ⊎ ((q < mask_end) × IsTrue wanted × StripHas strip q)) }
    {
        if wanted {
            self.add(strip);
        }
    }

    /// Whether the position of some bit of a signal is in the mask.
    pub(crate) fn touches(&self, strip: Strip) -> bool
        requires { strip.word < 1024 }
        ensures { IsTrue result ↔ ((q : ℕ) × Has self.now q × StripHas strip q) }
    {
        have_common(self.word(strip.word), strip.low())
            || have_common(self.word(strip.word + 1), strip.high())
    }

    /// The mask of the positions of a signal's bits. Positions from [`MASK_END`] on are left out.
    pub fn of(layout: Layout) -> Mask
        ensures { (q : ℕ) → Has result q ↔ ((q < mask_end) × IsBit layout q) }
    {
        let mut mask = Mask::empty();
        mask.add(strip_of(layout));
        mask
    }

    /// Adds the positions of a signal's bits. Positions from [`MASK_END`] on are left out.
    pub fn add_layout(&mut self, layout: Layout)
        ensures { (q : ℕ) → Has self.new q ↔ (Has self.old q ⊎ ((q < mask_end) × IsBit layout q)) }
    {
        self.add(strip_of(layout));
    }

    /// Adds those positions of a signal's bits that are in another mask, so each is below [`MASK_END`].
    pub fn add_shared(&mut self, other: &Mask, layout: Layout)
        ensures { (q : ℕ) → Has self.new q ↔ (Has self.old q ⊎ (Has other.now q × IsBit layout q)) }
    {
        let strip = strip_of(layout);
        let low = other.word(strip.word) & strip.low();
        let high = other.word(strip.word + 1) & strip.high();
        self.put(strip.word, low);
        self.put(strip.word + 1, high);
    }

    /// Whether some position, from 0 up to, but not including, [`MASK_END`], is in both masks.
    pub fn meets(&self, other: &Mask) -> bool
        ensures { IsTrue result ↔ ((q : ℕ) × Has self.now q × Has other.now q) }
    {
        for index in 0..MASK_WORDS {
            if have_common(self.words[index], other.words[index]) {
                return true;
            }
        }
        false
    }
}
