//! The decimal itself.
ghost use Rattle.std.specs.Prelude.{◌≡◌, ◌↔◌, IsTrue, pos};

use std::marker::Model;

/// A whole mantissa times a power of ten.
///
/// The mantissa has at most 36 digits and no zero at its end, and the exponent is -400 to 400. Zero is 0 times
/// ten to the 0. So each value has one decimal, and `==` compares values.
#[derive(Clone, Copy)]
pub struct Decimal {
    // The mantissa is `high` times 2^64, plus `low`: an `i128` would be aligned at 16 bytes, and a decimal take 32.
    high: i64,
    low: u64,
    // Wider than it need be: a copy of a decimal is then made of whole words, which takes half the time.
    exponent: i64,
}

impl Model for Decimal {
    ghost use Rattle.std.specs.Prelude.{◌<◌, ◌^◌};
    ghost use Rattle.decimal.specs.Number.{Number, IsDecimal};
    ghost use Rattle.decimal.specs.Words.{of_words, high_word, low_word, high_word_back, low_word_back};

    ghost Value = { Number };

    ghost view = { λ d. record { mantissa = of_words d.high d.low; exponent = d.exponent } };

    ghost invariant = { λ d. (d.low < 2 ^ 64)
        × IsDecimal (record { mantissa = of_words d.high d.low; exponent = d.exponent }) };

    ghost inverse = { λ n. record { high = high_word n.mantissa; low = low_word n.mantissa; exponent = n.exponent } };

    ghost inverse_ok = { λ d h i. record {
      high = high_word_back d.high d.low h.0 i;
      low = low_word_back d.high d.low h.0 i;
      exponent = d.exponent;
    } };
}

/// 2^64, which the high word of a mantissa counts.
const HIGH_UNIT: i128 = 18_446_744_073_709_551_616;

impl Decimal {
    ghost use Rattle.decimal.specs.Number.{IsDecimal, SameValue};

    /// Zero.
    pub const ZERO: Decimal = Decimal {
        high: 0,
        low: 0,
        exponent: 0,
    };

    /// The decimal of this mantissa and exponent.
    pub(crate) fn new(mantissa: i128, exponent: i16) -> Decimal
        requires { IsDecimal (record { mantissa = mantissa; exponent = exponent }) }
        ensures { result ≡ record { mantissa = mantissa; exponent = exponent } }
    {
        let high = mantissa >> 64;
        let low = mantissa - high * HIGH_UNIT;
        Decimal {
            high: high as i64,
            low: low as u64,
            exponent: i64::from(exponent),
        }
    }

    /// The mantissa: its absolute value is below 10^36, and it is no multiple of ten except 0.
    pub fn mantissa(&self) -> i128
        ensures value { result ≡ self.now.mantissa }
        ensures decimal { IsDecimal self.now }
    {
        i128::from(self.high) * HIGH_UNIT + i128::from(self.low)
    }

    /// The power of ten, -400 to 400.
    pub fn exponent(&self) -> i16
        ensures value { result ≡ self.now.exponent }
        ensures decimal { IsDecimal self.now }
    {
        self.exponent as i16
    }

    /// Whether the value is zero.
    pub fn is_zero(&self) -> bool
        ensures { IsTrue result ↔ (self.now.mantissa ≡ pos 0) }
    {
        self.mantissa() == 0
    }

    /// Whether two decimals have the same value, which is whether they are equal: scaled to the lesser of their
    /// exponents, their mantissas are the same.
    pub fn has_value_of(&self, other: &Decimal) -> bool
        ensures value { IsTrue result ↔ SameValue self.now other.now }
        ensures equal { IsTrue result ↔ (self.now ≡ other.now) }
    {
        self.mantissa() == other.mantissa() && self.exponent() == other.exponent()
    }
}

impl PartialEq for Decimal {
    ghost use Rattle.std.specs.Cmp.Rules.{comparing};
    ghost use Rattle.std.specs.Ordering.{eq_of_both, int_eq, on};
    ghost use Rattle.std.proofs.Common.{rules};

    ghost eq = { eq_of_both (on (λ n. n.mantissa) int_eq) (on (λ n. n.exponent) int_eq) };

    ghost laws = { Prim.search (comparing, rules) };

    fn eq(&self, other: &Decimal) -> bool {
        self.has_value_of(other)
    }
}

impl Eq for Decimal {
    ghost use Rattle.std.specs.Cmp.Rules.{comparing};
    ghost use Rattle.std.proofs.Common.{rules};

    ghost laws = { Prim.search (comparing, rules) };
}
