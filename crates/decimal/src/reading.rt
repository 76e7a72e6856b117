//! Reading a decimal.
ghost use Rattle.std.specs.Prelude.{◌≡◌, ◌+◌, ◌^◌, ◌<◌, length, Result};
ghost use Rattle.decimal.specs.Spelling.{IsNumberToken, bytes_of, signed};
ghost use Rattle.decimal.specs.Cutting.{spelling};
ghost use Rattle.decimal.specs.Reading.{ReadsNumber};

use crate::digits::Digits;
use crate::plain::plain_decimal;
use crate::spelling::{Parts, after_point, exponent_of, parts_of};
use crate::{Decimal, DecimalFault};

/// The most digits that a mantissa may have.
const MOST_DIGITS: usize = 36;

fn signed(negative: bool, magnitude: u128) -> i128
    requires { magnitude < 10 ^ 36 }
    ensures { result ≡ signed negative magnitude }
{
    let magnitude = magnitude as i128;
    if negative { -magnitude } else { magnitude }
}

/// The decimal that a number token in these parts writes, negated or not.
fn long_decimal(negative: bool, parts: Parts) -> Result<Decimal, DecimalFault>
    requires token { IsNumberToken (bytes_of (spelling parts)) (spelling parts) }
    requires within { length parts.whole.now + length parts.fraction.now < 2 ^ 64 }
    ensures { ReadsNumber negative (bytes_of (spelling parts.entry)) result }
{
    let fraction = after_point(parts.fraction);
    let digits = Digits::new(parts.whole, fraction);
    let end = digits.len_without_trailing_zeros();
    if end == 0 {
        return Ok(Decimal::ZERO);
    }
    let start = digits.leading_zeros();
    if end - start > MOST_DIGITS {
        return Err(DecimalFault::TooManyDigits);
    }
    let magnitude = digits.value(start, end);
    let zeros = digits.len() - end;
    match exponent_of(parts.exponent, fraction.len(), zeros) {
        Some(exponent) => Ok(Decimal::new(signed(negative, magnitude), exponent)),
        None => Err(DecimalFault::ExponentRange),
    }
}

impl Decimal {
    ghost use Rattle.decimal.specs.Number.{Number};
    ghost use Rattle.decimal.specs.Reading.{ReadsNumber, reading};
    ghost use Rattle.decimal.specs.declared.fault.DecimalFault.{DecimalFault as Fault};

    /// The decimal that the bytes spell, negated if `negative` is true.
    ///
    /// The bytes are one number token of the DBC format: one or more digits, then optionally a point and zero or
    /// more digits, then optionally `E` or `e`, an optional sign, and one or more digits. They don't begin with a
    /// sign, since in a DBC file that is a token of its own. Zero may have any exponent.
    ///
    /// Faults, the first that holds: `NotNumber` where the bytes are no number token; `TooManyDigits` where the
    /// value has more than 36 digits once zeros at both ends are stripped; `ExponentRange` where the power of
    /// ten of those digits isn't -400 to 400.
    pub fn read(negative: bool, bytes: &[u8]) -> Result<Decimal, DecimalFault>
        ensures reads { ReadsNumber negative bytes.now result }
        ensures only { (other : Result Number Fault) → ReadsNumber negative bytes.now other
            → other ≡ result }
        ensures computed { result ≡ reading negative bytes.now }
    {
        if let Some(decimal) = plain_decimal(negative, bytes) {
            return Ok(decimal);
        }
        match parts_of(bytes) {
            Some(parts) => long_decimal(negative, parts),
            None => Err(DecimalFault::NotNumber),
        }
    }
}
