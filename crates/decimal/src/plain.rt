//! Reading a decimal of few digits that has no exponent, as most numbers are, in one pass.
ghost use Rattle.std.specs.Prelude.{◌≡◌, ◌≢◌, ◌+◌, ◌-◌, ◌*◌, ◌%◌, ◌^◌, ◌<◌, ◌≤◌, Bool, length, take, pos, neg_ℤ};
ghost use Rattle.std.specs.Prelude.{IfSome, Ok};
ghost use Rattle.std.specs.Char.{is_ascii_digit};
ghost use Rattle.std.specs.List.{prefix_len};
ghost use Rattle.std.specs.Str.Parse.{digits_value_after};
ghost use Rattle.decimal.specs.Spelling.{Writes, signed};
ghost use Rattle.decimal.specs.Reading.{ReadsNumber};

use crate::Decimal;

/// The digits that bytes begin with.
#[derive(Clone, Copy)]
struct Leading {
    /// The number that they write if they are appended to those of another number.
    number: u64,
    /// How many there are.
    len: usize,
}

/// The digits that the bytes begin with, appended to those of a number.
fn leading_digits(number: u64, bytes: &[u8]) -> Leading
    requires { (number + 1) * 10 ^ length bytes.now ≤ 10 ^ 19 }
    ensures len { result.len ≡ prefix_len is_ascii_digit bytes.now }
    ensures within { result.len ≤ length bytes.now }
    ensures number { result.number ≡ digits_value_after 10 number (take result.len bytes.now) }
    ensures room { (result.number + 1) * 10 ^ (length bytes.now - result.len) ≤ 10 ^ 19 }
{
    let mut number = number;
    for (len, byte) in bytes.iter().enumerate() {
        if !byte.is_ascii_digit() {
            return Leading { number, len };
        }
        number = number * 10 + u64::from(*byte - b'0');
    }
    Leading {
        number,
        len: bytes.len(),
    }
}

/// Every number of so many digits fits in a `u64`.
const MOST_BYTES: usize = 19;

/// A whole number, and how many of its digits come after the point.
#[derive(Clone, Copy)]
struct Plain {
    number: u64,
    fraction_digits: usize,
}

/// The number that a short number token writes that has no exponent, or `None` for any other bytes.
fn plain_of(bytes: &[u8]) -> Option<Plain>
    ensures value { IfSome result (λ p. (negative : Bool) →
        Writes negative bytes.now
        (record {
          mantissa = signed negative p.number;
          exponent =
              neg_ℤ (pos p.fraction_digits);
        })) }
    ensures few { IfSome result (λ p. p.fraction_digits < 20) }
{
    if bytes.len() > MOST_BYTES {
        return None;
    }
    let whole = leading_digits(0, bytes);
    if whole.len == 0 {
        return None;
    }
    let (_, rest) = bytes.split_at(whole.len);
    match rest {
        [] => Some(Plain {
            number: whole.number,
            fraction_digits: 0,
        }),
        [b'.', digits @ ..] => {
            let fraction = leading_digits(whole.number, digits);
            if fraction.len < digits.len() {
                return None;
            }
            Some(Plain {
                number: fraction.number,
                fraction_digits: fraction.len,
            })
        }
        _ => None,
    }
}

/// A number without the zeros at its end, and how many there were.
#[derive(Clone, Copy)]
struct Stripped {
    number: u64,
    zeros: u8,
}

/// The number without the zeros at its end, or `None` if it is 0.
fn without_zeros(number: u64) -> Option<Stripped>
    ensures value { IfSome result (λ s. number ≡ s.number * 10 ^ s.zeros) }
    ensures last { IfSome result (λ s. s.number % 10 ≢ 0) }
    ensures few { IfSome result (λ s. s.zeros < 20) }
{
    let mut left = number;
    for zeros in 0..20u8 {
        if left % 10 != 0 {
            return Some(Stripped {
                number: left,
                zeros,
            });
        }
        left /= 10;
    }
    None
}

fn signed(negative: bool, magnitude: u64) -> i128
    ensures { result ≡ signed negative magnitude }
{
    let magnitude = i128::from(magnitude);
    if negative { -magnitude } else { magnitude }
}

/// The decimal that a short number token writes, negated or not, that has no exponent, or `None` for any other bytes.
pub(crate) fn plain_decimal(negative: bool, bytes: &[u8]) -> Option<Decimal>
    ensures { IfSome result (λ decimal. ReadsNumber negative bytes.now (Ok decimal)) }
{
    let plain = plain_of(bytes)?;
    if plain.number == 0 {
        return Some(Decimal::ZERO);
    }
    let stripped = without_zeros(plain.number)?;
    let exponent = i16::from(stripped.zeros) - plain.fraction_digits as i16;
    Some(Decimal::new(signed(negative, stripped.number), exponent))
}
