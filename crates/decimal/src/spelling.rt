//! A number token, cut into its parts.
ghost use Rattle.std.specs.Prelude.{◌≡◌, ◌+◌, ◌≤◌, ◌<◌, ◌^◌, ◌-ℤ◌, ◌+ℤ◌, length, IsTrue, IfSome, IfNone, pos, min};
ghost use Rattle.std.specs.Prelude.{drop};
ghost use Rattle.std.specs.Char.{is_ascii_digit};
ghost use Rattle.std.specs.List.{prefix_len};
ghost use Rattle.std.specs.Option.{SomeIff};
ghost use Rattle.std.specs.Str.Parse.{digits_value};
ghost use Rattle.decimal.specs.Spelling.{Spelling, IsNumberToken, are_digits, is_numeral, is_power, is_exponent};
ghost use Rattle.decimal.specs.Spelling.{power_of};
ghost use Rattle.decimal.specs.Number.{IsInRange};
ghost use Rattle.decimal.specs.Cutting.{fraction_len, cut, spelling, capped_power, greatest_power};

/// Digits, a point with the digits after it, and what is left.
#[derive(Clone, Copy)]
pub(crate) struct Parts<'a> {
    /// The digits before the point.
    pub whole: &'a [u8],
    /// The point and the digits after it, or nothing.
    pub fraction: &'a [u8],
    /// The letter E, a sign if there is one, and digits, or nothing.
    pub exponent: &'a [u8],
}

/// How many decimal digits the bytes begin with.
#[inline]
pub fn digits_len(bytes: &[u8]) -> usize
    ensures is { result ≡ prefix_len is_ascii_digit bytes.now }
    ensures within { result ≤ length bytes.now }
{
    bytes.iter().take_while(|b| b.is_ascii_digit()).count()
}

/// How many bytes a point and the digits after it take, or 0 if the bytes don't begin with a point.
#[inline]
pub fn fraction_len(bytes: &[u8]) -> usize
    ensures is { result ≡ fraction_len bytes.now }
    ensures within { result ≤ length bytes.now }
{
    match bytes {
        [b'.', rest @ ..] => 1 + digits_len(rest),
        _ => 0,
    }
}

#[tactic(auto, unfolding(crate::specs::Cutting::cut))]
fn cut(bytes: &[u8]) -> Parts<'_>
    ensures { spelling result ≡ cut bytes.now }
{
    let (whole, rest) = bytes.split_at(digits_len(bytes));
    let (fraction, exponent) = rest.split_at(fraction_len(rest));
    Parts {
        whole,
        fraction,
        exponent,
    }
}

/// The digits after the point of a fraction that has one.
pub(crate) fn after_point(fraction: &[u8]) -> &[u8]
    ensures { result.now ≡ drop 1 fraction.now }
{
    match fraction {
        [] => &[],
        [_, digits @ ..] => digits,
    }
}

fn are_digits(bytes: &[u8]) -> bool
    ensures { result ≡ are_digits bytes.now }
{
    bytes.iter().all(|b| b.is_ascii_digit())
}

fn is_numeral(bytes: &[u8]) -> bool
    ensures { result ≡ is_numeral bytes.now }
{
    !bytes.is_empty() && are_digits(bytes)
}

fn is_power(bytes: &[u8]) -> bool
    ensures { result ≡ is_power bytes.now }
{
    match bytes {
        [] => false,
        [b'+' | b'-', digits @ ..] => is_numeral(digits),
        _ => is_numeral(bytes),
    }
}

fn is_exponent(bytes: &[u8]) -> bool
    ensures { result ≡ is_exponent bytes.now }
{
    match bytes {
        [] => true,
        [b'E' | b'e', power @ ..] => is_power(power),
        _ => false,
    }
}

/// The parts of a number token, where the bytes are one.
pub(crate) fn parts_of(bytes: &[u8]) -> Option<Parts<'_>>
    ensures token { IfSome result (λ parts. IsNumberToken bytes.now (spelling parts)) }
    ensures none { IfNone result ((s : Spelling) → ¬ (IsNumberToken bytes.now s)) }
    ensures within { IfSome result (λ parts.
        length parts.whole.now + length parts.fraction.now < 2 ^ 64) }
{
    let parts = cut(bytes);
    if is_numeral(parts.whole) && is_exponent(parts.exponent) {
        Some(parts)
    } else {
        None
    }
}

/// A power beyond this one is out of range after any digits that fit in memory.
const GREATEST_POWER: u128 = 100_000_000_000_000_000_000;

/// The number that the digits write, or the greatest power where it is greater.
fn capped_value(digits: &[u8]) -> u128
    requires { IsTrue (are_digits digits.now) }
    ensures { result ≡ min (digits_value 10 digits.now) greatest_power }
{
    let mut value: u128 = 0;
    for digit in digits {
        value = (value * 10 + u128::from(*digit - b'0')).min(GREATEST_POWER);
    }
    value
}

/// The whole number after the letter E, 0 where there is none, or the greatest power with its sign.
fn power(exponent: &[u8]) -> i128
    requires { IsTrue (is_exponent exponent.now) }
    ensures { result ≡ capped_power (power_of (drop 1 exponent.now)) }
{
    match exponent {
        [] | [_] => 0,
        [_, b'-', digits @ ..] => -(capped_value(digits) as i128),
        [_, b'+', digits @ ..] | [_, digits @ ..] => capped_value(digits) as i128,
    }
}

/// An exponent is at most this either way.
const GREATEST_EXPONENT: i128 = 400;

/// The exponent of a number whose point moves to after its last digit other than 0: the power, less the digits
/// after the point, plus the zeros at the end. `None` where it is out of a decimal's range.
pub(crate) fn exponent_of(exponent: &[u8], fraction_digits: usize, zeros: usize) -> Option<i16>
    requires { IsTrue (is_exponent exponent.now) }
    ensures { let e = power_of (drop 1 exponent.now) -ℤ pos fraction_digits +ℤ pos zeros in
        SomeIff result (IsInRange e) e }
{
    let stripped_exponent = power(exponent) - fraction_digits as i128 + zeros as i128;
    if stripped_exponent >= -GREATEST_EXPONENT && stripped_exponent <= GREATEST_EXPONENT {
        Some(stripped_exponent as i16)
    } else {
        None
    }
}
