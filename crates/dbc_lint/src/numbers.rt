//! Numbers of a signal, compared exactly.
ghost use Rattle.std.specs.Prelude.{◌≡◌, ◌≤◌, ◌<◌, ◌^◌, ◌*ℤ◌, IfSome, pos, unsigned_abs};
ghost use Rattle.std.specs.Int.{int_min};
ghost use Rattle.dbc_lint.specs.Numbers.{greatest_raw, holds_value, is_above, is_between, is_float};
ghost use Rattle.dbc_lint.specs.Numbers.{least_raw, short, written};

use bitlayout::Size;
use dbc_sheet::Signal;
use dbc_words::ValueType;
use decimal::Decimal;

/// The first whole number of 37 digits.
const TOO_LONG: u128 = 1_000_000_000_000_000_000_000_000_000_000_000_000;

/// The whole number, if it has at most 36 digits.
fn short(number: i128) -> Option<i128>
    ensures value { result ≡ short number }
    ensures few { IfSome result (λ z. unsigned_abs z < 10 ^ 36) }
{
    if number.unsigned_abs() < TOO_LONG {
        Some(number)
    } else {
        None
    }
}

/// The product, if it has at most 36 digits.
#[tactic(auto, using(crate::proofs::LongNumbers::unfit_is_long))]
pub(crate) fn short_product(a: i128, b: i128) -> Option<i128>
    ensures value { result ≡ short (a *ℤ b) }
    ensures few { IfSome result (λ z. unsigned_abs z < 10 ^ 36) }
{
    match a.checked_mul(b) {
        Some(product) => short(product),
        None => None,
    }
}

/// Ten to the `zeros`.
#[tactic(auto, using(crate::proofs::LongNumbers::ten_few))]
fn power_of_ten(zeros: u32) -> i128
    requires { zeros ≤ 36 }
    ensures { result ≡ pos (10 ^ zeros) }
{
    let power = 10u128.pow(zeros);
    power as i128
}

/// The number with so many zeros after it, if it has at most 36 digits then.
#[tactic(auto, using(crate::proofs::LongNumbers::zeros_after))]
fn with_zeros(number: i128, zeros: u32) -> Option<i128>
    ensures value { result ≡ short (number *ℤ pos (10 ^ zeros)) }
    ensures few { IfSome result (λ z. unsigned_abs z < 10 ^ 36) }
{
    if number == 0 {
        return Some(0);
    }
    if zeros > 36 {
        return None;
    }
    short_product(number, power_of_ten(zeros))
}

/// How many times ten to the `exponent` the number is, if that has at most 36 digits.
pub(crate) fn written(number: &Decimal, exponent: i16) -> Option<i128>
    ensures value { result ≡ written number.now exponent }
    ensures few { IfSome result (λ z. unsigned_abs z < 10 ^ 36) }
{
    let zeros = i32::from(number.exponent()) - i32::from(exponent);
    with_zeros(number.mantissa(), zeros.unsigned_abs())
}

/// The lesser of two exponents.
pub(crate) fn lesser(a: i16, b: i16) -> i16
    ensures { result ≡ int_min a b }
{
    if b < a { b } else { a }
}

/// The lesser exponent of two numbers.
pub(crate) fn lesser_exponent(a: &Decimal, b: &Decimal) -> i16
    ensures { result ≡ int_min a.now.exponent b.now.exponent }
{
    lesser(a.exponent(), b.exponent())
}

/// Whether the first number is greater. Both are given as they are written at the lesser of their exponents.
#[tactic(auto, using(crate::proofs::LongNumbers::above))]
fn is_above_by(a: &Decimal, b: &Decimal, x: Option<i128>, y: Option<i128>) -> bool
    requires first { x ≡ written a.now (int_min a.now.exponent b.now.exponent) }
    requires second { y ≡ written b.now (int_min a.now.exponent b.now.exponent) }
    ensures { result ≡ is_above a.now b.now }
{
    let first = a.mantissa();
    let second = b.mantissa();
    match (x, y) {
        (Some(x), Some(y)) => x > y,
        // Only a number that is further from 0 than the other one is too long.
        (None, _) => first > 0,
        (Some(_), None) => second < 0,
    }
}

/// Whether the first number is greater.
pub(crate) fn is_above(a: &Decimal, b: &Decimal) -> bool
    ensures { result ≡ is_above a.now b.now }
{
    let exponent = lesser_exponent(a, b);
    is_above_by(a, b, written(a, exponent), written(b, exponent))
}

/// Whether the bits are a float.
pub(crate) fn is_float(value_type: ValueType) -> bool
    ensures { result ≡ is_float value_type }
{
    match value_type {
        ValueType::Integer => false,
        ValueType::Float | ValueType::Double => true,
    }
}

/// Two to the `bits`.
#[tactic(auto, using(crate::proofs::LongNumbers::two_few))]
fn power_of_two(bits: u8) -> i128
    requires { bits ≤ 64 }
    ensures { result ≡ pos (2 ^ bits) }
{
    let power = 2u128.pow(u32::from(bits));
    power as i128
}

/// The least raw value of so many bits.
pub(crate) fn least_raw(signed: bool, size: Size) -> i128
    ensures { result ≡ least_raw signed size }
{
    if signed {
        -power_of_two(size.bits() - 1)
    } else {
        0
    }
}

/// The greatest raw value of so many bits.
#[tactic(auto, using(crate::proofs::LongNumbers::one_less))]
pub(crate) fn greatest_raw(signed: bool, size: Size) -> i128
    ensures { result ≡ greatest_raw signed size }
{
    if signed {
        power_of_two(size.bits() - 1) - 1
    } else {
        power_of_two(size.bits()) - 1
    }
}

/// Whether there is such a number, and it is one of these and those between them.
pub(crate) fn is_between(low: i128, high: i128, number: Option<i128>) -> bool
    ensures { result ≡ is_between low high number }
{
    match number {
        Some(number) => low <= number && number <= high,
        None => false,
    }
}

/// Whether the bits of the signal hold the raw value.
pub(crate) fn holds_value(signal: &Signal, value: &Decimal) -> bool
    ensures { result ≡ holds_value signal.now value.now }
{
    if is_float(signal.value_type) {
        return true;
    }
    if value.exponent() < 0 {
        return false;
    }
    let size = signal.layout.size;
    is_between(
        least_raw(signal.signed, size),
        greatest_raw(signal.signed, size),
        written(value, 0),
    )
}
