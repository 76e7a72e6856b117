//! Whether the bits of a signal hold its range.
ghost use Rattle.std.specs.Prelude.{◌≡◌, ◌^◌, ◌<◌, IfSome, unsigned_abs};
ghost use Rattle.dbc_lint.specs.Numbers.{common_exponent, has_range_outside, is_among, is_outside};
ghost use Rattle.dbc_lint.specs.Numbers.{are_among, is_range_outside, physical, scaled_at, scaled_of, states_range};

use crate::numbers::{
    greatest_raw, is_between, is_float, least_raw, lesser, lesser_exponent, short_product, written,
};
use dbc_sheet::Signal;

/// The numbers of a signal as whole numbers of one power of ten.
#[derive(Clone, Copy)]
pub(crate) struct Scaled {
    factor: i128,
    offset: i128,
    minimum: i128,
    maximum: i128,
}

/// The four numbers, if there are all of them.
fn scaled_of(
    factor: Option<i128>,
    offset: Option<i128>,
    minimum: Option<i128>,
    maximum: Option<i128>,
) -> Option<Scaled>
    requires { IfSome offset (λ z. unsigned_abs z < 10 ^ 36) }
    ensures value { result ≡ scaled_of factor offset minimum maximum }
    ensures short { IfSome result (λ n. unsigned_abs n.offset < 10 ^ 36) }
{
    match (factor, offset, minimum, maximum) {
        (Some(factor), Some(offset), Some(minimum), Some(maximum)) => Some(Scaled {
            factor,
            offset,
            minimum,
            maximum,
        }),
        _ => None,
    }
}

/// The exponent of the power of ten that all numbers of the signal are multiples of.
fn common_exponent(signal: &Signal) -> i16
    ensures { result ≡ common_exponent signal.now }
{
    let scale = lesser_exponent(&signal.factor, &signal.offset);
    let range = lesser_exponent(&signal.minimum, &signal.maximum);
    lesser(scale, range)
}

/// The numbers of the signal as whole numbers of the power of ten that all of them are multiples of.
fn scaled_numbers(signal: &Signal) -> Option<Scaled>
    ensures value { result ≡ scaled_at signal.now (common_exponent signal.now) }
    ensures short { IfSome result (λ n. unsigned_abs n.offset < 10 ^ 36) }
{
    let exponent = common_exponent(signal);
    scaled_of(
        written(&signal.factor, exponent),
        written(&signal.offset, exponent),
        written(&signal.minimum, exponent),
        written(&signal.maximum, exponent),
    )
}

/// The physical value of a raw one.
fn physical(numbers: Scaled, raw: i128) -> Option<i128>
    requires { unsigned_abs numbers.offset < 10 ^ 36 }
    ensures { result ≡ physical numbers raw }
{
    let product = short_product(raw, numbers.factor)?;
    Some(product + numbers.offset)
}

/// Whether the number is one of the two or between them, whichever is greater.
fn is_among(a: i128, b: i128, number: i128) -> bool
    ensures { result ≡ is_among a b number }
{
    is_between(a, b, Some(number)) || is_between(b, a, Some(number))
}

/// Whether the minimum and the maximum are among these two and what is between them.
fn are_among(numbers: Scaled, a: i128, b: i128) -> bool
    ensures { result ≡ are_among numbers a b }
{
    is_among(a, b, numbers.minimum) && is_among(a, b, numbers.maximum)
}

/// Whether the minimum or the maximum isn't among the physical values of the least and the greatest raw value.
fn is_outside(numbers: Scaled, least: Option<i128>, greatest: Option<i128>) -> bool
    ensures { result ≡ is_outside numbers least greatest }
{
    match (least, greatest) {
        (Some(a), Some(b)) => !are_among(numbers, a, b),
        _ => false,
    }
}

/// Whether the signal states a range: `[0|0]` does not.
fn states_range(signal: &Signal) -> bool
    ensures { result ≡ states_range signal.now }
{
    !(signal.minimum.is_zero() && signal.maximum.is_zero())
}

/// Whether the bits can't hold the minimum or the maximum of the range.
fn is_range_outside(signal: &Signal, numbers: Option<Scaled>) -> bool
    requires { IfSome numbers (λ n. unsigned_abs n.offset < 10 ^ 36) }
    ensures { result ≡ is_range_outside signal.now numbers }
{
    let Some(numbers) = numbers else {
        return false;
    };
    let size = signal.layout.size;
    is_outside(
        numbers,
        physical(numbers, least_raw(signal.signed, size)),
        physical(numbers, greatest_raw(signal.signed, size)),
    )
}

/// Whether the bits of the signal can't hold its minimum or its maximum.
pub(crate) fn has_range_outside(signal: &Signal) -> bool
    ensures { result ≡ has_range_outside signal.now }
{
    !is_float(signal.value_type)
        && states_range(signal)
        && is_range_outside(signal, scaled_numbers(signal))
}
