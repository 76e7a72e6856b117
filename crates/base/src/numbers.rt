//! Whole numbers, written with decimal digits.
ghost use Rattle.std.specs.Prelude.{◌≡◌, ◌^◌, ◌<◌, SomeIff};
ghost use Rattle.std.specs.Str.Parse.{IsNumeral, digits_value};
ghost use Rattle.base.specs.WholeNumber.{whole_of};

fn digits_number(bytes: &[u8]) -> Option<u32>
    ensures { SomeIff result (IsNumeral 10 bytes.now × (digits_value 10 bytes.now < 2 ^ 32))
        (digits_value 10 bytes.now) }
{
    if bytes.is_empty() {
        return None;
    }
    let mut number = 0u32;
    for byte in bytes {
        let digit = char::from(*byte).to_digit(10)?;
        let next = u64::from(number) * 10 + u64::from(digit);
        if next > u64::from(u32::MAX) {
            return None;
        }
        number = next as u32;
    }
    Some(number)
}

/// The number that decimal digits write: `None` if the bytes aren't one or more digits and nothing else, or if the
/// number is above 4294967295. Leading zeros don't count, however many there are.
pub fn whole_number(bytes: &[u8]) -> Option<u32>
    ensures meaning { SomeIff result (IsNumeral 10 bytes.now × (digits_value 10 bytes.now < 2 ^ 32))
        (digits_value 10 bytes.now) }
    ensures computed { result ≡ whole_of bytes.now }
{
    digits_number(bytes)
}
