//! Written values, in which `%` and two hexadecimal digits stand for a byte.
ghost use Rattle.std.specs.Prelude.{◌≡◌, ◌↔◌, ◌<◌, ◌+◌, ◌*◌, ◌∷◌, List, ℕ, Some, IfOk, IfSome, None, length, SomeIff};
ghost use Rattle.std.specs.Prelude.{MatchOption};
ghost use Rattle.std.specs.Option.{option_map};
ghost use Rattle.std.specs.Char.{digit_value};
ghost use Rattle.office_script.specs.Escapes.{StandsFor, unescaped, unescaped_digits};

use std::alloc::{AllocError, Global};

/// The byte that two hexadecimal digits write.
fn hexadecimal_byte(high: u8, low: u8) -> Option<u8>
    ensures { SomeIff result ((digit_value high < 16) × (digit_value low < 16))
        (16 * digit_value high + digit_value low) }
{
    let high_digit = char::from(high).to_digit(16)?;
    let low_digit = char::from(low).to_digit(16)?;
    Some((16 * high_digit + low_digit) as u8)
}

/// The byte that the two hexadecimal digits after a `%` write, and what follows them.
fn escaped_byte(after: &[u8]) -> Option<(u8, &[u8])>
    ensures first { MatchOption result (unescaped_digits after.now ≡ None)
        (λ first. unescaped_digits after.now ≡ option_map (λ bytes. first.0 ∷ bytes)
        (unescaped first.1.now)) }
    ensures shorter { IfSome result (λ first. length first.1.now < length after.now) }
{
    let (high, others) = after.split_first()?;
    let (low, rest) = others.split_first()?;
    Some((hexadecimal_byte(*high, *low)?, rest))
}

/// The bytes that a written value stands for: each byte stands for itself, except `%`, which with the two hexadecimal
/// digits after it, in upper or lower case, stands for the byte that they write. `None` if a `%` isn't followed by two
/// such digits. The only error is out of memory.
pub fn unescape(alloc: Global, written: &[u8]) -> Result<Option<Vec<u8>>, AllocError>
    ensures value { IfOk result
        (λ found. option_map (λ bytes. bytes.items) found ≡ unescaped written.now) }

    // The value stands for the bytes that are found and for no others, and for none if none are found.
    ensures meaning { IfOk result (λ found. (meant : List ℕ)
        → (StandsFor written.now meant ↔ (option_map (λ bytes. bytes.items) found ≡ Some meant))) }
{
    let mut bytes = Vec::with_capacity(alloc, written.len())?;
    let mut rest = written;
    while let Some((first, after)) = rest.split_first() {
        if *first == b'%' {
            let Some((byte, following)) = escaped_byte(after) else {
                return Ok(None);
            };
            bytes.push(byte)?;
            rest = following;
        } else {
            bytes.push(*first)?;
            rest = after;
        }
    }
    Ok(Some(bytes))
}
