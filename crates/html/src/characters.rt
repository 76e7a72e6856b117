//! The characters of bytes.
ghost use Rattle.std.specs.Prelude.{◌≡◌, ◌-◌, slice_index};
ghost use Rattle.html.specs.Characters.{char_at, four, is_between, is_later, longer, number_of_four};
ghost use Rattle.html.specs.Characters.{number_of_three, three, two};

/// A character, and how many bytes after its first one write it.
#[derive(Clone, Copy, PartialEq, Eq)]
pub(crate) struct Character {
    /// Its number.
    pub(crate) number: u32,
    /// How many bytes follow the first one.
    pub(crate) more: u8,
}

/// Whether the number is from `low` to `high`, inclusive.
pub(crate) fn is_between(low: u32, high: u32, number: u32) -> bool
    ensures { result ≡ is_between low high number }
{
    low <= number && number <= high
}

/// Whether the byte may be a later one of a character.
fn is_later(byte: u8) -> bool
    ensures { result ≡ is_later byte }
{
    128 <= byte && byte <= 191
}

/// By how much the byte is above the number; 0 if it is below it.
fn above(byte: u8, base: u8) -> u32
    ensures { result ≡ byte - base }
{
    u32::from(byte.saturating_sub(base))
}

/// The character of two bytes.
fn two(first: u8, second: u8) -> Option<u32>
    ensures { result ≡ two first second }
{
    if (194 <= first && first <= 223) && is_later(second) {
        Some(above(first, 192) * 64 + above(second, 128))
    } else {
        None
    }
}

fn number_of_three(first: u8, second: u8, third: u8) -> u32
    ensures { result ≡ number_of_three first second third }
{
    above(first, 224) * 4096 + above(second, 128) * 64 + above(third, 128)
}

/// The character of three bytes.
fn three(first: u8, second: u8, third: u8) -> Option<u32>
    ensures { result ≡ three first second third }
{
    let number = number_of_three(first, second, third);
    let formed = (224 <= first && first <= 239) && (is_later(second) && is_later(third));
    if formed && (2048 <= number && !is_between(55296, 57343, number)) {
        Some(number)
    } else {
        None
    }
}

fn number_of_four(first: u8, second: u8, third: u8, fourth: u8) -> u32
    ensures { result ≡ number_of_four first second third fourth }
{
    above(first, 240) * 262_144
        + above(second, 128) * 4096
        + above(third, 128) * 64
        + above(fourth, 128)
}

/// The character of four bytes.
fn four(first: u8, second: u8, third: u8, fourth: u8) -> Option<u32>
    ensures { result ≡ four first second third fourth }
{
    let number = number_of_four(first, second, third, fourth);
    let later = is_later(second) && (is_later(third) && is_later(fourth));
    if ((240 <= first && first <= 244) && later) && is_between(65536, 1_114_111, number) {
        Some(number)
    } else {
        None
    }
}

/// The character that begins with the first of these bytes.
fn longer(first: u8, second: u8, third: u8, fourth: u8) -> Character
    ensures { result ≡ longer first second third fourth }
{
    match two(first, second) {
        Some(number) => Character { number, more: 1 },
        None => match three(first, second, third) {
            Some(number) => Character { number, more: 2 },
            None => match four(first, second, third, fourth) {
                Some(number) => Character { number, more: 3 },
                None => Character {
                    number: u32::from(first),
                    more: 0,
                },
            },
        },
    }
}

/// The byte at the index; past the end 0, which is no later byte of a character.
fn byte_at(bytes: &[u8], index: usize) -> u8
    ensures { result ≡ slice_index bytes.now index }
{
    if index < bytes.len() { bytes[index] } else { 0 }
}

/// The character that begins with the byte, which these follow.
pub(crate) fn char_at(first: u8, later: &[u8]) -> Character
    ensures { result ≡ char_at first later.now }
{
    if first < 128 {
        return Character {
            number: u32::from(first),
            more: 0,
        };
    }
    longer(
        first,
        byte_at(later, 0),
        byte_at(later, 1),
        byte_at(later, 2),
    )
}
