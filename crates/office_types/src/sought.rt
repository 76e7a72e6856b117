//! What one looks for by a word: a name, or a number, of which the word may say what it is.
ghost use Rattle.std.specs.Prelude.{◌≡◌, IfOk};
ghost use Rattle.office_types.specs.Sought.{hexadecimal_of, named_sought, number_sought, plain_sought, short_decimal};
ghost use Rattle.office_types.specs.Sought.{sought_of};

use base::{split_once, whole_number};
use dbc_words::Name;
use std::alloc::{AllocError, Global};

/// What is looked for.
pub enum Sought {
    /// The message of this name.
    Name(Name),
    /// The identifier of this number, or that which a DBC file writes as it.
    Hexadecimal(u32),
    /// What has this number, whichever kind of number it is: one that a DBC file writes for an identifier, an
    /// identifier's, a parameter group's, or a suspect parameter number.
    Decimal(u32),
    /// The parameter group of this number.
    Group(u32),
    /// The suspect parameter number.
    Spn(u32),
}

/// The number that at most so many decimal digits write, `None` where the bytes are anything else.
fn short_decimal(bytes: &[u8], most: usize) -> Option<u32>
    ensures { result ≡ short_decimal most bytes.now }
{
    if bytes.len() <= most {
        whole_number(bytes)
    } else {
        None
    }
}

/// The number that 1 to 8 hexadecimal digits write, `None` where the bytes are anything else.
fn hexadecimal(bytes: &[u8]) -> Option<u32>
    ensures { result ≡ hexadecimal_of bytes.now }
{
    if bytes.is_empty() || bytes.len() > 8 {
        return None;
    }
    let mut number = 0u64;
    for byte in bytes {
        let digit = char::from(*byte).to_digit(16)?;
        number = number * 16 + u64::from(digit);
    }
    Some(number as u32)
}

/// The number that the digits write, of the kind that the word before them names.
fn number_sought(kind: &[u8], digits: &[u8]) -> Option<Sought>
    ensures { result ≡ number_sought kind.now digits.now }
{
    if kind == b"pgn".as_slice() {
        return Some(Sought::Group(short_decimal(digits, 6)?));
    }
    if kind == b"spn".as_slice() {
        return Some(Sought::Spn(short_decimal(digits, 6)?));
    }
    None
}

/// The number, or what has the name where no number is given.
fn named_sought(
    alloc: Global,
    bytes: &[u8],
    number: Option<u32>,
) -> Result<Option<Sought>, AllocError>
    ensures { IfOk result (λ found. found ≡ named_sought bytes.now number) }
{
    match number {
        Some(number) => Ok(Some(Sought::Decimal(number))),
        None => match Name::of(alloc, bytes)? {
            Some(name) => Ok(Some(Sought::Name(name))),
            None => Ok(None),
        },
    }
}

/// What a word without `=` looks for.
fn plain_sought(alloc: Global, bytes: &[u8]) -> Result<Option<Sought>, AllocError>
    ensures { IfOk result (λ found. found ≡ plain_sought bytes.now) }
{
    match bytes.strip_prefix(b"0x".as_slice()) {
        Some(digits) => match hexadecimal(digits) {
            Some(number) => Ok(Some(Sought::Hexadecimal(number))),
            None => Ok(None),
        },
        None => named_sought(alloc, bytes, short_decimal(bytes, 10)),
    }
}

impl Sought {
    /// What the word looks for: `pgn=` and 1 to 6 digits is a parameter group, `spn=` and 1 to 6 digits a suspect
    /// parameter number, `0x` and 1 to 8 hexadecimal digits an identifier, 1 to 10 digits a number of any kind, up to
    /// 4294967295, and a name is a message. `None` for any other word, which nothing has. The error is out of memory.
    pub fn of(alloc: Global, word: &[u8]) -> Result<Option<Sought>, AllocError>
        ensures { IfOk result (λ found. found ≡ sought_of word.now) }
    {
        match split_once(word, b'=') {
            Some((kind, digits)) => Ok(number_sought(kind, digits)),
            None => plain_sought(alloc, word),
        }
    }
}

impl Drop for Sought {
    fn drop(self) {
        match self {
            Sought::Name(_name) => {}
            Sought::Hexadecimal(_number) => {}
            Sought::Decimal(_number) => {}
            Sought::Group(_number) => {}
            Sought::Spn(_number) => {}
        }
    }
}
