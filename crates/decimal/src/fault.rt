//! Why bytes can't be read as a decimal.
ghost use Rattle.std.specs.Prelude.{◌≡◌, Some};

use std::error::Error;
use std::fmt;

/// Why bytes can't be read as a decimal.
#[derive(Clone, Copy, Debug, PartialEq, Eq)]
pub enum DecimalFault {
    /// The bytes are not one number token.
    NotNumber,
    /// The value has more than 36 digits once zeros at both ends are stripped.
    TooManyDigits,
    /// The stripped mantissa's power of ten is not -400 to 400.
    ExponentRange,
}

impl DecimalFault {
    ghost use Rattle.decimal.specs.Fault.{fault_number};

    /// The fault's number: 10 `NotNumber`, 11 `TooManyDigits`, 12 `ExponentRange`.
    pub fn number(self) -> u8
        ensures { result ≡ fault_number self }
    {
        match self {
            DecimalFault::NotNumber => 10,
            DecimalFault::TooManyDigits => 11,
            DecimalFault::ExponentRange => 12,
        }
    }
}

impl fmt::Display for DecimalFault {
    ghost use Rattle.decimal.specs.Fault.{fault_text};

    ghost output = { λ fault. Some (fault_text fault) };

    fn fmt<W: fmt::Write>(&self, f: &mut fmt::Formatter<W>) -> fmt::Result {
        f.pad(match self {
            DecimalFault::NotNumber => "not a number",
            DecimalFault::TooManyDigits => "more than 36 digits",
            DecimalFault::ExponentRange => "an exponent out of -400 to 400",
        })
    }
}

impl Error for DecimalFault {}
