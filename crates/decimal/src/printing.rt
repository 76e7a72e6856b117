//! Printing a decimal.
ghost use Rattle.std.specs.Prelude.{◌≡◌, ◌≤◌, ◌<◌, ◌+◌, ◌^◌, ◌++◌, length, decimal, replicate, pos, negsuc, ◌≤ℤ◌};
ghost use Rattle.std.specs.Prelude.{Some, OnOk, OnErr};
ghost use Rattle.arrayvec.specs.ArrayString.{array_string_len};
ghost use Rattle.decimal.specs.Number.{IsDecimal};
ghost use Rattle.decimal.specs.Printing.{text_of, unsigned_text, with_point, zero_padded};

use crate::Decimal;
use arrayvec::ArrayString;
use itoa::Buffer;
use std::alloc::AllocError;
use std::fmt;

/// A sign, 36 digits and 20 zeros are the longest text.
type Text = ArrayString<64>;

/// The exponents of plain digits.
const LEAST_PLAIN: i16 = -20;

const MOST_PLAIN: i16 = 20;

fn push_number(text: &mut Text, number: u128)
    requires number { number < 10 ^ 36 }
    requires room { array_string_len text.old ≤ 28 }
    ensures text { text.new.bytes ≡ text.old.bytes ++ decimal number }
    ensures room { array_string_len text.new ≤ array_string_len text.old + 36 }
{
    text.push_str(Buffer::new().format(number));
}

fn push_zeros(text: &mut Text, count: usize)
    requires { array_string_len text.old + count ≤ 64 }
    ensures { text.new.bytes ≡ text.old.bytes ++ replicate count 48 }
{
    for _ in 0..count {
        text.push('0');
    }
}

/// The number's digits, after as many zeros as the width leaves.
fn push_zero_padded(text: &mut Text, number: u128, width: usize)
    requires room { array_string_len text.old + width ≤ 64 }
    requires narrow { length (decimal number) ≤ width }
    ensures { text.new.bytes ≡ text.old.bytes ++ zero_padded width number }
{
    let mut buffer = Buffer::new();
    let digits = buffer.format(number);
    push_zeros(text, width - digits.len());
    text.push_str(digits);
}

/// The number's digits with a point before the last of them.
#[tactic(auto, using(crate::proofs::Texts::pointing))]
fn push_with_point(text: &mut Text, number: u128, fraction_digits: u32)
    requires number { number < 10 ^ 36 }
    requires some { 0 < fraction_digits }
    requires few { fraction_digits ≤ 20 }
    requires room { array_string_len text.old ≤ 1 }
    ensures { text.new.bytes ≡ text.old.bytes ++ with_point fraction_digits number }
{
    let unit = 10u128.pow(fraction_digits);
    push_number(text, number / unit);
    text.push('.');
    push_zero_padded(text, number % unit, fraction_digits as usize);
}

fn push_unsigned(text: &mut Text, magnitude: u128, exponent: i16)
    requires number { magnitude < 10 ^ 36 }
    requires low { negsuc 399 ≤ℤ exponent }
    requires high { exponent ≤ℤ pos 400 }
    requires room { array_string_len text.old ≤ 1 }
    ensures { text.new.bytes ≡ text.old.bytes ++ unsigned_text magnitude exponent }
{
    match exponent {
        LEAST_PLAIN..=-1 => push_with_point(text, magnitude, u32::from(exponent.unsigned_abs())),
        0..=MOST_PLAIN => {
            push_number(text, magnitude);
            push_zeros(text, exponent as usize);
        }
        _ => {
            push_number(text, magnitude);
            text.push('E');
            text.push_str(Buffer::new().format(exponent));
        }
    }
}

fn text_of(decimal: &Decimal) -> Text
    ensures text { result.bytes ≡ text_of decimal.now }
    ensures decimal { IsDecimal decimal.now }
{
    let mut text = Text::new();
    let mantissa = decimal.mantissa();
    if mantissa < 0 {
        text.push('-');
    }
    push_unsigned(&mut text, mantissa.unsigned_abs(), decimal.exponent());
    text
}

impl Decimal {
    ghost use Rattle.decimal.specs.Printing.{ReadsBack};

    /// Appends the decimal's text, or runs out of memory and leaves `out` as it was.
    ///
    /// For the exponents -20 to 20 the text is plain digits, with a point only if the exponent is negative, and then
    /// with at least one digit before it. Any other exponent is written after the mantissa and `E`. A negative
    /// mantissa begins with a minus. Without that minus the text is a number token of the DBC format, and reads
    /// as the same decimal again.
    pub fn print_into(&self, out: &mut Vec<u8>) -> Result<(), AllocError>
        ensures text { OnOk result (out.new.items ≡ out.old.items ++ text_of self.now) }
        ensures err { OnErr result (out.new.items ≡ out.old.items) }
        ensures reads_back { ReadsBack self.now }
    {
        out.extend_from_slice(text_of(self).as_bytes())
    }
}

impl fmt::Display for Decimal {
    ghost output = { λ d. Some (text_of d) };

    /// The text that `print_into` appends.
    fn fmt<W: fmt::Write>(&self, f: &mut fmt::Formatter<W>) -> fmt::Result {
        f.pad(text_of(self).as_str())
    }
}
