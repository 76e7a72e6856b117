//! The digits before and after a point, as one sequence of digits.
ghost use Rattle.std.specs.Prelude.{◌≡◌, ◌+◌, ◌-◌, ◌<◌, ◌≤◌, ◌^◌, ◌++◌, length, take, drop, slice_index, IsTrue};
ghost use Rattle.std.specs.List.{prefix_len, suffix_len};
ghost use Rattle.std.specs.Str.Parse.{digits_value};
ghost use Rattle.decimal.specs.Cutting.{is_zero};
ghost use Rattle.decimal.specs.Spelling.{are_digits};

use std::marker::Model;

/// The digits of a number, the ones before its point first.
#[derive(Drop)]
pub(crate) struct Digits<'a> {
    whole: &'a [u8],
    fraction: &'a [u8],
}

impl<'a> Model for Digits<'a> {
    ghost use Rattle.std.specs.Prelude.{ℕ, List, ◌+◌, ◌<◌, ◌^◌, ◌++◌, length, IsTrue};
    ghost use Rattle.decimal.specs.Spelling.{are_digits};

    ghost Value = { List ℕ };

    ghost view = { λ d. d.whole.now ++ d.fraction.now };

    ghost invariant = { λ d. (length d.whole.now + length d.fraction.now < 2 ^ 64)
        × IsTrue (are_digits (d.whole.now ++ d.fraction.now)) };
}

impl<'a> Digits<'a> {
    /// The digits of a whole part, and those after the point.
    pub fn new(whole: &'a [u8], fraction: &'a [u8]) -> Digits<'a>
        requires fits { length whole.now + length fraction.now < 2 ^ 64 }
        requires digits { IsTrue (are_digits (whole.now ++ fraction.now)) }
        ensures { result ≡ whole.now ++ fraction.now }
    {
        Digits { whole, fraction }
    }

    /// How many digits there are.
    pub fn len(&self) -> usize
        ensures value { result ≡ length self.now }
        ensures digits { IsTrue (are_digits self.now) }
    {
        self.whole.len() + self.fraction.len()
    }

    /// The byte of a digit.
    fn at(&self, i: usize) -> u8
        requires { i < length self.now }
        ensures value { result ≡ slice_index self.now i }
        ensures low { 48 ≤ result }
        ensures high { result ≤ 57 }
    {
        if i < self.whole.len() {
            self.whole[i]
        } else {
            self.fraction[i - self.whole.len()]
        }
    }

    /// How many leading zeros there are.
    pub fn leading_zeros(&self) -> usize
        ensures { result ≡ prefix_len is_zero self.now }
    {
        for i in 0..self.len() {
            if self.at(i) != b'0' {
                return i;
            }
        }
        self.len()
    }

    /// The length without the zeros at the end.
    pub fn len_without_trailing_zeros(&self) -> usize
        ensures { result + suffix_len is_zero self.now ≡ length self.now }
    {
        let mut end = self.len();
        while end > 0 {
            if self.at(end - 1) != b'0' {
                break;
            }
            end -= 1;
        }
        end
    }

    /// The number that the digits from `start` up to, but not including, `end` write.
    pub fn value(&self, start: usize, end: usize) -> u128
        requires ordered { start ≤ end }
        requires within { end ≤ length self.now }
        requires fits { end - start ≤ 36 }
        ensures value { result ≡ digits_value 10 (take (end - start) (drop start self.now)) }
        ensures digits { result < 10 ^ (end - start) }
    {
        let mut value: u128 = 0;
        for i in start..end {
            value = value * 10 + u128::from(self.at(i) - b'0');
        }
        value
    }
}
