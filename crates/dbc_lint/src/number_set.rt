//! A set of decimals, for finding those that occur twice.
ghost use Rattle.std.specs.Prelude.{◌≡◌, ◌||◌, false, not, OnOk, IfOk};
ghost use Rattle.decimal.specs.Number.{Number};
ghost use Rattle.dbc_lint.specs.NumberSet.{holds_number};
ghost use Rattle.dbc_lint.specs.OfSignal.{same_number};

use decimal::Decimal;
use std::alloc::{AllocError, Global};
use std::collections::BTreeSet;

/// The mantissa and the exponent.
fn key_of(number: &Decimal) -> (i128, i16)
    ensures { result ≡ (number.now.mantissa, number.now.exponent) }
{
    (number.mantissa(), number.exponent())
}

/// A set of decimals, by mantissa and exponent.
pub(crate) struct NumberSet {
    numbers: BTreeSet<(i128, i16)>,
}

impl NumberSet {
    /// No numbers. Takes no memory.
    pub(crate) fn new(alloc: Global) -> NumberSet
        ensures { (n : Number) → holds_number result n ≡ false }
    {
        NumberSet {
            numbers: BTreeSet::new(alloc),
        }
    }

    /// Adds the number, and answers whether it is new.
    pub(crate) fn insert(&mut self, number: &Decimal) -> Result<bool, AllocError>
        ensures new { IfOk result (λ new. new ≡ not (holds_number self.old number.now)) }
        ensures ok { OnOk result ((n : Number) → holds_number self.new n
            ≡ (same_number number.now n || holds_number self.old n)) }
    {
        Ok(self.numbers.insert(key_of(number))?)
    }
}

impl Drop for NumberSet {
    fn drop(self) {
        let NumberSet { numbers: _numbers } = self;
    }
}
