//! Numbers in ascending order, in which a number is found by binary search, and the least that isn't there by halving.
ghost use Rattle.std.specs.Prelude.{◌≡◌, ◌&&◌, ◌||◌, ◌==◌, ℕ, IfErr, IfOk, OnErr, OnOk, not};
ghost use Rattle.std.specs.List.Sorted.{IsStrictlyIncreasing};
ghost use Rattle.base.specs.Ascending.{IsAt, IsGap};
ghost use Rattle.office_types.specs.Free.{is_taken, least_free};

use office_types::{Block, NumberForm, least_gap};
use std::alloc::AllocError;
use std::marker::Model;

/// The index of the number among the ascending ones, or the index at which it would go.
fn search(numbers: &[u32], number: u32) -> Result<usize, usize>
    requires { IsStrictlyIncreasing numbers.now }
    ensures found { IfOk result (IsAt (λ n. n) numbers.now number) }
    ensures absent { IfErr result (IsGap (λ n. n) numbers.now number) }
{
    numbers.binary_search(&number)
}

/// Numbers, each once. Contracts see them as the list of them, in ascending order.
pub struct NumberSet {
    numbers: Vec<u32>,
}

impl Model for NumberSet {
    ghost use Rattle.std.specs.Prelude.{ℕ, List};
    ghost use Rattle.std.specs.List.Sorted.{IsStrictlyIncreasing};

    ghost Value = { List ℕ };

    ghost view = { λ set. set.numbers.items };

    ghost invariant = { λ set. IsStrictlyIncreasing set.numbers.items };
}

impl NumberSet {
    /// These numbers. Takes no memory.
    pub fn of(numbers: Vec<u32>) -> NumberSet
        requires { IsStrictlyIncreasing numbers.items }
        ensures { result ≡ numbers.items }
    {
        NumberSet { numbers }
    }

    /// Adds the number. When memory runs out, nothing changes.
    pub fn add(&mut self, number: u32) -> Result<(), AllocError>
        ensures ok { OnOk result
            ((n : ℕ) → is_taken n self.new ≡ ((number == n) || is_taken n self.old)) }
        ensures err { OnErr result (self.new ≡ self.old) }
    {
        match search(&self.numbers, number) {
            Ok(_) => Ok(()),
            Err(index) => {
                self.numbers.insert(index, number)?;
                Ok(())
            }
        }
    }

    /// Removes the number.
    pub fn remove(&mut self, number: u32)
        ensures { (n : ℕ) → is_taken n self.new ≡ (not (number == n) && is_taken n self.old) }
    {
        match search(&self.numbers, number) {
            Ok(index) => {
                self.numbers.remove(index);
            }
            Err(_) => {}
        }
    }

    /// The least number that lies in one of the blocks, has the form and isn't one of these, `None` where there is
    /// none. Takes no memory.
    pub fn least_free(&self, blocks: &[Block], form: NumberForm) -> Option<u32>
        ensures { result ≡ least_free self.now blocks.now form }
    {
        least_gap(&self.numbers, blocks, form)
    }
}

impl Drop for NumberSet {
    fn drop(self) {
        let NumberSet { numbers: _numbers } = self;
    }
}
