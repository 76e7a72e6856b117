//! The least free number beside ascending ones, found by halving.
//!
//! Each number of the list is above the one before it. So while the numbers from an index on follow one another without
//! a gap, the difference between a number and its index stays the same, and after the first gap it is greater for good:
//! the first gap is found by halving.
ghost use Rattle.std.specs.Prelude.{◌≡◌, ◌≤◌, ◌∷◌, [], ℕ, true};
ghost use Rattle.std.specs.List.Sorted.{IsStrictlyIncreasing};
ghost use Rattle.office_types.specs.Free.{IsLeastFree, is_formed, least_free};

use crate::block::Block;
use crate::free::{NumberForm, count_below, least_free, lesser};

/// The least number of the block that has the form and isn't one of the ascending numbers, where the form has all
/// numbers from `least` to its greatest. Each turn halves the numbers that are left.
fn least_in(numbers: &[u32], block: Block, form: NumberForm, least: u32) -> Option<u32>
    requires rising { IsStrictlyIncreasing numbers.now }
    requires formed { (n : ℕ) → least ≤ n → is_formed form n ≡ true }
    requires above { (n : ℕ) → is_formed form n ≡ true → least ≤ n }
    ensures { IsLeastFree numbers.now (block ∷ []) form result }
{
    let from = block.first.max(least);
    let first = from as usize;
    let start = count_below(numbers, from);
    let mut low = start;
    let mut high = numbers.len();
    while low < high {
        let middle = low + (high - low) / 2;
        if numbers[middle] as usize - first == middle - start {
            low = middle + 1;
        } else {
            high = middle;
        }
    }
    let number = first + (low - start);
    if number <= block.last.min(form.greatest()) as usize {
        Some(number as u32)
    } else {
        None
    }
}

/// The least number of the blocks that has the form and isn't one of the ascending numbers, where the form has all
/// numbers from `least` to its greatest.
fn least_in_blocks(numbers: &[u32], blocks: &[Block], form: NumberForm, least: u32) -> Option<u32>
    requires rising { IsStrictlyIncreasing numbers.now }
    requires formed { (n : ℕ) → least ≤ n → is_formed form n ≡ true }
    requires above { (n : ℕ) → is_formed form n ≡ true → least ≤ n }
    ensures least { IsLeastFree numbers.now blocks.now form result }
    ensures computed { result ≡ least_free numbers.now blocks.now form }
{
    let mut lowest = None;
    for block in blocks {
        lowest = lesser(lowest, least_in(numbers, *block, form, least));
    }
    lowest
}

/// The least number that lies in one of the blocks, has the form and isn't taken; `None` where there is none. `taken`
/// ascends. It is the number of [`least_free`], found by halving, so that it takes hardly longer where more are taken;
/// for parameter groups the taken numbers are walked over.
pub fn least_gap(taken: &[u32], blocks: &[Block], form: NumberForm) -> Option<u32>
    requires { IsStrictlyIncreasing taken.now }
    ensures least { IsLeastFree taken.now blocks.now form result }
    ensures computed { result ≡ least_free taken.now blocks.now form }
{
    match form {
        NumberForm::Std => least_in_blocks(taken, blocks, NumberForm::Std, 0),
        NumberForm::Ext => least_in_blocks(taken, blocks, NumberForm::Ext, 0),
        NumberForm::Spn => least_in_blocks(taken, blocks, NumberForm::Spn, 1),
        other => least_free(taken, blocks, other),
    }
}
