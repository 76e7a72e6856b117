//! What is left of a block: how many of its numbers are live, held and free, and which are free.
ghost use Rattle.std.specs.Prelude.{◌≡◌, ◌+◌, ◌-◌, ◌<◌, ◌≤◌, ◌^◌, ◌≢◌, ◌&&◌, IfOk, not};
ghost use Rattle.std.specs.List.{count_by};
ghost use Rattle.std.specs.List.Sorted.{IsStrictlyIncreasing};
ghost use Rattle.columns.specs.Run.{runs_of};
ghost use Rattle.office_types.specs.Block.{IsRange};
ghost use Rattle.office_types.specs.Free.{SplitsAt, has_form, is_taken};
ghost use Rattle.office_types.specs.declared.block.BlockForm.TheVariants.{Pgn};
ghost use Rattle.office_blocks.specs.Blocks.{free_count, free_numbers, free_runs, held_count, live_count};
ghost use Rattle.office_blocks.specs.Numbers.{AreWithin, ArePart, left_numbers};

use crate::numbers::{Ascending, FormNumbers};
use base::Items;
use columns::{Run, runs_of};
use office_types::{BlockForm, FormBlock, NumberForm};
use std::alloc::{AllocError, Global};

/// How many of the ascending numbers are below `number`.
fn count_below(numbers: &[u32], number: u32) -> usize
    requires { IsStrictlyIncreasing numbers.now }
    ensures { SplitsAt numbers.now result number }
{
    match numbers.binary_search(&number) {
        Ok(index) => index,
        Err(index) => index,
    }
}

/// Those of the ascending numbers that are from `first` to `last`, inclusive.
fn part_of(numbers: &[u32], first: u32, last: u32) -> &[u32]
    requires rising { IsStrictlyIncreasing numbers.now }
    requires some { first ≤ last }
    requires small { last < 2 ^ 30 }
    ensures { ArePart numbers.now first last result.now }
{
    let start = count_below(numbers, first);
    let end = count_below(numbers, last + 1);
    &numbers[start..end]
}

/// Those of the numbers that are in the block.
pub fn part_in(numbers: &Ascending, block: FormBlock) -> &[u32]
    ensures part { ArePart numbers.now block.first block.last result.now }
    ensures range { IsRange block }
{
    let _form = block.form();
    let range = block.numbers();
    part_of(numbers.as_slice(), range.first, range.last)
}

/// How many numbers of the block are live.
pub(crate) fn live_count(numbers: &FormNumbers, block: FormBlock) -> usize
    ensures { result ≡ live_count numbers.now.live block }
{
    part_in(&numbers.live, block).len()
}

/// How many of the numbers aren't among the others.
fn count_beside(numbers: &[u32], others: &Ascending) -> usize
    ensures { result ≡ count_by (λ n. not (is_taken n others.now)) numbers.now }
{
    let mut count = 0usize;
    for number in numbers {
        if !others.has(*number) {
            count += 1;
        }
    }
    count
}

/// How many numbers of the block are held.
pub(crate) fn held_count(numbers: &FormNumbers, block: FormBlock) -> usize
    ensures { result ≡ held_count numbers.now.live numbers.now.taken block }
{
    count_beside(part_in(&numbers.taken, block), &numbers.live)
}

/// The runs of the numbers from `first` to `last`, inclusive, that aren't among these, which ascend and lie there.
fn gaps(alloc: Global, part: &[u32], first: u32, last: u32) -> Result<Vec<Run>, AllocError>
    requires within { AreWithin first (last + 1) part.now }
    requires small { last < 2 ^ 30 }
    ensures { IfOk result (λ runs. runs.items
        ≡ runs_of 1 (left_numbers part.now first (last + 1 - first))) }
{
    let mut runs = Vec::new(alloc);
    let mut next = first;
    for number in part {
        if next < *number {
            runs.push(Run {
                first: next,
                last: *number - 1,
            })?;
        }
        next = *number + 1;
    }
    if next <= last {
        runs.push(Run { first: next, last })?;
    }
    Ok(runs)
}

/// The numbers of the block that may be given out.
pub struct Left {
    /// How many there are.
    pub count: usize,
    /// The runs of them; of parameter groups first those with a destination address.
    pub runs: Vec<Run>,
}

impl Left {
    /// The runs, moved out. Takes no memory.
    pub(crate) fn into_runs(self) -> Items<Run>
        ensures { result ≡ self.runs.items }
    {
        let Left {
            count: _count,
            runs,
        } = self;
        Items::from_vec(runs)
    }
}

/// What is left of a block of which each number has the block's form.
fn left_between(alloc: Global, taken: &Ascending, block: FormBlock) -> Result<Left, AllocError>
    requires { block.form ≢ Pgn }
    ensures count { IfOk result (λ left. left.count ≡ free_count taken.now block) }
    ensures runs { IfOk result (λ left. left.runs.items ≡ free_runs taken.now block) }
{
    let part = part_in(taken, block);
    let range = block.numbers();
    let size = (range.last - range.first + 1) as usize;
    Ok(Left {
        count: size - part.len(),
        runs: gaps(alloc, part, range.first, range.last)?,
    })
}

/// Whether the number has the form and isn't taken.
fn is_free(taken: &Ascending, form: NumberForm, number: u32) -> bool
    ensures { result ≡ (has_form form number && not (is_taken number taken.now)) }
{
    form.has(number) && !taken.has(number)
}

/// The numbers of the block that have the form and aren't taken. The error is out of memory.
pub fn free_numbers(
    alloc: Global,
    taken: &Ascending,
    block: FormBlock,
    form: NumberForm,
) -> Result<Vec<u32>, AllocError>
    ensures { IfOk result (λ numbers. numbers.items ≡ free_numbers taken.now block form) }
{
    let _form = block.form();
    let range = block.numbers();
    let mut numbers = Vec::new(alloc);
    for number in range.first..range.last + 1 {
        if is_free(taken, form, number) {
            numbers.push(number)?;
        }
    }
    Ok(numbers)
}

/// What is left of a block of parameter groups.
fn groups_left(alloc: Global, taken: &Ascending, block: FormBlock) -> Result<Left, AllocError>
    requires { block.form ≡ Pgn }
    ensures count { IfOk result (λ left. left.count ≡ free_count taken.now block) }
    ensures runs { IfOk result (λ left. left.runs.items ≡ free_runs taken.now block) }
{
    let addressed = free_numbers(alloc, taken, block, NumberForm::Pdu1)?;
    let broadcast = free_numbers(alloc, taken, block, NumberForm::Pdu2)?;
    let later = runs_of(alloc, 1, &broadcast)?;
    let mut runs = runs_of(alloc, 256, &addressed)?;
    runs.extend_from_slice(&later)?;
    Ok(Left {
        count: addressed.len() + broadcast.len(),
        runs,
    })
}

/// What is left of the block, where these are the numbers of its form that may not be given out. The error is out of
/// memory.
pub fn left_of(alloc: Global, taken: &Ascending, block: FormBlock) -> Result<Left, AllocError>
    ensures count { IfOk result (λ left. left.count ≡ free_count taken.now block) }
    ensures runs { IfOk result (λ left. left.runs.items ≡ free_runs taken.now block) }
{
    match block.form() {
        BlockForm::Pgn => groups_left(alloc, taken, block),
        BlockForm::Std | BlockForm::Ext | BlockForm::Spn => left_between(alloc, taken, block),
    }
}

impl Drop for Left {
    fn drop(self) {
        let Left {
            count: _count,
            runs: _runs,
        } = self;
    }
}
