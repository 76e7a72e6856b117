//! What is left of a team's numbers.
ghost use Rattle.std.specs.Prelude.{◌≡◌, ◌∷◌, [], IfOk, false, length, map, sum};
ghost use Rattle.std.specs.List.{count_by, flat_map};
ghost use Rattle.columns.specs.Run.{runs_of};
ghost use Rattle.office_types.specs.Block.{IsRange};
ghost use Rattle.office_types.specs.Free.{has_form};
ghost use Rattle.office_blocks.specs.Blocks.{forms_in, free_numbers};
ghost use Rattle.page_numbers.specs.Tally.{block_form, blocks_of, free_at, held_at, held_in, is_beside, is_group};
ghost use Rattle.page_numbers.specs.Tally.{is_of, live_at, live_in, runs_at};

use columns::{Run, runs_of};
use office_blocks::{Ascending, FormNumbers, Left, Numbers, free_numbers, left_of, part_in};
use office_types::{BlockForm, FormBlock, GrantedBlock, NumberForm};
use std::alloc::{AllocError, Global};

/// How many numbers of a team are live, held and free, and the runs of the free ones.
#[derive(Drop)]
pub(crate) struct Tally {
    /// How many messages or signals have.
    pub(crate) live: u128,
    /// How many are taken and not live.
    pub(crate) held: u128,
    /// How many may be given out.
    pub(crate) free: u128,
    /// The runs of those, block by block.
    pub(crate) runs: Vec<Run>,
}

/// The form of the blocks that have these numbers.
pub(crate) fn block_form(form: NumberForm) -> BlockForm
    ensures { result ≡ block_form form }
{
    match form {
        NumberForm::Std => BlockForm::Std,
        NumberForm::Ext => BlockForm::Ext,
        NumberForm::Pdu1 | NumberForm::Pdu2 => BlockForm::Pgn,
        NumberForm::Spn => BlockForm::Spn,
    }
}

/// Whether the block is the team's, and has these numbers.
fn is_of(team: &[u8], form: NumberForm, granted: &GrantedBlock) -> bool
    ensures is { result ≡ is_of team.now form granted.now }
    ensures range { IsRange granted.now.block }
{
    let found = granted.block.form();
    granted.team.as_bytes() == team && found == block_form(form)
}

// ---- of one block

/// How many of the numbers are of the form.
fn count_formed(numbers: &[u32], form: NumberForm) -> usize
    ensures { result ≡ count_by (has_form form) numbers.now }
{
    let mut count = 0usize;
    for number in numbers {
        if form.has(*number) {
            count += 1;
        }
    }
    count
}

/// How many of the block's numbers of the form are live.
fn live_in(numbers: &FormNumbers, form: NumberForm, block: FormBlock) -> usize
    ensures { result ≡ live_in numbers.now.live form block }
{
    count_formed(part_in(&numbers.live, block), form)
}

/// Whether the number is of the form, and not live.
fn is_beside(live: &Ascending, form: NumberForm, number: u32) -> bool
    ensures { result ≡ is_beside live.now form number }
{
    form.has(number) && !live.has(number)
}

/// How many of the numbers are of the form, and not live.
fn count_beside(numbers: &[u32], live: &Ascending, form: NumberForm) -> usize
    ensures { result ≡ count_by (is_beside live.now form) numbers.now }
{
    let mut count = 0usize;
    for number in numbers {
        if is_beside(live, form, *number) {
            count += 1;
        }
    }
    count
}

/// How many of the block's numbers of the form are taken and not live.
fn held_in(numbers: &FormNumbers, form: NumberForm, block: FormBlock) -> usize
    ensures { result ≡ held_in numbers.now.live numbers.now.taken form block }
{
    count_beside(part_in(&numbers.taken, block), &numbers.live, form)
}

/// The parameter groups of the form that are free in the block.
fn groups_left(
    alloc: Global,
    taken: &Ascending,
    form: NumberForm,
    block: FormBlock,
) -> Result<Left, AllocError>
    ensures count { IfOk result (λ left. left.count ≡ length (free_numbers taken.now block form)) }
    ensures runs { IfOk result (λ left. left.runs.items
        ≡ runs_of 1 (free_numbers taken.now block form)) }
{
    let numbers = free_numbers(alloc, taken, block, form)?;
    let runs = runs_of(alloc, 1, &numbers)?;
    Ok(Left {
        count: numbers.len(),
        runs,
    })
}

/// The numbers that are free in a block that has no numbers of another form.
fn whole_left(
    alloc: Global,
    taken: &Ascending,
    form: NumberForm,
    block: FormBlock,
) -> Result<Left, AllocError>
    requires one { forms_in block.form ≡ form ∷ [] }
    requires whole { is_group form ≡ false }
    ensures count { IfOk result (λ left. left.count ≡ length (free_numbers taken.now block form)) }
    ensures runs { IfOk result (λ left. left.runs.items
        ≡ runs_of 1 (free_numbers taken.now block form)) }
{
    let left = left_of(alloc, taken, block)?;
    Ok(left)
}

/// Whether the numbers are parameter groups.
fn is_group(form: NumberForm) -> bool
    ensures { result ≡ is_group form }
{
    match form {
        NumberForm::Pdu1 | NumberForm::Pdu2 => true,
        NumberForm::Std | NumberForm::Ext | NumberForm::Spn => false,
    }
}

/// The block's numbers of the form that are free.
fn block_left(
    alloc: Global,
    taken: &Ascending,
    form: NumberForm,
    block: FormBlock,
) -> Result<Left, AllocError>
    requires { block.form ≡ block_form form }
    ensures count { IfOk result (λ left. left.count ≡ length (free_numbers taken.now block form)) }
    ensures runs { IfOk result (λ left. left.runs.items
        ≡ runs_of 1 (free_numbers taken.now block form)) }
{
    if is_group(form) {
        return groups_left(alloc, taken, form, block);
    }
    whole_left(alloc, taken, form, block)
}

// ---- of a team's blocks

/// How many numbers of the form are live in the team's blocks.
fn live_total(blocks: &[GrantedBlock], numbers: &FormNumbers, team: &[u8], form: NumberForm) -> u128
    ensures { result
        ≡ sum (map (live_at numbers.now.live form) (blocks_of blocks.now team.now form)) }
{
    let mut count = 0u128;
    for granted in blocks {
        if is_of(team, form, granted) {
            count += live_in(numbers, form, granted.block) as u128;
        }
    }
    count
}

/// How many numbers of the form are held in the team's blocks.
fn held_total(blocks: &[GrantedBlock], numbers: &FormNumbers, team: &[u8], form: NumberForm) -> u128
    ensures { result ≡ sum (map (held_at numbers.now.live numbers.now.taken form)
        (blocks_of blocks.now team.now form)) }
{
    let mut count = 0u128;
    for granted in blocks {
        if is_of(team, form, granted) {
            count += held_in(numbers, form, granted.block) as u128;
        }
    }
    count
}

/// How many numbers of the form are free in the team's blocks.
fn free_total(
    alloc: Global,
    blocks: &[GrantedBlock],
    taken: &Ascending,
    team: &[u8],
    form: NumberForm,
) -> Result<u128, AllocError>
    ensures { IfOk result (λ count. count
        ≡ sum (map (free_at taken.now form) (blocks_of blocks.now team.now form))) }
{
    let mut count = 0u128;
    for granted in blocks {
        if is_of(team, form, granted) {
            let left = block_left(alloc, taken, form, granted.block)?;
            count += left.count as u128;
        }
    }
    Ok(count)
}

/// The runs of the numbers of the form that are free in the team's blocks.
fn free_runs(
    alloc: Global,
    blocks: &[GrantedBlock],
    taken: &Ascending,
    team: &[u8],
    form: NumberForm,
) -> Result<Vec<Run>, AllocError>
    ensures { IfOk result (λ runs. runs.items
        ≡ flat_map (runs_at taken.now form) (blocks_of blocks.now team.now form)) }
{
    let mut runs = Vec::new(alloc);
    for granted in blocks {
        if is_of(team, form, granted) {
            let left = block_left(alloc, taken, form, granted.block)?;
            runs.extend_from_slice(&left.runs)?;
        }
    }
    Ok(runs)
}

impl Tally {
    ghost use Rattle.std.specs.Prelude.{◌==◌, min};
    ghost use Rattle.page_numbers.specs.Counts.{counts_of, few, granted, known_in, left_of, short};

    /// What is left of the team's numbers of the form. The error is out of memory.
    pub(crate) fn of(
        alloc: Global,
        blocks: &[GrantedBlock],
        numbers: &Numbers,
        team: &[u8],
        form: NumberForm,
    ) -> Result<Tally, AllocError>
        ensures { IfOk result (λ tally. counts_of tally
            ≡ left_of (known_in numbers.now) blocks.now team.now form) }
    {
        let own = numbers.of_form(block_form(form));
        Ok(Tally {
            live: live_total(blocks, own, team, form),
            held: held_total(blocks, own, team, form),
            free: free_total(alloc, blocks, &own.taken, team, form)?,
            runs: free_runs(alloc, blocks, &own.taken, team, form)?,
        })
    }

    /// How many there are, as far as 128 bits go.
    pub(crate) fn granted(&self) -> u128
        ensures capped { result ≡ min (granted (counts_of self.now)) u128.MAX }
        ensures shown { short result ≡ short (granted (counts_of self.now)) }
        ensures none { (result == 0) ≡ (granted (counts_of self.now) == 0) }
    {
        self.live
            .saturating_add(self.held)
            .saturating_add(self.free)
    }

    /// Whether fewer than three of eight or more are free.
    pub(crate) fn is_scarce(&self) -> bool
        ensures { result ≡ few (counts_of self.now) }
    {
        self.free < 3 && self.granted() >= 8
    }
}
