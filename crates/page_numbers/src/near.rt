//! The blocks that have numbers of a row.
ghost use Rattle.std.specs.Prelude.{◌≡◌, ◌≤◌, ℕ, drop, false, is_some, true, length, take};
ghost use Rattle.std.specs.List.{list_any};
ghost use Rattle.std.specs.Option.{option_copied};
ghost use Rattle.office_seen.specs.Owners.{team_at, team_of};
ghost use Rattle.page_numbers.specs.Charts.{is_near};
ghost use Rattle.page_numbers.specs.Ordered.{AreOrdered, high, key, low};

use can_id::{Ident, J1939};
use office_seen::team_at;
use office_types::{BlockForm, GrantedBlock, Team};
use std::marker::Model;

/// A number of a form as one number: the forms come one after the other.
fn key(form: BlockForm, number: u32) -> u64
    ensures { result ≡ key form number }
{
    u64::from(form.number()) * 4_294_967_296 + u64::from(number)
}

/// Where the block begins.
fn low(granted: &GrantedBlock) -> u64
    ensures { result ≡ low granted.now }
{
    key(granted.block.form(), granted.block.numbers().first)
}

/// Where the block ends.
fn high(granted: &GrantedBlock) -> u64
    ensures { result ≡ high granted.now }
{
    key(granted.block.form(), granted.block.numbers().last)
}

/// Whether no block begins or ends before one in front of it.
fn are_ordered(blocks: &[GrantedBlock]) -> bool
    ensures { result ≡ true → AreOrdered blocks.now }
{
    for index in 1..blocks.len() {
        let (before, after) = (&blocks[index - 1], &blocks[index]);
        if low(after) < low(before) || high(after) < high(before) {
            return false;
        }
    }
    true
}

/// How many blocks come before the first one that has such a number; of blocks that aren't in order none.
fn count_before(blocks: &[GrantedBlock], is_ordered: bool, form: BlockForm, first: u32) -> usize
    ensures within { result ≤ length blocks.now }
    ensures none { (is_ordered ≡ true → AreOrdered blocks.now)
        → (last : ℕ) → list_any (is_near form first last) (take result blocks.now) ≡ false }
{
    if !is_ordered {
        return 0;
    }
    let from = key(form, first);
    blocks.partition_point(|granted| high(granted) < from)
}

/// How many blocks there are up to the last one that has such a number; of blocks that aren't in order all.
fn count_up_to(blocks: &[GrantedBlock], is_ordered: bool, form: BlockForm, last: u32) -> usize
    ensures within { result ≤ length blocks.now }
    ensures none { (is_ordered ≡ true → AreOrdered blocks.now)
        → (first : ℕ) → list_any (is_near form first last) (drop result blocks.now) ≡ false }
{
    if !is_ordered {
        return blocks.len();
    }
    let to = key(form, last);
    blocks.partition_point(|granted| low(granted) <= to)
}

/// The blocks from the first to the last one that has a number of the form from `first` to `last`, inclusive. The first
/// one that has such a number is the same among them as among all.
fn blocks_near(
    blocks: &[GrantedBlock],
    is_ordered: bool,
    form: BlockForm,
    first: u32,
    last: u32,
) -> &[GrantedBlock]
    ensures { (is_ordered ≡ true → AreOrdered blocks.now)
        → (n : ℕ) → first ≤ n → n ≤ last
        → team_at result.now form n ≡ team_at blocks.now form n }
{
    let start = count_before(blocks, is_ordered, form, first);
    let later = &blocks[start..];
    let count = count_up_to(later, is_ordered, form, last);
    &later[..count]
}

/// Granted blocks, of which those near a number are found by binary search where they are in order. Contracts see them
/// as the list of them.
#[derive(Drop)]
pub(crate) struct Blocks<'a> {
    blocks: &'a [GrantedBlock],
    is_ordered: bool,
}

impl<'a> Model for Blocks<'a> {
    ghost use Rattle.std.specs.Prelude.{◌≡◌, true, List};
    ghost use Rattle.office_types.specs.declared.state.GrantedBlock.{GrantedBlock};
    ghost use Rattle.page_numbers.specs.Ordered.{AreOrdered};

    ghost Value = { List GrantedBlock };

    ghost view = { λ b. b.blocks.now };

    ghost invariant = { λ b. b.is_ordered ≡ true → AreOrdered b.blocks.now };
}

impl<'a> Blocks<'a> {
    /// These blocks.
    pub(crate) fn of(blocks: &'a [GrantedBlock]) -> Blocks<'a>
        ensures { result ≡ blocks.now }
    {
        Blocks {
            blocks,
            is_ordered: are_ordered(blocks),
        }
    }

    /// The blocks near the numbers of the form from `first` to `last`, inclusive.
    pub(crate) fn near(&self, form: BlockForm, first: u32, last: u32) -> &'a [GrantedBlock]
        ensures { (n : ℕ) → first ≤ n → n ≤ last
            → team_at result.now form n ≡ team_at self.now form n }
    {
        blocks_near(self.blocks, self.is_ordered, form, first, last)
    }

    /// The team of the first block that has the number of the form.
    fn team_at(&self, form: BlockForm, number: u32) -> Option<&'a Team>
        ensures { option_copied result ≡ team_at self.now form number }
    {
        team_at(self.near(form, number, number), form, number)
    }

    /// The team of the block of the identifier's parameter group, else of its number; `None` where no block has either.
    pub(crate) fn team_of(&self, ident: &Ident) -> Option<&'a Team>
        ensures { option_copied result ≡ team_of self.now ident.now }
    {
        match J1939::of(*ident) {
            None => self.team_at(BlockForm::Std, ident.number()),
            Some(fields) => match self.team_at(BlockForm::Pgn, fields.pgn()) {
                Some(team) => Some(team),
                None => self.team_at(BlockForm::Ext, ident.number()),
            },
        }
    }

    /// Whether a block has the number of the form.
    pub(crate) fn has(&self, form: BlockForm, number: u32) -> bool
        ensures { result ≡ is_some (team_at self.now form number) }
    {
        self.team_at(form, number).is_some()
    }
}
