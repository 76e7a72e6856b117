//! The numbers that a team may bring to a network, found by binary search where its blocks are in order.
ghost use Rattle.std.specs.Prelude.{◌≡◌, IsTrue, IfOk};
ghost use Rattle.office_rules.specs.Facts.{lies_in};
ghost use Rattle.office_import.specs.Numbers.{team_numbers};
ghost use Rattle.office_import.specs.Rising.{AreRising, side};

use office_facts::{blocks_of, lies_in};
use office_types::{Block, BlockForm, GrantedBlock, Team};
use std::alloc::{AllocError, Global};
use std::cmp::Ordering;
use std::marker::Model;

/// Whether from block to block neither the first number falls nor the last one.
fn are_rising(blocks: &[Block]) -> bool
    ensures { IsTrue result → AreRising blocks.now }
{
    for i in 1..blocks.len() {
        let before = blocks[i - 1];
        let after = blocks[i];
        if after.first < before.first || after.last < before.last {
            return false;
        }
    }
    true
}

/// Where the block is from the number: `Less` where it is before the number, `Equal` where it has the number.
fn side(block: &Block, number: u32) -> Ordering
    ensures { result ≡ side number block.now }
{
    if block.last < number {
        Ordering::Less
    } else if number < block.first {
        Ordering::Greater
    } else {
        Ordering::Equal
    }
}

/// Whether one of the blocks, which are in order, has the number.
fn search(blocks: &[Block], number: u32) -> bool
    requires { AreRising blocks.now }
    ensures { result ≡ lies_in number blocks.now }
{
    blocks.binary_search_by(|block| side(block, number)).is_ok()
}

/// Blocks of numbers, and whether they are in order. Contracts see them as the list of the blocks.
pub(crate) struct Blocks {
    blocks: Vec<Block>,
    rising: bool,
}

impl Model for Blocks {
    ghost use Rattle.std.specs.Prelude.{◌≡◌, true, List};
    ghost use Rattle.office_types.specs.declared.block.Block.{Block};
    ghost use Rattle.office_import.specs.Rising.{AreRising};

    ghost Value = { List Block };

    ghost view = { λ b. b.blocks.items };

    ghost invariant = { λ b. b.rising ≡ true → AreRising b.blocks.items };
}

impl Blocks {
    /// The blocks, after a walk over them.
    fn of(blocks: Vec<Block>) -> Blocks
        ensures { result ≡ blocks.items }
    {
        let rising = are_rising(&blocks);
        Blocks { blocks, rising }
    }

    /// Whether one of the blocks has the number.
    pub(crate) fn has(&self, number: u32) -> bool
        ensures { result ≡ lies_in number self.now }
    {
        if self.rising {
            search(&self.blocks, number)
        } else {
            lies_in(number, &self.blocks)
        }
    }
}

/// The numbers of a team's blocks.
pub(crate) struct TeamNumbers {
    /// 11-bit identifiers.
    pub std: Blocks,
    /// 29-bit identifiers.
    pub ext: Blocks,
    /// Parameter groups.
    pub pgn: Blocks,
}

/// The numbers of the team's blocks among these. The error is out of memory.
pub(crate) fn team_numbers(
    alloc: Global,
    team: &Team,
    granted: &[GrantedBlock],
) -> Result<TeamNumbers, AllocError>
    ensures { IfOk result (λ numbers. numbers ≡ team_numbers team.now granted.now) }
{
    let std = Blocks::of(blocks_of(alloc, granted, team, BlockForm::Std)?);
    let ext = Blocks::of(blocks_of(alloc, granted, team, BlockForm::Ext)?);
    let pgn = Blocks::of(blocks_of(alloc, granted, team, BlockForm::Pgn)?);
    Ok(TeamNumbers { std, ext, pgn })
}

impl Drop for Blocks {
    fn drop(self) {
        let Blocks {
            blocks: _blocks,
            rising: _rising,
        } = self;
    }
}

impl Drop for TeamNumbers {
    fn drop(self) {
        let TeamNumbers {
            std: _std,
            ext: _ext,
            pgn: _pgn,
        } = self;
    }
}
