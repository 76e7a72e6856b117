//! The numbers of a team's blocks.
ghost use Rattle.std.specs.Prelude.{◌≡◌, ◌&&◌, IfOk, not};
ghost use Rattle.std.specs.List.{list_any};
ghost use Rattle.std.specs.Str.{bytes_eq};
ghost use Rattle.office_types.specs.Block.{in_block, same_form};
ghost use Rattle.office_rules.specs.Facts.{blocks_of, lies_in, spn_blocks_of};
ghost use Rattle.office_rules.specs.Lists.{none_of};

use office_types::{Block, BlockForm, GrantedBlock, NetName, SpnBook, Team};
use std::alloc::{AllocError, Global};

/// Whether the block was granted to the team and has the form.
fn is_of(granted: &GrantedBlock, team: &Team, form: BlockForm) -> bool
    ensures { result ≡ (same_form granted.now.block.form form && bytes_eq granted.now.team
        team.now) }
{
    granted.block.form() == form && granted.team == *team
}

/// Whether the number is in the block.
fn is_in(number: u32, block: Block) -> bool
    ensures { result ≡ in_block number block }
{
    block.first <= number && number <= block.last
}

/// The numbers of the team's blocks of a form, in the order of the blocks. The error is out of memory.
pub fn blocks_of(
    alloc: Global,
    blocks: &[GrantedBlock],
    team: &Team,
    form: BlockForm,
) -> Result<Vec<Block>, AllocError>
    ensures { IfOk result (λ v. v.items ≡ blocks_of blocks.now team.now form) }
{
    blocks
        .iter()
        .filter(|granted| is_of(granted, team, form))
        .map(|granted| granted.block.numbers())
        .collect(alloc)
}

/// Whether the number is in one of the blocks.
pub fn lies_in(number: u32, blocks: &[Block]) -> bool
    ensures { result ≡ lies_in number blocks.now }
{
    blocks.iter().any(|block| is_in(number, *block))
}

/// Whether one of the blocks was granted to the team and has the form.
fn some_block(blocks: &[GrantedBlock], team: &Team, form: BlockForm) -> bool
    ensures { result ≡ list_any (λ g. same_form g.block.form form && bytes_eq g.team team.now)
        blocks.now }
{
    blocks.iter().any(|granted| is_of(granted, team, form))
}

/// Whether the team has a block of the form. Takes no memory.
pub fn has_block(blocks: &[GrantedBlock], team: &Team, form: BlockForm) -> bool
    ensures { result ≡ not (none_of (blocks_of blocks.now team.now form)) }
{
    some_block(blocks, team, form)
}

/// Whether the number is in one of the team's blocks of the form. Takes no memory.
pub fn has_number(blocks: &[GrantedBlock], team: &Team, form: BlockForm, number: u32) -> bool
    ensures { result ≡ lies_in number (blocks_of blocks.now team.now form) }
{
    blocks
        .iter()
        .filter(|granted| is_of(granted, team, form))
        .map(|granted| granted.block.numbers())
        .any(|block| is_in(number, block))
}

/// The suspect parameter numbers of the team's blocks on the network of this name, in the order of the blocks. The
/// error is out of memory.
pub fn spn_blocks_of(
    alloc: Global,
    book: &SpnBook,
    name: &NetName,
    team: &Team,
) -> Result<Vec<Block>, AllocError>
    ensures { IfOk result (λ v. v.items ≡ spn_blocks_of book.now name.now team.now) }
{
    book.blocks
        .as_slice()
        .iter()
        .filter(|block| block.net == *name && block.team == *team)
        .map(|block| Block {
            first: block.first,
            last: block.last,
        })
        .collect(alloc)
}
