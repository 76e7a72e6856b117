//! Blocks of numbers in sentences.
ghost use Rattle.std.specs.Prelude.{◌≡◌, IfOk, find, if◌then◌else◌, map, string_bytes};
ghost use Rattle.std.specs.Option.{option_copied};
ghost use Rattle.office_types.specs.Block.{is_spn};
ghost use Rattle.office_rules.specs.Facts.{blocks_of, spn_blocks_of};
ghost use Rattle.office_reasons.specs.Blocks.{distance, holder_of, nearer, nearest_of, own_text, spn_numbers};
ghost use Rattle.office_reasons.specs.Blocks.{team_text};
ghost use Rattle.office_reasons.specs.Few.{few_text};
ghost use Rattle.office_reasons.specs.Pieces.{range_text};

use crate::case::{Case, Told, told};
use crate::few::few_text;
use crate::pieces::{is_spn, range_text, shown};
use office_facts::{blocks_of, spn_blocks_of};
use office_types::{Block, BlockForm, GrantedBlock, SpnBlock, Team};
use std::alloc::{AllocError, Global};

/// The numbers of the team's blocks of a form on the network.
pub(crate) fn team_blocks(case: &Case<'_>, form: BlockForm) -> Result<Vec<Block>, AllocError>
    ensures { IfOk result (λ blocks. blocks.items
        ≡ (if is_spn form then spn_blocks_of case.now.book.now case.now.net.now.name case.now.team.now
        else blocks_of case.now.net.now.blocks case.now.team.now form)) }
{
    if is_spn(form) {
        spn_blocks_of(case.alloc, case.book, &case.net.name, case.team)
    } else {
        blocks_of(case.alloc, case.net.blocks.as_slice(), case.team, form)
    }
}

/// The ranges of the blocks.
fn ranges_of(alloc: Global, blocks: &[Block]) -> Result<Vec<String>, AllocError>
    ensures { IfOk result
        (λ ranges. map (λ s. string_bytes s) ranges.items ≡ map range_text blocks.now) }
{
    let mut ranges = Vec::new(alloc);
    for block in blocks {
        let range = range_text(alloc, *block)?;
        ranges.push(range)?;
    }
    Ok(ranges)
}

/// A few of the ranges in words.
pub(crate) fn ranges_text(alloc: Global, blocks: &[Block]) -> Result<String, AllocError>
    ensures { IfOk result
        (λ text. string_bytes text ≡ few_text (map range_text blocks.now)) }
{
    let ranges = ranges_of(alloc, blocks)?;
    few_text(alloc, &ranges)
}

/// A block by its form and its numbers.
fn own_text(alloc: Global, form: BlockForm, block: Block) -> Result<String, AllocError>
    ensures { IfOk result (λ text. string_bytes text ≡ own_text form block) }
{
    let form = form.word();
    let range = range_text(alloc, block)?;
    let range = range.as_str();
    format!(in alloc; "{form} {range}")
}

/// The blocks of the team on the network, whatever their form.
fn own_blocks(case: &Case<'_>) -> Result<Vec<String>, AllocError> {
    let alloc = case.alloc;
    let mut list = Vec::new(alloc);
    for granted in case.net.blocks.as_slice() {
        if granted.team == *case.team {
            let text = own_text(alloc, granted.block.form(), granted.block.numbers())?;
            list.push(text)?;
        }
    }
    for block in team_blocks(case, BlockForm::Spn)? {
        let text = own_text(alloc, BlockForm::Spn, block)?;
        list.push(text)?;
    }
    Ok(list)
}

/// A block by its numbers and its team.
fn team_text(alloc: Global, block: Block, team: &Team) -> Result<String, AllocError>
    ensures { IfOk result (λ text. string_bytes text ≡ team_text block team.now) }
{
    let range = range_text(alloc, block)?;
    let range = range.as_str();
    let team = shown(team.as_bytes());
    format!(in alloc; "{range} of {team}")
}

/// The numbers of the block.
pub(crate) fn spn_numbers(granted: &SpnBlock) -> Block
    ensures { result ≡ spn_numbers granted.now }
{
    Block {
        first: granted.first,
        last: granted.last,
    }
}

/// The blocks of the form on the network, whosever they are.
fn blocks_of_form(case: &Case<'_>, form: BlockForm) -> Result<Vec<String>, AllocError> {
    let alloc = case.alloc;
    let mut list = Vec::new(alloc);
    for granted in case.net.blocks.as_slice() {
        if granted.block.form() == form {
            let text = team_text(alloc, granted.block.numbers(), &granted.team)?;
            list.push(text)?;
        }
    }
    for granted in case.book.blocks.as_slice() {
        if is_spn(form) && granted.net == case.net.name {
            let text = team_text(alloc, spn_numbers(granted), &granted.team)?;
            list.push(text)?;
        }
    }
    Ok(list)
}

/// Which blocks the team has on the network; `None` where it has none.
pub(crate) fn owned_text(case: &Case<'_>) -> Told {
    let own = own_blocks(case)?;
    if own.is_empty() {
        return Ok(None);
    }
    let own = few_text(case.alloc, &own)?;
    let own = own.as_str();
    told(format!(in case.alloc; "it has {own}"))
}

/// Which blocks there are instead of one of the form: the team's own of other forms, or those of other teams.
fn instead_text(case: &Case<'_>, form: BlockForm) -> Result<String, AllocError> {
    if let Some(own) = owned_text(case)? {
        return Ok(own);
    }
    let others = blocks_of_form(case, form)?;
    if others.is_empty() {
        return String::from_str(case.alloc, "no team has one");
    }
    let others = few_text(case.alloc, &others)?;
    let others = others.as_str();
    format!(in case.alloc; "there are {others}")
}

/// That the team has no block of the form on the network, and which there are.
pub(crate) fn no_block(case: &Case<'_>, form: BlockForm) -> Result<String, AllocError> {
    let instead = instead_text(case, form)?;
    let instead = instead.as_str();
    let form = form.word();
    let team = shown(case.team.as_bytes());
    let name = shown(case.net.name.as_bytes());
    format!(in case.alloc; "team {team} has no {form} block on {name}; {instead}")
}

/// How far the number is from the block: 0 where it is in it.
fn distance(number: u32, block: Block) -> u32
    ensures { result ≡ distance number block }
{
    if number < block.first {
        block.first - number
    } else {
        number.saturating_sub(block.last)
    }
}

/// The block that is nearer to the number, the first of two that are as near.
fn nearer(number: u32, best: Option<Block>, block: Block) -> Option<Block>
    ensures { result ≡ nearer number best block }
{
    let Some(best) = best else {
        return Some(block);
    };
    if distance(number, best) <= distance(number, block) {
        Some(best)
    } else {
        Some(block)
    }
}

/// The block that is nearest to the number, the first of several that are as near.
pub(crate) fn nearest(number: u32, blocks: &[Block]) -> Option<Block>
    ensures { result ≡ nearest_of number blocks.now }
{
    let mut best = None;
    for block in blocks {
        best = nearer(number, best, *block);
    }
    best
}

/// Whether the block has the form and the number.
fn holds(form: BlockForm, number: u32, granted: &GrantedBlock) -> bool
    ensures { result ≡ holder_of form number granted.now }
{
    let numbers = granted.block.numbers();
    granted.block.form() == form && numbers.first <= number && number <= numbers.last
}

/// The first of the blocks that has the form and the number.
pub(crate) fn block_with(
    blocks: &[GrantedBlock],
    form: BlockForm,
    number: u32,
) -> Option<&GrantedBlock>
    ensures { option_copied result ≡ find (holder_of form number) blocks.now }
{
    blocks.iter().find(|granted| holds(form, number, granted))
}
