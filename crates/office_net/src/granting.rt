//! Granting a block.
ghost use Rattle.std.specs.Prelude.{◌≡◌, [], IfOk, Some, if◌then◌else◌};
ghost use Rattle.std.specs.List.{list_any};
ghost use Rattle.base.specs.Refusing.{first_refusal};
ghost use Rattle.office_types.specs.Block.{have_common, is_spn};
ghost use Rattle.office_types.specs.declared.book.SpnBook.{SpnBook as Book};
ghost use Rattle.office_types.specs.declared.state.Net.{Net as NetModel};
ghost use Rattle.office_rules.specs.Change.{Decides};
ghost use Rattle.office_rules.specs.Facts.{is_spn_granted};
ghost use Rattle.office_rules.specs.Opening.{bare_net, grant, grant_tests};
ghost use Rattle.office_net.specs.FactsOf.{with_parts};
ghost use Rattle.office_net.specs.Granting.{IsAsGoodFor, grant_change};

use base::Copying;
use office_facts::{is_j1939, one_change, refusal_decision};
use office_types::{
    BlockForm, Change, Decision, FormBlock, Grant, GrantedBlock, Head, NetName, Refusal, Reply,
    SpnBlock, SpnBook, Team, is_office,
};
use std::alloc::{AllocError, Global};

/// Whether both blocks have the same form and a number in common.
fn blocks_have_common(a: FormBlock, b: FormBlock) -> bool
    ensures { result ≡ have_common a b }
{
    a.form() == b.form()
        && a.numbers().first <= b.numbers().last
        && b.numbers().first <= a.numbers().last
}

/// Whether a number of the block is granted in its form among these blocks of a network.
fn is_granted(blocks: &[GrantedBlock], block: FormBlock) -> bool
    ensures { result ≡ list_any (λ g. have_common g.block block) blocks.now }
{
    blocks
        .iter()
        .any(|granted| blocks_have_common(granted.block, block))
}

/// Whether a suspect parameter number of the block is granted on any network.
fn is_spn_granted(book: &SpnBook, block: FormBlock) -> bool
    ensures { result ≡ is_spn_granted book.now block }
{
    let form = block.form();
    let numbers = block.numbers();
    book.blocks.as_slice().iter().any(|granted| {
        BlockForm::Spn == form && granted.first <= numbers.last && numbers.first <= granted.last
    })
}

/// Whether the numbers are suspect parameter numbers.
fn is_spn(form: BlockForm) -> bool
    ensures { result ≡ is_spn form }
{
    form == BlockForm::Spn
}

/// Whether a number of the block is granted already: in the book where the block is of suspect parameter numbers, and
/// else on a network that has these blocks, whatever the book.
fn is_block_taken(blocks: &[GrantedBlock], book: &SpnBook, command: &Grant) -> bool
    ensures { (other : Book) → IsAsGoodFor command.now book.now other
        → result ≡ (if is_spn command.now.block.form then is_spn_granted other command.now.block
        else list_any (λ g. have_common g.block command.now.block) blocks.now) }
{
    if is_spn(command.block.form()) {
        is_spn_granted(book, command.block)
    } else {
        is_granted(blocks, command.block)
    }
}

/// Why the team may not grant the block on a network that has this head and these blocks.
fn grant_refusal(
    team: &Team,
    head: &Head,
    blocks: &[GrantedBlock],
    book: &SpnBook,
    command: &Grant,
) -> Option<Refusal>
    ensures { (other : Book) → IsAsGoodFor command.now book.now other
        → result ≡ first_refusal (grant_tests team.now
        (Some (with_parts head.now blocks.now (bare_net [] head.now))) other command.now) }
{
    if !is_office(team) {
        Some(Refusal::NotOffice)
    } else if command.block.form() == BlockForm::Pgn && !is_j1939(head.kind) {
        Some(Refusal::NotJ1939)
    } else if is_block_taken(blocks, book, command) {
        Some(Refusal::BlockTaken)
    } else {
        None
    }
}

/// The change that grants the block on the network of this name. A block of suspect parameter numbers goes to the book.
fn granted(alloc: Global, name: &NetName, command: &Grant) -> Result<Change, AllocError>
    ensures { IfOk result (λ change. change ≡ grant_change name.now command.now) }
{
    let numbers = command.block.numbers();
    if is_spn(command.block.form()) {
        Ok(Change::SetSpnBlock(SpnBlock {
            net: name.duplicate(alloc)?,
            team: command.team.duplicate(alloc)?,
            first: numbers.first,
            last: numbers.last,
        }))
    } else {
        Ok(Change::SetBlock(GrantedBlock {
            block: command.block,
            team: command.team.duplicate(alloc)?,
        }))
    }
}

/// Decides the team's `grant` on a network of this name that has this head and these blocks. The book counts for a
/// block of suspect parameter numbers alone. The error is out of memory.
pub fn decide_grant(
    alloc: Global,
    team: &Team,
    name: &NetName,
    head: &Head,
    blocks: &[GrantedBlock],
    book: &SpnBook,
    command: &Grant,
) -> Result<Decision, AllocError>
    ensures { IfOk result (λ d. (net : NetModel) (other : Book)
        → IsAsGoodFor command.now book.now other
        → Decides name.now (record {
          net = Some (with_parts head.now blocks.now net);
          book =
              other;
        })
        (grant team.now name.now (Some (with_parts head.now blocks.now net)) other command.now) d) }
{
    if let Some(refusal) = grant_refusal(team, head, blocks, book, command) {
        return Ok(refusal_decision(alloc, refusal));
    }
    let change = granted(alloc, name, command)?;
    one_change(alloc, change, Reply::Done)
}
