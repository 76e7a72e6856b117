//! Numbers that may not be given out, and the least one that may.
ghost use Rattle.std.specs.Prelude.{◌≡◌, ◌++◌, ℕ, map, IfOk};
ghost use Rattle.std.specs.List.{filter_map};
ghost use Rattle.std.specs.List.Sorted.{IsStrictlyIncreasing};
ghost use Rattle.office_types.specs.Free.{is_taken, least_free};
ghost use Rattle.office_rules.specs.Facts.{group_of, number_in, taken_groups, taken_numbers};

use crate::idents::{group_of, number_in};
use crate::number_set::NumberSet;
use can_id::{Ident, IdentForm};
use office_types::{Block, LiveMessage, Net, NumberForm, is_ascending, least_free};
use std::alloc::{AllocError, Global};

/// The numbers of these live and these held identifiers that have the form. The error is out of memory.
pub fn numbers_of(
    alloc: Global,
    form: IdentForm,
    live: &[Ident],
    held: &[Ident],
) -> Result<Vec<u32>, AllocError>
    ensures { IfOk result (λ numbers. numbers.items ≡ filter_map (number_in form)
        (live.now ++ held.now)) }
{
    live.iter()
        .chain(held.iter())
        .filter_map(|ident| number_in(form, *ident))
        .collect(alloc)
}

/// The parameter groups of these live and these held identifiers. The error is out of memory.
pub fn groups_of(alloc: Global, live: &[Ident], held: &[Ident]) -> Result<Vec<u32>, AllocError>
    ensures { IfOk result (λ groups. groups.items ≡ filter_map group_of (live.now ++ held.now)) }
{
    live.iter()
        .chain(held.iter())
        .filter_map(|ident| group_of(*ident))
        .collect(alloc)
}

/// The identifiers of the live messages.
fn live_idents(alloc: Global, live: &[LiveMessage]) -> Result<Vec<Ident>, AllocError>
    ensures { IfOk result (λ idents. idents.items ≡ map (λ m. m.message.ident) live.now) }
{
    let mut idents = Vec::with_capacity(alloc, live.len())?;
    for one in live {
        idents.push(one.message.ident)?;
    }
    Ok(idents)
}

/// The numbers of the network's live and held identifiers of the form.
fn taken_numbers(alloc: Global, net: &Net, form: IdentForm) -> Result<Vec<u32>, AllocError>
    ensures { IfOk result (λ numbers. numbers.items ≡ taken_numbers net.now form) }
{
    let live = live_idents(alloc, net.live.as_slice())?;
    numbers_of(alloc, form, &live, net.held.as_slice())
}

/// The parameter groups of the network's live and held identifiers.
fn taken_groups(alloc: Global, net: &Net) -> Result<Vec<u32>, AllocError>
    ensures { IfOk result (λ groups. groups.items ≡ taken_groups net.now) }
{
    let live = live_idents(alloc, net.live.as_slice())?;
    groups_of(alloc, &live, net.held.as_slice())
}

/// The same numbers in ascending order, each once.
fn ascending(numbers: Vec<u32>) -> Result<Vec<u32>, AllocError>
    ensures rising { IfOk result (λ v. IsStrictlyIncreasing v.items) }
    ensures same { IfOk result (λ v. (n : ℕ) → is_taken n v.items ≡ is_taken n numbers.items) }
{
    if is_ascending(&numbers) {
        return Ok(numbers);
    }
    let mut rising = numbers;
    rising.sort()?;
    rising.dedup();
    Ok(rising)
}

/// The numbers of the network's live and held identifiers of the form, as a set. The error is out of memory.
pub fn number_set_of(alloc: Global, net: &Net, form: IdentForm) -> Result<NumberSet, AllocError>
    ensures { IfOk result (λ set. (n : ℕ)
        → is_taken n set ≡ is_taken n (taken_numbers net.now form)) }
{
    let numbers = taken_numbers(alloc, net, form)?;
    let rising = ascending(numbers)?;
    Ok(NumberSet::of(rising))
}

/// The least number that lies in one of the blocks, has the form and isn't one of these, if there is one.
fn least_beside(
    numbers: Vec<u32>,
    blocks: &[Block],
    form: NumberForm,
) -> Result<Option<u32>, AllocError>
    ensures { IfOk result (λ least. least ≡ least_free numbers.items blocks.now form) }
{
    let rising = ascending(numbers)?;
    Ok(least_free(&rising, blocks, form))
}

/// The numbers that may not be given out, as whoever keeps the network has them. They are looked at only where a
/// command needs a free one.
#[derive(Drop)]
pub enum TakenNumbers<'a> {
    /// A list of them, in any order.
    Listed(&'a [u32]),
    /// A set of them.
    Ascending(&'a NumberSet),
    /// Those of the network's live and held identifiers of the form.
    Idents(&'a Net, IdentForm),
    /// The network's live and held parameter groups.
    Groups(&'a Net),
}

impl TakenNumbers<'_> {
    ghost use Rattle.office_facts.specs.FactsOf.{taken_by};

    /// The least number that lies in one of the blocks, has the form and isn't taken, `None` where there is none. The
    /// error is out of memory.
    pub fn least_free(
        &self,
        alloc: Global,
        blocks: &[Block],
        form: NumberForm,
    ) -> Result<Option<u32>, AllocError>
        ensures { IfOk result (λ least. least ≡ least_free (taken_by self.now) blocks.now form) }
    {
        match self {
            TakenNumbers::Listed(numbers) => {
                let numbers = numbers.iter().copied().collect(alloc)?;
                least_beside(numbers, blocks, form)
            }
            TakenNumbers::Ascending(set) => Ok(set.least_free(blocks, form)),
            TakenNumbers::Idents(net, ident_form) => {
                let numbers = taken_numbers(alloc, net, *ident_form)?;
                least_beside(numbers, blocks, form)
            }
            TakenNumbers::Groups(net) => {
                let groups = taken_groups(alloc, net)?;
                least_beside(groups, blocks, form)
            }
        }
    }
}
