//! The differences of things that are known by name: nodes, value tables, the signals of a message.
ghost use Rattle.std.specs.Prelude.{◌≡◌, ◌++◌, ◌∷◌, [], None, Some, IfOk, OnOk};
ghost use Rattle.std.specs.List.{flat_map};
ghost use Rattle.std.specs.Option.{option_copied};
ghost use Rattle.dbc_words.specs.Named.{has_name, thing_named};
ghost use Rattle.dbc_compare.specs.Differences.{are_reordered, change_if, changes_since, differences_about};
ghost use Rattle.dbc_compare.specs.Differences.{gone_thing, kept_names, shown_thing, thing_differences};

use crate::difference::{Alteration, Difference};
use crate::fields::Compared;
use crate::place::Region;
use base::Copying;
use dbc_words::{Name, Named};
use std::alloc::{AllocError, Global};

/// Adds a difference of the place, or of a thing of the name there.
pub(crate) fn push_difference(
    alloc: Global,
    found: &mut Vec<Difference>,
    place: &Region,
    name: Option<Name>,
    change: &Alteration,
) -> Result<(), AllocError>
    ensures { OnOk result (found.new.items ≡ found.old.items
        ++ record { place = place.now; name = name; change = change.now } ∷ []) }
{
    let place = place.duplicate(alloc)?;
    let change = change.duplicate(alloc)?;
    found.push(Difference {
        place,
        name,
        change,
    })?;
    Ok(())
}

/// Adds the changes as differences of the place.
#[tactic(auto, unfolding(crate::specs::Differences::differences_about))]
pub(crate) fn push_here(
    alloc: Global,
    found: &mut Vec<Difference>,
    place: &Region,
    changes: &[Alteration],
) -> Result<(), AllocError>
    ensures { OnOk result (found.new.items
        ≡ found.old.items ++ differences_about place.now None changes.now) }
{
    for change in changes {
        push_difference(alloc, found, place, None, change)?;
    }
    Ok(())
}

/// Adds the changes as differences of the thing of the name in the place.
#[tactic(auto, unfolding(crate::specs::Differences::differences_about))]
fn push_named(
    alloc: Global,
    found: &mut Vec<Difference>,
    place: &Region,
    name: &Name,
    changes: &[Alteration],
) -> Result<(), AllocError>
    ensures { OnOk result (found.new.items
        ≡ found.old.items ++ differences_about place.now (Some name.now) changes.now) }
{
    for change in changes {
        let name = name.duplicate(alloc)?;
        push_difference(alloc, found, place, Some(name), change)?;
    }
    Ok(())
}

/// The thing of the name.
fn thing_named<'a, T: Named>(things: &'a [T], name: &Name) -> Option<&'a T>
    ensures { option_copied result ≡ thing_named T.name_of things.now name.now }
{
    for thing in things {
        if thing.name() == name {
            return Some(thing);
        }
    }
    None
}

/// Whether one of the things has the name.
fn has_name<T: Named>(things: &[T], name: &Name) -> bool
    ensures { result ≡ has_name T.name_of things.now name.now }
{
    things.iter().any(|thing| thing.name() == name)
}

/// The changes of a thing of the new list since it was the one that was found. The error is out of memory.
fn changes_since<T: Compared>(
    alloc: Global,
    found: Option<&T>,
    thing: &T,
) -> Result<Vec<Alteration>, AllocError>
    ensures { IfOk result (λ changes. changes.items
        ≡ changes_since T.changes_of (option_copied found.entry) thing.now) }
{
    match found {
        Some(old) => thing.changes_from(alloc, old),
        None => {
            let mut changes = Vec::new(alloc);
            changes.push(Alteration::Added)?;
            Ok(changes)
        }
    }
}

/// The change where the condition holds, and else none. The error is out of memory.
fn change_if(
    alloc: Global,
    condition: bool,
    change: Alteration,
) -> Result<Vec<Alteration>, AllocError>
    ensures { IfOk result (λ changes. changes.items ≡ change_if condition change) }
{
    let mut changes = Vec::new(alloc);
    if condition {
        changes.push(change)?;
    }
    Ok(changes)
}

/// The names of the things that are among the others too, in order. The error is out of memory.
fn kept_names<T: Named>(alloc: Global, things: &[T], others: &[T]) -> Result<Vec<Name>, AllocError>
    ensures { IfOk result (λ names. names.items ≡ kept_names T.name_of things.now others.now) }
{
    let mut names = Vec::new(alloc);
    for thing in things {
        if has_name(others, thing.name()) {
            let name = thing.name().duplicate(alloc)?;
            names.push(name)?;
        }
    }
    Ok(names)
}

/// Whether the things that are in both lists are in another order. The error is out of memory.
fn are_reordered<T: Named>(alloc: Global, old: &[T], new: &[T]) -> Result<bool, AllocError>
    ensures { IfOk result (λ answer. answer ≡ are_reordered T.name_of old.now new.now) }
{
    let before = kept_names(alloc, old, new)?;
    let after = kept_names(alloc, new, old)?;
    Ok(!(before.as_slice() == after.as_slice()))
}

/// Adds the differences of the things of the new list, in its order.
fn push_shown<T: Compared>(
    alloc: Global,
    found: &mut Vec<Difference>,
    place: &Region,
    old: &[T],
    new: &[T],
) -> Result<(), AllocError>
    ensures { OnOk result (found.new.items ≡ found.old.items
        ++ flat_map (shown_thing place.now T.name_of T.changes_of old.now) new.now) }
{
    for thing in new {
        let changes = changes_since(alloc, thing_named(old, thing.name()), thing)?;
        push_named(alloc, found, place, thing.name(), &changes)?;
    }
    Ok(())
}

/// Adds the differences of the things of the old list that are gone, in its order.
fn push_gone<T: Named>(
    alloc: Global,
    found: &mut Vec<Difference>,
    place: &Region,
    old: &[T],
    new: &[T],
) -> Result<(), AllocError>
    ensures { OnOk result (found.new.items ≡ found.old.items
        ++ flat_map (gone_thing place.now T.name_of new.now) old.now) }
{
    for thing in old {
        let changes = change_if(alloc, !has_name(new, thing.name()), Alteration::Removed)?;
        push_named(alloc, found, place, thing.name(), &changes)?;
    }
    Ok(())
}

/// Adds the difference of the order of those that are in both lists.
fn push_order<T: Named>(
    alloc: Global,
    found: &mut Vec<Difference>,
    place: &Region,
    old: &[T],
    new: &[T],
) -> Result<(), AllocError>
    ensures { OnOk result (found.new.items ≡ found.old.items ++ differences_about place.now None
        (change_if (are_reordered T.name_of old.now new.now) Alteration.Reordered)) }
{
    let reordered = are_reordered(alloc, old, new)?;
    let changes = change_if(alloc, reordered, Alteration::Reordered)?;
    push_here(alloc, found, place, &changes)
}

/// Adds the differences of the things: those of the new list in its order, then those that are gone, then the order of
/// those that are in both.
#[tactic(auto, unfolding(crate::specs::Differences::thing_differences))]
pub(crate) fn push_things<T: Compared>(
    alloc: Global,
    found: &mut Vec<Difference>,
    place: &Region,
    old: &[T],
    new: &[T],
) -> Result<(), AllocError>
    ensures { OnOk result (found.new.items ≡ found.old.items
        ++ thing_differences place.now T.name_of T.changes_of old.now new.now) }
{
    push_shown(alloc, found, place, old, new)?;
    push_gone(alloc, found, place, old, new)?;
    push_order(alloc, found, place, old, new)
}
