//! The index of the names of a list. A short list has none: its names are compared one by one, which takes neither a
//! copy of each name nor more time than a look-up.
ghost use Rattle.std.specs.Prelude.{◌≡◌, ◌&&◌, ◌||◌, Decides, None, Some, option_map, not, IfOk, OnOk, OnErr};
ghost use Rattle.std.specs.Str.{bytes_eq};
ghost use Rattle.dbc_words.specs.Named.{AreNamedApart, HasNamesOf, IsIndexBy, IsIndexIff, IsNameIndex, has_name};

use crate::name::Name;
use crate::name_set::NameSet;
use crate::roster::Named;
use base::Copying;
use std::alloc::{AllocError, Global};

/// The set of the names, or none for a short list.
pub(crate) type NameIndex = Option<NameSet>;

/// A list of at most so many things is short.
const SHORT: usize = 16;

/// The set of the names of the things.
fn names_of<T: Named>(alloc: Global, things: &[T]) -> Result<NameSet, AllocError>
    ensures { IfOk result (λ names. HasNamesOf T.name_of things.now names) }
{
    let mut names = NameSet::new(alloc);
    for thing in things {
        names.insert(thing.name().duplicate(alloc)?)?;
    }
    Ok(names)
}

/// The set of the names, or `None` where two of the things have the same name.
fn names_apart<T: Named>(alloc: Global, things: &[T]) -> Result<Option<NameSet>, AllocError>
    ensures { IfOk result (λ found. IsIndexIff T.name_of things.now (option_map Some found)) }
{
    let mut names = NameSet::new(alloc);
    for thing in things {
        if !names.insert(thing.name().duplicate(alloc)?)? {
            return Ok(None);
        }
    }
    Ok(Some(names))
}

/// Whether one of the things has the name. They are compared one by one.
pub(crate) fn one_has_name<T: Named>(things: &[T], name: &Name) -> bool
    ensures { result ≡ has_name T.name_of things.now name.now }
{
    things.iter().any(|thing| thing.name() == name)
}

/// Whether no two of the things have the same name. Each is compared with those before it.
fn are_apart<T: Named>(things: &[T]) -> bool
    ensures { Decides result (AreNamedApart T.name_of things.now) }
{
    let mut seen = 0;
    while seen < things.len() {
        if one_has_name(&things[..seen], things[seen].name()) {
            return false;
        }
        seen += 1;
    }
    true
}

/// The index of the things, or `None` where two of them have the same name. Few things are compared without any memory.
pub(crate) fn index_apart<T: Named>(
    alloc: Global,
    things: &[T],
) -> Result<Option<NameIndex>, AllocError>
    ensures { IfOk result (λ found. IsIndexIff T.name_of things.now found) }
{
    if things.len() > SHORT {
        return match names_apart(alloc, things)? {
            Some(names) => Ok(Some(Some(names))),
            None => Ok(None),
        };
    }
    if are_apart(things) {
        Ok(Some(None))
    } else {
        Ok(None)
    }
}

/// Makes the index of the things, if they have none and one more makes them too many for a short list.
pub(crate) fn make_index<T: Named>(
    alloc: Global,
    things: &[T],
    index: &mut NameIndex,
) -> Result<(), AllocError>
    ensures { IsNameIndex T.name_of things.now index.old
        → IsNameIndex T.name_of things.now index.new }
{
    if index.is_none() && things.len() >= SHORT {
        *index = Some(names_of(alloc, things)?);
    }
    Ok(())
}

/// Adds the name to the index, if there is one. When memory runs out, nothing changes.
pub(crate) fn add_name(alloc: Global, name: &Name, index: &mut NameIndex) -> Result<(), AllocError>
    ensures ok { OnOk result (IsIndexBy (λ n b. bytes_eq name.now n || b) index.old index.new) }
    ensures err { OnErr result (IsIndexBy (λ _ b. b) index.old index.new) }
{
    match index {
        Some(names) => {
            names.insert(name.duplicate(alloc)?)?;
            Ok(())
        }
        None => Ok(()),
    }
}

/// Removes the name from the index, if there is one.
pub(crate) fn remove_name(name: &Name, index: &mut NameIndex)
    ensures { IsIndexBy (λ n b. not (bytes_eq name.now n) && b) index.old index.new }
{
    if let Some(names) = index {
        names.remove(name);
    }
}

/// An index of the same names.
pub(crate) fn copy_index(index: &NameIndex) -> Result<NameIndex, AllocError>
    ensures { IfOk result (λ copy. IsIndexBy (λ _ b. b) index.now copy) }
{
    match index {
        Some(names) => Ok(Some(names.duplicate()?)),
        None => Ok(None),
    }
}
