//! Values that are given under names, and looking them up.
ghost use Rattle.std.specs.Prelude.{◌≡◌, ◌↔◌, ◌<◌, ◌∷◌, [], length, IfSome, IsTrue, MatchOption};
ghost use Rattle.office_fields.specs.Field.{row_of};
ghost use Rattle.office_fields.specs.Given.{named_values, values_of, is_name_of, are_known, read_once};
ghost use Rattle.office_fields.specs.Given.{read_at_most_once, read_each};
ghost use Rattle.office_fields.specs.Reading.{ReadsField};

use crate::field::Field;
use crate::unread::Unread;
use base::Items;
use std::alloc::Global;

/// A value that is given under a name.
#[derive(Drop)]
pub struct GivenValue<'a> {
    /// The name.
    pub name: &'a [u8],
    /// The bytes of the value.
    pub value: Vec<u8>,
}

/// A value that bytes give.
pub(crate) trait FieldValue {
    ghost use Rattle.std.specs.Prelude.{ℕ, List, Option};

    /// The value that bytes give, if they give one.
    ghost read: { List ℕ → Option Self };

    /// The value that the bytes give. `Wrong` where they give none.
    fn of(alloc: Global, bytes: &[u8]) -> Result<Self, Unread>
        ensures { ReadsField (read bytes.now) result };
}

/// The first value that is given under a name, and what is given after it.
#[derive(Clone, Copy)]
struct FirstValue<'v, 'a> {
    value: &'v [u8],
    rest: &'v [GivenValue<'a>],
}

fn first_of<'v, 'a>(values: &'v [GivenValue<'a>], name: &str) -> Option<FirstValue<'v, 'a>>
    ensures first { MatchOption result (values_of (named_values values.now) name.now ≡ [])
        (λ f. values_of (named_values values.now) name.now
        ≡ f.value.now ∷ values_of (named_values f.rest.now) name.now) }
    ensures shorter { IfSome result (λ f. length f.rest.now < length values.now) }
{
    for (index, given) in values.iter().enumerate() {
        if given.name == name.as_bytes() {
            return Some(FirstValue {
                value: given.value.as_slice(),
                rest: &values[index + 1..],
            });
        }
    }
    None
}

/// Whether nothing is given under the name.
fn has_none(values: &[GivenValue<'_>], name: &str) -> bool
    ensures { IsTrue result ↔ (values_of (named_values values.now) name.now ≡ []) }
{
    first_of(values, name).is_none()
}

/// The value of a field that is given exactly once.
pub(crate) fn once<T: FieldValue>(
    alloc: Global,
    values: &[GivenValue<'_>],
    field: Field,
) -> Result<T, Unread>
    ensures { ReadsField (read_once T.read
        (values_of (named_values values.now) (row_of field).name)) result }
{
    let Some(first) = first_of(values, field.name()) else {
        return Err(Unread::Wrong);
    };
    if !has_none(first.rest, field.name()) {
        return Err(Unread::Wrong);
    }
    T::of(alloc, first.value)
}

/// The value of a field that is given at most once.
pub(crate) fn at_most_once<T: FieldValue>(
    alloc: Global,
    values: &[GivenValue<'_>],
    field: Field,
) -> Result<Option<T>, Unread>
    ensures { ReadsField (read_at_most_once T.read
        (values_of (named_values values.now) (row_of field).name)) result }
{
    let Some(first) = first_of(values, field.name()) else {
        return Ok(None);
    };
    if !has_none(first.rest, field.name()) {
        return Err(Unread::Wrong);
    }
    Ok(Some(T::of(alloc, first.value)?))
}

/// All values of a field, in order.
pub(crate) fn each<T: FieldValue + Drop>(
    alloc: Global,
    values: &[GivenValue<'_>],
    field: Field,
) -> Result<Items<T>, Unread>
    ensures { ReadsField (read_each T.read
        (values_of (named_values values.now) (row_of field).name)) result }
{
    let mut items = Vec::new(alloc);
    for given in values {
        if given.name == field.name().as_bytes() {
            items.push(T::of(alloc, given.value.as_slice())?)?;
        }
    }
    Ok(Items::from_vec(items))
}

/// Whether the name is that of one of the fields.
fn is_name_of(fields: &[Field], name: &[u8]) -> bool
    ensures { result ≡ is_name_of fields.now name.now }
{
    fields.iter().any(|field| field.name().as_bytes() == name)
}

/// Whether each name is that of one of the fields.
pub(crate) fn are_known(fields: &[Field], values: &[GivenValue<'_>]) -> bool
    ensures { result ≡ are_known fields.now (named_values values.now) }
{
    values.iter().all(|given| is_name_of(fields, given.name))
}
