//! Networks and blocks.
ghost use Rattle.office_fields.specs.Kind.{grant_of, open_net_of, range_of};
ghost use Rattle.office_fields.specs.Given.{named_values};
ghost use Rattle.office_fields.specs.Reading.{ReadsField};

use crate::field::Field;
use crate::given::{GivenValue, once};
use crate::unread::Unread;
use office_types::{BlockForm, FormBlock, Grant, OpenNet};
use std::alloc::Global;

pub(crate) fn open_net_of(alloc: Global, values: &[GivenValue<'_>]) -> Result<OpenNet, Unread>
    ensures { ReadsField (open_net_of (named_values values.now)) result }
{
    let kind = once(alloc, values, Field::Kind)?;
    let reviews = once(alloc, values, Field::Reviews)?;
    Ok(OpenNet { kind, reviews })
}

fn range_of(form: BlockForm, first: u32, last: u32) -> Result<FormBlock, Unread>
    ensures { ReadsField (range_of form first last) result }
{
    FormBlock::new(form, first, last).ok_or(Unread::Wrong)
}

pub(crate) fn grant_of(alloc: Global, values: &[GivenValue<'_>]) -> Result<Grant, Unread>
    ensures { ReadsField (grant_of (named_values values.now)) result }
{
    let form = once(alloc, values, Field::BlockForm)?;
    let first = once(alloc, values, Field::First)?;
    let last = once(alloc, values, Field::Last)?;
    let block = range_of(form, first, last)?;
    let team = once(alloc, values, Field::Team)?;
    Ok(Grant { team, block })
}
