//! Signals of live messages.
ghost use Rattle.office_fields.specs.Kind.{coding_of, path_of, scaling_of, set_values_of, take_bits_of, take_spn_of};
ghost use Rattle.office_fields.specs.Given.{named_values};
ghost use Rattle.office_fields.specs.Reading.{ReadsField};

use crate::field::Field;
use crate::given::{GivenValue, at_most_once, each, once};
use crate::unread::Unread;
use bitlayout::{Mux, Order, Size};
use decimal::Decimal;
use office_types::{SetValues, SignalPath, TakeBits, TakeSpn};
use std::alloc::Global;

/// How the raw value of a new signal is written.
#[derive(Clone, Copy)]
pub(crate) struct Coding {
    pub(crate) size: Size,
    pub(crate) order: Order,
    pub(crate) signed: bool,
    pub(crate) mux: Mux,
    pub(crate) start: Option<u16>,
}

/// What the physical value is of a raw value, and its range.
#[derive(Clone, Copy)]
pub(crate) struct Scaling {
    pub(crate) factor: Decimal,
    pub(crate) offset: Decimal,
    pub(crate) minimum: Decimal,
    pub(crate) maximum: Decimal,
}

pub(crate) fn path_of(alloc: Global, values: &[GivenValue<'_>]) -> Result<SignalPath, Unread>
    ensures { ReadsField (path_of (named_values values.now)) result }
{
    let message = once(alloc, values, Field::Message)?;
    let signal = once(alloc, values, Field::Signal)?;
    Ok(SignalPath { message, signal })
}

pub(crate) fn take_spn_of(alloc: Global, values: &[GivenValue<'_>]) -> Result<TakeSpn, Unread>
    ensures { ReadsField (take_spn_of (named_values values.now)) result }
{
    let same = at_most_once(alloc, values, Field::Same)?;
    let path = path_of(alloc, values)?;
    Ok(TakeSpn { path, same })
}

fn coding_of(alloc: Global, values: &[GivenValue<'_>]) -> Result<Coding, Unread>
    ensures { ReadsField (coding_of (named_values values.now)) result }
{
    let size = once(alloc, values, Field::Size)?;
    let order = once(alloc, values, Field::Order)?;
    let signed = once(alloc, values, Field::Signed)?;
    let mux: Option<Mux> = at_most_once(alloc, values, Field::Mux)?;
    let start = at_most_once(alloc, values, Field::Start)?;
    let mux = mux.unwrap_or(Mux::Always);
    Ok(Coding {
        size,
        order,
        signed,
        mux,
        start,
    })
}

fn scaling_of(alloc: Global, values: &[GivenValue<'_>]) -> Result<Scaling, Unread>
    ensures { ReadsField (scaling_of (named_values values.now)) result }
{
    let factor = once(alloc, values, Field::Factor)?;
    let offset = once(alloc, values, Field::Offset)?;
    let minimum = once(alloc, values, Field::Minimum)?;
    let maximum = once(alloc, values, Field::Maximum)?;
    Ok(Scaling {
        factor,
        offset,
        minimum,
        maximum,
    })
}

pub(crate) fn take_bits_of(alloc: Global, values: &[GivenValue<'_>]) -> Result<TakeBits, Unread>
    ensures { ReadsField (take_bits_of (named_values values.now)) result }
{
    let coding = coding_of(alloc, values)?;
    let scaling = scaling_of(alloc, values)?;
    let path = path_of(alloc, values)?;
    let unit = once(alloc, values, Field::Unit)?;
    let receivers = each(alloc, values, Field::Receiver)?;
    Ok(TakeBits {
        path,
        size: coding.size,
        order: coding.order,
        signed: coding.signed,
        mux: coding.mux,
        factor: scaling.factor,
        offset: scaling.offset,
        minimum: scaling.minimum,
        maximum: scaling.maximum,
        unit,
        receivers,
        start: coding.start,
    })
}

pub(crate) fn set_values_of(alloc: Global, values: &[GivenValue<'_>]) -> Result<SetValues, Unread>
    ensures { ReadsField (set_values_of (named_values values.now)) result }
{
    let path = path_of(alloc, values)?;
    let texts = each(alloc, values, Field::Value)?;
    Ok(SetValues {
        path,
        values: texts,
    })
}
