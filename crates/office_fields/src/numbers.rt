//! Numbers, by their digits.
ghost use Rattle.base.specs.WholeNumber.{whole_of};
ghost use Rattle.office_fields.specs.Reading.{ReadsField};
ghost use Rattle.office_fields.specs.Value.{decimal_token, decimal_of, whole_up_to};

use crate::given::FieldValue;
use crate::unread::Unread;
use base::whole_number;
use bitlayout::{GREATEST_START, SIZE_LIMIT, Size};
use dbc_words::PayloadLength;
use decimal::Decimal;
use office_types::{Priority, ReviewCount};
use std::alloc::Global;

/// The number that digits write.
fn whole_of(bytes: &[u8]) -> Result<u32, Unread>
    ensures { ReadsField (whole_of bytes.now) result }
{
    whole_number(bytes).ok_or(Unread::Wrong)
}

/// The number that digits write, up to the limit.
fn whole_up_to(limit: u32, bytes: &[u8]) -> Result<u32, Unread>
    ensures { ReadsField (whole_up_to limit bytes.now) result }
{
    let number = whole_of(bytes)?;
    if number <= limit {
        Ok(number)
    } else {
        Err(Unread::Wrong)
    }
}

impl FieldValue for u32 {
    ghost read = { whole_of };

    fn of(_alloc: Global, bytes: &[u8]) -> Result<u32, Unread> {
        whole_of(bytes)
    }
}

impl FieldValue for u16 {
    ghost use Rattle.dbc_words.specs.Limits.{start_limit};

    ghost read = { whole_up_to start_limit };

    fn of(_alloc: Global, bytes: &[u8]) -> Result<u16, Unread> {
        let number = whole_up_to(u32::from(GREATEST_START), bytes)?;
        Ok(number as u16)
    }
}

impl FieldValue for u8 {
    ghost read = { whole_up_to 255 };

    fn of(_alloc: Global, bytes: &[u8]) -> Result<u8, Unread> {
        let number = whole_up_to(u32::from(u8::MAX), bytes)?;
        Ok(number as u8)
    }
}

impl FieldValue for ReviewCount {
    ghost read = { whole_up_to 9 };

    fn of(_alloc: Global, bytes: &[u8]) -> Result<ReviewCount, Unread> {
        let number = whole_of(bytes)?;
        ReviewCount::new(number).ok_or(Unread::Wrong)
    }
}

impl FieldValue for PayloadLength {
    ghost use Rattle.dbc_words.specs.Limits.{length_limit};

    ghost read = { whole_up_to length_limit };

    fn of(_alloc: Global, bytes: &[u8]) -> Result<PayloadLength, Unread> {
        let number = whole_of(bytes)?;
        PayloadLength::new(number).ok_or(Unread::Wrong)
    }
}

impl FieldValue for Priority {
    ghost read = { whole_up_to 7 };

    fn of(_alloc: Global, bytes: &[u8]) -> Result<Priority, Unread> {
        let number = whole_of(bytes)?;
        Priority::new(number).ok_or(Unread::Wrong)
    }
}

impl FieldValue for Size {
    ghost use Rattle.office_fields.specs.Value.{size_of};

    ghost read = { size_of };

    fn of(_alloc: Global, bytes: &[u8]) -> Result<Size, Unread> {
        let number = whole_up_to(u32::from(SIZE_LIMIT), bytes)?;
        Size::new(number as u8).ok_or(Unread::Wrong)
    }
}

/// The decimal that the number token gives, negated or not.
fn decimal_token(negative: bool, bytes: &[u8]) -> Result<Decimal, Unread>
    ensures { ReadsField (decimal_token negative bytes.now) result }
{
    match Decimal::read(negative, bytes) {
        Ok(decimal) => Ok(decimal),
        Err(_) => Err(Unread::Wrong),
    }
}

/// The decimal that a number token gives, after one `-` or none.
pub(crate) fn decimal_of(bytes: &[u8]) -> Result<Decimal, Unread>
    ensures { ReadsField (decimal_of bytes.now) result }
{
    match bytes {
        [] => Err(Unread::Wrong),
        [b'-', digits @ ..] => decimal_token(true, digits),
        _ => decimal_token(false, bytes),
    }
}

impl FieldValue for Decimal {
    ghost read = { decimal_of };

    fn of(_alloc: Global, bytes: &[u8]) -> Result<Decimal, Unread> {
        decimal_of(bytes)
    }
}
