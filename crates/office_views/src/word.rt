//! The arguments of the subcommand `chart`, word by word.
ghost use Rattle.std.specs.Prelude.{◌≡◌, IfOk, IfSome, ◌≤◌};
ghost use Rattle.dbc_words.specs.Limits.{length_limit};
ghost use Rattle.office_views.specs.Word.{length_of, order_of, order_and_mark_of, place_of, signal_of};

use crate::number::whole_between;
use crate::signal::ChartSignal;
use base::{split_once, whole_number};
use bitlayout::{GREATEST_START, Layout, Mux, Order, Place, SIZE_LIMIT, Size};
use dbc_words::{LENGTH_LIMIT, Name, mux_of_indicator};
use std::alloc::{AllocError, Global};

/// The length of a message that the word gives, 0 to [`LENGTH_LIMIT`] bytes: digits only, where leading zeros don't
/// count. It is `None` if the word is no such number.
pub fn length_of(word: &[u8]) -> Option<u16>
    ensures value { result ≡ length_of word.now }
    ensures most { IfSome result (λ length. length ≤ length_limit) }
{
    let length = whole_between(word, 0, u32::from(LENGTH_LIMIT))?;
    Some(length as u16)
}

fn order_of(bytes: &[u8]) -> Option<Order>
    ensures { result ≡ order_of bytes.now }
{
    Order::from_number(whole_number(bytes)?)
}

fn order_and_mark_of(bytes: &[u8]) -> Option<(Order, Mux)>
    ensures { result ≡ order_and_mark_of bytes.now }
{
    match split_once(bytes, b',') {
        None => Some((order_of(bytes)?, Mux::Always)),
        Some((order, mark)) => Some((order_of(order)?, mux_of_indicator(mark)?)),
    }
}

fn place_of(bytes: &[u8]) -> Option<Place>
    ensures { result ≡ place_of bytes.now }
{
    let (start, rest) = split_once(bytes, b'|')?;
    let (size, rest) = split_once(rest, b'@')?;
    let start = whole_between(start, 0, u32::from(GREATEST_START))?;
    let size = whole_between(size, 1, u32::from(SIZE_LIMIT))?;
    let (order, mux) = order_and_mark_of(rest)?;
    let size = Size::new(size as u8)?;
    let start = start as u16;
    let layout = Layout { start, size, order };
    Some(Place { layout, mux })
}

/// The signal that the word describes, or `None` if the word is malformed.
///
/// The word is `name=start|size@order` and then nothing, `,M` or `,mN`: a [`Name`], then whole numbers written with
/// digits only, where leading zeros don't count. The start is 0 to [`GREATEST_START`], the size 1 to
/// [`SIZE_LIMIT`], the order 0 for Motorola or 1 for Intel, and N 0 to 4294967295. The error is out of memory.
pub fn signal_of(alloc: Global, word: &[u8]) -> Result<Option<ChartSignal>, AllocError>
    ensures { IfOk result (λ found. found ≡ signal_of word.now) }
{
    let Some((name, place)) = split_once(word, b'=') else {
        return Ok(None);
    };
    let Some(place) = place_of(place) else {
        return Ok(None);
    };
    match Name::of(alloc, name)? {
        Some(name) => Ok(Some(ChartSignal { name, place })),
        None => Ok(None),
    }
}
