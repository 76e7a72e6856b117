//! The signals of each message in ascending order of their names, so that one is found by binary search.
//!
//! Most messages have few signals, and comparing so few names one by one takes no longer. Only the others have an
//! order. It is a list of indices: signals change when something is attached to them, so no references to names can be
//! kept.
ghost use Rattle.std.specs.Prelude.{◌≡◌, [], get_or, length, map, IfOk, IfSome};
ghost use Rattle.std.specs.Str.{bytes_eq};
ghost use Rattle.dbc_sheet.specs.declared.signal.Signal.{Signal};
ghost use Rattle.dbc_read.specs.Lookup.{IsIndexIn};
ghost use Rattle.dbc_read.specs.Orders.{AreOrdersOf, IsAscending, IsOrderOf, signal_names};
ghost use Rattle.dbc_statements.specs.Statement.{message_of};

use crate::guesses::Guesses;
use dbc_sheet::Signal;
use dbc_statements::MessageLine;
use std::alloc::{AllocError, Global};

/// How one of many signals of a message is found.
pub(crate) struct NameOrder {
    /// The indices of the signals in ascending order of their names.
    pub indices: Vec<u16>,
    /// Guesses of a signal by its name.
    pub guesses: Guesses,
}

/// The order of a message's signals, or none if they are few. It is in a block of its own, since few messages have one.
pub(crate) type OrderOfMany = Option<Box<NameOrder>>;

/// Up to how many signals of a message are compared one by one.
const FEW_SIGNALS: usize = 16;

/// The name of the signal at the index, or an empty one where there is none.
fn name_at(signals: &[Signal], index: u16) -> &[u8]
    ensures { result.now ≡ get_or (signal_names signals.now) index [] }
{
    match signals.get(usize::from(index)) {
        Some(signal) => signal.name.as_bytes(),
        None => &[],
    }
}

/// The indices of the signals, which are that many, in ascending order of their names.
fn ascending(alloc: Global, signals: &[Signal], count: u16) -> Result<Vec<u16>, AllocError>
    requires { count ≡ length signals.now }
    ensures { IfOk result (λ order. IsAscending (signal_names signals.now) order.items) }
{
    let mut order = Vec::with_capacity(alloc, signals.len())?;
    for index in 0..count {
        order.push(index)?;
    }
    order.sort_by(|a: &u16, b: &u16| name_at(signals, *a).cmp(name_at(signals, *b)))?;
    Ok(order)
}

/// The order of the signals of a message, or none if they are few. `None` if they are 65,536 or more.
fn order_of(alloc: Global, signals: &[Signal]) -> Result<Option<OrderOfMany>, AllocError>
    ensures { IfOk result (λ found. IfSome found (IsOrderOf (signal_names signals.now))) }
{
    if signals.len() <= FEW_SIGNALS {
        return Ok(Some(None));
    }
    let count = match u16::try_from(signals.len()) {
        Ok(count) => count,
        Err(_) => return Ok(None),
    };
    let indices = ascending(alloc, signals, count)?;
    let guesses = Guesses::of(alloc, signals, count)?;
    let order = Box::new(alloc, NameOrder { indices, guesses })?;
    Ok(Some(Some(order)))
}

/// The order of the signals of each message. `None` if a message has 65,536 signals or more, which no sheet has.
pub(crate) fn orders_of(
    alloc: Global,
    lines: &[MessageLine],
) -> Result<Option<Vec<OrderOfMany>>, AllocError>
    ensures { IfOk result (λ found. IfSome found
        (λ orders. AreOrdersOf (map message_of lines.now) orders.items)) }
{
    let mut orders = Vec::with_capacity(alloc, lines.len())?;
    for line in lines {
        match order_of(alloc, &line.signals)? {
            Some(order) => orders.push(order)?,
            None => return Ok(None),
        }
    }
    Ok(Some(orders))
}

/// The index of a signal of that name, found by binary search in the order of the signals.
pub(crate) fn search(signals: &[Signal], order: &[u16], name: &[u8]) -> Option<usize>
    requires { IsAscending (signal_names signals.now) order.now }
    ensures { IsIndexIn (λ (s : Signal). bytes_eq s.name name.now) signals.now result }
{
    match order.binary_search_by(|index: &u16| name_at(signals, *index).cmp(name)) {
        Ok(at) => Some(usize::from(order[at])),
        Err(_) => None,
    }
}

impl Drop for NameOrder {
    fn drop(self) {
        let NameOrder {
            indices: _indices,
            guesses: _guesses,
        } = self;
    }
}
