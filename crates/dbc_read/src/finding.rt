//! Which node, message or signal of the lines each statement cites, as statements come one by one.
//!
//! A message is found by its number, and a signal by its name among those of its message. The one after the signal that
//! was found last is tried first, and then that one again. If the name is another's, few signals are compared one by
//! one, from there on and round; among many it is guessed (`guesses`), and if the guess is wrong, there is a binary
//! search (`orders`), so that no order of citations takes long.
ghost use Rattle.std.specs.Prelude.{◌≡◌, ◌==◌, List, IfOk, IfSome, Some, false, map, nat_eq, slice_get, true};
ghost use Rattle.std.specs.List.{IsDistinct};
ghost use Rattle.std.specs.Str.{bytes_eq};
ghost use Rattle.dbc_grammar.specs.Statement as dbc;
ghost use Rattle.dbc_sheet.specs.declared.signal.Signal.{Signal};
ghost use Rattle.dbc_read.specs.Attaching.{AreIndicesOf, CitesSignalAt, cites_signal};
ghost use Rattle.dbc_read.specs.Finding.{Finds, FindsAll, FindsSignals};
ghost use Rattle.dbc_read.specs.Lookup.{IsIndexIn};
ghost use Rattle.dbc_read.specs.Lookups.{IsCitedIndex};
ghost use Rattle.dbc_read.specs.Orders.{IsOrderOf, signal_names};
ghost use Rattle.dbc_statements.specs.Statement.{content_of};
ghost use Rattle.dbc_statements.specs.declared.statement.MessageLine.{MessageLine};

use crate::attaching::SignalIndices;
use crate::keys::add_names;
use crate::lookup::{Lookup, lookup_of};
use crate::numbers::{Numbers, numbers_of};
use crate::orders::{OrderOfMany, orders_of, search};
use dbc_sheet::Signal;
use dbc_statements::{CitedSignal, Content, MessageLine, NodeName};
use std::alloc::{AllocError, Global};

/// The nodes, the messages and the signals of a file, by their indices.
pub(crate) struct Finders<'s> {
    /// The names of the nodes.
    pub nodes: Lookup<&'s [u8]>,
    /// The numbers of the messages.
    pub numbers: Numbers,
    /// The order of the signals of each message.
    pub orders: Vec<OrderOfMany>,
}

/// What finds these nodes and messages. `None` if two messages have the same number, or one has 65,536 signals or more.
pub(crate) fn finders_of<'s>(
    alloc: Global,
    nodes: &'s [NodeName],
    lines: &[MessageLine],
) -> Result<Option<Finders<'s>>, AllocError>
    ensures signals { IfOk result
        (λ found. IfSome found (λ finders. FindsSignals finders lines.now)) }
    ensures all { IfOk result
        (λ found. IfSome found (λ finders. FindsAll finders nodes.now lines.now)) }
{
    let numbers = match numbers_of(alloc, lines)? {
        Some(numbers) => numbers,
        None => return Ok(None),
    };
    let orders = match orders_of(alloc, lines)? {
        Some(orders) => orders,
        None => return Ok(None),
    };
    let mut names = Vec::new(alloc);
    add_names(nodes, &mut names)?;
    let nodes = lookup_of(alloc, names)?;
    Ok(Some(Finders {
        nodes,
        numbers,
        orders,
    }))
}

/// The node and the message that were found last, and the index after that of the signal that was.
#[derive(Clone, Copy)]
pub(crate) struct LastFound {
    node: usize,
    message: usize,
    next: usize,
}

/// Whether the signal at the index has that name.
fn has_at(signals: &[Signal], index: usize, name: &[u8]) -> bool
    ensures { result ≡ true → slice_get (map (λ (s : Signal). bytes_eq s.name name.now) signals.now)
        index ≡ Some true }
{
    match signals.get(index) {
        Some(signal) => signal.name.as_bytes() == name,
        None => false,
    }
}

/// The index of the first signal of that name.
fn first_named(signals: &[Signal], name: &[u8]) -> Option<usize>
    ensures { IsIndexIn (λ (s : Signal). bytes_eq s.name name.now) signals.now result }
{
    for index in 0..signals.len() {
        if signals[index].name.as_bytes() == name {
            return Some(index);
        }
    }
    None
}

/// The index of a signal of that name. Those from `next` on are tried first.
fn named(signals: &[Signal], name: &[u8], next: usize) -> Option<usize>
    ensures { IsIndexIn (λ (s : Signal). bytes_eq s.name name.now) signals.now result }
{
    let (before, after) = signals.split_at(next.min(signals.len()));
    match first_named(after, name) {
        Some(index) => Some(before.len() + index),
        None => first_named(before, name),
    }
}

/// The index of a signal of that name, wherever it is. Few signals are compared one by one, those from `next` on first;
/// among many it is guessed, and if the guess is wrong, there is a binary search.
#[inline(never)]
fn anywhere(signals: &[Signal], order: &OrderOfMany, name: &[u8], next: usize) -> Option<usize>
    requires { IsOrderOf (signal_names signals.now) order.now }
    ensures { IsIndexIn (λ (s : Signal). bytes_eq s.name name.now) signals.now result }
{
    match order {
        Some(order) => {
            let guessed = order.guesses.guess(name);
            if has_at(signals, guessed, name) {
                Some(guessed)
            } else {
                search(signals, &order.indices, name)
            }
        }
        None => named(signals, name, next),
    }
}

impl LastFound {
    /// Nothing was found yet.
    pub(crate) fn new() -> LastFound {
        LastFound {
            node: 0,
            message: 0,
            next: 0,
        }
    }

    /// The index of the message of that number.
    #[inline(always)]
    fn message_index(&mut self, numbers: &Numbers, number: u32) -> Option<usize>
        ensures index { IsIndexIn (λ n. n == number) numbers.now result }
        ensures distinct { IsDistinct nat_eq numbers.now }
    {
        let found = numbers.find(number, self.message);
        if let Some(message) = found {
            if message != self.message {
                self.message = message;
                self.next = 0;
            }
        }
        found
    }

    /// The index of a signal of that name among those of the message that was found last. The one after the signal that
    /// was found last is tried first, and then that one.
    fn signal_index(
        &mut self,
        signals: &[Signal],
        order: &OrderOfMany,
        name: &[u8],
    ) -> Option<usize>
        requires { IsOrderOf (signal_names signals.now) order.now }
        ensures { IsIndexIn (λ (s : Signal). bytes_eq s.name name.now) signals.now result }
    {
        let next = self.next;
        if has_at(signals, next, name) {
            self.next = next.saturating_add(1);
            return Some(next);
        }
        let last = next.saturating_sub(1);
        if has_at(signals, last, name) {
            return Some(last);
        }
        let found = anywhere(signals, order, name, next);
        if let Some(index) = found {
            self.next = index.saturating_add(1);
        }
        found
    }

    /// The indices of the signal of that name in the message of that number, if the file has it.
    #[tactic(auto, using(crate::proofs::SignalIndices::number_within))]
    fn indices_in(
        &mut self,
        finders: &Finders,
        lines: &[MessageLine],
        number: u32,
        name: &[u8],
    ) -> Option<SignalIndices>
        requires { FindsSignals finders.now lines.now }
        ensures { AreIndicesOf lines.now (Some number) name.now result }
    {
        match self.message_index(&finders.numbers, number) {
            Some(message) => {
                let order = &finders.orders[message];
                match self.signal_index(&lines[message].signals, order, name) {
                    Some(signal) => Some(SignalIndices { message, signal }),
                    None => None,
                }
            }
            None => None,
        }
    }

    /// The indices of the signal that is cited, if the file has it.
    fn indices_of(
        &mut self,
        finders: &Finders,
        lines: &[MessageLine],
        cited: &CitedSignal,
    ) -> Option<SignalIndices>
        requires { FindsSignals finders.now lines.now }
        ensures { AreIndicesOf lines.now cited.now.number cited.now.name.now result }
    {
        match cited.number {
            Some(number) => self.indices_in(finders, lines, number, cited.name),
            None => None,
        }
    }

    /// The indices of the signal that the content cites, if it cites one and the file has it.
    pub(crate) fn indices_cited(
        &mut self,
        finders: &Finders,
        lines: &[MessageLine],
        content: &Content,
    ) -> Option<SignalIndices>
        requires { FindsSignals finders.now lines.now }
        ensures { CitesSignalAt lines.now content.now result }
    {
        let cited = match content {
            Content::SignalComment(cited, _) => cited,
            Content::ValueTexts(cited, _) => cited,
            Content::ValueType(cited, _) => cited,
            Content::Spn(cited, _) => cited,
            _ => return None,
        };
        self.indices_of(finders, lines, cited)
    }

    /// The index of the node or the message that is cited, if one is and the file has it.
    pub(crate) fn index(&mut self, finders: &Finders, content: &Content) -> Option<usize>
        requires { cites_signal content.now ≡ false }
        ensures { (lines : List MessageLine) (statements : List dbc.Statement)
            → Finds finders.now lines statements
            → IsCitedIndex statements (content_of content.now) result }
    {
        match content {
            Content::NodeComment(name, _) => finders.nodes.find(name, &mut self.node),
            Content::MessageComment(cited, _) => match *cited {
                Some(number) => self.message_index(&finders.numbers, number),
                None => None,
            },
            _ => None,
        }
    }
}

impl Drop for Finders<'_> {
    fn drop(self) {
        let Finders {
            nodes: _nodes,
            numbers: _numbers,
            orders: _orders,
        } = self;
    }
}
