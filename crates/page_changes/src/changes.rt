//! The differences of two sheets, by message.
ghost use Rattle.std.specs.Prelude.{◌≡◌, ◌≤◌, ◌++◌, [], IfErr, IfOk, OnOk, count_by, filter, length, map};
ghost use Rattle.std.specs.List.{prefix_len};
ghost use Rattle.std.specs.List.Sorted.{IsStrictlySortedBy};
ghost use Rattle.std.specs.Ordering.{nat_cmp, on};
ghost use Rattle.base.specs.Ascending.{IsAt, IsGap};
ghost use Rattle.dbc_compare.specs.List.{breaks};
ghost use Rattle.page_changes.specs.Changes.{AreByNumber, AreRising, change_at, changes_in, is_beside};
ghost use Rattle.page_changes.specs.Changes.{is_elsewhere, is_gone, is_in_message, is_nothing, kept_if, list_of};
ghost use Rattle.page_changes.specs.Changes.{messages_in, name_at, name_in, number_at, old_number_at, old_number_in};
ghost use Rattle.page_changes.specs.Changes.{rank_in, rank_of, rank_of_change};
ghost use Rattle.page_changes.specs.Fates.{fate_by, fate_in};

use dbc_compare::{Alteration, Difference, Region, breaking_count};
use std::alloc::{AllocError, Global};

/// What has become of a message.
#[derive(Clone, Copy, PartialEq, Eq)]
pub enum Fate {
    /// It is new.
    Added,
    /// It is gone.
    Removed,
    /// It, or a signal of it, is another than it was.
    Changed,
}

/// What has changed between two sheets.
#[derive(Drop)]
pub struct Changes<'a> {
    /// The messages that differ, in ascending order of DBC number; one that is gone comes after the one that has its
    /// number now. Of each its differences, in order: those of the message itself, and then those of each signal.
    pub messages: Vec<&'a [Difference]>,
    /// How many other differences there are: of nodes, of value tables and of the sheet itself.
    pub others: usize,
    /// How many differences break a receiver.
    pub breaking: usize,
}

/// Whether the difference is in a message.
fn is_in_message(difference: &Difference) -> bool
    ensures { result ≡ is_in_message difference.now }
{
    matches!(difference.place, Region::Message { .. })
}

/// The DBC number of a place's message; 0 where it is in none.
fn number_at(place: &Region) -> u32
    ensures { result ≡ number_at place.now }
{
    match place {
        Region::Message { old: _, new } => new.ident.to_dbc(),
        _ => 0,
    }
}

/// Whether the message that the difference is in is gone.
fn is_gone(difference: &Difference) -> bool
    ensures { result ≡ is_gone difference.now }
{
    matches!(
        (&difference.name, &difference.change),
        (None, Alteration::Removed)
    )
}

/// The rank of the difference's message among those that differ: twice its DBC number, and one more where it is gone,
/// since another message may have that number now.
fn rank_of(difference: &Difference) -> u64
    ensures { result ≡ rank_of difference.now }
{
    let twice = 2 * u64::from(number_at(&difference.place));
    if is_gone(difference) {
        twice + 1
    } else {
        twice
    }
}

/// Whether both differences are in one message.
fn is_beside(a: &Difference, b: &Difference) -> bool
    ensures { result ≡ is_beside a.now b.now }
{
    is_in_message(a) && is_in_message(b) && rank_of(a) == rank_of(b)
}

/// How many of the differences in front are in the message of the one before them.
fn count_beside(first: &Difference, later: &[Difference]) -> usize
    ensures is { result ≡ prefix_len (is_beside first.now) later.now }
    ensures within { result ≤ length later.now }
{
    later.iter().take_while(|one| is_beside(first, one)).count()
}

/// Adds the differences, if they are in a message.
fn add_message<'a>(
    messages: &mut Vec<&'a [Difference]>,
    first: &Difference,
    own: &'a [Difference],
) -> Result<(), AllocError>
    ensures { OnOk result (map list_of messages.new.items
        ≡ map list_of messages.old.items ++ kept_if (is_in_message first.now) own.now) }
{
    if is_in_message(first) {
        messages.push(own)?;
    }
    Ok(())
}

/// The messages that the differences are in, each with those that are side by side.
fn message_changes<'a>(
    alloc: Global,
    differences: &'a [Difference],
) -> Result<Vec<&'a [Difference]>, AllocError>
    ensures { IfOk result (λ messages. map list_of messages.items ≡ messages_in differences.now) }
{
    let mut messages = Vec::new(alloc);
    let mut rest = differences;
    while let Some((first, later)) = rest.split_first() {
        let count = count_beside(first, later);
        let (own, after) = rest.split_at(1 + count);
        add_message(&mut messages, first, own)?;
        rest = after;
    }
    Ok(messages)
}

/// The DBC number that a place's message had; 0 where it is in none.
fn old_number_at(place: &Region) -> u32
    ensures { result ≡ old_number_at place.now }
{
    match place {
        Region::Message { old, new: _ } => old.ident.to_dbc(),
        _ => 0,
    }
}

/// The name of a place's message; no bytes where it is in none.
fn name_at(place: &Region) -> &[u8]
    ensures { result.now ≡ name_at place.now }
{
    match place {
        Region::Message { old: _, new } => new.name.as_bytes(),
        _ => &[],
    }
}

/// The rank of the message that differs so.
fn rank_in(differences: &[Difference]) -> u64
    ensures { result ≡ rank_in differences.now }
{
    match differences {
        [] => 0,
        [first, _later @ ..] => rank_of(first),
    }
}

/// The DBC number that the message had which differs so; where it was added, the one that it has.
pub(crate) fn old_number_in(differences: &[Difference]) -> u32
    ensures { result ≡ old_number_in differences.now }
{
    match differences {
        [] => 0,
        [first, _later @ ..] => old_number_at(&first.place),
    }
}

/// The name of the message that differs so.
pub(crate) fn name_in(differences: &[Difference]) -> &[u8]
    ensures { result.now ≡ name_in differences.now }
{
    match differences {
        [] => &[],
        [first, _later @ ..] => name_at(&first.place),
    }
}

/// What the difference says has become of its message.
fn fate_by(difference: &Difference) -> Fate
    ensures { result ≡ fate_by difference.now.name difference.now.change }
{
    match (&difference.name, &difference.change) {
        (None, Alteration::Added) => Fate::Added,
        (None, Alteration::Removed) => Fate::Removed,
        _ => Fate::Changed,
    }
}

/// What has become of the message that differs so.
pub(crate) fn fate_in(differences: &[Difference]) -> Fate
    ensures { result ≡ fate_in differences.now }
{
    match differences {
        [] => Fate::Changed,
        [first, _later @ ..] => fate_by(first),
    }
}

/// The index of the message of the rank, or the index at which it would go.
fn search(messages: &[&[Difference]], rank: u64) -> Result<usize, usize>
    ensures found { IsStrictlySortedBy (on rank_of_change nat_cmp) messages.now
        → IfOk result (IsAt rank_of_change messages.now rank) }
    ensures absent { IsStrictlySortedBy (on rank_of_change nat_cmp) messages.now
        → IfErr result (IsGap rank_of_change messages.now rank) }
{
    messages.binary_search_by_key(&rank, |message| rank_in(message))
}

impl<'a> Changes<'a> {
    /// The differences of two sheets, by message. The error is out of memory.
    pub fn of(alloc: Global, differences: &'a [Difference]) -> Result<Changes<'a>, AllocError>
        ensures messages { IfOk result
            (λ changes. changes_in changes ≡ messages_in differences.now) }
        ensures by_number { IfOk result
            (λ changes. AreRising differences.now → AreByNumber changes) }
        ensures others { IfOk result
            (λ changes. changes.others ≡ count_by is_elsewhere differences.now) }
        ensures breaking { IfOk result
            (λ changes. changes.breaking ≡ count_by breaks differences.now) }
    {
        let messages = message_changes(alloc, differences)?;
        Ok(Changes {
            messages,
            others: differences.iter().filter(|one| !is_in_message(one)).count(),
            breaking: breaking_count(differences),
        })
    }

    /// Whether the sheets are equal.
    pub fn is_nothing(&self) -> bool
        ensures { result ≡ is_nothing self.now }
    {
        self.others == 0 && self.messages.is_empty()
    }

    /// How many messages have met this fate.
    pub fn count(&self, fate: Fate) -> usize {
        self.messages
            .iter()
            .filter(|one| fate_in(one) == fate)
            .count()
    }

    /// What differs of the message that has this DBC number now; nothing where it doesn't differ.
    pub(crate) fn find(&self, number: u32) -> &'a [Difference]
        ensures { AreByNumber self.now
            → result.now ≡ change_at (changes_in self.now) number }
    {
        let rank = 2 * u64::from(number);
        match search(&self.messages, rank) {
            Ok(index) => match self.messages.get(index) {
                Some(message) => message,
                None => &[],
            },
            Err(_) => &[],
        }
    }
}
