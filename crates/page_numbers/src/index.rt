//! Which messages have a number, and which numbers are held.
ghost use Rattle.std.specs.Prelude.{◌≡◌, ◌≤◌, ◌++◌, IfOk, OnOk, length, map};
ghost use Rattle.std.specs.List.{filter_map};
ghost use Rattle.std.specs.List.Sorted.{IsNonDecreasingBy};
ghost use Rattle.office_blocks.specs.Numbers.{HaveSame};
ghost use Rattle.page_numbers.specs.Index.{AreBelow, all_numbered, live_at, message_at, number_at, number_of, numbered};

use can_id::{Ident, J1939};
use dbc_sheet::Message;
use office_blocks::Ascending;
use office_types::BlockForm;
use page_parts::Subject;
use std::alloc::{AllocError, Global};
use std::marker::Model;

/// The number of the form that the identifier has.
pub(crate) fn number_of(form: BlockForm, ident: Ident) -> Option<u32>
    ensures { result ≡ number_of form ident }
{
    match form {
        BlockForm::Std => match ident {
            Ident::Std(id) => Some(u32::from(id.number())),
            Ident::Ext(_) => None,
        },
        BlockForm::Ext => match ident {
            Ident::Std(_) => None,
            Ident::Ext(id) => Some(id.number()),
        },
        BlockForm::Pgn => match J1939::of(ident) {
            Some(fields) => Some(fields.pgn()),
            None => None,
        },
        BlockForm::Spn => None,
    }
}

/// A message with its owner, and its number of a form. Contracts see it as the pair of the number and the message.
#[derive(Drop)]
pub(crate) struct NumberedMessage<'a> {
    number: u32,
    message: &'a Message,
    owner: &'a [u8],
}

impl<'a> Model for NumberedMessage<'a> {
    ghost use Rattle.page_numbers.specs.Index.{Numbered};

    ghost Value = { Numbered };

    ghost view = { λ place. (place.number, place.message.now) };
}

impl<'a> NumberedMessage<'a> {
    /// The number.
    pub(crate) fn number(&self) -> u32
        ensures { result ≡ number_at self.now }
    {
        self.number
    }

    /// The message's name.
    pub(crate) fn name(&self) -> &'a [u8]
        ensures { result.now ≡ (message_at self.now).name }
    {
        self.message.name.as_bytes()
    }

    /// Whose the message is; without bytes where that isn't known.
    pub(crate) fn owner(&self) -> &'a [u8] {
        self.owner
    }
}

/// Adds the message, if it has a number of the form.
fn add_place<'a>(
    places: &mut Vec<NumberedMessage<'a>>,
    form: BlockForm,
    message: &'a Message,
    owner: &'a [u8],
) -> Result<(), AllocError>
    ensures { OnOk result (places.new.items ≡ places.old.items ++ numbered form message.now) }
{
    match number_of(form, message.ident) {
        None => Ok(()),
        Some(number) => {
            places.push(NumberedMessage {
                number,
                message,
                owner,
            })?;
            Ok(())
        }
    }
}

/// The messages that have a number of the form.
fn all_places<'a>(
    alloc: Global,
    form: BlockForm,
    messages: &'a [Message],
    subject: &Subject<'a>,
) -> Result<Vec<NumberedMessage<'a>>, AllocError>
    ensures { IfOk result (λ places. places.items ≡ all_numbered form messages.now) }
{
    let mut places = Vec::new(alloc);
    let mut index = 0usize;
    for message in messages {
        add_place(&mut places, form, message, subject.owner_at(index))?;
        index += 1;
    }
    Ok(places)
}

/// How many of the places, which are in order, have lesser numbers.
fn count_below(places: &[NumberedMessage], number: u64) -> usize
    requires { IsNonDecreasingBy number_at places.now }
    ensures bound { result ≤ length places.now }
    ensures below { AreBelow number places.now result }
{
    places.partition_point(|place| u64::from(place.number()) < number)
}

/// The messages by their numbers of a form. Contracts see it as the form and the messages.
pub(crate) struct LiveIndex<'a> {
    form: BlockForm,
    messages: &'a [Message],
    /// By their numbers, and those of one number as in the sheet.
    places: Vec<NumberedMessage<'a>>,
}

impl<'a> Model for LiveIndex<'a> {
    ghost use Rattle.page_numbers.specs.Index.{AreInOrder, Indexed};

    ghost Value = { Indexed };

    ghost view = { λ index. record { form = index.form; messages = index.messages.now } };

    ghost invariant = { λ index. AreInOrder index.form index.messages.now index.places.items };
}

impl<'a> LiveIndex<'a> {
    /// The index of the messages of what the page is of. The error is out of memory.
    fn of(
        alloc: Global,
        form: BlockForm,
        messages: &'a [Message],
        subject: &Subject<'a>,
    ) -> Result<LiveIndex<'a>, AllocError>
        ensures { IfOk result (λ index. index ≡ record { form = form; messages = messages.now }) }
    {
        let mut places = all_places(alloc, form, messages, subject)?;
        places.sort_by_key(|place| place.number())?;
        Ok(LiveIndex {
            form,
            messages,
            places,
        })
    }

    /// The form.
    pub(crate) fn form(&self) -> BlockForm
        ensures { result ≡ self.now.form }
    {
        self.form
    }

    /// The messages that have the number, in the sheet's order.
    pub(crate) fn places(&self, number: u32) -> &[NumberedMessage<'a>]
        ensures { map message_at result.now ≡ live_at self.now.messages self.now.form number }
    {
        let first = count_below(&self.places, u64::from(number));
        let places = &self.places[first..];
        let count = count_below(places, u64::from(number) + 1);
        &places[..count]
    }
}

impl Drop for LiveIndex<'_> {
    fn drop(self) {
        let LiveIndex {
            form: _form,
            messages: _messages,
            places: _places,
        } = self;
    }
}

/// The numbers of the form that the identifiers have.
fn numbers_of(alloc: Global, form: BlockForm, idents: &[Ident]) -> Result<Vec<u32>, AllocError>
    ensures { IfOk result (λ numbers. numbers.items ≡ filter_map (number_of form) idents.now) }
{
    idents
        .iter()
        .filter_map(|ident| number_of(form, *ident))
        .collect(alloc)
}

/// The numbers of a form: those that messages have, and those of held identifiers.
#[derive(Drop)]
pub(crate) struct FormIndex<'a> {
    /// The messages by their numbers.
    pub(crate) live: LiveIndex<'a>,
    /// The numbers of held identifiers.
    pub(crate) held: Ascending,
}

impl<'a> FormIndex<'a> {
    /// The index of what the page is of. The error is out of memory.
    pub(crate) fn of(
        alloc: Global,
        form: BlockForm,
        subject: &Subject<'a>,
    ) -> Result<FormIndex<'a>, AllocError>
        ensures live { IfOk result (λ index. index.live
            ≡ record { form = form; messages = subject.now.sheet.now.messages }) }
        ensures held { IfOk result (λ index.
            HaveSame index.held (filter_map (number_of form) subject.now.held.now)) }
    {
        let held = numbers_of(alloc, form, subject.held)?;
        Ok(FormIndex {
            live: LiveIndex::of(alloc, form, subject.sheet.messages(), subject)?,
            held: Ascending::of(held)?,
        })
    }
}
