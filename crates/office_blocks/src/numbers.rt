//! The numbers that are live and those that are taken, form by form.
ghost use Rattle.std.specs.Prelude.{◌≡◌, ◌++◌, IfOk, OnOk, map};
ghost use Rattle.std.specs.List.{filter_map, flat_map};
ghost use Rattle.std.specs.List.Sorted.{IsStrictlyIncreasing};
ghost use Rattle.office_rules.specs.Facts.{group_of, number_in};
ghost use Rattle.office_types.specs.Free.{is_taken};
ghost use Rattle.office_blocks.specs.Blocks.{spns_of};
ghost use Rattle.office_blocks.specs.Numbers.{AreNumbersOf, AreOf, HaveSame, of_form};

use can_id::Ident;
use dbc_sheet::Message;
use office_facts::{groups_of, numbers_of};
use office_seen::View;
use office_types::{BlockForm, IdentForm, is_ascending};
use std::alloc::{AllocError, Global};
use std::marker::Model;

/// Numbers in ascending order, each once. Contracts see them as the list of them.
pub struct Ascending {
    numbers: Vec<u32>,
}

impl Model for Ascending {
    ghost use Rattle.std.specs.Prelude.{ℕ, List};
    ghost use Rattle.std.specs.List.Sorted.{IsStrictlyIncreasing};

    ghost Value = { List ℕ };

    ghost view = { λ ascending. ascending.numbers.items };

    ghost invariant = { λ ascending. IsStrictlyIncreasing ascending.numbers.items };
}

/// The same numbers in ascending order, each once.
fn sorted(numbers: Vec<u32>) -> Result<Vec<u32>, AllocError>
    ensures rising { IfOk result (λ v. IsStrictlyIncreasing v.items) }
    ensures same { IfOk result (λ v. HaveSame v.items numbers.items) }
{
    if is_ascending(&numbers) {
        return Ok(numbers);
    }
    let mut rising = numbers;
    rising.sort()?;
    rising.dedup();
    Ok(rising)
}

impl Ascending {
    /// The numbers of the list. The error is out of memory.
    pub fn of(numbers: Vec<u32>) -> Result<Ascending, AllocError>
        ensures { IfOk result (λ ascending. HaveSame ascending numbers.items) }
    {
        let numbers = sorted(numbers)?;
        Ok(Ascending { numbers })
    }

    /// The numbers.
    pub fn as_slice(&self) -> &[u32]
        ensures numbers { result.now ≡ self.now }
        ensures rising { IsStrictlyIncreasing self.now }
    {
        &self.numbers
    }

    /// Whether the number is one of them.
    pub fn has(&self, number: u32) -> bool
        ensures { result ≡ is_taken number self.now }
    {
        self.numbers.binary_search(&number).is_ok()
    }
}

/// The numbers of one form of blocks.
pub struct FormNumbers {
    /// Those that live messages have, or their signals.
    pub live: Ascending,
    /// Those that may not be given out.
    pub taken: Ascending,
}

/// The numbers of each form of blocks.
pub struct Numbers {
    std: FormNumbers,
    ext: FormNumbers,
    pgn: FormNumbers,
    spn: FormNumbers,
}

/// The identifiers of the messages.
fn live_idents(alloc: Global, messages: &[Message]) -> Result<Vec<Ident>, AllocError>
    ensures { IfOk result (λ idents. idents.items ≡ map (λ m. m.ident) messages.now) }
{
    let mut idents = Vec::with_capacity(alloc, messages.len())?;
    for message in messages {
        idents.push(message.ident)?;
    }
    Ok(idents)
}

/// The numbers of these live and these held identifiers that have the form.
fn ident_numbers(
    alloc: Global,
    form: IdentForm,
    live: &[Ident],
    held: &[Ident],
) -> Result<FormNumbers, AllocError>
    ensures { IfOk result (AreOf (filter_map (number_in form) live.now)
        (filter_map (number_in form) (live.now ++ held.now))) }
{
    let taken = numbers_of(alloc, form, live, held)?;
    let live = numbers_of(alloc, form, &[], live)?;
    Ok(FormNumbers {
        live: Ascending::of(live)?,
        taken: Ascending::of(taken)?,
    })
}

/// The parameter groups of these live and these held identifiers.
fn group_numbers(alloc: Global, live: &[Ident], held: &[Ident]) -> Result<FormNumbers, AllocError>
    ensures { IfOk result (AreOf (filter_map group_of live.now)
        (filter_map group_of (live.now ++ held.now))) }
{
    let taken = groups_of(alloc, live, held)?;
    let live = groups_of(alloc, &[], live)?;
    Ok(FormNumbers {
        live: Ascending::of(live)?,
        taken: Ascending::of(taken)?,
    })
}

/// Appends the suspect parameter numbers of the message's signals.
fn push_spns(numbers: &mut Vec<u32>, message: &Message) -> Result<(), AllocError>
    ensures { OnOk result (numbers.new.items ≡ numbers.old.items ++ spns_of message.now) }
{
    for signal in message.signals.as_slice() {
        let number = signal.spn.number();
        if number != 0 {
            numbers.push(number)?;
        }
    }
    Ok(())
}

/// The suspect parameter numbers of the messages' signals.
fn live_spns(alloc: Global, messages: &[Message]) -> Result<Vec<u32>, AllocError>
    ensures { IfOk result (λ numbers. numbers.items ≡ flat_map spns_of messages.now) }
{
    let mut numbers = Vec::new(alloc);
    for message in messages {
        push_spns(&mut numbers, message)?;
    }
    Ok(numbers)
}

/// The suspect parameter numbers of the messages' signals, and those that were ever used.
fn spn_numbers(alloc: Global, messages: &[Message], used: &[u32]) -> Result<FormNumbers, AllocError>
    ensures { IfOk result (AreOf (flat_map spns_of messages.now) used.now) }
{
    let live = live_spns(alloc, messages)?;
    let taken = Vec::from_slice(alloc, used)?;
    Ok(FormNumbers {
        live: Ascending::of(live)?,
        taken: Ascending::of(taken)?,
    })
}

impl Numbers {
    /// The numbers that are seen of a network. The error is out of memory.
    pub fn of(alloc: Global, view: &View) -> Result<Numbers, AllocError>
        ensures { IfOk result (AreNumbersOf view.now) }
    {
        let messages = view.sheet.messages();
        let held = view.held.as_slice();
        let live = live_idents(alloc, messages)?;
        Ok(Numbers {
            std: ident_numbers(alloc, IdentForm::Standard, &live, held)?,
            ext: ident_numbers(alloc, IdentForm::Extended, &live, held)?,
            pgn: group_numbers(alloc, &live, held)?,
            spn: spn_numbers(alloc, messages, view.used.as_slice())?,
        })
    }

    /// Those of the form.
    pub fn of_form(&self, form: BlockForm) -> &FormNumbers
        ensures { result.now ≡ of_form form self.now }
    {
        match form {
            BlockForm::Std => &self.std,
            BlockForm::Ext => &self.ext,
            BlockForm::Pgn => &self.pgn,
            BlockForm::Spn => &self.spn,
        }
    }
}

impl Drop for Ascending {
    fn drop(self) {
        let Ascending { numbers: _numbers } = self;
    }
}

impl Drop for FormNumbers {
    fn drop(self) {
        let FormNumbers {
            live: _live,
            taken: _taken,
        } = self;
    }
}

impl Drop for Numbers {
    fn drop(self) {
        let Numbers {
            std: _std,
            ext: _ext,
            pgn: _pgn,
            spn: _spn,
        } = self;
    }
}
