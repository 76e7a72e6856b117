//! How many messages each node sends and receives, counted in one walk over the messages.
ghost use Rattle.std.specs.Prelude.{◌≡◌, ◌+◌, ◌<◌, ◌^◌, ◌||◌, ℕ, List, IfOk, OnOk, count_by, length};
ghost use Rattle.std.specs.List.{list_any};
ghost use Rattle.std.specs.Str.{bytes_eq};
ghost use Rattle.dbc_words.specs.Named.{holds_name};
ghost use Rattle.office_views.specs.Sending.{receives, receives_some, sends};
ghost use Rattle.office_views.specs.Tally.{CountsEach, HasRoom, once, times};

use base::Copying;
use dbc_sheet::{Message, Signal};
use dbc_words::{Name, NameSet};
use std::alloc::{AllocError, Global};
use std::collections::BTreeMap;

/// How often names were counted.
pub struct Tally {
    counts: BTreeMap<Name, usize>,
}

impl Tally {
    /// No name was counted. Takes no memory.
    fn new(alloc: Global) -> Tally
        ensures { (n : List ℕ) → times result n ≡ 0 }
    {
        Tally {
            counts: BTreeMap::new(alloc),
        }
    }

    /// How often the name was counted.
    pub fn times(&self, name: &Name) -> usize
        ensures { result ≡ times self.now name.now }
    {
        match self.counts.get(name) {
            Some(count) => *count,
            None => 0,
        }
    }

    /// Counts the name.
    fn add(&mut self, alloc: Global, name: &Name) -> Result<(), AllocError>
        requires { times self.old name.now + 1 < 2 ^ 64 }
        ensures { OnOk result
            ((n : List ℕ) → times self.new n ≡ times self.old n + once (bytes_eq name.now n)) }
    {
        let count = self.times(name) + 1;
        self.counts.insert(name.duplicate(alloc)?, count)?;
        Ok(())
    }

    /// Counts the message's transmitter.
    fn add_sender(&mut self, alloc: Global, message: &Message) -> Result<(), AllocError>
        requires { (n : List ℕ) → times self.old n + 1 < 2 ^ 64 }
        ensures { OnOk result
            ((n : List ℕ) → times self.new n ≡ times self.old n + once (sends n message.now)) }
    {
        match &message.transmitter {
            Some(name) => self.add(alloc, name),
            None => Ok(()),
        }
    }

    /// Counts the name unless it was seen.
    fn add_unseen(
        &mut self,
        alloc: Global,
        seen: &mut NameSet,
        name: &Name,
    ) -> Result<(), AllocError>
        requires { HasRoom seen.old self.old }
        ensures seen { OnOk result ((n : List ℕ) → holds_name seen.new n
            ≡ (bytes_eq name.now n || holds_name seen.old n)) }
        ensures times { OnOk result (CountsEach seen.old seen.new self.old self.new) }
    {
        if seen.insert(name.duplicate(alloc)?)? {
            self.add(alloc, name)?;
        }
        Ok(())
    }

    /// Counts those of the names that weren't seen.
    fn add_names(
        &mut self,
        alloc: Global,
        seen: &mut NameSet,
        names: &[Name],
    ) -> Result<(), AllocError>
        requires { HasRoom seen.old self.old }
        ensures seen { OnOk result ((n : List ℕ) → holds_name seen.new n
            ≡ (list_any (λ r. bytes_eq r n) names.now || holds_name seen.old n)) }
        ensures times { OnOk result (CountsEach seen.old seen.new self.old self.new) }
    {
        for name in names {
            self.add_unseen(alloc, seen, name)?;
        }
        Ok(())
    }

    /// Counts each receiver of the signals once.
    fn add_receivers(&mut self, alloc: Global, signals: &[Signal]) -> Result<(), AllocError>
        requires { (n : List ℕ) → times self.old n + 1 < 2 ^ 64 }
        ensures { OnOk result ((n : List ℕ) → times self.new n
            ≡ times self.old n + once (list_any (receives n) signals.now)) }
    {
        let mut seen = NameSet::new(alloc);
        for signal in signals {
            self.add_names(alloc, &mut seen, signal.receivers.as_slice())?;
        }
        Ok(())
    }
}

/// How many of the messages each node sends. The error is out of memory.
pub fn sent_tally(alloc: Global, messages: &[Message]) -> Result<Tally, AllocError>
    requires { length messages.now < 2 ^ 64 }
    ensures { IfOk result
        (λ tally. (n : List ℕ) → times tally n ≡ count_by (sends n) messages.now) }
{
    let mut tally = Tally::new(alloc);
    for message in messages {
        tally.add_sender(alloc, message)?;
    }
    Ok(tally)
}

/// How many of the messages each node receives. The error is out of memory.
pub fn received_tally(alloc: Global, messages: &[Message]) -> Result<Tally, AllocError>
    requires { length messages.now < 2 ^ 64 }
    ensures { IfOk result (λ tally. (n : List ℕ) → times tally n
        ≡ count_by (receives_some n) messages.now) }
{
    let mut tally = Tally::new(alloc);
    for message in messages {
        tally.add_receivers(alloc, message.signals.as_slice())?;
    }
    Ok(tally)
}

impl Drop for Tally {
    fn drop(self) {
        let Tally { counts: _counts } = self;
    }
}
