//! Guesses of which signal of a message has a name, so that most searches end at once.
//!
//! Each name has a slot by its hash, and a slot has the index of the last signal whose name has it. Names can share a
//! slot, so a guess may be wrong: whoever takes one looks whether the signal has the name, and otherwise searches
//! (`orders`). A file chooses its names, so each is hashed after all names of its message: which of them share a slot
//! depends on all of them. No contract speaks of guesses: they decide how long a search takes.
use dbc_sheet::Signal;
use std::alloc::{AllocError, Global};
use std::hash::{FoldHasher, Hasher};

/// How many slots there are for each signal. With four, about one name in nine shares its slot with a later one. Twice
/// as many slots make no search faster that was measured.
const SLOTS_OF_EACH: usize = 4;

/// Guesses of the signals of a message.
#[derive(Drop)]
pub(crate) struct Guesses {
    /// The hash after all names of the message.
    begun: FoldHasher,
    /// The index of a signal for each slot.
    indices: Vec<u16>,
}

/// The hash after all names of the signals.
fn after_all(signals: &[Signal]) -> FoldHasher {
    let mut begun = FoldHasher::default();
    for signal in signals {
        begun.write(signal.name.as_bytes());
    }
    begun
}

/// Which of so many slots is that of the name.
#[inline(always)]
fn slot_of(begun: FoldHasher, name: &[u8], slots: usize) -> usize {
    let mut hasher = begun;
    hasher.write(name);
    ((hasher.finish() >> 32).wrapping_mul(slots as u64) >> 32) as usize
}

impl Guesses {
    /// The guesses of signals that are that many. The error is out of memory.
    pub(crate) fn of(alloc: Global, signals: &[Signal], count: u16) -> Result<Guesses, AllocError> {
        let begun = after_all(signals);
        let slots = usize::from(count) * SLOTS_OF_EACH;
        let mut indices = Vec::from_elem(alloc, 0, slots)?;
        for index in 0..count {
            if let Some(signal) = signals.get(usize::from(index)) {
                let slot = slot_of(begun, signal.name.as_bytes(), slots);
                if let Some(guess) = indices.get_mut(slot) {
                    *guess = index;
                }
            }
        }
        Ok(Guesses { begun, indices })
    }

    /// The index of the signal that may have the name. It can be wrong, and there can be no signal at it.
    #[inline(always)]
    pub(crate) fn guess(&self, name: &[u8]) -> usize {
        match self
            .indices
            .get(slot_of(self.begun, name, self.indices.len()))
        {
            Some(index) => usize::from(*index),
            None => 0,
        }
    }
}
