//! The numbers of a file's messages, in its order, so the index of a number is that of its message.
//!
//! They are in a hash set. A file chooses its numbers, and it could choose many that collide under a hash that is
//! known. So a number is hashed after all numbers of the file: which of them collide depends on all of them.
ghost use Rattle.std.specs.Prelude.{◌≡◌, ◌==◌, IfOk, IfSome, nat_eq};
ghost use Rattle.std.specs.List.{IsDistinct};
ghost use Rattle.dbc_read.specs.Lookup.{IsIndexIn};
ghost use Rattle.dbc_read.specs.Numbers.{line_numbers};

use dbc_statements::MessageLine;
use indexmap::IndexSet;
use std::alloc::{AllocError, Global};
use std::hash::{BuildHasher, DefaultHasher, Hasher};
use std::marker::Model;

/// Hashes numbers after all numbers of a file.
#[derive(Clone, Copy)]
struct AfterAll {
    begun: DefaultHasher,
}

impl BuildHasher for AfterAll {
    type Hasher = DefaultHasher;

    ghost build_hasher = { λ all. all.begun };

    fn build_hasher(&self) -> DefaultHasher {
        self.begun
    }
}

/// The hash after all numbers of the messages. No contract speaks of a hash: it decides how long a look-up takes.
fn after_all(lines: &[MessageLine]) -> AfterAll {
    let mut begun = DefaultHasher::new();
    for line in lines {
        begun.write_u32(line.ident.to_dbc());
    }
    AfterAll { begun }
}

/// The numbers of messages. No two are the same.
pub(crate) struct Numbers {
    set: IndexSet<u32, AfterAll>,
}

impl Model for Numbers {
    ghost use Rattle.std.specs.Prelude.{ℕ, List};

    ghost Value = { List ℕ };

    ghost view = { λ numbers. numbers.set.keys };
}

/// The numbers of the messages, or `None` if two have the same.
pub(crate) fn numbers_of(
    alloc: Global,
    lines: &[MessageLine],
) -> Result<Option<Numbers>, AllocError>
    ensures { IfOk result (λ found. IfSome found (λ numbers. numbers ≡ line_numbers lines.now)) }
{
    let mut set = IndexSet::with_capacity_and_hasher(alloc, lines.len(), after_all(lines))?;
    for line in lines {
        let (_, is_new) = set.insert_full(line.ident.to_dbc())?;
        if !is_new {
            return Ok(None);
        }
    }
    Ok(Some(Numbers { set }))
}

impl Numbers {
    /// The index of the number. The one at `last` is tried first.
    pub(crate) fn find(&self, number: u32, last: usize) -> Option<usize>
        ensures index { IsIndexIn (λ n. n == number) self.now result }
        ensures distinct { IsDistinct nat_eq self.now }
    {
        let numbers = self.set.as_slice();
        if last < numbers.len() && numbers[last] == number {
            return Some(last);
        }
        self.set.get_index_of(&number)
    }
}

impl Drop for Numbers {
    fn drop(self) {
        let Numbers { set: _set } = self;
    }
}
