//! Devices that count their failures.
ghost use Rattle.std.specs.Prelude.{◌≡◌, ℕ, ◌+◌, ◌<◌, ◌≤◌, ◌^◌, ◌-◌, List, Option, Ok, length, IfOk, OnErr};
ghost use Rattle.std.specs.Io.KnownBytes.{ReadConsumes, WriteAppends};
ghost use Rattle.desk_types.specs.Counts.{CountsFailure};

use std::io::{Read, Write};

/// A call of a device failed.
#[derive(Clone, Copy, PartialEq, Eq)]
pub struct Failed;

/// Where requests come from.
pub trait Source {
    /// The bytes that it will give from here on, if it states them.
    ghost left: { Self → Option (List ℕ) };

    /// How many of its calls failed.
    ghost failure_count: { Self → ℕ };

    /// Takes bytes into the front of the buffer, and answers how many; 0 is the end. A call that fails takes none.
    fn take(&mut self, buf: &mut [u8]) -> Result<usize, Failed>
        requires { failure_count self.old < 2 ^ 64 - 1 }
        ensures within { IfOk result (λ n. n ≤ length buf.new) }
        ensures bytes { ReadConsumes (left self.old) (left self.new) result buf.new }
        ensures count { CountsFailure result (failure_count self.old) (failure_count self.new) };

    /// How many of its calls failed.
    fn failures(&self) -> u64
        ensures { result ≡ failure_count self.now };
}

/// Where answers go.
pub trait Sink {
    /// The bytes that it was given so far, if it states them.
    ghost reported: { Self → Option (List ℕ) };

    /// How many of its calls failed.
    ghost failure_count: { Self → ℕ };

    /// Puts the front of the bytes, and answers how many: at least one if there are any. A call that fails puts none.
    fn put(&mut self, bytes: &[u8]) -> Result<usize, Failed>
        requires { failure_count self.old < 2 ^ 64 - 1 }
        ensures within { IfOk result (λ n. n ≤ length bytes.now) }
        ensures some { 0 < length bytes.now → IfOk result (λ n. 0 < n) }
        ensures bytes { WriteAppends (reported self.old) (reported self.new) result bytes.now }
        ensures count { CountsFailure result (failure_count self.old) (failure_count self.new) };

    /// How many of its calls failed.
    fn failures(&self) -> u64
        ensures { result ≡ failure_count self.now };
}

/// What a call of a device counts as: it succeeds where it took `least` bytes or more, and else its failure is counted.
fn tally<E: Drop>(call: Result<usize, E>, least: usize, count: &mut u64) -> Result<usize, Failed>
    requires { count.old < 2 ^ 64 - 1 }
    ensures ok { IfOk result (λ n. (call ≡ Ok n) × (least ≤ n) × (count.new ≡ count.old)) }
    ensures failed { OnErr result (IfOk call (λ n. n < least) × (count.new ≡ count.old + 1)) }
{
    match call {
        Ok(n) if n >= least => Ok(n),
        _ => {
            *count += 1;
            Err(Failed)
        }
    }
}

/// A reader or a writer with the count of its failures: each error, and each write that takes nothing.
#[derive(Drop)]
pub struct Counted<T> {
    device: T,
    count: u64,
}

impl<T> Counted<T> {
    /// A device over this reader or writer, none of whose calls failed yet.
    pub fn new(device: T) -> Counted<T>
        ensures device { result.device ≡ device }
        ensures count { result.count ≡ 0 }
    {
        Counted { device, count: 0 }
    }

    /// The reader or writer itself.
    pub fn into_inner(self) -> T
        ensures { result ≡ self.device }
    {
        let Counted { device, count: _ } = self;
        device
    }
}

impl<T: Read> Source for Counted<T> {
    ghost left = { λ s. T.remaining s.device };

    ghost failure_count = { λ s. s.count };

    fn take(&mut self, buf: &mut [u8]) -> Result<usize, Failed> {
        let call = self.device.read(buf);
        tally(call, 0, &mut self.count)
    }

    fn failures(&self) -> u64 {
        self.count
    }
}

impl<T: Write> Sink for Counted<T> {
    ghost reported = { λ s. T.contents s.device };

    ghost failure_count = { λ s. s.count };

    fn put(&mut self, bytes: &[u8]) -> Result<usize, Failed> {
        let call = self.device.write(bytes);
        tally(call, 1, &mut self.count)
    }

    fn failures(&self) -> u64 {
        self.count
    }
}
