//! Connections in memory.
ghost use Rattle.std.specs.Prelude.{◌≡◌, [], None, Some, map};
ghost use Rattle.std.specs.Option.{option_map};
ghost use Rattle.desk.specs.MemoryListener.{ending_of};

use crate::listener::Listener;
use desk_types::{Counted, Failed, Sink, Source};
use std::alloc::Global;

/// How a connection in memory ended.
#[derive(Drop)]
pub struct EndedConnection {
    /// What was written to its peer.
    pub written: Vec<u8>,
    /// How many of its reads failed.
    pub failed_reads: u64,
    /// How many of its writes failed.
    pub failed_writes: u64,
}

/// Connections that wait in memory, and how those ended that have.
#[derive(Drop)]
pub struct MemoryListener<'a> {
    alloc: Global,
    coming: &'a [&'a [u8]],
    ended: Option<Vec<EndedConnection>>,
}

impl<'a> MemoryListener<'a> {
    /// Connections whose peers send these bytes.
    pub fn new(alloc: Global, coming: &'a [&'a [u8]]) -> MemoryListener<'a>
        ensures coming { result.coming ≡ coming.entry }
        ensures ended { option_map (λ all. all.items) result.ended ≡ Some [] }
    {
        MemoryListener {
            alloc,
            coming,
            ended: Some(Vec::new(alloc)),
        }
    }

    /// How each connection ended, in order; `None` if there was no memory to keep that.
    pub fn into_ended(self) -> Option<Vec<EndedConnection>>
        ensures { result ≡ self.entry.ended }
    {
        let MemoryListener {
            alloc: _,
            coming: _,
            ended,
        } = self;
        ended
    }
}

impl<'a> Listener for MemoryListener<'a> {
    type Request = Counted<&'a [u8]>;

    type Response = Counted<Vec<u8>>;

    ghost coming = { λ s. Some (map (λ b. b.now) s.coming.now) };

    ghost ended = { λ s. option_map (λ all. map ending_of all.items) s.ended };

    fn accept(&mut self) -> Result<(Counted<&'a [u8]>, Counted<Vec<u8>>), Failed> {
        let coming: &'a [&'a [u8]] = self.coming;
        match coming {
            [] => Err(Failed),
            [first, rest @ ..] => {
                self.coming = rest;
                Ok((Counted::new(*first), Counted::new(Vec::new(self.alloc))))
            }
        }
    }

    fn finish(&mut self, request: Counted<&'a [u8]>, response: Counted<Vec<u8>>) {
        let failed_reads = request.failures();
        let failed_writes = response.failures();
        let connection = EndedConnection {
            written: response.into_inner(),
            failed_reads,
            failed_writes,
        };
        let kept = match &mut self.ended {
            Some(all) => all.push(connection).is_ok(),
            None => true,
        };
        if !kept {
            self.ended = None;
        }
    }
}
