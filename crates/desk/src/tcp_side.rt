//! One side of a TCP connection.
ghost use Rattle.std.specs.Prelude.{◌≡◌, ◌<◌, ◌≤◌, None, IfOk, length};

use desk_types::{Failed, Sink, Source};
use std::io::{self, ErrorKind, Read, Write};
use std::net::TcpStream;
use std::time::{Clock, Duration, Instant};

/// For how many seconds a connection is waited for until its peer sends the first byte. This time, and those below,
/// begin anew where the process is stopped while it waits for the peer, and goes on.
const FIRST_BYTE_SECONDS: u64 = 2;

/// For how many seconds any later read, or a write, may wait for the peer.
const TURN_SECONDS: u64 = 10;

/// For how many seconds from its first read, or its first write, a side of a connection is read or written: no read or
/// write begins later.
const SIDE_SECONDS: u64 = 60;

/// Whether a call of a socket was interrupted: then it has moved nothing, and is made again. Where a process is stopped
/// while it waits for a socket with a time limit (`kill -STOP`), Linux ends the call so when the process goes on.
pub(crate) fn is_interrupted(fault: &io::Error) -> bool {
    fault.kind() == ErrorKind::Interrupted
}

/// A handle of a TCP connection that is only read, or only written, and within time limits.
#[derive(Drop)]
pub(crate) struct Timed {
    pub(crate) stream: TcpStream,
    began: Option<Instant>,
}

impl Timed {
    /// A handle that nothing was read from yet.
    pub(crate) fn reading(stream: TcpStream) -> io::Result<Timed>
        ensures { IfOk result (λ timed. timed.stream ≡ stream) }
    {
        let first = Duration::from_secs(FIRST_BYTE_SECONDS);
        stream.set_read_timeout(Some(first))?;
        Ok(Timed {
            stream,
            began: None,
        })
    }

    /// A handle that nothing was written to yet.
    pub(crate) fn writing(stream: TcpStream) -> io::Result<Timed> {
        let turn = Duration::from_secs(TURN_SECONDS);
        stream.set_write_timeout(Some(turn))?;
        Ok(Timed {
            stream,
            began: None,
        })
    }

    /// Whether the side still has time, which begins with this call if it is the first one. It has none if the clock
    /// can't be read.
    fn has_time<C: Clock>(&mut self, clock: &C) -> bool {
        let Ok(now) = Instant::now(clock) else {
            return false;
        };
        match self.began {
            Some(began) => now.duration_since(began) < Duration::from_secs(SIDE_SECONDS),
            None => {
                self.began = Some(now);
                true
            }
        }
    }

    /// Reads once, if the side still has time. The first read waits for the first byte, and any later one for its turn.
    fn read<C: Clock>(&mut self, clock: &C, buf: &mut [u8]) -> Result<usize, Failed>
        ensures { IfOk result (λ n. n ≤ length buf.new) }
    {
        let is_first = self.began.is_none();
        // A call is made again only if it was interrupted, so this is a `loop`; the bound lets it be proved to end.
        for _call in 0..u32::MAX {
            if !self.has_time(clock) {
                return Err(Failed);
            }
            match self.stream.read(buf) {
                Ok(n) => {
                    let turn = Duration::from_secs(TURN_SECONDS);
                    if !is_first || self.stream.set_read_timeout(Some(turn)).is_ok() {
                        return Ok(n);
                    }
                    return Err(Failed);
                }
                Err(fault) if is_interrupted(&fault) => self.began = None,
                Err(_) => return Err(Failed),
            }
        }
        Err(Failed)
    }

    /// Writes once, if the side still has time. It fails where nothing of the bytes is taken.
    fn write<C: Clock>(&mut self, clock: &C, bytes: &[u8]) -> Result<usize, Failed>
        ensures within { IfOk result (λ n. n ≤ length bytes.now) }
        ensures some { 0 < length bytes.now → IfOk result (λ n. 0 < n) }
    {
        // A call is made again only if it was interrupted, so this is a `loop`; the bound lets it be proved to end.
        for _call in 0..u32::MAX {
            if !self.has_time(clock) {
                return Err(Failed);
            }
            match self.stream.write(bytes) {
                Ok(n) if n > 0 || bytes.is_empty() => return Ok(n),
                Err(fault) if is_interrupted(&fault) => self.began = None,
                _ => return Err(Failed),
            }
        }
        Err(Failed)
    }
}

/// One side of a TCP connection. It counts its failures, and fails once it has taken too long, or if no time limits
/// could be set for it. No contract states the bytes of a socket.
#[derive(Drop)]
pub struct TcpSide<'r, C> {
    pub(crate) timed: Option<Timed>,
    pub(crate) clock: &'r C,
    count: u64,
}

impl<'r, C> TcpSide<'r, C> {
    /// A side none of whose calls failed yet.
    pub(crate) fn new(timed: Option<Timed>, clock: &'r C) -> TcpSide<'r, C>
        ensures sound { result.count ≡ 0 }
        ensures timed { result.timed ≡ timed }
    {
        TcpSide {
            timed,
            clock,
            count: 0,
        }
    }
}

impl<C: Clock> Source for TcpSide<'_, C> {
    ghost left = { λ _. None };

    ghost failure_count = { λ s. s.count };

    fn take(&mut self, buf: &mut [u8]) -> Result<usize, Failed> {
        if let Some(timed) = &mut self.timed {
            if let Ok(n) = timed.read(self.clock, buf) {
                return Ok(n);
            }
        }
        self.count += 1;
        Err(Failed)
    }

    fn failures(&self) -> u64 {
        self.count
    }
}

impl<C: Clock> Sink for TcpSide<'_, C> {
    ghost reported = { λ _. None };

    ghost failure_count = { λ s. s.count };

    fn put(&mut self, bytes: &[u8]) -> Result<usize, Failed> {
        if let Some(timed) = &mut self.timed {
            if let Ok(n) = timed.write(self.clock, bytes) {
                return Ok(n);
            }
        }
        self.count += 1;
        Err(Failed)
    }

    fn failures(&self) -> u64 {
        self.count
    }
}
