//! One side of a connection to a desk.
ghost use Rattle.std.specs.Prelude.{◌≡◌, ◌<◌, ◌≤◌, None, IfOk, length};

use desk_types::{Failed, Sink, Source};
use std::io::{self, ErrorKind, Read, Write};
use std::net::TcpStream;
use std::time::{Clock, Duration, Instant};

/// For how many seconds from the connection on a desk is read or written: no read or write begins later. This time
/// begins anew for a side whose process is stopped while it waits for the desk, and goes on.
const SIDE_SECONDS: u64 = 120;

/// Whether a call of a socket was interrupted: then it has moved nothing, and is made again. Where a process is stopped
/// while it waits for a socket with a time limit (`kill -STOP`), Linux ends the call so when the process goes on.
fn is_interrupted(fault: &io::Error) -> bool {
    fault.kind() == ErrorKind::Interrupted
}

/// One side of a connection, which is only read or only written, within a time limit. It counts its failures. No
/// contract states the bytes of a socket.
#[derive(Drop)]
pub(crate) struct Side<'s, C> {
    stream: &'s TcpStream,
    clock: &'s C,
    began: Instant,
    count: u64,
}

impl<'s, C: Clock> Side<'s, C> {
    /// A side of a connection that began at this time, none of whose calls failed yet.
    pub(crate) fn new(stream: &'s TcpStream, clock: &'s C, began: Instant) -> Side<'s, C>
        ensures { result.count ≡ 0 }
    {
        Side {
            stream,
            clock,
            began,
            count: 0,
        }
    }

    /// Whether the side still has time. It has none if the clock can't be read.
    fn has_time(&self) -> bool {
        match self.began.elapsed(self.clock) {
            Ok(passed) => passed < Duration::from_secs(SIDE_SECONDS),
            Err(_) => false,
        }
    }

    /// Begins the time anew, if the clock can be read.
    fn begin_anew(&mut self)
        ensures { self.new.count ≡ self.old.count }
    {
        if let Ok(now) = Instant::now(self.clock) {
            self.began = now;
        }
    }

    /// Reads once, if the side still has time.
    fn read(&mut self, buf: &mut [u8]) -> Result<usize, Failed>
        ensures within { IfOk result (λ n. n ≤ length buf.new) }
        ensures count { self.new.count ≡ self.old.count }
    {
        // A call is made again only if it was interrupted, so this is a `loop`; the bound lets it be proved to end.
        for _call in 0..u32::MAX {
            if !self.has_time() {
                return Err(Failed);
            }
            let mut stream = self.stream;
            match stream.read(buf) {
                Ok(n) => return Ok(n),
                Err(fault) if is_interrupted(&fault) => self.begin_anew(),
                Err(_) => return Err(Failed),
            }
        }
        Err(Failed)
    }

    /// Writes once, if the side still has time. It fails where nothing of the bytes is taken.
    fn write(&mut self, bytes: &[u8]) -> Result<usize, Failed>
        ensures within { IfOk result (λ n. n ≤ length bytes.now) }
        ensures some { 0 < length bytes.now → IfOk result (λ n. 0 < n) }
        ensures count { self.new.count ≡ self.old.count }
    {
        // As in `read`, this is a `loop`.
        for _call in 0..u32::MAX {
            if !self.has_time() {
                return Err(Failed);
            }
            let mut stream = self.stream;
            match stream.write(bytes) {
                Ok(n) if n > 0 || bytes.is_empty() => return Ok(n),
                Err(fault) if is_interrupted(&fault) => self.begin_anew(),
                _ => return Err(Failed),
            }
        }
        Err(Failed)
    }
}

impl<C: Clock> Source for Side<'_, C> {
    ghost left = { λ _. None };

    ghost failure_count = { λ s. s.count };

    fn take(&mut self, buf: &mut [u8]) -> Result<usize, Failed> {
        if let Ok(n) = self.read(buf) {
            return Ok(n);
        }
        self.count += 1;
        Err(Failed)
    }

    fn failures(&self) -> u64 {
        self.count
    }
}

impl<C: Clock> Sink for Side<'_, C> {
    ghost reported = { λ _. None };

    ghost failure_count = { λ s. s.count };

    fn put(&mut self, bytes: &[u8]) -> Result<usize, Failed> {
        if let Ok(n) = self.write(bytes) {
            return Ok(n);
        }
        self.count += 1;
        Err(Failed)
    }

    fn failures(&self) -> u64 {
        self.count
    }
}
