//! A TCP port of this machine.
ghost use Rattle.std.specs.Prelude.{◌≡◌, IfErr, IfOk, IfSome, OnErr};
ghost use Rattle.desk.specs.LocalPort.{stream_of, unknown_coming, unknown_ended};
ghost use Rattle.desk.specs.Ports.{IsBoundAt, IsLoopback, TakesAtMostOne, TakesOne};
ghost use Rattle.desk.specs.Serving.{IsAccepted, NoneWaits, Starts};

use crate::fault::ServeFault;
use crate::listener::Listener;
use crate::loopback::LoopbackAddr;
use crate::ports::{PortSocket, Ports};
use crate::tcp_side::{TcpSide, Timed, is_interrupted};
use desk_types::Failed;
use std::io::{self, Read};
use std::net::{Shutdown, SocketAddr, TcpStream};
use std::time::{Clock, Duration, Instant};

/// For how many seconds what a peer still sends after its response is read: no read begins later. They begin anew where
/// the process is stopped while it waits for the peer, and goes on.
const DRAIN_SECONDS: u64 = 2;

/// For how many seconds such a read may wait for the peer.
const DRAIN_TURN_SECONDS: u64 = 1;

/// How many such reads there are at most, each of at most 4096 bytes.
const DRAIN_TURNS: u32 = 4096;

/// A port of 127.0.0.1 that is listened on, with the clock that bounds the time of connections.
#[derive(Drop)]
pub struct LocalPort<'r, S, C> {
    socket: S,
    at: LoopbackAddr,
    clock: &'r C,
}

/// The address of the socket, if it is 127.0.0.1 and the port, or any port where that is 0.
fn checked_address<S: PortSocket>(socket: &S, port: u16) -> Option<LoopbackAddr>
    ensures { IfSome result (λ at. IsBoundAt (S.address socket.now) port at.port) }
{
    let Ok(own) = socket.own_address() else {
        return None;
    };
    match LoopbackAddr::of(own) {
        Some(at) if port == 0 || at.port == port => Some(at),
        _ => None,
    }
}

/// Listens on the port of 127.0.0.1; on a free one where it is 0. `Listen` if that fails, or if the socket then has
/// another address.
pub fn listen<R: Ports + Clock>(
    rt: &R,
    port: u16,
) -> Result<LocalPort<'_, R::Socket, R>, ServeFault>
    ensures bound { IfOk result (λ l. IsBoundAt (R.Socket.address l.socket) port l.at.port) }
    ensures fault { IfErr result (λ fault. fault ≡ ServeFault.Listen) }
{
    let Ok(socket) = rt.listen_at(LoopbackAddr { port }) else {
        return Err(ServeFault::Listen);
    };
    match checked_address(&socket, port) {
        Some(at) => Ok(LocalPort {
            socket,
            at,
            clock: rt,
        }),
        None => Err(ServeFault::Listen),
    }
}

impl<S: PortSocket, C> LocalPort<'_, S, C> {
    /// The address and port that are listened on.
    pub fn address(&self) -> SocketAddr
        ensures { IsLoopback self.now.at.port result }
    {
        self.at.socket_addr()
    }

    /// Whether there are two more file descriptors, which a connection takes.
    pub fn has_descriptors(&self) -> bool {
        self.socket.has_descriptors()
    }
}

/// The two handles of a connection, one to read and one to write, with their time limits.
fn timed_handles(stream: TcpStream, other: TcpStream) -> io::Result<(Timed, Timed)>
    ensures { IfOk result (λ handles. handles.0.stream ≡ stream) }
{
    let reading = Timed::reading(stream)?;
    let writing = Timed::writing(other)?;
    Ok((reading, writing))
}

/// The two sides of a connection. If its time limits can't be set, each fails at its first call, and so it ends alone.
/// `Failed` if there is no file descriptor for its second handle.
fn sides_of<'r, C>(
    stream: TcpStream,
    clock: &'r C,
) -> Result<(TcpSide<'r, C>, TcpSide<'r, C>), Failed>
    ensures sound { IfOk result (λ c. (c.0.count ≡ 0) × (c.1.count ≡ 0)) }
    ensures same { IfOk result (λ c. IfSome (stream_of c.0.timed) (λ s. s ≡ stream)) }
{
    let Ok(other) = stream.try_clone() else {
        return Err(Failed);
    };
    match timed_handles(stream, other) {
        Ok((reading, writing)) => Ok((
            TcpSide::new(Some(reading), clock),
            TcpSide::new(Some(writing), clock),
        )),
        Err(_) => Ok((TcpSide::new(None, clock), TcpSide::new(None, clock))),
    }
}

/// Whether the peer has sent bytes that are unread, as it is now. They are thrown away, up to 4096.
fn has_unread(stream: &mut TcpStream) -> bool {
    let mut unread = [0u8; 4096];
    if stream.set_nonblocking(true).is_err() {
        return false;
    }
    let read = stream.read(&mut unread);
    stream.set_nonblocking(false).is_ok() && matches!(read, Ok(n) if n > 0)
}

/// Reads what the peer still sends, so that it gets its response instead of a reset: at most 16 MiB, by at most
/// `DRAIN_TURNS` reads, up to its end, or until it has sent nothing for a while or sends too long.
fn drain<C: Clock>(stream: &mut TcpStream, clock: &C) -> io::Result<()> {
    let mut began = Instant::now(clock)?;
    let turn = Duration::from_secs(DRAIN_TURN_SECONDS);
    stream.set_read_timeout(Some(turn))?;
    let mut unread = [0u8; 4096];
    for _turn in 0..DRAIN_TURNS {
        if began.elapsed(clock)? >= Duration::from_secs(DRAIN_SECONDS) {
            return Ok(());
        }
        match stream.read(&mut unread) {
            Ok(0) => return Ok(()),
            Ok(_) => {}
            Err(fault) if is_interrupted(&fault) => began = Instant::now(clock)?,
            Err(fault) => return Err(fault),
        }
    }
    Ok(())
}

impl<'r, S: PortSocket, C: Clock> Listener for LocalPort<'r, S, C> {
    type Request = TcpSide<'r, C>;

    type Response = TcpSide<'r, C>;

    ghost coming = { λ _. unknown_coming };

    ghost ended = { λ _. unknown_ended };

    /// Just one connection is taken. The error is that none comes, or that there is no file descriptor for the second
    /// handle of one that came.
    fn accept(&mut self) -> Result<(TcpSide<'r, C>, TcpSide<'r, C>), Failed>
        // What any listener promises, of one that states neither what comes nor what ended.
        ensures sound { IfOk result (λ c. (c.0.count ≡ 0) × (c.1.count ≡ 0)) }
        ensures comes { IfOk result (λ c. IsAccepted unknown_coming unknown_coming None) }
        ensures starts { IfOk result (λ c. Starts unknown_ended None) }
        ensures waits { OnErr result
            ((unknown_coming ≡ unknown_coming) × NoneWaits unknown_coming) }

        // And of the socket.
        ensures one { IfOk result (λ c. TakesOne (S.coming self.old.socket)
            (S.coming self.new.socket) (stream_of c.0.timed)) }
        ensures failed { OnErr result
            (TakesAtMostOne (S.coming self.old.socket) (S.coming self.new.socket)) }
    {
        let Ok(stream) = self.socket.take_next() else {
            return Err(Failed);
        };
        let sides = sides_of(stream, self.clock)?;
        Ok(sides)
    }

    /// Shows the peer that nothing more comes. If it has sent bytes that are unread, what it still sends is read.
    fn finish(&mut self, mut request: TcpSide<'r, C>, response: TcpSide<'r, C>)
        ensures none { S.coming self.new.socket ≡ S.coming self.old.socket }
    {
        let (Some(reading), Some(writing)) = (&mut request.timed, &response.timed) else {
            return;
        };
        if writing.stream.shutdown(Shutdown::Write).is_ok() && has_unread(&mut reading.stream) {
            // Whether all of it can be read changes nothing of what was served.
            let _drained = drain(&mut reading.stream, self.clock);
        }
    }
}
