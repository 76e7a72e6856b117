//! Asking a desk of this machine, and sending it requests.
ghost use Rattle.std.specs.Prelude.{IsTrue};
ghost use Rattle.desk_client.specs.Request.{is_target};

use crate::asking::{asked, exchange};
use crate::fault::AskFault;
use crate::received::Received;
use crate::side::Side;
use office_types::LookForm;
use std::alloc::Global;
use std::io;
use std::net::{Ipv4Addr, Net, SocketAddr, TcpStream};
use std::time::{Clock, Duration, Instant};

/// For how many seconds a connection is waited for.
const CONNECT_SECONDS: u64 = 10;

/// For how many seconds one read or write may wait for the desk. It serves one connection after the other, and one of a
/// slow client takes it up to 60 seconds for reading.
const TURN_SECONDS: u64 = 90;

/// A connection to the port of 127.0.0.1, with its time limits.
fn connection<R: Net<Stream = TcpStream>>(rt: &R, port: u16) -> io::Result<TcpStream> {
    let address = SocketAddr::from((Ipv4Addr::LOCALHOST, port));
    let stream = TcpStream::connect_timeout(rt, &address, Duration::from_secs(CONNECT_SECONDS))?;
    let turn = Duration::from_secs(TURN_SECONDS);
    stream.set_read_timeout(Some(turn))?;
    stream.set_write_timeout(Some(turn))?;
    Ok(stream)
}

/// Such a connection, with the time at which it began.
fn begun<R: Net<Stream = TcpStream> + Clock>(
    rt: &R,
    port: u16,
) -> Result<(TcpStream, Instant), AskFault> {
    let Ok(stream) = connection(rt, port) else {
        return Err(AskFault::Connect);
    };
    match Instant::now(rt) {
        Ok(began) => Ok((stream, began)),
        Err(_) => Err(AskFault::Connect),
    }
}

/// Asks the desk at the port of 127.0.0.1 for a target in the form, and says what came back, whatever it is. A connection
/// is waited for 10 seconds, each read and write 90 seconds, and none begins later than 120 seconds after the connection.
///
/// `Connect` if nothing takes a connection there, or its time can't be limited. `Connection` if the connection ended by
/// a fault: `Write` and `Read` if a call of the socket failed or took too long, and `Memory` if memory ran out. No
/// contract says when each comes, nor what a socket gives.
pub fn ask<R: Net<Stream = TcpStream> + Clock>(
    alloc: Global,
    rt: &R,
    port: u16,
    target: &[u8],
    form: LookForm,
) -> Result<Received, AskFault>
    requires { IsTrue (is_target target.now) }
{
    let (stream, began) = begun(rt, port)?;
    let mut sink = Side::new(&stream, rt, began);
    let mut source = Side::new(&stream, rt, began);
    match asked(alloc, &mut sink, &mut source, target, form) {
        Ok(received) => Ok(received),
        Err(fault) => Err(AskFault::Connection(fault)),
    }
}

/// Sends the bytes of a request to the desk at the port of 127.0.0.1, and says what came back, with the times and the
/// faults of [`ask`]. Where there is a fault, the desk may have carried the request out or not.
pub fn send<R: Net<Stream = TcpStream> + Clock>(
    alloc: Global,
    rt: &R,
    port: u16,
    request: &[u8],
) -> Result<Received, AskFault> {
    let (stream, began) = begun(rt, port)?;
    let mut sink = Side::new(&stream, rt, began);
    let mut source = Side::new(&stream, rt, began);
    match exchange(alloc, &mut sink, &mut source, request) {
        Ok(received) => Ok(received),
        Err(fault) => Err(AskFault::Connection(fault)),
    }
}
