//! What is done with the ports of a machine.
ghost use Rattle.std.specs.Prelude.{◌≡◌, List, None, Option, IfOk, IfSome, OnErr};
ghost use Rattle.std.specs.declared.net.socket_addr.SocketAddr.{SocketAddr};
ghost use Rattle.std.specs.declared.net.tcp.TcpStream.{TcpStream};
ghost use Rattle.desk.specs.Ports.{IsTaken};

use crate::loopback::LoopbackAddr;
use std::io;
use std::net::{Net, SocketAddr, TcpListener, TcpStream};

/// A socket that is listened on.
pub trait PortSocket {
    /// The address that it has, if it states that.
    ghost address: { Self → Option SocketAddr };

    /// The connections that come, one after the other, if it states them.
    ghost coming: { Self → Option (List TcpStream) };

    /// The address that it has.
    fn own_address(&self) -> io::Result<SocketAddr>
        ensures { IfOk result (λ own. IfSome (address self.now) (λ known. own ≡ known)) };

    /// The next connection. It may wait for one for ever.
    fn take_next(&mut self) -> io::Result<TcpStream>
        ensures taken { IfOk result (λ stream. IsTaken (coming self.old) (coming self.new) stream) }
        ensures failed { OnErr result (coming self.new ≡ coming self.old) };

    /// Whether there are two more file descriptors, which a connection takes. No contract says so: what the operating
    /// system has left is in no clause of `std`.
    fn has_descriptors(&self) -> bool;
}

/// A machine on which ports can be listened on, of 127.0.0.1 alone.
pub trait Ports {
    /// What is listened on.
    type Socket: PortSocket + Drop;

    /// Listens at the address; on a free port where its port is 0.
    fn listen_at(&self, at: LoopbackAddr) -> io::Result<Self::Socket>;
}

/// The machine that the program runs on. No contract of `std` says what a socket is, so nothing is stated of one.
impl PortSocket for TcpListener {
    ghost address = { λ _. None };

    ghost coming = { λ _. None };

    fn own_address(&self) -> io::Result<SocketAddr> {
        self.local_addr()
    }

    fn take_next(&mut self) -> io::Result<TcpStream> {
        let (stream, _) = self.accept()?;
        Ok(stream)
    }

    fn has_descriptors(&self) -> bool {
        match self.try_clone() {
            Ok(_first) => self.try_clone().is_ok(),
            Err(_) => false,
        }
    }
}

impl<R: Net<Listener = TcpListener, Stream = TcpStream>> Ports for R {
    type Socket = TcpListener;

    fn listen_at(&self, at: LoopbackAddr) -> io::Result<TcpListener> {
        TcpListener::bind(self, at.socket_addr())
    }
}
