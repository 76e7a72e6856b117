//! The address of this machine that no other one reaches.
ghost use Rattle.std.specs.Prelude.{ℕ, IfNone, IfSome};
ghost use Rattle.desk.specs.Ports.{IsLoopback};

use std::net::{Ipv4Addr, SocketAddr, SocketAddrV4};

/// 127.0.0.1 with a port, and no other address.
#[derive(Clone, Copy)]
pub struct LoopbackAddr {
    /// The port.
    pub port: u16,
}

impl LoopbackAddr {
    /// The address as a socket takes it.
    pub fn socket_addr(self) -> SocketAddr
        ensures { IsLoopback self.port result }
    {
        SocketAddr::V4(SocketAddrV4::new(Ipv4Addr::LOCALHOST, self.port))
    }

    /// The address of a socket, if it is one of these.
    pub fn of(address: SocketAddr) -> Option<LoopbackAddr>
        ensures some { IfSome result (λ at. IsLoopback at.port address) }
        ensures none { IfNone result ((port : ℕ) → ¬ (IsLoopback port address)) }
    {
        match address {
            SocketAddr::V4(known) if known.ip().octets() == [127, 0, 0, 1] => Some(LoopbackAddr {
                port: known.port(),
            }),
            _ => None,
        }
    }
}
