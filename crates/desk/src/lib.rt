//! The desk: the office over HTTP, connections one after the other, each with one request and one response.
//!
//! [`serve_one`] reads the first request of a source, finds what is at its target ([`Routes`]), carries it out on an
//! office in tables, and writes its response to a sink. Its contract is the desk's theorem: what is written is the
//! response, on the history that the tables hold, to the request that the source's bytes begin with, and the tables
//! hold that history after it, or, where the request is an arrival, with that arrival and the answer that is written
//! (`specs/Responding.antt`). `specs/Devices.antt` says what becomes of its source and its sink, whatever the office
//! does. What a request demands is decided below (`desk_call`), and so are the bytes of responses (`desk_reply`). Here
//! the office is called (`answering.rt`) and the three are put together (`responding.rt`).
//!
//! [`serve`] takes a count of connections from a [`Listener`], and on each it does what [`serve_one`] does. Its
//! contract says that each connection in turn leads from the history that the office's tables held before it to the one
//! that they hold after it (`specs/Serving.antt`; `Visits.antt` has what came of the listener). A fault of a connection
//! ends that connection alone. A [`Listener`] is in memory ([`MemoryListener`]) or a TCP port of this machine
//! ([`LocalPort`]), at 127.0.0.1 alone ([`LoopbackAddr`]). No contract states the bytes of a socket: there the contract
//! of [`serve`] says what becomes of the history, and that alone. [`Notes`] reports connections beside their responses,
//! and no contract depends on it.
#![tactic(auto)]

mod answering;
mod fault;
mod listener;
mod local_port;
mod loopback;
mod memory_listener;
mod ports;
mod responding;
mod serving;
mod tcp_side;

pub use desk_call::{Exchange, Notes, OfficeRead, Routes, WantedNet};
pub use desk_types::{Counted, DeskFault, Failed, Problem, Sink, Source};
pub use fault::ServeFault;
pub use listener::Listener;
pub use local_port::{LocalPort, listen};
pub use loopback::LoopbackAddr;
pub use memory_listener::{EndedConnection, MemoryListener};
pub use ports::{PortSocket, Ports};
pub use responding::serve_one;
pub use serving::serve;
pub use tcp_side::TcpSide;
