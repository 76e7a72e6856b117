//! The desks of the machine that the program runs on.
use desk_client::{AskFault, Received, ask, send};
use desk_send::Desks;
use office_types::LookForm;
use std::alloc::Global;
use std::thread;
use std::time::Duration;

/// For how long a request that nobody answered waits before it is sent again: in a second a supervisor has started a
/// desk that ended.
const PAUSE_SECONDS: u64 = 1;

/// The desks on the machine's ports, on 127.0.0.1. Nothing is known of them, since no contract speaks of what a socket
/// gives.
#[derive(Clone, Copy)]
pub(crate) struct HostDesks<'r> {
    /// The runtime.
    pub(crate) rt: &'r HostRuntime,
}

impl Desks for HostDesks<'_> {
    ghost use Rattle.desk_send.specs.Desks.{unknown_desks};

    ghost known = { λ _. unknown_desks };

    fn ask(
        &mut self,
        alloc: Global,
        port: u16,
        target: &[u8],
        form: LookForm,
    ) -> Result<Received, AskFault> {
        ask(alloc, self.rt, port, target, form)
    }

    fn send(&mut self, alloc: Global, port: u16, request: &[u8]) -> Result<Received, AskFault> {
        send(alloc, self.rt, port, request)
    }

    fn pause(&mut self) {
        thread::sleep(self.rt, Duration::from_secs(PAUSE_SECONDS));
    }
}
