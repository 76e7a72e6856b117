//! Desks by their ports.
ghost use Rattle.std.specs.Prelude.{IsTrue, ◌∷◌, []};
ghost use Rattle.std.specs.Result.{result_map_both};
ghost use Rattle.desk_client.specs.Received.{seen};
ghost use Rattle.desk_client.specs.Request.{is_target, request_bytes};
ghost use Rattle.desk_send.specs.Desks.{AreStill, Desks as Known, Takes, TakesNone, turn};

use desk_client::{AskFault, Received};
use office_types::LookForm;
use std::alloc::Global;

/// Desks that are found by their ports, each of which serves an office.
pub trait Desks {
    /// What is known of them, with the record of what they were sent.
    ghost known: { Self → Known };

    /// Asks the desk on the port for a target in the form, and says what came back. The error is why nothing is known of
    /// that. It is one turn, of the bytes of a GET.
    fn ask(
        &mut self,
        alloc: Global,
        port: u16,
        target: &[u8],
        form: LookForm,
    ) -> Result<Received, AskFault>
        requires { IsTrue (is_target target.now) }
        ensures came { (known self.old).asked port target.now form
            (result_map_both seen (λ fault. fault) result) }
        ensures takes { Takes (known self.old) (known self.new)
            (turn port (request_bytes target.now form) (result_map_both seen (λ fault. fault) result) ∷ []) };

    /// Sends the bytes of a request to the desk on the port, and says what came back. The error is why nothing is known
    /// of that: the desk may have carried the request out or not. It is one turn, of these bytes.
    fn send(&mut self, alloc: Global, port: u16, request: &[u8]) -> Result<Received, AskFault>
        ensures came { (known self.old).sent port request.now
            (result_map_both seen (λ fault. fault) result) }
        ensures still { AreStill (known self.old) (known self.new) }
        ensures takes { Takes (known self.old) (known self.new)
            (turn port request.now (result_map_both seen (λ fault. fault) result) ∷ []) };

    /// Waits for a moment, in which a desk that is being started can begin to listen. Nothing is sent.
    fn pause(&mut self)
        ensures still { AreStill (known self.old) (known self.new) }
        ensures takes { TakesNone (known self.old) (known self.new) };
}

/// No desk at any port.
#[derive(Clone, Copy)]
pub struct NoDesk;

impl Desks for NoDesk {
    ghost use Rattle.desk_send.specs.Desks.{no_desk};

    ghost known = { λ _. no_desk };

    fn ask(
        &mut self,
        _alloc: Global,
        _port: u16,
        _target: &[u8],
        _form: LookForm,
    ) -> Result<Received, AskFault> {
        Err(AskFault::Connect)
    }

    fn send(&mut self, _alloc: Global, _port: u16, _request: &[u8]) -> Result<Received, AskFault> {
        Err(AskFault::Connect)
    }

    fn pause(&mut self) {}
}
