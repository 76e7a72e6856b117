//! Where connections come from.
ghost use Rattle.std.specs.Prelude.{◌≡◌, ℕ, List, Option, IfOk, OnErr};
ghost use Rattle.desk.specs.Serving.{IsAccepted, Ending, IsClosed, NoneWaits, Starts};

use desk_types::{Failed, Sink, Source};

/// Where connections come from, one after the other.
pub trait Listener {
    /// What the peer of a connection sends.
    type Request: Source + Drop;

    /// Where the response of a connection goes.
    type Response: Sink + Drop;

    /// What the peers of the connections to come send, if it states that.
    ghost coming: { Self → Option (List (List ℕ)) };

    /// How each of the connections ended that have ended, if it states that. It may cease to.
    ghost ended: { Self → Option (List Ending) };

    /// The next connection, none of whose calls has failed yet. It may wait for one for ever. The error is that none
    /// can be accepted; a listener that states what comes has one only if nothing comes.
    fn accept(&mut self) -> Result<(Self::Request, Self::Response), Failed>
        ensures sound { IfOk result (λ c. (Self.Request.failure_count c.0 ≡ 0)
            × (Self.Response.failure_count c.1 ≡ 0)) }
        ensures comes { IfOk result
            (λ c. IsAccepted (coming self.old) (coming self.new) (Self.Request.left c.0)) }
        ensures starts { IfOk result (λ c. Starts (ended self.old) (Self.Response.reported c.1)) }
        ensures kept { ended self.new ≡ ended self.old }
        ensures failed { OnErr result
            ((coming self.new ≡ coming self.old) × NoneWaits (coming self.old)) };

    /// Closes the connection, after its response or its fault.
    fn finish(&mut self, request: Self::Request, response: Self::Response)
        ensures ends { IsClosed (ended self.old) (ended self.new) (Self.Response.reported response)
            (Self.Request.failure_count request) (Self.Response.failure_count response) }
        ensures kept { coming self.new ≡ coming self.old };
}
