//! Why serving ends early.
use thiserror::Error;

/// Why serving ends before all connections were served.
#[derive(Clone, Copy, Debug, PartialEq, Eq, Error)]
pub enum ServeFault {
    /// The port can't be listened on.
    #[error("cannot listen")]
    Listen,
    /// A connection can't be accepted.
    #[error("cannot accept")]
    Accept,
}
