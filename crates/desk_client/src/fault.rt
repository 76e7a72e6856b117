//! Why a desk isn't asked to the end.
use desk_types::DeskFault;
use thiserror::Error;

/// Why nothing is known of what a desk answers.
#[derive(Clone, Copy, Debug, PartialEq, Eq, Error)]
pub enum AskFault {
    /// Nothing takes a connection at the port.
    #[error("no desk answers")]
    Connect,
    /// The connection ended by this fault.
    #[error("{0}")]
    Connection(DeskFault),
}
