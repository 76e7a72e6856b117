//! Whether a J1939 message goes to one address or to all.

/// Whether a J1939 message goes to one address or to all.
#[derive(Clone, Copy)]
pub(crate) enum Addressing {
    /// To one address (PDU1).
    Addressed,
    /// To every node (PDU2).
    Broadcast,
}
