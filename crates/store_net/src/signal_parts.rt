//! How much is read of the signals of live messages.

/// How much is read of signals.
#[derive(Clone, Copy, PartialEq, Eq)]
pub enum SignalParts {
    /// All of them.
    All,
    /// All but value texts.
    Received,
    /// All but receivers and value texts.
    RowOnly,
}
