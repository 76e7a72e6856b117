//! How a script is applied or sent.

/// How a script is applied.
#[derive(Clone, Copy, PartialEq, Eq)]
pub struct Manner {
    /// Whether it stops at the first refusal.
    pub strict: bool,
    /// Whether each answer is printed with what was requested.
    pub echo: bool,
}

/// To which desk a script is sent, and how.
#[derive(Clone, Copy, PartialEq, Eq)]
pub struct Sending {
    /// The port of this machine, from 1.
    pub port: u16,
    /// How often a request is sent until it is answered, from 1.
    pub tries: u32,
    /// How the script is applied.
    pub manner: Manner,
}
