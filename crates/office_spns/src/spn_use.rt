//! What has become of a suspect parameter number.

/// What has become of a suspect parameter number on a network.
#[derive(Clone, Copy, PartialEq, Eq)]
pub enum SpnUse {
    /// A live signal has it.
    Live,
    /// A signal of a release has it, and no live one.
    Gone,
    /// No signal here has it: it was used up before a release, or on another network.
    Used,
}
