//! Skipped statements.
use dbc_words::Keyword;

/// A statement that is skipped: one of which this project keeps nothing, or one that cites what isn't in the file.
#[derive(Clone, Copy, PartialEq, Eq)]
pub struct Passed {
    /// The offset of its first keyword.
    pub at: usize,
    /// That keyword.
    pub keyword: Keyword,
}
