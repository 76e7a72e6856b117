//! A token of a DBC text.
use dbc_grammar::TokenKind;

/// A token of a DBC text, and where it is.
#[derive(Clone, Copy, PartialEq, Eq)]
pub struct Token<'a> {
    /// Its kind: a name, a number, a text or a mark.
    pub kind: TokenKind,
    /// The offset of its first byte.
    pub start: usize,
    /// The offset of the byte after its last one.
    pub end: usize,
    /// Its bytes, one or more; those of a text include both quotes.
    pub text: &'a [u8],
}
