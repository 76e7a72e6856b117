//! Kinds of token.
/// The kinds of token of a DBC file.
#[derive(Clone, Copy, PartialEq, Eq)]
pub enum TokenKind {
    /// A C identifier of any length, also a keyword.
    Name,
    /// A number without a sign.
    Number,
    /// A text in quotes.
    Text,
    /// One of `: ; , | @ ( ) [ ] + -`.
    Mark,
}
