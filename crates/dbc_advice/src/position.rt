//! Lines and columns.
ghost use Rattle.std.specs.Prelude.{◌≡◌, ◌==◌, ◌≤◌, length, take};
ghost use Rattle.std.specs.List.{count_by};
ghost use Rattle.dbc_advice.specs.Lines.{line_feed};

use crate::lines::bytes_before;

/// Where an offset is, as people and editors say it.
#[derive(Clone, Copy, PartialEq, Eq)]
pub struct Position {
    /// The line, from 1.
    pub line: usize,
    /// The column, from 1, in bytes.
    pub column: usize,
}

/// How many lines end before the offset.
fn lines_before(text: &[u8], at: usize) -> usize
    requires { at ≤ length text.now }
    ensures is { result ≡ count_by (λ b. b == line_feed) (take at text.now) }
    ensures within { result ≤ at }
{
    text[..at].iter().filter(|byte| **byte == b'\n').count()
}

ghost use Rattle.dbc_advice.specs.Position.{position_at};

/// The line and the column of the offset: one more than the LFs before it, and one more than the bytes after the last
/// of them.
pub fn position_of(text: &[u8], at: usize) -> Position
    requires { at ≤ length text.now }
    ensures { result ≡ position_at text.now at }
{
    Position {
        line: lines_before(text, at) + 1,
        column: bytes_before(text, at) + 1,
    }
}
