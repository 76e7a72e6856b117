//! Lines and columns, counted on.
ghost use Rattle.std.specs.Prelude.{◌≡◌, ◌==◌, ◌+◌, ◌≤◌, length, take};
ghost use Rattle.std.specs.List.{count_by, suffix_len};
ghost use Rattle.dbc_advice.specs.Lines.{in_line, line_feed};
ghost use Rattle.dbc_advice.specs.Position.{position_at};
ghost use Rattle.dbc_keep.specs.LeftOut.{line_at};

use dbc_advice::Position;

/// How many lines end in these bytes.
fn line_feeds(bytes: &[u8]) -> usize
    ensures is { result ≡ count_by (λ b. b == line_feed) bytes.now }
    ensures within { result ≤ length bytes.now }
{
    bytes.iter().filter(|byte| **byte == b'\n').count()
}

/// The line of an offset, from that of another one. Before that it is counted anew.
pub(crate) fn line_from(text: &[u8], from: usize, line: usize, at: usize) -> usize
    requires from { from ≤ length text.now }
    requires at { at ≤ length text.now }
    requires line { line ≡ line_at text.now from }
    ensures { result ≡ line_at text.now at }
{
    if from <= at {
        return line + line_feeds(&text[from..at]);
    }
    line_feeds(&text[..at]) + 1
}

fn in_line(byte: u8) -> bool
    ensures { result ≡ in_line byte }
{
    byte != b'\n'
}

/// How many bytes of its line come before the offset.
fn bytes_before(text: &[u8], at: usize) -> usize
    requires { at ≤ length text.now }
    ensures is { result ≡ suffix_len in_line (take at text.now) }
    ensures within { result ≤ at }
{
    text[..at]
        .iter()
        .rev()
        .take_while(|byte| in_line(**byte))
        .count()
}

/// Where the offset is that is in this line.
pub(crate) fn position_in(text: &[u8], line: usize, at: usize) -> Position
    requires at { at ≤ length text.now }
    requires line { line ≡ line_at text.now at }
    ensures { result ≡ position_at text.now at }
{
    Position {
        line,
        column: bytes_before(text, at) + 1,
    }
}
