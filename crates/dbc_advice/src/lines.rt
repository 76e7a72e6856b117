//! Lines of a text. A line ends before its LF, or at the text's end.
ghost use Rattle.std.specs.Prelude.{◌≡◌, ◌+◌, ◌≤◌, length, take, drop};
ghost use Rattle.std.specs.List.{prefix_len, suffix_len};
ghost use Rattle.dbc_advice.specs.Lines.{in_line, line_end, line_start};

/// Whether the byte doesn't end a line.
fn in_line(byte: u8) -> bool
    ensures { result ≡ in_line byte }
{
    byte != b'\n'
}

/// How many bytes of its line come before the offset.
pub(crate) fn bytes_before(text: &[u8], at: usize) -> usize
    requires { at ≤ length text.now }
    ensures is { result ≡ suffix_len in_line (take at text.now) }
    ensures within { result ≤ at }
{
    text[..at]
        .iter()
        .rev()
        .take_while(|byte| in_line(**byte))
        .count()
}

/// How many bytes of its line come from the offset on.
fn bytes_after(text: &[u8], at: usize) -> usize
    requires { at ≤ length text.now }
    ensures is { result ≡ prefix_len in_line (drop at text.now) }
    ensures within { at + result ≤ length text.now }
{
    let (_, rest) = text.split_at(at);
    rest.iter().take_while(|byte| in_line(**byte)).count()
}

/// The offset of the first byte of the line.
pub(crate) fn line_start(text: &[u8], at: usize) -> usize
    requires { at ≤ length text.now }
    ensures is { result ≡ line_start text.now at }
    ensures within { result ≤ at }
{
    at - bytes_before(text, at)
}

/// The offset of the line's LF, or the text's length.
pub(crate) fn line_end(text: &[u8], at: usize) -> usize
    requires { at ≤ length text.now }
    ensures is { result ≡ line_end text.now at }
    ensures least { at ≤ result }
    ensures most { result ≤ length text.now }
{
    at + bytes_after(text, at)
}
