//! Blanking lines of a text.
ghost use Rattle.std.specs.Prelude.{◌≡◌, ◌≤◌, IfOk, length, map};
ghost use Rattle.dbc_advice.specs.Blanked.{blank, blanked, blanked_between};

use crate::lines::{line_end, line_start};
use columns::concat;
use std::alloc::{AllocError, Global};

/// A space, or the byte itself where it is CR or LF.
fn blank(byte: u8) -> u8
    ensures { result ≡ blank byte }
{
    if byte == b'\n' || byte == b'\r' {
        byte
    } else {
        b' '
    }
}

/// The bytes, each of them blank.
fn blanks(alloc: Global, bytes: &[u8]) -> Result<Vec<u8>, AllocError>
    ensures { IfOk result (λ rest. rest.items ≡ map blank bytes.now) }
{
    bytes.iter().map(|byte| blank(*byte)).collect(alloc)
}

/// The text, where each byte from `start` up to `end` is blank.
fn blanked_between(
    alloc: Global,
    text: &[u8],
    start: usize,
    end: usize,
) -> Result<Vec<u8>, AllocError>
    requires ordered { start ≤ end }
    requires within { end ≤ length text.now }
    ensures { IfOk result (λ rest. rest.items ≡ blanked_between start end text.now) }
{
    let (before, _) = text.split_at(start);
    let (front, after) = text.split_at(end);
    let (_, lines) = front.split_at(start);
    let spaces = blanks(alloc, lines)?;
    concat(alloc, &[before, &spaces, after])
}

/// The text, where each byte of the lines from that of the offset `first` to that of the offset `last`, other than CR
/// and LF, is a space. So offsets and lines stay. The error is out of memory.
pub(crate) fn blanked(
    alloc: Global,
    text: &[u8],
    first: usize,
    last: usize,
) -> Result<Vec<u8>, AllocError>
    requires ordered { first ≤ last }
    requires within { last ≤ length text.now }
    ensures { IfOk result (λ rest. rest.items ≡ blanked first last text.now) }
{
    let start = line_start(text, first);
    let end = line_end(text, last);
    blanked_between(alloc, text, start, end)
}
