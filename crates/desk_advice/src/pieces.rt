//! What lines are made of.
ghost use Rattle.std.specs.Prelude.{◌≡◌, ◌++◌, IfOk, OnOk};
ghost use Rattle.desk_advice.specs.Front.{all_shown, escape, is_plain, shown, shown_byte};
ghost use Rattle.desk_advice.specs.Line.{line_text};

use columns::{concat, filled};
use dbc_advice::visible_bytes;
use std::alloc::{AllocError, Global};
use std::str::from_utf8;

/// How many bytes of a method or of a target are shown.
const SHOWN: usize = 200;

/// How many bytes of the name of a member are shown.
const NAME_SHOWN: usize = 64;

/// The bytes as a text, which they are where they come from sentences.
pub(crate) fn text_in(bytes: &[u8]) -> &str {
    match from_utf8(bytes) {
        Ok(text) => text,
        Err(_) => "?",
    }
}

/// A text; `None` where there is nothing to say. The error is out of memory.
pub(crate) type Told = Result<Option<String>, AllocError>;

/// The text, if there was memory for it.
pub(crate) fn told(text: Result<String, AllocError>) -> Told {
    Ok(Some(text?))
}

/// A text of its own.
pub(crate) fn text_of(alloc: Global, text: &str) -> Result<String, AllocError> {
    String::from_str(alloc, text)
}

/// Whether a byte is shown as it is: printable ASCII, and no space.
fn is_plain(byte: u8) -> bool
    ensures { result ≡ is_plain byte }
{
    33 <= byte && byte <= 126
}

/// A byte by its two hexadecimal digits.
fn escape(alloc: Global, byte: u8) -> Result<Vec<u8>, AllocError>
    ensures { IfOk result (λ text. text.items ≡ escape byte) }
{
    let digits = format!(in alloc; "{byte:x}")?;
    let padded = filled(alloc, b'0', 2, digits.as_bytes())?;
    concat(alloc, &[b"\\x", &padded])
}

/// Adds a byte as it is shown: one that isn't printable ASCII by its hexadecimal digits.
fn push_shown(alloc: Global, text: &mut Vec<u8>, byte: u8) -> Result<(), AllocError>
    ensures { OnOk result (text.new.items ≡ text.old.items ++ shown_byte byte) }
{
    if is_plain(byte) {
        text.push(byte)?;
    } else {
        let escape = escape(alloc, byte)?;
        text.extend_from_slice(&escape)?;
    }
    Ok(())
}

/// The bytes as they are shown.
fn all_shown(alloc: Global, bytes: &[u8]) -> Result<Vec<u8>, AllocError>
    ensures { IfOk result (λ text. text.items ≡ all_shown bytes.now) }
{
    let mut text = Vec::new(alloc);
    for byte in bytes {
        push_shown(alloc, &mut text, *byte)?;
    }
    Ok(text)
}

/// The bytes as they are shown, or the first of them.
pub(crate) fn shown(alloc: Global, bytes: &[u8]) -> Result<Vec<u8>, AllocError>
    ensures { IfOk result (λ text. text.items ≡ shown bytes.now) }
{
    if bytes.len() <= SHOWN {
        all_shown(alloc, bytes)
    } else {
        let mut text = all_shown(alloc, &bytes[..SHOWN])?;
        text.extend_from_slice(b"..")?;
        Ok(text)
    }
}

/// Whether the name of a member may be shown: letters, digits and `_`, and not too many.
pub(crate) fn may_be_shown(name: &str) -> bool {
    !name.is_empty()
        && name.len() <= NAME_SHOWN
        && name
            .as_bytes()
            .iter()
            .all(|byte| byte.is_ascii_alphanumeric() || *byte == b'_')
}

/// The text as one line.
pub(crate) fn as_line(alloc: Global, text: &[u8]) -> Result<Vec<u8>, AllocError>
    ensures { IfOk result (λ line. line.items ≡ line_text text.now) }
{
    let mut line = visible_bytes(alloc, text)?;
    line.push(b'\n')?;
    Ok(line)
}
