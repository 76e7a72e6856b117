//! Bytes as a text.
ghost use Rattle.std.specs.Prelude.{◌≡◌, ◌++◌, OnOk};
ghost use Rattle.html.specs.Text.{escaped, is_control, is_mark, is_noncharacter, is_plain, is_unshown, reference};
ghost use Rattle.html.specs.Text.{shown, written, written_shown};

use crate::characters::{char_at, is_between};
use itoa::Buffer;
use std::alloc::AllocError;

/// Whether the character is a control character other than tab and line feed.
fn is_control(character: u32) -> bool
    ensures { result ≡ is_control character }
{
    character < 32 && !(character == 9 || character == 10)
}

fn is_noncharacter(character: u32) -> bool
    ensures { result ≡ is_noncharacter character }
{
    character % 65536 >= 65534 || is_between(64976, 65007, character)
}

/// Whether HTML has no reference for the character.
fn is_unshown(character: u32) -> bool
    ensures { result ≡ is_unshown character }
{
    is_between(127, 159, character) || is_noncharacter(character)
}

/// What is shown for the character.
fn shown(character: u32) -> Option<u32>
    ensures { result ≡ shown character }
{
    if character == 13 {
        None
    } else if is_control(character) {
        Some(9216 + character)
    } else if is_unshown(character) {
        Some(65533)
    } else {
        Some(character)
    }
}

/// Whether the character is one of `"`, `&`, `'`, `<` and `>`.
fn is_mark(character: u32) -> bool
    ensures { result ≡ is_mark character }
{
    (character == 34 || (character == 38 || character == 39))
        || (character == 60 || character == 62)
}

/// Whether the character is written as it is.
fn is_plain(character: u32) -> bool
    ensures { result ≡ is_plain character }
{
    (is_between(32, 126, character) || (character == 9 || character == 10)) && !is_mark(character)
}

/// Appends the reference to the character.
fn push_reference(text: &mut Vec<u8>, character: u32) -> Result<(), AllocError>
    ensures { OnOk result (text.new.items ≡ text.old.items ++ reference character) }
{
    text.extend_from_slice(b"&#")?;
    text.extend_from_slice(Buffer::new().format(character).as_bytes())?;
    text.extend_from_slice(b";")?;
    Ok(())
}

/// Appends the character, as it is or as a reference.
fn push_character(text: &mut Vec<u8>, character: u32) -> Result<(), AllocError>
    ensures { OnOk result (text.new.items ≡ text.old.items ++ written character) }
{
    if is_plain(character) {
        text.push(character as u8)?;
        return Ok(());
    }
    push_reference(text, character)
}

/// Appends what is shown for the character.
fn push_shown(text: &mut Vec<u8>, character: u32) -> Result<(), AllocError>
    ensures { OnOk result (text.new.items ≡ text.old.items ++ written_shown (shown character)) }
{
    match shown(character) {
        Some(character) => push_character(text, character),
        None => Ok(()),
    }
}

/// Appends the bytes as a text of HTML, in ASCII alone: it may stand between tags, and between the quotes of an
/// attribute. Bytes that are well-formed UTF-8 are shown as their characters, and each other byte as the character of
/// its number (Latin-1). Visible ASCII is written as it is, but for `"`, `&`, `'`, `<` and `>`, and so are spaces, tabs
/// and line feeds; for a carriage return nothing is written, and for another character a decimal reference: of another
/// control character that of its picture, and of what HTML has no reference for that of U+FFFD. The error is out of
/// memory; then the text may have a part of it.
pub fn push_text(text: &mut Vec<u8>, bytes: &[u8]) -> Result<(), AllocError>
    ensures { OnOk result (text.new.items ≡ text.old.items ++ escaped bytes.now) }
{
    let mut skip = 0u8;
    for index in 0..bytes.len() {
        if skip > 0 {
            skip -= 1;
        } else {
            let character = char_at(bytes[index], &bytes[index + 1..]);
            push_shown(text, character.number)?;
            skip = character.more;
        }
    }
    Ok(())
}
