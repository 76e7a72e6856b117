//! Tokens, each after its gap.
ghost use Rattle.std.specs.Prelude.{◌≡◌, ◌∷◌, [], ◌++◌, OnOk};
ghost use Rattle.std.specs.List.{flat_map};
ghost use Rattle.dbc_grammar.specs.Canon.{mark, number, quoted, space, tight, value, word};
ghost use Rattle.dbc_write.specs.Adding.{Adds, piece_text};

use decimal::Decimal;
use itoa::Buffer;
use std::alloc::AllocError;

/// Appends the texts, one after the other.
pub(crate) fn push_all(text: &mut Vec<u8>, parts: &[&[u8]]) -> Result<(), AllocError>
    ensures { OnOk result (text.new.items ≡ text.old.items ++ flat_map (λ part. part.now) parts.now) }
{
    for part in parts {
        text.extend_from_slice(part)?;
    }
    Ok(())
}

/// A word at the beginning of a line, or directly after a mark.
pub(crate) fn tight_word(text: &mut Vec<u8>, bytes: &[u8]) -> Result<(), AllocError>
    ensures { OnOk result (Adds piece_text text.old.items text.new.items
        (word tight bytes.now ∷ [])) }
{
    text.extend_from_slice(bytes)?;
    Ok(())
}

/// A word after a space.
pub(crate) fn spaced_word(text: &mut Vec<u8>, bytes: &[u8]) -> Result<(), AllocError>
    ensures { OnOk result (Adds piece_text text.old.items text.new.items
        (word space bytes.now ∷ [])) }
{
    text.push(b' ')?;
    text.extend_from_slice(bytes)?;
    Ok(())
}

/// A whole number after a space.
pub(crate) fn spaced_number(text: &mut Vec<u8>, value: u32) -> Result<(), AllocError>
    ensures { OnOk result (Adds piece_text text.old.items text.new.items
        (number space value ∷ [])) }
{
    text.push(b' ')?;
    text.extend_from_slice(Buffer::new().format(value).as_bytes())?;
    Ok(())
}

/// A mark directly after what comes before it.
pub(crate) fn tight_mark(text: &mut Vec<u8>, byte: u8) -> Result<(), AllocError>
    ensures { OnOk result (Adds piece_text text.old.items text.new.items
        (mark tight (byte ∷ []) ∷ [])) }
{
    text.push(byte)?;
    Ok(())
}

/// A mark after a space.
pub(crate) fn spaced_mark(text: &mut Vec<u8>, byte: u8) -> Result<(), AllocError>
    ensures { OnOk result (Adds piece_text text.old.items text.new.items
        (mark space (byte ∷ []) ∷ [])) }
{
    text.extend_from_slice(&[b' ', byte])?;
    Ok(())
}

/// A text between quotes, after a space.
pub(crate) fn quoted(text: &mut Vec<u8>, bytes: &[u8]) -> Result<(), AllocError>
    ensures { OnOk result (Adds piece_text text.old.items text.new.items
        (quoted space bytes.now ∷ [])) }
{
    text.extend_from_slice(b" \"")?;
    text.extend_from_slice(bytes)?;
    text.push(b'"')?;
    Ok(())
}

/// A decimal directly after a mark.
pub(crate) fn tight_value(text: &mut Vec<u8>, decimal: &Decimal) -> Result<(), AllocError>
    ensures { OnOk result (Adds piece_text text.old.items text.new.items
        (value tight decimal.now)) }
{
    decimal.print_into(text)?;
    Ok(())
}

/// A decimal after a space.
pub(crate) fn spaced_value(text: &mut Vec<u8>, decimal: &Decimal) -> Result<(), AllocError>
    ensures { OnOk result (Adds piece_text text.old.items text.new.items
        (value space decimal.now)) }
{
    text.push(b' ')?;
    decimal.print_into(text)?;
    Ok(())
}
