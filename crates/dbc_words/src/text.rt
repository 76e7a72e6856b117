//! What is between the quotes of a text.
ghost use Rattle.std.specs.Prelude.{◌≡◌};
ghost use Rattle.dbc_words.specs.Text.{is_text};

use base::{Checked, EmptyRule, Rule};

/// Whether the bytes can be between the quotes of one text.
fn is_text(bytes: &[u8]) -> bool
    ensures { result ≡ is_text bytes.now }
{
    let mut escaped = false;
    for byte in bytes {
        if escaped {
            escaped = false;
        } else if *byte == b'"' {
            return false;
        } else {
            escaped = *byte == b'\\';
        }
    }
    !escaped
}

/// The rule of texts.
pub struct TextRule;

impl Rule for TextRule {
    ghost use Rattle.dbc_words.specs.Text.{IsText, is_text};

    ghost Keeps = { IsText };

    ghost accepts = { is_text };

    fn accepts(bytes: &[u8]) -> bool {
        is_text(bytes)
    }
}

/// A text may have no bytes.
impl EmptyRule for TextRule {
    ghost use Rattle.std.specs.Prelude.{[], refl};

    ghost keeps_none = { record { pieces = []; each = tt; whole = refl } };

    ghost accepts_none = { refl };
}

/// What is between the quotes of one text of a DBC file: a version, a comment, a unit, the text of a value.
/// Contracts see it as its bytes, and the bytes stay as they are written, backslashes too.
///
/// Any byte may occur. A backslash escapes the next byte, so none is alone at the end, and no other
/// byte is a quote (Vector's DBC File Format Documentation, character strings, in this project's dialect).
pub type Text = Checked<TextRule>;
