//! Lists of names in sentences.
ghost use Rattle.std.specs.Prelude.{◌≡◌, IfOk, map};
ghost use Rattle.office_fields.specs.Kind.{word_of};
ghost use Rattle.office_advice.specs.Sentence.{field_names, listed};

use columns::concat;
use office_fields::{CommandKind, Field};
use std::alloc::{AllocError, Global};

/// The names of the fields: `a, b, c`.
pub(crate) fn field_names(alloc: Global, fields: &[Field]) -> Result<Vec<u8>, AllocError>
    ensures { IfOk result (λ text. text.items ≡ field_names fields.now) }
{
    match fields {
        [] => Ok(Vec::new(alloc)),
        [only] => Vec::from_slice(alloc, only.name().as_bytes()),
        [first, rest @ ..] => {
            let rest = field_names(alloc, rest)?;
            concat(alloc, &[first.name().as_bytes(), b", ", &rest])
        }
    }
}

/// The word of the command.
fn command_word(kind: CommandKind) -> &'static str
    ensures { result.now ≡ word_of kind }
{
    kind.word()
}

/// The words of the commands: `a, b, c`.
pub(crate) fn command_words(alloc: Global, kinds: &[CommandKind]) -> Result<Vec<u8>, AllocError>
    ensures { IfOk result (λ text. text.items ≡ listed (map word_of kinds.now)) }
{
    match kinds {
        [] => Ok(Vec::new(alloc)),
        [only] => Vec::from_slice(alloc, command_word(*only).as_bytes()),
        [first, rest @ ..] => {
            let rest = command_words(alloc, rest)?;
            concat(alloc, &[command_word(*first).as_bytes(), b", ", &rest])
        }
    }
}
