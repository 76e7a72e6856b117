//! Words that are no fields.
ghost use Rattle.std.specs.Prelude.{◌≡◌, ◌≤◌, IfOk};
ghost use Rattle.office_script.specs.Words.{words_of};
ghost use Rattle.office_advice.specs.Cause.{form_cause, form_wrong};

use crate::cause::{Cause, Wrong};
use base::split_once;
use office_script::{first_word, unescape};
use std::alloc::{AllocError, Global};

/// Why the word is no field, if it is none.
fn form_cause(alloc: Global, word: &[u8]) -> Result<Option<Cause>, AllocError>
    ensures { IfOk result (λ found. found ≡ form_cause word.now) }
{
    let Some((_name, written)) = split_once(word, b'=') else {
        return Ok(Some(Cause::NoField));
    };
    match unescape(alloc, written)? {
        Some(_value) => Ok(None),
        None => Ok(Some(Cause::Escape)),
    }
}

/// The first of the words of a line after its command that is no field, where `first` is the index of the first of
/// them.
pub(crate) fn form_wrong(
    alloc: Global,
    first: usize,
    words: &[u8],
) -> Result<Option<Wrong>, AllocError>
    requires { first ≤ 3 }
    ensures { IfOk result (λ found. found ≡ form_wrong first (words_of words.now)) }
{
    let mut index = first;
    let mut left = Some(words);
    while let Some(rest) = left {
        let word = first_word(rest);
        if let Some(cause) = form_cause(alloc, word.word)? {
            return Ok(Some(Wrong { word: index, cause }));
        }
        index += 1;
        left = word.rest;
    }
    Ok(None)
}
