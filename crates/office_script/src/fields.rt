//! The fields of a line: its words `name=value`.
ghost use Rattle.std.specs.Prelude.{◌≡◌, ◌↔◌, List, Some, IfOk};
ghost use Rattle.std.specs.Option.{option_map};
ghost use Rattle.office_fields.specs.Given.{NamedValue, named_value, named_values};
ghost use Rattle.office_script.specs.Words.{words_after};
ghost use Rattle.office_script.specs.Fields.{AreFieldWords, field_of, fields_of};

use crate::escapes::unescape;
use crate::words::first_word;
use base::split_once;
use office_fields::GivenValue;
use std::alloc::{AllocError, Global};

/// The field that a word is; `None` if the word has no `=`, or a `%` in its value isn't followed by two
/// hexadecimal digits.
fn read_field(alloc: Global, word: &[u8]) -> Result<Option<GivenValue<'_>>, AllocError>
    ensures { IfOk result (λ found. option_map named_value found ≡ field_of word.now) }
{
    let Some((name, written)) = split_once(word, b'=') else {
        return Ok(None);
    };
    let Some(value) = unescape(alloc, written)? else {
        return Ok(None);
    };
    Ok(Some(GivenValue { name, value }))
}

/// Reads the words of `rest`, the rest of a line after some word (`FirstWord::rest`), as fields.
///
/// A field is a name without `=`, then `=`, then its written value, which `unescape` decodes. `None` if some word is
/// no field, such as an empty word. Without words there are no fields. The only error is out of memory.
pub fn read_fields(
    alloc: Global,
    rest: Option<&[u8]>,
) -> Result<Option<Vec<GivenValue<'_>>>, AllocError>
    ensures value { IfOk result (λ found. option_map (λ fields. named_values fields.items) found
        ≡ fields_of (words_after rest.entry)) }

    // The words are the fields that are found and no others, and no fields at all if none are found.
    ensures meaning { IfOk result (λ found. (fields : List NamedValue)
        → (AreFieldWords (words_after rest.entry) fields ↔
        (option_map (λ fields. named_values fields.items) found ≡ Some fields))) }
{
    let mut list = Vec::new(alloc);
    let mut left = rest;
    while let Some(words) = left {
        let first = first_word(words);
        let Some(field) = read_field(alloc, first.word)? else {
            return Ok(None);
        };
        list.push(field)?;
        left = first.rest;
    }
    Ok(Some(list))
}
