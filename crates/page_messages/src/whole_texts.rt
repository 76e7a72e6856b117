//! Texts of whole numbers.
use base::whole_number;
use dbc_sheet::ValueText;
use page_parts::decimal_text;
use std::alloc::{AllocError, Global};

/// A whole number, and its text.
#[derive(Clone, Copy)]
pub(crate) struct WholeText<'a> {
    /// The number.
    pub(crate) value: u32,
    /// Its text.
    pub(crate) text: &'a [u8],
}

/// The texts of those values that are whole numbers, by the numbers; where several texts are of one, in their order. The
/// error is out of memory.
pub(crate) fn whole_texts<'a>(
    alloc: Global,
    values: &'a [ValueText],
) -> Result<Vec<WholeText<'a>>, AllocError> {
    let mut texts = Vec::new(alloc);
    for value in values {
        if let Some(number) = whole_number(decimal_text(&value.value).as_bytes()) {
            texts.push(WholeText {
                value: number,
                text: value.text.as_bytes(),
            })?;
        }
    }
    texts.sort_by_key(|text| text.value)?;
    Ok(texts)
}

/// The first text of the number.
pub(crate) fn text_of<'a>(texts: &[WholeText<'a>], value: u32) -> Option<&'a [u8]> {
    let from = texts.partition_point(|text| text.value < value);
    match texts.get(from) {
        Some(found) if found.value == value => Some(found.text),
        _ => None,
    }
}
