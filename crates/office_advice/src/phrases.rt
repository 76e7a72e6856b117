//! How sentences name the values of a kind.
ghost use Rattle.std.specs.Prelude.{◌≡◌, IfOk, IfSome};
ghost use Rattle.office_advice.specs.Phrase.{IsRangeOf, from_to, phrase_of, plain_phrase, range_of};

use bitlayout::{GREATEST_START, SIZE_LIMIT};
use dbc_words::LENGTH_LIMIT;
use office_fields::FieldKind;
use std::alloc::{AllocError, Global};

/// Which whole numbers are values, both ends inclusive.
#[derive(Clone, Copy, PartialEq, Eq)]
pub struct NumberRange {
    /// The least.
    pub least: u32,
    /// The greatest.
    pub greatest: u32,
}

/// A range.
fn from_to(least: u32, greatest: u32) -> Option<NumberRange>
    ensures { result ≡ from_to least greatest }
{
    Some(NumberRange { least, greatest })
}

/// The range of the kind, if its values are whole numbers.
fn kind_range(kind: FieldKind) -> Option<NumberRange>
    ensures { result ≡ range_of kind }
{
    match kind {
        FieldKind::Number => from_to(0, u32::MAX),
        FieldKind::Reviews => from_to(0, 9),
        FieldKind::Length => from_to(0, u32::from(LENGTH_LIMIT)),
        FieldKind::Priority => from_to(0, 7),
        FieldKind::Address => from_to(0, u32::from(u8::MAX)),
        FieldKind::Size => from_to(1, u32::from(SIZE_LIMIT)),
        FieldKind::Start => from_to(0, u32::from(GREATEST_START)),
        _ => None,
    }
}

/// The range of the kind, if its values are whole numbers. They are just the bytes that write a number of the range.
pub fn range_of(kind: FieldKind) -> Option<NumberRange>
    ensures range { result ≡ range_of kind }
    ensures exact { IfSome result (IsRangeOf kind) }
{
    kind_range(kind)
}

/// How a sentence names the values of a kind that has no range.
fn plain_phrase(kind: FieldKind) -> &'static str
    ensures { result.now ≡ plain_phrase kind }
{
    match kind {
        FieldKind::NetName | FieldKind::Team => "1 to 32 bytes of a to z, 0 to 9 and -",
        FieldKind::Name => "a C identifier of 1 to 128 bytes, no DBC keyword and not Vector__XXX",
        FieldKind::Text => "a text with \\ before each \" and each \\",
        FieldKind::Path => "a path in UTF-8",
        FieldKind::NetKind => "can or j1939",
        FieldKind::IdentForm => "std or ext",
        FieldKind::BlockForm => "std, ext, pgn or spn",
        FieldKind::Addressing => "addressed or broadcast",
        FieldKind::ByteOrder => "intel or motorola",
        FieldKind::Truth => "true or false",
        FieldKind::Mark => "M, or m and a whole number from 0 to 4294967295",
        FieldKind::Decimal => "a number as in DBC files, with - before it or nothing",
        FieldKind::ValueText => {
            "a number as in DBC files, : and a text with \\ before each \" and each \\"
        }
        _ => "a whole number",
    }
}

/// How a sentence names the values of the kind.
pub fn phrase_of(alloc: Global, kind: FieldKind) -> Result<Vec<u8>, AllocError>
    ensures { IfOk result (λ text. text.items ≡ phrase_of kind) }
{
    match range_of(kind) {
        Some(NumberRange { least, greatest }) => {
            let text = format!(in alloc; "a whole number from {least} to {greatest}")?;
            Ok(text.into_bytes())
        }
        None => Vec::from_slice(alloc, plain_phrase(kind).as_bytes()),
    }
}
