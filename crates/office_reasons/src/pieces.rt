//! Names, numbers and identifiers in sentences.
ghost use Rattle.std.specs.Prelude.{◌≡◌, IfOk, map, string_bytes};
ghost use Rattle.dbc_advice.specs.Sentence.{visible};
ghost use Rattle.office_types.specs.Block.{is_spn};
ghost use Rattle.office_reasons.specs.Pieces.{IsSentence, ident_text, range_text, shown};

use can_id::{Ident, IdentForm};
use dbc_advice::visible_bytes;
use office_types::{Block, BlockForm, NetKind};
use std::alloc::{AllocError, Global};
use std::str::from_utf8;

/// The bytes of a name as a text, which they are: no name has others than ASCII.
pub(crate) fn shown(bytes: &[u8]) -> &str
    ensures { result.now ≡ shown bytes.now }
{
    match from_utf8(bytes) {
        Ok(text) => text,
        Err(_) => "?",
    }
}

/// The text as a sentence, which has one line.
pub(crate) fn sentence_of(alloc: Global, text: &str) -> Result<Vec<u8>, AllocError>
    ensures shown { IfOk result (λ sentence. sentence.items ≡ map visible text.now) }
    ensures sentence { IfOk result (λ sentence. IsSentence sentence.items) }
{
    visible_bytes(alloc, text.as_bytes())
}

/// `256`, or `256 to 258`.
pub(crate) fn range_text(alloc: Global, block: Block) -> Result<String, AllocError>
    ensures { IfOk result (λ text. string_bytes text ≡ range_text block) }
{
    let Block { first, last } = block;
    if first == last {
        format!(in alloc; "{first}")
    } else {
        format!(in alloc; "{first} to {last}")
    }
}

/// Whether the numbers are suspect parameter numbers.
pub(crate) fn is_spn(form: BlockForm) -> bool
    ensures { result ≡ is_spn form }
{
    form == BlockForm::Spn
}

/// The identifier: its form, its number, and that in hexadecimal digits.
pub(crate) fn ident_text(alloc: Global, ident: &Ident) -> Result<String, AllocError>
    ensures { IfOk result (λ text. string_bytes text ≡ ident_text ident.now) }
{
    let form = ident.form().word();
    let number = ident.number();
    format!(in alloc; "{form} {number} (0x{number:X})")
}
