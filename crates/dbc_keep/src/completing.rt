//! The text of a sheet with statements of an original, and with the attributes of SAE J1939.
ghost use Rattle.std.specs.Prelude.{◌≡◌, IfErr, IfOk, List, ℕ, option_map, true};
ghost use Rattle.dbc_keep.specs.Completed.{CannotBeCompleted, IsCompleted, IsOriginalFault, IsWithJ1939};
ghost use Rattle.dbc_keep.specs.Completed.{IsWithOriginal, named_text};
ghost use Rattle.dbc_grammar.specs.Reads.{ReadsOnlyAs};
ghost use Rattle.dbc_keep.specs.J1939.{IsUnreadable};
ghost use Rattle.dbc_lex.specs.Fault.{UnlessMemory};

use crate::j1939::text_with_j1939;
use crate::left_out::left_out_lines;
use crate::staying::text_with_staying;
use dbc_advice::Source;
use dbc_read::{ReadFault, read};
use dbc_sheet::Sheet;
use std::alloc::Global;

/// What a text has besides its sheet.
#[derive(Clone, Copy)]
pub struct Besides<'a> {
    /// The file whose skipped statements it has, as far as they stay.
    pub original: Option<Source<'a>>,
    /// Whether it has the attributes of SAE J1939.
    pub j1939: bool,
}

/// A completed text.
pub struct Completed {
    /// The text.
    pub text: Vec<u8>,
    /// A line for each statement of the original that is left out.
    pub left_out: Vec<u8>,
}

impl Completed {
    /// The text, and the lines.
    pub fn into_parts(self) -> (Vec<u8>, Vec<u8>)
        ensures { result ≡ (self.text, self.left_out) }
    {
        let Completed { text, left_out } = self;
        (text, left_out)
    }
}

/// The text of the sheet with the statements of the original that stay.
fn with_original(alloc: Global, original: Source, sheet: &Sheet) -> Result<Completed, ReadFault>
    ensures only { IfOk result (λ made. ReadsOnlyAs made.text.items sheet.now) }
    ensures made { (text : List ℕ) → IfOk result
        (λ made. IsWithOriginal (Some (named_text original.entry)) text sheet.now made.text.items
        made.left_out.items) }
    ensures fault { IfErr result (λ fault. UnlessMemory fault.code
        (IsOriginalFault (Some (named_text original.entry)) fault)) }
{
    let reading = read(alloc, original.text)?;
    let (text, others) = text_with_staying(alloc, original.text, &reading, sheet)?;
    let left_out = left_out_lines(alloc, original, others.as_slice())?;
    Ok(Completed { text, left_out })
}

/// The same, or the text as it is where there is no original.
fn with_staying(
    alloc: Global,
    text: Vec<u8>,
    original: Option<Source>,
    sheet: &Sheet,
) -> Result<Completed, ReadFault>
    requires { ReadsOnlyAs text.items sheet.now }
    ensures only { IfOk result (λ made. ReadsOnlyAs made.text.items sheet.now) }
    ensures made { IfOk result (λ made. IsWithOriginal (option_map named_text original.entry)
        text.items sheet.now made.text.items made.left_out.items) }
    ensures fault { IfErr result (λ fault. UnlessMemory fault.code
        (IsOriginalFault (option_map named_text original.entry) fault)) }
{
    match original {
        Some(original) => with_original(alloc, original, sheet),
        None => Ok(Completed {
            text,
            left_out: Vec::new(alloc),
        }),
    }
}

/// The text of the sheet with the attributes of SAE J1939, where they are wanted.
fn with_j1939(
    alloc: Global,
    text: Vec<u8>,
    wanted: bool,
    sheet: &Sheet,
) -> Result<Vec<u8>, ReadFault>
    requires { ReadsOnlyAs text.items sheet.now }
    ensures only { IfOk result (λ made. ReadsOnlyAs made.items sheet.now) }
    ensures made { IfOk result (λ made. IsWithJ1939 wanted text.items sheet.now made.items) }
    ensures fault { IfErr result (λ fault. UnlessMemory fault.code
        (IsUnreadable text.items sheet.now)) }
    ensures wanted { IfErr result (λ fault. UnlessMemory fault.code (wanted ≡ true)) }
{
    if wanted {
        return text_with_j1939(alloc, &text, sheet);
    }
    Ok(text)
}

/// The text of a sheet with what is wanted besides: it reads as the same sheet and as no other. A fault other than out
/// of memory comes only if the text or the original reads as no sheet, or the text no longer does with the attributes.
pub fn complete(alloc: Global, text: Vec<u8>, besides: Besides) -> Result<Completed, ReadFault>
    ensures made { IfOk result (λ made. IsCompleted (option_map named_text besides.entry.original)
        besides.entry.j1939 text.items made.text.items made.left_out.items) }
    ensures fault { IfErr result (λ fault. UnlessMemory fault.code
        (CannotBeCompleted (option_map named_text besides.entry.original) besides.entry.j1939
        text.items fault)) }
{
    let reading = read(alloc, &text)?;
    let sheet = &reading.sheet;
    let staying = with_staying(alloc, text, besides.original, sheet)?;
    let (text, left_out) = staying.into_parts();
    let text = with_j1939(alloc, text, besides.j1939, sheet)?;
    Ok(Completed { text, left_out })
}

impl Drop for Completed {
    fn drop(self) {
        let Completed {
            text: _text,
            left_out: _left_out,
        } = self;
    }
}
