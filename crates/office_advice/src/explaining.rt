//! All that is stated of a script.
ghost use Rattle.std.specs.Prelude.{◌≡◌, ◌||◌, IfOk, ℕ, List, is_none, is_some};
ghost use Rattle.office_script.specs.Bundles.{part_of_words};
ghost use Rattle.office_script.specs.Lines.{lines_of, says_nothing};
ghost use Rattle.office_script.specs.Requests.{requests_of_line};
ghost use Rattle.office_script.specs.Words.{words_of};
ghost use Rattle.office_advice.specs.Cause.{part_wrong, wrong_of};
ghost use Rattle.office_advice.specs.Explained.{IsStatedOf, wrong_line};

use crate::bundles::stated_of_bundle;
use crate::cause::Wrong;
use crate::finding::wrong_of;
use crate::sentences::sentence_of;
use crate::words::word_at;
use dbc_advice::{Position, reported_line};
use office_script::{Dash, FileSource, first_line};
use std::alloc::{AllocError, Global};

/// What stands before the sentence, as a code does of a DBC file: a wrong line has none.
const LABEL: &[u8] = b"bad line";

/// What is stated of the line of this number.
pub(crate) fn wrong_line(
    alloc: Global,
    name: &[u8],
    number: usize,
    line: &[u8],
    wrong: Wrong,
) -> Result<Vec<u8>, AllocError>
    ensures { IfOk result (λ reported. reported.items ≡ wrong_line name.now number line.now wrong) }
{
    let found = word_at(line, wrong.word);
    let column = found.offset + 1;
    let position = Position {
        line: number,
        column,
    };
    let sentence = sentence_of(alloc, wrong.cause, found.word)?;
    reported_line(alloc, name, position, LABEL, &sentence)
}

/// What is stated of the first wrong line of the script, or of the first whose bundle's file is wrong; nothing if there
/// is none.
fn first_wrong_line<F: FileSource>(
    alloc: Global,
    name: &[u8],
    text: &[u8],
    dash: Dash,
    files: &F,
) -> Result<Vec<u8>, AllocError>
    ensures { IfOk result (λ stated. IsStatedOf (F.held files.now) name.now dash 1
        (lines_of text.now) stated.items) }
{
    let mut number = 0usize;
    let mut rest = text;
    while let Some(first) = first_line(rest) {
        number += 1;
        if let Some(wrong) = wrong_of(alloc, dash, number, first.line)? {
            return wrong_line(alloc, name, number, first.line, wrong);
        }
        if let Some(stated) = stated_of_bundle(alloc, name, dash, number, first.line, files)? {
            return Ok(stated);
        }
        rest = first.rest;
    }
    Ok(Vec::new(alloc))
}

/// What is stated of a script under its name, beside what is answered: the line `NAME:LINE:COLUMN: bad line: sentence`
/// of its first wrong line, at the word that is to blame, or nothing if no line is wrong. A line is wrong as well if it
/// requests a bundle whose file is: then the line is of that file, under its path as [`dbc_advice::shown_path`] shows
/// it, or of the script if there is no command or too many. `dash` is what `-` means as a key. Files that can't be
/// read, and those of imports, aren't looked at. The error is out of memory.
pub fn explained<F: FileSource>(
    alloc: Global,
    name: &[u8],
    text: &[u8],
    dash: Dash,
    files: &F,
) -> Result<Vec<u8>, AllocError>
    ensures stated { IfOk result (λ stated. IsStatedOf (F.held files.now) name.now dash 1
        (lines_of text.now) stated.items) }

    // A line is reported as wrong exactly if it is; and so is one of a bundle's file.
    ensures wrong { (number : ℕ) → (line : List ℕ)
        → is_none (wrong_of dash number line) ≡ is_some (requests_of_line dash number line) }
    ensures parts { (line : List ℕ) → is_none (part_wrong line)
        ≡ (says_nothing line || is_some (part_of_words (words_of line))) }
{
    first_wrong_line(alloc, name, text, dash, files)
}
