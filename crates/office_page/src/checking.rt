//! What a check of a sheet finds.
ghost use Rattle.std.specs.Prelude.{◌≡◌, [], IfOk, map};
ghost use Rattle.dbc_advice.specs.Clashes.{bytes_of};
ghost use Rattle.dbc_grammar.specs.Canon.{canonical_text};
ghost use Rattle.office_page.specs.Checking.{AreRemarkTexts, IsCheckOf, keyword_of, remark_text};
ghost use Rattle.office_page.specs.Names.{text_of};
ghost use Rattle.page_changes.specs.Names.{ascending};

use dbc_advice::clash_sentences;
use dbc_lint::{Remark, remarks_on};
use dbc_read::{Passed, Reading};
use dbc_sheet::Sheet;
use dbc_write::text_of;
use page_changes::ascending;
use page_parts::Checked;
use std::alloc::{AllocError, Global};

/// The remark as a text: the name of its kind, and what it is about.
fn remark_text(alloc: Global, remark: &Remark) -> Result<Vec<u8>, AllocError>
    ensures { IfOk result (λ text. text.items ≡ remark_text remark.now) }
{
    let mut text = Vec::from_slice(alloc, remark.kind.name().as_bytes())?;
    text.push(b' ')?;
    text.extend_from_slice(remark.words.as_slice())?;
    Ok(text)
}

/// The remarks as texts, in order.
fn remark_texts(alloc: Global, remarks: &[Remark]) -> Result<Vec<Vec<u8>>, AllocError>
    ensures { IfOk result (λ texts. map bytes_of texts.items ≡ map remark_text remarks.now) }
{
    let mut texts = Vec::new(alloc);
    for remark in remarks {
        let text = remark_text(alloc, remark)?;
        texts.push(text)?;
    }
    Ok(texts)
}

/// The remarks on the sheet that the text reads as, as texts.
fn remarks_of(alloc: Global, text: &[u8], sheet: &Sheet) -> Result<Vec<Vec<u8>>, AllocError>
    ensures { IfOk result (λ texts. AreRemarkTexts text.now sheet.now texts.items) }
{
    // No text is given that doesn't read as the sheet, so a fault is out of memory.
    let Ok(remarks) = remarks_on(alloc, text, sheet) else {
        return Err(AllocError);
    };
    let texts = remark_texts(alloc, &remarks)?;
    Ok(texts)
}

/// The keywords of the skipped statements, in the text's order.
fn all_keywords(alloc: Global, passed: &[Passed]) -> Result<Vec<&'static [u8]>, AllocError>
    ensures { IfOk result
        (λ keywords. map text_of keywords.items ≡ map keyword_of passed.now) }
{
    let mut keywords: Vec<&'static [u8]> = Vec::new(alloc);
    for statement in passed {
        keywords.push(statement.keyword.text().as_bytes())?;
    }
    Ok(keywords)
}

/// The texts, each as one of its own.
fn copied(alloc: Global, texts: &[&[u8]]) -> Result<Vec<Vec<u8>>, AllocError>
    ensures { IfOk result (λ copies. map bytes_of copies.items ≡ map text_of texts.now) }
{
    let mut copies = Vec::new(alloc);
    for text in texts {
        let copy = Vec::from_slice(alloc, text)?;
        copies.push(copy)?;
    }
    Ok(copies)
}

/// The keywords of the skipped statements, in ascending order, each once.
fn keywords_of(alloc: Global, passed: &[Passed]) -> Result<Vec<Vec<u8>>, AllocError>
    ensures { IfOk result
        (λ texts. map bytes_of texts.items ≡ ascending (map keyword_of passed.now)) }
{
    let keywords = ascending(all_keywords(alloc, passed)?)?;
    copied(alloc, keywords.as_slice())
}

/// What a check finds of a text that reads as the sheet, with these statements skipped.
fn checked(
    alloc: Global,
    text: &[u8],
    sheet: &Sheet,
    passed: &[Passed],
) -> Result<Checked, AllocError>
    ensures { IfOk result (IsCheckOf text.now sheet.now passed.now) }
{
    let remarks = remarks_of(alloc, text, sheet)?;
    let clashes = clash_sentences(alloc, sheet)?;
    let passed = keywords_of(alloc, passed)?;
    Ok(Checked {
        clashes,
        remarks,
        passed,
    })
}

/// What a check of the canonical text of a sheet finds. The error is out of memory.
pub(crate) fn checked_sheet(alloc: Global, sheet: &Sheet) -> Result<Checked, AllocError>
    ensures { IfOk result (IsCheckOf (canonical_text sheet.now) sheet.now []) }
{
    let text = text_of(alloc, sheet)?;
    checked(alloc, &text, sheet, &[])
}

/// What a check of a text finds that reads so. The error is out of memory.
pub(crate) fn checked_text(
    alloc: Global,
    text: &[u8],
    reading: &Reading,
) -> Result<Checked, AllocError>
    ensures { IfOk result (IsCheckOf text.now reading.now.sheet reading.now.passed) }
{
    checked(alloc, text, &reading.sheet, reading.passed.as_slice())
}
