//! Which skipped statements of a source stay in the text of another sheet.
ghost use Rattle.std.specs.Prelude.{◌≡◌, ◌∷◌, ◌++◌, [], IfOk, OnOk, map};
ghost use Rattle.dbc_grammar.specs.Inside.{inside_of};
ghost use Rattle.dbc_grammar.specs.Reads.{ReadsAs, ReadsOnlyAs};
ghost use Rattle.dbc_keep.specs.Finding.{found_in};
ghost use Rattle.dbc_keep.specs.Staying.{KeepsStaying, all_seen, left_out, staying};
ghost use Rattle.dbc_keep_law.specs.Staying.{reason, reason_by, says, says_spn};
ghost use Rattle.dbc_read.specs.Passed.{start_and_keyword};
ghost use Rattle.dbc_words.specs.declared.keyword.Keyword.TheVariants.{Comment, ValueTexts};

use crate::citing::first_absent;
use crate::kept::lines;
use crate::words::{is_name, words_after};
use base::Items;
use dbc_grammar::{TokenKind, texts_read_as_one_sheet};
use dbc_keep_law::{LeavingReason, kept_texts_read_as_their_sheets};
use dbc_lex::Token;
use dbc_read::{Passed, Reading};
use dbc_sheet::{Sheet, sheets_are_well_formed};
use dbc_words::Keyword;
use std::alloc::{AllocError, Global};

/// A skipped statement that doesn't stay, and why.
#[derive(Clone, Copy, PartialEq, Eq)]
pub struct LeftOut {
    /// Where it begins, and its keyword.
    pub statement: Passed,
    /// Why it doesn't stay.
    pub reason: LeavingReason,
}

/// `"SPN" SG_`
fn says_spn(words: &[Token]) -> bool
    ensures { result ≡ says_spn (all_seen words.now) }
{
    match words {
        [name, word, ..] => {
            matches!(name.kind, TokenKind::Text)
                && inside(name.text) == b"SPN".as_slice()
                && word.text == b"SG_".as_slice()
        }
        _ => false,
    }
}

/// The bytes between the quotes of a text.
fn inside<'a>(text: &'a [u8]) -> &'a [u8]
    ensures { result.now ≡ inside_of text.now }
{
    match text {
        [] => text,
        [_, rest @ ..] => &rest[..rest.len().saturating_sub(1)],
    }
}

/// Whether a comment is of something that a sheet has.
fn says_comment(words: &[Token]) -> bool
    ensures { result ≡ says Comment (all_seen words.now) }
{
    match words {
        [word, ..] => word.text != b"EV_".as_slice(),
        [] => true,
    }
}

/// Whether texts of values are of a signal.
fn says_texts(words: &[Token]) -> bool
    ensures { result ≡ says ValueTexts (all_seen words.now) }
{
    match words {
        [word, ..] => !is_name(word),
        [] => true,
    }
}

/// Whether the statement says something of what it cites.
fn says(keyword: Keyword, words: &[Token]) -> bool
    ensures { result ≡ says keyword (all_seen words.now) }
{
    match keyword {
        Keyword::Comment => says_comment(words),
        Keyword::ValueTexts => says_texts(words),
        Keyword::SignalValueType => true,
        Keyword::AttributeValue => says_spn(words),
        _ => false,
    }
}

fn reason_by(sheet: &Sheet, keyword: Keyword, words: &[Token]) -> Option<LeavingReason>
    ensures { result ≡ reason_by sheet.now keyword (all_seen words.now) }
{
    match first_absent(sheet, keyword, words) {
        Some(reason) => Some(reason),
        None if says(keyword, words) => Some(LeavingReason::SheetSays),
        None => None,
    }
}

/// Why the statement doesn't stay, or `None` if it does.
fn reason_of(
    alloc: Global,
    source: &[u8],
    one: Passed,
    sheet: &Sheet,
) -> Result<Option<LeavingReason>, AllocError>
    ensures { IfOk result (λ found. found ≡ reason sheet.now (found_in source.now one)) }
{
    match one.keyword {
        // It has no `;` and cites nothing.
        Keyword::Message => return Ok(None),
        _ => {}
    }
    let words = words_after(alloc, source, one.at)?;
    Ok(reason_by(sheet, one.keyword, &words))
}

/// Adds the statement to those that stay, or to the others with why.
fn sort_one(
    alloc: Global,
    source: &[u8],
    one: Passed,
    sheet: &Sheet,
    stay: &mut Vec<Passed>,
    others: &mut Vec<LeftOut>,
) -> Result<(), AllocError>
    ensures stay { OnOk result
        (stay.new.items ≡ stay.old.items ++ staying sheet.now source.now (one ∷ [])) }
    ensures others { OnOk result
        (others.new.items ≡ others.old.items ++ left_out sheet.now source.now (one ∷ [])) }
{
    match reason_of(alloc, source, one, sheet)? {
        Some(reason) => {
            others.push(LeftOut {
                statement: one,
                reason,
            })?;
            Ok(())
        }
        None => {
            stay.push(one)?;
            Ok(())
        }
    }
}

/// Those that stay, and the others, each with why.
fn sort_out(
    alloc: Global,
    source: &[u8],
    passed: &[Passed],
    sheet: &Sheet,
) -> Result<(Vec<Passed>, Vec<LeftOut>), AllocError>
    ensures stay { IfOk result
        (λ sorted. sorted.0.items ≡ staying sheet.now source.now passed.now) }
    ensures others { IfOk result
        (λ sorted. sorted.1.items ≡ left_out sheet.now source.now passed.now) }
{
    let mut stay = Vec::new(alloc);
    let mut others = Vec::new(alloc);
    for one in passed {
        sort_one(alloc, source, *one, sheet, &mut stay, &mut others)?;
    }
    Ok((stay, others))
}

/// The canonical text of a sheet, and in it the statements that the reader skipped of another source: those that cite
/// only what the sheet has, and say nothing of it. The others are listed, in the source's order. The text reads as the
/// sheet and as no other. The only error is out of memory.
pub fn text_with_staying(
    alloc: Global,
    source: &[u8],
    reading: &Reading,
    sheet: &Sheet,
) -> Result<(Vec<u8>, Items<LeftOut>), AllocError>
    requires { ReadsAs source.now reading.now.sheet (map start_and_keyword reading.now.passed) }
    ensures reads { IfOk result (λ made. ReadsOnlyAs made.0.items sheet.now) }
    ensures stay { IfOk result (λ made. KeepsStaying source.now made.0.items reading.now.sheet
        sheet.now) }
    ensures others { IfOk result (λ made. made.1 ≡ left_out sheet.now source.now
        reading.now.passed) }
{
    texts_read_as_one_sheet();
    kept_texts_read_as_their_sheets();
    sheets_are_well_formed(sheet);
    let passed = reading.passed.as_slice();
    let (stay, others) = sort_out(alloc, source, passed, sheet)?;
    let mut text = Vec::new(alloc);
    lines(&mut text, source, sheet, &stay)?;
    Ok((text, Items::from_vec(others)))
}
