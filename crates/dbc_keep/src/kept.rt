//! The canonical text of a sheet with the statements that were skipped.
ghost use Rattle.std.specs.Prelude.{◌≡◌, [], IfOk, OnOk, map};
ghost use Rattle.dbc_grammar.specs.Canon.{canonical_text, line_text, spn_default, spn_definition};
ghost use Rattle.dbc_grammar.specs.Reads.{ReadsAs, ReadsOnlyAs};
ghost use Rattle.dbc_keep.specs.Finding.{line_there, lines_there};
ghost use Rattle.dbc_keep.specs.Keeping.{KeepsEach};
ghost use Rattle.dbc_keep.specs.Parts.{all_lines, attribute_lines, comments_part, declaration_lines, declared_lines};
ghost use Rattle.dbc_keep.specs.Parts.{sheet_lines, text_lines, type_part};
ghost use Rattle.dbc_keep.specs.Places.{place_number};
ghost use Rattle.dbc_keep_law.specs.Kept.{defaults_spn, defines_spn};
ghost use Rattle.dbc_keep_law.specs.Law.{IsKept};
ghost use Rattle.dbc_read.specs.Passed.{start_and_keyword};
ghost use Rattle.dbc_write.specs.Adding.{Adds};

use crate::passages::passage;
use crate::places::KeptPlace;
use crate::said::{is_defaulted, is_defined};
use dbc_grammar::texts_read_as_one_sheet;
use dbc_keep_law::kept_texts_read_as_their_sheets;
use dbc_read::{Passed, Reading};
use dbc_sheet::Sheet;
use dbc_write::{
    comment_lines, definitions, has_spn, spn_default, spn_definition, spn_lines, type_lines,
    value_lines,
};
use std::alloc::{AllocError, Global};

/// The statement's line, if it has the place.
fn placed_one(
    text: &mut Vec<u8>,
    source: &[u8],
    one: Passed,
    place: KeptPlace,
) -> Result<(), AllocError>
    ensures { OnOk result (Adds line_text text.old.items text.new.items
        (line_there source.now (place_number place) one)) }
{
    if !place.has(one.keyword) {
        return Ok(());
    }
    text.extend_from_slice(passage(source, one))?;
    text.push(b'\n')?;
    Ok(())
}

/// The lines of the statements of a place.
fn placed(
    text: &mut Vec<u8>,
    source: &[u8],
    passed: &[Passed],
    place: KeptPlace,
) -> Result<(), AllocError>
    ensures { OnOk result (Adds line_text text.old.items text.new.items
        (lines_there source.now (place_number place) passed.now)) }
{
    for one in passed {
        placed_one(text, source, *one, place)?;
    }
    Ok(())
}

/// The file, its nodes, value tables and messages, and the statements after these.
fn sheet_part(
    text: &mut Vec<u8>,
    source: &[u8],
    sheet: &Sheet,
    passed: &[Passed],
) -> Result<(), AllocError>
    ensures { OnOk result (Adds line_text text.old.items text.new.items
        (sheet_lines sheet.now source.now passed.now)) }
{
    definitions(text, sheet)?;
    placed(text, source, passed, KeptPlace::Messages)?;
    placed(text, source, passed, KeptPlace::Transmitters)?;
    placed(text, source, passed, KeptPlace::EnvironmentVariables)?;
    placed(text, source, passed, KeptPlace::EnvironmentData)?;
    placed(text, source, passed, KeptPlace::SignalTypes)?;
    Ok(())
}

/// All comments.
fn comment_part(
    text: &mut Vec<u8>,
    source: &[u8],
    sheet: &Sheet,
    passed: &[Passed],
) -> Result<(), AllocError>
    ensures { OnOk result (Adds line_text text.old.items text.new.items
        (comments_part sheet.now source.now passed.now)) }
{
    comment_lines(text, sheet)?;
    placed(text, source, passed, KeptPlace::Comments)?;
    Ok(())
}

/// The definitions of attributes, and their defaults. Those of the attribute with suspect parameter numbers are added
/// if the sheet has such numbers, unless they are there.
fn declaration_part(
    text: &mut Vec<u8>,
    source: &[u8],
    sheet: &Sheet,
    passed: &[Passed],
) -> Result<(), AllocError>
    ensures { OnOk result (Adds line_text text.old.items text.new.items
        (declaration_lines sheet.now source.now passed.now)) }
{
    placed(text, source, passed, KeptPlace::Definitions)?;
    definition_if_needed(text, source, sheet, passed)?;
    placed(text, source, passed, KeptPlace::Defaults)?;
    default_if_needed(text, source, sheet, passed)?;
    Ok(())
}

/// The definition of the attribute with suspect parameter numbers, if the sheet has one and no statement defines it.
fn definition_if_needed(
    text: &mut Vec<u8>,
    source: &[u8],
    sheet: &Sheet,
    passed: &[Passed],
) -> Result<(), AllocError>
    ensures { OnOk result (Adds line_text text.old.items text.new.items
        (declared_lines sheet.now source.now passed.now 6 defines_spn spn_definition)) }
{
    if !has_spn(sheet) {
        return Ok(());
    }
    if is_defined(source, passed) {
        return Ok(());
    }
    spn_definition(text)
}

/// Its default, in the same way.
fn default_if_needed(
    text: &mut Vec<u8>,
    source: &[u8],
    sheet: &Sheet,
    passed: &[Passed],
) -> Result<(), AllocError>
    ensures { OnOk result (Adds line_text text.old.items text.new.items
        (declared_lines sheet.now source.now passed.now 7 defaults_spn spn_default)) }
{
    if !has_spn(sheet) {
        return Ok(());
    }
    if is_defaulted(source, passed) {
        return Ok(());
    }
    spn_default(text)
}

/// The values of attributes, and after them the suspect parameter numbers, so that these win where a tool takes the
/// last.
fn attribute_part(
    text: &mut Vec<u8>,
    source: &[u8],
    sheet: &Sheet,
    passed: &[Passed],
) -> Result<(), AllocError>
    ensures { OnOk result (Adds line_text text.old.items text.new.items
        (attribute_lines sheet.now source.now passed.now)) }
{
    placed(text, source, passed, KeptPlace::Values)?;
    spn_lines(text, sheet)?;
    Ok(())
}

/// The texts of values, categories, filters, types of signals and groups.
fn text_part(
    text: &mut Vec<u8>,
    source: &[u8],
    sheet: &Sheet,
    passed: &[Passed],
) -> Result<(), AllocError>
    ensures { OnOk result (Adds line_text text.old.items text.new.items
        (text_lines sheet.now source.now passed.now)) }
{
    value_lines(text, sheet)?;
    placed(text, source, passed, KeptPlace::ValueTexts)?;
    placed(text, source, passed, KeptPlace::CategoryDefinitions)?;
    placed(text, source, passed, KeptPlace::Categories)?;
    placed(text, source, passed, KeptPlace::Filters)?;
    placed(text, source, passed, KeptPlace::SignalTypeReferences)?;
    placed(text, source, passed, KeptPlace::Groups)?;
    Ok(())
}

/// The value types, and all other statements.
fn type_part(
    text: &mut Vec<u8>,
    source: &[u8],
    sheet: &Sheet,
    passed: &[Passed],
) -> Result<(), AllocError>
    ensures { OnOk result (Adds line_text text.old.items text.new.items
        (type_part sheet.now source.now passed.now)) }
{
    type_lines(text, sheet)?;
    placed(text, source, passed, KeptPlace::ValueTypes)?;
    placed(text, source, passed, KeptPlace::Others)?;
    Ok(())
}

/// All lines of a text.
pub(crate) fn lines(
    text: &mut Vec<u8>,
    source: &[u8],
    sheet: &Sheet,
    passed: &[Passed],
) -> Result<(), AllocError>
    ensures { OnOk result (Adds line_text text.old.items text.new.items
        (all_lines sheet.now source.now passed.now)) }
{
    sheet_part(text, source, sheet, passed)?;
    comment_part(text, source, sheet, passed)?;
    declaration_part(text, source, sheet, passed)?;
    attribute_part(text, source, sheet, passed)?;
    text_part(text, source, sheet, passed)?;
    type_part(text, source, sheet, passed)?;
    Ok(())
}

/// The canonical text of the reading's sheet, and in it the statements of the source that were skipped: each verbatim,
/// on a line of its own, at its place. It reads as this sheet and as no other; its skipped statements are those of the
/// source; and it is its own kept text. If none was skipped, it is the canonical text. The only error is out of memory.
pub fn kept_text_of(alloc: Global, source: &[u8], reading: &Reading) -> Result<Vec<u8>, AllocError>
    requires { ReadsAs source.now reading.now.sheet (map start_and_keyword reading.now.passed) }
    ensures kept { IfOk result (λ text. IsKept source.now text.items) }
    ensures reads { IfOk result (λ text. ReadsOnlyAs text.items reading.now.sheet) }
    ensures each { IfOk result (λ text. KeepsEach source.now text.items reading.now.sheet) }
    ensures again { IfOk result (λ text. IsKept text.items text.items) }
    ensures nothing { IfOk result (λ text. reading.now.passed ≡ []
        → text.items ≡ canonical_text reading.now.sheet) }
{
    texts_read_as_one_sheet();
    kept_texts_read_as_their_sheets();
    let mut text = Vec::new(alloc);
    lines(&mut text, source, &reading.sheet, reading.passed.as_slice())?;
    Ok(text)
}
