//! The text of a whole sheet.
ghost use Rattle.std.specs.Prelude.{◌≡◌, IfOk, OnOk};
ghost use Rattle.dbc_grammar.specs.Canon.{canonical_lines, canonical_text, line_text};
ghost use Rattle.dbc_grammar.specs.Reads.{ReadsOnlyAs};
ghost use Rattle.dbc_write.specs.Adding.{Adds};

use crate::sections::Section;
use crate::{comments, entries, heading, messages, sections};
use dbc_law::canonical_texts_read_as_their_sheets;
use dbc_sheet::{Sheet, sheets_are_well_formed};
use std::alloc::{AllocError, Global};

fn lines(text: &mut Vec<u8>, sheet: &Sheet) -> Result<(), AllocError>
    ensures { OnOk result (Adds line_text text.old.items text.new.items
        (canonical_lines sheet.now)) }
{
    heading::heading(text, sheet)?;
    entries::table_lines(text, sheet.tables())?;
    messages::messages(text, sheet.messages())?;
    comments::file_comment(text, sheet.comment())?;
    comments::node_comments(text, sheet.nodes())?;
    comments::message_comments(text, sheet.messages())?;
    sections::spns(text, sheet)?;
    sections::lines(text, Section::Values, sheet)?;
    sections::lines(text, Section::ValueTypes, sheet)?;
    Ok(())
}

/// The text of the sheet as a DBC file, in the one order and spelling that this project writes: the whole sheet and
/// nothing else, as lines that end with LF. An empty sheet has the four lines `VERSION ""`, `NS_ :`, `BS_:` and
/// `BU_:`. The text reads as this sheet, and as no other. The only error is out of memory.
pub fn text_of(alloc: Global, sheet: &Sheet) -> Result<Vec<u8>, AllocError>
    ensures text { IfOk result (λ text. text.items ≡ canonical_text sheet.now) }
    ensures reads { IfOk result (λ text. ReadsOnlyAs text.items sheet.now) }
{
    sheets_are_well_formed(sheet);
    canonical_texts_read_as_their_sheets();
    let mut text = Vec::new(alloc);
    lines(&mut text, sheet)?;
    Ok(text)
}
