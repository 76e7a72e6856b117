//! The text of a sheet by parts, for a text in which other statements stand between them. Together, in this order, they
//! are the whole text.
ghost use Rattle.std.specs.Prelude.{◌∷◌, [], OnOk};
ghost use Rattle.dbc_grammar.specs.Canon.{each_signal, line_text, spn_default, spn_definition, spn_lines, type_lines};
ghost use Rattle.dbc_grammar.specs.Canon.{value_lines};
ghost use Rattle.dbc_write.specs.Adding.{Adds};
ghost use Rattle.dbc_write.specs.Parts.{comment_part, definition_part};

use crate::sections::Section;
use crate::{comments, entries, heading, messages, sections};
use dbc_sheet::Sheet;
use std::alloc::AllocError;

/// The lines of the file, the nodes, the value tables and the messages.
pub fn definitions(text: &mut Vec<u8>, sheet: &Sheet) -> Result<(), AllocError>
    ensures { OnOk result (Adds line_text text.old.items text.new.items (definition_part sheet.now)) }
{
    heading::heading(text, sheet)?;
    entries::table_lines(text, sheet.tables())?;
    messages::messages(text, sheet.messages())?;
    Ok(())
}

/// All comments.
pub fn comment_lines(text: &mut Vec<u8>, sheet: &Sheet) -> Result<(), AllocError>
    ensures { OnOk result (Adds line_text text.old.items text.new.items (comment_part sheet.now)) }
{
    comments::file_comment(text, sheet.comment())?;
    comments::node_comments(text, sheet.nodes())?;
    comments::message_comments(text, sheet.messages())?;
    Ok(())
}

/// The definition of the attribute with suspect parameter numbers.
pub fn spn_definition(text: &mut Vec<u8>) -> Result<(), AllocError>
    ensures { OnOk result (Adds line_text text.old.items text.new.items (spn_definition ∷ [])) }
{
    sections::definition(text)
}

/// Its default.
pub fn spn_default(text: &mut Vec<u8>) -> Result<(), AllocError>
    ensures { OnOk result (Adds line_text text.old.items text.new.items (spn_default ∷ [])) }
{
    sections::default_value(text)
}

/// The suspect parameter numbers.
pub fn spn_lines(text: &mut Vec<u8>, sheet: &Sheet) -> Result<(), AllocError>
    ensures { OnOk result (Adds line_text text.old.items text.new.items (each_signal spn_lines sheet.now)) }
{
    sections::lines(text, Section::Spns, sheet)
}

/// The texts of values.
pub fn value_lines(text: &mut Vec<u8>, sheet: &Sheet) -> Result<(), AllocError>
    ensures { OnOk result (Adds line_text text.old.items text.new.items (each_signal value_lines sheet.now)) }
{
    sections::lines(text, Section::Values, sheet)
}

/// The value types.
pub fn type_lines(text: &mut Vec<u8>, sheet: &Sheet) -> Result<(), AllocError>
    ensures { OnOk result (Adds line_text text.old.items text.new.items (each_signal type_lines sheet.now)) }
{
    sections::lines(text, Section::ValueTypes, sheet)
}
