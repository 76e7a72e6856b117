//! Values with their texts, and value tables.
ghost use Rattle.std.specs.Prelude.{◌∷◌, [], OnOk, map};
ghost use Rattle.dbc_grammar.specs.Canon.{entries, entry, line_text, table_line};
ghost use Rattle.dbc_write.specs.Adding.{Adds, piece_text};

use crate::tokens::{push_all, quoted, spaced_mark, spaced_value};
use dbc_sheet::{ValueTable, ValueText, ValueTexts};
use std::alloc::AllocError;

fn entry(text: &mut Vec<u8>, value: &ValueText) -> Result<(), AllocError>
    ensures { OnOk result (Adds piece_text text.old.items text.new.items (entry value.now)) }
{
    spaced_value(text, &value.value)?;
    quoted(text, value.text.as_bytes())?;
    Ok(())
}

/// The values with their texts, and the mark that ends them.
pub(crate) fn entries(text: &mut Vec<u8>, values: &ValueTexts) -> Result<(), AllocError>
    ensures { OnOk result (Adds piece_text text.old.items text.new.items (entries values.now)) }
{
    for value in values.as_slice() {
        entry(text, value)?;
    }
    spaced_mark(text, b';')?;
    Ok(())
}

fn table_line(text: &mut Vec<u8>, table: &ValueTable) -> Result<(), AllocError>
    ensures { OnOk result (Adds line_text text.old.items text.new.items
        (table_line table.now ∷ [])) }
{
    push_all(text, &[b"VAL_TABLE_ ", table.name.as_bytes()])?;
    entries(text, &table.entries)?;
    text.push(b'\n')?;
    Ok(())
}

/// The lines of the tables.
pub(crate) fn table_lines(text: &mut Vec<u8>, tables: &[ValueTable]) -> Result<(), AllocError>
    ensures { OnOk result (Adds line_text text.old.items text.new.items
        (map table_line tables.now)) }
{
    for table in tables {
        table_line(text, table)?;
    }
    Ok(())
}
