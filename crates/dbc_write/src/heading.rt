//! The four lines that every sheet has: the version, the two empty sections, and the nodes.
ghost use Rattle.std.specs.Prelude.{◌∷◌, [], OnOk};
ghost use Rattle.dbc_grammar.specs.Canon.{line_text, nodes_line, symbols_line, timing_line, version_line};
ghost use Rattle.dbc_write.specs.Adding.{Adds};

use crate::tokens::push_all;
use dbc_sheet::Sheet;
use std::alloc::AllocError;

fn version_line(text: &mut Vec<u8>, sheet: &Sheet) -> Result<(), AllocError>
    ensures { OnOk result (Adds line_text text.old.items text.new.items
        (version_line sheet.now ∷ [])) }
{
    push_all(text, &[b"VERSION \"", sheet.version().as_bytes(), b"\"\n"])
}

fn nodes_line(text: &mut Vec<u8>, sheet: &Sheet) -> Result<(), AllocError>
    ensures { OnOk result (Adds line_text text.old.items text.new.items
        (nodes_line sheet.now ∷ [])) }
{
    text.extend_from_slice(b"BU_:")?;
    for node in sheet.nodes() {
        push_all(text, &[b" ", node.name.as_bytes()])?;
    }
    text.push(b'\n')?;
    Ok(())
}

/// The first four lines of a sheet.
pub(crate) fn heading(text: &mut Vec<u8>, sheet: &Sheet) -> Result<(), AllocError>
    ensures { OnOk result (Adds line_text text.old.items text.new.items
        (version_line sheet.now ∷ symbols_line ∷ timing_line ∷ nodes_line sheet.now ∷ [])) }
{
    version_line(text, sheet)?;
    text.extend_from_slice(b"NS_ :\nBS_:\n")?;
    nodes_line(text, sheet)?;
    Ok(())
}
