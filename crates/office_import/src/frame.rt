//! The frame of a network, with what a file brings.
ghost use Rattle.std.specs.Prelude.{◌≡◌, ◌++◌, IfOk, OnOk};
ghost use Rattle.dbc_words.specs.declared.fault.SheetCode.TheVariants.{Memory};
ghost use Rattle.dbc_sheet.specs.Sheet.{node_name, table_name};
ghost use Rattle.dbc_sheet.specs.WellFormed.{AreRostered};
ghost use Rattle.office_rules.specs.Importing.{or_else, widened};
ghost use Rattle.office_import.specs.News.{CanWiden, frame_news};

use crate::news::FrameNews;
use base::{Copying, Items};
use dbc_sheet::{Node, Sheet, ValueTable};
use dbc_words::{SheetFault, Text};
use std::alloc::{AllocError, Global};

/// Out of memory, which is all that the fault can be.
fn only_memory(fault: SheetFault) -> AllocError
    requires { fault.code ≡ Memory }
{
    AllocError
}

/// Adds the nodes as the last ones.
fn add_nodes(alloc: Global, sheet: &mut Sheet, nodes: Items<Node>) -> Result<(), AllocError>
    requires { AreRostered node_name (sheet.old.nodes ++ nodes) }
    ensures { OnOk result (sheet.new ≡ record sheet.old { nodes = sheet.old.nodes ++ nodes }) }
{
    for node in nodes.into_vec() {
        if let Err(fault) = sheet.with_node(alloc, node) {
            return Err(only_memory(fault));
        }
    }
    Ok(())
}

/// Adds the value tables as the last ones.
fn add_tables(alloc: Global, sheet: &mut Sheet, tables: Items<ValueTable>) -> Result<(), AllocError>
    requires { AreRostered table_name (sheet.old.tables ++ tables) }
    ensures { OnOk result (sheet.new ≡ record sheet.old { tables = sheet.old.tables ++ tables }) }
{
    for table in tables.into_vec() {
        if let Err(fault) = sheet.with_table(alloc, table) {
            return Err(only_memory(fault));
        }
    }
    Ok(())
}

/// The first text that isn't empty.
fn or_else(alloc: Global, first: &Text, second: &Text) -> Result<Text, AllocError>
    ensures { IfOk result (λ text. text ≡ or_else first.now second.now) }
{
    if first.is_empty() {
        second.duplicate(alloc)
    } else {
        first.duplicate(alloc)
    }
}

/// The frame with the file's texts where it has none, and with what the file brings last.
pub(crate) fn widened(
    alloc: Global,
    frame: &Sheet,
    file: &Sheet,
    news: FrameNews,
) -> Result<Sheet, AllocError>
    requires news { news ≡ frame_news frame.now file.now }
    requires room { CanWiden frame.now news }
    ensures { IfOk result (λ sheet. sheet ≡ widened frame.now file.now) }
{
    let (nodes, tables) = news.into_parts();
    let mut sheet = frame.copy(alloc)?;
    sheet.set_version(or_else(alloc, frame.version(), file.version())?);
    sheet.set_comment(or_else(alloc, frame.comment(), file.comment())?);
    add_nodes(alloc, &mut sheet, nodes)?;
    add_tables(alloc, &mut sheet, tables)?;
    Ok(sheet)
}
