//! The parts of the sheet, built of what the statements say.
ghost use Rattle.std.specs.Prelude.{◌≡◌, ◌++◌, [], IfErr, IfOk, IsPermutation, OnOk, map, unwrap_or};
ghost use Rattle.dbc_sheet.specs.Sheet.{empty_sheet, node_name};
ghost use Rattle.dbc_sheet.specs.WellFormed.{AreFewTexts, AreRostered};
ghost use Rattle.dbc_read.specs.Attaching.{messages_of_lines};
ghost use Rattle.dbc_read.specs.Built.{AreAddable, nodes_from};
ghost use Rattle.dbc_read.specs.Fit.{TablesFit};
ghost use Rattle.dbc_read.specs.Refusal.{Unless};
ghost use Rattle.dbc_statements.specs.Parts.{table_of};
ghost use Rattle.dbc_statements.specs.Statement.{names_of};

use crate::feed::Feed;
use crate::messages::{by_number, message_of};
use crate::refusal::Refusal;
use base::Items;
use dbc_sheet::{Node, Sheet, ValueTable};
use dbc_statements::{MessageLine, NodeName, TableLine};
use dbc_words::Text;
use std::alloc::Global;

/// The text, or an empty one.
fn text_or_empty(alloc: Global, found: Option<Text>) -> Text
    ensures { result ≡ unwrap_or found [] }
{
    match found {
        Some(text) => text,
        None => Text::empty(alloc),
    }
}

/// The sheet that has only the version and the comment.
pub(crate) fn bare_sheet(alloc: Global, version: Option<Text>, comment: Option<Text>) -> Sheet
    ensures { result ≡ record empty_sheet
        { version = unwrap_or version []; comment = unwrap_or comment [] } }
{
    let mut sheet = Sheet::new(alloc);
    sheet.set_version(text_or_empty(alloc, version));
    sheet.set_comment(text_or_empty(alloc, comment));
    sheet
}

/// Adds the nodes with the comments on them.
pub(crate) fn add_nodes(
    alloc: Global,
    nodes: Items<NodeName>,
    comments: Items<Text>,
    sheet: &mut Sheet,
) -> Result<(), Refusal>
    ensures ok { OnOk result (sheet.new ≡ record sheet.old {
      nodes = sheet.old.nodes ++ nodes_from
          (names_of nodes) comments;
    }) }
    ensures refused { IfErr result (λ refusal. Unless refusal
        (¬ AreRostered node_name (sheet.old.nodes ++ nodes_from (names_of nodes) comments))) }
{
    let mut comments = Feed::of(comments);
    for node in nodes.into_vec() {
        let comment = comments.next_or(Text::empty(alloc));
        let name = node.name;
        sheet.with_node(alloc, Node { name, comment })?;
    }
    Ok(())
}

/// The value table of a line.
fn table_of(line: TableLine) -> Result<ValueTable, Refusal>
    ensures ok { IfOk result (λ table. table ≡ table_of line) }
    ensures refused { IfErr result
        (λ refusal. Unless refusal (¬ AreFewTexts (table_of line).entries)) }
{
    line.into_table().ok_or(Refusal::NoSheet)
}

/// Adds the value tables.
pub(crate) fn add_tables(
    alloc: Global,
    lines: Items<TableLine>,
    sheet: &mut Sheet,
) -> Result<(), Refusal>
    ensures ok { OnOk result
        (sheet.new ≡ record sheet.old { tables = sheet.old.tables ++ map table_of lines }) }
    ensures refused { IfErr result
        (λ refusal. Unless refusal (¬ TablesFit (sheet.old.tables ++ map table_of lines))) }
{
    for line in lines.into_vec() {
        let table = table_of(line)?;
        sheet.with_table(alloc, table)?;
    }
    Ok(())
}

/// Adds the messages of the lines, in the order of these. Each line is consumed before the next one's message is built.
fn add_each(
    alloc: Global,
    lines: Vec<MessageLine>,
    comments: Items<Text>,
    sheet: &mut Sheet,
) -> Result<(), Refusal>
    ensures all { OnOk result
        (IsPermutation (sheet.old.messages ++ messages_of_lines lines.items comments)
        sheet.new.messages) }
    ensures rest { OnOk result (sheet.new ≡ record sheet.old { messages = sheet.new.messages }) }
    ensures refused { IfErr result (λ refusal. Unless refusal
        (¬ AreAddable sheet.old.messages (messages_of_lines lines.items comments))) }
{
    let mut comments = Feed::of(comments);
    for line in lines {
        let comment = comments.next_or(Text::empty(alloc));
        let message = message_of(alloc, line, comment)?;
        sheet.with_message(alloc, message)?;
    }
    Ok(())
}

/// Adds the messages of the lines.
pub(crate) fn add_lines(
    alloc: Global,
    lines: Items<MessageLine>,
    comments: Items<Text>,
    sheet: &mut Sheet,
) -> Result<(), Refusal>
    ensures all { OnOk result
        (IsPermutation (sheet.old.messages ++ messages_of_lines lines comments)
        sheet.new.messages) }
    ensures rest { OnOk result (sheet.new ≡ record sheet.old { messages = sheet.new.messages }) }
    ensures refused { IfErr result (λ refusal. Unless refusal
        (¬ AreAddable sheet.old.messages (messages_of_lines lines comments))) }
{
    let (lines, comments) = by_number(alloc, lines.into_vec(), comments)?;
    add_each(alloc, lines, comments, sheet)?;
    Ok(())
}
