//! What a file brings of new names: nodes or value tables.
ghost use Rattle.std.specs.Prelude.{◌≡◌, IfOk, OnOk};
ghost use Rattle.office_rules.specs.Importing.{new_named};
ghost use Rattle.office_import.specs.News.{HasRosters, frame_news};

use crate::names::names_of;
use base::{Copying, Items};
use dbc_sheet::{Node, Sheet, ValueTable};
use dbc_words::Named;
use std::alloc::{AllocError, Global};

/// Copies of those of the file's things whose names none of these things has, in the order of the file.
pub(crate) fn new_named<T: Named + Copying + Drop>(
    alloc: Global,
    things: &[T],
    file: &[T],
) -> Result<Items<T>, AllocError>
    ensures { IfOk result (λ news. news ≡ new_named T.name_of things.now file.now) }
{
    let names = names_of(alloc, things)?;
    let mut news = Items::new(alloc);
    for thing in file {
        if !names.contains(thing.name()) {
            news.push(thing.duplicate(alloc)?)?;
        }
    }
    Ok(news)
}

/// The nodes and value tables of a file that a network's frame hasn't.
pub(crate) struct FrameNews {
    /// The nodes, in the order of the file.
    pub nodes: Items<Node>,
    /// The value tables, in the order of the file.
    pub tables: Items<ValueTable>,
}

/// What the file brings to the frame.
pub(crate) fn frame_news(
    alloc: Global,
    frame: &Sheet,
    file: &Sheet,
) -> Result<FrameNews, AllocError>
    ensures news { IfOk result (λ news. news ≡ frame_news frame.now file.now) }
    ensures frame { OnOk result (HasRosters frame.now) }
    ensures file { OnOk result (HasRosters file.now) }
{
    let nodes = new_named(alloc, frame.nodes(), file.nodes())?;
    let tables = new_named(alloc, frame.tables(), file.tables())?;
    Ok(FrameNews { nodes, tables })
}

impl FrameNews {
    /// The nodes, and the value tables.
    pub(crate) fn into_parts(self) -> (Items<Node>, Items<ValueTable>)
        ensures nodes { result.0 ≡ self.nodes }
        ensures tables { result.1 ≡ self.tables }
    {
        let FrameNews { nodes, tables } = self;
        (nodes, tables)
    }
}

impl Drop for FrameNews {
    fn drop(self) {
        let FrameNews {
            nodes: _nodes,
            tables: _tables,
        } = self;
    }
}
