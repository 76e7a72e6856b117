//! The contents of the statements, gathered by kind.
//!
//! What is attached to signals is listed by their indices, until all messages are there; or, if they are there before
//! anything is attached, it is set in the signals at once (`attaching`), and the lists stay empty.
ghost use Rattle.std.specs.Prelude.{◌≡◌, ◌++◌, IfErr, IfOk, OnOk, [], replicate};
ghost use Rattle.dbc_words.specs.declared.value_type.ValueType.TheVariants.{Integer};
ghost use Rattle.dbc_read.specs.Attaching.{in_signals};
ghost use Rattle.dbc_read.specs.Built.{CanBeSheet, IsBuilt, feeds_in};
ghost use Rattle.dbc_read.specs.Gathering.{IsEmpty};
ghost use Rattle.dbc_read.specs.Gathered.{AreGathered, IsBeginning, gathered_after, passed_after, passed_of, set_at};
ghost use Rattle.dbc_read.specs.Refusal.{Unless};
ghost use Rattle.dbc_statements.specs.Statement.{statements_of};

use crate::feed::{Feed, Feeds};
use crate::feeding::feed_lines;
use crate::keys::keys_of;
use crate::lookups::{cited_indices, lookups_of};
use crate::passed::Passed;
use crate::reading::Reading;
use crate::refusal::Refusal;
use crate::sheets::{add_lines, add_nodes, add_tables, bare_sheet};
use base::Items;
use dbc_sheet::sheets_are_well_formed;
use dbc_statements::{Content, Entries, MessageLine, NodeName, Statement, TableLine};
use dbc_words::{Spn, Text, ValueType};
use std::alloc::{AllocError, Global};

/// The contents of the statements by kind, in their order. What they attach to nodes, messages and signals is at the
/// indices of these, and is empty if nothing is attached.
pub(crate) struct Gathered {
    /// The last version.
    pub version: Option<Text>,
    /// The last comment of the file.
    pub comment: Option<Text>,
    /// The nodes of all lists.
    pub nodes: Items<NodeName>,
    /// The value tables.
    pub tables: Items<TableLine>,
    /// The messages with their signals.
    pub messages: Items<MessageLine>,
    /// Comments on nodes.
    pub node_comments: Items<Text>,
    /// Comments on messages.
    pub message_comments: Items<Text>,
    /// Comments on signals.
    pub signal_comments: Items<Text>,
    /// Value texts of signals, any number of them.
    pub signal_values: Items<Entries>,
    /// Types of signals.
    pub signal_types: Items<ValueType>,
    /// Suspect parameter numbers of signals.
    pub signal_spns: Items<Spn>,
    /// The statements that are skipped.
    pub passed: Items<Passed>,
}

/// `count` empty texts.
fn no_texts(alloc: Global, count: usize) -> Result<Items<Text>, AllocError>
    ensures { IfOk result (λ texts. texts ≡ replicate count []) }
{
    let mut texts = Vec::with_capacity(alloc, count)?;
    for _index in 0..count {
        texts.push(Text::empty(alloc))?;
    }
    Ok(Items::from_vec(texts))
}

/// `count` empty lists of entries.
fn no_entries(alloc: Global, count: usize) -> Result<Items<Entries>, AllocError>
    ensures { IfOk result (λ lists. lists ≡ replicate count []) }
{
    let mut lists = Vec::with_capacity(alloc, count)?;
    for _index in 0..count {
        lists.push(Entries::empty(alloc))?;
    }
    Ok(Items::from_vec(lists))
}

/// `count` copies of the value.
fn copies<T: Copy + Drop>(alloc: Global, count: usize, value: T) -> Result<Items<T>, AllocError>
    ensures { IfOk result (λ items. items ≡ replicate count value) }
{
    let mut items = Vec::with_capacity(alloc, count)?;
    for _index in 0..count {
        items.push(value)?;
    }
    Ok(Items::from_vec(items))
}

/// Nothing is attached yet to each of so many nodes and messages.
pub(crate) fn attach_nothing(
    alloc: Global,
    nodes: usize,
    messages: usize,
    gathered: &mut Gathered,
) -> Result<(), AllocError>
    ensures { OnOk result
        (gathered.new
        ≡ record gathered.old {
          node_comments = replicate nodes [];
          message_comments =
              replicate messages [];
        }) }
{
    gathered.node_comments = no_texts(alloc, nodes)?;
    gathered.message_comments = no_texts(alloc, messages)?;
    Ok(())
}

/// Lists of what is attached to so many signals: nothing yet.
fn list_nothing(alloc: Global, signals: usize, gathered: &mut Gathered) -> Result<(), AllocError>
    ensures { OnOk result
        (gathered.new
        ≡ record gathered.old {
          signal_comments = replicate signals [];
          signal_values = replicate signals [];
          signal_types = replicate signals Integer;
          signal_spns = replicate signals 0;
        }) }
{
    gathered.signal_comments = no_texts(alloc, signals)?;
    gathered.signal_values = no_entries(alloc, signals)?;
    gathered.signal_types = copies(alloc, signals, ValueType::Integer)?;
    gathered.signal_spns = copies(alloc, signals, Spn::NONE)?;
    Ok(())
}

/// Puts the value at the index, if there is one.
fn put<T: Drop>(items: &mut Items<T>, index: Option<usize>, value: T)
    ensures { items.new ≡ set_at index value items.old }
{
    if let Some(at) = index {
        if at < items.as_slice().len() {
            items.replace(at, value);
        }
    }
}

/// A statement, and the index of what it cites, if it cites something that the file has.
#[derive(Clone, Copy)]
pub(crate) struct Citing {
    /// The statement.
    pub statement: Passed,
    /// The index of what it cites.
    pub index: Option<usize>,
}

/// Puts the value at the index of what is cited. If there is no index, the statement is skipped.
fn attach<T: Drop>(
    from: Citing,
    value: T,
    items: &mut Items<T>,
    passed: &mut Items<Passed>,
) -> Result<(), AllocError>
    ensures items { items.new ≡ set_at from.index value items.old }
    ensures passed { OnOk result (passed.new ≡ passed_after from.index from.statement passed.old) }
{
    put(items, from.index, value);
    match from.index {
        Some(_) => Ok(()),
        None => passed.push(from.statement),
    }
}

/// Adds the nodes of a list.
fn gather_nodes(nodes: Vec<NodeName>, found: &mut Items<NodeName>) -> Result<(), AllocError>
    ensures { OnOk result (found.new ≡ found.old ++ nodes.items) }
{
    for node in nodes {
        found.push(node)?;
    }
    Ok(())
}

/// Adds the content of a statement to what is gathered.
pub(crate) fn gather(from: Citing, content: Content, all: &mut Gathered) -> Result<(), AllocError>
    ensures { OnOk result (all.new ≡ gathered_after from.index from.statement content.entry
        all.old) }
{
    match content {
        Content::Version(text) => {
            all.version = Some(text);
            Ok(())
        }
        Content::Comment(text) => {
            all.comment = Some(text);
            Ok(())
        }
        Content::Nodes(nodes) => gather_nodes(nodes, &mut all.nodes),
        Content::Table(line) => all.tables.push(Box::into_inner(line)),
        Content::Message(line) => all.messages.push(Box::into_inner(line)),
        Content::NodeComment(_, text) => {
            attach(from, text, &mut all.node_comments, &mut all.passed)
        }
        Content::MessageComment(_, text) => {
            attach(from, text, &mut all.message_comments, &mut all.passed)
        }
        Content::SignalComment(_, text) => {
            attach(from, text, &mut all.signal_comments, &mut all.passed)
        }
        Content::ValueTexts(_, entries) => {
            attach(from, entries, &mut all.signal_values, &mut all.passed)
        }
        Content::ValueType(_, value_type) => {
            attach(from, value_type, &mut all.signal_types, &mut all.passed)
        }
        Content::Spn(_, spn) => attach(from, spn, &mut all.signal_spns, &mut all.passed),
        Content::Dropped => Ok(()),
        Content::PassedOver => all.passed.push(from.statement),
    }
}

/// Adds a statement to what is gathered; `index` is that of what it cites.
pub(crate) fn gather_statement(
    index: Option<usize>,
    statement: Statement,
    gathered: &mut Gathered,
) -> Result<(), AllocError>
    ensures { OnOk result (gathered.new ≡ gathered_after index
        (passed_of statement.entry) statement.entry.content gathered.old) }
{
    let (at, keyword, content) = statement.into_parts();
    let statement = Passed { at, keyword };
    gather(Citing { statement, index }, content, gathered)
}

/// What is gathered before any statement, and the indices of what the statements cite.
fn start_gathering(
    alloc: Global,
    statements: &[Statement],
) -> Result<(Gathered, Vec<Option<usize>>), AllocError>
    ensures { IfOk result (λ begun. IsBeginning (statements_of statements.now) begun.0
        begun.1.items) }
{
    let keys = keys_of(alloc, statements)?;
    let lookups = lookups_of(alloc, keys)?;
    let cited = cited_indices(alloc, &lookups, statements)?;
    let mut gathered = Gathered::empty(alloc);
    attach_nothing(
        alloc,
        lookups.nodes.len(),
        lookups.messages.len(),
        &mut gathered,
    )?;
    list_nothing(alloc, lookups.signals.len(), &mut gathered)?;
    Ok((gathered, cited))
}

/// The contents of all the statements.
pub(crate) fn gathered_of(alloc: Global, statements: Vec<Statement>) -> Result<Gathered, AllocError>
    ensures { IfOk result (λ gathered. AreGathered (statements_of statements.entry.items)
        gathered) }
{
    let (mut gathered, cited) = start_gathering(alloc, &statements)?;
    let mut indices = Feed::of(Items::from_vec(cited));
    for statement in statements {
        let index = indices.next_or(None);
        gather_statement(index, statement, &mut gathered)?;
    }
    Ok(gathered)
}

impl Gathered {
    /// What is gathered before any statement.
    pub(crate) fn empty(alloc: Global) -> Gathered
        ensures { IsEmpty result }
    {
        Gathered {
            version: None,
            comment: None,
            nodes: Items::new(alloc),
            tables: Items::new(alloc),
            messages: Items::new(alloc),
            node_comments: Items::new(alloc),
            message_comments: Items::new(alloc),
            signal_comments: Items::new(alloc),
            signal_values: Items::new(alloc),
            signal_types: Items::new(alloc),
            signal_spns: Items::new(alloc),
            passed: Items::new(alloc),
        }
    }

    /// The sheet of all that is gathered, and what is skipped; or a refusal if that can't be in one sheet. What is
    /// attached to signals is in these.
    pub(crate) fn into_reading(self, alloc: Global) -> Result<Reading, Refusal>
        ensures built { IfOk result (λ reading. IsBuilt (in_signals self) reading.sheet) }
        ensures passed { IfOk result (λ reading. reading.passed ≡ self.passed) }
        ensures refused { IfErr result
            (λ refusal. Unless refusal (¬ CanBeSheet (in_signals self))) }
    {
        let Gathered {
            version,
            comment,
            nodes,
            tables,
            messages,
            node_comments,
            message_comments,
            signal_comments: _signal_comments,
            signal_values: _signal_values,
            signal_types: _signal_types,
            signal_spns: _signal_spns,
            passed,
        } = self;
        let mut sheet = bare_sheet(alloc, version, comment);
        add_nodes(alloc, nodes, node_comments, &mut sheet)?;
        add_tables(alloc, tables, &mut sheet)?;
        add_lines(alloc, messages, message_comments, &mut sheet)?;
        sheets_are_well_formed(&sheet);
        Ok(Reading { sheet, passed })
    }

    /// Takes out what is listed of signals.
    fn take_feeds(&mut self) -> Feeds
        ensures feeds { result ≡ feeds_in self.old }
        ensures rest { self.new
            ≡ record self.old {
              signal_comments = [];
              signal_values = [];
              signal_types = [];
              signal_spns = [];
            } }
    {
        Feeds {
            comments: Feed::of(self.signal_comments.take()),
            values: Feed::of(self.signal_values.take()),
            types: Feed::of(self.signal_types.take()),
            spns: Feed::of(self.signal_spns.take()),
        }
    }

    /// The sheet of all that is gathered, as [`Gathered::into_reading`] gives it. What is attached to signals is in the
    /// lists.
    pub(crate) fn into_reading_of_lists(self, alloc: Global) -> Result<Reading, Refusal>
        ensures built { IfOk result (λ reading. IsBuilt self reading.sheet) }
        ensures passed { IfOk result (λ reading. reading.passed ≡ self.passed) }
        ensures refused { IfErr result (λ refusal. Unless refusal (¬ CanBeSheet self)) }
    {
        let mut gathered = self;
        let feeds = gathered.take_feeds();
        let mut lines = gathered.messages.take().into_vec();
        feed_lines(alloc, &mut lines, feeds)?;
        gathered.messages = Items::from_vec(lines);
        gathered.into_reading(alloc)
    }
}

impl Drop for Gathered {
    fn drop(self) {
        let Gathered {
            version: _version,
            comment: _comment,
            nodes: _nodes,
            tables: _tables,
            messages: _messages,
            node_comments: _node_comments,
            message_comments: _message_comments,
            signal_comments: _signal_comments,
            signal_values: _signal_values,
            signal_types: _signal_types,
            signal_spns: _signal_spns,
            passed: _passed,
        } = self;
    }
}
