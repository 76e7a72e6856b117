//! Which nodes must act, since what they receive breaks.
ghost use Rattle.std.specs.Prelude.{◌≡◌, ◌≤◌, ◌++◌, IfOk, OnOk, length, map};
ghost use Rattle.std.specs.List.{flat_map, list_any, prefix_len};
ghost use Rattle.std.specs.Option.{option_copied};
ghost use Rattle.dbc_compare.specs.List.{breaks};
ghost use Rattle.markup.specs.Writing.{Becomes, adding};
ghost use Rattle.page_changes.specs.Act.{AreByNode, IsActTable, Lost, act_html, after_point, breaking_words};
ghost use Rattle.page_changes.specs.Act.{first_node, is_meant, is_one_node, is_one_thing, losses_at};
ghost use Rattle.page_changes.specs.Act.{losses_of, lost_at, lost_item, node_html, node_row, or_nobody};
ghost use Rattle.page_changes.specs.Act.{receivers_if, receivers_of, rows_table, same_name, signal_of, things_of};
ghost use Rattle.page_changes.specs.Changes.{changes_in, list_of};
ghost use Rattle.page_changes.specs.Names.{text_of};
ghost use Rattle.page_changes.specs.Parts.{parts_by};
ghost use Rattle.page_changes.specs.Tables.{Puts};

use crate::changes::{Changes, name_in, old_number_in};
use crate::names::ascending;
use crate::words::put_joined;
use dbc_compare::{Difference, breaks};
use dbc_sheet::{Message, Sheet, Signal};
use dbc_words::Name;
use markup::{Attribute, Markup, Tag};
use page_parts::{open_table, put_quiet};
use std::alloc::{AllocError, Global};
use std::marker::Model;

/// The heads of the table.
const HEADS: &[&[u8]] = &[b"Node", b"What breaks"];

/// A node, and differences of one thing that it receives, a message or a signal. Contracts see it as the pair of the
/// node's name and the differences.
#[derive(Drop)]
struct Loss<'a> {
    /// The node; without bytes where none is named.
    node: &'a [u8],
    /// The differences, which are side by side.
    thing: &'a [Difference],
}

impl<'a> Model for Loss<'a> {
    ghost use Rattle.page_changes.specs.Act.{Lost};

    ghost Value = { Lost };

    ghost view = { λ loss. (loss.node.now, loss.thing.now) };
}

impl<'a> Loss<'a> {
    ghost use Rattle.page_changes.specs.Act.{node_of};

    /// The node.
    fn node(&self) -> &'a [u8]
        ensures { result.now ≡ node_of self.now }
    {
        self.node
    }

    /// The differences.
    fn thing(&self) -> &'a [Difference]
        ensures { result.now ≡ self.now.1 }
    {
        self.thing
    }
}

/// Whether the names are those of one signal, or both of the message itself.
fn same_name(a: &Option<Name>, b: &Option<Name>) -> bool
    ensures { result ≡ same_name a.now b.now }
{
    match a {
        None => b.is_none(),
        Some(a) => match b {
            None => false,
            Some(b) => *a == *b,
        },
    }
}

/// How many of the differences in front are of the thing of the one before them.
fn count_alike(first: &Difference, later: &[Difference]) -> usize
    ensures is { result ≡ prefix_len (is_one_thing first.now) later.now }
    ensures within { result ≤ length later.now }
{
    later
        .iter()
        .take_while(|one| same_name(&first.name, &one.name))
        .count()
}

/// The signal that the differences are of; none of the message itself.
fn signal_of(thing: &[Difference]) -> Option<&Name>
    ensures { option_copied result ≡ signal_of thing.now }
{
    match thing {
        [] => None,
        [first, _later @ ..] => first.name.as_ref(),
    }
}

/// Whether the signal is the one of this name; without a name each is.
fn is_meant(name: Option<&Name>, signal: &Signal) -> bool
    ensures { result ≡ is_meant (option_copied name.entry) signal.now }
{
    match name {
        None => true,
        Some(name) => signal.name == *name,
    }
}

/// Adds the names.
fn add_names<'a>(nodes: &mut Vec<&'a [u8]>, names: &'a [Name]) -> Result<(), AllocError>
    ensures { OnOk result (map text_of nodes.new.items
        ≡ map text_of nodes.old.items ++ names.now) }
{
    for name in names {
        nodes.push(name.as_bytes())?;
    }
    Ok(())
}

/// Adds the nodes that receive the signal, if it is the one of this name; without a name each is.
fn add_receivers<'a>(
    nodes: &mut Vec<&'a [u8]>,
    name: Option<&Name>,
    signal: &'a Signal,
) -> Result<(), AllocError>
    ensures { OnOk result (map text_of nodes.new.items
        ≡ map text_of nodes.old.items ++ receivers_if (option_copied name.entry) signal.now) }
{
    if is_meant(name, signal) {
        add_names(nodes, signal.receivers.as_slice())?;
    }
    Ok(())
}

/// The nodes that receive those of the signals that are of this name; without a name each is. A node comes more than
/// once.
fn mentioned<'a>(
    alloc: Global,
    signals: &'a [Signal],
    name: Option<&Name>,
) -> Result<Vec<&'a [u8]>, AllocError>
    ensures { IfOk result (λ nodes. map text_of nodes.items
        ≡ flat_map (receivers_if (option_copied name.entry)) signals.now) }
{
    let mut nodes = Vec::new(alloc);
    for signal in signals {
        add_receivers(&mut nodes, name, signal)?;
    }
    Ok(nodes)
}

/// The names; if there are no names, one without bytes.
fn or_nobody<'a>(alloc: Global, names: &[&'a [u8]]) -> Result<Vec<&'a [u8]>, AllocError>
    ensures { IfOk result
        (λ nodes. map text_of nodes.items ≡ or_nobody (map text_of names.now)) }
{
    match names {
        [] => {
            let mut nodes: Vec<&'a [u8]> = Vec::new(alloc);
            nodes.push(b"")?;
            Ok(nodes)
        }
        [_first, _later @ ..] => Vec::from_slice(alloc, names),
    }
}

/// The nodes that receive the signal of this name of the message, or without a name any signal of it, in ascending order,
/// each once; where there are none, a name without bytes.
fn receivers_of<'a>(
    alloc: Global,
    message: &'a Message,
    name: Option<&Name>,
) -> Result<Vec<&'a [u8]>, AllocError>
    ensures { IfOk result (λ nodes. map text_of nodes.items
        ≡ receivers_of message.now (option_copied name.entry)) }
{
    let all = mentioned(alloc, message.signals.as_slice(), name)?;
    let names = ascending(all)?;
    or_nobody(alloc, names.as_slice())
}

/// Adds for each of these nodes that it loses the thing.
fn add_each<'a>(
    losses: &mut Vec<Loss<'a>>,
    nodes: &[&'a [u8]],
    thing: &'a [Difference],
) -> Result<(), AllocError>
    ensures { OnOk result (losses.new.items
        ≡ losses.old.items ++ map (lost_at thing.now) (map text_of nodes.now)) }
{
    for node in nodes {
        losses.push(Loss { node: *node, thing })?;
    }
    Ok(())
}

/// Whether one of the differences breaks a receiver.
fn any_breaks(thing: &[Difference]) -> bool
    ensures { result ≡ list_any breaks thing.now }
{
    thing.iter().any(|one| breaks(one))
}

/// Adds who loses the thing, if something of it breaks, in the message as it was.
fn add_losses<'a>(
    alloc: Global,
    losses: &mut Vec<Loss<'a>>,
    old: &'a Message,
    thing: &'a [Difference],
) -> Result<(), AllocError>
    ensures { OnOk result (losses.new.items ≡ losses.old.items ++ losses_at old.now thing.now) }
{
    if any_breaks(thing) {
        let nodes = receivers_of(alloc, old, signal_of(thing))?;
        add_each(losses, &nodes, thing)?;
    }
    Ok(())
}

/// Adds what is lost of a message that differs so, in the message as it was.
fn add_things<'a>(
    alloc: Global,
    losses: &mut Vec<Loss<'a>>,
    old: &'a Message,
    differences: &'a [Difference],
) -> Result<(), AllocError>
    ensures { OnOk result (losses.new.items
        ≡ losses.old.items ++ flat_map (losses_at old.now) (things_of differences.now)) }
{
    let mut rest = differences;
    while let Some((first, later)) = rest.split_first() {
        let count = count_alike(first, later);
        let (own, after) = rest.split_at(1 + count);
        add_losses(alloc, losses, old, own)?;
        rest = after;
    }
    Ok(())
}

/// Adds what is lost of a message that differs so, as the sheet before has it.
fn add_message<'a>(
    alloc: Global,
    losses: &mut Vec<Loss<'a>>,
    before: &'a Sheet,
    differences: &'a [Difference],
) -> Result<(), AllocError>
    ensures { OnOk result (losses.new.items
        ≡ losses.old.items ++ losses_of before.now differences.now) }
{
    match before.find(old_number_in(differences)) {
        Some(old) => add_things(alloc, losses, old, differences),
        None => Ok(()),
    }
}

/// What is lost, in the order of the messages.
fn all_losses<'a>(
    alloc: Global,
    before: &'a Sheet,
    messages: &[&'a [Difference]],
) -> Result<Vec<Loss<'a>>, AllocError>
    ensures { IfOk result (λ losses. losses.items
        ≡ flat_map (losses_of before.now) (map list_of messages.now)) }
{
    let mut losses = Vec::new(alloc);
    for message in messages {
        add_message(alloc, &mut losses, before, message)?;
    }
    Ok(losses)
}

/// The same losses, by node; those of a node stay in order.
fn by_node(losses: Vec<Loss<'_>>) -> Result<Vec<Loss<'_>>, AllocError>
    ensures { IfOk result (λ sorted. AreByNode losses.entry.items sorted.items) }
{
    let mut losses = losses;
    losses.sort_by(|a: &Loss, b: &Loss| a.node().cmp(b.node()))?;
    Ok(losses)
}

/// The words for what breaks.
fn breaking_words(
    alloc: Global,
    differences: &[Difference],
) -> Result<Vec<&'static [u8]>, AllocError>
    ensures { IfOk result
        (λ words. map text_of words.items ≡ breaking_words differences.now) }
{
    let mut words: Vec<&'static [u8]> = Vec::new(alloc);
    for difference in differences {
        if breaks(difference) {
            words.push(difference.change.word())?;
        }
    }
    Ok(words)
}

/// Adds the name of a signal after a point, if there is one.
fn put_after_point(page: &mut Markup, signal: Option<&Name>)
    ensures { Becomes page.new
        (adding (after_point (option_copied signal.entry)) page.old) }
{
    if let Some(signal) = signal {
        page.text(b".");
        page.text(signal.as_bytes());
    }
}

/// Adds the item of a thing that breaks.
fn put_loss(alloc: Global, page: &mut Markup, loss: &Loss<'_>) -> Result<(), AllocError>
    ensures { OnOk result (Becomes page.new (adding (lost_item loss.now) page.old)) }
{
    let thing = loss.thing();
    let words = breaking_words(alloc, thing)?;
    page.open(Tag::Item, &[]);
    page.element(Tag::Bold, &[Attribute::Class(b"bad")], b"!");
    page.text(b" ");
    page.text(name_in(thing));
    put_after_point(page, signal_of(thing));
    page.text(b" ");
    page.open(Tag::Span, &[Attribute::Class(b"q")]);
    put_joined(page, &words);
    page.close();
    page.close();
    Ok(())
}

/// Adds the name of a node, or words where none is named.
fn put_node(page: &mut Markup, name: &[u8])
    ensures { Becomes page.new (adding (node_html name.now) page.old) }
{
    match name {
        [] => put_quiet(page, b"no receiver named"),
        [_first, _later @ ..] => page.text(name),
    }
}

/// Adds the items of what a node loses.
fn put_losses(alloc: Global, page: &mut Markup, losses: &[Loss<'_>]) -> Result<(), AllocError>
    ensures { OnOk result (Becomes page.new (adding (flat_map lost_item losses.now) page.old)) }
{
    for loss in losses {
        put_loss(alloc, page, loss)?;
    }
    Ok(())
}

/// The node of the first of the losses.
fn first_node<'a>(losses: &[Loss<'a>]) -> &'a [u8]
    ensures { result.now ≡ first_node losses.now }
{
    match losses {
        [] => &[],
        [first, _later @ ..] => first.node(),
    }
}

/// Adds the row of a node that loses so much.
fn put_row(alloc: Global, page: &mut Markup, losses: &[Loss<'_>]) -> Result<(), AllocError>
    ensures { OnOk result (Becomes page.new (adding (node_row losses.now) page.old)) }
{
    page.open(Tag::Row, &[]);
    page.open(Tag::HeadCell, &[]);
    put_node(page, first_node(losses));
    page.close();
    page.open(Tag::Cell, &[]);
    page.open(Tag::List, &[]);
    put_losses(alloc, page, losses)?;
    page.close();
    page.close();
    page.close();
    Ok(())
}

/// How many of the losses in front are of the node of the one before them.
fn count_of_node(first: &Loss<'_>, later: &[Loss<'_>]) -> usize
    ensures is { result ≡ prefix_len (is_one_node first.now) later.now }
    ensures within { result ≤ length later.now }
{
    later
        .iter()
        .take_while(|one| first.node() == one.node())
        .count()
}

/// Adds a row for each node.
fn put_rows<'a, 'b>(
    alloc: Global,
    page: &mut Markup,
    losses: &'b [Loss<'a>],
) -> Result<(), AllocError>
    ensures { OnOk result (Becomes page.new
        (adding (flat_map node_row (parts_by is_one_node losses.now)) page.old)) }
{
    let Some((first, later)) = losses.split_first() else {
        return Ok(());
    };
    let count = count_of_node(first, later);
    let (own, after) = losses.split_at(1 + count);
    put_row(alloc, page, own)?;
    put_rows(alloc, page, after)
}

/// Adds the table with a row for each node.
fn put_rows_table<'a, 'b>(
    alloc: Global,
    page: &mut Markup,
    losses: &'b [Loss<'a>],
) -> Result<(), AllocError>
    ensures { OnOk result (Becomes page.new (adding (rows_table losses.now) page.old)) }
{
    open_table(page, b"list", HEADS);
    put_rows(alloc, page, losses)?;
    page.close();
    page.close();
    Ok(())
}

/// Adds the table of these losses, which are by node; words where there are none.
fn put_table<'a, 'b>(
    alloc: Global,
    page: &mut Markup,
    losses: &'b [Loss<'a>],
) -> Result<(), AllocError>
    ensures { OnOk result (Becomes page.new (adding (act_html losses.now) page.old)) }
{
    match losses {
        [] => {
            page.element(
                Tag::Paragraph,
                &[],
                b"Nobody: nothing that changed breaks a receiver.",
            );
            Ok(())
        }
        [_first, _later @ ..] => put_rows_table(alloc, page, losses),
    }
}

/// Adds the table of the nodes that must act: those that receive, in the sheet as it was, what breaks. The error is out
/// of memory.
pub(crate) fn put_act(
    alloc: Global,
    page: &mut Markup,
    before: &Sheet,
    changes: &Changes<'_>,
) -> Result<(), AllocError>
    ensures { OnOk result
        (Puts (IsActTable before.now (changes_in changes.now)) page.new page.old) }
{
    let losses = by_node(all_losses(alloc, before, &changes.messages)?)?;
    put_table(alloc, page, &losses)
}
