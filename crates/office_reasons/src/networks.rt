//! Refusals about networks, their blocks and their nodes.
ghost use Rattle.std.specs.Prelude.{◌≡◌, IfOk, find, option_map, string_bytes};
ghost use Rattle.std.specs.Option.{option_copied};
ghost use Rattle.office_types.specs.Block.{have_common};
ghost use Rattle.office_reasons.specs.Networks.{can_text, granted_spn_text, granted_text, limit_text};
ghost use Rattle.office_reasons.specs.Networks.{named_node_text, net_there_text, networks_text};
ghost use Rattle.office_reasons.specs.Networks.{absent_receiver, no_net_text, no_node_text, nodes_text, not_office_text};
ghost use Rattle.office_reasons.specs.Networks.{office_task, overlap_of, receiver_reason, receiver_text, taken_reason};

use crate::blocks::spn_numbers;
use crate::few::{few_named, few_names};
use crate::pieces::{is_spn, range_text, shown};
use base::Items;
use dbc_sheet::Node;
use dbc_words::{NODE_LIMIT, Name};
use office_facts::has_node;
use office_types::{
    Action, Block, FormBlock, Grant, GrantedBlock, Net, NetName, SpnBlock, SpnBook, Team,
};
use std::alloc::{AllocError, Global};

/// Which networks there are.
fn networks_text(alloc: Global, names: &[NetName]) -> Result<String, AllocError>
    ensures { IfOk result (λ text. string_bytes text ≡ networks_text names.now) }
{
    match names {
        [] => String::from_str(alloc, "no network is open"),
        [_, ..] => {
            let names = few_names(alloc, names)?;
            let names = names.as_str();
            format!(in alloc; "networks: {names}")
        }
    }
}

/// That there is no network of the name, and which there are.
pub(crate) fn no_net(alloc: Global, net: &NetName, names: &[NetName]) -> Result<String, AllocError>
    ensures { IfOk result (λ text. string_bytes text ≡ no_net_text net.now names.now) }
{
    let networks = networks_text(alloc, names)?;
    let networks = networks.as_str();
    let net = shown(net.as_bytes());
    format!(in alloc; "there is no network {net}; {networks}")
}

/// That there is a network of the name, and of which kind.
pub(crate) fn net_there(alloc: Global, net: &Net) -> Result<String, AllocError>
    ensures { IfOk result (λ text. string_bytes text ≡ net_there_text net.now) }
{
    let name = shown(net.name.as_bytes());
    let kind = net.head.kind.word();
    let reviews = net.head.reviews.count();
    format!(in alloc; "there is a network {name} already, of kind {kind} with reviews={reviews}")
}

/// What the office alone does by the action.
fn office_task(action: &Action) -> &'static str
    ensures { result.now ≡ office_task action.now }
{
    match action {
        Action::OpenNet(_) => "opens networks",
        Action::Grant(_) => "grants blocks",
        _ => "freezes releases",
    }
}

/// That the office alone may do this, and not the team.
pub(crate) fn not_office(alloc: Global, team: &Team, action: &Action) -> Result<String, AllocError>
    ensures { IfOk result (λ text. string_bytes text ≡ not_office_text team.now action.now) }
{
    let task = office_task(action);
    let team = shown(team.as_bytes());
    format!(in alloc; "only the team office {task}, and not {team}")
}

/// That the network's kind is `can`.
pub(crate) fn not_j1939(alloc: Global, net: &Net) -> Result<String, AllocError>
    ensures { IfOk result (λ text. string_bytes text ≡ can_text net.now) }
{
    let name = shown(net.name.as_bytes());
    let kind = net.head.kind.word();
    format!(in alloc; "{name} is of kind {kind}, and only a network of kind j1939 gives out PGNs")
}

/// Whether some number is in both blocks, and they have the same form.
fn have_common(a: FormBlock, b: FormBlock) -> bool
    ensures { result ≡ have_common a b }
{
    a.form() == b.form()
        && a.numbers().first <= b.numbers().last
        && b.numbers().first <= a.numbers().last
}

/// The first block of the network that has a number of this one.
fn granted_overlap(blocks: &[GrantedBlock], block: FormBlock) -> Option<&GrantedBlock>
    ensures { option_copied result ≡ find (λ g. have_common g.block block) blocks.now }
{
    blocks
        .iter()
        .find(|granted| have_common(granted.block, block))
}

/// Whether the block of suspect parameter numbers has one of these.
fn has_spn_of(granted: &SpnBlock, numbers: Block) -> bool
    ensures { result ≡ overlap_of numbers granted.now }
{
    granted.first <= numbers.last && numbers.first <= granted.last
}

/// The first block of suspect parameter numbers that has one of these.
fn spn_overlap(blocks: &[SpnBlock], numbers: Block) -> Option<&SpnBlock>
    ensures { option_copied result ≡ find (overlap_of numbers) blocks.now }
{
    blocks.iter().find(|granted| has_spn_of(granted, numbers))
}

/// The block that has numbers of the requested one, and whose it is.
fn granted_text(
    alloc: Global,
    block: FormBlock,
    granted: &GrantedBlock,
) -> Result<String, AllocError>
    ensures { IfOk result (λ text. string_bytes text ≡ granted_text block granted.now) }
{
    let form = block.form().word();
    let requested = range_text(alloc, block.numbers())?;
    let requested = requested.as_str();
    let numbers = range_text(alloc, granted.block.numbers())?;
    let numbers = numbers.as_str();
    let team = shown(granted.team.as_bytes());
    format!(in alloc; "{form} {requested} overlaps {form} {numbers} of team {team}")
}

/// The same of suspect parameter numbers, and on which network it was granted.
fn granted_spn_text(
    alloc: Global,
    block: FormBlock,
    granted: &SpnBlock,
) -> Result<String, AllocError>
    ensures { IfOk result (λ text. string_bytes text ≡ granted_spn_text block granted.now) }
{
    let requested = range_text(alloc, block.numbers())?;
    let requested = requested.as_str();
    let numbers = range_text(alloc, spn_numbers(granted))?;
    let numbers = numbers.as_str();
    let team = shown(granted.team.as_bytes());
    let net = shown(granted.net.as_bytes());
    format!(in alloc; "spn {requested} overlaps spn {numbers} of team {team} on network {net}")
}

/// Whose block has numbers of the requested one, and which; `None` where no block has.
pub(crate) fn block_taken(
    alloc: Global,
    net: &Net,
    book: &SpnBook,
    grant: &Grant,
) -> Result<Option<String>, AllocError>
    ensures { IfOk result (λ text. option_map (λ t. string_bytes t) text
        ≡ taken_reason net.now book.now grant.now.block) }
{
    let block = grant.block;
    if is_spn(block.form()) {
        match spn_overlap(book.blocks.as_slice(), block.numbers()) {
            Some(granted) => Ok(Some(granted_spn_text(alloc, block, granted)?)),
            None => Ok(None),
        }
    } else {
        match granted_overlap(net.blocks.as_slice(), block) {
            Some(granted) => Ok(Some(granted_text(alloc, block, granted)?)),
            None => Ok(None),
        }
    }
}

/// That there are as many of something as there may be: `HOLDER has N THINGS, the most that WHOLE may have`.
pub(crate) fn limit_text(
    alloc: Global,
    holder: &str,
    count: usize,
    things: &str,
    whole: &str,
) -> Result<String, AllocError>
    ensures { IfOk result
        (λ text. string_bytes text ≡ limit_text holder.now count things.now whole.now) }
{
    format!(in alloc; "{holder} has {count} {things}, the most that a {whole} may have")
}

/// That the network has a node of the name.
pub(crate) fn node_there(alloc: Global, net: &Net, node: &Name) -> Result<String, AllocError>
    ensures { IfOk result (λ text. string_bytes text ≡ named_node_text net.now node.now) }
{
    let name = shown(net.name.as_bytes());
    let node = shown(node.as_bytes());
    format!(in alloc; "{name} has a node {node} already")
}

/// That the network has as many nodes as it may have.
pub(crate) fn many_nodes(alloc: Global, net: &Net) -> Result<String, AllocError> {
    let name = shown(net.name.as_bytes());
    limit_text(alloc, name, NODE_LIMIT, "nodes", "network")
}

/// Which nodes the network has.
fn nodes_text(alloc: Global, nodes: &[Node]) -> Result<String, AllocError>
    ensures { IfOk result (λ text. string_bytes text ≡ nodes_text nodes.now) }
{
    match nodes {
        [] => String::from_str(alloc, "it has no nodes"),
        [_, ..] => {
            let names = few_named(alloc, nodes)?;
            let names = names.as_str();
            format!(in alloc; "its nodes: {names}")
        }
    }
}

/// That the network has no node of the name, and which it has.
pub(crate) fn no_node(alloc: Global, net: &Net, node: &Name) -> Result<String, AllocError>
    ensures { IfOk result (λ text. string_bytes text ≡ no_node_text net.now node.now) }
{
    let nodes = nodes_text(alloc, net.head.frame.nodes())?;
    let nodes = nodes.as_str();
    let name = shown(net.name.as_bytes());
    let node = shown(node.as_bytes());
    format!(in alloc; "{name} has no node {node}; {nodes}")
}

/// The first of the receivers that is no node of the network.
fn absent_receiver<'a>(nodes: &[Node], receivers: &'a Items<Name>) -> Option<&'a Name>
    ensures { option_copied result ≡ absent_receiver nodes.now receivers.now }
{
    receivers
        .as_slice()
        .iter()
        .find(|receiver| !has_node(nodes, receiver))
}

/// That this receiver of the signal is no node of the network, and which nodes it has.
fn receiver_text(
    alloc: Global,
    net: &Net,
    signal: &Name,
    receiver: &Name,
) -> Result<String, AllocError>
    ensures { IfOk result
        (λ text. string_bytes text ≡ receiver_text net.now signal.now receiver.now) }
{
    let nodes = nodes_text(alloc, net.head.frame.nodes())?;
    let nodes = nodes.as_str();
    let name = shown(net.name.as_bytes());
    let receiver = shown(receiver.as_bytes());
    let signal = shown(signal.as_bytes());
    format!(in alloc; "{name} has no node {receiver}, which is to receive {signal}; {nodes}")
}

/// Which receiver of the signal is no node of the network; `None` where all are nodes.
pub(crate) fn no_receiver(
    alloc: Global,
    net: &Net,
    signal: &Name,
    receivers: &Items<Name>,
) -> Result<Option<String>, AllocError>
    ensures { IfOk result (λ text. option_map (λ t. string_bytes t) text
        ≡ receiver_reason net.now signal.now receivers.now) }
{
    match absent_receiver(net.head.frame.nodes(), receivers) {
        Some(receiver) => Ok(Some(receiver_text(alloc, net, signal, receiver)?)),
        None => Ok(None),
    }
}
