//! Adding a node.
ghost use Rattle.std.specs.Prelude.{◌≡◌, ◌++◌, ◌∷◌, [], ℕ, List, length, nat_le, false, Some, IfOk};
ghost use Rattle.base.specs.Refusing.{first_refusal};
ghost use Rattle.dbc_words.specs.Limits.{node_limit};
ghost use Rattle.office_types.specs.declared.book.SpnBook.{SpnBook};
ghost use Rattle.office_types.specs.declared.change.Change.TheVariants.{SetHead};
ghost use Rattle.office_types.specs.declared.reply.Reply.TheVariants.{Done};
ghost use Rattle.office_types.specs.declared.state.Net.{Net as NetModel};
ghost use Rattle.office_rules.specs.Change.{Decides};
ghost use Rattle.office_rules.specs.Facts.{has_node};
ghost use Rattle.office_rules.specs.Opening.{add_node, add_node_tests, bare_net, with_node};
ghost use Rattle.office_net.specs.FactsOf.{with_head};

use base::Copying;
use dbc_sheet::{Node, Sheet};
use dbc_words::{NODE_LIMIT, Name, SheetCode, Text};
use office_facts::{has_node, head_with, in_review, one_change, refusal_decision};
use office_types::{Change, Decision, Head, Refusal, Reply};
use std::alloc::{AllocError, Global};

/// Why the node can't be added to a network that has this head.
fn add_node_refusal(head: &Head, name: &Name) -> Option<Refusal>
    ensures { result ≡ first_refusal (add_node_tests (Some (bare_net [] head.now)) name.now) }
{
    let nodes = head.frame.nodes();
    if in_review(&head.phase) {
        Some(Refusal::InReview)
    } else if has_node(nodes, name) {
        Some(Refusal::NameTaken)
    } else if nodes.len() >= NODE_LIMIT {
        Some(Refusal::TooMany)
    } else {
        None
    }
}

/// The frame with the node last. It has room, and no node of the name, so that nothing but memory can be missing.
fn frame_with(alloc: Global, frame: &Sheet, node: Node) -> Result<Sheet, AllocError>
    requires room { nat_le node_limit (length frame.now.nodes) ≡ false }
    requires new { has_node frame.now.nodes node.name ≡ false }
    ensures { IfOk result (λ with. with
        ≡ record frame.now { nodes = frame.now.nodes ++ node ∷ [] }) }
{
    let mut with = frame.duplicate(alloc)?;
    match with.with_node(alloc, node) {
        Ok(()) => Ok(with),
        Err(fault) => match fault.code {
            SheetCode::Memory => Err(AllocError),
            _ => unreachable!(),
        },
    }
}

/// The decision that adds the node to a network that has this head.
fn node_added(alloc: Global, head: &Head, name: &Name) -> Result<Decision, AllocError>
    requires room { nat_le node_limit (length head.now.frame.nodes) ≡ false }
    requires new { has_node head.now.frame.nodes name.now ≡ false }
    ensures changes { IfOk result (λ d. d.changes ≡ SetHead
        (with_node (bare_net [] head.now) (record { name = name.now; comment = [] })).head ∷ []) }
    ensures reply { IfOk result (λ d. d.reply ≡ Done) }
{
    let node = Node {
        name: name.duplicate(alloc)?,
        comment: Text::empty(alloc),
    };
    let frame = frame_with(alloc, &head.frame, node)?;
    let head = head_with(alloc, head, frame)?;
    one_change(alloc, Change::SetHead(head), Reply::Done)
}

/// Decides an `add_node` of this name on a network that has this head. It reads no team and no book. The error is out
/// of memory.
pub fn decide_add_node(alloc: Global, head: &Head, name: &Name) -> Result<Decision, AllocError>
    ensures { IfOk result (λ d. (at : List ℕ) (net : NetModel) (book : SpnBook)
        → Decides at (record { net = Some (with_head head.now net); book = book })
        (add_node (Some (with_head head.now net)) name.now) d) }
{
    match add_node_refusal(head, name) {
        Some(refusal) => Ok(refusal_decision(alloc, refusal)),
        None => node_added(alloc, head, name),
    }
}
