//! What the decisions on commands share: what they read of a network, and decisions of few changes.
//!
//! [`scope_of`] says what an action reads of its network, and [`reads_releases`] whether it reads releases. What is
//! read are [`Facts`], wherever the network is kept: of a network in memory they are borrowed, and of one in rows they
//! are those of an [`Excerpt`]. `specs/Scope.antt` has what each action reads, and `specs/Excerpt.antt` which facts are
//! a network's.
//!
//! [`MessageFacts`] is what commands on a live message read, [`NumberFacts`] what those that give out a number read,
//! with the [`TakenNumbers`], of which [`NumberSet`] is one kind. `facts` has what the tests read of a network's parts,
//! `idents` the numbers of identifiers, and `blocks` the numbers of a team's blocks. `head` makes heads with one thing
//! changed, and `decision` makes decisions: of one change, of two, and of none where the command is refused.
//!
//! The contracts cite the words of `office_rules`, mostly of `Facts.antt`. Only lists of blocks and of numbers, heads
//! and changes take memory, and each walk is over one list of the network. `proofs/Deciding.antt` has when a decision
//! is that of a list of tests: the first that holds is the reply and nothing changes, and where none holds it is the
//! decision of what comes after the tests.
#![tactic(auto)]

mod blocks;
mod decision;
mod excerpt;
mod facts;
mod head;
mod idents;
mod message;
mod number_set;
mod numbers;
mod scope;
mod taken;

pub use blocks::{blocks_of, has_block, has_number, lies_in, spn_blocks_of};
pub use decision::{one_change, refusal_decision, two_changes};
pub use excerpt::{Excerpt, Facts, NumberExcerpt};
pub use facts::{
    has_node, has_signal, in_review, is_full, is_held, is_j1939, is_live, is_named, is_submitter,
    knows_node, live_named, same_ident,
};
pub use head::{head_in, head_with};
pub use idents::{group_of, has_ident, ident_is, number_in};
pub use message::{MessageFacts, message_facts, was_released};
pub use number_set::NumberSet;
pub use numbers::NumberFacts;
pub use scope::{Scope, reads_bodies, reads_book, reads_part, reads_releases, scope_of};
pub use taken::{TakenNumbers, groups_of, number_set_of, numbers_of};
