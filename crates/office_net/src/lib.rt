//! Decisions on the commands that open networks, grant blocks, add nodes, give out numbers for new messages, review,
//! and release.
//!
//! Each `decide_..` gives what its command results in by the definition of `office_rules` that has its name: a reply,
//! and the changes that lead to what the command leaves. `opening` opens a network, `granting` grants a block, `adding`
//! adds a node, `reviewing` has reviews, and `releasing` freezes the live sheet.
//!
//! `idents` gives out identifiers and `groups` parameter groups. Both read [`NumberFacts`](office_facts::NumberFacts)
//! of a network, and look at what is taken only where no other test refuses; so a refusal takes no memory, but for that
//! of full blocks.
//!
//! Each decides by the part of a network that its command reads, wherever that is kept: the head, the blocks, or such
//! facts. So it decides for every network that has this part. That the network is there is found out before: only
//! [`decide_open_net`] is for one that isn't.
#![tactic(auto)]

mod adding;
mod granting;
mod groups;
mod idents;
mod numbers;
mod opening;
mod releasing;
mod reviewing;
mod taken;

pub use adding::decide_add_node;
pub use granting::decide_grant;
pub use groups::decide_take_pgn;
pub use idents::decide_take_ident;
pub use opening::{decide_open_again, decide_open_net};
pub use releasing::decide_release;
pub use reviewing::{decide_approve, decide_reject, decide_submit};
