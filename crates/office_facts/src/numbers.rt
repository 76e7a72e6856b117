//! What commands that give out a number for a new message read of a network.
use crate::taken::TakenNumbers;
use dbc_sheet::Node;
use office_types::{GrantedBlock, NetKind, Phase};

/// What a command that gives out a number for a new message reads of a network, wherever that is kept.
#[derive(Drop)]
pub struct NumberFacts<'a> {
    /// Whether J1939 parameter groups are allotted.
    pub kind: NetKind,
    /// Whether the network is in review.
    pub phase: &'a Phase,
    /// The network's nodes.
    pub nodes: &'a [Node],
    /// The granted blocks.
    pub blocks: &'a [GrantedBlock],
    /// Whether a live message has the new message's name.
    pub named: bool,
    /// Whether there are as many live messages as there may be.
    pub full: bool,
    /// Whether a live message has the wanted identifier.
    pub want_live: bool,
    /// Whether the wanted identifier is held.
    pub want_held: bool,
    /// The numbers that may not be given out.
    pub taken: TakenNumbers<'a>,
}
