//! What is read of a network, as its scope says: facts, which are borrowed, and an excerpt, which is a copy.
ghost use Rattle.std.specs.Prelude.{◌≡◌};
ghost use Rattle.office_facts.specs.FactsOf.{facts_in, facts_of, message_facts_of, message_in, number_facts_of, numbers_in};

use crate::message::MessageFacts;
use crate::numbers::NumberFacts;
use crate::taken::TakenNumbers;
use base::Items;
use office_types::{GrantedBlock, Head, LiveMessage, Net};

/// What is read of a network that is there, for each [`Scope`](crate::Scope).
#[derive(Drop)]
pub enum Facts<'a> {
    /// The head alone.
    Head(&'a Head),
    /// The head and the granted blocks.
    Parts(&'a Head, &'a [GrantedBlock]),
    /// What the tests of a command on a message read.
    Message(MessageFacts<'a>),
    /// The same, and whether the message's identifier was released.
    Retiring(MessageFacts<'a>, bool),
    /// What the tests of a command that gives out a number read, and the numbers that are taken.
    Numbers(NumberFacts<'a>),
    /// All of it.
    Whole(&'a Net),
}

/// What a command that gives out a number reads: whoever keeps networks in rows reads this and no more.
pub struct NumberExcerpt {
    /// Kind, phase and nodes, with what else the network has once.
    pub head: Head,
    /// The granted blocks, as the network has them.
    pub blocks: Items<GrantedBlock>,
    /// Whether a live message has the new message's name.
    pub named: bool,
    /// Whether there are as many live messages as there may be.
    pub full: bool,
    /// Whether a live message has the wanted identifier.
    pub want_live: bool,
    /// Whether the wanted identifier is held.
    pub want_held: bool,
    /// Numbers that may not be given out; of those that the team's blocks have, all.
    pub taken: Items<u32>,
}

/// A copy of what is read of a network, for each [`Scope`](crate::Scope) but the whole.
pub enum Excerpt {
    /// The head alone.
    Head(Head),
    /// The head and the granted blocks.
    Parts(Head, Items<GrantedBlock>),
    /// The head and the message that the command names, with its owner, where it is live.
    Message(Head, Option<LiveMessage>),
    /// The same, and whether the message's identifier was released.
    Retiring(Head, Option<LiveMessage>, bool),
    /// What a command that gives out a number reads.
    Numbers(NumberExcerpt),
}

/// What the tests of a command on a message read of these. Takes no memory.
fn message_in<'a>(head: &'a Head, found: &'a Option<LiveMessage>) -> MessageFacts<'a>
    ensures { message_facts_of result ≡ message_in head.now found.now }
{
    MessageFacts {
        phase: &head.phase,
        nodes: head.frame.nodes(),
        found: found.as_ref(),
    }
}

impl NumberExcerpt {
    /// What the tests of the command read. Takes no memory.
    fn facts(&self) -> NumberFacts<'_>
        ensures { number_facts_of result ≡ numbers_in self.now }
    {
        NumberFacts {
            kind: self.head.kind,
            phase: &self.head.phase,
            nodes: self.head.frame.nodes(),
            blocks: self.blocks.as_slice(),
            named: self.named,
            full: self.full,
            want_live: self.want_live,
            want_held: self.want_held,
            taken: TakenNumbers::Listed(self.taken.as_slice()),
        }
    }
}

impl Excerpt {
    /// The facts that it has. Takes no memory.
    pub fn facts(&self) -> Facts<'_>
        ensures { facts_of result ≡ facts_in self.now }
    {
        match self {
            Excerpt::Head(head) => Facts::Head(head),
            Excerpt::Parts(head, blocks) => Facts::Parts(head, blocks.as_slice()),
            Excerpt::Message(head, found) => Facts::Message(message_in(head, found)),
            Excerpt::Retiring(head, found, released) => {
                Facts::Retiring(message_in(head, found), *released)
            }
            Excerpt::Numbers(numbers) => Facts::Numbers(numbers.facts()),
        }
    }
}

impl Drop for NumberExcerpt {
    fn drop(self) {
        let NumberExcerpt {
            head: _head,
            blocks: _blocks,
            named: _named,
            full: _full,
            want_live: _want_live,
            want_held: _want_held,
            taken: _taken,
        } = self;
    }
}

impl Drop for Excerpt {
    fn drop(self) {
        match self {
            Excerpt::Head(_head) => {}
            Excerpt::Parts(_head, _blocks) => {}
            Excerpt::Message(_head, _found) => {}
            Excerpt::Retiring(_head, _found, _released) => {}
            Excerpt::Numbers(_numbers) => {}
        }
    }
}
