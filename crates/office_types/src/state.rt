//! The office's state: networks, each with its head, live messages, blocks, held identifiers, approvals and releases;
//! and the SPN book.
ghost use Rattle.std.specs.Prelude.{◌≡◌};

use crate::block::FormBlock;
use crate::book::SpnBook;
use crate::command::NetKind;
use crate::net_name::NetName;
use crate::quantity::ReviewCount;
use crate::release::FrozenSheet;
use crate::team::Team;
use base::{Copying, Items, Keyed};
use can_id::Ident;
use dbc_sheet::{Message, Sheet};
use std::alloc::{AllocError, Global};
use std::cmp::Ordering;

/// The whole office.
pub struct Office {
    /// The networks, in ascending order of name.
    pub nets: Items<Net>,
    /// The SPNs of the whole office.
    pub book: SpnBook,
}

/// One vehicle network.
pub struct Net {
    /// The network's name, by which commands speak of it.
    pub name: NetName,
    /// What it has once.
    pub head: Head,
    /// The live messages, in ascending order of DBC number.
    pub live: Items<LiveMessage>,
    /// The granted blocks, by form and then by their first number; those of suspect parameter numbers are in the book.
    pub blocks: Items<GrantedBlock>,
    /// The identifiers that are held for good, in ascending order of DBC number.
    pub held: Items<Ident>,
    /// The teams that approved of the network in this review, in ascending order of name; none in draft.
    pub approvals: Items<Team>,
    /// The releases, from the first one on.
    pub releases: Items<FrozenSheet>,
}

/// What a network has once: a row of the table of networks.
pub struct Head {
    /// Whether J1939 parameter groups are allotted.
    pub kind: NetKind,
    /// How many approvals a release needs.
    pub reviews: ReviewCount,
    /// Whether the network may be changed.
    pub phase: Phase,
    /// The live sheet without its messages.
    pub frame: Sheet,
}

/// Whether a network is being changed or reviewed.
pub enum Phase {
    /// Teams may change the network.
    Draft,
    /// The network is under review, which this team requested.
    Review {
        /// The team that requested the review.
        submitter: Team,
    },
}

/// A live message, and the team that took it.
pub struct LiveMessage {
    /// The message.
    pub message: Message,
    /// The team, which alone may change it.
    pub owner: Team,
}

/// A block of numbers, and the team that it was granted to.
pub struct GrantedBlock {
    /// The numbers.
    pub block: FormBlock,
    /// The team.
    pub team: Team,
}

impl Phase {
    ghost use Rattle.std.specs.Option.{option_copied};
    ghost use Rattle.office_types.specs.State.{phase_number, phase_at, submitter_of};

    /// The phase's number: 0 for draft, 1 for a review.
    pub fn number(&self) -> u8
        ensures { result ≡ phase_number self.now }
    {
        match self {
            Phase::Draft => 0,
            Phase::Review { .. } => 1,
        }
    }

    /// The team that requested the review, `None` in draft.
    pub fn submitter(&self) -> Option<&Team>
        ensures { option_copied result ≡ submitter_of self.now }
    {
        match self {
            Phase::Draft => None,
            Phase::Review { submitter } => Some(submitter),
        }
    }

    /// The phase of this number and submitter: draft has none, a review has one. `None` where no phase is so.
    pub fn of_number(number: u32, submitter: Option<Team>) -> Option<Phase>
        ensures { result ≡ phase_at number submitter }
    {
        match submitter {
            None => {
                if number == 0 {
                    Some(Phase::Draft)
                } else {
                    None
                }
            }
            Some(submitter) => {
                if number == 1 {
                    Some(Phase::Review { submitter })
                } else {
                    None
                }
            }
        }
    }
}

impl Copying for LiveMessage {
    fn duplicate(&self, alloc: Global) -> Result<Self, AllocError> {
        Ok(LiveMessage {
            message: self.message.duplicate(alloc)?,
            owner: self.owner.duplicate(alloc)?,
        })
    }
}

impl Copying for GrantedBlock {
    fn duplicate(&self, alloc: Global) -> Result<Self, AllocError> {
        Ok(GrantedBlock {
            block: self.block,
            team: self.team.duplicate(alloc)?,
        })
    }
}

impl Copying for Phase {
    fn duplicate(&self, alloc: Global) -> Result<Self, AllocError> {
        match self {
            Phase::Draft => Ok(Phase::Draft),
            Phase::Review { submitter } => Ok(Phase::Review {
                submitter: submitter.duplicate(alloc)?,
            }),
        }
    }
}

impl Copying for Head {
    fn duplicate(&self, alloc: Global) -> Result<Self, AllocError> {
        Ok(Head {
            kind: self.kind,
            reviews: self.reviews,
            phase: self.phase.duplicate(alloc)?,
            frame: self.frame.duplicate(alloc)?,
        })
    }
}

impl Copying for Net {
    fn duplicate(&self, alloc: Global) -> Result<Self, AllocError> {
        Ok(Net {
            name: self.name.duplicate(alloc)?,
            head: self.head.duplicate(alloc)?,
            live: self.live.duplicate(alloc)?,
            blocks: self.blocks.duplicate(alloc)?,
            held: self.held.duplicate(alloc)?,
            approvals: self.approvals.duplicate(alloc)?,
            releases: self.releases.duplicate(alloc)?,
        })
    }
}

impl Keyed for Net {
    ghost use Rattle.office_types.specs.State.{by_name};
    ghost use Rattle.std.specs.Cmp.Lexicographic.{on_texts};

    ghost order = { by_name };

    ghost ordered = { on_texts (λ n. n.name) };

    fn compare(&self, other: &Net) -> Ordering {
        self.name.compare(&other.name)
    }
}

impl Keyed for LiveMessage {
    ghost use Rattle.office_types.specs.State.{by_number};
    ghost use Rattle.std.proofs.Common.{rules};
    ghost use Rattle.std.specs.Cmp.Rules.{comparing};

    ghost order = { by_number };

    ghost ordered = { Prim.search (comparing, rules) };

    fn compare(&self, other: &LiveMessage) -> Ordering {
        self.message.ident.compare(&other.message.ident)
    }
}

impl Keyed for GrantedBlock {
    ghost use Rattle.office_types.specs.State.{by_first};
    ghost use Rattle.std.proofs.Common.{rules};
    ghost use Rattle.std.specs.Cmp.Rules.{comparing};

    ghost order = { by_first };

    ghost ordered = { Prim.search (comparing, rules) };

    fn compare(&self, other: &GrantedBlock) -> Ordering {
        let form = self.block.form().number();
        let other_form = other.block.form().number();
        form.cmp(&other_form).then(self.block.numbers().first.cmp(&other.block.numbers().first))
    }
}

impl Drop for Office {
    fn drop(self) {
        let Office {
            nets: _nets,
            book: _book,
        } = self;
    }
}

impl Drop for Net {
    fn drop(self) {
        let Net {
            name: _name,
            head: _head,
            live: _live,
            blocks: _blocks,
            held: _held,
            approvals: _approvals,
            releases: _releases,
        } = self;
    }
}

impl Drop for Head {
    fn drop(self) {
        let Head {
            kind: _kind,
            reviews: _reviews,
            phase: _phase,
            frame: _frame,
        } = self;
    }
}

impl Drop for Phase {
    fn drop(self) {
        match self {
            Phase::Draft => {}
            Phase::Review {
                submitter: _submitter,
            } => {}
        }
    }
}

impl Drop for LiveMessage {
    fn drop(self) {
        let LiveMessage {
            message: _message,
            owner: _owner,
        } = self;
    }
}

impl Drop for GrantedBlock {
    fn drop(self) {
        let GrantedBlock {
            block: _block,
            team: _team,
        } = self;
    }
}
