//! What the office speaks of: teams and networks, commands and replies, the state, and the allocators.
//!
//! A [`Command`] requests one thing on one network: an [`Action`], or to import a file. Its fields are typed so that no
//! value out of range can be written ([`command_is_in_range`]). A [`Reply`] is what the office answers. The state is
//! plain data: [`Office`] holds networks in the order of their names and the [`SpnBook`]; a [`Net`] holds its [`Head`],
//! live messages, blocks, held identifiers, approvals and releases, each in the order of a key, so that the state is
//! also what tables ordered by key hold. A [`Change`] is one thing that a command sets or removes. A [`Look`] is what
//! can be looked up, by a word ([`Sought`]) among others. What tables keep as numbers (kinds, phases, forms, refusals,
//! replies) has its numbers here, both ways.
//!
//! [`least_free`] is the allocator: the least number of some blocks that has a form and isn't taken. [`least_gap`]
//! gives the same number, found by halving but for parameter groups.
//!
//! The definitions are in `specs/`: `PlainName.antt`, `Command.antt` (ranges of a command's fields),
//! `Refusal.antt` and `Reply.antt` (numbers, names and lines), `State.antt` and `Book.antt` (orders), `Free.antt`,
//! `Sought.antt` (words that look for something), `Overview.antt` (words and paths) and `Look.antt` (in which form).
#![tactic(auto)]

mod block;
mod book;
mod change;
mod command;
mod free;
mod halving;
mod look;
mod net_name;
mod overview;
mod parts;
mod plain_name;
mod quantity;
mod refusal;
mod release;
mod reply;
mod sought;
mod state;
mod team;

pub use block::{Block, BlockForm, FormBlock, GREATEST_PGN};
pub use book::{SpnBlock, SpnBook, UsableSpn, UsedSpns};
pub use can_id::IdentForm;
pub use change::{Change, Decision};
pub use command::{
    Action, Command, Grant, NetKind, NewMessage, OpenNet, Pdu, SetValues, SignalPath, TakeBits,
    TakeIdent, TakePgn, TakeSpn, Task, command_is_in_range,
};
pub use free::{
    NumberForm, is_ascending, least_free, least_free_counted, least_numbers_are_least, next_of,
};
pub use halving::least_gap;
pub use look::{Look, LookForm, NetLook};
pub use net_name::NetName;
pub use overview::{OVERVIEWS, Overview, TeamOverview};
pub use parts::{PART_LIMIT, Parts};
pub use quantity::{Priority, ReviewCount};
pub use refusal::{FileFault, Refusal, refusals_are_numbered};
pub use release::{FrozenSheet, RELEASE_LIMIT};
pub use reply::{PartNumbers, PartReply, Reply, ReplyNumbers, replies_are_numbered};
pub use sought::Sought;
pub use state::{GrantedBlock, Head, LiveMessage, Net, Office, Phase};
pub use team::{Team, is_office};
