//! Rows as they are added.
ghost use Rattle.std.specs.Prelude.{◌≡◌};
ghost use Rattle.sqlite.specs.declared.types.Value.TheVariants.{Int};
ghost use Rattle.sqlite_value.specs.Value.{owned};
ghost use Rattle.store_statements.specs.Mux.{mux_number};

use sqlite::types::{ToSql, ValueRef};

/// A row of `net`: a network.
#[derive(Clone, Copy)]
pub struct NetRow<'a> {
    /// Its name, the key.
    pub name: &'a [u8],
    /// The number of its kind.
    pub kind: u32,
    /// How many approvals a release needs.
    pub reviews: u32,
    /// The number of its phase.
    pub phase: u32,
    /// The team that submitted it; empty in draft.
    pub submitter: &'a [u8],
    /// The canonical text of its live sheet without messages.
    pub frame: &'a [u8],
}

/// A row of `message`: a live message of a network.
#[derive(Clone, Copy)]
pub struct BodyRow<'a> {
    /// The network.
    pub net: &'a [u8],
    /// The DBC number; with the network, the key.
    pub number: u32,
    /// Its name; no two messages of a network have the same.
    pub name: &'a [u8],
    /// The team that made it.
    pub owner: &'a [u8],
    /// The canonical text of the sheet that has this message alone.
    pub body: &'a [u8],
}

/// A row of `block`: a block of numbers of a team on a network.
#[derive(Clone, Copy)]
pub struct BlockRow<'a> {
    /// The network.
    pub net: &'a [u8],
    /// The number of the form of its numbers; with the network and the first number, the key.
    pub form: u32,
    /// The least number.
    pub first: u32,
    /// The greatest number.
    pub last: u32,
    /// The team.
    pub team: &'a [u8],
}

/// A row of `frozen`: a release of a network.
#[derive(Clone, Copy)]
pub struct FrozenRow<'a> {
    /// The network.
    pub net: &'a [u8],
    /// The number of the release, from 1; with the network, the key.
    pub number: u32,
    /// The canonical text of the released sheet.
    pub body: &'a [u8],
}

/// A row of `reply`: what the request of a team with a key was answered.
#[derive(Clone, Copy)]
pub struct ReplyRow<'a> {
    /// The team.
    pub team: &'a [u8],
    /// The key of the request; with the team, the key of the row.
    pub key: &'a [u8],
    /// The bytes of the request.
    pub content: &'a [u8],
    /// The number of the kind of reply.
    pub kind: u32,
    /// The first number of the reply, 0 if it has none.
    pub a: u32,
    /// The second number of the reply, 0 if it has none.
    pub b: u32,
    /// The third number of the reply, 0 if it has none.
    pub c: u32,
}

/// A row of `msg`: a live message of a network, without its signals.
#[derive(Clone, Copy)]
pub struct LiveRow<'a> {
    /// The network.
    pub net: &'a [u8],
    /// The DBC number; with the network, the key.
    pub number: u32,
    /// Its name; no two messages of a network have the same.
    pub name: &'a [u8],
    /// The team that made it.
    pub owner: &'a [u8],
    /// How many bytes its payload has.
    pub length: u32,
    /// The node that sends it; empty if there is none.
    pub transmitter: &'a [u8],
    /// Its comment.
    pub comment: &'a [u8],
}

/// When a signal is there: -2 always, -1 as the multiplexor, and else the value of the multiplexor.
#[derive(Clone, Copy)]
pub enum MuxColumn {
    /// It is there in every frame.
    Always,
    /// It is there in every frame, and is the multiplexor.
    Multiplexor,
    /// It is there if the multiplexor has this value.
    Under(u32),
}

impl MuxColumn {
    /// The number in the column.
    pub(crate) fn value<'a>(self) -> ValueRef<'a>
        ensures { owned result ≡ Int (mux_number self) }
    {
        match self {
            MuxColumn::Always => ValueRef::Int(-2),
            MuxColumn::Multiplexor => ValueRef::Int(-1),
            MuxColumn::Under(value) => value.to_sql(),
        }
    }
}

/// A row of `sig`: a signal of a live message, without its receivers and value texts.
#[derive(Clone, Copy)]
pub struct SigRow<'a> {
    /// The network.
    pub net: &'a [u8],
    /// The DBC number of the message.
    pub number: u32,
    /// Its number in the order of the message's signals; with the network and the DBC number, the key.
    pub place: u32,
    /// Its name; no two signals of a message have the same.
    pub name: &'a [u8],
    /// The number of its first bit.
    pub start: u32,
    /// How many bits it has.
    pub size: u32,
    /// Whether its bits go in Motorola's order (1) or Intel's (0).
    pub motorola: u32,
    /// Whether its raw value is signed (1).
    pub signed: u32,
    /// When it is there.
    pub mux: MuxColumn,
    /// The text of its factor.
    pub factor: &'a [u8],
    /// The text of its offset.
    pub offset: &'a [u8],
    /// The text of its minimum.
    pub minimum: &'a [u8],
    /// The text of its maximum.
    pub maximum: &'a [u8],
    /// Its unit.
    pub unit: &'a [u8],
    /// Its comment.
    pub comment: &'a [u8],
    /// Its suspect parameter number, 0 if it has none.
    pub spn: u32,
    /// The number of its value type.
    pub value_type: u32,
}

/// A row of `receiver`: a receiver of a signal.
#[derive(Clone, Copy)]
pub struct ReceiverRow<'a> {
    /// The network.
    pub net: &'a [u8],
    /// The DBC number of the message.
    pub number: u32,
    /// The place of the signal.
    pub place: u32,
    /// Its number in the order of the signal's receivers; with the others, the key.
    pub index: u32,
    /// The node.
    pub name: &'a [u8],
}

/// A row of `sigvalue`: the text of a value of a signal.
#[derive(Clone, Copy)]
pub struct SigValueRow<'a> {
    /// The network.
    pub net: &'a [u8],
    /// The DBC number of the message.
    pub number: u32,
    /// The place of the signal.
    pub place: u32,
    /// Its number in the order of the signal's value texts; with the others, the key.
    pub index: u32,
    /// The text of the value.
    pub value: &'a [u8],
    /// What the value means.
    pub text: &'a [u8],
}

/// A row of `part`: what a part of a bundle is answered.
#[derive(Clone, Copy)]
pub struct PartRow<'a> {
    /// The team.
    pub team: &'a [u8],
    /// The key of the team's request.
    pub key: &'a [u8],
    /// The number of the part in the order of the bundle, from 1; with the team and the key, the key.
    pub place: u32,
    /// The kind of the answer.
    pub kind: u32,
    /// The number that it holds.
    pub a: u32,
    /// 0, as no part holds two numbers.
    pub b: u32,
}
