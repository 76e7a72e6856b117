//! Commands on a network, with fields that keep their ranges.
//!
//! Each field keeps its range by its type, so every command has the form that contracts ask for. Contracts learn the
//! range of a field where the field is tested for it; for that nothing is read and nothing answered.
ghost use Rattle.std.specs.Prelude.{◌≡◌, ◌<◌, ◌^◌, All, IfSome};
ghost use Rattle.office_types.specs.Command.{IsAction, IsCommand, IsNewMessage, IsPath, IsPdu, IsTakeBits, IsTask};

use crate::block::FormBlock;
use crate::free::NumberForm;
use crate::net_name::NetName;
use crate::parts::Parts;
use crate::quantity::{Priority, ReviewCount};
use crate::team::Team;
use base::{Copying, Items};
use bitlayout::{Mux, Order, Size};
use can_id::IdentForm;
use dbc_sheet::{Formed, ValueText, each_has_form};
use dbc_words::{Name, PayloadLength, Text};
use decimal::Decimal;
use std::alloc::{AllocError, Global};

/// A command on one network.
pub struct Command {
    /// The network that the command is about.
    pub net: NetName,
    /// What it is to do.
    pub task: Task,
}

/// What a command requests of its network: an action, to import a file, which alone is read, or a bundle of actions.
pub enum Task {
    /// Carry the action out.
    Act(Action),
    /// Add the messages of a DBC file, of which these are the bytes.
    Import(Items<u8>),
    /// Carry the actions out in order, all of them or none.
    Bundle(Parts<Action>),
}

/// What a network is to do without a file.
pub enum Action {
    /// Open the network, empty.
    OpenNet(OpenNet),
    /// Grant a block of numbers to a team.
    Grant(Grant),
    /// Add a node of this name.
    AddNode(Name),
    /// Take an identifier for a new message.
    TakeIdent(TakeIdent),
    /// Take a J1939 parameter group for a new message.
    TakePgn(TakePgn),
    /// Take a suspect parameter number for a signal.
    TakeSpn(TakeSpn),
    /// Take bits of a message for a new signal.
    TakeBits(TakeBits),
    /// Set the texts of a signal's values.
    SetValues(SetValues),
    /// Take a signal out of its message.
    RemoveSignal(SignalPath),
    /// Take the message of this name out.
    Retire(Name),
    /// Request a review.
    Submit,
    /// Approve of the network as it is.
    Approve,
    /// Turn the review down.
    Reject,
    /// Freeze the network as it is, as its next release.
    Release,
}

/// Whether J1939 parameter groups are allotted on a network.
#[derive(Clone, Copy, PartialEq, Eq)]
pub enum NetKind {
    /// A plain CAN network.
    Can,
    /// A network on which J1939 parameter groups are allotted too.
    J1939,
}

/// The network's kind, and how many approvals its releases need.
#[derive(Clone, Copy)]
pub struct OpenNet {
    /// The network's kind.
    pub kind: NetKind,
    /// How many approvals each release needs.
    pub reviews: ReviewCount,
}

/// The block, and the team that it is for.
#[derive(Drop)]
pub struct Grant {
    /// The team that may give out the numbers.
    pub team: Team,
    /// The numbers.
    pub block: FormBlock,
}

/// What a new message says of itself, whatever number it gets.
pub struct NewMessage {
    /// The message's name.
    pub name: Name,
    /// How many bytes the message carries.
    pub length: PayloadLength,
    /// The node that transmits the message.
    pub node: Option<Name>,
}

/// A message that is to have an identifier of the team's blocks.
#[derive(Drop)]
pub struct TakeIdent {
    /// How many bits the identifier has.
    pub form: IdentForm,
    /// The message.
    pub message: NewMessage,
    /// The identifier that is wanted, of any size; without one the least free is taken.
    pub want: Option<u32>,
}

/// Whether a J1939 message goes to one address or to all.
#[derive(Clone, Copy)]
pub enum Pdu {
    /// To this address, or to every node where none is given (PDU1).
    Addressed(Option<u8>),
    /// To every node (PDU2).
    Broadcast,
}

/// A message that is to have a parameter group of the team's blocks.
#[derive(Drop)]
pub struct TakePgn {
    /// The message.
    pub message: NewMessage,
    /// Whether it goes to one address or to all.
    pub pdu: Pdu,
    /// How urgent it is.
    pub priority: Priority,
    /// The address of the node that sends it.
    pub source: u8,
}

/// A signal of a live message, by their names.
pub struct SignalPath {
    /// The message's name.
    pub message: Name,
    /// The signal's name.
    pub signal: Name,
}

/// A signal that is to have a suspect parameter number.
#[derive(Drop)]
pub struct TakeSpn {
    /// The signal.
    pub path: SignalPath,
    /// A number that was given out before, of any size; without one the least free of the team's blocks is taken.
    pub same: Option<u32>,
}

/// A signal that is to have bits of a message.
pub struct TakeBits {
    /// The message, and the new signal's name.
    pub path: SignalPath,
    /// How many bits.
    pub size: Size,
    /// How they follow one another.
    pub order: Order,
    /// Whether the raw value is signed.
    pub signed: bool,
    /// When the signal is present.
    pub mux: Mux,
    /// What a raw value is multiplied by.
    pub factor: Decimal,
    /// What is added to it then.
    pub offset: Decimal,
    /// The least physical value.
    pub minimum: Decimal,
    /// The greatest physical value.
    pub maximum: Decimal,
    /// The unit of the physical value.
    pub unit: Text,
    /// The nodes that receive the signal; one may be named twice.
    pub receivers: Items<Name>,
    /// The start that is wanted, a bit position; without one the least that is free is taken.
    pub start: Option<u16>,
}

/// The texts that a signal's values are to have.
pub struct SetValues {
    /// The signal.
    pub path: SignalPath,
    /// The values with their texts.
    pub values: Items<ValueText>,
}

impl NetKind {
    ghost use Rattle.std.specs.Prelude.{Some, IfSome};
    ghost use Rattle.office_types.specs.Command.{kind_number, kind_at, kind_word};

    /// The kind's number: 0 for CAN, 1 for J1939.
    pub fn number(self) -> u8
        ensures number { result ≡ kind_number self }
        ensures back { kind_at result ≡ Some self }
    {
        match self {
            NetKind::Can => 0,
            NetKind::J1939 => 1,
        }
    }

    /// The kind of this number, or `None` where none has it.
    pub fn of_number(number: u32) -> Option<NetKind>
        ensures kind { result ≡ kind_at number }
        ensures numbered { IfSome result (λ kind. kind_number kind ≡ number) }
    {
        if number == 0 {
            Some(NetKind::Can)
        } else if number == 1 {
            Some(NetKind::J1939)
        } else {
            None
        }
    }

    /// The kind's word.
    pub fn word(self) -> &'static str
        ensures { result.now ≡ kind_word self }
    {
        match self {
            NetKind::Can => "can",
            NetKind::J1939 => "j1939",
        }
    }
}

impl Pdu {
    ghost use Rattle.office_types.specs.Command.{group_form, pdu_word};

    /// The form of the parameter groups as numbers.
    pub fn number_form(self) -> NumberForm
        ensures { result ≡ group_form self }
    {
        match self {
            Pdu::Addressed(_) => NumberForm::Pdu1,
            Pdu::Broadcast => NumberForm::Pdu2,
        }
    }

    /// Its word: whether a message goes to one address or to all.
    pub fn word(self) -> &'static str
        ensures { result.now ≡ pdu_word self }
    {
        match self {
            Pdu::Addressed(_) => "addressed",
            Pdu::Broadcast => "broadcast",
        }
    }
}

impl Copying for SignalPath {
    fn duplicate(&self, alloc: Global) -> Result<Self, AllocError> {
        Ok(SignalPath {
            message: self.message.duplicate(alloc)?,
            signal: self.signal.duplicate(alloc)?,
        })
    }
}

impl Drop for Command {
    fn drop(self) {
        let Command {
            net: _net,
            task: _task,
        } = self;
    }
}

impl Drop for Task {
    fn drop(self) {
        match self {
            Task::Act(_action) => {}
            Task::Import(_file) => {}
            Task::Bundle(_parts) => {}
        }
    }
}

impl Drop for Action {
    fn drop(self) {
        match self {
            Action::OpenNet(_) => {}
            Action::Grant(_grant) => {}
            Action::AddNode(_node) => {}
            Action::TakeIdent(_take) => {}
            Action::TakePgn(_take) => {}
            Action::TakeSpn(_take) => {}
            Action::TakeBits(_take) => {}
            Action::SetValues(_set) => {}
            Action::RemoveSignal(_path) => {}
            Action::Retire(_message) => {}
            Action::Submit | Action::Approve | Action::Reject | Action::Release => {}
        }
    }
}

impl Drop for NewMessage {
    fn drop(self) {
        let NewMessage {
            name: _name,
            length: _length,
            node: _node,
        } = self;
    }
}

impl Drop for SignalPath {
    fn drop(self) {
        let SignalPath {
            message: _message,
            signal: _signal,
        } = self;
    }
}

impl Drop for TakeBits {
    fn drop(self) {
        let TakeBits {
            path: _path,
            size: _size,
            order: _order,
            signed: _signed,
            mux: _mux,
            factor: _factor,
            offset: _offset,
            minimum: _minimum,
            maximum: _maximum,
            unit: _unit,
            receivers: _receivers,
            start: _start,
        } = self;
    }
}

impl Drop for SetValues {
    fn drop(self) {
        let SetValues {
            path: _path,
            values: _values,
        } = self;
    }
}

fn number_is_small(number: Option<u32>)
    ensures { IfSome number (λ n. n < 2 ^ 32) }
{
    if let Some(number) = number {
        u64::from(number);
    }
}

fn start_is_small(start: Option<u16>)
    ensures { IfSome start (λ n. n < 2 ^ 16) }
{
    if let Some(start) = start {
        u64::from(start);
    }
}

fn bytes_are_small(bytes: &[u8])
    ensures { All (λ b. b < 256) bytes.now }
{}

impl Formed for NewMessage {
    ghost form = { IsNewMessage };

    fn has_form(&self) {
        self.name.has_form();
        self.length.bytes();
        if let Some(node) = &self.node {
            node.has_form();
        }
    }
}

impl Formed for Pdu {
    ghost form = { IsPdu };

    fn has_form(&self) {
        if let Pdu::Addressed(Some(destination)) = self {
            u32::from(*destination);
        }
    }
}

impl Formed for SignalPath {
    ghost form = { IsPath };

    fn has_form(&self) {
        self.message.has_form();
        self.signal.has_form();
    }
}

impl Formed for TakeBits {
    ghost form = { IsTakeBits };

    fn has_form(&self) {
        self.path.has_form();
        self.size.bits();
        self.mux.has_form();
        self.factor.mantissa();
        self.offset.mantissa();
        self.minimum.mantissa();
        self.maximum.mantissa();
        self.unit.has_form();
        each_has_form(self.receivers.as_slice());
        start_is_small(self.start);
    }
}

impl Formed for Action {
    ghost form = { IsAction };

    fn has_form(&self) {
        match self {
            Action::OpenNet(open) => {
                open.reviews.count();
            }
            Action::Grant(grant) => {
                grant.team.as_bytes();
                grant.block.form();
            }
            Action::AddNode(name) => name.has_form(),
            Action::TakeIdent(take) => {
                take.message.has_form();
                number_is_small(take.want);
            }
            Action::TakePgn(take) => {
                take.message.has_form();
                take.pdu.has_form();
                take.priority.number();
                u32::from(take.source);
            }
            Action::TakeSpn(take) => {
                take.path.has_form();
                number_is_small(take.same);
            }
            Action::TakeBits(take) => take.has_form(),
            Action::SetValues(set) => {
                set.path.has_form();
                each_has_form(set.values.as_slice());
            }
            Action::RemoveSignal(path) => path.has_form(),
            Action::Retire(message) => message.has_form(),
            Action::Submit | Action::Approve | Action::Reject | Action::Release => {}
        }
    }
}

impl Formed for Task {
    ghost form = { IsTask };

    fn has_form(&self) {
        match self {
            Task::Act(action) => action.has_form(),
            Task::Import(file) => bytes_are_small(file.as_slice()),
            Task::Bundle(parts) => each_has_form(parts.as_slice()),
        }
    }
}

/// Every command is in the ranges that its types keep.
pub fn command_is_in_range(command: &Command)
    ensures { IsCommand command.now }
{
    command.net.as_bytes();
    command.task.has_form();
}
