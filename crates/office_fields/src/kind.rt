//! The commands: their words, their fields, and the actions that values of the fields give.
ghost use Rattle.std.specs.Prelude.{◌≡◌, Some};
ghost use Rattle.office_fields.specs.Given.{named_values};
ghost use Rattle.office_fields.specs.Kind.{action_of, fields_of};
ghost use Rattle.office_fields.specs.Reading.{ReadsField};

use crate::field::Field;
use crate::given::{GivenValue, once};
use crate::messages::{take_ident_of, take_pgn_of};
use crate::opening::{grant_of, open_net_of};
use crate::signals::{path_of, set_values_of, take_bits_of, take_spn_of};
use crate::unread::Unread;
use office_types::Action;
use std::alloc::Global;

/// A command that reads no file.
#[derive(Clone, Copy)]
pub enum ActionKind {
    /// `open_net`.
    OpenNet,
    /// `grant`.
    Grant,
    /// `add_node`.
    AddNode,
    /// `take_ident`.
    TakeIdent,
    /// `take_pgn`.
    TakePgn,
    /// `take_spn`.
    TakeSpn,
    /// `take_bits`.
    TakeBits,
    /// `set_values`.
    SetValues,
    /// `remove_signal`.
    RemoveSignal,
    /// `retire`.
    Retire,
    /// `submit`.
    Submit,
    /// `approve`.
    Approve,
    /// `reject`.
    Reject,
    /// `release`.
    Release,
}

/// A command.
#[derive(Clone, Copy)]
pub enum CommandKind {
    /// One that reads no file.
    Act(ActionKind),
    /// `import`, which reads one.
    Import,
    /// `bundle`, which reads the commands of a file.
    Bundle,
}

/// All commands.
const COMMANDS: [CommandKind; 16] = [
    CommandKind::Act(ActionKind::OpenNet),
    CommandKind::Act(ActionKind::Grant),
    CommandKind::Act(ActionKind::AddNode),
    CommandKind::Act(ActionKind::TakeIdent),
    CommandKind::Act(ActionKind::TakePgn),
    CommandKind::Act(ActionKind::TakeSpn),
    CommandKind::Act(ActionKind::TakeBits),
    CommandKind::Act(ActionKind::SetValues),
    CommandKind::Act(ActionKind::RemoveSignal),
    CommandKind::Act(ActionKind::Retire),
    CommandKind::Import,
    CommandKind::Act(ActionKind::Submit),
    CommandKind::Act(ActionKind::Approve),
    CommandKind::Act(ActionKind::Reject),
    CommandKind::Act(ActionKind::Release),
    CommandKind::Bundle,
];

impl ActionKind {
    ghost use Rattle.office_fields.specs.Kind.{action_word, kind_of};

    /// The command that requests the action.
    pub fn of(action: &Action) -> ActionKind
        ensures { result ≡ kind_of action.now }
    {
        match action {
            Action::OpenNet(_) => ActionKind::OpenNet,
            Action::Grant(_) => ActionKind::Grant,
            Action::AddNode(_) => ActionKind::AddNode,
            Action::TakeIdent(_) => ActionKind::TakeIdent,
            Action::TakePgn(_) => ActionKind::TakePgn,
            Action::TakeSpn(_) => ActionKind::TakeSpn,
            Action::TakeBits(_) => ActionKind::TakeBits,
            Action::SetValues(_) => ActionKind::SetValues,
            Action::RemoveSignal(_) => ActionKind::RemoveSignal,
            Action::Retire(_) => ActionKind::Retire,
            Action::Submit => ActionKind::Submit,
            Action::Approve => ActionKind::Approve,
            Action::Reject => ActionKind::Reject,
            Action::Release => ActionKind::Release,
        }
    }

    /// The command's word.
    pub fn word(self) -> &'static str
        ensures { result.now ≡ action_word self }
    {
        match self {
            ActionKind::OpenNet => "open_net",
            ActionKind::Grant => "grant",
            ActionKind::AddNode => "add_node",
            ActionKind::TakeIdent => "take_ident",
            ActionKind::TakePgn => "take_pgn",
            ActionKind::TakeSpn => "take_spn",
            ActionKind::TakeBits => "take_bits",
            ActionKind::SetValues => "set_values",
            ActionKind::RemoveSignal => "remove_signal",
            ActionKind::Retire => "retire",
            ActionKind::Submit => "submit",
            ActionKind::Approve => "approve",
            ActionKind::Reject => "reject",
            ActionKind::Release => "release",
        }
    }
}

impl ActionKind {
    ghost use Rattle.office_fields.specs.Kind.{action_of_word, part_fields};

    /// The command without a file that the word names, or `None` where it names none.
    pub fn of_word(word: &[u8]) -> Option<ActionKind>
        ensures { result ≡ action_of_word word.now }
    {
        match CommandKind::of_word(word) {
            Some(CommandKind::Act(kind)) => Some(kind),
            _ => None,
        }
    }

    /// The fields of a part of a bundle: those of the command without its network, which the bundle names.
    pub fn part_fields(self) -> &'static [Field]
        ensures { result.now ≡ part_fields self }
    {
        match action_fields(self) {
            [_net, others @ ..] => others,
            [] => &[],
        }
    }
}

impl CommandKind {
    ghost use Rattle.office_fields.specs.Kind.{all_kinds, fields_of, kind_of_word, word_of};

    /// All commands.
    pub fn all() -> &'static [CommandKind]
        ensures { result.now ≡ all_kinds }
    {
        &COMMANDS
    }

    /// The command's word.
    pub fn word(self) -> &'static str
        ensures word { result.now ≡ word_of self }
        ensures back { kind_of_word result.now ≡ Some self }
    {
        match self {
            CommandKind::Act(kind) => kind.word(),
            CommandKind::Import => "import",
            CommandKind::Bundle => "bundle",
        }
    }

    /// The command that the word names, or `None` where it names none.
    pub fn of_word(word: &[u8]) -> Option<CommandKind>
        ensures { result ≡ kind_of_word word.now }
    {
        COMMANDS
            .iter()
            .copied()
            .find(|kind| kind.word().as_bytes() == word)
    }

    /// The command's fields.
    pub fn fields(self) -> &'static [Field]
        ensures { result.now ≡ fields_of self }
    {
        match self {
            CommandKind::Act(kind) => action_fields(kind),
            CommandKind::Import | CommandKind::Bundle => &[Field::Net, Field::File],
        }
    }
}

/// The fields of a command that reads no file.
fn action_fields(kind: ActionKind) -> &'static [Field]
    ensures { result.now ≡ fields_of (CommandKind.Act kind) }
{
    match kind {
        ActionKind::OpenNet => &[Field::Net, Field::Kind, Field::Reviews],
        ActionKind::Grant => &[
            Field::Net,
            Field::Team,
            Field::BlockForm,
            Field::First,
            Field::Last,
        ],
        ActionKind::AddNode => &[Field::Net, Field::Name],
        ActionKind::TakeIdent => &[
            Field::Net,
            Field::IdentForm,
            Field::Name,
            Field::Length,
            Field::Node,
            Field::Want,
        ],
        ActionKind::TakePgn => &[
            Field::Net,
            Field::Name,
            Field::Length,
            Field::Node,
            Field::Pdu,
            Field::Priority,
            Field::Source,
            Field::Destination,
        ],
        ActionKind::TakeSpn => &[Field::Net, Field::Message, Field::Signal, Field::Same],
        ActionKind::TakeBits => &[
            Field::Net,
            Field::Message,
            Field::Signal,
            Field::Size,
            Field::Order,
            Field::Signed,
            Field::Mux,
            Field::Factor,
            Field::Offset,
            Field::Minimum,
            Field::Maximum,
            Field::Unit,
            Field::Receiver,
            Field::Start,
        ],
        ActionKind::SetValues => &[Field::Net, Field::Message, Field::Signal, Field::Value],
        ActionKind::RemoveSignal => &[Field::Net, Field::Message, Field::Signal],
        ActionKind::Retire => &[Field::Net, Field::Message],
        ActionKind::Submit | ActionKind::Approve | ActionKind::Reject | ActionKind::Release => {
            &[Field::Net]
        }
    }
}

/// The action that the values of its fields give.
pub(crate) fn action_of(
    alloc: Global,
    kind: ActionKind,
    values: &[GivenValue<'_>],
) -> Result<Action, Unread>
    ensures { ReadsField (action_of kind (named_values values.now)) result }
{
    match kind {
        ActionKind::OpenNet => Ok(Action::OpenNet(open_net_of(alloc, values)?)),
        ActionKind::Grant => Ok(Action::Grant(grant_of(alloc, values)?)),
        ActionKind::AddNode => Ok(Action::AddNode(once(alloc, values, Field::Name)?)),
        ActionKind::TakeIdent => Ok(Action::TakeIdent(take_ident_of(alloc, values)?)),
        ActionKind::TakePgn => Ok(Action::TakePgn(take_pgn_of(alloc, values)?)),
        ActionKind::TakeSpn => Ok(Action::TakeSpn(take_spn_of(alloc, values)?)),
        ActionKind::TakeBits => Ok(Action::TakeBits(take_bits_of(alloc, values)?)),
        ActionKind::SetValues => Ok(Action::SetValues(set_values_of(alloc, values)?)),
        ActionKind::RemoveSignal => Ok(Action::RemoveSignal(path_of(alloc, values)?)),
        ActionKind::Retire => Ok(Action::Retire(once(alloc, values, Field::Message)?)),
        ActionKind::Submit => Ok(Action::Submit),
        ActionKind::Approve => Ok(Action::Approve),
        ActionKind::Reject => Ok(Action::Reject),
        ActionKind::Release => Ok(Action::Release),
    }
}
