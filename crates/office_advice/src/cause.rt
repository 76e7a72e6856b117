//! Why a line of a script, or of a bundle's file, is wrong.

ghost use Rattle.std.specs.Prelude.{◌≡◌};

use office_fields::{ActionKind, CommandKind, Field};
use office_script::Dash;

/// The command of a line.
#[derive(Clone, Copy)]
pub enum LineCommand {
    /// That of a line of a script, after its key and its team.
    Whole(CommandKind),
    /// That of a line of a bundle's file, which has no key, team and network.
    Part(ActionKind),
}

impl LineCommand {
    ghost use Rattle.office_advice.specs.Cause.{command_fields, command_index, command_word, first_field};

    /// Its word.
    pub fn word(self) -> &'static str
        ensures { result.now ≡ command_word self }
    {
        match self {
            LineCommand::Whole(kind) => kind.word(),
            LineCommand::Part(kind) => kind.word(),
        }
    }

    /// Its fields.
    pub fn fields(self) -> &'static [Field]
        ensures { result.now ≡ command_fields self }
    {
        match self {
            LineCommand::Whole(kind) => kind.fields(),
            LineCommand::Part(kind) => kind.part_fields(),
        }
    }

    /// The index of its word in the line, from 0.
    pub(crate) fn index(self) -> usize
        ensures { result ≡ command_index self }
    {
        match self {
            LineCommand::Whole(_) => 2,
            LineCommand::Part(_) => 0,
        }
    }

    /// The index of its first field.
    pub(crate) fn first_field(self) -> usize
        ensures { result ≡ first_field self }
    {
        self.index() + 1
    }
}

/// Why a line is wrong, of one of its words.
#[derive(Clone, Copy)]
pub enum Cause {
    /// The line has fewer than three words. This is reported of the first.
    Short,
    /// The word is no key, where `-` means this.
    Key(Dash),
    /// The word is no team.
    Team,
    /// The word is no command.
    Command,
    /// The word is no command of a bundle.
    PartCommand,
    /// The bundle's file has no command, or too many.
    Count,
    /// The word has no `=`, so it is no field.
    NoField,
    /// A `%` of the value isn't followed by two hexadecimal digits.
    Escape,
    /// The command has no field of that name.
    Unknown(LineCommand),
    /// The field is given before, and may be given once only.
    Doubled(Field),
    /// The value isn't one of the field's.
    WrongValue(Field),
    /// The field must be given, and isn't. This is reported of the command.
    Missing(Field),
    /// The field's value does not go with those of other fields.
    Apart(Field),
}

/// The word of a line that is to blame.
#[derive(Clone, Copy)]
pub struct Wrong {
    /// The index of the word in the line, from 0.
    pub word: usize,
    /// Why the line is wrong.
    pub cause: Cause,
}
