//! The command that named values give.
ghost use Rattle.std.specs.Prelude.{◌≡◌};
ghost use Rattle.office_fields.specs.Requested.{requested_of, command_of, file_import_of, part_of};
ghost use Rattle.office_fields.specs.Given.{named_values};
ghost use Rattle.office_fields.specs.Reading.{ReadsField};

use crate::field::Field;
use crate::given::{GivenValue, are_known, once};
use crate::kind::{ActionKind, CommandKind, action_of};
use crate::path::FilePath;
use crate::unread::Unread;
use base::Items;
use office_types::{Action, Command, NetName, Parts, Task};
use std::alloc::Global;

/// What named values request.
#[derive(Drop)]
pub enum Requested {
    /// A command.
    Command(Command),
    /// To import a file, which is still to be read.
    Import(FileImport),
    /// To carry out the parts in a file, which is still to be read.
    Bundle(FileImport),
}

/// The import of a file that is still to be read.
pub struct FileImport {
    /// The network.
    pub net: NetName,
    /// The path of the file.
    pub file: FilePath,
}

impl FileImport {
    ghost use Rattle.office_types.specs.declared.command.Task.TheVariants.{Bundle, Import};

    /// The command that imports these bytes, which are those of the file. Takes no memory.
    pub fn with_bytes(self, bytes: Vec<u8>) -> Command
        ensures { result ≡ record { net = self.net; task = Import bytes.items } }
    {
        let FileImport { net, file: _file } = self;
        Command {
            net,
            task: Task::Import(Items::from_vec(bytes)),
        }
    }

    /// The command that carries these parts out, which are those in the file. Takes no memory.
    pub fn with_parts(self, parts: Parts<Action>) -> Command
        ensures { result ≡ record { net = self.net; task = Bundle parts } }
    {
        let FileImport { net, file: _file } = self;
        Command {
            net,
            task: Task::Bundle(parts),
        }
    }

    /// The path of the file. Takes no memory.
    pub fn into_path(self) -> FilePath
        ensures { result ≡ self.file }
    {
        let FileImport { net: _net, file } = self;
        file
    }
}

/// The command of the kind with these values, in any order: those of its fields and no others, each as often as its
/// field may be given and of its kind. `Wrong` where the values aren't so; where a block's last number is below its
/// first or one of them is no number of its form; and where a broadcast has a destination.
pub fn command_of(
    alloc: Global,
    kind: ActionKind,
    values: &[GivenValue<'_>],
) -> Result<Command, Unread>
    ensures { ReadsField (command_of kind (named_values values.now)) result }
{
    if !are_known(CommandKind::Act(kind).fields(), values) {
        return Err(Unread::Wrong);
    }
    let net = once(alloc, values, Field::Net)?;
    let action = action_of(alloc, kind, values)?;
    Ok(Command {
        net,
        task: Task::Act(action),
    })
}

/// The part of a bundle with these values, in any order: as [`command_of`], but without the network, which the bundle
/// names.
pub fn part_of(alloc: Global, kind: ActionKind, values: &[GivenValue<'_>]) -> Result<Action, Unread>
    ensures { ReadsField (part_of kind (named_values values.now)) result }
{
    if !are_known(kind.part_fields(), values) {
        return Err(Unread::Wrong);
    }
    action_of(alloc, kind, values)
}

/// The import or the bundle with these values, in any order. `Wrong` as for [`command_of`].
fn file_import_of(alloc: Global, values: &[GivenValue<'_>]) -> Result<FileImport, Unread>
    ensures { ReadsField (file_import_of (named_values values.now)) result }
{
    if !are_known(CommandKind::Import.fields(), values) {
        return Err(Unread::Wrong);
    }
    let net = once(alloc, values, Field::Net)?;
    let file = once(alloc, values, Field::File)?;
    Ok(FileImport { net, file })
}

/// What a command with these values requests: [`command_of`], but that an import has the path of its file.
pub fn requested_of(
    alloc: Global,
    kind: CommandKind,
    values: &[GivenValue<'_>],
) -> Result<Requested, Unread>
    ensures { ReadsField (requested_of kind (named_values values.now)) result }
{
    match kind {
        CommandKind::Act(kind) => Ok(Requested::Command(command_of(alloc, kind, values)?)),
        CommandKind::Import => Ok(Requested::Import(file_import_of(alloc, values)?)),
        CommandKind::Bundle => Ok(Requested::Bundle(file_import_of(alloc, values)?)),
    }
}

impl Drop for FileImport {
    fn drop(self) {
        let FileImport {
            net: _net,
            file: _file,
        } = self;
    }
}
