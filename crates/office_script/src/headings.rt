//! What was requested.
ghost use Rattle.std.specs.Prelude.{◌≡◌, ◌++◌, codes, OnOk};
ghost use Rattle.office_fields.specs.Kind.{word_of};
ghost use Rattle.office_script.specs.Echoes.{action_heading, heading, path_text, subject_of, task_heading};

use office_fields::{ActionKind, CommandKind};
use office_history::Key;
use office_types::{Action, NetName, SignalPath, Task};
use std::alloc::AllocError;

fn add_path(text: &mut Vec<u8>, path: &SignalPath) -> Result<(), AllocError>
    ensures { OnOk result (text.new.items ≡ text.old.items ++ path_text path.now) }
{
    text.extend_from_slice(path.message.as_bytes())?;
    text.push(b'.')?;
    text.extend_from_slice(path.signal.as_bytes())
}

/// Appends what the action on the network names.
fn add_subject(text: &mut Vec<u8>, net: &NetName, action: &Action) -> Result<(), AllocError>
    ensures { OnOk result (text.new.items ≡ text.old.items ++ subject_of net.now action.now) }
{
    match action {
        Action::Grant(grant) => text.extend_from_slice(grant.team.as_bytes()),
        Action::AddNode(name) | Action::Retire(name) => text.extend_from_slice(name.as_bytes()),
        Action::TakeIdent(take) => text.extend_from_slice(take.message.name.as_bytes()),
        Action::TakePgn(take) => text.extend_from_slice(take.message.name.as_bytes()),
        Action::TakeSpn(take) => add_path(text, &take.path),
        Action::TakeBits(take) => add_path(text, &take.path),
        Action::SetValues(set) => add_path(text, &set.path),
        Action::RemoveSignal(path) => add_path(text, path),
        Action::OpenNet(_) | Action::Submit | Action::Approve | Action::Reject | Action::Release =>
            text.extend_from_slice(net.as_bytes()),
    }
}

/// Appends the key and the command's word, each with a space after it.
fn add_front(text: &mut Vec<u8>, key: &Key, word: &str) -> Result<(), AllocError>
    ensures { OnOk result (text.new.items
        ≡ text.old.items ++ (key.now ++ (codes " " ++ (word.now ++ codes " ")))) }
{
    text.extend_from_slice(key.as_bytes())?;
    text.push(b' ')?;
    text.extend_from_slice(word.as_bytes())?;
    text.push(b' ')?;
    Ok(())
}

/// Appends the heading of an action on the network.
pub(crate) fn add_action_heading(
    text: &mut Vec<u8>,
    key: &Key,
    net: &NetName,
    action: &Action,
) -> Result<(), AllocError>
    ensures { OnOk result (text.new.items
        ≡ text.old.items ++ action_heading key.now net.now action.now) }
{
    add_front(text, key, ActionKind::of(action).word())?;
    add_subject(text, net, action)?;
    text.extend_from_slice(b": ")
}

/// Appends the heading of a command that reads a file, which names its network alone.
fn add_net_heading(
    text: &mut Vec<u8>,
    key: &Key,
    kind: CommandKind,
    net: &NetName,
) -> Result<(), AllocError>
    ensures { OnOk result (text.new.items
        ≡ text.old.items ++ heading key.now (word_of kind) net.now) }
{
    add_front(text, key, kind.word())?;
    text.extend_from_slice(net.as_bytes())?;
    text.extend_from_slice(b": ")
}

/// Appends the heading of a task on the network.
pub(crate) fn add_task_heading(
    text: &mut Vec<u8>,
    key: &Key,
    net: &NetName,
    task: &Task,
) -> Result<(), AllocError>
    ensures { OnOk result (text.new.items ≡ text.old.items ++ task_heading key.now net.now task.now) }
{
    match task {
        Task::Act(action) => add_action_heading(text, key, net, action),
        Task::Import(_) => add_net_heading(text, key, CommandKind::Import, net),
        Task::Bundle(_) => add_net_heading(text, key, CommandKind::Bundle, net),
    }
}
