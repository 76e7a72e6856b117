//! The body of a request.
ghost use Rattle.std.specs.Prelude.{◌≡◌, IfOk, IfSome, Some, is_some};
ghost use Rattle.std.specs.Option.{option_map};
ghost use Rattle.serde_json.specs.Written.{compact_text};
ghost use Rattle.office_types.specs.declared.command.Task.TheVariants.{Act, Bundle};
ghost use Rattle.desk_send.specs.Body.{IsReadAs, IsReadBack, body_of, is_text_task, task_body};
ghost use Rattle.desk_send.specs.Json.{action_data, bundle_data};
ghost use Rattle.desk_send.specs.Writing.{Writes};

use crate::objects::{action_members, bundle_members, object_text};
use crate::unwritten::Unwritten;
use dbc_sheet::{Formed, each_has_form};
use office_types::{Action, Command, NetName, Parts, Task, command_is_in_range};
use std::alloc::{AllocError, Global};

#[tactic(auto, using(crate::proofs::ObjectTexts::action_flat, crate::proofs::BodiesBack::action_read))]
fn action_body(alloc: Global, net: &NetName, action: &Action) -> Result<Vec<u8>, Unwritten>
    ensures body { Writes (λ body. body.items)
        (option_map compact_text (action_data net.now action.now)) result }
    ensures back { IfOk result (λ body. IsReadAs body.items net.now (Act action.now)) }
{
    net.as_bytes();
    action.has_form();
    let members = action_members(alloc, net, action)?;
    Ok(object_text(alloc, members)?)
}

#[tactic(auto, using(crate::proofs::ObjectTexts::bundle_flats, crate::proofs::BodiesBack::bundle_read))]
fn bundle_body(alloc: Global, net: &NetName, parts: &Parts<Action>) -> Result<Vec<u8>, Unwritten>
    ensures body { Writes (λ body. body.items) (option_map compact_text (bundle_data parts.now))
        result }
    ensures back { IfOk result (λ body. IsReadAs body.items net.now (Bundle parts.now)) }
{
    each_has_form(parts.as_slice());
    let members = bundle_members(alloc, parts.as_slice())?;
    Ok(object_text(alloc, members)?)
}

fn task_body(alloc: Global, net: &NetName, task: &Task) -> Result<Vec<u8>, Unwritten>
    ensures body { Writes (λ body. body.items) (task_body net.now task.now) result }
    ensures back { IfOk result (λ body. IsReadAs body.items net.now task.now) }
{
    match task {
        Task::Act(action) => action_body(alloc, net, action),
        Task::Import(file) => Ok(Vec::from_slice(alloc, file.as_slice())?),
        Task::Bundle(parts) => bundle_body(alloc, net, parts),
    }
}

/// The body of a request for the command: a JSON object of its fields, of its parts for a bundle, and for an import the
/// bytes of the file. `None` where a unit or the text of a value isn't UTF-8, so that JSON can't hold it. A desk reads
/// the command in it. The error is out of memory.
#[tactic(auto, using(crate::proofs::TextsThere::texts_there))]
pub fn command_body(alloc: Global, command: &Command) -> Result<Option<Vec<u8>>, AllocError>
    ensures body { IfOk result (λ found. option_map (λ body. body.items) found
        ≡ body_of command.now) }
    ensures texts { IfOk result (λ found. is_some found ≡ is_text_task command.now.task) }
    ensures back { IfOk result (λ found. IfSome found
        (λ body. IsReadBack body.items command.now)) }
{
    command_is_in_range(command);
    match task_body(alloc, &command.net, &command.task) {
        Ok(body) => Ok(Some(body)),
        Err(Unwritten::NotUtf8) => Ok(None),
        Err(Unwritten::Memory) => Err(AllocError),
    }
}
