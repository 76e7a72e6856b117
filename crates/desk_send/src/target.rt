//! The target at which a command is posted.
ghost use Rattle.std.specs.Prelude.{◌≡◌, ◌++◌, IfOk};
ghost use Rattle.desk_send.specs.Target.{target_of, task_target};

use office_fields::ActionKind;
use office_types::{Command, Task};
use std::alloc::{AllocError, Global};

fn joined(alloc: Global, front: &[u8], rest: &[u8]) -> Result<Vec<u8>, AllocError>
    ensures { IfOk result (λ text. text.items ≡ front.now ++ rest.now) }
{
    let mut text = Vec::from_slice(alloc, front)?;
    text.extend_from_slice(rest)?;
    Ok(text)
}

fn task_target(alloc: Global, net: &[u8], task: &Task) -> Result<Vec<u8>, AllocError>
    ensures { IfOk result (λ target. target.items ≡ task_target net.now task.now) }
{
    match task {
        Task::Act(action) => joined(alloc, b"/do/", ActionKind::of(action).word().as_bytes()),
        Task::Import(_) => joined(alloc, b"/import/", net),
        Task::Bundle(_) => joined(alloc, b"/bundle/", net),
    }
}

/// The target at which the command is posted: `/do/take_ident`, or `/import/truck` for an import into `truck`. What is
/// there does it, by the law [`posts_lead_there`](crate::posts_lead_there). The error is out of memory.
pub fn post_target(alloc: Global, command: &Command) -> Result<Vec<u8>, AllocError>
    ensures { IfOk result (λ target. target.items ≡ target_of command.now) }
{
    task_target(alloc, command.net.as_bytes(), &command.task)
}
