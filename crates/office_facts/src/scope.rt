//! What an action reads of its network, of the book and of releases.
ghost use Rattle.std.specs.Prelude.{◌≡◌};
ghost use Rattle.std.specs.List.{list_any};
ghost use Rattle.office_facts.specs.Scope.{reads_part, reads_book, scope_as, scope_of};
ghost use Rattle.office_rules.specs.Commands.{action_reads_bodies, action_reads_releases, reads_bodies, reads_releases};

use dbc_words::Name;
use office_types::{Action, BlockForm, TakeIdent, TakePgn, Task};

/// What an action reads of a network that is there.
#[derive(Drop)]
pub enum Scope<'a> {
    /// The head alone.
    Head,
    /// The head and the granted blocks.
    Parts,
    /// What the tests of a command on the message of this name read.
    Message(&'a Name),
    /// The same, and whether the message's identifier was released.
    Retiring(&'a Name),
    /// What the tests of this command read, and the numbers that are taken in the team's blocks.
    Idents(&'a TakeIdent),
    /// The same of parameter groups.
    Groups(&'a TakePgn),
    /// All of it.
    Whole,
}

/// What the action reads of a network that is there.
pub fn scope_of(action: &Action) -> Scope<'_>
    ensures { scope_as result ≡ scope_of action.now }
{
    match action {
        Action::AddNode(_) | Action::Submit | Action::Approve | Action::Reject => Scope::Head,
        Action::Grant(_) => Scope::Parts,
        Action::TakeSpn(take) => Scope::Message(&take.path.message),
        Action::TakeBits(take) => Scope::Message(&take.path.message),
        Action::SetValues(set) => Scope::Message(&set.path.message),
        Action::RemoveSignal(path) => Scope::Message(&path.message),
        Action::Retire(message) => Scope::Retiring(message),
        Action::TakeIdent(take) => Scope::Idents(take),
        Action::TakePgn(take) => Scope::Groups(take),
        Action::OpenNet(_) | Action::Release => Scope::Whole,
    }
}

/// Whether the task is an action that doesn't read the whole network.
pub fn reads_part(task: &Task) -> bool
    ensures { result ≡ reads_part task.now }
{
    match task {
        Task::Act(action) => !matches!(scope_of(action), Scope::Whole),
        Task::Import(_) | Task::Bundle(_) => false,
    }
}

/// Whether the task, where an excerpt is enough for it, also reads the book: it is `take_spn`, or a `grant` of suspect
/// parameter numbers.
pub fn reads_book(task: &Task) -> bool
    ensures { result ≡ reads_book task.now }
{
    match task {
        Task::Act(Action::Grant(grant)) => grant.block.form() == BlockForm::Spn,
        Task::Act(action) => matches!(action, Action::TakeSpn(_)),
        Task::Import(_) | Task::Bundle(_) => false,
    }
}

fn action_reads_releases(action: &Action) -> bool
    ensures { result ≡ action_reads_releases action.now }
{
    matches!(action, Action::Retire(_) | Action::Release)
}

/// Whether one of the actions depends on the releases of its network.
fn one_reads_releases(parts: &[Action]) -> bool
    ensures { result ≡ list_any action_reads_releases parts.now }
{
    parts.iter().any(|part| action_reads_releases(part))
}

/// Whether the task depends on the releases of its network.
pub fn reads_releases(task: &Task) -> bool
    ensures { result ≡ reads_releases task.now }
{
    match task {
        Task::Act(action) => action_reads_releases(action),
        Task::Import(_) => false,
        Task::Bundle(parts) => one_reads_releases(parts.as_slice()),
    }
}

fn action_reads_bodies(action: &Action) -> bool
    ensures { result ≡ action_reads_bodies action.now }
{
    matches!(action, Action::Retire(_))
}

/// Whether one of the actions depends on what is in the releases of its network.
fn one_reads_bodies(parts: &[Action]) -> bool
    ensures { result ≡ list_any action_reads_bodies parts.now }
{
    parts.iter().any(|part| action_reads_bodies(part))
}

/// Whether the task depends on what is in the releases of its network, and not only on how many there are.
pub fn reads_bodies(task: &Task) -> bool
    ensures { result ≡ reads_bodies task.now }
{
    match task {
        Task::Act(action) => action_reads_bodies(action),
        Task::Import(_) => false,
        Task::Bundle(parts) => one_reads_bodies(parts.as_slice()),
    }
}
