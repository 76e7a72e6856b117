//! Decisions of few changes.
ghost use Rattle.std.specs.Prelude.{◌≡◌, IfOk, ◌∷◌, []};
ghost use Rattle.office_types.specs.declared.reply.Reply.TheVariants.{Refused};

use base::Items;
use office_types::{Change, Decision, Refusal, Reply};
use std::alloc::{AllocError, Global};

/// The decision that changes one thing. The error is out of memory.
pub fn one_change(alloc: Global, change: Change, reply: Reply) -> Result<Decision, AllocError>
    ensures changes { IfOk result (λ d. d.changes ≡ change ∷ []) }
    ensures reply { IfOk result (λ d. d.reply ≡ reply) }
{
    let mut changes = Items::new(alloc);
    changes.push(change)?;
    Ok(Decision { changes, reply })
}

/// The decision that changes two things, in this order. The error is out of memory.
pub fn two_changes(
    alloc: Global,
    first: Change,
    second: Change,
    reply: Reply,
) -> Result<Decision, AllocError>
    ensures changes { IfOk result (λ d. d.changes ≡ first ∷ second ∷ []) }
    ensures reply { IfOk result (λ d. d.reply ≡ reply) }
{
    let mut changes = Items::new(alloc);
    changes.push(first)?;
    changes.push(second)?;
    Ok(Decision { changes, reply })
}

/// The decision that refuses the command, and so changes nothing. Takes no memory.
pub fn refusal_decision(alloc: Global, refusal: Refusal) -> Decision
    ensures changes { result.changes ≡ [] }
    ensures reply { result.reply ≡ Refused refusal }
{
    Decision {
        changes: Items::new(alloc),
        reply: Reply::Refused(refusal),
    }
}
