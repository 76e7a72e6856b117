//! A network's head with one thing changed.
ghost use Rattle.std.specs.Prelude.{◌≡◌, IfOk};

use base::Copying;
use dbc_sheet::Sheet;
use office_types::{Head, Phase};
use std::alloc::{AllocError, Global};

/// A copy of the head, in this phase. The error is out of memory.
pub fn head_in(alloc: Global, head: &Head, phase: Phase) -> Result<Head, AllocError>
    ensures { IfOk result (λ changed. changed ≡ record head.now { phase = phase }) }
{
    Ok(Head {
        kind: head.kind,
        reviews: head.reviews,
        phase,
        frame: head.frame.duplicate(alloc)?,
    })
}

/// A copy of the head, with this frame. The error is out of memory.
pub fn head_with(alloc: Global, head: &Head, frame: Sheet) -> Result<Head, AllocError>
    ensures { IfOk result (λ changed. changed ≡ record head.now { frame = frame }) }
{
    Ok(Head {
        kind: head.kind,
        reviews: head.reviews,
        phase: head.phase.duplicate(alloc)?,
        frame,
    })
}
