//! The line of a network.
ghost use Rattle.std.specs.Prelude.{◌≡◌, IfOk};
ghost use Rattle.office_views.specs.NetList.{line_of, phase_word};

use columns::concat;
use office_types::{Head, NetName, Phase};
use std::alloc::{AllocError, Global};

/// The word for whether a network is being changed or reviewed.
pub fn phase_word(phase: &Phase) -> &'static [u8]
    ensures { result.now ≡ phase_word phase.now }
{
    match phase {
        Phase::Draft => b"draft",
        Phase::Review { .. } => b"review",
    }
}

/// The line of the network of this name and head, with this many releases: `truck can draft 0` and LF. The error is out
/// of memory.
pub fn net_line(
    alloc: Global,
    name: &NetName,
    head: &Head,
    releases: usize,
) -> Result<Vec<u8>, AllocError>
    ensures { IfOk result (λ line. line.items ≡ line_of name.now head.now releases) }
{
    let name = Vec::from_slice(alloc, name.as_bytes())?;
    let count = format!(in alloc; "{releases}")?;
    concat(
        alloc,
        &[
            &name,
            b" ",
            head.kind.word().as_bytes(),
            b" ",
            phase_word(&head.phase),
            b" ",
            count.as_bytes(),
            b"\n",
        ],
    )
}
