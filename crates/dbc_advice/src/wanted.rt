//! What may be where a fault is.
ghost use Rattle.std.specs.Prelude.{◌≡◌, All, IfOk};
ghost use Rattle.std.specs.Bool.{OnTrue};
ghost use Rattle.dbc_advice.specs.GoesOn.{IsGoingOn};
ghost use Rattle.dbc_advice.specs.MayBeThere.{MayBeThere, continued};

use crate::candidate::{CANDIDATES, Candidate};
use crate::pieces::goes_on;
use columns::concat;
use std::alloc::{AllocError, Global};

/// The text with a space and a token of the kind after it.
fn continued(alloc: Global, before: &[u8], candidate: Candidate) -> Result<Vec<u8>, AllocError>
    ensures { IfOk result (λ text. text.items ≡ continued before.now candidate) }
{
    let sample = format!(in alloc; " {}", candidate.sample())?;
    concat(alloc, &[before, sample.as_bytes()])
}

/// Whether a token of the kind may come after the text.
fn may_be_there(alloc: Global, before: &[u8], candidate: Candidate) -> Result<bool, AllocError>
    ensures { IfOk result (IsGoingOn (continued before.now candidate)) }
{
    let text = continued(alloc, before, candidate)?;
    goes_on(alloc, &text)
}

/// Whether a token of the kind may come after the text, and none of these kinds shows that already.
fn is_wanted(
    alloc: Global,
    before: &[u8],
    candidate: Candidate,
    wanted: &[Candidate],
) -> Result<bool, AllocError>
    ensures { IfOk result (λ is. OnTrue is (MayBeThere before.now candidate)) }
{
    if is_reported(candidate, wanted) {
        Ok(false)
    } else {
        may_be_there(alloc, before, candidate)
    }
}

/// Whether one of these shows the kind too.
fn is_reported(candidate: Candidate, wanted: &[Candidate]) -> bool {
    wanted.iter().any(|other| candidate.is_reported_by(*other))
}

/// The kinds of which a token may come after the text, in the table's order, without those that another one shows too.
/// The error is out of memory.
pub(crate) fn wanted_after(alloc: Global, before: &[u8]) -> Result<Vec<Candidate>, AllocError>
    ensures { IfOk result (λ wanted. All (MayBeThere before.now) wanted.items) }
{
    let mut wanted = Vec::new(alloc);
    for candidate in CANDIDATES.iter() {
        let is = is_wanted(alloc, before, *candidate, &wanted)?;
        if is {
            wanted.push(*candidate)?;
        }
    }
    Ok(wanted)
}
