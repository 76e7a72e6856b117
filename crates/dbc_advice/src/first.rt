//! What is first amiss in a file, for who shows one sentence of it.
ghost use Rattle.std.specs.Prelude.{IfOk};
ghost use Rattle.dbc_advice.specs.First.{IsFirst, IsStatedFault};

use crate::clashes::first_unclear;
use crate::faulty_lines::keyword_at;
use crate::findings::{Next, Reported, reported_next};
use crate::found::found_at;
use crate::position::{Position, position_of};
use crate::sentences::{code_label, sentence};
use std::alloc::{AllocError, Global};

/// Something that is amiss in a file, as a line of [`explained`](crate::explained) has it.
#[derive(Drop)]
pub struct Stated {
    /// Where it is.
    pub position: Position,
    /// The code, and its name.
    pub label: Vec<u8>,
    /// What is stated of it.
    pub sentence: Vec<u8>,
}

/// What is stated of the fault.
fn stated_fault(alloc: Global, text: &[u8], reported: &Reported) -> Result<Stated, AllocError>
    ensures { IfOk result (IsStatedFault text.now reported.now) }
{
    let at = reported.fault.at.min(text.len());
    let first = reported.lines.first.min(text.len());
    let code = reported.fault.code;
    let label = code_label(alloc, code.number(), code.name())?;
    let found = found_at(text, at);
    let statement = keyword_at(text, first);
    let sentence = sentence(
        alloc,
        code,
        found,
        &reported.wanted,
        statement,
        reported.hint,
    )?;
    Ok(Stated {
        position: position_of(text, at),
        label,
        sentence,
    })
}

/// What is first amiss in the file: the fault of one that can't be read, or why the first message that isn't clear
/// isn't; `None` where all are clear. It is what the first line of [`explained`](crate::explained) says of such a file,
/// but no further fault is looked for. The error is out of memory.
pub fn first_stated(alloc: Global, text: &[u8]) -> Result<Option<Stated>, AllocError>
    ensures { IfOk result (IsFirst text.now) }
{
    match reported_next(alloc, text)? {
        Next::Reads(reading) => first_unclear(alloc, text, &reading.sheet),
        Next::Fault(reported) => Ok(Some(stated_fault(alloc, text, &reported)?)),
    }
}
