//! Importing a file, which is read only where that is wanted.
ghost use Rattle.std.specs.Prelude.{◌≡◌, IfOk, MatchOption, Some, min};
ghost use Rattle.dbc_lex.specs.declared.fault.ReadCode.TheVariants.{Memory};
ghost use Rattle.office_decide.specs.Imported.{IsImportDecision, IsReadDecision, ReportsFault};

use dbc_lex::{ReadCode, ReadFault};
use dbc_read::read;
use office_import::{decide_import, decide_unread, decide_unreadable};
use office_types::{Decision, FileFault, Net, Team};
use std::alloc::{AllocError, Global};

/// The offset, or the greatest 32-bit number where it is above that.
fn offset_of(at: usize) -> u32
    ensures { result ≡ min at 4294967295 }
{
    at.min(4_294_967_295) as u32
}

/// The fault as a refusal shows it, `None` where it is that memory ran out.
fn reported_fault(fault: ReadFault) -> Option<FileFault>
    ensures { MatchOption result (fault.code ≡ Memory) (ReportsFault fault) }
{
    match fault.code {
        ReadCode::Memory => None,
        code => Some(FileFault {
            fault: code.number(),
            at: offset_of(fault.at),
        }),
    }
}

fn decide_read(alloc: Global, team: &Team, net: &Net, file: &[u8]) -> Result<Decision, AllocError>
    ensures { IfOk result (IsReadDecision team.now net.now file.now) }
{
    match read(alloc, file) {
        Ok(reading) => decide_import(alloc, team, net, &reading.sheet),
        Err(fault) => match reported_fault(fault) {
            None => Err(AllocError),
            Some(reported) => Ok(decide_unreadable(alloc, net, reported)),
        },
    }
}

/// Decides the team's import of the file with these bytes, on a network that is there. The error is out of memory.
pub(crate) fn decide_import_of(
    alloc: Global,
    team: &Team,
    net: &Net,
    file: &[u8],
) -> Result<Decision, AllocError>
    ensures { IfOk result (IsImportDecision team.now (Some net.now) file.now) }
{
    match decide_unread(alloc, net) {
        Some(decision) => Ok(decision),
        None => decide_read(alloc, team, net, file),
    }
}
