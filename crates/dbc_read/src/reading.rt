//! Reading a DBC text: one statement after the other, and a second time if something is defined late. If there is no
//! sheet, its definitions show the first fault. If too many texts for values leave that open, the text is read into
//! lists.
ghost use Rattle.std.specs.Prelude.{◌≡◌, ◌≤◌, Err, IfErr, IfNone, IfOk, IfSome, Ok, length, map};
ghost use Rattle.dbc_grammar.specs.Reads.{ReadsAs, ReadsOnlyAs};
ghost use Rattle.dbc_lex.specs.Fault.{UnlessMemory};
ghost use Rattle.dbc_lex.specs.declared.fault.ReadCode.TheVariants.{Memory};
ghost use Rattle.dbc_read.specs.Attaching.{in_signals};
ghost use Rattle.dbc_read.specs.Gathering.{IsOfText};
ghost use Rattle.dbc_read.specs.Passed.{start_and_keyword};
ghost use Rattle.dbc_read.specs.Reading.{HasFault, ReadsAsNothing};
ghost use Rattle.dbc_read.specs.declared.refusal.Refusal.TheVariants.{NoSheet};
ghost use Rattle.dbc_statements.specs.Division.{HasNoDivision, TokensComeFirst};

use crate::definitions::fault_of_definitions;
use crate::first_fault::{definition_fault, first_fault};
use crate::gathered::{Gathered, gathered_of};
use crate::late::gather_late;
use crate::one_by_one::{Found, gather_one_by_one};
use crate::passed::Passed;
use crate::refusal::Refusal;
use base::Items;
use dbc_grammar::texts_read_as_one_sheet;
use dbc_lex::ReadFault;
use dbc_sheet::Sheet;
use dbc_statements::{Statements, statements_of};
use std::alloc::Global;

/// What a DBC text reads as.
pub struct Reading {
    /// The sheet. It need not be clear.
    pub sheet: Sheet,
    /// The statements that are skipped, in the text's order.
    pub passed: Items<Passed>,
}

/// What the statements of the text say, gathered one by one, or `None` if they can't be gathered so. If something is
/// defined late, the text is read a second time, but not if its definitions have a fault: then `None` comes at once.
fn gather_at_once(alloc: Global, source: &[u8]) -> Result<Option<Gathered>, ReadFault>
    ensures ok { IfOk result
        (λ found. IfSome found (λ gathered. IsOfText source.now (in_signals gathered))) }
    ensures err { IfErr result (λ fault. UnlessMemory fault.code (HasNoDivision source.now)) }
    ensures tokens { TokensComeFirst source.now result }
{
    let mut statements = Statements::of(source);
    let read = gather_one_by_one(alloc, &mut statements);
    statements.token_fault()?;
    let found = read?;
    match found {
        Some(Found::All(gathered)) => Ok(Some(gathered)),
        Some(Found::Definitions(definitions)) => {
            // Where these have a fault, a second reading is of no use.
            if definition_fault(alloc, &definitions)?.is_some() {
                return Ok(None);
            }
            gather_late(alloc, definitions, &mut Statements::of(source))
        }
        None => Ok(None),
    }
}

/// What the statements of the text say. All of them are read before any is gathered.
fn gathered_text(alloc: Global, source: &[u8]) -> Result<Gathered, ReadFault>
    ensures ok { IfOk result (IsOfText source.now) }
    ensures err { IfErr result (λ fault. UnlessMemory fault.code (HasNoDivision source.now)) }
    ensures tokens { TokensComeFirst source.now result }
{
    let statements = statements_of(alloc, source)?;
    let gathered = gathered_of(alloc, statements)?;
    Ok(gathered)
}

/// The reading, or `None` if there is no sheet. The fault is out of memory.
fn reading_or_none(built: Result<Reading, Refusal>) -> Result<Option<Reading>, ReadFault>
    ensures some { IfOk result (λ found. IfSome found (λ reading. built ≡ Ok reading)) }
    ensures none { IfOk result (λ found. IfNone found (built ≡ Err NoSheet)) }
    ensures memory { IfErr result (λ fault. fault.code ≡ Memory) }
{
    match built {
        Ok(reading) => Ok(Some(reading)),
        Err(Refusal::NoSheet) => Ok(None),
        Err(Refusal::Memory) => Err(ReadFault::MEMORY),
    }
}

/// What the text reads as, or its fault. All statements are read before any is gathered.
fn read_lists(alloc: Global, source: &[u8]) -> Result<Reading, ReadFault>
    ensures reads { IfOk result
        (λ reading. ReadsAs source.now reading.sheet (map start_and_keyword reading.passed)) }
    ensures only { IfOk result (λ reading. ReadsOnlyAs source.now reading.sheet) }
    ensures none { IfErr result (λ fault. UnlessMemory fault.code (ReadsAsNothing source.now)) }
    ensures faults { IfErr result (λ fault. UnlessMemory fault.code (HasFault source.now fault)) }
    ensures tokens { TokensComeFirst source.now result }
{
    texts_read_as_one_sheet();
    let gathered = gathered_text(alloc, source)?;
    if let Some(fault) = first_fault(alloc, &gathered)? {
        return Err(fault);
    }
    match reading_or_none(gathered.into_reading_of_lists(alloc))? {
        Some(reading) => Ok(reading),
        None => unreachable!(),
    }
}

/// What the text reads as, or `None` if its statements aren't gathered one by one, or if what they say can't be in
/// one sheet.
fn read_sheet(alloc: Global, source: &[u8]) -> Result<Option<Reading>, ReadFault>
    ensures reads { IfOk result (λ found. IfSome found
        (λ reading. ReadsAs source.now reading.sheet (map start_and_keyword reading.passed))) }
    ensures only { IfOk result
        (λ found. IfSome found (λ reading. ReadsOnlyAs source.now reading.sheet)) }
    ensures err { IfErr result (λ fault. UnlessMemory fault.code (HasNoDivision source.now)) }
    ensures tokens { TokensComeFirst source.now result }
{
    texts_read_as_one_sheet();
    match gather_at_once(alloc, source)? {
        Some(gathered) => reading_or_none(gathered.into_reading(alloc)),
        None => Ok(None),
    }
}

/// What the text reads as, or its fault.
fn read_text(alloc: Global, source: &[u8]) -> Result<Reading, ReadFault>
    ensures reads { IfOk result
        (λ reading. ReadsAs source.now reading.sheet (map start_and_keyword reading.passed)) }
    ensures only { IfOk result (λ reading. ReadsOnlyAs source.now reading.sheet) }
    ensures none { IfErr result (λ fault. UnlessMemory fault.code (ReadsAsNothing source.now)) }
    ensures faults { IfErr result (λ fault. UnlessMemory fault.code (HasFault source.now fault)) }
    ensures tokens { TokensComeFirst source.now result }
{
    match read_sheet(alloc, source)? {
        Some(reading) => Ok(reading),
        None => match fault_of_definitions(alloc, source)? {
            Some(fault) => Err(fault),
            // Whether too many texts for values are a fault, only all the statements show.
            None => read_lists(alloc, source),
        },
    }
}

/// The one sheet that the text reads as, and the statements that are skipped. The grammar is that of Vector's DBC File
/// Format Documentation, in this project's dialect (docs/use/GRAMMAR.md).
///
/// A fault comes only if the text reads as no sheet, or memory ran out. It is the first fault of the first of these
/// three kinds that the text has: code 30 or 31 at an offset where no token begins; one of 32 to 39 at a token that
/// can't continue the statement, or at the text's length if it ends too early; and 20, 21, 25 or 26 at an item that
/// can't be in one sheet with those before it, or is above a limit.
pub fn read(alloc: Global, source: &[u8]) -> Result<Reading, ReadFault>
    ensures reads { IfOk result
        (λ reading. ReadsAs source.now reading.sheet (map start_and_keyword reading.passed)) }
    ensures only { IfOk result (λ reading. ReadsOnlyAs source.now reading.sheet) }
    ensures none { IfErr result (λ fault. UnlessMemory fault.code (ReadsAsNothing source.now)) }
    ensures tokens { TokensComeFirst source.now result }
    ensures within { IfErr result (λ fault. fault.at ≤ length source.now) }
{
    match read_text(alloc, source) {
        Ok(reading) => Ok(reading),
        // No fault is past the end of the text, so this changes nothing; it lets the contract promise that.
        Err(fault) => Err(ReadFault {
            code: fault.code,
            at: fault.at.min(source.len()),
        }),
    }
}

impl Drop for Reading {
    fn drop(self) {
        let Reading {
            sheet: _sheet,
            passed: _passed,
        } = self;
    }
}
