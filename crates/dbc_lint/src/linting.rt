//! All remarks on a file.
ghost use Rattle.std.specs.Prelude.{◌≡◌, IfErr, IfOk};
ghost use Rattle.dbc_lex.specs.Fault.{UnlessMemory};
ghost use Rattle.dbc_statements.specs.Division.{HasNoDivision};
ghost use Rattle.dbc_statements.specs.Statement.{statements_of};
ghost use Rattle.dbc_lint.specs.Listing.{AreRemarks};
ghost use Rattle.dbc_lint.specs.OfFile.{of_statements};

use crate::of_statement::add_of_statement;
use crate::remark::Remark;
use crate::whole::Whole;
use dbc_lex::ReadFault;
use dbc_sheet::Sheet;
use dbc_statements::{Statement, statements_of};
use std::alloc::{AllocError, Global};

/// The remarks on what the statements define, in their order.
fn remarks_of(
    alloc: Global,
    text: &[u8],
    whole: &Whole,
    statements: &[Statement],
) -> Result<Vec<Remark>, AllocError>
    ensures { IfOk result (λ remarks. remarks.items
        ≡ of_statements text.now whole.now (statements_of statements.now)) }
{
    let mut remarks = Vec::new(alloc);
    for statement in statements {
        add_of_statement(alloc, text, whole, statement, &mut remarks)?;
    }
    Ok(remarks)
}

/// The remarks on a sheet, in the order of the text that reads as the sheet; at one place in ascending order of the
/// numbers of their kinds.
///
/// The fault is out of memory, if the text reads as a sheet.
pub fn remarks_on(alloc: Global, text: &[u8], sheet: &Sheet) -> Result<Vec<Remark>, ReadFault>
    ensures ok { IfOk result (λ remarks. AreRemarks text.now sheet.now remarks.items) }
    ensures err { IfErr result (λ fault. UnlessMemory fault.code (HasNoDivision text.now)) }
{
    let statements = statements_of(alloc, text)?;
    let whole = Whole::of(alloc, sheet)?;
    let remarks = remarks_of(alloc, text, &whole, &statements)?;
    Ok(remarks)
}
