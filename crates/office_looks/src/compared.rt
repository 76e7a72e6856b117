//! What changed from one release to another.
ghost use Rattle.std.specs.Prelude.{◌≡◌, IfOk, option_map};
ghost use Rattle.std.specs.Option.{option_copied};
ghost use Rattle.dbc_compare.specs.List.{compare_table};
ghost use Rattle.office_looks.specs.Compared.{compared_table, numbered_sheet};
ghost use Rattle.office_looks.specs.Looks.{list_in};

use crate::looks::list_in;
use dbc_compare::{differences, differences_table};
use dbc_sheet::{Sheet, counts_of};
use office_seen::View;
use office_types::LookForm;
use std::alloc::{AllocError, Global};

/// The sheet of the number: of 0 the live one, else that of the release; `None` where there is no such release.
fn numbered_sheet(view: &View, number: u32) -> Option<&Sheet>
    ensures { option_copied result ≡ numbered_sheet number view.now }
{
    if number == 0 {
        Some(&view.sheet)
    } else {
        view.releases.as_slice().get(number as usize - 1)
    }
}

/// The differences of two sheets, in the form. The error is out of memory.
fn differences_in(
    alloc: Global,
    old: &Sheet,
    new: &Sheet,
    form: LookForm,
) -> Result<Vec<u8>, AllocError>
    ensures { IfOk result (λ text. text.items ≡ list_in form (compare_table old.now new.now)) }
{
    let found = differences(alloc, old, new)?;
    let table = differences_table(alloc, &found, counts_of(old, new))?;
    list_in(alloc, form, &table)
}

/// What changed from the release of the first number to that of the second, where 0 stands for the live sheet, in the
/// form; `None` where either isn't there. The error is out of memory.
pub(crate) fn compared_in(
    alloc: Global,
    view: &View,
    old: u32,
    new: u32,
    form: LookForm,
) -> Result<Option<Vec<u8>>, AllocError>
    ensures { IfOk result (λ text. option_map (λ t. t.items) text
        ≡ option_map (list_in form) (compared_table old new view.now)) }
{
    let Some(old) = numbered_sheet(view, old) else {
        return Ok(None);
    };
    let Some(new) = numbered_sheet(view, new) else {
        return Ok(None);
    };
    Ok(Some(differences_in(alloc, old, new, form)?))
}
