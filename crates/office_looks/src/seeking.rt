//! What has what is looked for.
ghost use Rattle.std.specs.Prelude.{◌≡◌, ◌++◌, ◌∷◌, [], IfOk, OnOk, unwrap_or};
ghost use Rattle.office_seen.specs.Owners.{last_name};
ghost use Rattle.office_looks.specs.Who.{each_form, has_digits, has_one, ident_written, is_group, is_number_of};
ghost use Rattle.office_looks.specs.Who.{is_sought, is_spn_sought, numbers_if, numbers_of, numbers_sought};

use can_id::{EXTENDED_FLAG, Ident, IdentForm, J1939, is_pgn};
use office_facts::group_of;
use office_seen::{FrozenSheets, has_number_in, last_name};
use office_types::{BlockForm, GrantedBlock, Sought};
use std::alloc::{AllocError, Global};

/// Whether the identifier has the number, or a DBC file writes it as the number.
fn has_digits(number: u32, ident: &Ident) -> bool
    ensures { result ≡ has_digits number ident.now }
{
    ident.to_dbc() == number || ident.number() == number
}

/// Whether it is a group, and the one of this number.
fn is_group(number: u32, group: Option<u32>) -> bool
    ensures { result ≡ is_group number group }
{
    match group {
        None => false,
        Some(group) => group == number,
    }
}

/// Whether a message of this identifier and name is looked for.
pub(crate) fn is_sought(sought: &Sought, ident: &Ident, name: &[u8]) -> bool
    ensures { result ≡ is_sought sought.now ident.now name.now }
{
    match sought {
        Sought::Name(wanted) => name == wanted.as_bytes(),
        Sought::Hexadecimal(number) => has_digits(*number, ident),
        Sought::Decimal(number) => {
            has_digits(*number, ident) || is_group(*number, group_of(*ident))
        }
        Sought::Group(number) => is_group(*number, group_of(*ident)),
        Sought::Spn(_) => false,
    }
}

/// Whether a held identifier is looked for, under its name in the last release that has it.
pub(crate) fn is_held_sought(sought: &Sought, releases: &FrozenSheets, ident: &Ident) -> bool
    ensures { result
        ≡ is_sought sought.now ident.now (unwrap_or (last_name releases.now ident.now) []) }
{
    match last_name(releases, ident) {
        Some(name) => is_sought(sought, ident, name.as_bytes()),
        None => is_sought(sought, ident, &[]),
    }
}

/// Whether the suspect parameter number is looked for.
pub(crate) fn is_spn_sought(sought: &Sought, number: u32) -> bool
    ensures { result ≡ is_spn_sought sought.now number }
{
    match sought {
        Sought::Decimal(wanted) => number == *wanted,
        Sought::Spn(wanted) => number == *wanted,
        _ => false,
    }
}

/// Adds the numbers of the identifier, each with the form of the blocks that may have it.
pub(crate) fn add_numbers(
    numbers: &mut Vec<(BlockForm, u32)>,
    ident: &Ident,
) -> Result<(), AllocError>
    ensures { OnOk result (numbers.new.items ≡ numbers.old.items ++ numbers_of ident.now) }
{
    match J1939::of(*ident) {
        None => numbers.push((BlockForm::Std, ident.number()))?,
        Some(fields) => {
            numbers.push((BlockForm::Ext, ident.number()))?;
            numbers.push((BlockForm::Pgn, fields.pgn()))?;
        }
    }
    Ok(())
}

/// Adds the numbers of the identifier, if there is one.
fn add_numbers_if(
    numbers: &mut Vec<(BlockForm, u32)>,
    ident: Option<Ident>,
) -> Result<(), AllocError>
    ensures { OnOk result (numbers.new.items ≡ numbers.old.items ++ numbers_if ident) }
{
    match ident {
        None => Ok(()),
        Some(ident) => add_numbers(numbers, &ident),
    }
}

/// The identifier that a DBC file writes as the number.
fn ident_written(number: u32) -> Option<Ident>
    ensures { result ≡ ident_written number }
{
    if number < EXTENDED_FLAG {
        Ident::new(IdentForm::Standard, number)
    } else {
        Ident::new(IdentForm::Extended, number - EXTENDED_FLAG)
    }
}

/// The number in each form.
fn each_form(alloc: Global, number: u32) -> Result<Vec<(BlockForm, u32)>, AllocError>
    ensures { IfOk result (λ numbers. numbers.items ≡ each_form number) }
{
    Ok(vec![in alloc;
        (BlockForm::Std, number),
        (BlockForm::Ext, number),
        (BlockForm::Pgn, number),
        (BlockForm::Spn, number),
    ]?)
}

/// The numbers that a hexadecimal one is looked for as.
fn hexadecimal_numbers(alloc: Global, number: u32) -> Result<Vec<(BlockForm, u32)>, AllocError>
    ensures { IfOk result (λ numbers. numbers.items
        ≡ numbers_sought (Sought.Hexadecimal number)) }
{
    let mut numbers = Vec::new(alloc);
    add_numbers_if(&mut numbers, ident_written(number))?;
    add_numbers_if(&mut numbers, Ident::new(IdentForm::Extended, number))?;
    Ok(numbers)
}

/// The numbers that a decimal one is looked for as.
fn decimal_numbers(alloc: Global, number: u32) -> Result<Vec<(BlockForm, u32)>, AllocError>
    ensures { IfOk result (λ numbers. numbers.items ≡ numbers_sought (Sought.Decimal number)) }
{
    if number < EXTENDED_FLAG {
        return each_form(alloc, number);
    }
    let mut numbers = Vec::new(alloc);
    add_numbers_if(&mut numbers, ident_written(number))?;
    Ok(numbers)
}

/// One number.
fn one_number(
    alloc: Global,
    form: BlockForm,
    number: u32,
) -> Result<Vec<(BlockForm, u32)>, AllocError>
    ensures { IfOk result (λ numbers. numbers.items ≡ (form, number) ∷ []) }
{
    Ok(vec![in alloc; (form, number)]?)
}

/// The numbers that are looked for, each with the form of the blocks that may have it. The error is out of memory.
pub(crate) fn numbers_sought(
    alloc: Global,
    sought: &Sought,
) -> Result<Vec<(BlockForm, u32)>, AllocError>
    ensures { IfOk result (λ numbers. numbers.items ≡ numbers_sought sought.now) }
{
    match sought {
        Sought::Name(_) => Ok(Vec::new(alloc)),
        Sought::Hexadecimal(number) => hexadecimal_numbers(alloc, *number),
        Sought::Decimal(number) => decimal_numbers(alloc, *number),
        Sought::Group(number) => one_number(alloc, BlockForm::Pgn, *number),
        Sought::Spn(number) => one_number(alloc, BlockForm::Spn, *number),
    }
}

/// Whether a block of the form may have the number: one of parameter groups has no other numbers.
pub fn is_number_of(form: BlockForm, number: u32) -> bool
    ensures { result ≡ is_number_of (form, number) }
{
    match form {
        BlockForm::Pgn => is_pgn(number),
        _ => true,
    }
}

/// Whether the block has one of the numbers.
pub(crate) fn has_one(numbers: &[(BlockForm, u32)], granted: &GrantedBlock) -> bool
    ensures { result ≡ has_one numbers.now granted.now }
{
    for (form, number) in numbers {
        if is_number_of(*form, *number) && has_number_in(*form, *number, granted) {
            return true;
        }
    }
    false
}
