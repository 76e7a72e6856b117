//! The numbers of identifiers, as commands that give out a number compare them.
ghost use Rattle.std.specs.Prelude.{◌≡◌};
ghost use Rattle.std.specs.List.{list_any};
ghost use Rattle.can_id.specs.Ident.{ident_of};
ghost use Rattle.office_rules.specs.Facts.{group_of, number_in, same_ident};

use can_id::{Ident, IdentForm, J1939};

/// The identifier's number, if it has the form.
pub fn number_in(form: IdentForm, ident: Ident) -> Option<u32>
    ensures { result ≡ number_in form ident }
{
    match (form, ident) {
        (IdentForm::Standard, Ident::Std(id)) => Some(u32::from(id.number())),
        (IdentForm::Extended, Ident::Ext(id)) => Some(id.number()),
        _ => None,
    }
}

/// The identifier's parameter group, if it has 29 bits.
pub fn group_of(ident: Ident) -> Option<u32>
    ensures { result ≡ group_of ident }
{
    match J1939::of(ident) {
        None => None,
        Some(fields) => Some(fields.pgn()),
    }
}

/// Whether the identifier has the form and the number, which may be too great for the form.
pub fn ident_is(ident: Ident, form: IdentForm, number: u32) -> bool
    ensures { result ≡ same_ident ident (ident_of form number) }
{
    match (form, ident) {
        (IdentForm::Standard, Ident::Std(id)) => u32::from(id.number()) == number,
        (IdentForm::Extended, Ident::Ext(id)) => id.number() == number,
        _ => false,
    }
}

/// Whether one of the identifiers has the form and the number, which may be too great for the form.
pub fn has_ident(idents: &[Ident], form: IdentForm, number: u32) -> bool
    ensures { result ≡ list_any (λ i. same_ident i (ident_of form number)) idents.now }
{
    idents.iter().any(|ident| ident_is(*ident, form, number))
}
