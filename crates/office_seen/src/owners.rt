//! Whose a number is, and what it was called last.
ghost use Rattle.std.specs.Prelude.{◌≡◌};
ghost use Rattle.std.specs.Option.{option_copied};
ghost use Rattle.office_seen.specs.Owners.{last_name, team_at, team_of};

use crate::frozen::FrozenSheets;
use crate::granted::has_number_in;
use can_id::{Ident, J1939};
use dbc_words::Name;
use office_types::{BlockForm, GrantedBlock, Team};

/// The team of the first block that has the number of the form.
pub fn team_at(blocks: &[GrantedBlock], form: BlockForm, number: u32) -> Option<&Team>
    ensures { option_copied result ≡ team_at blocks.now form number }
{
    for granted in blocks {
        if has_number_in(form, number, granted) {
            return Some(&granted.team);
        }
    }
    None
}

/// The team of the block of the identifier's parameter group, else of its number; `None` where no block has either.
pub fn team_of<'a>(blocks: &'a [GrantedBlock], ident: &Ident) -> Option<&'a Team>
    ensures { option_copied result ≡ team_of blocks.now ident.now }
{
    match J1939::of(*ident) {
        None => team_at(blocks, BlockForm::Std, ident.number()),
        Some(fields) => match team_at(blocks, BlockForm::Pgn, fields.pgn()) {
            Some(team) => Some(team),
            None => team_at(blocks, BlockForm::Ext, ident.number()),
        },
    }
}

/// The name of the message of the identifier in the last release that has one; `None` where none has.
pub fn last_name<'a>(releases: &'a FrozenSheets, ident: &Ident) -> Option<&'a Name>
    ensures { option_copied result ≡ last_name releases.now ident.now }
{
    let sheets = releases.as_slice();
    for index in 0..sheets.len() {
        if let Some(message) = sheets[sheets.len() - 1 - index].find(ident.to_dbc()) {
            return Some(&message.name);
        }
    }
    None
}
