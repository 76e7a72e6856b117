//! Which names have letters on a page: teams, or nodes that send.
ghost use Rattle.std.specs.Prelude.{◌≡◌, ◌++◌, IfOk, map};
ghost use Rattle.office_page.specs.Names.{sender_of, team_of, text_of};
ghost use Rattle.page_parts.specs.Letters.{AreNamesOf};

use dbc_sheet::Sheet;
use office_types::{GrantedBlock, Team};
use page_messages::sender_of;
use page_parts::Letters;
use std::alloc::{AllocError, Global};

/// The names of the teams, in order.
pub(crate) fn team_names(alloc: Global, teams: &[Team]) -> Result<Vec<&[u8]>, AllocError>
    ensures { IfOk result (λ names. map text_of names.items ≡ teams.now) }
{
    let mut names = Vec::new(alloc);
    for team in teams {
        names.push(team.as_bytes())?;
    }
    Ok(names)
}

/// The nodes that send the messages, in their order; a name without bytes where none is named.
pub(crate) fn senders_of(alloc: Global, sheet: &Sheet) -> Result<Vec<&[u8]>, AllocError>
    ensures { IfOk result (λ names. map text_of names.items ≡ map sender_of sheet.now.messages) }
{
    let messages = sheet.messages();
    let mut names = Vec::new(alloc);
    for message in messages {
        names.push(sender_of(message))?;
    }
    Ok(names)
}

/// The owners of messages, and the teams of the blocks.
fn all_teams<'a>(
    alloc: Global,
    owners: &[&'a [u8]],
    blocks: &'a [GrantedBlock],
) -> Result<Vec<&'a [u8]>, AllocError>
    ensures { IfOk result (λ names. map text_of names.items
        ≡ map text_of owners.now ++ map team_of blocks.now) }
{
    let mut names = Vec::from_slice(alloc, owners)?;
    for granted in blocks {
        names.push(granted.team.as_bytes())?;
    }
    Ok(names)
}

/// Letters for the owners of messages, and for the teams of the blocks. The error is out of memory.
pub(crate) fn net_letters<'a>(
    alloc: Global,
    owners: &[&'a [u8]],
    blocks: &'a [GrantedBlock],
) -> Result<Letters<'a>, AllocError>
    ensures { IfOk result
        (AreNamesOf (map text_of owners.now ++ map team_of blocks.now)) }
{
    Letters::of(all_teams(alloc, owners, blocks)?)
}

/// Letters for the nodes that send. The error is out of memory.
pub(crate) fn sheet_letters<'a>(
    alloc: Global,
    senders: &[&'a [u8]],
) -> Result<Letters<'a>, AllocError>
    ensures { IfOk result (AreNamesOf (map text_of senders.now)) }
{
    Letters::of(Vec::from_slice(alloc, senders)?)
}
