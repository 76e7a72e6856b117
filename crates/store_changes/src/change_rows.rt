//! The rows of each kind of change: one function for each that the tables have a row for.
ghost use Rattle.std.specs.Prelude.{◌≡◌, false, Option, Some};
ghost use Rattle.office_types.specs.Block.{is_spn};
ghost use Rattle.office_types.specs.declared.change.Change.TheVariants.{SetHead, SetBlock, SetSpnBlock, Hold, EnterSpn};
ghost use Rattle.office_types.specs.declared.change.Change.TheVariants.{SetApproval, ClearApprovals, AddRelease};
ghost use Rattle.office_types.specs.declared.state.Net.{Net as Network};
ghost use Rattle.store_rows.specs.Rows.{next_release, submitter_text};
ghost use Rattle.store_rows.specs.Written.{IsWritten};
ghost use Rattle.store_tables.specs.Frames.{Relates, WritesAndEndsIn};
ghost use Rattle.store_changes.specs.Writing.{IsWrittenToAny};

use crate::release_sheet::release_sheet;
use crate::setting::{set_approval, set_block, set_held, set_net, set_spn};
use can_id::Ident;
use dbc_write::text_of;
use office_types::{
    BlockForm, FrozenSheet, GrantedBlock, Head, NetName, Phase, SpnBlock, Team, UsableSpn,
};
use sqlite::{Alter, Error, Transaction};
use std::alloc::Global;
use store_statements::{BlockRow, FrozenRow, NetRow, delete_approvals, insert_frozen};

/// The team that requested the review, empty in draft.
fn submitter_text(phase: &Phase) -> &[u8]
    ensures { result.now ≡ submitter_text phase.now }
{
    match phase.submitter() {
        Some(team) => team.as_bytes(),
        None => &[],
    }
}

/// Writes the head of the network.
pub(crate) fn write_head<S: Alter>(
    alloc: Global,
    tx: &mut Transaction<'_, S>,
    name: &NetName,
    head: &Head,
) -> Result<(), Error>
    ensures written { Relates S.Store tx.old tx.new result
        (IsWrittenToAny name.now (SetHead head.now)) }
    ensures frame { WritesAndEndsIn S.Store tx.old tx.new result }
{
    let frame = text_of(alloc, &head.frame)?;
    let row = NetRow {
        name: name.as_bytes(),
        kind: u32::from(head.kind.number()),
        reviews: u32::from(head.reviews.count()),
        phase: u32::from(head.phase.number()),
        submitter: submitter_text(&head.phase),
        frame: &frame,
    };
    set_net(tx, &row)
}

/// Writes a block of the network's own.
pub(crate) fn write_block<S: Alter>(
    tx: &mut Transaction<'_, S>,
    name: &NetName,
    granted: &GrantedBlock,
) -> Result<(), Error>
    ensures written { Relates S.Store tx.old tx.new result
        (λ before after. (net : Option Network) → is_spn granted.now.block.form ≡ false
        → IsWritten name.now (SetBlock granted.now) net before after) }
    ensures frame { WritesAndEndsIn S.Store tx.old tx.new result }
{
    let numbers = granted.block.numbers();
    let row = BlockRow {
        net: name.as_bytes(),
        form: u32::from(granted.block.form().number()),
        first: numbers.first,
        last: numbers.last,
        team: granted.team.as_bytes(),
    };
    set_block(tx, &row)
}

/// Writes a block of suspect parameter numbers.
pub(crate) fn write_spn_block<S: Alter>(
    tx: &mut Transaction<'_, S>,
    name: &NetName,
    block: &SpnBlock,
) -> Result<(), Error>
    ensures written { Relates S.Store tx.old tx.new result
        (IsWrittenToAny name.now (SetSpnBlock block.now)) }
    ensures frame { WritesAndEndsIn S.Store tx.old tx.new result }
{
    let row = BlockRow {
        net: block.net.as_bytes(),
        form: u32::from(BlockForm::Spn.number()),
        first: block.first,
        last: block.last,
        team: block.team.as_bytes(),
    };
    set_block(tx, &row)
}

/// Writes a held identifier.
pub(crate) fn write_held<S: Alter>(
    tx: &mut Transaction<'_, S>,
    name: &NetName,
    ident: Ident,
) -> Result<(), Error>
    ensures written { Relates S.Store tx.old tx.new result (IsWrittenToAny name.now (Hold ident)) }
    ensures frame { WritesAndEndsIn S.Store tx.old tx.new result }
{
    let number = ident.to_dbc();
    set_held(tx, name.as_bytes(), number)
}

/// Writes a used suspect parameter number.
pub(crate) fn write_spn<S: Alter>(
    tx: &mut Transaction<'_, S>,
    name: &NetName,
    spn: UsableSpn,
) -> Result<(), Error>
    ensures written { Relates S.Store tx.old tx.new result
        (IsWrittenToAny name.now (EnterSpn spn)) }
    ensures frame { WritesAndEndsIn S.Store tx.old tx.new result }
{
    set_spn(tx, spn.number())
}

/// Writes the team's approval.
pub(crate) fn write_approval<S: Alter>(
    tx: &mut Transaction<'_, S>,
    name: &NetName,
    team: &Team,
) -> Result<(), Error>
    ensures written { Relates S.Store tx.old tx.new result
        (IsWrittenToAny name.now (SetApproval team.now)) }
    ensures frame { WritesAndEndsIn S.Store tx.old tx.new result }
{
    set_approval(tx, name.as_bytes(), team.as_bytes())
}

/// Removes all approvals.
pub(crate) fn clear_approvals<S: Alter>(
    tx: &mut Transaction<'_, S>,
    name: &NetName,
) -> Result<(), Error>
    ensures written { Relates S.Store tx.old tx.new result
        (IsWrittenToAny name.now ClearApprovals) }
    ensures frame { WritesAndEndsIn S.Store tx.old tx.new result }
{
    delete_approvals(tx, name.as_bytes())?;
    Ok(())
}

/// Writes the sheet as the network's next release, which has the number. An error, too, where its messages are no
/// sheet's.
pub(crate) fn write_release<S: Alter>(
    alloc: Global,
    tx: &mut Transaction<'_, S>,
    name: &NetName,
    number: u32,
    release: &FrozenSheet,
) -> Result<(), Error>
    ensures written { Relates S.Store tx.old tx.new result
        (λ before after. (net : Network) → number ≡ next_release net
        → IsWritten name.now (AddRelease release.now) (Some net) before after) }
    ensures frame { WritesAndEndsIn S.Store tx.old tx.new result }
{
    let sheet = release_sheet(alloc, release)?;
    let body = text_of(alloc, &sheet)?;
    let row = FrozenRow {
        net: name.as_bytes(),
        number,
        body: &body,
    };
    insert_frozen(tx, &row)?;
    Ok(())
}
