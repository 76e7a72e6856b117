//! Rows of queries as the parts of a network and of the book.
ghost use Rattle.std.specs.Prelude.{◌≡◌, IfOk, pos};
ghost use Rattle.sqlite.specs.Order.{Row as Shown, column};
ghost use Rattle.sqlite.specs.declared.types.Value.TheVariants.{Int};
ghost use Rattle.office_types.specs.Block.{Range};
ghost use Rattle.office_types.specs.Command.{kind_number};
ghost use Rattle.office_types.specs.declared.command.NetKind.{NetKind as Kind};
ghost use Rattle.office_types.specs.declared.state.Phase.{Phase as PhaseModel};
ghost use Rattle.store_rows.specs.Showing.{ShowsBlock, ShowsHead, ShowsIdent, ShowsMessage, ShowsNumber, ShowsPart};
ghost use Rattle.store_rows.specs.Showing.{ShowsPhase, ShowsRange, ShowsRelease, ShowsSpnBlock, ShowsTeam};

use crate::columns::{blob_at, number_at, sheet_at, team_at, text_at};
use can_id::Ident;
use dbc_sheet::Sheet;
use office_types::{
    BlockForm, FormBlock, FrozenSheet, GrantedBlock, Head, LiveMessage, NetKind, NetName,
    PartNumbers, PartReply, Phase, ReviewCount, SpnBlock, Team,
};
use sqlite::{Error, Row};
use std::alloc::Global;
use store_bodies::message_of;

/// A value that a query shows as a row.
pub trait FromRow {
    /// What the row shows.
    ghost shows: { Self → Shown → Type 0 };

    /// The one value that the row may show. An error where it shows none, or memory ran out.
    fn from_row(alloc: Global, row: &Row) -> Result<Self, Error>
        ensures { IfOk result (λ it. (other : Self) → shows other row.now → it ≡ other) };
}

impl FromRow for LiveMessage {
    ghost shows = { ShowsMessage };

    fn from_row(alloc: Global, row: &Row) -> Result<LiveMessage, Error> {
        let owner = team_at(alloc, row, 0)?;
        let body = blob_at(row, 1)?;
        match message_of(alloc, body)? {
            Some(message) => Ok(LiveMessage { message, owner }),
            None => Err(Error::InvalidQuery),
        }
    }
}

/// The block in the first three columns.
fn block_at(row: &Row) -> Result<FormBlock, Error>
    ensures { IfOk result (λ block. (other : Range) → ShowsRange other row.now → block ≡ other) }
{
    let form = number_at(row, 0)?;
    let first = number_at(row, 1)?;
    let last = number_at(row, 2)?;
    match BlockForm::of_number(form) {
        Some(form) => match FormBlock::new(form, first, last) {
            Some(block) => Ok(block),
            None => Err(Error::InvalidQuery),
        },
        None => Err(Error::InvalidQuery),
    }
}

impl FromRow for GrantedBlock {
    ghost shows = { ShowsBlock };

    fn from_row(alloc: Global, row: &Row) -> Result<GrantedBlock, Error> {
        let block = block_at(row)?;
        let team = team_at(alloc, row, 3)?;
        Ok(GrantedBlock { block, team })
    }
}

impl FromRow for SpnBlock {
    ghost shows = { ShowsSpnBlock };

    fn from_row(alloc: Global, row: &Row) -> Result<SpnBlock, Error> {
        let name = text_at(row, 0)?;
        let first = number_at(row, 1)?;
        let last = number_at(row, 2)?;
        let team = team_at(alloc, row, 3)?;
        match NetName::of(alloc, name)? {
            Some(net) => Ok(SpnBlock {
                net,
                team,
                first,
                last,
            }),
            None => Err(Error::InvalidQuery),
        }
    }
}

impl FromRow for Ident {
    ghost shows = { ShowsIdent };

    fn from_row(_alloc: Global, row: &Row) -> Result<Ident, Error> {
        let number = number_at(row, 0)?;
        match Ident::from_dbc(number) {
            Ok(ident) => Ok(ident),
            Err(_) => Err(Error::InvalidQuery),
        }
    }
}

impl FromRow for Team {
    ghost shows = { ShowsTeam };

    fn from_row(alloc: Global, row: &Row) -> Result<Team, Error> {
        team_at(alloc, row, 0)
    }
}

impl FromRow for u32 {
    ghost shows = { ShowsNumber };

    fn from_row(_alloc: Global, row: &Row) -> Result<u32, Error> {
        number_at(row, 0)
    }
}

impl FromRow for PartReply {
    ghost shows = { ShowsPart };

    fn from_row(_alloc: Global, row: &Row) -> Result<PartReply, Error> {
        let numbers = PartNumbers {
            kind: number_at(row, 0)?,
            a: number_at(row, 1)?,
        };
        match PartReply::of_numbers(numbers) {
            Some(part) => Ok(part),
            None => Err(Error::InvalidQuery),
        }
    }
}

/// A release.
impl FromRow for Sheet {
    ghost shows = { ShowsRelease };

    fn from_row(alloc: Global, row: &Row) -> Result<Sheet, Error> {
        sheet_at(alloc, row, 1)
    }
}

impl FromRow for FrozenSheet {
    ghost shows = { ShowsRelease };

    fn from_row(alloc: Global, row: &Row) -> Result<FrozenSheet, Error> {
        let mut sheet = Sheet::from_row(alloc, row)?;
        let messages = sheet.take_messages();
        Ok(FrozenSheet::of(sheet, messages))
    }
}

/// The kind in the first column.
fn kind_at(row: &Row) -> Result<NetKind, Error>
    ensures { IfOk result (λ kind. (other : Kind) → column row.now 0 ≡ Int (pos (kind_number other))
        → kind ≡ other) }
{
    let number = number_at(row, 0)?;
    match NetKind::of_number(number) {
        Some(kind) => Ok(kind),
        None => Err(Error::InvalidQuery),
    }
}

/// How many approvals a release needs, in the second column.
fn reviews_at(row: &Row) -> Result<ReviewCount, Error>
    ensures { IfOk result (λ reviews. column row.now 1 ≡ Int (pos reviews)) }
{
    let number = number_at(row, 1)?;
    match ReviewCount::new(number) {
        Some(reviews) => Ok(reviews),
        None => Err(Error::InvalidQuery),
    }
}

/// The phase in the third and the fourth column.
fn phase_at(alloc: Global, row: &Row) -> Result<Phase, Error>
    ensures { IfOk result (λ phase. (other : PhaseModel) → ShowsPhase other row.now
        → phase ≡ other) }
{
    let number = number_at(row, 2)?;
    if number == 0 {
        return Ok(Phase::Draft);
    }
    let submitter = team_at(alloc, row, 3)?;
    match Phase::of_number(number, Some(submitter)) {
        Some(phase) => Ok(phase),
        None => Err(Error::InvalidQuery),
    }
}

impl FromRow for Head {
    ghost shows = { ShowsHead };

    fn from_row(alloc: Global, row: &Row) -> Result<Head, Error> {
        let kind = kind_at(row)?;
        let reviews = reviews_at(row)?;
        let phase = phase_at(alloc, row)?;
        let frame = sheet_at(alloc, row, 4)?;
        Ok(Head {
            kind,
            reviews,
            phase,
            frame,
        })
    }
}
