//! The live messages of a network.
ghost use Rattle.std.specs.Prelude.{◌≡◌, ◌≤◌, ◌++◌, ◌∷◌, [], length, map, IfOk, OnOk};
ghost use Rattle.std.specs.Option.{option_copied};
ghost use Rattle.dbc_sheet.specs.declared.message.Message.{Message};
ghost use Rattle.office_seen.specs.Since.{last_release};
ghost use Rattle.office_seen.specs.View.{owned};
ghost use Rattle.office_looks.specs.Messages.{is_wanted, message_row, messages_table, signals_of, wanted};

use dbc_sheet::{Message, Sheet};
use office_seen::{View, last_release, releases_runs, since};
use office_types::Team;
use office_views::{MESSAGE_TOTALS, transmitter};
use rows::{Alignment, Cell, Column, Rows, Table};
use std::alloc::{AllocError, Global};

/// The columns of a live message: those of the table of a sheet, with its owner, releases and change put in.
pub const MESSAGES: [Column; 8] = [
    Column(*b"identifier  ", Alignment::Plain),
    Column(*b"length      ", Alignment::Right(4)),
    Column(*b"signals     ", Alignment::Right(4)),
    Column(*b"owner       ", Alignment::Left(12)),
    Column(*b"releases    ", Alignment::Right(5)),
    Column(*b"since       ", Alignment::Left(7)),
    Column(*b"transmitter ", Alignment::Plain),
    Column(*b"message     ", Alignment::Plain),
];

/// Adds the row of a live message of this owner, where the sheet before is that of the last release. The error is out of
/// memory.
pub(crate) fn push_message<'a>(
    alloc: Global,
    rows: &mut Rows<'a>,
    view: &'a View,
    before: &Sheet,
    message: &'a Message,
    owner: &'a Team,
) -> Result<(), AllocError>
    requires { before.now ≡ last_release view.now.releases }
    ensures { OnOk result
        (rows.new ≡ rows.old ++ message_row view.now (message.now, owner.now) ∷ []) }
{
    let releases = releases_runs(alloc, &view.releases, message.number())?;
    let cells = vec![in alloc;
        Cell::Ident(Some(message.ident)),
        Cell::Number(u128::from(message.length.bytes())),
        Cell::Number(message.signals.as_slice().len() as u128),
        Cell::Word(owner.as_bytes()),
        Cell::Runs(releases),
        Cell::Name(since(before, &view.sheet, message)),
        Cell::Name(transmitter(message)),
        Cell::Name(message.name.as_bytes()),
    ]?;
    rows.push(cells)
}

/// Whether a message of this owner is the team's; without a team any is wanted.
fn is_wanted(team: Option<&Team>, owner: &Team) -> bool
    ensures { (m : Message) → result ≡ is_wanted (option_copied team.entry) (m, owner.now) }
{
    match team {
        None => true,
        Some(team) => owner == team,
    }
}

/// How many live messages there are, each with an owner.
pub(crate) fn owned_count(view: &View) -> usize
    ensures all { result ≡ length (owned view.now) }
    ensures messages { result ≤ length view.now.sheet.messages }
    ensures owners { result ≤ length view.now.owners }
{
    let messages = view.sheet.messages().len();
    let owners = view.owners.as_slice().len();
    if messages < owners { messages } else { owners }
}

/// The rows of the live messages that are wanted, and how many signals these have.
fn message_rows<'a>(
    alloc: Global,
    view: &'a View,
    team: Option<&Team>,
) -> Result<(Rows<'a>, usize), AllocError>
    ensures rows { IfOk result (λ found. found.0
        ≡ map (message_row view.now) (wanted (option_copied team.entry) view.now)) }
    ensures signals { IfOk result
        (λ found. found.1 ≡ signals_of (wanted (option_copied team.entry) view.now)) }
{
    let empty = Sheet::new(alloc);
    let before = last_release(&view.releases, &empty);
    let messages = view.sheet.messages();
    let owners = view.owners.as_slice();
    let mut rows = Rows::new(alloc);
    let mut signals = 0usize;
    for index in 0..owned_count(view) {
        let owner = &owners[index];
        if is_wanted(team, owner) {
            let message = &messages[index];
            push_message(alloc, &mut rows, view, before, message, owner)?;
            signals += message.signals.as_slice().len();
        }
    }
    Ok((rows, signals))
}

/// The live messages with their owners and releases: all, or those of one team. The error is out of memory.
#[tactic(auto, using(crate::proofs::Owning::rows_counted))]
pub(crate) fn messages_table<'a>(
    alloc: Global,
    view: &'a View,
    team: Option<&Team>,
) -> Result<Table<'a>, AllocError>
    ensures { IfOk result (λ table. table ≡ messages_table (option_copied team.entry) view.now) }
{
    let (rows, signals) = message_rows(alloc, view, team)?;
    let totals = vec![in alloc;
        Cell::Number(rows.count() as u128),
        Cell::Number(signals as u128),
    ]?;
    Table::plain(alloc, &MESSAGES, rows, &MESSAGE_TOTALS, totals)
}
