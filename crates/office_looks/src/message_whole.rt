//! All of a live message.
ghost use Rattle.std.specs.Prelude.{◌≡◌, ◌∷◌, [], IfOk, map, option_map};
ghost use Rattle.can_id.specs.J1939.{ident_fields};
ghost use Rattle.office_looks.specs.Message.{field_facts, message_facts, message_table, message_text, owned_named};
ghost use Rattle.office_looks.specs.Message.{whole_table, whole_text};
ghost use Rattle.rows.specs.Fact.{fact_of, of_maybe};

use crate::signal_rows::signal_kinds;
use can_id::{Ident, J1939, has_destination};
use columns::concat;
use dbc_sheet::{Message, Sheet};
use dbc_words::Name;
use office_seen::{View, last_release, releases_runs, since};
use office_types::Team;
use office_views::{message_chart, transmitter};
use rows::{Alignment, Cell, Column, Table, table_text};
use std::alloc::{AllocError, Global};

/// What a message has once.
pub const MESSAGE: [Column; 13] = [
    Column(*b"message     ", Alignment::Plain),
    Column(*b"number      ", Alignment::Plain),
    Column(*b"identifier  ", Alignment::Plain),
    Column(*b"pgn         ", Alignment::Plain),
    Column(*b"priority    ", Alignment::Plain),
    Column(*b"source      ", Alignment::Plain),
    Column(*b"destination ", Alignment::Plain),
    Column(*b"length      ", Alignment::Plain),
    Column(*b"transmitter ", Alignment::Plain),
    Column(*b"owner       ", Alignment::Plain),
    Column(*b"releases    ", Alignment::Plain),
    Column(*b"since       ", Alignment::Plain),
    Column(*b"comment     ", Alignment::Plain),
];

/// What a field of an identifier has, if it is there.
type Field = Option<u128>;

/// The parameter group, the priority, the source and the destination address of the identifier.
fn fields_of(ident: &Ident) -> (Field, Field, Field, Field)
    ensures { of_maybe result.0 ∷ of_maybe result.1 ∷ of_maybe result.2 ∷ of_maybe result.3 ∷ []
        ≡ field_facts (ident_fields ident.now) }
{
    match J1939::of(*ident) {
        None => (None, None, None, None),
        Some(fields) => {
            let destination = if has_destination(fields.pgn()) {
                Some(u128::from(fields.ps()))
            } else {
                None
            };
            let priority = u128::from(fields.priority());
            let source = u128::from(fields.source());
            let group = u128::from(fields.pgn());
            (Some(group), Some(priority), Some(source), destination)
        }
    }
}

/// What the message of this owner has once.
fn message_row<'a>(
    alloc: Global,
    view: &View,
    message: &'a Message,
    owner: &'a Team,
) -> Result<Vec<Cell<'a>>, AllocError>
    ensures { IfOk result (λ row. map fact_of row.items
        ≡ message_facts view.now (message.now, owner.now)) }
{
    let empty = Sheet::new(alloc);
    let before = last_release(&view.releases, &empty);
    let releases = releases_runs(alloc, &view.releases, message.number())?;
    let (group, priority, source, destination) = fields_of(&message.ident);
    Ok(vec![in alloc;
        Cell::Name(message.name.as_bytes()),
        Cell::Number(u128::from(message.number())),
        Cell::Digits(message.ident),
        Cell::Maybe(group),
        Cell::Maybe(priority),
        Cell::Maybe(source),
        Cell::Maybe(destination),
        Cell::Number(u128::from(message.length.bytes())),
        Cell::Name(transmitter(message)),
        Cell::Word(owner.as_bytes()),
        Cell::Runs(releases),
        Cell::Name(since(before, &view.sheet, message)),
        Cell::Rest(message.comment.as_bytes()),
    ]?)
}

/// The message of this owner: what it has once, and its signals.
fn whole_table<'a>(
    alloc: Global,
    view: &View,
    message: &'a Message,
    owner: &'a Team,
) -> Result<Table<'a>, AllocError>
    ensures { IfOk result (λ table. table ≡ whole_table view.now (message.now, owner.now)) }
{
    let row = message_row(alloc, view, message, owner)?;
    let signals = signal_kinds(alloc, message.signals.as_slice())?;
    Ok(Table::headed(&MESSAGE, row, signals))
}

/// The lines of the message of this owner, and its chart.
fn whole_text(
    alloc: Global,
    view: &View,
    message: &Message,
    owner: &Team,
) -> Result<Vec<u8>, AllocError>
    ensures { IfOk result (λ text. text.items ≡ whole_text view.now (message.now, owner.now)) }
{
    let table = whole_table(alloc, view, message, owner)?;
    let lines = table_text(alloc, &table)?;
    let chart = message_chart(alloc, message)?;
    concat(alloc, &[&lines, &chart])
}

/// The live message of the name, with the team that owns it.
fn owned_named<'a>(view: &'a View, name: &Name) -> Option<(&'a Message, &'a Team)>
    ensures { option_map (λ p. (p.0.now, p.1.now)) result ≡ owned_named view.now name.now }
{
    view.sheet
        .messages()
        .iter()
        .zip(view.owners.as_slice())
        .find(|pair| pair.0.name == *name)
}

/// All of the live message of the name; `None` where there is no such message. The error is out of memory.
pub(crate) fn message_table<'a>(
    alloc: Global,
    view: &'a View,
    name: &Name,
) -> Result<Option<Table<'a>>, AllocError>
    ensures { IfOk result (λ table. table ≡ message_table name.now view.now) }
{
    match owned_named(view, name) {
        None => Ok(None),
        Some((message, owner)) => {
            let table = whole_table(alloc, view, message, owner)?;
            Ok(Some(table))
        }
    }
}

/// The same as lines, with its chart after them.
pub(crate) fn message_text(
    alloc: Global,
    view: &View,
    name: &Name,
) -> Result<Option<Vec<u8>>, AllocError>
    ensures { IfOk result (λ text. option_map (λ t. t.items) text
        ≡ message_text name.now view.now) }
{
    match owned_named(view, name) {
        None => Ok(None),
        Some((message, owner)) => {
            let text = whole_text(alloc, view, message, owner)?;
            Ok(Some(text))
        }
    }
}
