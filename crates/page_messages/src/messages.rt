//! The table of the messages.
ghost use Rattle.std.specs.Prelude.{◌≡◌, ◌++◌, IfOk, OnOk, map};
ghost use Rattle.std.specs.Option.{option_copied};
ghost use Rattle.markup.specs.Writing.{Becomes, adding, beginning};
ghost use Rattle.markup.specs.declared.tag.Tag.TheVariants as tag;
ghost use Rattle.page_messages.specs.Messages.{columns_of, groups_html, has_other, heads_of, ident_cell, is_other};
ghost use Rattle.page_messages.specs.Messages.{message_row, message_rows, number_cells, only, people_cells};
ghost use Rattle.page_messages.specs.Messages.{releases_cell, releases_html, row_attributes, sender_cell, state_cell};
ghost use Rattle.page_messages.specs.Messages.{state_html, with_message_table, with_messages};

use crate::names::{put_message_head, sender_of};
use crate::used::used_bits;
use can_id::{Ident, J1939};
use dbc_sheet::Message;
use markup::{Attribute, Markup, Piece, Tag};
use page_parts::{
    Mark, Marks, State, Subject, open_part, open_table, open_wide, put_bad, put_ident_hex,
    put_number_cell, put_runs,
};
use std::alloc::{AllocError, Global};

/// Which columns are there that aren't always.
#[derive(Clone, Copy)]
struct Columns {
    /// Parameter groups and source addresses.
    groups: bool,
    /// The teams that own the messages.
    owners: bool,
    /// The releases that have them.
    releases: bool,
    /// What has become of them since the last release.
    states: bool,
}

/// Whether it is another message than in the last release.
fn is_other(state: State) -> bool
    ensures { result ≡ is_other state }
{
    match state {
        State::Same => false,
        State::New | State::Changed | State::Breaking(_) => true,
    }
}

/// Whether one of the messages is another one than in the last release.
fn has_other(marks: &[Mark<'_>]) -> bool
    ensures { result ≡ has_other marks.now }
{
    marks.iter().any(|mark| is_other(mark.state))
}

/// The columns of the table.
fn columns_of(subject: &Subject<'_>, marks: &Marks<'_>) -> Columns
    ensures { result ≡ columns_of subject.now marks.now }
{
    Columns {
        groups: subject.is_j1939,
        owners: !subject.is_alone,
        releases: marks.has_releases,
        states: has_other(&marks.marks),
    }
}

/// Adds heads, if their columns are there.
fn push_heads(
    heads: &mut Vec<&'static [u8]>,
    are_there: bool,
    more: &[&'static [u8]],
) -> Result<(), AllocError>
    ensures { OnOk result (map (λ head. head.now) heads.new.items
        ≡ map (λ head. head.now) heads.old.items ++ only are_there (map (λ head. head.now) more.now)) }
{
    if are_there {
        heads.extend_from_slice(more)?;
    }
    Ok(())
}

/// The heads of the columns.
fn heads_of(alloc: Global, columns: Columns) -> Result<Vec<&'static [u8]>, AllocError>
    ensures { IfOk result (λ heads. map (λ head. head.now) heads.items ≡ heads_of columns) }
{
    let mut heads: Vec<&'static [u8]> = Vec::new(alloc);
    push_heads(&mut heads, true, &[b"Message", b"Number", b"DBC number"])?;
    push_heads(&mut heads, columns.groups, &[b"PGN", b"SA"])?;
    push_heads(
        &mut heads,
        true,
        &[b"Bytes", b"Bits used", b"Signals", b"Sent by"],
    )?;
    push_heads(&mut heads, columns.owners, &[b"Owner"])?;
    push_heads(&mut heads, columns.releases, &[b"Releases"])?;
    push_heads(&mut heads, columns.states, &[b"State"])?;
    Ok(heads)
}

/// Adds the cells of the parameter group and the source address, if their columns are there; they are empty of a message
/// of 11 bits.
fn put_group_cells(page: &mut Markup, columns: Columns, message: &Message)
    ensures { Becomes page.new (adding (groups_html columns message.now) page.old) }
{
    if !columns.groups {
        return;
    }
    match J1939::of(message.ident) {
        Some(fields) => {
            put_number_cell(page, u64::from(fields.pgn()));
            put_number_cell(page, u64::from(fields.source()));
        }
        None => {
            page.element(Tag::Cell, &[], &[]);
            page.element(Tag::Cell, &[], &[]);
        }
    }
}

/// Adds the cell of an identifier.
fn put_ident_cell(page: &mut Markup, ident: &Ident)
    ensures { Becomes page.new (adding (ident_cell ident.now) page.old) }
{
    page.open(Tag::Cell, &[]);
    page.open(Tag::Code, &[]);
    put_ident_hex(page, ident);
    page.close();
    page.close();
}

/// Adds the cells of a message's numbers.
fn put_number_cells(page: &mut Markup, columns: Columns, message: &Message)
    ensures { Becomes page.new (adding (number_cells columns message.now) page.old) }
{
    put_ident_cell(page, &message.ident);
    put_number_cell(page, u64::from(message.number()));
    put_group_cells(page, columns, message);
    put_number_cell(page, u64::from(message.length.bytes()));
    put_number_cell(page, used_bits(message) as u64);
    put_number_cell(page, message.signals.as_slice().len() as u64);
}

/// Adds the cell of the node that sends the message; of a sheet alone there is none, since it is the owner.
fn put_sender_cell(page: &mut Markup, subject: &Subject<'_>, message: &Message)
    ensures { Becomes page.new (adding (sender_cell subject.now message.now) page.old) }
{
    if !subject.is_alone {
        page.element(Tag::Cell, &[], sender_of(message));
    }
}

/// Adds the cells of the node that sends the message at the index and, in a network, of the team that owns it.
fn put_people_cells(page: &mut Markup, subject: &Subject<'_>, index: usize, message: &Message)
    ensures { Becomes page.new
        (adding (people_cells subject.now index message.now) page.old) }
{
    put_sender_cell(page, subject, message);
    page.open(Tag::Cell, &[]);
    subject.letters.put_badge(page, subject.owner_at(index));
    page.close();
}

/// Adds what has become of a message.
fn put_state(page: &mut Markup, state: State)
    ensures { Becomes page.new (adding (state_html state) page.old) }
{
    match state {
        State::Same => {}
        State::New => page.element(Tag::Emphasis, &[], b"new"),
        State::Changed => page.text(b"changed"),
        State::Breaking(count) => put_bad(page, count, b"breaking"),
    }
}

/// Adds the releases that have the message.
fn put_releases(page: &mut Markup, mark: Option<&Mark<'_>>)
    ensures { Becomes page.new (adding (releases_html (option_copied mark.entry)) page.old) }
{
    if let Some(mark) = mark {
        put_runs(page, &mark.releases);
    }
}

/// Adds the cell of the releases that have the message at the index, if its column is there.
fn put_releases_cell(page: &mut Markup, columns: Columns, marks: &Marks<'_>, index: usize)
    ensures { Becomes page.new (adding (releases_cell columns marks.now index) page.old) }
{
    if !columns.releases {
        return;
    }
    page.open(Tag::Cell, &[]);
    put_releases(page, marks.at(index));
    page.close();
}

/// Adds the cell of what has become of the message at the index, if its column is there.
fn put_state_cell(page: &mut Markup, columns: Columns, marks: &Marks<'_>, index: usize)
    ensures { Becomes page.new (adding (state_cell columns marks.now index) page.old) }
{
    if !columns.states {
        return;
    }
    page.open(Tag::Cell, &[]);
    put_state(page, marks.state_at(index));
    page.close();
}

/// Begins the row of the message.
fn open_message_row(page: &mut Markup, message: &Message)
    ensures { Becomes page.new (beginning tag.Row (row_attributes message.now) page.old) }
{
    let id = &[Piece::Text(b"t-"), Piece::Text(message.name.as_bytes())];
    page.open(Tag::Row, &[Attribute::Id(id)]);
}

/// Adds the row of the message at the index.
fn put_message_row(
    page: &mut Markup,
    subject: &Subject<'_>,
    marks: &Marks<'_>,
    columns: Columns,
    index: usize,
    message: &Message,
)
    ensures { Becomes page.new
        (adding (message_row subject.now marks.now columns (index, message.now)) page.old) }
{
    open_message_row(page, message);
    put_message_head(page, message);
    put_number_cells(page, columns, message);
    put_people_cells(page, subject, index, message);
    put_releases_cell(page, columns, marks, index);
    put_state_cell(page, columns, marks, index);
    page.close();
}

/// Adds a row for each message.
fn put_message_rows(page: &mut Markup, subject: &Subject<'_>, marks: &Marks<'_>, columns: Columns)
    ensures { Becomes page.new
        (adding (message_rows subject.now marks.now columns) page.old) }
{
    for (index, message) in subject.messages().iter().enumerate() {
        put_message_row(page, subject, marks, columns, index, message);
    }
}

/// Adds the table of the messages.
fn put_message_table(
    alloc: Global,
    page: &mut Markup,
    subject: &Subject<'_>,
    marks: &Marks<'_>,
) -> Result<(), AllocError>
    ensures { OnOk result
        (Becomes page.new (with_message_table subject.now marks.now page.old)) }
{
    let columns = columns_of(subject, marks);
    let heads = heads_of(alloc, columns)?;
    open_wide(page, &[Piece::Text(b"Messages")]);
    open_table(page, b"nums", &heads);
    put_message_rows(page, subject, marks, columns);
    page.close();
    page.close();
    page.close();
    Ok(())
}

/// Adds the part with the table of the messages. The error is out of memory.
pub fn put_messages(
    alloc: Global,
    page: &mut Markup,
    subject: &Subject<'_>,
    marks: &Marks<'_>,
) -> Result<(), AllocError>
    ensures { OnOk result (Becomes page.new (with_messages subject.now marks.now page.old)) }
{
    open_part(page, b"messages", b"Messages", None);
    if subject.messages().is_empty() {
        page.element(Tag::Paragraph, &[], b"No message yet.");
        page.close();
        return Ok(());
    }
    put_message_table(alloc, page, subject, marks)?;
    page.close();
    Ok(())
}
