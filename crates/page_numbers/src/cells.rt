//! The cells of the map.
ghost use Rattle.std.specs.Prelude.{◌≡◌, ◌++◌, [], ℕ, List, IfOk, OnOk, map, take, unwrap_or};
ghost use Rattle.std.specs.Option.{option_copied};
ghost use Rattle.markup.specs.Html.{words};
ghost use Rattle.markup.specs.Writing.{Becomes, adding, beginning};
ghost use Rattle.markup.specs.declared.tag.Tag.TheVariants as tag;
ghost use Rattle.office_seen.specs.Owners.{team_at};
ghost use Rattle.office_types.specs.Free.{is_taken};
ghost use Rattle.page_numbers.specs.CellHtml.{IsCellHtml, IsCellOf, IsLater, IsLiveCell, IsNamed, IsTitle};
ghost use Rattle.page_numbers.specs.CellHtml.{free_cell, held_cell, link_to, more_words, part_kind};
ghost use Rattle.page_numbers.specs.Cells.{IsCell};
ghost use Rattle.page_numbers.specs.Charts.{has};
ghost use Rattle.page_numbers.specs.Elements.{ArePieces, IsMoreBy};
ghost use Rattle.page_numbers.specs.Index.{live_at, message_at};

use crate::charts::Chart;
use crate::index::{FormIndex, NumberedMessage};
use markup::{Attribute, Markup, Piece, Tag};
use office_seen::team_at;
use office_types::{GrantedBlock, Team};
use page_parts::{Letters, Shade};
use std::alloc::{AllocError, Global};

/// How many messages of a number are named.
const NAMED: usize = 4;

/// What a number is.
#[derive(Clone, Copy)]
pub(crate) enum Cell<'c, 'a> {
    /// Messages have it: the first of them, and the others.
    Live(&'c NumberedMessage<'a>, &'c [NumberedMessage<'a>]),
    /// It is held for good, and in the block of this team, if in one.
    Held(Option<&'c Team>),
    /// It is in the block of this team, and may be given out.
    Free(&'c Team),
    /// It is nobody's.
    Nobody,
}

/// What the number of the chart is, where no message has it.
fn unused_at<'c, 'a>(
    chart: Chart,
    index: &'c FormIndex<'a>,
    blocks: &'c [GrantedBlock],
    number: u32,
) -> Cell<'c, 'a>
    ensures { IsCell [] (is_taken number index.now.held)
        (team_at blocks.now index.now.live.form number) (has chart number) result }
{
    let team = team_at(blocks, index.live.form(), number);
    if index.held.has(number) {
        return Cell::Held(team);
    }
    match team {
        None => Cell::Nobody,
        Some(team) => {
            if chart.has(number) {
                Cell::Free(team)
            } else {
                Cell::Nobody
            }
        }
    }
}

/// What the number of the chart is, where these blocks are all that may have it.
fn cell_at<'c, 'a>(
    chart: Chart,
    index: &'c FormIndex<'a>,
    blocks: &'c [GrantedBlock],
    number: u32,
) -> Cell<'c, 'a>
    ensures { IsCell (live_at index.now.live.messages index.now.live.form number)
        (is_taken number index.now.held) (team_at blocks.now index.now.live.form number)
        (has chart number) result }
{
    match index.live.places(number) {
        [first, others @ ..] => Cell::Live(first, others),
        [] => unused_at(chart, index, blocks, number),
    }
}

// ---- of messages

/// Adds a message and its owner to a title.
fn add_named<'a>(title: &mut Vec<Piece<'a>>, place: &NumberedMessage<'a>) -> Result<(), AllocError>
    ensures { OnOk result ((named : List ℕ) × (IsNamed (message_at place.now) named
        × (words title.new.items ≡ words title.old.items ++ named))) }
{
    title.extend_from_slice(&[
        Piece::Text(place.name()),
        Piece::Text(b" ("),
        Piece::Text(place.owner()),
        Piece::Text(b")"),
    ])?;
    Ok(())
}

/// Adds messages and their owners to a title, each after a comma.
fn add_later<'a>(
    title: &mut Vec<Piece<'a>>,
    places: &[NumberedMessage<'a>],
) -> Result<(), AllocError>
    ensures { OnOk result ((later : List ℕ)
        × (ArePieces IsLater (map message_at places.now) later
        × (words title.new.items ≡ words title.old.items ++ later))) }
{
    for place in places {
        title.push(Piece::Text(b", "))?;
        add_named(title, place)?;
    }
    Ok(())
}

/// Adds to a title how many more messages there are, if any.
fn add_more(title: &mut Vec<Piece<'_>>, more: usize) -> Result<(), AllocError>
    ensures { OnOk result (words title.new.items ≡ words title.old.items ++ more_words more) }
{
    if more != 0 {
        let more = u32::try_from(more).unwrap_or(u32::MAX);
        title.extend_from_slice(&[
            Piece::Text(b" and "),
            Piece::Number(more),
            Piece::Text(b" more"),
        ])?;
    }
    Ok(())
}

/// The first places that are named after another.
fn named_of<'c, 'a>(others: &'c [NumberedMessage<'a>]) -> &'c [NumberedMessage<'a>]
    ensures { result.now ≡ take 3 others.now }
{
    if others.len() > NAMED - 1 {
        return &others[..NAMED - 1];
    }
    others
}

/// The number, and the messages that have it.
fn title_of<'a>(
    alloc: Global,
    number: u32,
    first: &NumberedMessage<'a>,
    others: &[NumberedMessage<'a>],
) -> Result<Vec<Piece<'a>>, AllocError>
    ensures { IfOk result (λ title. IsTitle number (message_at first.now)
        (map message_at others.now) (words title.items)) }
{
    let mut title = Vec::new(alloc);
    title.extend_from_slice(&[Piece::Number(number), Piece::Text(b" ")])?;
    add_named(&mut title, first)?;
    add_later(&mut title, named_of(others))?;
    add_more(&mut title, others.len().saturating_sub(NAMED - 1))?;
    Ok(title)
}

/// Adds the letters of those that own the messages; of three or more the first one and a sign.
fn put_owners(
    page: &mut Markup,
    letters: &Letters<'_>,
    first: &NumberedMessage<'_>,
    others: &[NumberedMessage<'_>],
) {
    letters.put_letter_or(page, first.owner(), false, "\u{b7}");
    let Some(second) = others.iter().find(|place| place.owner() != first.owner()) else {
        return;
    };
    if others.iter().any(|place| place.owner() != first.owner()
        && place.owner() != second.owner())
    {
        page.text(b"+");
    } else {
        letters.put_letter_or(page, second.owner(), false, "\u{b7}");
    }
}

/// The letters of those that own the messages.
fn owners_of(
    alloc: Global,
    letters: &Letters<'_>,
    first: &NumberedMessage<'_>,
    others: &[NumberedMessage<'_>],
) -> Markup {
    let mut part = Markup::new(alloc);
    put_owners(&mut part, letters, first, others);
    part
}

/// What the link of a cell leads to: the message, or the row of the first one.
fn part_kind(others: &[NumberedMessage<'_>]) -> &'static [u8]
    ensures { result.now ≡ part_kind (map message_at others.now) }
{
    match others {
        [] => b"m-",
        [_, ..] => b"t-",
    }
}

/// Begins a link to the part of this kind and name, with this title. One `close` ends it.
fn open_link<'a>(page: &mut Markup, kind: &'a [u8], name: &'a [u8], title: &'a [Piece<'a>])
    ensures { Becomes page.new
        (beginning tag.Link (link_to kind.now name.now (words title.now)) page.old) }
{
    page.open(
        Tag::Link,
        &[
            Attribute::ToPart(&[Piece::Text(kind), Piece::Text(name)]),
            Attribute::Title(title),
            Attribute::Label(title),
        ],
    );
}

/// Adds a cell with a link to its message, or to the row of the first of them.
fn put_live<'a>(
    alloc: Global,
    page: &mut Markup,
    letters: &Letters<'_>,
    number: u32,
    first: &NumberedMessage<'a>,
    others: &[NumberedMessage<'a>],
) -> Result<(), AllocError>
    ensures { OnOk result (IsMoreBy (IsLiveCell number (message_at first.now)
        (map message_at others.now)) page.new page.old) }
{
    let title = title_of(alloc, number, first, others)?;
    let class = letters.class_of(Shade::Live, first.owner());
    page.open(Tag::Cell, &[Attribute::Class(class)]);
    open_link(page, part_kind(others), first.name(), &title);
    page.put(owners_of(alloc, letters, first, others));
    page.close();
    page.close();
    Ok(())
}

// ---- of no message

/// Adds a cell of a held number in the block of this team.
fn put_held(page: &mut Markup, letters: &Letters<'_>, number: u32, team: &[u8])
    ensures { Becomes page.new (adding (held_cell letters.now number team.now) page.old) }
{
    let class = letters.class_of(Shade::Held, team);
    page.open(
        Tag::Cell,
        &[
            Attribute::Class(class),
            Attribute::Title(&[Piece::Number(number), Piece::Text(b" held")]),
        ],
    );
    letters.put_letter_or(page, team, false, "\u{d7}");
    page.close();
}

/// Adds a cell of a held number in the block of this team, if in one.
fn put_held_of(page: &mut Markup, letters: &Letters<'_>, number: u32, team: Option<&Team>)
    ensures { Becomes page.new (adding (held_cell letters.now number
        (unwrap_or (option_copied team.entry) [])) page.old) }
{
    match team {
        Some(team) => put_held(page, letters, number, team.as_bytes()),
        None => put_held(page, letters, number, b""),
    }
}

/// Adds a cell of a free number in the block of this team.
fn put_free(page: &mut Markup, letters: &Letters<'_>, team: &[u8])
    ensures { Becomes page.new (adding (free_cell letters.now team.now) page.old) }
{
    let class = letters.class_of(Shade::Free, team);
    page.open(Tag::Cell, &[Attribute::Class(class)]);
    letters.put_letter_or(page, team, true, "\u{b7}");
    page.close();
}

/// Adds the cell of a number.
fn put_cell(
    alloc: Global,
    page: &mut Markup,
    letters: &Letters<'_>,
    number: u32,
    cell: Cell<'_, '_>,
) -> Result<(), AllocError>
    ensures { OnOk result (IsMoreBy (IsCellOf letters.now number cell.entry) page.new page.old) }
{
    match cell {
        Cell::Live(first, others) => put_live(alloc, page, letters, number, first, others),
        Cell::Held(team) => {
            put_held_of(page, letters, number, team);
            Ok(())
        }
        Cell::Free(team) => {
            put_free(page, letters, team.as_bytes());
            Ok(())
        }
        Cell::Nobody => {
            page.element(Tag::Cell, &[], b"");
            Ok(())
        }
    }
}

/// Adds the cell of a number of the chart, where these blocks are all that may have it.
pub(crate) fn put_number(
    alloc: Global,
    page: &mut Markup,
    letters: &Letters<'_>,
    chart: Chart,
    index: &FormIndex<'_>,
    blocks: &[GrantedBlock],
    number: u32,
) -> Result<(), AllocError>
    ensures { OnOk result (IsMoreBy (IsCellHtml letters.now number
        (live_at index.now.live.messages index.now.live.form number)
        (is_taken number index.now.held) (team_at blocks.now index.now.live.form number)
        (has chart number)) page.new page.old) }
{
    let cell = cell_at(chart, index, blocks, number);
    put_cell(alloc, page, letters, number, cell)
}
