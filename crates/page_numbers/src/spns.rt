//! The suspect parameter numbers.
ghost use Rattle.std.specs.Prelude.{◌≡◌, ◌++◌, ◌==◌, IfOk, OnOk, count_by, length, map};
ghost use Rattle.std.specs.List.{flat_map};
ghost use Rattle.markup.specs.Writing.{Becomes, adding};
ghost use Rattle.office_blocks.specs.Blocks.{spns_of};
ghost use Rattle.office_blocks.specs.Numbers.{HaveSame};
ghost use Rattle.page_numbers.specs.Spns.{AreSheetRows, first_in, first_row, gone, gone_place, is_live_row};
ghost use Rattle.page_numbers.specs.Spns.{list_html, live, live_place, net_rows, row_item, rows_at, said_of};
ghost use Rattle.page_numbers.specs.Spns.{spn_in, spns_html, summary_html, where_html};

use dbc_sheet::{Message, Sheet, Signal};
use markup::{Attribute, Markup, Piece, Tag};
use office_blocks::Ascending;
use office_spns::{
    SpnIndex, SpnPlace, SpnUse, SpnView, releases_with, shown_places, shown_spns, use_of,
};
use page_parts::{open_fold, open_part, put_count, put_quiet};
use std::alloc::{AllocError, Global};

/// How many rows aren't folded.
const OPEN: usize = 256;

/// What there is to say of a suspect parameter number.
#[derive(Clone, Copy)]
pub enum SpnRow<'a> {
    /// A signal of the sheet has it.
    Live(u32, &'a Message, &'a Signal),
    /// No signal has it any more; in the last release that had it, of this number, this one did.
    Gone(u32, u32, &'a Message, &'a Signal),
    /// No signal here ever had it.
    Elsewhere(u32),
}

impl<'a> SpnRow<'a> {
    /// The suspect parameter number.
    fn number(&self) -> u32
        ensures { result ≡ spn_in (said_of self.now) }
    {
        match self {
            SpnRow::Live(number, _, _) => *number,
            SpnRow::Gone(number, _, _, _) => *number,
            SpnRow::Elsewhere(number) => *number,
        }
    }

    /// Whether a signal of the sheet has it.
    fn is_live(&self) -> bool
        ensures { result ≡ is_live_row self.now }
    {
        matches!(self, SpnRow::Live(_, _, _))
    }
}

/// The rows of the suspect parameter numbers, in ascending order of them.
#[derive(Drop)]
pub struct SpnRows<'a> {
    /// The rows.
    pub rows: Vec<SpnRow<'a>>,
}

// ---- of a network

/// Adds a row for each place where the number is.
fn add_live<'a>(
    rows: &mut Vec<SpnRow<'a>>,
    number: u32,
    places: &[SpnPlace<'a>],
) -> Result<(), AllocError>
    ensures { OnOk result (map said_of rows.new.items
        ≡ map said_of rows.old.items ++ map (live number) places.now) }
{
    for place in places {
        rows.push(SpnRow::Live(number, place.message(), place.signal()))?;
    }
    Ok(())
}

/// Adds a row for each place where the number was in the release.
fn add_gone<'a>(
    rows: &mut Vec<SpnRow<'a>>,
    number: u32,
    release: u32,
    places: &[SpnPlace<'a>],
) -> Result<(), AllocError>
    ensures { OnOk result (map said_of rows.new.items
        ≡ map said_of rows.old.items ++ map (gone number release) places.now) }
{
    for place in places {
        rows.push(SpnRow::Gone(number, release, place.message(), place.signal()))?;
    }
    Ok(())
}

/// Adds the rows of a number of a network.
fn add_number<'a>(
    alloc: Global,
    rows: &mut Vec<SpnRow<'a>>,
    view: &SpnView<'a>,
    number: u32,
) -> Result<(), AllocError>
    ensures { OnOk result (map said_of rows.new.items
        ≡ map said_of rows.old.items ++ rows_at view.now number) }
{
    let places = shown_places(view, number);
    match use_of(view, number) {
        SpnUse::Live => add_live(rows, number, places),
        SpnUse::Gone => {
            let releases = releases_with(alloc, view, number)?;
            let last = releases.last().copied().unwrap_or(0);
            add_gone(rows, number, last, places)
        }
        SpnUse::Used => {
            rows.push(SpnRow::Elsewhere(number))?;
            Ok(())
        }
    }
}

/// Adds the rows of numbers of a network.
fn add_numbers<'a>(
    alloc: Global,
    rows: &mut Vec<SpnRow<'a>>,
    view: &SpnView<'a>,
    numbers: &[u32],
) -> Result<(), AllocError>
    ensures { OnOk result (map said_of rows.new.items
        ≡ map said_of rows.old.items ++ flat_map (rows_at view.now) numbers.now) }
{
    for number in numbers {
        add_number(alloc, rows, view, *number)?;
    }
    Ok(())
}

// ---- of a sheet alone

/// Adds the suspect parameter numbers of the message's signals.
fn add_spns(numbers: &mut Vec<u32>, message: &Message) -> Result<(), AllocError>
    ensures { OnOk result (numbers.new.items ≡ numbers.old.items ++ spns_of message.now) }
{
    for signal in message.signals.as_slice() {
        let number = signal.spn.number();
        if number != 0 {
            numbers.push(number)?;
        }
    }
    Ok(())
}

/// The suspect parameter numbers of the messages' signals.
fn spns_in(alloc: Global, messages: &[Message]) -> Result<Ascending, AllocError>
    ensures { IfOk result (λ numbers. HaveSame numbers (flat_map spns_of messages.now)) }
{
    let mut numbers = Vec::new(alloc);
    for message in messages {
        add_spns(&mut numbers, message)?;
    }
    Ascending::of(numbers)
}

/// Adds a row for the first of the places.
fn add_first<'a>(
    rows: &mut Vec<SpnRow<'a>>,
    number: u32,
    places: &[SpnPlace<'a>],
) -> Result<(), AllocError>
    ensures { OnOk result (map said_of rows.new.items
        ≡ map said_of rows.old.items ++ first_row number places.now) }
{
    if let [first, ..] = places {
        rows.push(SpnRow::Live(number, first.message(), first.signal()))?;
    }
    Ok(())
}

/// Adds a row for the first place of each number.
fn add_firsts<'a>(
    rows: &mut Vec<SpnRow<'a>>,
    index: &SpnIndex<'a>,
    numbers: &[u32],
) -> Result<(), AllocError>
    ensures { OnOk result (map said_of rows.new.items
        ≡ map said_of rows.old.items ++ flat_map (first_in index.now) numbers.now) }
{
    for number in numbers {
        add_first(rows, *number, index.places(*number))?;
    }
    Ok(())
}

impl<'a> SpnRows<'a> {
    /// The rows of a network, as its looks have them. The error is out of memory.
    pub fn of_network(alloc: Global, view: &SpnView<'a>) -> Result<SpnRows<'a>, AllocError>
        ensures { IfOk result (λ rows. map said_of rows.rows.items ≡ net_rows view.now) }
    {
        let numbers = shown_spns(alloc, view)?;
        let mut rows = Vec::new(alloc);
        add_numbers(alloc, &mut rows, view, &numbers)?;
        Ok(SpnRows { rows })
    }

    /// The rows of a sheet alone: where each number is first. The error is out of memory.
    pub fn of_sheet(alloc: Global, sheet: &'a Sheet) -> Result<SpnRows<'a>, AllocError>
        ensures { IfOk result (λ rows. AreSheetRows sheet.now (map said_of rows.rows.items)) }
    {
        let numbers = spns_in(alloc, sheet.messages())?;
        let index = SpnIndex::of(alloc, sheet)?;
        let mut rows = Vec::new(alloc);
        add_firsts(&mut rows, &index, numbers.as_slice())?;
        Ok(SpnRows { rows })
    }

    /// Whether there are none.
    pub fn is_empty(&self) -> bool
        ensures { result ≡ (length self.now.rows.items == 0) }
    {
        self.rows.is_empty()
    }
}

// ---- as HTML

/// Adds the signal, after a link to its message.
fn put_live_place(page: &mut Markup, message: &Message, signal: &Signal)
    ensures { Becomes page.new (adding (live_place (message.now, signal.now)) page.old) }
{
    let name = message.name.as_bytes();
    page.element(
        Tag::Link,
        &[Attribute::ToPart(&[Piece::Text(b"m-"), Piece::Text(name)])],
        name,
    );
    page.text(b".");
    page.text(signal.name.as_bytes());
}

/// Adds where the number was last.
fn put_gone_place(page: &mut Markup, release: u32, message: &Message, signal: &Signal)
    ensures { Becomes page.new (adding (gone_place release (message.now, signal.now)) page.old) }
{
    page.text(b"burnt, last in release ");
    page.number(u64::from(release));
    page.text(b": ");
    page.text(message.name.as_bytes());
    page.text(b".");
    page.text(signal.name.as_bytes());
}

/// Adds where the number is or was.
fn put_where(page: &mut Markup, row: &SpnRow<'_>)
    ensures { Becomes page.new (adding (where_html (said_of row.now)) page.old) }
{
    match row {
        SpnRow::Live(_, message, signal) => put_live_place(page, message, signal),
        SpnRow::Gone(_, release, message, signal) => {
            page.open(Tag::Span, &[Attribute::Class(b"q")]);
            put_gone_place(page, *release, message, signal);
            page.close();
        }
        SpnRow::Elsewhere(_) => put_quiet(page, b"burnt or on another network"),
    }
}

/// Adds an item of the list.
fn put_row(page: &mut Markup, row: &SpnRow<'_>)
    ensures { Becomes page.new (adding (row_item row.now) page.old) }
{
    page.open(Tag::Item, &[]);
    page.open(Tag::Bold, &[]);
    page.number(u64::from(row.number()));
    page.close();
    page.text(b" ");
    put_where(page, row);
    page.close();
}

/// How many rows are of signals that have a number.
fn live_count(rows: &[SpnRow<'_>]) -> usize
    ensures { result ≡ count_by is_live_row rows.now }
{
    rows.iter().filter(|row| row.is_live()).count()
}

/// Adds how many rows are of signals that have a number, and how many are of numbers that none has.
fn put_summary(page: &mut Markup, rows: &[SpnRow<'_>])
    ensures { Becomes page.new (adding (summary_html rows.now) page.old) }
{
    let live = live_count(rows);
    put_count(page, live, b"signal");
    page.text(b" with a number, ");
    page.number(rows.len().saturating_sub(live) as u64);
    page.text(b" burnt");
}

/// Adds the items of the rows.
fn put_rows(page: &mut Markup, rows: &[SpnRow<'_>])
    ensures { Becomes page.new (adding (flat_map row_item rows.now) page.old) }
{
    for row in rows {
        put_row(page, row);
    }
}

/// Adds the list of the rows.
fn put_list(page: &mut Markup, rows: &[SpnRow<'_>])
    ensures { Becomes page.new (adding (list_html rows.now) page.old) }
{
    page.open(Tag::List, &[Attribute::Class(b"cols")]);
    put_rows(page, rows);
    page.close();
}

/// Adds the suspect parameter numbers, if there are any.
pub fn put_spns(page: &mut Markup, rows: &SpnRows<'_>)
    ensures { Becomes page.new (adding (spns_html rows.now.rows.items) page.old) }
{
    if rows.is_empty() {
        return;
    }
    open_part(page, b"spns", b"SPNs", None);
    open_fold(page, rows.rows.len() <= OPEN);
    put_summary(page, &rows.rows);
    page.close();
    put_list(page, &rows.rows);
    page.close();
    page.close();
}
