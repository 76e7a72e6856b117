//! The map of the numbers.
ghost use Rattle.std.specs.Prelude.{◌≡◌, ◌≤◌, IfOk, List, ℕ, OnOk, length, not, option_map};
ghost use Rattle.std.specs.List.{flat_map};
ghost use Rattle.markup.specs.Writing.{Becomes, adding};
ghost use Rattle.office_blocks.specs.Numbers.{HaveSame};
ghost use Rattle.page_numbers.specs.Charts.{charts, numbers_of};
ghost use Rattle.page_numbers.specs.Elements.{ArePieces, IsMoreBy};
ghost use Rattle.page_numbers.specs.Map.{IsCellAt, IsChart, IsMap, IsRow, IsTable, IsWholeMap, facts_in};
ghost use Rattle.page_numbers.specs.Map.{has_nothing, row_head, whose};
ghost use Rattle.page_numbers.specs.Rows.{rows_in};

use crate::cells::put_number;
use crate::charts::{CHARTS, Chart, add_blocks, add_held, add_live};
use crate::index::FormIndex;
use crate::near::Blocks;
use markup::{Attribute, Markup, Tag};
use office_blocks::Ascending;
use page_parts::{Letters, Shade, Subject, open_part, put_hex};
use std::alloc::{AllocError, Global};

/// The heads of the columns: the last digit of a number, and of an addressed group the third.
const DIGITS: &[u8; 16] = b"0123456789ABCDEF";

/// Whose the letters are, where they aren't teams'.
const SENDERS: &[u8] = b"letters are of the nodes that send";

/// Whether there is anything to show: a message or a block.
pub fn has_map(subject: &Subject<'_>) -> bool
    ensures { result ≡ not (has_nothing subject.now) }
{
    !(subject.messages().is_empty() && subject.blocks.is_empty())
}

// ---- what stands beside the rows

/// Adds the team, or the node, after its letter.
fn put_legend_item(page: &mut Markup, letters: &Letters<'_>, name: &[u8]) {
    let class = letters.class_of(Shade::Live, name);
    page.open(Tag::Item, &[]);
    page.open(Tag::Bold, &[Attribute::Class(class)]);
    letters.put_letter_or(page, name, false, "\u{b7}");
    page.close();
    page.text(b" ");
    page.text(name);
    page.close();
}

/// Adds what a sample of a cell stands for.
fn put_state(page: &mut Markup, class: &[u8], sample: &[u8], words: &str) {
    page.open(Tag::Item, &[]);
    page.element(Tag::Bold, &[Attribute::Class(class)], sample);
    page.text(b" ");
    page.text(words.as_bytes());
    page.close();
}

/// Adds what letters and colours stand for, and where there are blocks what the cells do.
fn put_legend(page: &mut Markup, subject: &Subject<'_>) {
    page.open(Tag::List, &[Attribute::Class(b"line")]);
    for name in subject.letters.names() {
        put_legend_item(page, subject.letters, name);
    }
    page.close();
    if subject.blocks.is_empty() {
        return;
    }
    page.open(Tag::List, &[Attribute::Class(b"line")]);
    put_state(page, b"l tx", b"A", "live");
    put_state(page, b"h tx", b"A", "held for good");
    put_state(page, b"f tx", b"a", "granted and free");
    put_state(page, b"cell none", b"", "nobody\u{2019}s");
    page.close();
}

/// What letters and colours stand for.
fn legend_of(alloc: Global, subject: &Subject<'_>) -> Markup {
    let mut part = Markup::new(alloc);
    put_legend(&mut part, subject);
    part
}

/// Adds what numbers a table has.
fn put_caption(page: &mut Markup, chart: Chart, first: u32, last: u32) {
    page.open(Tag::Caption, &[]);
    page.text(chart.words());
    page.text(b", ");
    page.open(Tag::Code, &[]);
    put_hex(page, chart.width(), first);
    page.text(b" to ");
    put_hex(page, chart.width(), last);
    page.close();
    page.open(Tag::Span, &[Attribute::Class(b"q")]);
    page.text(b" (");
    page.number(u64::from(first));
    page.text(b" to ");
    page.number(u64::from(last));
    page.text(b")");
    page.close();
    page.close();
}

/// Adds the heads of the columns.
fn put_heads(page: &mut Markup) {
    page.open(Tag::TableHead, &[]);
    page.open(Tag::Row, &[]);
    page.element(Tag::Cell, &[], b"");
    for digit in DIGITS {
        page.element(Tag::HeadCell, &[], &[*digit]);
    }
    page.close();
    page.close();
}

/// The caption and the heads of a table of the page that has the number.
fn head_of(alloc: Global, chart: Chart, number: u32) -> Markup {
    let mut part = Markup::new(alloc);
    let (first, last) = chart.page_of(number);
    put_caption(&mut part, chart, first, last);
    put_heads(&mut part);
    part
}

// ---- rows

/// What the cells of a chart are found by.
#[derive(Drop)]
struct ChartFacts<'c> {
    chart: Chart,
    index: &'c FormIndex<'c>,
    blocks: &'c Blocks<'c>,
    letters: &'c Letters<'c>,
}

/// Adds the cells of the row that has the number.
fn put_cells(
    alloc: Global,
    page: &mut Markup,
    facts: &ChartFacts<'_>,
    row: u32,
) -> Result<(), AllocError>
    ensures { OnOk result (IsMoreBy (ArePieces (IsCellAt facts.now.chart (facts_in facts.now))
        (numbers_of facts.now.chart row)) page.new page.old) }
{
    let chart = facts.chart;
    let index = facts.index;
    let first = chart.number_in(row, 0);
    let last = chart.number_in(row, 15);
    let near = facts.blocks.near(index.live.form(), first, last);
    for column in 0..16 {
        let number = chart.number_in(row, column);
        put_number(alloc, page, facts.letters, chart, index, near, number)?;
    }
    Ok(())
}

/// Adds the head of the row.
fn put_row_head(page: &mut Markup, chart: Chart, row: u32)
    ensures { Becomes page.new (adding (row_head chart row) page.old) }
{
    page.open(Tag::HeadCell, &[]);
    put_hex(page, chart.width(), row);
    page.close();
}

/// Adds the row that has the number.
fn put_row(
    alloc: Global,
    page: &mut Markup,
    facts: &ChartFacts<'_>,
    row: u32,
) -> Result<(), AllocError>
    ensures { OnOk result (IsMoreBy (IsRow facts.now.chart (facts_in facts.now) row)
        page.new page.old) }
{
    page.open(Tag::Row, &[]);
    put_row_head(page, facts.chart, row);
    put_cells(alloc, page, facts, row)?;
    page.close();
    Ok(())
}

/// Adds the rows that have these numbers.
fn put_rows(
    alloc: Global,
    page: &mut Markup,
    facts: &ChartFacts<'_>,
    rows: &[u32],
) -> Result<(), AllocError>
    ensures { OnOk result (IsMoreBy (ArePieces (IsRow facts.now.chart (facts_in facts.now))
        rows.now) page.new page.old) }
{
    for row in rows {
        put_row(alloc, page, facts, *row)?;
    }
    Ok(())
}

/// Adds the table of these rows, which are on the page that has the first number.
fn put_table(
    alloc: Global,
    page: &mut Markup,
    facts: &ChartFacts<'_>,
    first: u32,
    rows: &[u32],
) -> Result<(), AllocError>
    ensures { OnOk result (IsMoreBy (IsTable facts.now.chart (facts_in facts.now) rows.now)
        page.new page.old) }
{
    page.open(Tag::Table, &[Attribute::Class(b"map")]);
    page.put(head_of(alloc, facts.chart, first));
    page.open(Tag::TableBody, &[]);
    put_rows(alloc, page, facts, rows)?;
    page.close();
    page.close();
    Ok(())
}

// ---- charts

/// How many of the first rows are on the page that has the number.
fn count_on(chart: Chart, number: u32, rows: &[u32]) -> usize
    ensures { result ≤ length rows.now }
{
    let page = chart.page_of(number);
    rows.iter()
        .take_while(|row| chart.page_of(**row) == page)
        .count()
}

/// Adds the tables of these rows, one for each page.
fn put_tables(
    alloc: Global,
    page: &mut Markup,
    facts: &ChartFacts<'_>,
    rows: &[u32],
) -> Result<(), AllocError>
    ensures { OnOk result ((tables : List (List ℕ))
        × ((flat_map (λ table. table) tables ≡ rows.now)
        × IsMoreBy (ArePieces (IsTable facts.now.chart (facts_in facts.now)) tables)
        page.new page.old)) }
{
    let mut rest = rows;
    while let Some((first, later)) = rest.split_first() {
        let count = count_on(facts.chart, *first, later);
        let (own, after) = rest.split_at(1 + count);
        put_table(alloc, page, facts, *first, own)?;
        rest = after;
    }
    Ok(())
}

/// The first numbers of the rows of the chart that aren't all nobody's.
fn rows_of(alloc: Global, chart: Chart, subject: &Subject<'_>) -> Result<Ascending, AllocError>
    ensures { IfOk result (λ rows. HaveSame rows (rows_in chart subject.now)) }
{
    let blocks = Blocks::of(subject.blocks);
    let is_j1939 = subject.is_j1939;
    let mut rows = Vec::new(alloc);
    add_live(&mut rows, chart, is_j1939, &blocks, subject.messages())?;
    add_held(&mut rows, chart, is_j1939, &blocks, subject.held)?;
    add_blocks(&mut rows, chart, subject.blocks)?;
    Ascending::of(rows)
}

/// Adds the tables of a chart.
fn put_chart(
    alloc: Global,
    page: &mut Markup,
    subject: &Subject<'_>,
    chart: Chart,
) -> Result<(), AllocError>
    ensures { OnOk result (IsMoreBy (IsChart subject.now chart) page.new page.old) }
{
    if !chart.is_shown(subject.is_j1939) {
        return Ok(());
    }
    let rows = rows_of(alloc, chart, subject)?;
    let index = FormIndex::of(alloc, chart.form(), subject)?;
    let blocks = Blocks::of(subject.blocks);
    let facts = ChartFacts {
        chart,
        index: &index,
        blocks: &blocks,
        letters: subject.letters,
    };
    put_tables(alloc, page, &facts, rows.as_slice())
}

/// Adds the charts.
fn put_charts(alloc: Global, page: &mut Markup, subject: &Subject<'_>) -> Result<(), AllocError>
    ensures { OnOk result (IsMoreBy (ArePieces (IsChart subject.now) charts)
        page.new page.old) }
{
    for chart in CHARTS {
        put_chart(alloc, page, subject, *chart)?;
    }
    Ok(())
}

// ---- the part

/// Whose the letters are, where they aren't teams'.
fn whose_words(subject: &Subject<'_>) -> Option<&'static [u8]>
    ensures { option_map (λ words. words.now) result ≡ whose subject.now }
{
    if subject.is_alone {
        Some(SENDERS)
    } else {
        None
    }
}

/// Adds the map, where there is anything to show.
fn put_whole(alloc: Global, page: &mut Markup, subject: &Subject<'_>) -> Result<(), AllocError>
    ensures { OnOk result (IsMoreBy (IsWholeMap subject.now) page.new page.old) }
{
    let whose = whose_words(subject);
    open_part(page, b"map", b"Map of the numbers", whose);
    page.put(legend_of(alloc, subject));
    page.open(Tag::Division, &[Attribute::Class(b"grid")]);
    put_charts(alloc, page, subject)?;
    page.close();
    page.close();
    Ok(())
}

/// Adds the map of the numbers, if there is anything to show.
pub fn put_map(alloc: Global, page: &mut Markup, subject: &Subject<'_>) -> Result<(), AllocError>
    ensures { OnOk result (IsMoreBy (IsMap subject.now) page.new page.old) }
{
    if !has_map(subject) {
        return Ok(());
    }
    put_whole(alloc, page, subject)
}
