//! The releases, and what each of them changed.
ghost use Rattle.std.specs.Prelude.{◌≡◌, IfOk, OnOk, slice_get};
ghost use Rattle.std.specs.Option.{option_copied};
ghost use Rattle.markup.specs.Writing.{Becomes, adding};
ghost use Rattle.page_changes.specs.Releases.{before_at, breaking_cell, breaking_since, count_cells, counts_since, more_note};
ghost use Rattle.page_changes.specs.Releases.{head_cell, more_releases, release_row, release_rows, release_table, releases_html};
ghost use Rattle.page_changes.specs.Releases.{releases_part, row_of, signed_cell};

use crate::words::put_breaking;
use dbc_compare::{breaking_count, differences};
use dbc_sheet::{Counts, Sheet, counts_of};
use markup::{Attribute, Markup, Piece, Tag};
use office_views::signal_count;
use page_parts::{open_part, open_table, open_wide};
use std::alloc::{AllocError, Global};

/// How many releases are listed: the newest ones.
const LISTED: usize = 20;

/// The heads of the table.
const HEADS: &[&[u8]] = &[
    b"Release",
    b"Messages",
    b"Signals",
    b"Added",
    b"Removed",
    b"Changed",
    b"Breaks",
    b"",
];

/// Adds a cell with a number after this sign.
fn put_cell(page: &mut Markup, sign: &[u8], number: usize)
    ensures { Becomes page.new (adding (signed_cell sign.now number) page.old) }
{
    page.open(Tag::Cell, &[]);
    page.text(sign);
    page.number(number as u64);
    page.close();
}

/// How many differences of a release and the one before it break a receiver.
fn breaking_since(alloc: Global, before: Option<&Sheet>, sheet: &Sheet) -> Result<usize, AllocError>
    ensures { IfOk result (λ count. count
        ≡ breaking_since (option_copied before.entry) sheet.now) }
{
    match before {
        None => Ok(0),
        Some(before) => Ok(breaking_count(&differences(alloc, before, sheet)?)),
    }
}

/// How many messages of a release differ from those of the one before it.
fn counts_since(alloc: Global, before: Option<&Sheet>, sheet: &Sheet) -> Counts
    ensures { result ≡ counts_since (option_copied before.entry) sheet.now }
{
    match before {
        None => counts_of(&Sheet::new(alloc), sheet),
        Some(before) => counts_of(before, sheet),
    }
}

/// Adds the cells of how many messages are new, gone and changed.
fn put_counts(page: &mut Markup, counts: Counts)
    ensures { Becomes page.new (adding (count_cells counts) page.old) }
{
    put_cell(page, b"+", counts.added);
    put_cell(page, "\u{2212}".as_bytes(), counts.removed);
    put_cell(page, "\u{2260}".as_bytes(), counts.changed);
}

/// Adds the cell of a release's number.
fn put_head_cell(page: &mut Markup, number: usize)
    ensures { Becomes page.new (adding (head_cell number) page.old) }
{
    page.open(Tag::HeadCell, &[]);
    page.text(b"release ");
    page.number(number as u64);
    page.close();
}

/// Adds the cell of how many changes break a receiver.
fn put_breaking_cell(page: &mut Markup, count: usize)
    ensures { Becomes page.new (adding (breaking_cell count) page.old) }
{
    page.open(Tag::Cell, &[]);
    put_breaking(page, count);
    page.close();
}

/// Adds the row of the release of this number, after the one before it.
fn put_release(
    alloc: Global,
    page: &mut Markup,
    number: usize,
    before: Option<&Sheet>,
    sheet: &Sheet,
) -> Result<(), AllocError>
    ensures { OnOk result (Becomes page.new
        (adding (release_row number (option_copied before.entry) sheet.now) page.old)) }
{
    let breaking = breaking_since(alloc, before, sheet)?;
    page.open(Tag::Row, &[]);
    put_head_cell(page, number);
    put_cell(page, b"", sheet.messages().len());
    put_cell(page, b"", signal_count(sheet));
    put_counts(page, counts_since(alloc, before, sheet));
    put_breaking_cell(page, breaking);
    page.element(Tag::Cell, &[], b"");
    page.close();
    Ok(())
}

/// The release before the one at the index.
fn before_at(releases: &[Sheet], index: usize) -> Option<&Sheet>
    ensures { option_copied result ≡ before_at releases.now index }
{
    if index == 0 {
        None
    } else {
        releases.get(index - 1)
    }
}

/// The release at the index.
fn release_at(releases: &[Sheet], index: usize) -> Option<&Sheet>
    ensures { option_copied result ≡ slice_get releases.now index }
{
    releases.get(index)
}

/// Adds the row of the release at the index.
fn put_at(
    alloc: Global,
    page: &mut Markup,
    releases: &[Sheet],
    index: usize,
) -> Result<(), AllocError>
    ensures { OnOk result (Becomes page.new
        (adding (row_of releases.now index (slice_get releases.now index)) page.old)) }
{
    match release_at(releases, index) {
        None => Ok(()),
        Some(sheet) => {
            let before = before_at(releases, index);
            put_release(alloc, page, index + 1, before, sheet)
        }
    }
}

/// Adds the rows of the last releases, the newest first.
fn put_rows(alloc: Global, page: &mut Markup, releases: &[Sheet]) -> Result<(), AllocError>
    ensures { OnOk result (Becomes page.new (adding (release_rows releases.now) page.old)) }
{
    let count = releases.len().min(LISTED);
    for back in 0..count {
        put_at(alloc, page, releases, releases.len() - 1 - back)?;
    }
    Ok(())
}

/// Adds the table of the last releases.
fn put_table(alloc: Global, page: &mut Markup, releases: &[Sheet]) -> Result<(), AllocError>
    ensures { OnOk result (Becomes page.new (adding (release_table releases.now) page.old)) }
{
    open_table(page, b"nums", HEADS);
    put_rows(alloc, page, releases)?;
    page.close();
    page.close();
    Ok(())
}

/// Adds that so many releases are more than are listed.
fn put_more_note(page: &mut Markup, count: usize)
    ensures { Becomes page.new (adding (more_note count) page.old) }
{
    page.open(Tag::Paragraph, &[]);
    page.open(Tag::Span, &[Attribute::Class(b"q")]);
    page.text(b"the last 20 of ");
    page.number(count as u64);
    page.close();
    page.close();
}

/// Adds that there are more releases than are listed, if there are.
fn put_more(page: &mut Markup, count: usize)
    ensures { Becomes page.new (adding (more_releases count) page.old) }
{
    if count > LISTED {
        put_more_note(page, count);
    }
}

/// Adds the part of the releases.
fn put_part(alloc: Global, page: &mut Markup, releases: &[Sheet]) -> Result<(), AllocError>
    ensures { OnOk result (Becomes page.new (adding (releases_part releases.now) page.old)) }
{
    open_part(page, b"releases", b"Releases", None);
    open_wide(page, &[Piece::Text(b"Releases")]);
    put_table(alloc, page, releases)?;
    page.close();
    put_more(page, releases.len());
    page.close();
    Ok(())
}

/// Adds the releases, the newest first, if there are any. The error is out of memory.
pub fn put_releases(alloc: Global, page: &mut Markup, releases: &[Sheet]) -> Result<(), AllocError>
    ensures { OnOk result (Becomes page.new (adding (releases_html releases.now) page.old)) }
{
    match releases {
        [] => Ok(()),
        [_first, _later @ ..] => put_part(alloc, page, releases),
    }
}
