//! The page of a sheet alone: of a release, or of a DBC file.
ghost use Rattle.std.specs.Prelude.{◌≡◌, [], IfOk, OnOk, map, option_map};
ghost use Rattle.std.specs.Option.{option_copied};
ghost use Rattle.dbc_grammar.specs.Canon.{canonical_text};
ghost use Rattle.office_page.specs.Names.{sender_of, text_of};
ghost use Rattle.office_page.specs.Page.{IsFilePage, IsReleasePage, IsSheetPage, ShowsAlone, ShowsSheet, release_at};
ghost use Rattle.office_page.specs.Parts.{HasSheetParts};
ghost use Rattle.page_parts.specs.Letters.{AreNamesOf};

use crate::checking::{checked_sheet, checked_text};
use crate::document::{Kind, open_document};
use crate::head::{open_figures, put_comment, put_figure};
use crate::names::{senders_of, sheet_letters};
use crate::parts::{PartLink, put_part_links};
use dbc_read::Reading;
use dbc_sheet::Sheet;
use dbc_write::has_spn;
use markup::{Markup, Tag};
use office_seen::View;
use office_views::signal_count;
use page_messages::{put_each, put_messages, put_nodes, put_remarks, put_remarks_line, put_tables};
use page_numbers::{SpnRows, has_map, put_map, put_spns};
use page_parts::{Checked, Letters, Marks, Subject};
use std::alloc::{AllocError, Global};

/// Adds how much there is of each thing.
fn put_figures(page: &mut Markup, sheet: &Sheet) {
    open_figures(page);
    put_figure(page, sheet.messages().len(), b"message");
    put_figure(page, signal_count(sheet), b"signal");
    put_figure(page, sheet.nodes().len(), b"node");
    page.close();
}

/// Adds links to the parts of the page.
fn put_links(page: &mut Markup, subject: &Subject<'_>, spns: &SpnRows<'_>, checked: &Checked) {
    let sheet = subject.sheet;
    put_part_links(
        page,
        &[
            PartLink::of(has_map(subject), b"map", b"Map"),
            PartLink::of(true, b"messages", b"Messages"),
            PartLink::of(!sheet.nodes().is_empty(), b"nodes", b"Nodes"),
            PartLink::of(!spns.is_empty(), b"spns", b"SPNs"),
            PartLink::of(!sheet.tables().is_empty(), b"tables", b"Value tables"),
            PartLink::of(!checked.is_empty(), b"remarks", b"Remarks"),
            PartLink::of(!sheet.messages().is_empty(), b"each", b"Each message"),
        ],
    );
}

/// Adds the parts of the page.
fn put_parts(
    alloc: Global,
    page: &mut Markup,
    subject: &Subject<'_>,
    marks: &Marks<'_>,
    spns: &SpnRows<'_>,
    checked: &Checked,
) -> Result<(), AllocError>
    ensures { OnOk result
        (HasSheetParts subject.now marks.now spns.now.rows.items checked.now
        page.new page.old) }
{
    put_map(alloc, page, subject)?;
    put_messages(alloc, page, subject, marks)?;
    put_nodes(alloc, page, subject)?;
    put_spns(page, spns);
    put_tables(page, subject.sheet.tables());
    put_remarks(page, checked);
    put_each(alloc, page, subject, marks)
}

/// Adds the rest of the head: what is remarked, the comment, figures, links to the parts.
fn put_head(page: &mut Markup, subject: &Subject<'_>, spns: &SpnRows<'_>, checked: &Checked) {
    page.open(Tag::Paragraph, &[]);
    put_remarks_line(page, checked);
    page.close();
    put_comment(page, subject.sheet.comment().as_bytes());
    put_figures(page, subject.sheet);
    put_links(page, subject, spns, checked);
}

/// The page of a sheet.
fn page_about(
    alloc: Global,
    kind: Kind,
    subject: &Subject<'_>,
    checked: &Checked,
) -> Result<Vec<u8>, AllocError>
    ensures { IfOk result (λ page. ShowsAlone subject.now checked.now page.items) }
{
    let spns = SpnRows::of_sheet(alloc, subject.sheet)?;
    let marks = Marks::none(alloc);
    let mut page = Markup::new(alloc);
    open_document(&mut page, kind, subject);
    put_head(&mut page, subject, &spns, checked);
    page.close();
    page.open(Tag::Main, &[]);
    put_parts(alloc, &mut page, subject, &marks, &spns, checked)?;
    page.into_page()
}

/// The page of the sheet of this name, whose messages these nodes send, and in which these names have letters.
fn page_by(
    alloc: Global,
    kind: Kind,
    name: &[u8],
    sheet: &Sheet,
    senders: &[&[u8]],
    letters: &Letters<'_>,
    checked: &Checked,
) -> Result<Vec<u8>, AllocError>
    ensures { IfOk result (λ page. map text_of senders.now ≡ map sender_of sheet.now.messages
        → AreNamesOf (map sender_of sheet.now.messages) letters.now
        → ShowsSheet name.now sheet.now checked.now page.items) }
{
    // The names of letters ascend.
    let _ = letters.names();
    page_about(
        alloc,
        kind,
        &Subject {
            name,
            sheet,
            owners: senders,
            letters,
            blocks: &[],
            held: &[],
            is_j1939: has_spn(sheet),
            is_alone: true,
        },
        checked,
    )
}

/// The page of the sheet of this name, of which a check finds this.
fn sheet_page(
    alloc: Global,
    kind: Kind,
    name: &[u8],
    sheet: &Sheet,
    checked: &Checked,
) -> Result<Vec<u8>, AllocError>
    ensures { IfOk result (λ page. ShowsSheet name.now sheet.now checked.now page.items) }
{
    let senders = senders_of(alloc, sheet)?;
    let letters = sheet_letters(alloc, &senders)?;
    page_by(alloc, kind, name, sheet, &senders, &letters, checked)
}

/// The release of this number, from 1, if there is one.
fn release_at(releases: &[Sheet], number: u32) -> Option<&Sheet>
    ensures { option_copied result ≡ release_at releases.now number }
{
    if number == 0 {
        None
    } else {
        releases.get(number as usize - 1)
    }
}

/// The page of the release of this number, which has this sheet, of so many releases of the network of this name.
fn one_release(alloc: Global, kind: Kind, name: &[u8], sheet: &Sheet) -> Result<Vec<u8>, AllocError>
    ensures { IfOk result (λ page. IsSheetPage name.now (canonical_text sheet.now) sheet.now []
        page.items) }
{
    let checked = checked_sheet(alloc, sheet)?;
    sheet_page(alloc, kind, name, sheet, &checked)
}

/// The page of the network's release of this number, from 1; `None` where there is no such release. The error is out of
/// memory.
pub fn release_page(alloc: Global, view: &View, number: u32) -> Result<Option<Vec<u8>>, AllocError>
    ensures { IfOk result
        (λ page. IsReleasePage view.now number (option_map (λ p. p.items) page)) }
{
    let releases = view.releases.as_slice();
    match release_at(releases, number) {
        None => Ok(None),
        Some(sheet) => {
            let kind = Kind::Release(number, releases.len());
            let page = one_release(alloc, kind, view.name.as_bytes(), sheet)?;
            Ok(Some(page))
        }
    }
}

/// The page of a DBC file of this name, with this text, that reads so. The error is out of memory.
pub fn file_page(
    alloc: Global,
    name: &[u8],
    text: &[u8],
    reading: &Reading,
) -> Result<Vec<u8>, AllocError>
    ensures { IfOk result (λ page. IsFilePage name.now text.now reading.now page.items) }
{
    let checked = checked_text(alloc, text, reading)?;
    sheet_page(alloc, Kind::File, name, &reading.sheet, &checked)
}
