//! The page of a live network.
ghost use Rattle.std.specs.Prelude.{◌≡◌, ◌++◌, IfOk, OnOk, map};
ghost use Rattle.office_page.specs.Names.{team_of, text_of};
ghost use Rattle.office_page.specs.Page.{IsNetPage, ShowsNet, ShowsSubject, is_j1939};
ghost use Rattle.office_page.specs.Parts.{HasNetParts, IsSinceOf, live_differences};
ghost use Rattle.page_changes.specs.Changes.{AreRising};
ghost use Rattle.page_changes.specs.Tables.{Puts};
ghost use Rattle.page_parts.specs.Letters.{AreNamesOf};

use crate::checking::checked_sheet;
use crate::document::{Kind, open_document};
use crate::head::{open_figures, put_comment, put_figure, put_phase};
use crate::names::{net_letters, team_names};
use crate::parts::{PartLink, put_part_links};
use dbc_compare::{Difference, differences};
use markup::{Markup, Tag};
use office_seen::View;
use office_spns::SpnView;
use office_types::NetKind;
use office_views::signal_count;
use page_changes::{Changes, differences_rise, marks_of, put_releases, put_since, put_since_words};
use page_messages::{put_each, put_messages, put_nodes, put_remarks, put_remarks_line, put_tables};
use page_numbers::{SpnRows, has_map, put_held, put_left, put_map, put_spns};
use page_parts::{Checked, Letters, Marks, Subject, put_dot};
use std::alloc::{AllocError, Global};

/// What the page of a network shows beside the network itself.
#[derive(Drop)]
struct Shown<'a> {
    /// What is seen of it.
    view: &'a View,
    /// What the parts of the page are of.
    subject: &'a Subject<'a>,
    /// What has changed since the last release.
    changes: &'a Changes<'a>,
    /// What has become of each message.
    marks: &'a Marks<'a>,
    /// Its suspect parameter numbers.
    spns: &'a SpnRows<'a>,
    /// What a check of its sheet finds.
    checked: &'a Checked,
}

/// What differs between the last release and the live sheet; nothing before the first release.
fn live_differences(alloc: Global, view: &View) -> Result<Vec<Difference>, AllocError>
    ensures found { IfOk result (λ found. found.items ≡ live_differences view.now) }
    ensures rising { IfOk result (λ found. AreRising found.items) }
{
    match view.releases.as_slice().last() {
        Some(last) => {
            differences_rise(last, &view.sheet);
            differences(alloc, last, &view.sheet)
        }
        None => Ok(Vec::new(alloc)),
    }
}

/// Adds how much there is of each thing.
fn put_figures(page: &mut Markup, view: &View, letters: &Letters<'_>) {
    let sheet = &view.sheet;
    open_figures(page);
    put_figure(page, sheet.messages().len(), b"message");
    put_figure(page, signal_count(sheet), b"signal");
    put_figure(page, sheet.nodes().len(), b"node");
    put_figure(page, letters.names().len(), b"team");
    put_figure(page, view.releases.as_slice().len(), b"release");
    put_figure(page, view.held.as_slice().len(), b"held number");
    page.close();
}

/// Adds links to the parts of the page.
fn put_links(alloc: Global, page: &mut Markup, shown: &Shown<'_>) -> Result<(), AllocError> {
    let sheet = shown.subject.sheet;
    let releases = shown.view.releases.as_slice().len();
    let since = format!(in alloc; "Since release {releases}")?;
    put_part_links(
        page,
        &[
            PartLink::of(!shown.changes.is_nothing(), b"since", since.as_bytes()),
            PartLink::of(true, b"left", b"Numbers left"),
            PartLink::of(has_map(shown.subject), b"map", b"Map"),
            PartLink::of(true, b"messages", b"Messages"),
            PartLink::of(!sheet.nodes().is_empty(), b"nodes", b"Nodes"),
            PartLink::of(releases > 0, b"releases", b"Releases"),
            PartLink::of(!shown.spns.is_empty(), b"spns", b"SPNs"),
            PartLink::of(!shown.subject.held.is_empty(), b"held", b"Held"),
            PartLink::of(!sheet.tables().is_empty(), b"tables", b"Value tables"),
            PartLink::of(!shown.checked.remarks.is_empty(), b"remarks", b"Remarks"),
            PartLink::of(!sheet.messages().is_empty(), b"each", b"Each message"),
        ],
    );
    Ok(())
}

/// Adds the rest of the head: the phase, what has changed, what is remarked, the comment, figures, links to the parts.
fn put_head(alloc: Global, page: &mut Markup, shown: &Shown<'_>) -> Result<(), AllocError> {
    let view = shown.view;
    put_phase(alloc, page, view, shown.subject.letters)?;
    page.open(Tag::Paragraph, &[]);
    put_since_words(page, view.releases.as_slice().len(), shown.changes);
    put_dot(page);
    put_remarks_line(page, shown.checked);
    page.close();
    put_comment(page, view.sheet.comment().as_bytes());
    put_figures(page, view, shown.subject.letters);
    put_links(alloc, page, shown)
}

/// Adds the part of what has changed since the last release, if there is one.
fn put_last(
    alloc: Global,
    page: &mut Markup,
    view: &View,
    changes: &Changes<'_>,
) -> Result<(), AllocError>
    ensures { OnOk result (Puts (IsSinceOf view.now changes.now) page.new page.old) }
{
    let releases = view.releases.as_slice();
    match releases.last() {
        Some(last) => put_since(alloc, page, releases.len(), last, changes),
        None => Ok(()),
    }
}

/// Adds the parts of the page.
fn put_parts(alloc: Global, page: &mut Markup, shown: &Shown<'_>) -> Result<(), AllocError>
    ensures { OnOk result (HasNetParts shown.now.view.now shown.now.subject.now
        shown.now.changes.now shown.now.marks.now shown.now.spns.now.rows.items
        shown.now.checked.now page.new page.old) }
{
    let (view, subject) = (shown.view, shown.subject);
    put_last(alloc, page, view, shown.changes)?;
    put_left(alloc, page, subject, view)?;
    put_map(alloc, page, subject)?;
    put_messages(alloc, page, subject, shown.marks)?;
    put_nodes(alloc, page, subject)?;
    put_releases(alloc, page, view.releases.as_slice())?;
    put_spns(page, shown.spns);
    put_held(alloc, page, subject, view)?;
    put_tables(page, subject.sheet.tables());
    put_remarks(page, shown.checked);
    put_each(alloc, page, subject, shown.marks)
}

/// The page, with all that it shows at hand.
fn page_with(alloc: Global, shown: &Shown<'_>) -> Result<Vec<u8>, AllocError>
    ensures { IfOk result
        (λ page. ShowsNet shown.now.view.now shown.now.subject.now shown.now.changes.now
        shown.now.marks.now shown.now.spns.now.rows.items shown.now.checked.now
        page.items) }
{
    let mut page = Markup::new(alloc);
    open_document(&mut page, Kind::Net(shown.view.kind), shown.subject);
    put_head(alloc, &mut page, shown)?;
    page.close();
    page.open(Tag::Main, &[]);
    put_parts(alloc, &mut page, shown)?;
    page.into_page()
}

/// The page of the live network, of which the parts of the page show this.
fn page_about(alloc: Global, view: &View, subject: &Subject<'_>) -> Result<Vec<u8>, AllocError>
    ensures { IfOk result (λ page. ShowsSubject view.now subject.now page.items) }
{
    let differences = live_differences(alloc, view)?;
    let changes = Changes::of(alloc, &differences)?;
    let marks = marks_of(alloc, &view.sheet, &view.releases, &changes)?;
    let indexed = SpnView::of(alloc, view)?;
    let spns = SpnRows::of_network(alloc, &indexed)?;
    let checked = checked_sheet(alloc, &view.sheet)?;
    page_with(
        alloc,
        &Shown {
            view,
            subject,
            changes: &changes,
            marks: &marks,
            spns: &spns,
            checked: &checked,
        },
    )
}

/// Whether parameter groups are allotted on a network of this kind.
fn is_j1939(kind: NetKind) -> bool
    ensures { result ≡ is_j1939 kind }
{
    match kind {
        NetKind::Can => false,
        NetKind::J1939 => true,
    }
}

/// The page of the live network, whose messages these teams own, and in which these names have letters.
fn page_by(
    alloc: Global,
    view: &View,
    owners: &[&[u8]],
    letters: &Letters<'_>,
) -> Result<Vec<u8>, AllocError>
    ensures { IfOk result (λ page. map text_of owners.now ≡ view.now.owners
        → AreNamesOf (view.now.owners ++ map team_of view.now.blocks) letters.now
        → IsNetPage view.now page.items) }
{
    let name = view.name.as_bytes();
    let blocks = view.blocks.as_slice();
    let held = view.held.as_slice();
    // The names of letters ascend.
    let _ = letters.names();
    page_about(
        alloc,
        view,
        &Subject {
            name,
            sheet: &view.sheet,
            owners,
            letters,
            blocks,
            held,
            is_j1939: is_j1939(view.kind),
            is_alone: false,
        },
    )
}

/// The page of the live network. The error is out of memory.
pub fn page_of(alloc: Global, view: &View) -> Result<Vec<u8>, AllocError>
    ensures { IfOk result (λ page. IsNetPage view.now page.items) }
{
    let owners = team_names(alloc, view.owners.as_slice())?;
    let letters = net_letters(alloc, &owners, view.blocks.as_slice())?;
    page_by(alloc, view, &owners, &letters)
}
