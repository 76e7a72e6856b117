//! The suspect parameter numbers of a network.
ghost use Rattle.std.specs.Prelude.{◌≡◌, ◌++◌, ◌∷◌, [], Some, count_by, map, IfOk, OnOk};
ghost use Rattle.std.specs.List.{list_any};
ghost use Rattle.std.specs.Option.{option_copied};
ghost use Rattle.office_seen.specs.Since.{releases_where};
ghost use Rattle.office_spns.specs.Spns.{has_spn, is_granted, is_shown, place_facts, released_places, same_use};
ghost use Rattle.office_spns.specs.Spns.{shown_places, shown_spns, spn_row, spn_rows, spns_table, use_of, use_word};
ghost use Rattle.rows.specs.Fact.{of_ident, of_name};

use crate::spn_index::SpnPlace;
use crate::spn_use::SpnUse;
use crate::spn_view::SpnView;
use base::Items;
use can_id::Ident;
use columns::runs_of;
use office_seen::{View, has_number_in};
use office_types::BlockForm;
use rows::{Alignment, Cell, Column, Rows, Table};
use std::alloc::{AllocError, Global};

/// Whether the number is in a block of the network.
fn is_granted(view: &SpnView, number: u32) -> bool
    ensures { result ≡ is_granted number view.now }
{
    view.view()
        .blocks
        .as_slice()
        .iter()
        .any(|granted| has_number_in(BlockForm::Spn, number, granted))
}

/// Whether a signal of a release has the number.
fn is_released(view: &SpnView, number: u32) -> bool
    ensures { result ≡ list_any (has_spn number) view.now.releases }
{
    view.releases().iter().any(|release| release.has(number))
}

/// What has become of the number.
pub fn use_of(view: &SpnView, number: u32) -> SpnUse
    ensures { result ≡ use_of number view.now }
{
    if view.live().has(number) {
        SpnUse::Live
    } else if is_released(view, number) {
        SpnUse::Gone
    } else {
        SpnUse::Used
    }
}

/// Whether the number, which was used, is shown: it is live or released here, or in a block of the network.
fn is_shown(view: &SpnView, number: u32) -> bool
    ensures { result ≡ is_shown view.now number }
{
    view.live().has(number) || is_released(view, number) || is_granted(view, number)
}

/// Where the last release that has the number has it.
fn released_places<'v, 'a>(view: &'v SpnView<'a>, number: u32) -> &'v [SpnPlace<'a>]
    ensures { result.now ≡ released_places number view.now.releases }
{
    let mut found: &[SpnPlace] = &[];
    for release in view.releases() {
        if release.has(number) {
            found = release.places(number);
        }
    }
    found
}

/// Where the number is shown: at its live places, else at those of the last release that has it.
pub fn shown_places<'v, 'a>(view: &'v SpnView<'a>, number: u32) -> &'v [SpnPlace<'a>]
    ensures { result.now ≡ shown_places number view.now }
{
    let live = view.live().places(number);
    if live.is_empty() {
        released_places(view, number)
    } else {
        live
    }
}

/// The numbers of the releases, from 1, in which a signal has the number.
pub fn releases_with(alloc: Global, view: &SpnView, number: u32) -> Result<Vec<u32>, AllocError>
    ensures { IfOk result
        (λ releases. releases.items ≡ releases_where (has_spn number) view.now.releases) }
{
    let mut numbers = Vec::new(alloc);
    let mut release = 1u32;
    for index in view.releases() {
        if index.has(number) {
            numbers.push(release)?;
        }
        release += 1;
    }
    Ok(numbers)
}

/// The word for what has become of a number.
fn use_word(spn_use: SpnUse) -> &'static [u8]
    ensures { result.now ≡ use_word spn_use }
{
    match spn_use {
        SpnUse::Live => b"live",
        SpnUse::Gone => b"gone",
        SpnUse::Used => b"used",
    }
}

/// The columns of a suspect parameter number at a place.
pub const SPNS: [Column; 6] = [
    Column(*b"spn         ", Alignment::Right(6)),
    Column(*b"use         ", Alignment::Left(4)),
    Column(*b"releases    ", Alignment::Right(5)),
    Column(*b"identifier  ", Alignment::Plain),
    Column(*b"message     ", Alignment::Plain),
    Column(*b"signal      ", Alignment::Plain),
];

/// How many numbers there are, and of how many of them each has become.
pub const SPN_TOTALS: [Column; 4] = [
    Column(*b"spns        ", Alignment::Counted(0)),
    Column(*b"live        ", Alignment::Counted(0)),
    Column(*b"gone        ", Alignment::Counted(0)),
    Column(*b"used        ", Alignment::Counted(0)),
];

/// The identifier, the message and the signal of the place, if there is one.
fn place_facts<'a>(place: Option<&SpnPlace<'a>>) -> (Option<Ident>, &'a [u8], &'a [u8])
    ensures { of_ident result.0 ∷ of_name result.1.now ∷ of_name result.2.now ∷ []
        ≡ place_facts (option_copied place.entry) }
{
    match place {
        None => (None, b"-", b"-"),
        Some(place) => {
            let message = place.message();
            let signal = place.signal();
            (
                Some(message.ident),
                message.name.as_bytes(),
                signal.name.as_bytes(),
            )
        }
    }
}

/// Adds the row of the number, which these releases have, at the place or at none.
fn push_at<'a>(
    alloc: Global,
    rows: &mut Rows<'a>,
    view: &SpnView<'a>,
    number: u32,
    releases: &[u32],
    place: Option<&SpnPlace<'a>>,
) -> Result<(), AllocError>
    requires { releases.now ≡ releases_where (has_spn number) view.now.releases }
    ensures { OnOk result (rows.new
        ≡ rows.old ++ spn_row view.now number (option_copied place.entry) ∷ []) }
{
    let runs = runs_of(alloc, 1, releases)?;
    let (ident, message, signal) = place_facts(place);
    let cells = vec![in alloc;
        Cell::Number(u128::from(number)),
        Cell::Name(use_word(use_of(view, number))),
        Cell::Runs(Items::from_vec(runs)),
        Cell::Ident(ident),
        Cell::Name(message),
        Cell::Name(signal),
    ]?;
    rows.push(cells)
}

/// Adds the rows of the number, which these releases have, at the places.
fn push_places<'a>(
    alloc: Global,
    rows: &mut Rows<'a>,
    view: &SpnView<'a>,
    number: u32,
    releases: &[u32],
    places: &[SpnPlace<'a>],
) -> Result<(), AllocError>
    requires { releases.now ≡ releases_where (has_spn number) view.now.releases }
    ensures { OnOk result (rows.new
        ≡ rows.old ++ map (λ p. spn_row view.now number (Some p)) places.now) }
{
    for place in places {
        push_at(alloc, rows, view, number, releases, Some(place))?;
    }
    Ok(())
}

/// Adds the rows of the number: one for each place at which it is shown, and one where it is shown at none. The error
/// is out of memory.
pub fn push_spn<'a>(
    alloc: Global,
    rows: &mut Rows<'a>,
    view: &SpnView<'a>,
    number: u32,
) -> Result<(), AllocError>
    ensures { OnOk result (rows.new ≡ rows.old ++ spn_rows view.now number) }
{
    let releases = releases_with(alloc, view, number)?;
    let places = shown_places(view, number);
    match places {
        [] => push_at(alloc, rows, view, number, &releases, None),
        [_, ..] => push_places(alloc, rows, view, number, &releases, places),
    }
}

/// The numbers that are shown, of those that were used, in ascending order.
pub fn shown_spns(alloc: Global, view: &SpnView) -> Result<Vec<u32>, AllocError>
    ensures { IfOk result (λ numbers. numbers.items ≡ shown_spns view.now) }
{
    let mut numbers = Vec::new(alloc);
    for number in view.view().used.as_slice() {
        if is_shown(view, *number) {
            numbers.push(*number)?;
        }
    }
    Ok(numbers)
}

/// Whether both are the same.
fn same_use(first: SpnUse, second: SpnUse) -> bool
    ensures { result ≡ same_use first second }
{
    match (first, second) {
        (SpnUse::Live, SpnUse::Live)
        | (SpnUse::Gone, SpnUse::Gone)
        | (SpnUse::Used, SpnUse::Used) => true,
        _ => false,
    }
}

/// Of how many of the numbers this has become.
fn used_so(view: &SpnView, numbers: &[u32], wanted: SpnUse) -> usize
    ensures { result ≡ count_by (λ n. same_use (use_of n view.now) wanted) numbers.now }
{
    let mut count = 0;
    for number in numbers {
        if same_use(use_of(view, *number), wanted) {
            count += 1;
        }
    }
    count
}

/// The numbers that are shown, each with what has become of it, its releases and its places.
fn indexed_table<'a>(alloc: Global, view: &SpnView<'a>) -> Result<Table<'a>, AllocError>
    ensures { IfOk result (λ table. table ≡ spns_table view.now) }
{
    let numbers = shown_spns(alloc, view)?;
    let mut rows = Rows::new(alloc);
    for number in &numbers {
        push_spn(alloc, &mut rows, view, *number)?;
    }
    let totals = vec![in alloc;
        Cell::Number(numbers.len() as u128),
        Cell::Number(used_so(view, &numbers, SpnUse::Live) as u128),
        Cell::Number(used_so(view, &numbers, SpnUse::Gone) as u128),
        Cell::Number(used_so(view, &numbers, SpnUse::Used) as u128),
    ]?;
    Table::plain(alloc, &SPNS, rows, &SPN_TOTALS, totals)
}

/// The network's suspect parameter numbers: those that are shown, with what has become of each, its releases and its
/// places, and how many there are. The error is out of memory.
pub fn spns_table(alloc: Global, view: &View) -> Result<Table<'_>, AllocError>
    ensures { IfOk result (λ table. table ≡ spns_table view.now) }
{
    let indexed = SpnView::of(alloc, view)?;
    indexed_table(alloc, &indexed)
}
