//! The identifiers that are held for good.
ghost use Rattle.std.specs.Prelude.{◌≡◌, OnOk, map};
ghost use Rattle.std.specs.List.{flat_map};
ghost use Rattle.can_id.specs.J1939.{ident_fields};
ghost use Rattle.markup.specs.Writing.{Becomes, adding};
ghost use Rattle.office_seen.specs.Owners.{last_name, team_of};
ghost use Rattle.page_parts.specs.Letters.{badge};
ghost use Rattle.page_parts.specs.Subjects.{names_of};
ghost use Rattle.page_parts.specs.Words.{cell};
ghost use Rattle.page_numbers.specs.Held.{group_cell, heads_of, held_html, held_row, held_table, ident_head};
ghost use Rattle.page_numbers.specs.Held.{name_cell, number_cells, team_cell};

use crate::near::Blocks;
use can_id::{Ident, J1939};
use markup::{Markup, Piece, Tag};
use office_seen::{FrozenSheets, View, last_name, releases_text};
use page_parts::{
    Letters, Subject, open_part, open_table, open_wide, put_ident_hex, put_number_cell,
};
use std::alloc::{AllocError, Global};

/// The heads of the table.
const HEADS: &[&[u8]] = &[
    b"Number",
    b"DBC number",
    b"Last name",
    b"Releases",
    b"In the block of",
];

/// The heads of the table of a J1939 network.
const GROUP_HEADS: &[&[u8]] = &[
    b"Number",
    b"DBC number",
    b"PGN",
    b"Last name",
    b"Releases",
    b"In the block of",
];

/// The heads of the table of a network that is one of J1939 or isn't.
fn heads_of(is_j1939: bool) -> &'static [&'static [u8]]
    ensures { map (λ head. head.now) result.now ≡ heads_of is_j1939 }
{
    if is_j1939 { GROUP_HEADS } else { HEADS }
}

/// Adds a cell with the identifier's parameter group, if it has one.
fn put_group(page: &mut Markup, ident: &Ident)
    ensures { Becomes page.new (adding (group_cell (ident_fields ident.now)) page.old) }
{
    match J1939::of(*ident) {
        Some(fields) => put_number_cell(page, u64::from(fields.pgn())),
        None => page.element(Tag::Cell, &[], b""),
    }
}

/// Adds the identifier at the head of a row.
fn put_ident(page: &mut Markup, ident: &Ident)
    ensures { Becomes page.new (adding (ident_head ident.now) page.old) }
{
    page.open(Tag::HeadCell, &[]);
    page.open(Tag::Code, &[]);
    put_ident_hex(page, ident);
    page.close();
    page.close();
}

/// Adds the cells of the identifier's numbers.
#[tactic(auto, using(markup::proofs::Changes::joins), unfolding(crate::specs::Held::number_cells))]
fn put_numbers(page: &mut Markup, ident: &Ident, is_j1939: bool)
    ensures { Becomes page.new (adding (number_cells is_j1939 ident.now) page.old) }
{
    put_ident(page, ident);
    put_number_cell(page, u64::from(ident.to_dbc()));
    if is_j1939 {
        put_group(page, ident);
    }
}

/// Adds a cell with the identifier's name in the last release that has it.
#[tactic(auto, using(markup::proofs::Changes::joins), unfolding(crate::specs::Held::name_cell))]
fn put_last_name(page: &mut Markup, releases: &FrozenSheets, ident: &Ident)
    ensures { Becomes page.new (adding (name_cell (last_name releases.now ident.now)) page.old) }
{
    match last_name(releases, ident) {
        Some(name) => page.element(Tag::Cell, &[], name.as_bytes()),
        None => page.element(Tag::Cell, &[], b"-"),
    }
}

/// Adds a cell with the team after its letter.
fn put_team(page: &mut Markup, letters: &Letters<'_>, team: &[u8])
    ensures { Becomes page.new (adding (cell (badge letters.now team.now)) page.old) }
{
    page.open(Tag::Cell, &[]);
    letters.put_badge(page, team);
    page.close();
}

/// Adds a cell with the team of the identifier's block, if it is in one.
#[tactic(auto, using(markup::proofs::Changes::joins), unfolding(crate::specs::Held::team_cell))]
fn put_team_of(page: &mut Markup, letters: &Letters<'_>, blocks: &Blocks<'_>, ident: &Ident)
    ensures { Becomes page.new
        (adding (team_cell letters.now (team_of blocks.now ident.now)) page.old) }
{
    match blocks.team_of(ident) {
        Some(team) => put_team(page, letters, team.as_bytes()),
        None => page.element(Tag::Cell, &[], b""),
    }
}

/// Adds the row of a held identifier.
#[tactic(auto, using(markup::proofs::Changes::joins), unfolding(crate::specs::Held::held_row))]
fn put_row(
    alloc: Global,
    page: &mut Markup,
    subject: &Subject<'_>,
    blocks: &Blocks<'_>,
    releases: &FrozenSheets,
    ident: &Ident,
) -> Result<(), AllocError>
    ensures { OnOk result (Becomes page.new (adding (held_row subject.now.is_j1939
        (names_of subject.now) blocks.now releases.now ident.now) page.old)) }
{
    let runs = releases_text(alloc, releases, ident.to_dbc())?;
    page.open(Tag::Row, &[]);
    put_numbers(page, ident, subject.is_j1939);
    put_last_name(page, releases, ident);
    page.element(Tag::Cell, &[], &runs);
    put_team_of(page, subject.letters, blocks, ident);
    page.close();
    Ok(())
}

/// Adds the rows of the held identifiers.
fn put_rows(
    alloc: Global,
    page: &mut Markup,
    subject: &Subject<'_>,
    blocks: &Blocks<'_>,
    releases: &FrozenSheets,
    held: &[Ident],
) -> Result<(), AllocError>
    ensures { OnOk result (Becomes page.new (adding (flat_map (held_row subject.now.is_j1939
        (names_of subject.now) blocks.now releases.now) held.now) page.old)) }
{
    for ident in held {
        put_row(alloc, page, subject, blocks, releases, ident)?;
    }
    Ok(())
}

/// Adds the table of the held identifiers.
fn put_table(
    alloc: Global,
    page: &mut Markup,
    subject: &Subject<'_>,
    releases: &FrozenSheets,
) -> Result<(), AllocError>
    ensures { OnOk result (Becomes page.new
        (adding (held_table subject.now releases.now) page.old)) }
{
    let blocks = Blocks::of(subject.blocks);
    open_table(page, b"nums", heads_of(subject.is_j1939));
    put_rows(alloc, page, subject, &blocks, releases, subject.held)?;
    page.close();
    page.close();
    Ok(())
}

/// Adds the identifiers that are held for good, if there are any.
pub fn put_held(
    alloc: Global,
    page: &mut Markup,
    subject: &Subject<'_>,
    view: &View,
) -> Result<(), AllocError>
    ensures { OnOk result (Becomes page.new
        (adding (held_html subject.now view.now.releases) page.old)) }
{
    if subject.held.is_empty() {
        return Ok(());
    }
    open_part(page, b"held", b"Held for good", None);
    open_wide(page, &[Piece::Text(b"Held")]);
    put_table(alloc, page, subject, &view.releases)?;
    page.close();
    page.close();
    Ok(())
}
