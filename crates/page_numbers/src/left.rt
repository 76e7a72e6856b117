//! What is left of each team's numbers.
ghost use Rattle.std.specs.Prelude.{◌≡◌, [], OnOk, map, take};
ghost use Rattle.std.specs.List.{flat_map};
ghost use Rattle.markup.specs.Writing.{Becomes, adding};
ghost use Rattle.page_parts.specs.Letters.{badge};
ghost use Rattle.page_parts.specs.Subjects.{names_of};
ghost use Rattle.page_numbers.specs.Counts.{counts_of, known_in, known_of, short};
ghost use Rattle.page_parts.specs.Words.{cell};
ghost use Rattle.page_numbers.specs.Elements.{around};
ghost use Rattle.page_numbers.specs.Left.{bar_cell, block_item, block_list, block_words, blocks_html, few_html};
ghost use Rattle.page_numbers.specs.Left.{form_row, form_words, free_html, held_cell, later_html, left_body};
ghost use Rattle.page_numbers.specs.Left.{left_html, left_row, more_html, no_block_html, row_if, runs_cell};
ghost use Rattle.page_numbers.specs.Left.{runs_html, share_html, team_rows, teams_table, width_of};
ghost use Rattle.markup.specs.declared.tag.Tag.TheVariants as tag;

use crate::tally::{Tally, block_form};
use columns::Run;
use markup::{Attribute, Markup, Piece, Tag};
use office_blocks::Numbers;
use office_seen::View;
use office_types::{BlockForm, GrantedBlock, NumberForm};
use page_parts::{
    HexWidth, Letters, Shade, Subject, open_fold, open_part, open_table, open_wide, put_both,
    put_count, put_number_cell, put_quiet,
};
use std::alloc::{AllocError, Global};

/// The kinds of numbers, in the order of the table.
const FORMS: &[NumberForm] = &[
    NumberForm::Std,
    NumberForm::Ext,
    NumberForm::Pdu2,
    NumberForm::Pdu1,
    NumberForm::Spn,
];

/// The heads of the table.
const HEADS: &[&[u8]] = &[
    b"Team",
    b"Numbers",
    b"Granted",
    b"Live, held, free",
    b"Live",
    b"Held",
    b"Free",
    b"Free numbers, the next one first",
];

/// How many runs of free numbers are shown.
const SHOWN: usize = 4;

/// What the words of the table mean.
const NOTE: &[u8] =
    b"Of SPNs, held is: used once, and on no live signal here. Red is: fewer than three left, of \
    eight or more.";

/// The words for a kind of numbers.
fn form_words(form: NumberForm) -> &'static [u8]
    ensures { result.now ≡ form_words form }
{
    match form {
        NumberForm::Std => b"11 bits",
        NumberForm::Ext => b"29 bits",
        NumberForm::Pdu1 => b"PGN addressed",
        NumberForm::Pdu2 => b"PGN broadcast",
        NumberForm::Spn => b"SPN",
    }
}

/// The words for the form of a block.
fn block_words(form: BlockForm) -> &'static [u8]
    ensures { result.now ≡ block_words form }
{
    match form {
        BlockForm::Std => b"11 bits",
        BlockForm::Ext => b"29 bits",
        BlockForm::Pgn => b"PGN",
        BlockForm::Spn => b"SPN",
    }
}

/// How many hexadecimal digits numbers of a form have; suspect parameter numbers are decimal alone.
fn width_of(form: BlockForm) -> Option<HexWidth>
    ensures { result ≡ width_of form }
{
    match form {
        BlockForm::Std => Some(HexWidth::Three),
        BlockForm::Ext => Some(HexWidth::Eight),
        BlockForm::Pgn => Some(HexWidth::Four),
        BlockForm::Spn => None,
    }
}

/// The count as far as it fits, as that of the numbers of blocks that are apart does.
fn short(count: u128) -> u64
    ensures { result ≡ short count }
{
    if count > u128::from(u64::MAX) {
        u64::MAX
    } else {
        count as u64
    }
}

// ---- cells

/// Adds a part of a bar, if it isn't 0.
fn put_share(page: &mut Markup, class: &[u8], count: u128)
    ensures { Becomes page.new (adding (share_html class.now count) page.old) }
{
    if count != 0 {
        page.element(
            Tag::Italic,
            &[
                Attribute::Class(class),
                Attribute::Flex(short(count) as usize),
            ],
            b"",
        );
    }
}

/// Adds a cell with a bar of what is live, held and free, in the team's colour.
#[tactic(auto, using(markup::proofs::Changes::joins), unfolding(crate::specs::Left::bar_cell))]
fn put_bar(page: &mut Markup, letters: &Letters<'_>, team: &[u8], tally: &Tally)
    ensures { Becomes page.new
        (adding (bar_cell letters.now team.now (counts_of tally.now)) page.old) }
{
    page.open(Tag::Cell, &[]);
    page.open(Tag::Division, &[Attribute::Class(b"bar")]);
    put_share(page, letters.class_of(Shade::Live, team), tally.live);
    put_share(page, letters.class_of(Shade::Held, team), tally.held);
    put_share(page, letters.class_of(Shade::Free, team), tally.free);
    page.close();
    page.close();
}

/// Adds a cell with how many numbers are held, if any.
fn put_held_cell(page: &mut Markup, held: u128)
    ensures { Becomes page.new (adding (held_cell held) page.old) }
{
    if held == 0 {
        page.element(Tag::Cell, &[], b"");
    } else {
        put_number_cell(page, short(held));
    }
}

/// Adds how many numbers are free, which are few, in red.
fn put_few(page: &mut Markup, free: u128)
    ensures { Becomes page.new (adding (few_html free) page.old) }
{
    if free == 0 {
        page.element(Tag::Emphasis, &[], b"none");
        return;
    }
    page.open(Tag::Emphasis, &[]);
    page.text(b"only ");
    page.number(short(free));
    page.close();
}

/// Adds how many numbers are free, in red where they are few.
#[tactic(auto, using(markup::proofs::Changes::joins), unfolding(crate::specs::Left::free_html))]
fn put_free(page: &mut Markup, tally: &Tally)
    ensures { Becomes page.new (adding (free_html (counts_of tally.now)) page.old) }
{
    if tally.is_scarce() {
        put_few(page, tally.free);
    } else {
        page.number(short(tally.free));
    }
}

/// Adds a cell with how many numbers are free.
fn put_free_cell(page: &mut Markup, tally: &Tally)
    ensures { Becomes page.new (adding (cell (free_html (counts_of tally.now))) page.old) }
{
    page.open(Tag::Cell, &[]);
    put_free(page, tally);
    page.close();
}

/// Adds runs of numbers, each after a comma.
fn put_later_runs(page: &mut Markup, width: Option<HexWidth>, later: &[Run])
    ensures { Becomes page.new (adding (later_html width later.now) page.old) }
{
    for run in later {
        page.text(b", ");
        put_both(page, width, *run);
    }
}

/// Adds runs of numbers with commas between.
fn put_runs(page: &mut Markup, width: Option<HexWidth>, runs: &[Run])
    ensures { Becomes page.new (adding (runs_html width runs.now) page.old) }
{
    if let [first, later @ ..] = runs {
        put_both(page, width, *first);
        put_later_runs(page, width, later);
    }
}

/// Adds how many more runs there are, if any.
fn put_more(page: &mut Markup, more: usize)
    ensures { Becomes page.new (adding (more_html more) page.old) }
{
    if more != 0 {
        page.text(b" and ");
        page.number(more as u64);
        page.text(b" more");
    }
}

/// The first runs.
fn first_runs(runs: &[Run]) -> &[Run]
    ensures { result.now ≡ take 4 runs.now }
{
    if runs.len() > SHOWN {
        return &runs[..SHOWN];
    }
    runs
}

/// Adds a cell with the first runs of free numbers, and how many more there are.
#[tactic(auto, using(markup::proofs::Changes::joins), unfolding(crate::specs::Left::runs_cell))]
fn put_runs_cell(page: &mut Markup, form: NumberForm, runs: &[Run])
    ensures { Becomes page.new (adding (runs_cell form runs.now) page.old) }
{
    page.open(Tag::Cell, &[]);
    put_runs(page, width_of(block_form(form)), first_runs(runs));
    put_more(page, runs.len().saturating_sub(SHOWN));
    page.close();
}

// ---- rows

/// Adds the team after its letter, at the head of a row.
fn put_team_head(page: &mut Markup, letters: &Letters<'_>, team: &[u8])
    ensures { Becomes page.new (adding (around tag.HeadCell [] (badge letters.now team.now)) page.old) }
{
    page.open(Tag::HeadCell, &[]);
    letters.put_badge(page, team);
    page.close();
}

/// Adds the row of a team's numbers of a kind.
#[tactic(auto, using(markup::proofs::Changes::joins), unfolding(crate::specs::Left::left_row))]
fn put_row(page: &mut Markup, letters: &Letters<'_>, team: &[u8], form: NumberForm, tally: &Tally)
    ensures { Becomes page.new
        (adding (left_row letters.now team.now form (counts_of tally.now)) page.old) }
{
    page.open(Tag::Row, &[]);
    put_team_head(page, letters, team);
    page.element(Tag::Cell, &[], form_words(form));
    put_number_cell(page, short(tally.granted()));
    put_bar(page, letters, team, tally);
    put_number_cell(page, short(tally.live));
    put_held_cell(page, tally.held);
    put_free_cell(page, tally);
    put_runs_cell(page, form, &tally.runs);
    page.close();
}

/// Adds the row of a team's numbers of a kind, if it has one.
fn put_row_if(
    page: &mut Markup,
    letters: &Letters<'_>,
    team: &[u8],
    form: NumberForm,
    tally: &Tally,
)
    ensures { Becomes page.new
        (adding (row_if letters.now team.now form (counts_of tally.now)) page.old) }
{
    if tally.granted() != 0 {
        put_row(page, letters, team, form, tally);
    }
}

/// Adds the row of what is left of a team's numbers of a kind, if it has one.
fn put_form(
    alloc: Global,
    page: &mut Markup,
    subject: &Subject<'_>,
    numbers: &Numbers,
    team: &[u8],
    form: NumberForm,
) -> Result<(), AllocError>
    ensures { OnOk result (Becomes page.new (adding (form_row (known_in numbers.now)
        subject.now.blocks.now (names_of subject.now) team.now form) page.old)) }
{
    let tally = Tally::of(alloc, subject.blocks, numbers, team, form)?;
    put_row_if(page, subject.letters, team, form, &tally);
    Ok(())
}

/// Adds the rows of a team: one for each kind of which it has a number.
fn put_team(
    alloc: Global,
    page: &mut Markup,
    subject: &Subject<'_>,
    numbers: &Numbers,
    team: &[u8],
) -> Result<(), AllocError>
    ensures { OnOk result (Becomes page.new (adding (team_rows (known_in numbers.now)
        subject.now.blocks.now (names_of subject.now) team.now) page.old)) }
{
    for form in FORMS {
        put_form(alloc, page, subject, numbers, team, *form)?;
    }
    Ok(())
}

/// Adds the rows of these teams.
fn put_rows(
    alloc: Global,
    page: &mut Markup,
    subject: &Subject<'_>,
    numbers: &Numbers,
    teams: &[&[u8]],
) -> Result<(), AllocError>
    ensures { OnOk result (Becomes page.new (adding (flat_map (team_rows (known_in numbers.now)
        subject.now.blocks.now (names_of subject.now)) (map (λ team. team.now) teams.now)) page.old)) }
{
    for team in teams {
        put_team(alloc, page, subject, numbers, team)?;
    }
    Ok(())
}

/// Adds the table of all teams.
fn put_table(
    alloc: Global,
    page: &mut Markup,
    subject: &Subject<'_>,
    numbers: &Numbers,
) -> Result<(), AllocError>
    ensures { OnOk result (Becomes page.new
        (adding (teams_table (known_in numbers.now) subject.now) page.old)) }
{
    open_wide(page, &[Piece::Text(b"Numbers left")]);
    open_table(page, b"nums lot", HEADS);
    put_rows(alloc, page, subject, numbers, subject.letters.names())?;
    page.close();
    page.close();
    page.close();
    Ok(())
}

/// Adds the table of what is left of each team's numbers.
fn put_teams(
    alloc: Global,
    page: &mut Markup,
    subject: &Subject<'_>,
    view: &View,
) -> Result<(), AllocError>
    ensures { OnOk result (Becomes page.new
        (adding (teams_table (known_of view.now) subject.now) page.old)) }
{
    let numbers = Numbers::of(alloc, view)?;
    put_table(alloc, page, subject, &numbers)
}

// ---- blocks

/// Adds a block and whose it is.
#[tactic(auto, using(markup::proofs::Changes::joins), unfolding(crate::specs::Left::block_item))]
fn put_block(page: &mut Markup, letters: &Letters<'_>, granted: &GrantedBlock)
    ensures { Becomes page.new (adding (block_item letters.now granted.now) page.old) }
{
    let form = granted.block.form();
    let range = granted.block.numbers();
    let numbers = Run {
        first: range.first,
        last: range.last,
    };
    page.open(Tag::Item, &[]);
    page.element(Tag::Bold, &[], block_words(form));
    page.text(b" ");
    put_both(page, width_of(form), numbers);
    page.text(b" ");
    letters.put_badge(page, granted.team.as_bytes());
    page.close();
}

/// Adds the items of the blocks.
fn put_items(page: &mut Markup, letters: &Letters<'_>, blocks: &[GrantedBlock])
    ensures { Becomes page.new (adding (flat_map (block_item letters.now) blocks.now) page.old) }
{
    for granted in blocks {
        put_block(page, letters, granted);
    }
}

/// Adds the list of the blocks.
fn put_list(page: &mut Markup, letters: &Letters<'_>, blocks: &[GrantedBlock])
    ensures { Becomes page.new (adding (block_list letters.now blocks.now) page.old) }
{
    page.open(Tag::List, &[Attribute::Class(b"cols")]);
    put_items(page, letters, blocks);
    page.close();
}

/// Adds a fold of all blocks.
fn put_blocks(page: &mut Markup, subject: &Subject<'_>)
    ensures { Becomes page.new (adding (blocks_html subject.now) page.old) }
{
    open_fold(page, false);
    put_count(page, subject.blocks.len(), b"block");
    page.close();
    put_list(page, subject.letters, subject.blocks);
    page.close();
}

// ---- the part

/// Adds how a block is granted, for a network that has no blocks.
fn put_no_block(page: &mut Markup, name: &[u8])
    ensures { Becomes page.new (adding (no_block_html name.now) page.old) }
{
    page.open(Tag::Paragraph, &[]);
    page.text(b"No block is granted. ");
    put_quiet(page, b"The office grants them: ");
    page.open(Tag::Code, &[]);
    page.text(b"grant net=");
    page.text(name);
    page.text(b" team=.. form=.. first=.. last=..");
    page.close();
    page.close();
}

/// Adds the table and the blocks, or that no block is granted.
fn put_body(
    alloc: Global,
    page: &mut Markup,
    subject: &Subject<'_>,
    view: &View,
) -> Result<(), AllocError>
    ensures { OnOk result (Becomes page.new (adding (left_body view.now subject.now) page.old)) }
{
    if subject.blocks.is_empty() {
        put_no_block(page, subject.name);
        return Ok(());
    }
    put_teams(alloc, page, subject, view)?;
    page.element(Tag::Paragraph, &[Attribute::Class(b"q")], NOTE);
    put_blocks(page, subject);
    Ok(())
}

/// Adds what is left of each team's numbers.
pub fn put_left(
    alloc: Global,
    page: &mut Markup,
    subject: &Subject<'_>,
    view: &View,
) -> Result<(), AllocError>
    ensures { OnOk result (Becomes page.new (adding (left_html view.now subject.now) page.old)) }
{
    open_part(page, b"left", b"Numbers left", None);
    put_body(alloc, page, subject, view)?;
    page.close();
    Ok(())
}
