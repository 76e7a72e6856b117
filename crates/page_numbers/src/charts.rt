//! The charts that the map is of, and their rows.
ghost use Rattle.std.specs.Prelude.{◌≡◌, ◌-◌, ◌∷◌, [], ◌++◌, OnOk};
ghost use Rattle.std.specs.List.{flat_map, range_with_len};
ghost use Rattle.office_blocks.specs.Numbers.{HaveSame};
ghost use Rattle.office_types.specs.Block.{same_form};
ghost use Rattle.page_numbers.specs.Charts.{form_of, has, is_shown, number_in, row_of, shows, width_of};
ghost use Rattle.page_numbers.specs.Rows.{block_rows, granted_rows, ident_row, message_row, own_row, shown_row};

use crate::index::number_of;
use crate::near::Blocks;
use can_id::Ident;
use dbc_sheet::Message;
use office_types::{BlockForm, FormBlock, GrantedBlock};
use page_parts::{HexWidth, is_addressed, is_broadcast};
use std::alloc::AllocError;

/// Numbers that the map has apart from others.
#[derive(Clone, Copy, PartialEq, Eq)]
pub(crate) enum Chart {
    /// 11-bit identifiers.
    Standard,
    /// Parameter groups that are sent to all nodes.
    Broadcast,
    /// Parameter groups with a destination address.
    Addressed,
    /// 29-bit identifiers.
    Extended,
}

/// The charts in the order of the map.
pub(crate) const CHARTS: &[Chart] = &[
    Chart::Standard,
    Chart::Broadcast,
    Chart::Addressed,
    Chart::Extended,
];

impl Chart {
    /// The form of its numbers.
    pub(crate) fn form(self) -> BlockForm
        ensures { result ≡ form_of self }
    {
        match self {
            Chart::Standard => BlockForm::Std,
            Chart::Broadcast | Chart::Addressed => BlockForm::Pgn,
            Chart::Extended => BlockForm::Ext,
        }
    }

    /// Whether a number of the form is one of the chart.
    pub(crate) fn has(self, number: u32) -> bool
        ensures { result ≡ has self number }
    {
        match self {
            Chart::Standard | Chart::Extended => true,
            Chart::Broadcast => is_broadcast(number),
            Chart::Addressed => is_addressed(number),
        }
    }

    /// What its tables are called.
    pub(crate) fn words(self) -> &'static [u8] {
        match self {
            Chart::Standard => b"11 bits",
            Chart::Broadcast => b"PGN",
            Chart::Addressed => b"PGN, addressed",
            Chart::Extended => b"29 bits",
        }
    }

    /// How many hexadecimal digits its numbers have.
    pub(crate) fn width(self) -> HexWidth
        ensures { result ≡ width_of self }
    {
        match self {
            Chart::Standard => HexWidth::Three,
            Chart::Broadcast | Chart::Addressed => HexWidth::Four,
            Chart::Extended => HexWidth::Eight,
        }
    }

    /// The first and the last number of the page that has the number.
    pub(crate) fn page_of(self, number: u32) -> (u32, u32) {
        match self {
            Chart::Addressed => (number & 0xffff_0000, number & 0xffff_0000 | 0xff00),
            Chart::Standard | Chart::Broadcast | Chart::Extended => {
                (number & 0xffff_ff00, number | 0xff)
            }
        }
    }

    /// The first number of the row of 16 that has the number.
    fn row_of(self, number: u32) -> u32
        ensures { result ≡ row_of self number }
    {
        match self {
            Chart::Addressed => number - number % 4096,
            Chart::Standard | Chart::Broadcast | Chart::Extended => number - number % 16,
        }
    }

    /// The number in a column, 0 to 15, of the row that has the number.
    pub(crate) fn number_in(self, number: u32, column: u32) -> u32
        ensures { result ≡ number_in self number column }
    {
        match self {
            Chart::Addressed => number - number % 4096 + 256 * (column % 16),
            Chart::Standard | Chart::Broadcast | Chart::Extended => {
                number - number % 16 + column % 16
            }
        }
    }

    /// Whether the page shows the chart.
    pub(crate) fn is_shown(self, is_j1939: bool) -> bool
        ensures { result ≡ is_shown self is_j1939 }
    {
        match self {
            Chart::Standard | Chart::Extended => true,
            Chart::Broadcast | Chart::Addressed => is_j1939,
        }
    }

    /// Whether the row of the number, which is live or held, is shown: of a J1939 network 29-bit identifiers are only
    /// where a block has them.
    fn shows(self, is_j1939: bool, blocks: &Blocks<'_>, number: u32) -> bool
        ensures { result ≡ shows self is_j1939 blocks.now number }
    {
        match self {
            Chart::Standard => true,
            Chart::Broadcast | Chart::Addressed => self.has(number),
            Chart::Extended => !is_j1939 || blocks.has(BlockForm::Ext, number),
        }
    }
}

/// Adds the row, unless it was the last one that was added.
fn add_row(rows: &mut Vec<u32>, row: u32) -> Result<(), AllocError>
    ensures { OnOk result (HaveSame rows.new.items (rows.old.items ++ row ∷ [])) }
{
    if let Some(last) = rows.last()
        && *last == row
    {
        return Ok(());
    }
    rows.push(row)?;
    Ok(())
}

// ---- of live and of held numbers

/// Adds the row of a number that is live or held, if it is shown.
fn add_shown(
    rows: &mut Vec<u32>,
    chart: Chart,
    is_j1939: bool,
    blocks: &Blocks<'_>,
    number: u32,
) -> Result<(), AllocError>
    ensures { OnOk result (HaveSame rows.new.items
        (rows.old.items ++ shown_row chart is_j1939 blocks.now number)) }
{
    if chart.shows(is_j1939, blocks, number) {
        return add_row(rows, chart.row_of(number));
    }
    Ok(())
}

/// Adds the row of the identifier's number, if it has one that is shown.
fn add_ident(
    rows: &mut Vec<u32>,
    chart: Chart,
    is_j1939: bool,
    blocks: &Blocks<'_>,
    ident: Ident,
) -> Result<(), AllocError>
    ensures { OnOk result (HaveSame rows.new.items
        (rows.old.items ++ ident_row chart is_j1939 blocks.now ident)) }
{
    match number_of(chart.form(), ident) {
        Some(number) => add_shown(rows, chart, is_j1939, blocks, number),
        None => Ok(()),
    }
}

/// Adds the rows of the messages.
pub(crate) fn add_live(
    rows: &mut Vec<u32>,
    chart: Chart,
    is_j1939: bool,
    blocks: &Blocks<'_>,
    messages: &[Message],
) -> Result<(), AllocError>
    ensures { OnOk result (HaveSame rows.new.items
        (rows.old.items ++ flat_map (message_row chart is_j1939 blocks.now) messages.now)) }
{
    for message in messages {
        add_ident(rows, chart, is_j1939, blocks, message.ident)?;
    }
    Ok(())
}

/// Adds the rows of the held identifiers.
pub(crate) fn add_held(
    rows: &mut Vec<u32>,
    chart: Chart,
    is_j1939: bool,
    blocks: &Blocks<'_>,
    held: &[Ident],
) -> Result<(), AllocError>
    ensures { OnOk result (HaveSame rows.new.items
        (rows.old.items ++ flat_map (ident_row chart is_j1939 blocks.now) held.now)) }
{
    for ident in held {
        add_ident(rows, chart, is_j1939, blocks, *ident)?;
    }
    Ok(())
}

// ---- of blocks

/// Adds the row of the number, if it is one of the chart.
fn add_own(rows: &mut Vec<u32>, chart: Chart, number: u32) -> Result<(), AllocError>
    ensures { OnOk result (HaveSame rows.new.items (rows.old.items ++ own_row chart number)) }
{
    if chart.has(number) {
        return add_row(rows, chart.row_of(number));
    }
    Ok(())
}

/// Adds the rows of the numbers from `first` on below `end`.
fn add_numbers(rows: &mut Vec<u32>, chart: Chart, first: u32, end: u32) -> Result<(), AllocError>
    ensures { OnOk result (HaveSame rows.new.items
        (rows.old.items ++ flat_map (own_row chart) (range_with_len first (end - first)))) }
{
    for number in first..end {
        add_own(rows, chart, number)?;
    }
    Ok(())
}

/// Adds the rows of 29-bit identifiers in which a block has its ends.
fn add_ends(rows: &mut Vec<u32>, first: u32, last: u32) -> Result<(), AllocError>
    ensures { OnOk result (HaveSame rows.new.items (rows.old.items
        ++ row_of Chart.Extended first ∷ row_of Chart.Extended last ∷ [])) }
{
    add_row(rows, Chart::Extended.row_of(first))?;
    add_row(rows, Chart::Extended.row_of(last))
}

/// Adds the rows of a block of the chart's form: of 29-bit identifiers only those of its ends.
fn add_block(rows: &mut Vec<u32>, chart: Chart, block: FormBlock) -> Result<(), AllocError>
    ensures { OnOk result (HaveSame rows.new.items (rows.old.items ++ block_rows chart block)) }
{
    let _form = block.form();
    let range = block.numbers();
    match chart {
        Chart::Extended => add_ends(rows, range.first, range.last),
        Chart::Standard | Chart::Broadcast | Chart::Addressed => {
            add_numbers(rows, chart, range.first, range.last + 1)
        }
    }
}

/// Whether the block has the form.
fn is_of(form: BlockForm, granted: &GrantedBlock) -> bool
    ensures { result ≡ same_form granted.now.block.form form }
{
    granted.block.form() == form
}

/// Adds the rows of a block, if it has the chart's form.
fn add_granted(rows: &mut Vec<u32>, chart: Chart, granted: &GrantedBlock) -> Result<(), AllocError>
    ensures { OnOk result (HaveSame rows.new.items
        (rows.old.items ++ granted_rows chart granted.now)) }
{
    if is_of(chart.form(), granted) {
        return add_block(rows, chart, granted.block);
    }
    Ok(())
}

/// Adds the rows of the blocks.
pub(crate) fn add_blocks(
    rows: &mut Vec<u32>,
    chart: Chart,
    blocks: &[GrantedBlock],
) -> Result<(), AllocError>
    ensures { OnOk result (HaveSame rows.new.items
        (rows.old.items ++ flat_map (granted_rows chart) blocks.now)) }
{
    for granted in blocks {
        add_granted(rows, chart, granted)?;
    }
    Ok(())
}
