//! Numbers of a page.
ghost use Rattle.std.specs.Prelude.{◌≡◌, ◌&&◌, not};
ghost use Rattle.can_id.specs.J1939.{format_of, is_pdu1, is_pgn};
ghost use Rattle.markup.specs.Writing.{Becomes, adding};
ghost use Rattle.page_parts.specs.Numbers.{both, hex, hex_run, ident_hex, later_runs, runs};
ghost use Rattle.page_parts.specs.Words.{number_cell, run_html};

use can_id::{Ident, has_destination, is_pgn};
use columns::Run;
use markup::{Markup, Tag};

/// How many hexadecimal digits a number of a form has: 3 of 11 bits, 8 of 29, 4 of a parameter group.
#[derive(Clone, Copy)]
pub enum HexWidth {
    Three,
    Four,
    Eight,
}

/// Adds a number in upper case hexadecimal digits, at least as many as the width has.
#[tactic(auto, unfolding(crate::specs::Numbers::hex))]
pub fn put_hex(page: &mut Markup, width: HexWidth, number: u32)
    ensures { Becomes page.new (adding (hex width number) page.old) }
{
    match width {
        HexWidth::Three => page.display(format_args!("{number:03X}")),
        HexWidth::Four => page.display(format_args!("{number:04X}")),
        HexWidth::Eight => page.display(format_args!("{number:08X}")),
    }
}

/// Adds an identifier in hexadecimal: 3 digits of 11 bits, 8 of 29.
pub fn put_ident_hex(page: &mut Markup, ident: &Ident)
    ensures { Becomes page.new (adding (ident_hex ident.now) page.old) }
{
    match ident {
        Ident::Std(id) => put_hex(page, HexWidth::Three, u32::from(id.number())),
        Ident::Ext(id) => put_hex(page, HexWidth::Eight, id.number()),
    }
}

/// Adds a cell of a table with a number in it.
pub fn put_number_cell(page: &mut Markup, number: u64)
    ensures { Becomes page.new (adding (number_cell number) page.old) }
{
    page.open(Tag::Cell, &[]);
    page.number(number);
    page.close();
}

/// Adds a run of numbers: `5`, or `1-3`.
#[tactic(auto, unfolding(crate::specs::Words::run_html))]
fn put_run(page: &mut Markup, run: Run)
    ensures { Becomes page.new (adding (run_html run) page.old) }
{
    page.number(u64::from(run.first));
    if run.first != run.last {
        page.text(b"-");
        page.number(u64::from(run.last));
    }
}

/// Adds a run of numbers in hexadecimal, as FF01 or FF01-FF09.
#[tactic(auto, unfolding(crate::specs::Numbers::hex_run))]
fn put_hex_run(page: &mut Markup, width: HexWidth, run: Run)
    ensures { Becomes page.new (adding (hex_run width run) page.old) }
{
    put_hex(page, width, run.first);
    if run.first != run.last {
        page.text(b"-");
        put_hex(page, width, run.last);
    }
}

/// Adds a run of numbers in decimal, and where it has a width in hexadecimal too: `65281-65289 (FF01-FF09)`.
pub fn put_both(page: &mut Markup, width: Option<HexWidth>, run: Run)
    ensures { Becomes page.new (adding (both width run) page.old) }
{
    put_run(page, run);
    if let Some(width) = width {
        page.text(b" ");
        page.open(Tag::Code, &[]);
        page.text(b"(");
        put_hex_run(page, width, run);
        page.text(b")");
        page.close();
    }
}

/// Adds runs of numbers, each after a comma.
fn put_later_runs(page: &mut Markup, later: &[Run])
    ensures { Becomes page.new (adding (later_runs later.now) page.old) }
{
    for run in later {
        page.text(b", ");
        put_run(page, *run);
    }
}

/// Adds runs of numbers with commas between: `1-3, 5`.
pub fn put_runs(page: &mut Markup, all: &[Run])
    ensures { Becomes page.new (adding (runs all.now) page.old) }
{
    if let [first, later @ ..] = all {
        put_run(page, *first);
        put_later_runs(page, later);
    }
}

/// Whether messages of the parameter group of this number have a destination address, and the number is one of such a
/// group.
pub fn is_addressed(number: u32) -> bool
    ensures { result ≡ (is_pgn number && is_pdu1 (format_of number)) }
{
    is_pgn(number) && has_destination(number)
}

/// Whether the number is that of a parameter group that is sent to all nodes.
pub fn is_broadcast(number: u32) -> bool
    ensures { result ≡ (is_pgn number && not (is_pdu1 (format_of number))) }
{
    is_pgn(number) && !has_destination(number)
}
