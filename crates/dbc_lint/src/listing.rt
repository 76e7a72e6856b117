//! Remarks as a list.
ghost use Rattle.std.specs.Prelude.{◌≡◌, ◌≤◌, ◌+◌, ◌++◌, ◌∷◌, [], IfOk, OnOk, length};
ghost use Rattle.dbc_advice.specs.Position.{position_at};
ghost use Rattle.dbc_lint.specs.Listing.{remark_row, remark_rows};
ghost use Rattle.dbc_lint.specs.Reached.{IsReached};

use crate::kind::is_chosen;
use crate::remark::Remark;
use dbc_advice::Position;
use rows::{Alignment, Cell, Column, Rows};
use std::alloc::{AllocError, Global};

/// The columns of a remark.
pub const REMARKS: [Column; 3] = [
    Column(*b"place       ", Alignment::Plain),
    Column(*b"kind        ", Alignment::Plain),
    Column(*b"about       ", Alignment::Plain),
];

/// Adds the row of a remark.
fn push_remark<'a>(
    alloc: Global,
    rows: &mut Rows<'a>,
    position: Position,
    remark: &'a Remark,
) -> Result<(), AllocError>
    ensures { OnOk result (rows.new ≡ rows.old ++ remark_row position remark.now ∷ []) }
{
    let cells = vec![in alloc;
        Cell::Position(position.line, position.column),
        Cell::Name(remark.kind.name().as_bytes()),
        Cell::Name(remark.words.as_slice()),
    ]?;
    rows.push(cells)
}

/// The position of an offset, from that of an earlier one.
fn position_from(text: &[u8], from: usize, position: Position, at: usize) -> Position
    requires ordered { from ≤ at }
    requires within { at ≤ length text.now }
    requires is { position ≡ position_at text.now from }
    requires line { position.line ≤ from + 1 }
    requires column { position.column ≤ from + 1 }
    ensures is { result ≡ position_at text.now at }
    ensures line { result.line ≤ at + 1 }
    ensures column { result.column ≤ at + 1 }
{
    let mut line = position.line;
    let mut column = position.column;
    for next in from..at {
        if text[next] == b'\n' {
            line += 1;
            column = 1;
        } else {
            column += 1;
        }
    }
    Position { line, column }
}

/// An offset that was reached, and its position.
#[derive(Clone, Copy)]
struct Reached {
    at: usize,
    position: Position,
}

/// The position of an offset. Where it is after the one that was reached, only the bytes between them are read.
fn reached_next(text: &[u8], reached: Reached, at: usize) -> Reached
    requires within { at ≤ length text.now }
    requires before { IsReached text.now reached }
    ensures at { result.at ≡ at }
    ensures is { IsReached text.now result }
{
    if at < reached.at {
        let start = Position { line: 1, column: 1 };
        let position = position_from(text, 0, start, at);
        return Reached { at, position };
    }
    let position = position_from(text, reached.at, reached.position, at);
    Reached { at, position }
}

/// The remarks whose kinds the names choose, in order, each with its line and column in the text, its kind, and what it is
/// about. The names have commas between them, and where there are none, all kinds are chosen. The error is out of memory.
pub fn remark_rows<'a>(
    alloc: Global,
    text: &[u8],
    names: &str,
    remarks: &'a [Remark],
) -> Result<Rows<'a>, AllocError>
    ensures { IfOk result (λ rows. rows ≡ remark_rows text.now names.now remarks.now) }
{
    let mut rows = Rows::new(alloc);
    let mut reached = Reached {
        at: 0,
        position: Position { line: 1, column: 1 },
    };
    for remark in remarks {
        if is_chosen(names, remark.kind) {
            reached = reached_next(text, reached, remark.at.min(text.len()));
            push_remark(alloc, &mut rows, reached.position, remark)?;
        }
    }
    Ok(rows)
}
