//! The table of a sheet's messages.
ghost use Rattle.std.specs.Prelude.{◌≡◌, ◌++◌, ◌∷◌, [], IfOk, OnOk, codes, unwrap_or};
ghost use Rattle.office_views.specs.Table.{message_row, sheet_table, signal_count, table_of};

use dbc_sheet::{Message, Sheet};
use rows::{Alignment, Cell, Column, Rows, Table, table_text};
use std::alloc::{AllocError, Global};

/// The columns of a message.
pub const TABLE: [Column; 5] = [
    Column(*b"identifier  ", Alignment::Plain),
    Column(*b"length      ", Alignment::Right(4)),
    Column(*b"signals     ", Alignment::Right(4)),
    Column(*b"transmitter ", Alignment::Plain),
    Column(*b"message     ", Alignment::Plain),
];

/// How many there are, and how many signals they have altogether.
pub const MESSAGE_TOTALS: [Column; 2] = [
    Column(*b"messages    ", Alignment::Counted(0)),
    Column(*b"signals     ", Alignment::Counted(0)),
];

/// The message's transmitter, `-` where it has none.
pub fn transmitter(message: &Message) -> &[u8]
    ensures { result.now ≡ unwrap_or message.now.transmitter (codes "-") }
{
    match &message.transmitter {
        Some(name) => name.as_bytes(),
        None => b"-",
    }
}

/// Adds the row of a message.
fn push_message<'a>(
    alloc: Global,
    rows: &mut Rows<'a>,
    message: &'a Message,
) -> Result<(), AllocError>
    ensures { OnOk result (rows.new ≡ rows.old ++ message_row message.now ∷ []) }
{
    let cells = vec![in alloc;
        Cell::Ident(Some(message.ident)),
        Cell::Number(u128::from(message.length.bytes())),
        Cell::Number(message.signals.as_slice().len() as u128),
        Cell::Name(transmitter(message)),
        Cell::Name(message.name.as_bytes()),
    ]?;
    rows.push(cells)
}

/// How many signals the sheet's messages have altogether.
pub fn signal_count(sheet: &Sheet) -> usize
    ensures { result ≡ signal_count sheet.now.messages }
{
    let mut count = 0usize;
    for message in sheet.messages() {
        count += message.signals.as_slice().len();
    }
    count
}

/// The sheet's messages as a list: of each, in ascending order of the DBC numbers, its identifier, length, count of
/// signals, transmitter and name; and how many messages and signals there are. The error is out of memory.
pub fn sheet_table(alloc: Global, sheet: &Sheet) -> Result<Table<'_>, AllocError>
    ensures { IfOk result (λ table. table ≡ sheet_table sheet.now) }
{
    let mut rows = Rows::new(alloc);
    for message in sheet.messages() {
        push_message(alloc, &mut rows, message)?;
    }
    let totals = vec![in alloc;
        Cell::Number(sheet.messages().len() as u128),
        Cell::Number(signal_count(sheet) as u128),
    ]?;
    Table::plain(alloc, &TABLE, rows, &MESSAGE_TOTALS, totals)
}

/// The table of the sheet's messages, as lines that end with LF.
///
/// For each message, in ascending order of the DBC numbers, it has a line of columns with a space between two: the DBC
/// number, right-aligned in 10 columns; `std` for an 11-bit identifier or `ext` for a 29-bit one; the identifier in 8
/// lower case hexadecimal digits; its J1939 parameter group number, right-aligned in 6, or `-` for an 11-bit
/// identifier; the length in bytes and the count of signals, each right-aligned in 4; the transmitter, or `-` where
/// there is none; the name. The last line is `messages M signals S`, with both counts. The error is out of memory.
pub fn table_of(alloc: Global, sheet: &Sheet) -> Result<Vec<u8>, AllocError>
    ensures { IfOk result (λ text. text.items ≡ table_of sheet.now) }
{
    let table = sheet_table(alloc, sheet)?;
    table_text(alloc, &table)
}
