//! A live message of its row of `msg` and its signals.
ghost use Rattle.std.specs.Prelude.{◌≡◌, IfOk, pos};
ghost use Rattle.can_id.specs.declared.ident.Ident.{Ident as Identifier};
ghost use Rattle.can_id.specs.Ident.{IsIdentifier, dbc_number};
ghost use Rattle.sqlite.specs.Order.{column};
ghost use Rattle.sqlite.specs.declared.types.Value.TheVariants.{Int};
ghost use Rattle.office_types.specs.declared.state.LiveMessage.{LiveMessage as Live};
ghost use Rattle.store_rows.specs.SignalShowing.{ShowsLive};

use crate::columns::{number_at, team_at, text_at};
use crate::signal_columns::{name_at, words_at};
use can_id::Ident;
use dbc_sheet::{Message, Signals};
use dbc_words::{Name, PayloadLength};
use office_types::LiveMessage;
use sqlite::{Error, Row};
use std::alloc::Global;

/// The identifier of the number in the first column.
fn ident_at(row: &Row) -> Result<Ident, Error>
    ensures { IfOk result (λ ident. (other : Identifier) → IsIdentifier other
        → column row.now 0 ≡ Int (pos (dbc_number other)) → ident ≡ other) }
{
    let number = number_at(row, 0)?;
    match Ident::from_dbc(number) {
        Ok(ident) => Ok(ident),
        Err(_) => Err(Error::InvalidQuery),
    }
}

/// The length in the fourth column.
fn length_at(row: &Row) -> Result<PayloadLength, Error>
    ensures { IfOk result (λ length. column row.now 3 ≡ Int (pos length)) }
{
    let bytes = number_at(row, 3)?;
    match PayloadLength::new(bytes) {
        Some(length) => Ok(length),
        None => Err(Error::InvalidQuery),
    }
}

/// The node that sends it, in the fifth column; none if the column is empty.
fn sender_at(alloc: Global, row: &Row) -> Result<Option<Name>, Error>
    ensures { IfOk result (λ sender. (other : Live) → ShowsLive other row.now
        → sender ≡ other.message.transmitter) }
{
    let text = text_at(row, 4)?;
    if text.is_empty() {
        Ok(None)
    } else {
        Ok(Some(name_at(alloc, row, 4)?))
    }
}

/// The live message that the row shows, with these signals. An error where it shows none, or memory ran out.
pub fn live_message_of(alloc: Global, row: &Row, signals: Signals) -> Result<LiveMessage, Error>
    ensures { IfOk result (λ live. (other : Live) → ShowsLive other row.now
        → signals ≡ other.message.signals
        → live ≡ other) }
{
    let ident = ident_at(row)?;
    let name = name_at(alloc, row, 1)?;
    let owner = team_at(alloc, row, 2)?;
    let length = length_at(row)?;
    let transmitter = sender_at(alloc, row)?;
    let comment = words_at(alloc, row, 5)?;
    Ok(LiveMessage {
        message: Message {
            ident,
            name,
            length,
            transmitter,
            comment,
            signals,
        },
        owner,
    })
}
