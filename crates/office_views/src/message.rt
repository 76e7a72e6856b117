//! The chart of a message of a sheet.
ghost use Rattle.std.specs.Prelude.{◌≡◌, IfOk, map};
ghost use Rattle.office_views.specs.Message.{chart_signal, message_chart};

use crate::signal::ChartSignal;
use crate::text::chart_text;
use base::Copying;
use dbc_sheet::Message;
use std::alloc::{AllocError, Global};

/// The message's signals, as a chart shows them.
fn signals_of(alloc: Global, message: &Message) -> Result<Vec<ChartSignal>, AllocError>
    ensures { IfOk result (λ signals. signals.items ≡ map chart_signal message.now.signals) }
{
    let mut signals = Vec::new(alloc);
    for signal in message.signals.as_slice() {
        let name = signal.name.duplicate(alloc)?;
        let place = signal.place();
        signals.push(ChartSignal { name, place })?;
    }
    Ok(signals)
}

/// The chart of the message's signals, as [`chart_text`] writes it. The error is out of memory.
pub fn message_chart(alloc: Global, message: &Message) -> Result<Vec<u8>, AllocError>
    ensures { IfOk result (λ text. text.items ≡ message_chart message.now) }
{
    let signals = signals_of(alloc, message)?;
    chart_text(alloc, message.length.bytes(), &signals)
}
