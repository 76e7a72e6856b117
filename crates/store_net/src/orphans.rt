//! Rows of signals, receivers and value texts that no live message of their network has.
ghost use Rattle.store_tables.specs.Frames.{ReadsOnly};

use crate::heads::count_shown;
use office_types::LiveMessage;
use sqlite::{Alter, Error, Row, Transaction};
use store_statements::{count_receivers, count_sigs, count_sigvalues};

/// How many rows of each of the three tables live messages have.
#[derive(Clone, Copy)]
struct Counts {
    signals: usize,
    receivers: usize,
    values: usize,
}

/// How many signals, receivers and value texts the messages have.
fn counts_of(live: &[LiveMessage]) -> Counts {
    let mut counts = Counts {
        signals: 0,
        receivers: 0,
        values: 0,
    };
    for one in live {
        for signal in one.message.signals.as_slice() {
            counts.signals = counts.signals.saturating_add(1);
            let receivers = signal.receivers.as_slice().len();
            counts.receivers = counts.receivers.saturating_add(receivers);
            let values = signal.values.as_slice().len();
            counts.values = counts.values.saturating_add(values);
        }
    }
    counts
}

/// An error where the rows of a count don't show this one.
fn refuse_other(rows: &[Row], count: usize) -> Result<(), Error> {
    if count_shown(rows)? == count {
        Ok(())
    } else {
        Err(Error::InvalidQuery)
    }
}

/// Changes nothing. `InvalidQuery` where the network has more rows of signals, receivers or value texts than these, its
/// live messages, have; else the error is `sqlite`'s.
pub(crate) fn refuse_orphans<S: Alter>(
    tx: &mut Transaction<'_, S>,
    net: &[u8],
    live: &[LiveMessage],
) -> Result<(), Error>
    ensures frame { ReadsOnly S.Store tx.old tx.new result }
{
    let counts = counts_of(live);
    let signals = count_sigs(tx, net)?;
    refuse_other(&signals, counts.signals)?;
    let receivers = count_receivers(tx, net)?;
    refuse_other(&receivers, counts.receivers)?;
    let values = count_sigvalues(tx, net)?;
    refuse_other(&values, counts.values)
}
