//! The signals of a message, with what is attached to them.
ghost use Rattle.std.specs.Prelude.{◌≡◌, IfErr, IfOk};
ghost use Rattle.dbc_read.specs.Fit.{AreFit};
ghost use Rattle.dbc_read.specs.Refusal.{Unless};

use crate::refusal::Refusal;
use dbc_sheet::{Signal, Signals};
use std::alloc::Global;

/// These signals as those of one message. None of them is copied.
pub(crate) fn signals_of(alloc: Global, signals: Vec<Signal>) -> Result<Signals, Refusal>
    ensures ok { IfOk result (λ made. made ≡ signals.items) }
    ensures refused { IfErr result (λ refusal. Unless refusal (¬ AreFit signals.items)) }
{
    match Signals::of(alloc, signals)? {
        Some(made) => Ok(made),
        None => Err(Refusal::NoSheet),
    }
}
