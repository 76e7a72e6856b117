//! Charts of signals that are given as arguments.
ghost use Rattle.std.specs.Prelude.{◌≡◌, IfErr, IfOk, map};
ghost use Rattle.canoffice_cli.specs.Outcome.{outcome_of};
ghost use Rattle.canoffice_cli.specs.Jobs.Charted.{chart_outcome, AreSignals, IsChartOutcome};
ghost use Rattle.canoffice_cli.specs.Jobs.WordFault.{IsWordFault};

use crate::report::{ExitStatus, Report, bad_word};
use office_views::{ChartSignal, chart_text, first_clash_of, signal_of};
use std::alloc::{AllocError, AllocFailed, Global};

/// Why the words describe no signals.
#[derive(Drop)]
pub(crate) enum WordFault<'a> {
    /// This word is malformed, and those before it aren't.
    Wrong(&'a str),
    /// Memory ran out.
    Memory,
}

impl From<AllocError> for WordFault<'_> {
    ghost use Rattle.std.specs.Prelude.{◌≡◌};
    ghost use Rattle.canoffice_cli.specs.declared.jobs.charting.WordFault.TheVariants.{Memory};

    ghost from_gives = { λ _ fault. fault ≡ Memory };

    fn from(_error: AllocError) -> Self {
        WordFault::Memory
    }
}

impl<T: Drop> From<AllocFailed<T>> for WordFault<'_> {
    ghost use Rattle.std.specs.Prelude.{◌≡◌};
    ghost use Rattle.canoffice_cli.specs.declared.jobs.charting.WordFault.TheVariants.{Memory};

    ghost from_gives = { λ _ fault. fault ≡ Memory };

    fn from(_error: AllocFailed<T>) -> Self {
        WordFault::Memory
    }
}

/// The signals that the words describe, or the first malformed word.
fn signals_of<'a>(alloc: Global, words: &[&'a str]) -> Result<Vec<ChartSignal>, WordFault<'a>>
    ensures signals { IfOk result
        (λ signals. AreSignals (map (λ s. s.now) words.now) signals.items) }
    ensures fault { IfErr result (IsWordFault (map (λ s. s.now) words.now)) }
{
    let mut signals = Vec::new(alloc);
    for word in words {
        match signal_of(alloc, word.as_bytes())? {
            Some(signal) => signals.push(signal)?,
            None => return Err(WordFault::Wrong(*word)),
        }
    }
    Ok(signals)
}

/// The chart of the signals, and whether they are clear.
fn signals_report(alloc: Global, length: u16, signals: &[ChartSignal]) -> Result<Report, AllocError>
    ensures { IfOk result (λ report. outcome_of report ≡ chart_outcome length signals.now) }
{
    let clash = first_clash_of(alloc, length, signals)?;
    let output = chart_text(alloc, length, signals)?;
    let status = if clash.is_none() {
        ExitStatus::Success
    } else {
        ExitStatus::FaultFound
    };
    Ok(Report::of_output(alloc, output, status))
}

/// The chart of the signals that the words describe, in a message of so many bytes: `Success` if they are clear,
/// `FaultFound` if they clash.
///
/// If a word is malformed, the first one is reported and nothing is charted. `signal_of` of the crate `office_views`
/// has their form.
pub fn chart_report(alloc: Global, length: u16, words: &[&str]) -> Result<Report, AllocError>
    ensures { IfOk result (λ report. IsChartOutcome length (map (λ s. s.now) words.now)
        (outcome_of report)) }
{
    match signals_of(alloc, words) {
        Ok(signals) => signals_report(alloc, length, &signals),
        Err(WordFault::Wrong(word)) => bad_word(alloc, word),
        Err(WordFault::Memory) => Err(AllocError),
    }
}
