//! Ascending numbers as runs.
ghost use Rattle.std.specs.Prelude.{◌≡◌, IfOk, OnOk, reverse, string_bytes};
ghost use Rattle.columns.specs.Run.{joined, later_runs, run_text, runs_of, runs_text};

use crate::texts::concat;
use std::alloc::{AllocError, Global};

/// Numbers from `first` to `last`, inclusive, with neighbours one step apart.
#[derive(Clone, Copy, PartialEq, Eq)]
pub struct Run {
    /// The least.
    pub first: u32,
    /// The greatest.
    pub last: u32,
}

/// Puts the number before the runs, which are listed from the last to the first.
fn join(runs: &mut Vec<Run>, step: u32, number: u32) -> Result<(), AllocError>
    ensures { OnOk result (reverse runs.new.items ≡ joined step number (reverse runs.old.items)) }
{
    let count = runs.len();
    if count > 0 && u64::from(runs[count - 1].first) == u64::from(number) + u64::from(step) {
        runs[count - 1].first = number;
        return Ok(());
    }
    runs.push(Run {
        first: number,
        last: number,
    })?;
    Ok(())
}

/// The runs of ascending numbers: those that are one step apart are neighbours. The error is out of memory.
pub fn runs_of(alloc: Global, step: u32, numbers: &[u32]) -> Result<Vec<Run>, AllocError>
    ensures { IfOk result (λ runs. runs.items ≡ runs_of step numbers.now) }
{
    let mut runs = Vec::new(alloc);
    for index in 0..numbers.len() {
        join(&mut runs, step, numbers[numbers.len() - 1 - index])?;
    }
    runs.reverse();
    Ok(runs)
}

/// `5`, or `1-3`.
fn run_text(alloc: Global, run: Run) -> Result<String, AllocError>
    ensures { IfOk result (λ text. string_bytes text ≡ run_text run) }
{
    let Run { first, last } = run;
    if first == last {
        format!(in alloc; "{first}")
    } else {
        format!(in alloc; "{first}-{last}")
    }
}

/// The texts of the runs, each after a comma.
fn later_runs(alloc: Global, runs: &[Run]) -> Result<Vec<u8>, AllocError>
    ensures { IfOk result (λ text. text.items ≡ later_runs runs.now) }
{
    let mut text = Vec::new(alloc);
    for run in runs {
        let one = run_text(alloc, *run)?;
        text.push(b',')?;
        text.extend_from_slice(one.as_bytes())?;
    }
    Ok(text)
}

/// The runs with commas between, as `1-3,5`; `-` for none. The error is out of memory.
pub fn runs_text(alloc: Global, runs: &[Run]) -> Result<Vec<u8>, AllocError>
    ensures { IfOk result (λ text. text.items ≡ runs_text runs.now) }
{
    match runs {
        [] => Vec::from_slice(alloc, b"-"),
        [first, others @ ..] => {
            let first = run_text(alloc, *first)?;
            let later = later_runs(alloc, others)?;
            concat(alloc, &[first.as_bytes(), &later])
        }
    }
}
