//! What is stated on standard error of the file of a job, after what is printed there without it.
ghost use Rattle.std.specs.Prelude.{◌≡◌, IfOk};
ghost use Rattle.canoffice_cli.specs.Jobs.Explaining.{IsStated, IsStatedOfFormat, IsStatedOfReading, dash_of, of_script};
ghost use Rattle.canoffice_cli.specs.Jobs.Explaining.{requested};

use crate::files::FileSource;
use crate::jobs::file_jobs::FileTask;
use dbc_advice::{Source, explained, left_out};
use dbc_read::{ReadCode, Reading, read};
use office_script::Dash;
use std::alloc::{AllocError, Global};

/// How much is stated of a file.
#[derive(Clone, Copy)]
pub(crate) enum Advice {
    /// Nothing.
    Nothing,
    /// The first wrong line of a script, where there is memory for that: what a terminal shows.
    WrongLine,
    /// All that `--explain` requests.
    Everything,
}

impl Advice {
    /// How much is stated with `--explain` or without it.
    pub(crate) fn requested(explain: bool) -> Advice
        ensures { result ≡ requested explain }
    {
        if explain {
            Advice::Everything
        } else {
            Advice::Nothing
        }
    }

    /// The same of a script. Where standard error is a terminal, its first wrong line is shown in any case.
    pub(crate) fn of_script(explain: bool, terminal: bool) -> Advice
        ensures { result ≡ of_script explain terminal }
    {
        if explain {
            Advice::Everything
        } else if terminal {
            Advice::WrongLine
        } else {
            Advice::Nothing
        }
    }
}

/// What a canonical text leaves out: nothing, if what is skipped is kept.
fn stated_of_reading(
    alloc: Global,
    source: Source,
    reading: &Reading,
    keep: bool,
) -> Result<Vec<u8>, AllocError>
    ensures { IfOk result (λ stated. IsStatedOfReading keep source.entry.name.now
        source.entry.text.now reading.now.sheet reading.now.passed stated.items) }
{
    if keep {
        return Ok(Vec::new(alloc));
    }
    left_out(alloc, source, reading)
}

/// What is stated of a DBC text whose canonical text is printed: what this leaves out, or why it reads as no sheet.
fn stated_of_format(alloc: Global, source: Source, keep: bool) -> Result<Vec<u8>, AllocError>
    ensures { IfOk result (λ stated. IsStatedOfFormat keep source.entry.name.now
        source.entry.text.now stated.items) }
{
    match read(alloc, source.text) {
        Ok(reading) => stated_of_reading(alloc, source, &reading, keep),
        Err(fault) => match fault.code {
            ReadCode::Memory => Err(AllocError),
            _ => explained(alloc, source),
        },
    }
}

/// What `-` means as a key in a script for the office in this database, or for one in memory.
fn dash_of(database: Option<&str>) -> Dash
    ensures { result ≡ dash_of database.entry }
{
    match database {
        None => Dash::LineNumber,
        Some(_) => Dash::Wrong,
    }
}

/// What is stated of a file, by what is done with its bytes. The error is out of memory.
pub(crate) fn stated<F: FileSource>(
    alloc: Global,
    task: FileTask<'_>,
    source: Source,
    files: &F,
) -> Result<Vec<u8>, AllocError>
    ensures { IfOk result
        (λ stated. IsStated (F.held files.now) task.entry source.entry.name.now
        source.entry.text.now stated.items) }
{
    match task {
        FileTask::Check(_, _) => explained(alloc, source),
        FileTask::Format(keep) => stated_of_format(alloc, source, keep),
        FileTask::Apply(database, _) => {
            let dash = dash_of(database);
            office_advice::explained(alloc, source.name, source.text, dash, files)
        }
    }
}
