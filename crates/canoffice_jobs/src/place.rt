//! Where an office is looked at.
ghost use Rattle.std.specs.Prelude.{IfErr, IfOk};
ghost use Rattle.std.specs.Option.{option_map};
ghost use Rattle.canoffice_jobs.specs.Place.{IsNoPlace, IsPlace};
ghost use Rattle.canoffice_jobs.specs.PlaceFault.{IsPlaceFault};

use crate::numbers::{Number, port_number};
use crate::subcommands::{COMPARE, PAGE, REQUESTS, SHOW, Subcommand};
use std::alloc::{AllocError, Global};

/// Where an office is looked at.
#[derive(Clone, Copy)]
pub enum OfficePlace<'a> {
    /// In the database of this path.
    Database(&'a str),
    /// At the desk on this port of this machine, from 1.
    Desk(u16),
}

/// A subcommand that looks at an office.
#[derive(Clone, Copy)]
pub(crate) enum LookCommand {
    /// `compare`, of releases.
    Compare,
    /// `page`, of a network.
    Page,
    /// `show`.
    Show,
    /// `requests`.
    Requests,
}

impl LookCommand {
    /// The subcommand.
    pub(crate) fn subcommand(self) -> Subcommand {
        match self {
            LookCommand::Compare => COMPARE,
            LookCommand::Page => PAGE,
            LookCommand::Show => SHOW,
            LookCommand::Requests => REQUESTS,
        }
    }
}

/// Why the values of `--db` and `--port` name no place, or not all is named that is looked at there.
#[derive(Clone, Copy)]
pub(crate) enum PlaceFault<'a> {
    /// Neither is given.
    Neither,
    /// Both are given.
    Both,
    /// This word gives no port.
    WrongPort(&'a str),
    /// No second release is given to compare with.
    NoRelease,
}

impl PlaceFault<'_> {
    /// What clap says of it. The error is out of memory.
    pub(crate) fn message(self, alloc: Global) -> Result<String, AllocError> {
        match self {
            PlaceFault::Neither => format!(in alloc;
                "the following required arguments were not provided:\n  <--db <FILE>|--port <N>>"
            ),
            PlaceFault::Both => format!(in alloc;
                "the argument '--db <FILE>' cannot be used with '--port <N>'"
            ),
            PlaceFault::WrongPort(word) => Number::Port.refusal(alloc, word),
            PlaceFault::NoRelease => format!(in alloc;
                "the following required arguments were not provided:\n  <N>"
            ),
        }
    }
}

/// The place that the values of `--db` and `--port` name, of which exactly one is given. The error is why they name
/// none.
pub(crate) fn place_given<'a>(
    database: Option<&'a str>,
    port: Option<&'a str>,
) -> Result<OfficePlace<'a>, PlaceFault<'a>>
    ensures given { IfOk result
        (λ place. IsPlace place (option_map (λ w. w.now) database.entry)
        (option_map (λ w. w.now) port.entry)) }
    ensures wrong { IfErr result
        (λ fault. IsNoPlace (option_map (λ w. w.now) database.entry)
        (option_map (λ w. w.now) port.entry)) }
    ensures why { IfErr result
        (λ fault. IsPlaceFault (option_map (λ w. w.now) database.entry)
        (option_map (λ w. w.now) port.entry) fault) }
{
    match (database, port) {
        (Some(path), None) => Ok(OfficePlace::Database(path)),
        (None, Some(word)) => match port_number(word) {
            Some(port) => Ok(OfficePlace::Desk(port)),
            None => Err(PlaceFault::WrongPort(word)),
        },
        (Some(_), Some(_)) => Err(PlaceFault::Both),
        (None, None) => Err(PlaceFault::Neither),
    }
}
