//! The numbers that words of the command line give.
ghost use Rattle.std.specs.Prelude.{◌≡◌, ◌≤◌, Some, None, IfOk, IfErr};
ghost use Rattle.std.specs.Option.{option_map};
ghost use Rattle.office_views.specs.Word.{length_of};
ghost use Rattle.canoffice_jobs.specs.Numbers.{count_given, number_given, port_given, port_number, release_number};
ghost use Rattle.canoffice_jobs.specs.Numbers.{page_number, tries_given};

use crate::subcommands::{CHART, COMPARE, EXPORT, PAGE, SEND, SERVE, Subcommand};
use office_views::{length_of, whole_between};
use std::alloc::{AllocError, Global};

/// The port where none is given.
const PORT: u32 = 8089;

/// The greatest port.
const PORT_LIMIT: u32 = 65_535;

/// The greatest count of connections, which is also the one where none is given.
const COUNT_LIMIT: u32 = 1_000_000;

/// How often a request is sent where no number is given.
const TRIES: u32 = 3;

/// The greatest number of tries.
const TRIES_LIMIT: u32 = 1_000;

/// The greatest number of a release.
const RELEASE_LIMIT: u32 = 65_535;

/// A number that a word of the command line gives.
#[derive(Clone, Copy)]
pub(crate) enum Number {
    /// The length of a message.
    Length,
    /// The number of a release, or 0.
    Release,
    /// The number of the older of two releases, or 0.
    OlderRelease,
    /// The number of the newer of two releases, or 0.
    NewerRelease,
    /// The number of the release that is on a page, or 0.
    PageRelease,
    /// The port on which a desk listens.
    Port,
    /// The port to which requests are sent.
    SendPort,
    /// The count of connections.
    Count,
    /// How often a request is sent.
    Tries,
}

impl Number {
    /// Its argument, as clap writes it.
    fn argument(self) -> &'static str {
        match self {
            Number::Length => "<LENGTH>",
            Number::Release | Number::NewerRelease => "<N>",
            Number::OlderRelease => "<M>",
            Number::PageRelease => "[N]",
            Number::Port | Number::SendPort => "--port <N>",
            Number::Count => "--count <N>",
            Number::Tries => "--tries <N>",
        }
    }

    /// Its subcommand.
    pub(crate) fn subcommand(self) -> Subcommand {
        match self {
            Number::Length => CHART,
            Number::Release => EXPORT,
            Number::OlderRelease | Number::NewerRelease => COMPARE,
            Number::PageRelease => PAGE,
            Number::SendPort | Number::Tries => SEND,
            Number::Port | Number::Count => SERVE,
        }
    }

    /// Its range, as clap writes it.
    fn range(self) -> &'static str {
        match self {
            Number::Length => "0..=1785",
            Number::Release | Number::OlderRelease | Number::NewerRelease | Number::PageRelease =>
                "0..=65535",
            Number::Port | Number::SendPort => "1..=65535",
            Number::Count => "1..=1000000",
            Number::Tries => "1..=1000",
        }
    }

    /// What clap says of a word that gives none in the range. The error is out of memory.
    pub(crate) fn refusal(self, alloc: Global, word: &str) -> Result<String, AllocError> {
        let argument = self.argument();
        let range = self.range();
        format!(in alloc; "invalid value '{word}' for '{argument}': {word} is not in {range}")
    }
}

/// The length of a message that the word gives: 0 to 1785 bytes, as [`length_of`] of the crate `office_views` reads it.
pub(crate) fn length_given(word: &str) -> Option<u16>
    ensures { result ≡ length_of word.now }
{
    length_of(word.as_bytes())
}

/// The number of a release, or 0 for the live sheet, that the word gives: digits, up to 65535.
pub(crate) fn release_number(word: &str) -> Option<u32>
    ensures { result ≡ release_number word.now }
{
    whole_between(word.as_bytes(), 0, RELEASE_LIMIT)
}

/// The number of the release that is on a page, or 0 for the live network, which is there without a word. The error is
/// a word that gives none.
pub(crate) fn page_number<'a>(word: Option<&'a str>) -> Result<u32, &'a str>
    ensures given { IfOk result
        (λ number. page_number (option_map (λ w. w.now) word.entry) ≡ Some number) }
    ensures wrong { IfErr result (λ wrong. (option_map (λ w. w.now) word.entry ≡ Some wrong.now)
        × (release_number wrong.now ≡ None)) }
{
    let Some(word) = word else {
        return Ok(0);
    };
    match release_number(word) {
        Some(number) => Ok(number),
        None => Err(word),
    }
}

/// The port that the word gives: digits, from 1 to 65535.
pub(crate) fn port_number(word: &str) -> Option<u16>
    ensures { result ≡ port_number word.now }
{
    match whole_between(word.as_bytes(), 1, PORT_LIMIT) {
        Some(port) => Some(port as u16),
        None => None,
    }
}

/// The number from 1 to the limit that the word gives; the other one where there is no word. The error is a word that
/// gives none.
fn number_given<'a>(word: Option<&'a str>, absent: u32, limit: u32) -> Result<u32, &'a str>
    requires { absent ≤ limit }
    ensures within { IfOk result (λ number. number ≤ limit) }
    ensures given { IfOk result
        (λ number. number_given absent limit (option_map (λ w. w.now) word.entry)
        ≡ Some number) }
    ensures wrong { IfErr result (λ wrong. (option_map (λ w. w.now) word.entry ≡ Some wrong.now)
        × (number_given absent limit (option_map (λ w. w.now) word.entry) ≡ None)) }
{
    let Some(word) = word else {
        return Ok(absent);
    };
    match whole_between(word.as_bytes(), 1, limit) {
        Some(number) => Ok(number),
        None => Err(word),
    }
}

/// The port that the word gives: 1 to 65535, and 8089 where there is no word. The error is a word that gives none.
pub(crate) fn port_given<'a>(word: Option<&'a str>) -> Result<u16, &'a str>
    ensures given { IfOk result
        (λ port. port_given (option_map (λ w. w.now) word.entry) ≡ Some port) }
    ensures wrong { IfErr result (λ wrong. (option_map (λ w. w.now) word.entry ≡ Some wrong.now)
        × (port_given (option_map (λ w. w.now) word.entry) ≡ None)) }
{
    let port = number_given(word, PORT, PORT_LIMIT)?;
    Ok(port as u16)
}

/// The count of connections that the word gives: 1 to 1000000, and 1000000 where there is no word. The error is a word
/// that gives none.
pub(crate) fn count_given<'a>(word: Option<&'a str>) -> Result<u32, &'a str>
    ensures given { IfOk result
        (λ count. count_given (option_map (λ w. w.now) word.entry) ≡ Some count) }
    ensures wrong { IfErr result (λ wrong. (option_map (λ w. w.now) word.entry ≡ Some wrong.now)
        × (count_given (option_map (λ w. w.now) word.entry) ≡ None)) }
{
    number_given(word, COUNT_LIMIT, COUNT_LIMIT)
}

/// How often a request is sent by the word: 1 to 1000, and 3 where there is no word. The error is a word that gives no
/// such number.
pub(crate) fn tries_given<'a>(word: Option<&'a str>) -> Result<u32, &'a str>
    ensures given { IfOk result
        (λ tries. tries_given (option_map (λ w. w.now) word.entry) ≡ Some tries) }
    ensures wrong { IfErr result (λ wrong. (option_map (λ w. w.now) word.entry ≡ Some wrong.now)
        × (tries_given (option_map (λ w. w.now) word.entry) ≡ None)) }
{
    number_given(word, TRIES, TRIES_LIMIT)
}
