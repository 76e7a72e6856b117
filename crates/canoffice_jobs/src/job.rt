//! The job that the words of the command line request.
ghost use Rattle.std.specs.Prelude.{◌≡◌, IfOk, IfErr, None, Some, map, option_and_then, codes};
ghost use Rattle.std.specs.Option.{option_map};
ghost use Rattle.clap.specs.Words.{first_of, found_of, kind_of, rows_of, subcommand_rows_of};
ghost use Rattle.canoffice_jobs.specs.CommandLine.{IsEntered, IsEnteredAs, IsJob, IsJobIn, IsJobOf, IsFaultOfKind};
ghost use Rattle.canoffice_jobs.specs.CommandLine.{IsJobFault, IsValueFault, IsValueFaultIn, are_absent, are_files, are_input};
ghost use Rattle.canoffice_jobs.specs.CommandLine.{is_set, manner_in};
ghost use Rattle.canoffice_jobs.specs.declared.job.JobFault.TheVariants.{Memory};
ghost use Rattle.canoffice_jobs.specs.declared.job.ValueFault.TheVariants.{Memory as NoMemory};
ghost use Rattle.dbc_lint.specs.Kind.{first_unknown};

use crate::command_line::canoffice_command;
use crate::extras::Extras;
use crate::manner::{Manner, Sending};
use crate::numbers::{
    Number, count_given, length_given, page_number, port_given, release_number, tries_given,
};
use crate::place::{LookCommand, OfficePlace, PlaceFault, place_given};
use crate::remarks::remark_refusal;
use crate::subcommands::{CHECK, COMPARE, SHOW, Subcommand, clap_command};
use crate::what::{What, WhatFault, shown_by};
use clap::error::ErrorKind;
use clap::{ArgMatches, Command, Error};
use dbc_lint::first_unknown;
use std::alloc::{AllocError, Global};

/// What the program is to do: a subcommand with the values of its arguments.
#[derive(Drop)]
pub enum Job<'a> {
    /// Apply the lines of the script in the file of this name.
    Apply {
        /// The path of the office's database; without one the office is in memory.
        database: Option<&'a str>,
        /// The path of the script, or `-`.
        script: &'a str,
        /// Whether a wrong line is explained.
        explain: bool,
        /// How it is applied.
        manner: Manner,
    },
    /// Print the chart of the signals that the words describe, in a message of this length.
    Chart {
        /// The length, 0 to 1785 bytes.
        length: u16,
        /// The words that describe the signals.
        signals: Vec<&'a str>,
    },
    /// Check the DBC text in the file of this name.
    Check {
        /// The path of the file, or `-`.
        file: &'a str,
        /// Whether faults and clashes are explained.
        explain: bool,
        /// The names of the kinds of remarks that are printed, with commas between them, or `""` for all of them;
        /// `None` where no remark is printed.
        lint: Option<&'a str>,
        /// Whether it is printed as JSON.
        json: bool,
    },
    /// Print what changed from the one DBC text to the other.
    Compare {
        /// The path of the older file, or `-`.
        old: &'a str,
        /// The path of the newer file, or `-`.
        new: &'a str,
        /// Whether it is printed as JSON.
        json: bool,
    },
    /// Print what changed from one release of a network to another.
    CompareReleases {
        /// Where the office is looked at.
        place: OfficePlace<'a>,
        /// The word that names the network.
        net: &'a str,
        /// The number of the older release, 1 to 65535, or 0 for the live sheet.
        old: u32,
        /// The same of the newer one.
        new: u32,
        /// Whether it is printed as JSON.
        json: bool,
    },
    /// Print a release of a network, or its live sheet.
    Export {
        /// The path of the office's database.
        database: &'a str,
        /// The word that names the network.
        net: &'a str,
        /// The number of the release, 1 to 65535, or 0 for the live sheet.
        number: u32,
        /// What is printed besides the sheet.
        extras: Extras<'a>,
    },
    /// Print the canonical text of the DBC text in the file of this name.
    Format {
        /// The path of the file, or `-`.
        file: &'a str,
        /// Whether faults are explained, and what is left out is reported.
        explain: bool,
        /// Whether the statements that the reader skips are printed too.
        keep: bool,
    },
    /// Make a database of an earlier version one of this version.
    Migrate {
        /// The path of the office's database.
        database: &'a str,
    },
    /// Print a network, or a release of it, as one page.
    Page {
        /// Where the office is looked at.
        place: OfficePlace<'a>,
        /// The word that names the network.
        net: &'a str,
        /// The number of the release, 1 to 65535, or 0 for the live network.
        number: u32,
    },
    /// Print the DBC text in the file of this name as one page.
    PageFile {
        /// The path of the file, or `-`.
        file: &'a str,
    },
    /// Print the requests of a team with their replies.
    Requests {
        /// Where the office is looked at.
        place: OfficePlace<'a>,
        /// The word that names the team.
        team: &'a str,
        /// Whether they are wanted as JSON.
        json: bool,
    },
    /// Send the lines of the script in the file of this name to a desk.
    Send {
        /// To which desk, and how.
        sending: Sending,
        /// The path of the script, or `-`.
        script: &'a str,
    },
    /// Serve the office over HTTP.
    Serve {
        /// The path of the office's database.
        database: &'a str,
        /// The port of this machine, from 1.
        port: u16,
        /// The count of connections, 1 to 1000000.
        count: u32,
        /// Whether each answer other than 200 is reported.
        explain: bool,
    },
    /// Print what a network has, or the list of networks.
    Show {
        /// Where the office is looked at.
        place: OfficePlace<'a>,
        /// The word that names the network; without one the networks are listed.
        net: Option<&'a str>,
        /// What is shown of the network.
        what: What,
        /// The word after it, if there is one.
        name: Option<&'a str>,
        /// Whether it is printed as JSON.
        json: bool,
    },
    /// Print the table of the messages of the DBC text in the file of this name.
    Table {
        /// The path of the file, or `-`.
        file: &'a str,
        /// Whether it is printed as JSON.
        json: bool,
    },
}

/// Why the words of the command line request no job.
#[derive(Drop)]
pub enum JobFault {
    /// They request help, or the version, and this is its text.
    Help(String),
    /// They are wrong; this text explains the error and the usage.
    Usage(String),
    /// Memory ran out.
    Memory,
}

/// Why the values of a subcommand make no job.
#[derive(Clone, Copy)]
enum ValueFault<'a> {
    /// This word gives no such number, in its range.
    WrongNumber(Number, &'a str),
    /// The values of `--db` and `--port` name no place for this subcommand.
    WrongPlace(LookCommand, PlaceFault<'a>),
    /// Nothing is shown by the words of `show`.
    WrongWhat(WhatFault<'a>),
    /// No kind of remark has this name.
    UnknownRemark(&'a str),
    /// Both files that are compared are standard input.
    InputTwice,
    /// Memory ran out.
    Memory,
}

/// The job that the program's words request, each number in its range. The first word is the program's own name.
///
/// The result is a job exactly if clap finds no fault in the words, each word for a number gives one in its range, the
/// words of a subcommand that looks name a place and something that is shown, the names of remarks are those of kinds,
/// and two files aren't both standard input, unless memory runs out: it is `Help` only if they request help or the
/// version, and `Usage` only if they have another fault. The text is clap's, and no clause describes it.
pub fn job_of<'a>(alloc: Global, words: &'a [&'a str]) -> Result<Job<'a>, JobFault>
    ensures job { IfOk result (IsJob (map (λ s. s.now) words.entry.now)) }
    ensures fault { IfErr result (IsJobFault (map (λ s. s.now) words.entry.now)) }
{
    let Ok(command) = canoffice_command(alloc) else {
        return Err(JobFault::Memory);
    };
    match command.try_get_matches_from(words) {
        Ok(matches) => match job_in(alloc, &matches) {
            Ok(job) => Ok(job),
            Err(fault) => Err(value_fault(alloc, fault)),
        },
        Err(error) => Err(line_fault(alloc, &error)),
    }
}

/// The fault of arguments that aren't UTF-8, so that they can't be read as words: `Usage`, unless memory runs out.
pub fn not_utf8_fault(alloc: Global) -> JobFault
    ensures { IsFaultOfKind ErrorKind.ValueValidation result }
{
    let message = "invalid UTF-8 was detected in one or more arguments";
    match canoffice_command(alloc) {
        Ok(command) => validation_fault(alloc, command, message),
        Err(AllocError) => JobFault::Memory,
    }
}

/// The fault for that of the values: `Usage`, with what is wrong and the usage of the subcommand, unless memory runs
/// out, or did.
fn value_fault(alloc: Global, fault: ValueFault<'_>) -> JobFault
    ensures usage { IsFaultOfKind ErrorKind.ValueValidation result }
    ensures memory { fault.entry ≡ NoMemory → result ≡ Memory }
{
    let (subcommand, message) = match fault {
        ValueFault::WrongNumber(number, word) => (number.subcommand(), number.refusal(alloc, word)),
        ValueFault::WrongPlace(command, fault) => (command.subcommand(), fault.message(alloc)),
        ValueFault::WrongWhat(fault) => (SHOW, fault.message(alloc)),
        ValueFault::UnknownRemark(word) => (CHECK, remark_refusal(alloc, word)),
        ValueFault::InputTwice => (COMPARE, input_twice(alloc)),
        ValueFault::Memory => return JobFault::Memory,
    };
    match message {
        Ok(message) => fault_of(alloc, &subcommand, &message),
        Err(AllocError) => JobFault::Memory,
    }
}

/// That both files that are compared are standard input, which is read once.
fn input_twice(alloc: Global) -> Result<String, AllocError> {
    String::from_str(
        alloc,
        "invalid value '-' for '<B>': standard input is read once",
    )
}

/// The fault that a word of the subcommand isn't as it must be, with the subcommand's usage.
fn fault_of(alloc: Global, subcommand: &Subcommand, message: &str) -> JobFault
    ensures { IsFaultOfKind ErrorKind.ValueValidation result }
{
    let Ok(whole) = format!(in alloc; "canoffice {}", subcommand.0) else {
        return JobFault::Memory;
    };
    let Ok(command) = clap_command(alloc, subcommand) else {
        return JobFault::Memory;
    };
    match command.bin_name(&whole) {
        Ok(named) => validation_fault(alloc, named, message),
        Err(AllocError) => JobFault::Memory,
    }
}

/// The fault that a word isn't as it must be, with the text that clap makes of the message and the command's usage.
fn validation_fault(alloc: Global, command: Command<'_>, message: &str) -> JobFault
    ensures { IsFaultOfKind ErrorKind.ValueValidation result }
{
    let mut command = command;
    match command.error(ErrorKind::ValueValidation, message) {
        Ok(error) => line_fault(alloc, &error),
        Err(_) => JobFault::Memory,
    }
}

/// The fault for clap's error, with clap's text.
fn line_fault(alloc: Global, error: &Error) -> JobFault
    ensures { IsFaultOfKind (kind_of error.now) result }
{
    let Ok(text) = error.to_string(alloc) else {
        return JobFault::Memory;
    };
    match error.kind() {
        ErrorKind::OutOfMemory => JobFault::Memory,
        ErrorKind::DisplayHelp | ErrorKind::DisplayVersion => JobFault::Help(text),
        _ => JobFault::Usage(text),
    }
}

/// The job of the subcommand that was entered, which is one of the program's, with all its required arguments. The
/// error is the first word that gives no number in its range, or why the words of a subcommand that looks name nothing,
/// or the first name that no kind of remark has, or that two files are both standard input. Only the list of a chart's
/// signals takes memory, so no other subcommand can end as out of memory here.
#[tactic(auto, using(crate::proofs::CommandLine::found_pair))]
fn job_in<'a>(alloc: Global, matches: &ArgMatches<'a>) -> Result<Job<'a>, ValueFault<'a>>
    requires { IsEntered (subcommand_rows_of matches.now) }
    ensures job { IfOk result (IsJobIn (subcommand_rows_of matches.now)) }
    ensures fault { IfErr result (IsValueFaultIn (subcommand_rows_of matches.now)) }
{
    let Some((name, found)) = matches.subcommand() else {
        unreachable!("clap wants a subcommand")
    };
    job_named(alloc, name, found)
}

/// The job of the subcommand of this name, with these values. The error is that of [`job_in`].
#[tactic(auto, using(crate::proofs::CommandLine::entered_by))]
fn job_named<'a>(
    alloc: Global,
    name: &str,
    found: &ArgMatches<'a>,
) -> Result<Job<'a>, ValueFault<'a>>
    requires { IsEnteredAs name.now (rows_of (found_of found.now)) }
    ensures job { IfOk result (λ job. IsJobOf job name.now (rows_of (found_of found.now))) }
    ensures fault { IfErr result (IsValueFault name.now (rows_of (found_of found.now))) }
{
    if name == "apply" {
        return Ok(apply_job(found));
    }
    if name == "chart" {
        return chart_job(alloc, found);
    }
    if name == "check" {
        return check_job(found);
    }
    if name == "compare" {
        return compare_job(found);
    }
    if name == "export" {
        return export_job(found);
    }
    if name == "format" {
        return Ok(format_job(found));
    }
    if name == "migrate" {
        return Ok(migrate_job(found));
    }
    if name == "page" {
        return page_job(found);
    }
    if name == "requests" {
        return requests_job(found);
    }
    if name == "send" {
        return send_job(found);
    }
    if name == "serve" {
        return serve_job(found);
    }
    if name == "show" {
        return show_job(found);
    }
    if name == "table" {
        return Ok(table_job(found));
    }
    unreachable!("clap knows no other subcommand")
}

/// Whether the flag was given.
#[tactic(auto, using(crate::proofs::CommandLine::flag_in_rows))]
fn is_set(found: &ArgMatches, id: &str) -> bool
    ensures { result ≡ is_set (rows_of (found_of found.now)) id.now }
{
    match found.get_str(id) {
        Some(value) => value == "true",
        None => false,
    }
}

/// How a script is applied, by the flags.
fn manner_given(found: &ArgMatches) -> Manner
    ensures { result ≡ manner_in (rows_of (found_of found.now)) }
{
    let strict = is_set(found, "strict");
    let echo = is_set(found, "echo");
    Manner { strict, echo }
}

/// `apply [--db FILE] [--explain] [--strict] [--echo] SCRIPT`
#[tactic(auto, using(crate::proofs::CommandLine::value_in_rows, crate::proofs::CommandLine::optional_in_rows, crate::proofs::CommandLine::required_is_given))]
fn apply_job<'a>(found: &ArgMatches<'a>) -> Job<'a>
    requires { IsEnteredAs (codes "apply") (rows_of (found_of found.now)) }
    ensures { IsJobOf result (codes "apply") (rows_of (found_of found.now)) }
{
    let database = found.get_str("db");
    let script = found.get_str("SCRIPT").unwrap();
    let explain = is_set(found, "explain");
    let manner = manner_given(found);
    Job::Apply {
        database,
        script,
        explain,
        manner,
    }
}

/// `chart LENGTH SIGNAL..`
#[tactic(auto, using(crate::proofs::CommandLine::optional_in_rows, crate::proofs::CommandLine::required_is_given, crate::proofs::CommandLine::required_are_given))]
fn chart_job<'a>(alloc: Global, found: &ArgMatches<'a>) -> Result<Job<'a>, ValueFault<'a>>
    requires { IsEnteredAs (codes "chart") (rows_of (found_of found.now)) }
    ensures job { IfOk result (λ job. IsJobOf job (codes "chart") (rows_of (found_of found.now))) }
    ensures fault { IfErr result (IsValueFault (codes "chart") (rows_of (found_of found.now))) }
{
    let words = found.get_strs("SIGNAL").unwrap();
    let word = found.get_str("LENGTH").unwrap();
    let Some(length) = length_given(word) else {
        return Err(ValueFault::WrongNumber(Number::Length, word));
    };
    match Vec::from_slice(alloc, words) {
        Ok(signals) => Ok(Job::Chart { length, signals }),
        Err(AllocError) => Err(ValueFault::Memory),
    }
}

/// The names of the kinds of remarks, each of which a kind has; `None` where no remark is printed. The error is the
/// first of the names that no kind has.
fn lint_given(names: Option<&str>) -> Result<Option<&str>, &str>
    ensures given { IfOk result (λ lint. (lint ≡ names.entry)
        × (option_and_then first_unknown (option_map (λ n. n.now) names.entry) ≡ None)) }
    ensures unknown { IfErr result (λ word. option_and_then first_unknown
        (option_map (λ n. n.now) names.entry) ≡ Some word.now) }
{
    let Some(text) = names else {
        return Ok(None);
    };
    match first_unknown(text) {
        Some(word) => Err(word),
        None => Ok(names),
    }
}

/// `check [--explain] [--json] [--lint[=NAME,..]] FILE`
#[tactic(auto, using(crate::proofs::CommandLine::value_in_rows, crate::proofs::CommandLine::optional_in_rows, crate::proofs::CommandLine::required_is_given))]
fn check_job<'a>(found: &ArgMatches<'a>) -> Result<Job<'a>, ValueFault<'a>>
    requires { IsEnteredAs (codes "check") (rows_of (found_of found.now)) }
    ensures job { IfOk result (λ job. IsJobOf job (codes "check") (rows_of (found_of found.now))) }
    ensures fault { IfErr result (IsValueFault (codes "check") (rows_of (found_of found.now))) }
{
    let file = found.get_str("FILE").unwrap();
    let explain = is_set(found, "explain");
    let json = is_set(found, "json");
    match lint_given(found.get_str("lint")) {
        Ok(lint) => Ok(Job::Check {
            file,
            explain,
            lint,
            json,
        }),
        Err(word) => Err(ValueFault::UnknownRemark(word)),
    }
}

/// Whether none of the three is given.
fn are_absent(database: Option<&str>, port: Option<&str>, number: Option<&str>) -> bool
    ensures { result ≡ are_absent (option_map (λ w. w.now) database.entry)
        (option_map (λ w. w.now) port.entry)
        (option_map (λ w. w.now) number.entry) }
{
    match database {
        Some(_) => false,
        None => match port {
            Some(_) => false,
            None => number.is_none(),
        },
    }
}

/// Whether the words name files: neither a place is given nor the number of a release.
fn are_files(found: &ArgMatches) -> bool
    ensures { result ≡ are_files (rows_of (found_of found.now)) }
{
    are_absent(
        found.get_str("db"),
        found.get_str("port"),
        found.get_str("N"),
    )
}

/// Whether both paths are standard input.
fn are_input(old: &str, new: &str) -> bool
    ensures { result ≡ are_input old.now new.now }
{
    old == "-" && new == "-"
}

/// `compare [--json] A B`, or `compare (--db FILE | --port N) [--json] NET M N`
#[tactic(auto, using(crate::proofs::CommandLine::value_in_rows, crate::proofs::CommandLine::optional_in_rows, crate::proofs::CommandLine::required_is_given))]
fn compare_job<'a>(found: &ArgMatches<'a>) -> Result<Job<'a>, ValueFault<'a>>
    requires { IsEnteredAs (codes "compare") (rows_of (found_of found.now)) }
    ensures job { IfOk result (λ job. IsJobOf job (codes "compare") (rows_of (found_of found.now))) }
    ensures fault { IfErr result (IsValueFault (codes "compare") (rows_of (found_of found.now))) }
{
    let first = found.get_str("A").unwrap();
    let second = found.get_str("B").unwrap();
    let json = is_set(found, "json");
    if are_files(found) {
        if are_input(first, second) {
            return Err(ValueFault::InputTwice);
        }
        return Ok(Job::Compare {
            old: first,
            new: second,
            json,
        });
    }
    let place = match place_given(found.get_str("db"), found.get_str("port")) {
        Ok(place) => place,
        Err(fault) => return Err(ValueFault::WrongPlace(LookCommand::Compare, fault)),
    };
    let Some(third) = found.get_str("N") else {
        return Err(ValueFault::WrongPlace(LookCommand::Compare, PlaceFault::NoRelease));
    };
    let Some(old) = release_number(second) else {
        return Err(ValueFault::WrongNumber(Number::OlderRelease, second));
    };
    match release_number(third) {
        Some(new) => Ok(Job::CompareReleases {
            place,
            net: first,
            old,
            new,
            json,
        }),
        None => Err(ValueFault::WrongNumber(Number::NewerRelease, third)),
    }
}

/// What an export has besides the sheet, by its options.
#[tactic(auto, using(crate::proofs::CommandLine::optional_in_rows))]
fn extras_given<'a>(found: &ArgMatches<'a>) -> Extras<'a>
    ensures keep { first_of (codes "keep") (rows_of (found_of found.now))
        ≡ option_map (λ path. path.now) result.original }
    ensures j1939 { result.j1939 ≡ is_set (rows_of (found_of found.now)) (codes "j1939") }
{
    let original = found.get_str("keep");
    let j1939 = is_set(found, "j1939");
    Extras { original, j1939 }
}

/// `export [--keep ORIGINAL] [--j1939] --db FILE NET N`
#[tactic(auto, using(crate::proofs::CommandLine::value_in_rows, crate::proofs::CommandLine::optional_in_rows, crate::proofs::CommandLine::required_is_given))]
fn export_job<'a>(found: &ArgMatches<'a>) -> Result<Job<'a>, ValueFault<'a>>
    requires { IsEnteredAs (codes "export") (rows_of (found_of found.now)) }
    ensures job { IfOk result (λ job. IsJobOf job (codes "export") (rows_of (found_of found.now))) }
    ensures fault { IfErr result (IsValueFault (codes "export") (rows_of (found_of found.now))) }
{
    let database = found.get_str("db").unwrap();
    let net = found.get_str("NET").unwrap();
    let word = found.get_str("N").unwrap();
    let extras = extras_given(found);
    match release_number(word) {
        Some(number) => Ok(Job::Export {
            database,
            net,
            number,
            extras,
        }),
        None => Err(ValueFault::WrongNumber(Number::Release, word)),
    }
}

/// `format [--explain] [--keep] FILE`
#[tactic(auto, using(crate::proofs::CommandLine::value_in_rows, crate::proofs::CommandLine::optional_in_rows, crate::proofs::CommandLine::required_is_given))]
fn format_job<'a>(found: &ArgMatches<'a>) -> Job<'a>
    requires { IsEnteredAs (codes "format") (rows_of (found_of found.now)) }
    ensures { IsJobOf result (codes "format") (rows_of (found_of found.now)) }
{
    let file = found.get_str("FILE").unwrap();
    let explain = is_set(found, "explain");
    let keep = is_set(found, "keep");
    Job::Format {
        file,
        explain,
        keep,
    }
}

/// `migrate --db FILE`
#[tactic(auto, using(crate::proofs::CommandLine::value_in_rows, crate::proofs::CommandLine::optional_in_rows, crate::proofs::CommandLine::required_is_given))]
fn migrate_job<'a>(found: &ArgMatches<'a>) -> Job<'a>
    requires { IsEnteredAs (codes "migrate") (rows_of (found_of found.now)) }
    ensures { IsJobOf result (codes "migrate") (rows_of (found_of found.now)) }
{
    let database = found.get_str("db").unwrap();
    Job::Migrate { database }
}

/// `page FILE`, or `page (--db FILE | --port N) NET [N]`
#[tactic(auto, using(crate::proofs::CommandLine::value_in_rows, crate::proofs::CommandLine::optional_in_rows, crate::proofs::CommandLine::required_is_given))]
fn page_job<'a>(found: &ArgMatches<'a>) -> Result<Job<'a>, ValueFault<'a>>
    requires { IsEnteredAs (codes "page") (rows_of (found_of found.now)) }
    ensures job { IfOk result (λ job. IsJobOf job (codes "page") (rows_of (found_of found.now))) }
    ensures fault { IfErr result (IsValueFault (codes "page") (rows_of (found_of found.now))) }
{
    let net = found.get_str("NET").unwrap();
    if are_files(found) {
        return Ok(Job::PageFile { file: net });
    }
    let place = match place_given(found.get_str("db"), found.get_str("port")) {
        Ok(place) => place,
        Err(fault) => return Err(ValueFault::WrongPlace(LookCommand::Page, fault)),
    };
    match page_number(found.get_str("N")) {
        Ok(number) => Ok(Job::Page { place, net, number }),
        Err(word) => Err(ValueFault::WrongNumber(Number::PageRelease, word)),
    }
}

/// `requests (--db FILE | --port N) [--json] TEAM`
#[tactic(auto, using(crate::proofs::CommandLine::value_in_rows, crate::proofs::CommandLine::optional_in_rows, crate::proofs::CommandLine::required_is_given))]
fn requests_job<'a>(found: &ArgMatches<'a>) -> Result<Job<'a>, ValueFault<'a>>
    requires { IsEnteredAs (codes "requests") (rows_of (found_of found.now)) }
    ensures job { IfOk result (λ job. IsJobOf job (codes "requests") (rows_of (found_of found.now))) }
    ensures fault { IfErr result (IsValueFault (codes "requests") (rows_of (found_of found.now))) }
{
    let team = found.get_str("TEAM").unwrap();
    let json = is_set(found, "json");
    match place_given(found.get_str("db"), found.get_str("port")) {
        Ok(place) => Ok(Job::Requests { place, team, json }),
        Err(fault) => Err(ValueFault::WrongPlace(LookCommand::Requests, fault)),
    }
}

/// `send [--port N] [--tries N] [--strict] [--echo] SCRIPT`
#[tactic(auto, using(crate::proofs::CommandLine::value_in_rows, crate::proofs::CommandLine::optional_in_rows, crate::proofs::CommandLine::required_is_given))]
fn send_job<'a>(found: &ArgMatches<'a>) -> Result<Job<'a>, ValueFault<'a>>
    requires { IsEnteredAs (codes "send") (rows_of (found_of found.now)) }
    ensures job { IfOk result (λ job. IsJobOf job (codes "send") (rows_of (found_of found.now))) }
    ensures fault { IfErr result (IsValueFault (codes "send") (rows_of (found_of found.now))) }
{
    let script = found.get_str("SCRIPT").unwrap();
    let port = match port_given(found.get_str("port")) {
        Ok(port) => port,
        Err(word) => return Err(ValueFault::WrongNumber(Number::SendPort, word)),
    };
    let manner = manner_given(found);
    match tries_given(found.get_str("tries")) {
        Ok(tries) => {
            let sending = Sending {
                port,
                tries,
                manner,
            };
            Ok(Job::Send { sending, script })
        }
        Err(word) => Err(ValueFault::WrongNumber(Number::Tries, word)),
    }
}

/// `serve --db FILE [--port N] [--count N] [--explain]`
#[tactic(auto, using(crate::proofs::CommandLine::value_in_rows, crate::proofs::CommandLine::optional_in_rows, crate::proofs::CommandLine::required_is_given))]
fn serve_job<'a>(found: &ArgMatches<'a>) -> Result<Job<'a>, ValueFault<'a>>
    requires { IsEnteredAs (codes "serve") (rows_of (found_of found.now)) }
    ensures job { IfOk result (λ job. IsJobOf job (codes "serve") (rows_of (found_of found.now))) }
    ensures fault { IfErr result (IsValueFault (codes "serve") (rows_of (found_of found.now))) }
{
    let database = found.get_str("db").unwrap();
    let port = match port_given(found.get_str("port")) {
        Ok(port) => port,
        Err(word) => return Err(ValueFault::WrongNumber(Number::Port, word)),
    };
    let explain = is_set(found, "explain");
    match count_given(found.get_str("count")) {
        Ok(count) => Ok(Job::Serve {
            database,
            port,
            count,
            explain,
        }),
        Err(word) => Err(ValueFault::WrongNumber(Number::Count, word)),
    }
}

/// `show (--db FILE | --port N) [--json] [NET [WHAT [NAME]]]`
#[tactic(auto, using(crate::proofs::CommandLine::optional_in_rows))]
fn show_job<'a>(found: &ArgMatches<'a>) -> Result<Job<'a>, ValueFault<'a>>
    ensures job { IfOk result (λ job. IsJobOf job (codes "show") (rows_of (found_of found.now))) }
    ensures fault { IfErr result (IsValueFault (codes "show") (rows_of (found_of found.now))) }
{
    let place = match place_given(found.get_str("db"), found.get_str("port")) {
        Ok(place) => place,
        Err(fault) => return Err(ValueFault::WrongPlace(LookCommand::Show, fault)),
    };
    let net = found.get_str("NET");
    let name = found.get_str("NAME");
    let json = is_set(found, "json");
    match shown_by(net, found.get_str("WHAT"), name, json) {
        Ok(what) => Ok(Job::Show {
            place,
            net,
            what,
            name,
            json,
        }),
        Err(fault) => Err(ValueFault::WrongWhat(fault)),
    }
}

/// `table [--json] FILE`
#[tactic(auto, using(crate::proofs::CommandLine::value_in_rows, crate::proofs::CommandLine::optional_in_rows, crate::proofs::CommandLine::required_is_given))]
fn table_job<'a>(found: &ArgMatches<'a>) -> Job<'a>
    requires { IsEnteredAs (codes "table") (rows_of (found_of found.now)) }
    ensures { IsJobOf result (codes "table") (rows_of (found_of found.now)) }
{
    let file = found.get_str("FILE").unwrap();
    let json = is_set(found, "json");
    Job::Table { file, json }
}
