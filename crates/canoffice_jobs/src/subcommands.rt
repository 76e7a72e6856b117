//! The subcommands, each with its arguments: what clap reads, and what help, usage and errors say.
//!
//! They are tuples, since a definition can cite a constant of tuples of texts, but none of structs that hold references.
ghost use Rattle.std.specs.Prelude.{◌≡◌, false};
ghost use Rattle.clap.specs.Words.{rule_of};
ghost use Rattle.canoffice_jobs.specs.Built.{IsBuilt};
ghost use Rattle.canoffice_jobs.specs.Subcommands.{app_with, rule_by};

use clap::{Arg, ArgAction, Command};
use std::alloc::{AllocError, Global};

/// In which form an argument is given.
#[derive(Clone, Copy)]
pub enum Form {
    /// A word, which may be left out.
    MaybeWord,
    /// A word.
    Word,
    /// All further words, at least one.
    Words,
    /// `--NAME VALUE`, which may be left out.
    Value,
    /// `--NAME VALUE`.
    Required,
    /// `--NAME`, which may be left out.
    Flag,
}

/// An argument: its name, its form, how help calls its value where it has one after its name, and what help says of it.
pub type Argument = (&'static str, Form, &'static str, &'static str);

/// A subcommand: its name, what help says of it, its usage where that has to say more than clap finds by itself, and its
/// arguments.
pub type Subcommand = (
    &'static str,
    &'static str,
    Option<&'static str>,
    &'static [Argument],
);

const DBC_FILE: Argument = (
    "FILE",
    Form::Word,
    "",
    "The DBC file, or - for standard input",
);

const SCRIPT: Argument = (
    "SCRIPT",
    Form::Word,
    "",
    "The script's file, or - for standard input",
);

const NET: Argument = ("NET", Form::Word, "", "The network's name");

/// The database of an office that may be looked at elsewhere.
const DATABASE: Argument = ("db", Form::Value, "FILE", "The office's database");

/// The database of an office.
const THE_DATABASE: Argument = ("db", Form::Required, "FILE", "The office's database");

const PORT: Argument = (
    "port",
    Form::Value,
    "N",
    "The port of this machine, 1 to 65535, at which a desk serves the office",
);

const STRICT: Argument = (
    "strict",
    Form::Flag,
    "",
    "Stops after the first refusal, with status 1",
);

const ECHO: Argument = (
    "echo",
    Form::Flag,
    "",
    "Prints before each reply its key, its command and what that names",
);

const JSON: Argument = ("json", Form::Flag, "", "Prints it as JSON");

pub const APPLY: Subcommand = (
    "apply",
    "Runs a script and prints each reply",
    None,
    &[
        (
            "db",
            Form::Value,
            "FILE",
            "The office's database, made if the file isn't there; without it the office is in memory",
        ),
        (
            "explain",
            Form::Flag,
            "",
            "Reports also which field of a wrong line is wrong, and why commands are refused",
        ),
        STRICT,
        ECHO,
        SCRIPT,
    ],
);

pub const CHART: Subcommand = (
    "chart",
    "Prints which signal has which bit of a message, and the first clash",
    None,
    &[
        (
            "LENGTH",
            Form::Word,
            "",
            "How many bytes the message has, 0 to 1785",
        ),
        (
            "SIGNAL",
            Form::Words,
            "",
            "A signal: name=start|size@order, then nothing, ,M or ,mN",
        ),
    ],
);

pub const CHECK: Subcommand = (
    "check",
    "Lists the skipped statements of a DBC file, and checks that its signals fit",
    None,
    &[
        (
            "explain",
            Form::Flag,
            "",
            "Says also where each fault and each clash is, and what to do",
        ),
        (
            "lint",
            Form::Value,
            "NAMES",
            "Prints remarks too, with status 1: --lint alone of all kinds, --lint=NAME,.. of these",
        ),
        JSON,
        DBC_FILE,
    ],
);

/// `compare A B`, or `compare (--db FILE | --port N) NET M N`
pub const COMPARE: Subcommand = (
    "compare",
    "Prints what changed from one DBC file or release to another",
    Some(
        "canoffice compare [--json] <A> <B>\n       canoffice compare <--db <FILE>|--port <N>> [--json] <NET> <M> <N>",
    ),
    &[
        DATABASE,
        PORT,
        JSON,
        (
            "A",
            Form::Word,
            "",
            "The older DBC file, or - for standard input; of an office NET, the network's name",
        ),
        (
            "B",
            Form::Word,
            "",
            "The newer DBC file, or - for standard input; of an office M, the number of the older release",
        ),
        (
            "N",
            Form::MaybeWord,
            "",
            "Of an office, the number of the newer release; 0 stands for the live sheet",
        ),
    ],
);

pub const EXPORT: Subcommand = (
    "export",
    "Prints a release as a DBC file",
    None,
    &[
        (
            "keep",
            Form::Value,
            "ORIGINAL",
            "A DBC file, or -: its skipped statements that are about the release are printed too",
        ),
        (
            "j1939",
            Form::Flag,
            "",
            "Prints also the attributes by which tools take 29-bit messages as J1939",
        ),
        THE_DATABASE,
        NET,
        (
            "N",
            Form::Word,
            "",
            "The number of the release, 1 to 65535, or 0 for the live sheet",
        ),
    ],
);

pub const FORMAT: Subcommand = (
    "format",
    "Prints a DBC file in its canonical form",
    None,
    &[
        (
            "explain",
            Form::Flag,
            "",
            "Says also where each fault is, or what the text leaves out",
        ),
        (
            "keep",
            Form::Flag,
            "",
            "Prints also the statements that check lists as passed, each at its place",
        ),
        DBC_FILE,
    ],
);

pub const MIGRATE: Subcommand = (
    "migrate",
    "Makes a database of an earlier version one of this version",
    None,
    &[THE_DATABASE],
);

/// `page FILE`, or `page (--db FILE | --port N) NET [N]`
pub const PAGE: Subcommand = (
    "page",
    "Prints a DBC file, a network or a release as one HTML page",
    Some("canoffice page <FILE>\n       canoffice page <--db <FILE>|--port <N>> <NET> [N]"),
    &[
        DATABASE,
        PORT,
        (
            "NET",
            Form::Word,
            "",
            "FILE, a DBC file, or - for standard input; of an office NET, the network's name",
        ),
        (
            "N",
            Form::MaybeWord,
            "",
            "Of an office, the number of the release; 0, or none, stands for the live network",
        ),
    ],
);

pub const REQUESTS: Subcommand = (
    "requests",
    "Prints the requests of a team with their replies",
    Some("canoffice requests <--db <FILE>|--port <N>> [--json] <TEAM>"),
    &[
        DATABASE,
        PORT,
        ("json", Form::Flag, "", "Prints them as JSON"),
        ("TEAM", Form::Word, "", "The team's name"),
    ],
);

pub const SEND: Subcommand = (
    "send",
    "Sends each line of a script to a desk of this machine, and prints each reply",
    None,
    &[
        (
            "port",
            Form::Value,
            "N",
            "The port of this machine, 1 to 65535, of the desk; 8089 where none is given",
        ),
        (
            "tries",
            Form::Value,
            "N",
            "How often a request is sent until it is answered, 1 to 1000; 3 where none is given",
        ),
        STRICT,
        ECHO,
        SCRIPT,
    ],
);

pub const SERVE: Subcommand = (
    "serve",
    "Serves the office over HTTP on 127.0.0.1",
    None,
    &[
        THE_DATABASE,
        (
            "port",
            Form::Value,
            "N",
            "The port, 1 to 65535; 8089 where none is given",
        ),
        (
            "count",
            Form::Value,
            "N",
            "After how many connections it ends, 1 to 1000000, which it is where none is given",
        ),
        (
            "explain",
            Form::Flag,
            "",
            "Reports each answer other than 200, and why, in a line on standard error",
        ),
    ],
);

pub const SHOW: Subcommand = (
    "show",
    "Prints what a network has, or the list of networks",
    Some("canoffice show <--db <FILE>|--port <N>> [--json] [NET [WHAT [NAME]]]"),
    &[
        DATABASE,
        PORT,
        (
            "json",
            Form::Flag,
            "",
            "Prints what the network has as JSON",
        ),
        (
            "NET",
            Form::MaybeWord,
            "",
            "The network's name; without it the list of networks is printed",
        ),
        (
            "WHAT",
            Form::MaybeWord,
            "",
            "state (if left out), blocks, messages, message, held, releases, nodes, spns, who",
        ),
        (
            "NAME",
            Form::MaybeWord,
            "",
            "A team (blocks, messages), a message, a node, or after who a name or a number",
        ),
    ],
);

pub const TABLE: Subcommand = (
    "table",
    "Prints a table of the messages of a DBC file",
    None,
    &[JSON, DBC_FILE],
);

/// All of them, as help lists them.
pub const SUBCOMMANDS: &[&Subcommand] = &[
    &APPLY, &CHART, &CHECK, &COMPARE, &EXPORT, &FORMAT, &MIGRATE, &PAGE, &REQUESTS, &SEND, &SERVE,
    &SHOW, &TABLE,
];

/// What the help of each ends with: examples, and its exit statuses. They are beside the subcommands, since definitions
/// cite those and would have each letter of the texts.
const ENDS: &[(&str, &str)] = &[
    (
        "apply",
        "Examples:\n  \
         canoffice apply --db office.db script.txt\n  \
         canoffice apply --strict --echo script.txt\n\
         \n\
         Exit status:\n  \
         0  it ran, whatever was refused\n  \
         1  with --strict: a command was refused\n  \
         2  a line of the script is wrong, or the command line is\n  \
         3  the script can't be read, or the database fails",
    ),
    (
        "chart",
        "Examples:\n  \
         canoffice chart 8 Speed=7|16@0 Gear=24|4@1\n  \
         canoffice chart 8 'Mode=0|4@1,M' 'Torque=8|16@1,m2'\n\
         \n\
         Exit status:\n  \
         0  no two signals share a bit, and each fits\n  \
         1  there is a clash\n  \
         2  a signal is no such word, or the command line is wrong",
    ),
    (
        "check",
        "Examples:\n  \
         canoffice check network.dbc\n  \
         canoffice check --explain --lint network.dbc\n\
         \n\
         Exit status:\n  \
         0  the file is clear, and there is no remark\n  \
         1  a fault, a clash or a remark was found\n  \
         2  the command line is wrong\n  \
         3  the file can't be read",
    ),
    (
        "compare",
        "Examples:\n  \
         canoffice compare older.dbc newer.dbc\n  \
         canoffice compare --db office.db truck 1 0\n\
         \n\
         Exit status:\n  \
         0  both are equal\n  \
         1  there is a difference or a fault, or there is no such release\n  \
         2  the command line is wrong\n  \
         3  a file can't be read, or the database or the desk fails",
    ),
    (
        "export",
        "Examples:\n  \
         canoffice export --db office.db truck 1\n  \
         canoffice export --j1939 --keep original.dbc --db office.db truck 0\n\
         \n\
         Exit status:\n  \
         0  it was printed\n  \
         1  there is no such release, or ORIGINAL has a fault\n  \
         2  the command line is wrong\n  \
         3  ORIGINAL can't be read, or the database fails",
    ),
    (
        "format",
        "Examples:\n  \
         canoffice format network.dbc\n  \
         canoffice format --keep network.dbc\n\
         \n\
         Exit status:\n  \
         0  it was printed\n  \
         1  the file has a fault\n  \
         2  the command line is wrong\n  \
         3  the file can't be read",
    ),
    (
        "migrate",
        "Example:\n  \
         canoffice migrate --db office.db\n\
         \n\
         Exit status:\n  \
         0  the database is of this version\n  \
         2  the command line is wrong\n  \
         3  the database fails",
    ),
    (
        "page",
        "Examples:\n  \
         canoffice page network.dbc\n  \
         canoffice page --db office.db truck 1\n\
         \n\
         Exit status:\n  \
         0  it was printed\n  \
         1  the file has a fault, or there is no such network or release\n  \
         2  the command line is wrong\n  \
         3  the file can't be read, or the database or the desk fails",
    ),
    (
        "requests",
        "Examples:\n  \
         canoffice requests --db office.db engine\n  \
         canoffice requests --port 8089 --json engine\n\
         \n\
         Exit status:\n  \
         0  they were printed\n  \
         1  there is no such database\n  \
         2  the command line is wrong\n  \
         3  the database or the desk fails",
    ),
    (
        "send",
        "Examples:\n  \
         canoffice send script.txt\n  \
         canoffice send --port 8090 --strict --echo script.txt\n\
         \n\
         Exit status:\n  \
         0  all was answered, whatever was refused\n  \
         1  with --strict: a command was refused\n  \
         2  a line of the script is wrong, or the command line is\n  \
         3  the script can't be read, or the desk gives no answer",
    ),
    (
        "serve",
        "Examples:\n  \
         canoffice serve --db office.db\n  \
         canoffice serve --db office.db --port 8090 --explain\n\
         \n\
         Exit status:\n  \
         0  all connections were served\n  \
         2  the command line is wrong\n  \
         3  the port can't be listened on, or the database fails",
    ),
    (
        "show",
        "Examples:\n  \
         canoffice show --db office.db truck\n  \
         canoffice show --db office.db truck who 65280\n\
         \n\
         Exit status:\n  \
         0  it was printed\n  \
         1  there is no such network, message, node, name or number\n  \
         2  the command line is wrong\n  \
         3  the database or the desk fails",
    ),
    (
        "table",
        "Examples:\n  \
         canoffice table network.dbc\n  \
         canoffice table --json network.dbc\n\
         \n\
         Exit status:\n  \
         0  it was printed\n  \
         1  the file has a fault\n  \
         2  the command line is wrong\n  \
         3  the file can't be read",
    ),
];

/// The text that is beside this name, or none.
fn beside(name: &str, texts: &[(&str, &'static str)]) -> &'static str {
    for (other, text) in texts {
        if *other == name {
            return text;
        }
    }
    ""
}

/// The argument, as clap takes it.
fn clap_argument<'a>(alloc: Global, argument: &Argument) -> Arg<'a>
    ensures rule { rule_of result ≡ rule_by argument.now.1 argument.now.0.now }
    ensures local { result.global ≡ false }
{
    let (name, form, value, help) = *argument;
    let named = Arg::new(alloc, name).help(help);
    match form {
        Form::MaybeWord => named,
        Form::Word => named.required(true),
        Form::Words => named.required(true).num_args(1..),
        Form::Value => named.long(name).value_name(value),
        Form::Required => named.long(name).value_name(value).required(true),
        Form::Flag => named.long(name).action(ArgAction::SetTrue),
    }
}

/// The subcommand, as clap takes it. The error is out of memory.
pub(crate) fn clap_command<'a>(
    alloc: Global,
    subcommand: &Subcommand,
) -> Result<Command<'a>, AllocError>
    ensures { IsBuilt result (app_with (λ a. rule_by a.1 a.0.now) subcommand.now.0.now subcommand.now.3.now) }
{
    let (name, about, usage, arguments) = *subcommand;
    let mut command = Command::new(alloc, name)
        .about(about)
        .after_help(beside(name, ENDS));
    for argument in arguments {
        command = command.arg(clap_argument(alloc, argument))?;
    }
    match usage {
        Some(usage) => Ok(command.override_usage(usage)),
        None => Ok(command),
    }
}
