//! The jobs of the program `canoffice`: what the words of its command line request.
//!
//! - `subcommands` is the table of the subcommands and their arguments, `help` has what help says at its end, and
//!   `command_line` hands both to clap.
//! - `job` turns the words into a `Job` with the values of its arguments, or into a `JobFault`.
//! - `extras` has what is printed beside a release.
//! - `numbers` has the ranges of the numbers that words give, `place` where an office is looked at, and `manner` how a
//!   script is applied or sent.
//! - `meant` and `remarks` have the words that are read as others: `help --help`, and `--lint` without names.
//! - `what` and `words` have what the words of `show`, `page` and `requests` look up: [`What`] is what `show` shows of
//!   a network, and [`show_look`], [`page_look`] and [`requests_look`] give the [`Look`](office_types::Look) of words,
//!   or none where one of them hasn't the form of what it names.
//!
//! `specs/CommandLine.antt` has the same in terms of what clap finds in the words: `IsLine`.
#![tactic(auto)]

mod command_line;
mod extras;
mod job;
mod manner;
mod meant;
mod numbers;
mod place;
mod remarks;
mod subcommands;
mod what;
mod words;

pub use extras::Extras;
pub use job::{Job, JobFault, job_of, not_utf8_fault};
pub use manner::{Manner, Sending};
pub use meant::name_before_help;
pub use place::OfficePlace;
pub use remarks::{is_check, lint_entered};
pub use what::{What, WhatFault, shown_by};
pub use words::{page_look, requests_look, show_look};
