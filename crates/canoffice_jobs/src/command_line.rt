//! The command line, described for clap.
ghost use Rattle.std.specs.Prelude.{◌≡◌, codes, false};
ghost use Rattle.clap.specs.Words.{app_of, new_app};
ghost use Rattle.clap.specs.declared.builder.command.Command.TheViews.{out-Command as fields_of};
ghost use Rattle.canoffice_jobs.specs.Built.{IsBuilt};
ghost use Rattle.canoffice_jobs.specs.Subcommands.{app_with, canoffice_app, program_with, rule_by, wants_subcommand, with_version};

use crate::subcommands::{SUBCOMMANDS, Subcommand, clap_command};
use clap::Command;
use std::alloc::{AllocError, Global};

/// The program's version, which `--version` prints. A crate has no manifest here, so it is kept in this line.
const VERSION: &str = "0.7.0";

/// The program's command line before its subcommands, one of which is required, unless the version is requested.
fn bare_command<'a>(alloc: Global) -> Command<'a>
    ensures app { app_of result ≡ wants_subcommand (with_version (new_app (codes "canoffice"))) }
    ensures local { (fields_of result).has_globals ≡ false }
{
    let named = Command::new(alloc, "canoffice").about(
        "Checks, formats and charts DBC files, and gives out CAN identifiers",
    );
    named
        .version(VERSION)
        .subcommand_required(true)
        .arg_required_else_help(true)
}

/// The program's command line with these subcommands, one of which is required. The error is out of memory.
fn command_with<'a>(alloc: Global, subcommands: &[&Subcommand]) -> Result<Command<'a>, AllocError>
    ensures { IsBuilt result (program_with
        (λ s. app_with (λ a. rule_by a.1 a.0.now) s.now.0.now s.now.3.now) subcommands.now) }
{
    let mut command = bare_command(alloc);
    for subcommand in subcommands {
        command = command.subcommand(clap_command(alloc, subcommand)?)?;
    }
    Ok(command)
}

/// The program's command line with all its subcommands. The error is out of memory.
pub fn canoffice_command<'a>(alloc: Global) -> Result<Command<'a>, AllocError>
    ensures { IsBuilt result canoffice_app }
{
    command_with(alloc, SUBCOMMANDS)
}
