//! The words of the command line, read by `clap`.
#![tactic(auto)]

ghost use Rattle.std.specs.Prelude.{◌≡◌, IfOk, map, option_and_then, string_bytes};
ghost use Rattle.clap.specs.Words.{app_of, subcommand_name_of};
ghost use Rattle.scfs_words.specs.Command.{command_of, named};
ghost use Rattle.scfs_words.specs.Program.{program};

use clap::ArgMatches;
use clap::error::ErrorKind;
use scfs_base::Memory;
use std::alloc::{AllocError, Global};

/// What the program can do: write the transcript of a schedule, or the dump of the tree that it leaves; or run a script over real clouds.
#[derive(Clone, Copy, Debug, PartialEq, Eq)]
pub enum Command {
    Replay,
    Dump,
    Run,
}

/// The command line as `clap` reads it: a subcommand for each command, with no flags and no help.
fn program<'a>(alloc: Global) -> Result<clap::Command<'a>, AllocError>
    ensures { IfOk result (λ made. app_of made ≡ program) }
{
    clap::Command::new(alloc, "scfs")
        .no_binary_name(true)
        .disable_help_flag(true)
        .disable_help_subcommand(true)
        .subcommand_required(true)
        .subcommand(clap::Command::new(alloc, "replay"))?
        .subcommand(clap::Command::new(alloc, "dump"))?
        .subcommand(clap::Command::new(alloc, "run"))
}

/// The command of this name, if there is one.
fn named(word: &str) -> Option<Command>
    ensures { result ≡ named word.now }
{
    match word {
        "replay" => Some(Command::Replay),
        "dump" => Some(Command::Dump),
        "run" => Some(Command::Run),
        _ => None,
    }
}

/// The command whose subcommand was entered, if one was.
fn chosen(matches: &ArgMatches) -> Option<Command>
    ensures { result ≡ option_and_then named (subcommand_name_of matches.now) }
{
    named(matches.subcommand_name()?)
}

/// The command that the words are, if they are one: its name alone.
pub fn command_of(alloc: Global, words: &[String]) -> Result<Option<Command>, Memory>
    ensures { IfOk result (λ command. command ≡ command_of (map string_bytes words.now)) }
{
    match program(alloc)?.try_get_matches_from(words) {
        // `clap` takes a `--` behind a name, where options would end.
        Ok(matches) if words.len() == 1 => Ok(chosen(&matches)),
        Ok(_) => Ok(None),
        Err(error) => match error.kind() {
            ErrorKind::OutOfMemory => Err(Memory),
            _ => Ok(None),
        },
    }
}

#[cfg(test)]
mod tests;
