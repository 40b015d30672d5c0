//! The parser of a command's options.

ghost use Rattle.std.specs.Prelude.{◌≡◌, IfOk, true, false, map, string_bytes};
ghost use Rattle.clap.specs.Faults.{is_simple_and_free};
ghost use Rattle.clap.specs.Simple.{app_of, is_simple};
ghost use Rattle.clap.specs.Walk.{rule_of};
ghost use Rattle.command_words.specs.Parsing.{flag_rule, plain_app, value_rule, Parses};

use clap::error::ErrorKind;
use clap::{Arg, ArgAction, ArgMatches};
use std::alloc::{AllocError, Global};

/// A command that has no options yet, nor a flag for help.
pub(crate) fn plain_command<'a>(alloc: Global, name: &'a str) -> clap::Command<'a>
    ensures { app_of result ≡ plain_app name.now }
{
    clap::Command::new(alloc, name).disable_help_flag(true)
}

/// The option `--name value`.
pub(crate) fn value<'a>(alloc: Global, name: &'a str) -> Arg<'a>
    ensures rule { rule_of result ≡ value_rule name.now }
    ensures local { result.global ≡ false }
{
    Arg::new(alloc, name).long(name).action(ArgAction::Set)
}

/// The option `--name`.
pub(crate) fn flag<'a>(alloc: Global, name: &'a str) -> Arg<'a>
    ensures rule { rule_of result ≡ flag_rule name.now }
    ensures local { result.global ≡ false }
{
    Arg::new(alloc, name).long(name).action(ArgAction::SetTrue)
}

/// The matches of the words, where the command takes them; an error only for want of memory.
pub(crate) fn parsed<'a>(
    command: clap::Command<'a>,
    words: &'a [String],
) -> Result<Option<ArgMatches<'a>>, AllocError>
    requires free { is_simple_and_free (app_of command) ≡ true }
    requires simple { is_simple (app_of command) ≡ true }
    ensures { IfOk result (Parses (app_of command.entry) (map string_bytes words.now)) }
{
    match command.try_get_matches_from(words) {
        Ok(matches) => Ok(Some(matches)),
        Err(error) if error.kind() == ErrorKind::OutOfMemory => Err(AllocError),
        Err(_) => Ok(None),
    }
}
