// The options of a command, as clap reads them.
ghost use Rattle.std.specs.Prelude.{◌≡◌, IfOk, true, false, map, string_bytes};
ghost use Rattle.std.specs.List.{list_any};
ghost use Rattle.clap.specs.Words.{app_of, is_simple_and_free, rule_of};
ghost use Rattle.ifdb_words.specs.Clap.{IsTaken, bare_app, is_stray, option_of};

use clap::error::ErrorKind;
use clap::{Arg, ArgAction, ArgMatches, Command};
use std::alloc::{AllocError as OutOfMemory, Global};

/// What clap makes of the words behind a command; `None` where it refuses them, or where one begins with a hyphen and is no option, which
/// clap might take. The only error is want of memory.
pub fn taken<'a>(
    command: Command<'a>,
    words: &'a [String],
) -> Result<Option<ArgMatches<'a>>, OutOfMemory>
    requires { is_simple_and_free (app_of command) ≡ true }
    ensures { IfOk result (IsTaken (app_of command.entry) (map string_bytes words.now)) }
{
    if has_stray(words) {
        return Ok(None);
    }
    match command.try_get_matches_from(words) {
        Ok(matches) => Ok(Some(matches)),
        Err(error) => {
            if error.kind() == ErrorKind::OutOfMemory {
                return Err(OutOfMemory);
            }
            Ok(None)
        }
    }
}

/// Whether one of the words begins with a hyphen and is no option.
fn has_stray(words: &[String]) -> bool
    ensures { result ≡ list_any is_stray (map string_bytes words.now) }
{
    for word in words {
        if is_stray(word.as_str().as_bytes()) {
            return true;
        }
    }
    false
}

/// Whether a word begins with a hyphen and is no option, as `-`, `--` and `-x`.
fn is_stray(word: &[u8]) -> bool
    ensures { result ≡ is_stray word.now }
{
    match word {
        [b'-', b'-', _, ..] => false,
        [b'-', ..] => true,
        _ => false,
    }
}

/// A command whose words don't begin with its name, and which answers no `--help`.
pub fn bare_command<'a>(alloc: Global, name: &'a str) -> Command<'a>
    ensures { app_of result ≡ bare_app name.entry.now }
{
    Command::new(alloc, name)
        .no_binary_name(true)
        .disable_help_flag(true)
}

/// An option with a value.
pub fn option<'a>(alloc: Global, name: &'a str, required: bool) -> Arg<'a>
    ensures rule { rule_of result ≡ option_of name.entry.now required }
    ensures local { result.global ≡ false }
{
    Arg::new(alloc, name)
        .long(name)
        .required(required)
        .action(ArgAction::Set)
}
