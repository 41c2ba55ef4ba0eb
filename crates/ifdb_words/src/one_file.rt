// The words behind a command whose one option is `--file`.
ghost use Rattle.std.specs.Prelude.{◌≡◌, IfOk, map, string_bytes};
ghost use Rattle.clap.specs.Words.{app_of, found_of, first_value};
ghost use Rattle.ifdb_words.specs.Clap.{one_file_app};
ghost use Rattle.ifdb_words.specs.OneFile.{one_file_in};

use crate::file_name::{FileName, named};
use crate::options::{bare_command, option, taken};
use std::alloc::{AllocError as OutOfMemory, Global};

/// The file that words name behind a command whose one option is `--file`; `None` exactly where they aren't well formed. The only error is
/// want of memory.
#[tactic(auto, using(crate::proofs::OneFileOptions::free, crate::proofs::OneFileOptions::one_file_taken, crate::proofs::OneFileOptions::one_file_refused))]
pub fn one_file_in(alloc: Global, words: &[String]) -> Result<Option<FileName>, OutOfMemory>
    ensures file { IfOk result (λ file. file ≡ one_file_in (map string_bytes words.now)) }
{
    let command = one_file_command(alloc)?;
    match taken(command, words)? {
        Some(matches) => named(alloc, &matches, "file"),
        None => Ok(None),
    }
}

/// The command as clap knows it.
fn one_file_command<'a>(alloc: Global) -> Result<clap::Command<'a>, OutOfMemory>
    ensures { IfOk result (λ command. app_of command ≡ one_file_app) }
{
    bare_command(alloc, "file").arg(option(alloc, "file", true))
}
