// The words behind `keep`.
ghost use Rattle.std.specs.Prelude.{◌≡◌, IfOk, IfSome, map, string_bytes};
ghost use Rattle.clap.specs.Words.{app_of, found_of, first_value};
ghost use Rattle.ifdb_words.specs.Clap.{keep_app};
ghost use Rattle.ifdb_words.specs.Keep.{keep_in, keep_of};
ghost use Rattle.ifdb_words.specs.Ranges.{IsLimit};

use crate::file_name::{FileName, named};
use crate::limit::limit_of;
use crate::options::{bare_command, option, taken};
use clap::ArgMatches;
use std::alloc::{AllocError as OutOfMemory, Global};

/// What `keep` is asked for.
#[derive(Drop)]
pub struct Keep {
    /// The file that the journal is in.
    pub file: FileName,
    /// How many bytes of the input are taken: from 1 to 2^40.
    pub limit: u64,
}

/// What the words behind `keep` ask for; `None` exactly where they aren't well formed. The only error is want of memory.
#[tactic(auto, using(crate::proofs::KeepOptions::free, crate::proofs::KeepOptions::keep_taken, crate::proofs::KeepOptions::keep_refused, crate::proofs::InRange::keep_in_range))]
pub fn keep_in(alloc: Global, words: &[String]) -> Result<Option<Keep>, OutOfMemory>
    ensures keep { IfOk result (λ keep. keep ≡ keep_in (map string_bytes words.now)) }
    ensures range { IfOk result (λ keep. IfSome keep (λ k. IsLimit k.limit)) }
{
    let command = keep_command(alloc)?;
    match taken(command, words)? {
        Some(matches) => keep_of(alloc, &matches),
        None => Ok(None),
    }
}

/// What the values of the options ask for.
fn keep_of(alloc: Global, matches: &ArgMatches) -> Result<Option<Keep>, OutOfMemory>
    ensures { IfOk result (λ keep. keep ≡ keep_of (first_value (found_of matches.now))) }
{
    let Some(limit) = limit_of(matches) else {
        return Ok(None);
    };
    match named(alloc, matches, "file")? {
        Some(file) => Ok(Some(Keep { file, limit })),
        None => Ok(None),
    }
}

/// The command as clap knows it.
fn keep_command<'a>(alloc: Global) -> Result<clap::Command<'a>, OutOfMemory>
    ensures { IfOk result (λ command. app_of command ≡ keep_app) }
{
    let with_file = bare_command(alloc, "keep").arg(option(alloc, "file", true))?;
    with_file.arg(option(alloc, "limit", false))
}
