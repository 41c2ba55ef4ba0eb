// The words behind `host`.
ghost use Rattle.std.specs.Prelude.{◌≡◌, IfOk, IfSome, map, string_bytes};
ghost use Rattle.clap.specs.Words.{app_of, found_of, first_value};
ghost use Rattle.ifdb_words.specs.Clap.{host_app};
ghost use Rattle.ifdb_words.specs.Host.{host_in, host_of};
ghost use Rattle.ifdb_words.specs.Ranges.{IsLoopService};

use crate::file_name::{FileName, named};
use crate::loops::{LoopService, loop_service_of, with_loops};
use crate::options::{bare_command, option, taken};
use clap::ArgMatches;
use std::alloc::{AllocError as OutOfMemory, Global};

/// What `host` is asked for.
#[derive(Drop)]
pub struct Hosting {
    /// The file that the database is in.
    pub file: FileName,
    /// The file whose first line is the key of `admin`.
    pub key_file: FileName,
    /// How it is served.
    pub service: LoopService,
}

/// What the words behind `host` ask for; `None` exactly where they aren't well formed. The only error is want of memory.
#[tactic(auto, using(crate::proofs::HostOptions::free, crate::proofs::HostOptions::host_taken, crate::proofs::HostOptions::host_refused, crate::proofs::InRange::host_in_range))]
pub fn host_in(alloc: Global, words: &[String]) -> Result<Option<Hosting>, OutOfMemory>
    ensures host { IfOk result (λ host. host ≡ host_in (map string_bytes words.now)) }
    ensures ranges { IfOk result (λ host. IfSome host (λ h. IsLoopService h.service)) }
{
    let command = host_command(alloc)?;
    match taken(command, words)? {
        Some(matches) => host_of(alloc, &matches),
        None => Ok(None),
    }
}

/// What the values of the options ask for.
fn host_of(alloc: Global, matches: &ArgMatches) -> Result<Option<Hosting>, OutOfMemory>
    ensures { IfOk result (λ host. host ≡ host_of (first_value (found_of matches.now))) }
{
    let Some(service) = loop_service_of(matches) else {
        return Ok(None);
    };
    let Some(file) = named(alloc, matches, "file")? else {
        return Ok(None);
    };
    let Some(key_file) = named(alloc, matches, "admin-key")? else {
        return Ok(None);
    };
    Ok(Some(Hosting {
        file,
        key_file,
        service,
    }))
}

/// The command as clap knows it.
fn host_command<'a>(alloc: Global) -> Result<clap::Command<'a>, OutOfMemory>
    ensures { IfOk result (λ command. app_of command ≡ host_app) }
{
    let with_file = bare_command(alloc, "host").arg(option(alloc, "file", true))?;
    let with_key = with_file.arg(option(alloc, "admin-key", true))?;
    with_loops(alloc, with_key)
}
