// The words behind `project`.
ghost use Rattle.std.specs.Prelude.{◌≡◌, IfOk, IfSome, map, string_bytes};
ghost use Rattle.clap.specs.Words.{app_of, found_of, first_value};
ghost use Rattle.ifdb_words.specs.Clap.{project_app};
ghost use Rattle.ifdb_words.specs.Project.{project_in, project_of};
ghost use Rattle.ifdb_words.specs.Ranges.{IsLimit};

use crate::level::{Level, level_of};
use crate::limit::limit_of;
use crate::options::{bare_command, option, taken};
use clap::ArgMatches;
use std::alloc::{AllocError as OutOfMemory, Global};

/// What `project` is asked for.
#[derive(Drop)]
pub struct Project {
    /// The level whose lines are written.
    pub level: Level,
    /// How many bytes of the input are taken: from 1 to 2^40.
    pub limit: u64,
}

/// What the words behind `project` ask for; `None` exactly where they aren't well formed. The only error is want of memory.
#[tactic(auto, using(crate::proofs::ProjectOptions::free, crate::proofs::ProjectOptions::project_taken, crate::proofs::ProjectOptions::project_refused, crate::proofs::InRange::project_in_range))]
pub fn project_in(alloc: Global, words: &[String]) -> Result<Option<Project>, OutOfMemory>
    ensures project { IfOk result (λ project. project ≡ project_in (map string_bytes words.now)) }
    ensures range { IfOk result (λ project. IfSome project (λ p. IsLimit p.limit)) }
{
    let command = project_command(alloc)?;
    match taken(command, words)? {
        Some(matches) => project_of(alloc, &matches),
        None => Ok(None),
    }
}

/// What the values of the options ask for.
fn project_of(alloc: Global, matches: &ArgMatches) -> Result<Option<Project>, OutOfMemory>
    ensures { IfOk result
        (λ project. project ≡ project_of (first_value (found_of matches.now))) }
{
    let Some(word) = matches.get_str("tags") else {
        return Ok(None);
    };
    let Some(limit) = limit_of(matches) else {
        return Ok(None);
    };
    match level_of(alloc, word)? {
        Some(level) => Ok(Some(Project { level, limit })),
        None => Ok(None),
    }
}

/// The command as clap knows it.
fn project_command<'a>(alloc: Global) -> Result<clap::Command<'a>, OutOfMemory>
    ensures { IfOk result (λ command. app_of command ≡ project_app) }
{
    let with_tags = bare_command(alloc, "project").arg(option(alloc, "tags", true))?;
    with_tags.arg(option(alloc, "limit", false))
}
