// The words behind a command whose one option is `--limit`.
ghost use Rattle.std.specs.Prelude.{◌≡◌, IfOk, IfSome, map, string_bytes};
ghost use Rattle.clap.specs.Words.{app_of, found_of, first_value};
ghost use Rattle.ifdb_words.specs.Clap.{limit_app};
ghost use Rattle.ifdb_words.specs.Limit.{limit_in, limit_of};
ghost use Rattle.ifdb_words.specs.Ranges.{IsLimit};

use crate::numbers::number_or;
use crate::options::{bare_command, option, taken};
use clap::ArgMatches;
use std::alloc::{AllocError as OutOfMemory, Global};

/// The most bytes that a limit may be.
const MOST_LIMIT: u64 = 1 << 40;

/// How many bytes are taken where the words don't say it.
const DEFAULT_LIMIT: u64 = 1 << 30;

/// How many bytes are taken, from 1 to 2^40, by words behind a command whose one option is `--limit`; `None` exactly where they
/// aren't well formed. The only error is want of memory.
#[tactic(auto, using(crate::proofs::LimitOptions::free, crate::proofs::LimitOptions::limit_taken, crate::proofs::LimitOptions::limit_refused, crate::proofs::InRange::limit_in_range))]
pub fn limit_in(alloc: Global, words: &[String]) -> Result<Option<u64>, OutOfMemory>
    ensures limit { IfOk result (λ limit. limit ≡ limit_in (map string_bytes words.now)) }
    ensures range { IfOk result (λ limit. IfSome limit IsLimit) }
{
    let command = limit_command(alloc)?;
    match taken(command, words)? {
        Some(matches) => Ok(limit_of(&matches)),
        None => Ok(None),
    }
}

/// How many bytes are taken, by the option `--limit`; `None` where its value is no number from 1 to 2^40.
pub fn limit_of(matches: &ArgMatches) -> Option<u64>
    ensures { result ≡ limit_of (first_value (found_of matches.now)) }
{
    number_or(DEFAULT_LIMIT, MOST_LIMIT, matches.get_str("limit"))
}

/// The command as clap knows it.
fn limit_command<'a>(alloc: Global) -> Result<clap::Command<'a>, OutOfMemory>
    ensures { IfOk result (λ command. app_of command ≡ limit_app) }
{
    bare_command(alloc, "limit").arg(option(alloc, "limit", false))
}
