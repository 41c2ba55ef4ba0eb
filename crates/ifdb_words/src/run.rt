// The words behind `run`.
ghost use Rattle.std.specs.Prelude.{◌≡◌, IfOk, map, string_bytes};
ghost use Rattle.ifdb_words.specs.Run.{run_in};

use crate::command::Command;
use crate::limit::limit_in;
use std::alloc::{AllocError as OutOfMemory, Global};

/// What the words behind `run` ask for; `None` exactly where they aren't well formed. The only error is want of memory.
pub fn run_in(alloc: Global, words: &[String]) -> Result<Option<Command>, OutOfMemory>
    ensures { IfOk result (λ command. command ≡ run_in (map string_bytes words.now)) }
{
    match limit_in(alloc, words)? {
        Some(limit) => Ok(Some(Command::Run { limit })),
        None => Ok(None),
    }
}
