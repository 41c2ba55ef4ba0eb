// What the words of the command line ask for.
ghost use Rattle.std.specs.Prelude.{◌≡◌, IfOk};
ghost use Rattle.ifdb_words.specs.Ranges.{IsWithin};
ghost use Rattle.ifdb_words.specs.Words.{command_of};

use crate::generate::generation_in;
use crate::run::run_in;
use crate::serve::serve_in;
use crate::service::Service;
use ifdb_generate::Size;
use std::alloc::{AllocError as OutOfMemory, Global};

/// What the words ask for.
#[derive(Clone, Copy)]
pub enum Command {
    /// The input is run as a script.
    Run {
        /// How many bytes of the input are taken: from 1 to 2^40.
        limit: u64,
    },
    /// Connections are served.
    Serve(Service),
    /// A text is written.
    Write(Text),
}

/// A text of the generator.
#[derive(Clone, Copy)]
pub enum Text {
    /// The generator's script with so many INSERTs.
    Script(Size),
    /// What the run of that script counts.
    Counts(Size),
}

/// What the words ask for; `None` exactly where they aren't well formed. The words lack the program's name. The only error is want of
/// memory, which `run` and `serve` take.
#[tactic(auto, using(crate::proofs::InRange::in_range))]
pub fn command_of(alloc: Global, words: &[String]) -> Result<Option<Command>, OutOfMemory>
    ensures command { IfOk result (λ command. command ≡ command_of words.now) }
    ensures ranges { IfOk result IsWithin }
{
    match words {
        [word, rest @ ..] if word.as_str() == "run" => run_in(alloc, rest),
        [word, rest @ ..] if word.as_str() == "serve" => serve_in(alloc, rest),
        [word, rest @ ..] if word.as_str() == "generate" => Ok(generation_in(rest)),
        _ => Ok(None),
    }
}
