// The words of `closures`.
ghost use Rattle.std.specs.Prelude.{◌≡◌, ◌^◌, ◌≤◌, map, string_bytes};
ghost use Rattle.ifdb_top.specs.Closures.{DoesClosures, RunsClosures};

use crate::base::{Status, write_usage};
use crate::more::MoreStatus;
use ifdb_closure::{ClosureEnd, closure_script};
use ifdb_io::{Sink, Source};
use ifdb_words::limit_in;
use std::alloc::Global;

const USAGE: &str = "usage: ifdb closures [--limit N]\n";

/// Does what the words behind `closures` say: runs the script at the input, in which closures may be stored and called.
pub fn closures<R: Source, W: Sink>(
    alloc: Global,
    words: &[String],
    input: &mut R,
    output: &mut W,
) -> MoreStatus
    ensures done { DoesClosures R.Source W.Sink (map string_bytes words.now)
        input.old input.new output.old output.new result }
    ensures input_later { R.faults input.old ≤ R.faults input.new }
    ensures output_later { W.faults output.old ≤ W.faults output.new }
{
    match limit_in(alloc, words) {
        Ok(Some(limit)) => run(alloc, input, output, limit),
        Ok(None) => MoreStatus::Base(write_usage(output, USAGE)),
        Err(_) => MoreStatus::Base(Status::OutOfMemory),
    }
}

/// Runs a script of at most so many bytes.
fn run<R: Source, W: Sink>(alloc: Global, input: &mut R, output: &mut W, limit: u64) -> MoreStatus
    requires { limit ≤ 2 ^ 40 }
    ensures ran { RunsClosures R.Source W.Sink limit
        input.old input.new output.old output.new result }
    ensures input_later { R.faults input.old ≤ R.faults input.new }
    ensures output_later { W.faults output.old ≤ W.faults output.new }
{
    match closure_script(alloc, input, output, limit) {
        ClosureEnd::Done => MoreStatus::Base(Status::Done),
        ClosureEnd::ReadFault => MoreStatus::Base(Status::ReadFault),
        ClosureEnd::WriteFault => MoreStatus::Base(Status::WriteFault),
        ClosureEnd::OutOfMemory => MoreStatus::Base(Status::OutOfMemory),
        ClosureEnd::TooLarge => MoreStatus::Base(Status::TooLarge),
    }
}
