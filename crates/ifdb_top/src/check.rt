// The words of `check`.
ghost use Rattle.std.specs.Prelude.{◌≡◌, ◌≢◌, ◌^◌, ◌≤◌, map, string_bytes};
ghost use Rattle.ifdb_top.specs.Check.{ChecksTrace, DoesCheck};

use crate::base::{Status, write_usage};
use crate::more::MoreStatus;
use ifdb_io::{Failed, Sink, Source, write_all};
use ifdb_service::write_numbered;
use ifdb_trace::{TraceEnd, check_trace};
use ifdb_words::limit_in;
use std::alloc::Global;

const USAGE: &str = "usage: ifdb check [--limit N]\n";

/// Does what the words behind `check` say: judges the trace at the input, and writes what was found.
pub fn check<R: Source, W: Sink>(
    alloc: Global,
    words: &[String],
    input: &mut R,
    output: &mut W,
) -> MoreStatus
    ensures done { DoesCheck R.Source W.Sink (map string_bytes words.now)
        input.old input.new output.old output.new result }
    ensures input_later { R.faults input.old ≤ R.faults input.new }
    ensures output_later { W.faults output.old ≤ W.faults output.new }
{
    match limit_in(alloc, words) {
        Ok(Some(limit)) => judge(alloc, input, output, limit),
        Ok(None) => MoreStatus::Base(write_usage(output, USAGE)),
        Err(_) => MoreStatus::Base(Status::OutOfMemory),
    }
}

/// Judges a trace of at most so many bytes, and writes what was found.
fn judge<R: Source, W: Sink>(alloc: Global, input: &mut R, output: &mut W, limit: u64) -> MoreStatus
    requires { limit ≤ 2 ^ 40 }
    ensures judged { ChecksTrace R.Source W.Sink limit
        input.old input.new output.old output.new result }
    ensures input_later { R.faults input.old ≤ R.faults input.new }
    ensures output_later { W.faults output.old ≤ W.faults output.new }
{
    match check_trace(alloc, input, limit) {
        TraceEnd::Accepted => match write_all(output, b"ACCEPTED\n") {
            Ok(()) => MoreStatus::Base(Status::Done),
            Err(Failed) => MoreStatus::Base(Status::WriteFault),
        },
        TraceEnd::Refused(line) => match write_numbered(output, b"REFUSED", line) {
            Ok(()) => MoreStatus::TraceRefused,
            Err(Failed) => MoreStatus::Base(Status::WriteFault),
        },
        TraceEnd::ReadFault => MoreStatus::Base(Status::ReadFault),
        TraceEnd::OutOfMemory => MoreStatus::Base(Status::OutOfMemory),
        TraceEnd::TooLarge => MoreStatus::Base(Status::TooLarge),
    }
}
