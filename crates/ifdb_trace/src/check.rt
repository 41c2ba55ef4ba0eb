// The check of a trace.
ghost use Rattle.std.specs.Prelude.{◌≡◌, ◌≢◌, ◌+◌, ◌<◌, ◌≤◌, ◌^◌, [], false, ℕ, List};
ghost use Rattle.ifdb_io.specs.Causes.{Rose};
ghost use Rattle.ifdb_trace.specs.Checked.{CheckedWhole, CheckedWrong, CheckedPast};
ghost use Rattle.ifdb_trace.specs.Checking.{Due, first_dues};
ghost use Rattle.ifdb_trace.specs.Stages.{IsAt, IsEndOf};

use crate::checker::{Checker, Stop};
use ifdb_io::{Line, LineFault, LineReader, Source};
use std::alloc::Global;

/// How the check of a trace ended.
#[derive(Clone, Copy, Debug, PartialEq, Eq)]
pub enum TraceEnd {
    /// The trace was read to its end, and is accepted.
    Accepted,
    /// The number of the first wrong line, from 1: no accepted trace begins with the lines up to it. Where the trace ends
    /// before a reply does, it is one more than its last line's.
    Refused(u64),
    /// The input failed.
    ReadFault,
    /// There was no memory, to begin with or for a step.
    OutOfMemory,
    /// The input has more bytes than the limit. The lines that ended before it have no fault, and no line before it is too long.
    TooLarge,
}

/// Whether a trace is accepted: script lines behind `> `, each with the lines of its reply behind `< `, which are those that
/// the server gives after the steps before; or those of error 20, and the step is then as if it hadn't been asked. At most
/// `limit` bytes of the input are a trace.
///
/// The memory that it takes is the server's, and doesn't depend on the trace's length.
pub fn check_trace<R: Source>(alloc: Global, input: &mut R, limit: u64) -> TraceEnd
    requires { limit ≤ 2 ^ 40 }
    ensures accepted { result ≡ TraceEnd.Accepted
        → CheckedWhole limit (R.left input.old) (R.left input.new) }
    ensures refused { (k : ℕ) → result ≡ TraceEnd.Refused k
        → CheckedWrong limit (R.left input.old) (R.left input.new) k }
    ensures read { result ≡ TraceEnd.ReadFault → Rose (R.faults input.old) (R.faults input.new) }
    ensures too_large { result ≡ TraceEnd.TooLarge
        → CheckedPast limit (R.left input.old) (R.left input.new) }
    ensures unfailed { result ≢ TraceEnd.ReadFault → R.faults input.new ≡ R.faults input.old }
    ensures later { R.faults input.old ≤ R.faults input.new }
{
    let Ok(mut reader) = LineReader::new(alloc, limit) else {
        return TraceEnd::OutOfMemory;
    };
    let Ok(mut checker) = Checker::new(alloc) else {
        return TraceEnd::OutOfMemory;
    };
    check_lines(&mut reader, &mut checker, input)
}

fn check_lines<R: Source>(reader: &mut LineReader, checker: &mut Checker, input: &mut R) -> TraceEnd
    requires limit { reader.old.limit ≤ 2 ^ 40 }
    requires fresh { reader.old ≡ record {
      text = [];
      held = [];
      skipping = false;
      taken = 0;
      limit = reader.old.limit;
      over = false;
    } }
    requires first { IsAt checker.old first_dues }
    ensures accepted { result ≡ TraceEnd.Accepted
        → CheckedWhole reader.old.limit (R.left input.old) (R.left input.new) }
    ensures refused { (k : ℕ) → result ≡ TraceEnd.Refused k
        → CheckedWrong reader.old.limit (R.left input.old) (R.left input.new) k }
    ensures read { result ≡ TraceEnd.ReadFault → Rose (R.faults input.old) (R.faults input.new) }
    ensures too_large { result ≡ TraceEnd.TooLarge
        → CheckedPast reader.old.limit (R.left input.old) (R.left input.new) }
    ensures unfailed { result ≢ TraceEnd.ReadFault → R.faults input.new ≡ R.faults input.old }
    ensures later { R.faults input.old ≤ R.faults input.new }
{
    let mut count = 0;
    'lines: loop {
        match reader.next(input) {
            Err(LineFault::Read) => return TraceEnd::ReadFault,
            Err(LineFault::TooMuch) => return TraceEnd::TooLarge,
            Ok(Line::TooLong) => return TraceEnd::Refused(count + 1),
            Ok(Line::End) => return end_after(checker, count),
            Ok(Line::Rest) => {
                return match checker.take(reader.text()) {
                    Ok(()) => end_after(checker, count + 1),
                    Err(Stop::Wrong) => TraceEnd::Refused(count + 1),
                    Err(Stop::OutOfMemory) => TraceEnd::OutOfMemory,
                };
            }
            Ok(Line::Whole) => match checker.take(reader.text()) {
                Ok(()) => count += 1,
                Err(Stop::Wrong) => return TraceEnd::Refused(count + 1),
                Err(Stop::OutOfMemory) => return TraceEnd::OutOfMemory,
            },
        }
    }
}

/// The end of a trace of so many lines, none of which is wrong.
fn end_after(checker: &Checker, count: u64) -> TraceEnd
    requires { count + 1 < 2 ^ 64 }
    ensures { (all : List Due) → IsAt checker.now all → IsEndOf result count all }
{
    if checker.may_end() {
        return TraceEnd::Accepted;
    }
    TraceEnd::Refused(count + 1)
}
