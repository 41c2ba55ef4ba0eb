// A script with closures, line by line.
ghost use Rattle.std.specs.Prelude.{◌≡◌, ◌≢◌, ◌≤◌, ◌^◌, [], false};
ghost use Rattle.ifdb_io.specs.Causes.{Rose};
ghost use Rattle.ifdb_closure.specs.Closures.{start};
ghost use Rattle.ifdb_closure.specs.Ran.{IsFramedRun, IsToldByBytes, KeepsLevels, RanCut, RanFront, RanPast, RanWhole};
ghost use Rattle.ifdb_closure.specs.Standing.{IsFor};

use crate::stage::Stage;
use ifdb_io::{Failed, Line, LineFault, LineReader, Sink, Source, write_all};
use ifdb_laws::memory_is_never_told;
use ifdb_wire::Out;
use std::alloc::Global;

/// How a script with closures ended.
#[derive(Clone, Copy, Debug, PartialEq, Eq)]
pub enum ClosureEnd {
    /// The input was read to its end, and all replies were written.
    Done,
    /// The input failed.
    ReadFault,
    /// The output failed.
    WriteFault,
    /// There was no memory to begin with.
    OutOfMemory,
    /// The input has more bytes than the limit.
    TooLarge,
}

/// Runs a script over the opening as `run_script` does, with two requests more: CREATE CLOSURE stores statements with the authority of
/// who defines them, and CALL runs them in a session of their own at the caller's label, in one transaction. At most `limit` bytes
/// of the input are a script.
///
/// Faults of the input and the output end it, and so does a byte past the limit; want of memory ends it before the first read
/// alone, and afterwards is the reply to the step that met it. Where reading fails, and where the input has more bytes than the
/// limit, each whole line that came before was answered in full.
pub fn closure_script<R: Source, W: Sink>(
    alloc: Global,
    input: &mut R,
    output: &mut W,
    limit: u64,
) -> ClosureEnd
    requires { limit ≤ 2 ^ 40 }
    ensures done { result ≡ ClosureEnd.Done
        → RanWhole limit (R.left input.old) (R.left input.new) (W.written output.old)
        (W.written output.new) }
    ensures told_by_bytes { result ≡ ClosureEnd.Done
        → IsToldByBytes limit (R.left input.old) (R.left input.new) (W.written output.old)
        (W.written output.new) }
    ensures framed { result ≡ ClosureEnd.Done
        → IsFramedRun limit (R.left input.old) (R.left input.new) (W.written output.old)
        (W.written output.new) }
    ensures worlds { result ≡ ClosureEnd.Done
        → KeepsLevels limit (R.left input.old) (R.left input.new) (W.written output.old)
        (W.written output.new) }

    // A fault, and what was written before it.
    ensures read { result ≡ ClosureEnd.ReadFault
        → Rose (R.faults input.old) (R.faults input.new) }
    ensures read_front { result ≡ ClosureEnd.ReadFault → RanFront limit
        (R.left input.old) (R.left input.new) (W.written output.old) (W.written output.new) }
    ensures write { result ≡ ClosureEnd.WriteFault
        → Rose (W.faults output.old) (W.faults output.new) }
    ensures write_front { result ≡ ClosureEnd.WriteFault
        → RanCut limit (R.left input.old) (R.left input.new) (W.written output.old)
        (W.written output.new) }
    ensures too_large { result ≡ ClosureEnd.TooLarge → RanPast limit
        (R.left input.old) (R.left input.new) (W.written output.old) (W.written output.new) }

    ensures memory { result ≡ ClosureEnd.OutOfMemory
        → (input.new ≡ input.old) × (output.new ≡ output.old) }
    ensures unfailed { result ≢ ClosureEnd.ReadFault → R.faults input.new ≡ R.faults input.old }
    ensures input_later { R.faults input.old ≤ R.faults input.new }
    ensures output_later { W.faults output.old ≤ W.faults output.new }
{
    memory_is_never_told();
    let Ok(mut reader) = LineReader::new(alloc, limit) else {
        return ClosureEnd::OutOfMemory;
    };
    let Ok(mut stage) = Stage::opening(alloc) else {
        return ClosureEnd::OutOfMemory;
    };
    let Ok(mut out) = Out::new(alloc) else {
        return ClosureEnd::OutOfMemory;
    };
    run_lines(&mut reader, &mut stage, &mut out, input, output)
}

fn run_lines<R: Source, W: Sink>(
    reader: &mut LineReader,
    stage: &mut Stage,
    out: &mut Out,
    input: &mut R,
    output: &mut W,
) -> ClosureEnd
    requires fresh { reader.old ≡ record {
      text = [];
      held = [];
      skipping = false;
      taken = 0;
      limit = reader.old.limit;
      over = false;
    } }
    requires opening { IsFor stage.old start }
    ensures done { result ≡ ClosureEnd.Done → RanWhole reader.old.limit
        (R.left input.old) (R.left input.new) (W.written output.old) (W.written output.new) }
    ensures read { result ≡ ClosureEnd.ReadFault
        → Rose (R.faults input.old) (R.faults input.new) }
    ensures read_front { result ≡ ClosureEnd.ReadFault → RanFront reader.old.limit
        (R.left input.old) (R.left input.new) (W.written output.old) (W.written output.new) }
    ensures write { result ≡ ClosureEnd.WriteFault
        → Rose (W.faults output.old) (W.faults output.new) }
    ensures write_front { result ≡ ClosureEnd.WriteFault → RanCut reader.old.limit
        (R.left input.old) (R.left input.new) (W.written output.old) (W.written output.new) }
    ensures too_large { result ≡ ClosureEnd.TooLarge → RanPast reader.old.limit
        (R.left input.old) (R.left input.new) (W.written output.old) (W.written output.new) }
    ensures memory { result ≡ ClosureEnd.OutOfMemory → ⊥ }
    ensures unfailed { result ≢ ClosureEnd.ReadFault → R.faults input.new ≡ R.faults input.old }
    ensures input_later { R.faults input.old ≤ R.faults input.new }
    ensures output_later { W.faults output.old ≤ W.faults output.new }
{
    'lines: loop {
        match reader.next(input) {
            Err(LineFault::Read) => return ClosureEnd::ReadFault,
            Err(LineFault::TooMuch) => return ClosureEnd::TooLarge,
            Ok(Line::End) => return ClosureEnd::Done,
            Ok(Line::Rest) => {
                stage.take(reader.text(), out);
                if let Err(Failed) = write_all(output, out.bytes()) {
                    return ClosureEnd::WriteFault;
                }
                return ClosureEnd::Done;
            }
            Ok(Line::Whole) => {
                stage.take(reader.text(), out);
                if let Err(Failed) = write_all(output, out.bytes()) {
                    return ClosureEnd::WriteFault;
                }
            }
            Ok(Line::TooLong) => {
                stage.refuse_long(out);
                if let Err(Failed) = write_all(output, out.bytes()) {
                    return ClosureEnd::WriteFault;
                }
            }
        }
    }
}
