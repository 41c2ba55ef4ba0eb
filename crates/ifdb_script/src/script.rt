// A script, line by line.
ghost use Rattle.std.specs.Prelude.{◌≡◌, ◌≢◌, ◌⊎◌, ◌+◌, ◌≤◌, ◌^◌, [], false, length, Some};
ghost use Rattle.ifdb_io.specs.Causes.{Rose};
ghost use Rattle.ifdb_wire.specs.Script.{asked_by};
ghost use Rattle.ifdb_wire.specs.Text.{reply_text};
ghost use Rattle.ifdb_model.specs.Run.{opening, opens, asks, refused};
ghost use Rattle.ifdb_model.specs.Script.{line_step, line_steps};
ghost use Rattle.ifdb_db.specs.Reading.{read_line};
ghost use Rattle.ifdb_db.specs.Room.{StandsFor};
ghost use Rattle.ifdb_script.specs.Run.{RanWhole, RanFront, RanPast, RanCut};
ghost use Rattle.ifdb_script.specs.Steps.{Does, Stepped};

use ifdb_db::Room;
use ifdb_io::{Failed, LONGEST_LINE, Line, LineFault, LineReader, Sink, Source, write_all};
use ifdb_wire::{Fault, Out, Reply, StepLine, step_line};
use std::alloc::Global;

/// How a script ended.
#[derive(Clone, Copy, Debug, PartialEq, Eq)]
pub enum ScriptEnd {
    /// The input was read to its end, and all replies were written.
    Done,
    /// The input failed.
    ReadFault,
    /// The output failed.
    WriteFault,
    /// There was no memory to begin with.
    OutOfMemory,
    /// The input has more bytes than the limit.
    TooLarge,
}

/// Runs a script over the opening, which has the principal `admin` with the key `admin` and nothing else: each line's step in turn, and
/// its reply. At most `limit` bytes of the input are a script. Faults of the input and the output end it, and so does a byte past the
/// limit; want of memory ends it before the first read alone, and afterwards is the reply to the step that met it.
///
/// Where reading fails, and where the input has more bytes than the limit, each whole line that came before was answered in full.
pub fn run_script<R: Source, W: Sink>(
    alloc: Global,
    input: &mut R,
    output: &mut W,
    limit: u64,
) -> ScriptEnd
    requires { limit ≤ 2 ^ 40 }
    ensures done { result ≡ ScriptEnd.Done
        → RanWhole limit (R.left input.old) (R.left input.new) (W.written output.old)
        (W.written output.new) }

    // A fault, and what was written before it.
    ensures read { result ≡ ScriptEnd.ReadFault → Rose (R.faults input.old) (R.faults input.new) }
    ensures read_front { result ≡ ScriptEnd.ReadFault → RanFront limit
        (R.left input.old) (R.left input.new) (W.written output.old) (W.written output.new) }
    ensures write { result ≡ ScriptEnd.WriteFault
        → Rose (W.faults output.old) (W.faults output.new) }
    ensures write_front { result ≡ ScriptEnd.WriteFault
        → RanCut limit (R.left input.old) (R.left input.new) (W.written output.old)
        (W.written output.new) }
    ensures too_large { result ≡ ScriptEnd.TooLarge → RanPast limit
        (R.left input.old) (R.left input.new) (W.written output.old) (W.written output.new) }

    ensures memory { result ≡ ScriptEnd.OutOfMemory
        → (input.new ≡ input.old) × (output.new ≡ output.old) }
    ensures unfailed { result ≢ ScriptEnd.ReadFault → R.faults input.new ≡ R.faults input.old }
    ensures input_later { R.faults input.old ≤ R.faults input.new }
    ensures output_later { W.faults output.old ≤ W.faults output.new }
{
    let Ok(mut reader) = LineReader::new(alloc, limit) else {
        return ScriptEnd::OutOfMemory;
    };
    let Ok(mut room) = Room::opening(alloc) else {
        return ScriptEnd::OutOfMemory;
    };
    let Ok(mut out) = Out::new(alloc) else {
        return ScriptEnd::OutOfMemory;
    };
    run_lines(&mut reader, &mut room, &mut out, input, output)
}

fn run_lines<R: Source, W: Sink>(
    reader: &mut LineReader,
    room: &mut Room,
    out: &mut Out,
    input: &mut R,
    output: &mut W,
) -> ScriptEnd
    requires fresh { reader.old ≡ record {
      text = [];
      held = [];
      skipping = false;
      taken = 0;
      limit = reader.old.limit;
      over = false;
    } }
    requires opening { StandsFor room.old opening }
    ensures done { result ≡ ScriptEnd.Done → RanWhole reader.old.limit
        (R.left input.old) (R.left input.new) (W.written output.old) (W.written output.new) }
    ensures read { result ≡ ScriptEnd.ReadFault → Rose (R.faults input.old) (R.faults input.new) }
    ensures read_front { result ≡ ScriptEnd.ReadFault → RanFront reader.old.limit
        (R.left input.old) (R.left input.new) (W.written output.old) (W.written output.new) }
    ensures write { result ≡ ScriptEnd.WriteFault
        → Rose (W.faults output.old) (W.faults output.new) }
    ensures write_front { result ≡ ScriptEnd.WriteFault → RanCut reader.old.limit
        (R.left input.old) (R.left input.new) (W.written output.old) (W.written output.new) }
    ensures too_large { result ≡ ScriptEnd.TooLarge → RanPast reader.old.limit
        (R.left input.old) (R.left input.new) (W.written output.old) (W.written output.new) }
    ensures memory { result ≡ ScriptEnd.OutOfMemory → ⊥ }
    ensures unfailed { result ≢ ScriptEnd.ReadFault → R.faults input.new ≡ R.faults input.old }
    ensures input_later { R.faults input.old ≤ R.faults input.new }
    ensures output_later { W.faults output.old ≤ W.faults output.new }
{
    'lines: loop {
        match reader.next(input) {
            Err(LineFault::Read) => return ScriptEnd::ReadFault,
            Err(LineFault::TooMuch) => return ScriptEnd::TooLarge,
            Ok(Line::End) => return ScriptEnd::Done,
            Ok(Line::Rest) => {
                step(room, reader.text(), out);
                if let Err(Failed) = write_all(output, out.bytes()) {
                    return ScriptEnd::WriteFault;
                }
                return ScriptEnd::Done;
            }
            Ok(Line::Whole) => {
                step(room, reader.text(), out);
                if let Err(Failed) = write_all(output, out.bytes()) {
                    return ScriptEnd::WriteFault;
                }
            }
            Ok(Line::TooLong) => {
                refuse(out, 0, Fault::TooLong);
                if let Err(Failed) = write_all(output, out.bytes()) {
                    return ScriptEnd::WriteFault;
                }
            }
        }
    }
}

// Does the step of a line, and puts what is to be written for it.
fn step(room: &mut Room, line: &[u8], out: &mut Out)
    requires { length line.now ≤ LONGEST_LINE }
    ensures { Stepped read_line room.old room.new (line_steps line.now) out.new.text }
{
    do_step(room, step_line(line), out);
}

fn do_step(room: &mut Room, line: StepLine<'_>, out: &mut Out)
    ensures { Stepped read_line room.old room.new (line_step (asked_by line.entry)) out.new.text }
{
    match line {
        StepLine::Skip => out.clear(),
        StepLine::Open => open(room, out),
        StepLine::Ask(number, request) => ask(room, number, request, out),
        // Lines of no session are answered to session 0.
        StepLine::Stray => refuse(out, 0, Fault::Syntax(0)),
    }
}

fn open(room: &mut Room, out: &mut Out)
    ensures { Does read_line room.old room.new opens out.new.text
        ⊎ Does read_line room.old room.new (refused 0) out.new.text }
{
    match room.sessions().checked_add(1) {
        // No memory holds so many sessions.
        None => refuse(out, 0, Fault::OutOfMemory),
        Some(number) => {
            room.open(number, out);
        }
    }
}

fn ask(room: &mut Room, number: u64, request: &[u8], out: &mut Out)
    ensures { Does read_line room.old room.new (asks number request.now) out.new.text
        ⊎ Does read_line room.old room.new (refused number) out.new.text }
{
    room.ask(number, Some(number), request, out);
}

// Puts a refusal for a session, or for none, which is 0.
fn refuse(out: &mut Out, session: u64, fault: Fault)
    ensures { out.new.text ≡ reply_text (Some session) (Reply.Refused fault) }
{
    out.speak_for(Some(session));
    out.put(&Reply::Refused(fault));
}
