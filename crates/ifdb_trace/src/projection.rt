// A script's projection to a level.
ghost use Rattle.std.specs.Prelude.{◌≡◌, ◌≢◌, ◌+◌, ◌≤◌, ◌^◌, ◌++◌, ◌∷◌, [], false, IfOk, OnOk, OnErr, length};
ghost use Rattle.std.specs.Io.KnownBytes.{Appends};
ghost use Rattle.ifdb_io.specs.Causes.{HasCause, Rose, WritesShort};
ghost use Rattle.ifdb_wire.specs.Script.{asked_by};
ghost use Rattle.ifdb_model.specs.Run.{asks, opening};
ghost use Rattle.ifdb_model.specs.Script.{line_step, line_steps};
ghost use Rattle.ifdb_db.specs.Room.{StandsFor};
ghost use Rattle.ifdb_trace.specs.Projected.{IsCut, IsProjected, IsStepped, ProjectedCut, ProjectedFront, ProjectedPast, ProjectedWhole};
ghost use Rattle.ifdb_trace.specs.Projection.{overlong_line};

use crate::level::is_inside;
use ifdb_db::{OutOfMemory, Room};
use ifdb_io::{Failed, LONGEST_LINE, Line, LineFault, LineReader, Sink, Source, write_all};
use ifdb_label::Tag;
use ifdb_wire::{StepLine, step_line};
use std::alloc::{AllocError, Global};

// A line that is a byte too long, of letters x.
static OVERLONG: [u8; LONGEST_LINE + 1] = [b'x'; LONGEST_LINE + 1];

/// How a projection ended.
#[derive(Clone, Copy, Debug, PartialEq, Eq)]
pub enum ProjectEnd {
    /// The input was read to its end, and its projection was written.
    Done,
    /// The input failed.
    ReadFault,
    /// The output failed.
    WriteFault,
    /// There was no memory, to begin with or for a step.
    OutOfMemory,
    /// The input has more bytes than the limit.
    TooLarge,
}

/// Why a line isn't written.
#[derive(Clone, Copy, Debug, PartialEq, Eq)]
enum Stop {
    /// The output failed.
    Write,
    /// There was no memory for the line's step.
    OutOfMemory,
}

impl From<Failed> for Stop {
    ghost use Rattle.std.specs.Prelude.{◌≡◌};
    ghost use Rattle.ifdb_trace.specs.declared.projection.Stop.{Stop};

    ghost from_gives = { λ _ stop. stop ≡ Stop.Write };

    fn from(_: Failed) -> Self {
        Stop::Write
    }
}

impl From<AllocError> for Stop {
    ghost use Rattle.std.specs.Prelude.{◌≡◌};
    ghost use Rattle.ifdb_trace.specs.declared.projection.Stop.{Stop};

    ghost from_gives = { λ _ stop. stop ≡ Stop.OutOfMemory };

    fn from(_: AllocError) -> Self {
        Stop::OutOfMemory
    }
}

/// Writes the lines of a script whose steps are asked inside a level, as they were read, over a run of the whole script.
/// In place of a line that is too long it writes 65,536 letters x. At most `limit` bytes of the input are a script. The
/// level is any list of tags: one that isn't made yet is above no other.
pub fn project<R: Source, W: Sink>(
    alloc: Global,
    input: &mut R,
    output: &mut W,
    level: &[Tag],
    limit: u64,
) -> ProjectEnd
    requires { limit ≤ 2 ^ 40 }
    ensures done { result ≡ ProjectEnd.Done
        → ProjectedWhole limit level.now (R.left input.old) (R.left input.new)
        (W.written output.old) (W.written output.new) }

    // A fault, and what was written before it.
    ensures read { result ≡ ProjectEnd.ReadFault → Rose (R.faults input.old) (R.faults input.new) }
    ensures read_front { result ≡ ProjectEnd.ReadFault
        → ProjectedFront (λ n. n ≤ limit) level.now [] (R.left input.old) (R.left input.new)
        (W.written output.old) (W.written output.new) }
    ensures write { result ≡ ProjectEnd.WriteFault
        → Rose (W.faults output.old) (W.faults output.new) }
    ensures write_front { result ≡ ProjectEnd.WriteFault
        → ProjectedCut limit level.now (R.left input.old) (R.left input.new)
        (W.written output.old) (W.written output.new) }
    ensures too_large { result ≡ ProjectEnd.TooLarge
        → ProjectedPast limit level.now (R.left input.old) (R.left input.new)
        (W.written output.old) (W.written output.new) }
    ensures memory_front { result ≡ ProjectEnd.OutOfMemory
        → ProjectedCut limit level.now (R.left input.old) (R.left input.new)
        (W.written output.old) (W.written output.new) }
    ensures unfailed { result ≢ ProjectEnd.ReadFault → R.faults input.new ≡ R.faults input.old }
    ensures input_later { R.faults input.old ≤ R.faults input.new }
    ensures output_later { W.faults output.old ≤ W.faults output.new }
{
    let Ok(mut reader) = LineReader::new(alloc, limit) else {
        return ProjectEnd::OutOfMemory;
    };
    let Ok(mut room) = Room::opening(alloc) else {
        return ProjectEnd::OutOfMemory;
    };
    project_lines(&mut reader, &mut room, level, input, output)
}

fn project_lines<R: Source, W: Sink>(
    reader: &mut LineReader,
    room: &mut Room,
    level: &[Tag],
    input: &mut R,
    output: &mut W,
) -> ProjectEnd
    requires fresh { reader.old ≡ record {
      text = [];
      held = [];
      skipping = false;
      taken = 0;
      limit = reader.old.limit;
      over = false;
    } }
    requires opening { StandsFor room.old opening }
    ensures done { result ≡ ProjectEnd.Done
        → ProjectedWhole reader.old.limit level.now (R.left input.old) (R.left input.new)
        (W.written output.old) (W.written output.new) }
    ensures read { result ≡ ProjectEnd.ReadFault → Rose (R.faults input.old) (R.faults input.new) }
    ensures read_front { result ≡ ProjectEnd.ReadFault
        → ProjectedFront (λ n. n ≤ reader.old.limit) level.now [] (R.left input.old)
        (R.left input.new) (W.written output.old) (W.written output.new) }
    ensures write { result ≡ ProjectEnd.WriteFault
        → Rose (W.faults output.old) (W.faults output.new) }
    ensures write_front { result ≡ ProjectEnd.WriteFault
        → ProjectedCut reader.old.limit level.now (R.left input.old) (R.left input.new)
        (W.written output.old) (W.written output.new) }
    ensures too_large { result ≡ ProjectEnd.TooLarge
        → ProjectedPast reader.old.limit level.now (R.left input.old) (R.left input.new)
        (W.written output.old) (W.written output.new) }
    ensures memory_front { result ≡ ProjectEnd.OutOfMemory
        → ProjectedCut reader.old.limit level.now (R.left input.old) (R.left input.new)
        (W.written output.old) (W.written output.new) }
    ensures unfailed { result ≢ ProjectEnd.ReadFault → R.faults input.new ≡ R.faults input.old }
    ensures input_later { R.faults input.old ≤ R.faults input.new }
    ensures output_later { W.faults output.old ≤ W.faults output.new }
{
    'lines: loop {
        match reader.next(input) {
            Err(LineFault::Read) => return ProjectEnd::ReadFault,
            Err(LineFault::TooMuch) => return ProjectEnd::TooLarge,
            Ok(Line::End) => return ProjectEnd::Done,
            Ok(Line::Rest) => {
                return match project_line(room, reader.text(), level, output) {
                    Ok(()) => ProjectEnd::Done,
                    Err(Stop::Write) => ProjectEnd::WriteFault,
                    Err(Stop::OutOfMemory) => ProjectEnd::OutOfMemory,
                };
            }
            Ok(Line::Whole) => match project_line(room, reader.text(), level, output) {
                Ok(()) => {}
                Err(Stop::Write) => return ProjectEnd::WriteFault,
                Err(Stop::OutOfMemory) => return ProjectEnd::OutOfMemory,
            },
            Ok(Line::TooLong) => {
                if let Err(Failed) = write_line(output, overlong()) {
                    return ProjectEnd::WriteFault;
                }
            }
        }
    }
}

/// Does the step of a line, and writes the line if it was asked inside.
fn project_line<W: Sink>(
    room: &mut Room,
    line: &[u8],
    level: &[Tag],
    output: &mut W,
) -> Result<(), Stop>
    requires { length line.now ≤ LONGEST_LINE }
    ensures shown { OnOk result (IsProjected level.now room.old room.new line.now
        (W.written output.old) (W.written output.new)) }
    ensures write { result ≡ Err Stop.Write → Rose (W.faults output.old) (W.faults output.new) }
    ensures write_cut { result ≡ Err Stop.Write → IsCut level.now room.old line.now
        (W.written output.old) (W.written output.new) }
    ensures memory { result ≡ Err Stop.OutOfMemory → output.new ≡ output.old }
    ensures later { W.faults output.old ≤ W.faults output.new }
{
    if take_step(room, step_line(line), level)? {
        write_line(output, line)?;
    }
    Ok(())
}

/// Does the step of a line, and says whether it was asked inside.
fn take_step(room: &mut Room, line: StepLine<'_>, level: &[Tag]) -> Result<bool, OutOfMemory>
    ensures { IfOk result
        (IsStepped level.now room.old room.new (line_step (asked_by line.entry))) }
{
    match line {
        StepLine::Skip => Ok(false),
        StepLine::Open => {
            room.open_next()?;
            Ok(true)
        }
        StepLine::Ask(session, request) => ask(room, session, request, level),
        StepLine::Stray => Ok(true),
    }
}

/// Asks a session's request, and says whether the session was inside before it.
fn ask(room: &mut Room, session: u64, request: &[u8], level: &[Tag]) -> Result<bool, OutOfMemory>
    ensures { IfOk result
        (IsStepped level.now room.old room.new (asks session request.now ∷ [])) }
{
    let inside = is_inside(room, session, level);
    room.reply(session, request)?;
    Ok(inside)
}

/// What stands for a line that is too long.
fn overlong() -> &'static [u8]
    ensures { result.now ≡ overlong_line }
{
    &OVERLONG
}

/// Writes a line and a newline.
fn write_line<W: Sink>(output: &mut W, line: &[u8]) -> Result<(), Failed>
    ensures ok { OnOk result
        (Appends (W.written output.old) (W.written output.new) (line.now ++ 10 ∷ [])) }
    ensures err { OnErr result
        (WritesShort (W.written output.old) (W.written output.new) (line.now ++ 10 ∷ [])) }
    ensures cause { HasCause (W.faults output.old) (W.faults output.new) result }
{
    write_all(output, line)?;
    write_all(output, b"\n")
}
