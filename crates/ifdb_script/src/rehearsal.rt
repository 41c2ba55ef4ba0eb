// The generator's script, run to be counted.
ghost use Rattle.std.specs.Prelude.{◌≡◌, ◌∷◌, [], IfOk};
ghost use Rattle.ifdb_generate.specs.Script.{script};
ghost use Rattle.ifdb_wire.specs.Script.{asked_by};
ghost use Rattle.ifdb_model.specs.Run.{asks, opening, opens};
ghost use Rattle.ifdb_model.specs.Script.{line_step, line_steps};
ghost use Rattle.ifdb_db.specs.Room.{StandsFor};
ghost use Rattle.ifdb_script.specs.Rehearsal.{rehearsed};
ghost use Rattle.ifdb_script.specs.Rehearsing.{IsTaken};

use crate::first_line::first_line;
use crate::rehearsed::Rehearsed;
use ifdb_db::{OutOfMemory, Room};
use ifdb_generate::{Size, generated};
use ifdb_io::LONGEST_LINE;
use ifdb_wire::{Fault, Reply, StepLine, step_line};
use std::alloc::Global;

/// Runs the generator's script with so many INSERTs over the opening, and counts what comes of it. `OutOfMemory` where there was
/// no memory for the script or for one of its steps.
pub fn rehearse(alloc: Global, size: Size) -> Result<Rehearsed, OutOfMemory>
    ensures { IfOk result (λ found. found ≡ rehearsed (script size)) }
{
    let script = generated(alloc, size)?;
    let mut room = Room::opening(alloc)?;
    rehearse_lines(&mut room, &script)
}

/// Runs the lines of a script, and counts.
fn rehearse_lines(room: &mut Room, script: &[u8]) -> Result<Rehearsed, OutOfMemory>
    requires { StandsFor room.old opening }
    ensures { IfOk result (λ found. found ≡ rehearsed script.now) }
{
    let mut counts = Rehearsed::none();
    let mut rest = script;
    'lines: while !rest.is_empty() {
        let (line, behind) = first_line(rest);
        counts.count(take_line(room, line)?);
        rest = behind;
    }
    counts.live = room.count_rows().ok_or(OutOfMemory)?;
    Ok(counts)
}

/// Takes the step of a line, and gives what it is told, if anything.
fn take_line(room: &mut Room, line: &[u8]) -> Result<Option<Reply>, OutOfMemory>
    ensures { IfOk result (IsTaken room.old room.new (line_steps line.now)) }
{
    if line.len() > LONGEST_LINE {
        return Ok(Some(Reply::Refused(Fault::TooLong)));
    }
    take_step(room, step_line(line))
}

/// Takes a step, and gives what it is told, if anything.
fn take_step(room: &mut Room, line: StepLine<'_>) -> Result<Option<Reply>, OutOfMemory>
    ensures { IfOk result (IsTaken room.old room.new (line_step (asked_by line.entry))) }
{
    match line {
        StepLine::Skip => Ok(None),
        StepLine::Open => open(room),
        StepLine::Ask(number, request) => ask(room, number, request),
        StepLine::Stray => Ok(Some(Reply::Refused(Fault::Syntax(0)))),
    }
}

/// Opens the next session.
fn open(room: &mut Room) -> Result<Option<Reply>, OutOfMemory>
    ensures { IfOk result (IsTaken room.old room.new (opens ∷ [])) }
{
    room.open_next()?;
    Ok(Some(Reply::Opened))
}

/// Asks a session's request.
fn ask(room: &mut Room, number: u64, request: &[u8]) -> Result<Option<Reply>, OutOfMemory>
    ensures { IfOk result (IsTaken room.old room.new (asks number request.now ∷ [])) }
{
    let reply = room.reply(number, request)?;
    Ok(Some(reply))
}
