// The trace of a script's run.
use ifdb_db::{OutOfMemory, Room};
use ifdb_io::LONGEST_LINE;
use ifdb_wire::{Fault, Out, Reply, StepLine, step_line};
use std::alloc::Global;

/// The trace of a script, each of whose lines is short enough for one: its lines behind `> `, and those of their replies
/// behind `< `.
pub(crate) fn trace_of(alloc: Global, script: &[u8]) -> Result<Vec<u8>, OutOfMemory> {
    let mut room = Room::opening(alloc)?;
    let mut out = Out::new(alloc)?;
    let mut trace = Vec::new(alloc);
    for line in script.split_inclusive(|byte| *byte == b'\n') {
        let line = line.strip_suffix(b"\n").unwrap_or(line);
        if line.len() <= LONGEST_LINE {
            put_line(&mut trace, b"> ", line)?;
            take_step(&mut room, step_line(line), &mut out);
            put_reply(&mut trace, out.bytes())?;
        }
    }
    Ok(trace)
}

/// Does the step of a line, and puts its reply.
fn take_step(room: &mut Room, line: StepLine<'_>, out: &mut Out) {
    match line {
        StepLine::Skip => out.clear(),
        StepLine::Open => {
            room.open(room.sessions().saturating_add(1), out);
        }
        StepLine::Ask(session, request) => {
            room.ask(session, Some(session), request, out);
        }
        StepLine::Stray => {
            out.speak_for(Some(0));
            out.put(&Reply::Refused(Fault::Syntax(0)));
        }
    }
}

/// Adds the lines of a reply.
fn put_reply(trace: &mut Vec<u8>, reply: &[u8]) -> Result<(), OutOfMemory> {
    for line in reply.split_inclusive(|byte| *byte == b'\n') {
        put_line(trace, b"< ", line.strip_suffix(b"\n").unwrap_or(line))?;
    }
    Ok(())
}

/// Adds a line behind its mark.
fn put_line(trace: &mut Vec<u8>, mark: &[u8], line: &[u8]) -> Result<(), OutOfMemory> {
    trace.extend_from_slice(mark)?;
    trace.extend_from_slice(line)?;
    trace.extend_from_slice(b"\n")
}
