// A room that goes along with a trace.
ghost use Rattle.std.specs.Prelude.{◌≡◌, ◌≤◌, ◌++◌, [], true, List, IfOk, OnOk, length};
ghost use Rattle.std.specs.List.{list_all};
ghost use Rattle.ifdb_wire.specs.Script.{IsNumbered, asked_by};
ghost use Rattle.ifdb_model.specs.Run.{State};
ghost use Rattle.ifdb_model.specs.Script.{line_step};
ghost use Rattle.ifdb_db.specs.Reading.{read_line};
ghost use Rattle.ifdb_db.specs.Room.{StandsFor};
ghost use Rattle.ifdb_trace.specs.Accepted.{asked_mark, told_mark, is_short, recorded_lines};
ghost use Rattle.ifdb_trace.specs.Checking.{Due, dues, first_dues};
ghost use Rattle.ifdb_trace.specs.Stages.{GoesOn, IsAt, IsEnd, IsMarked, IsWrong, IsWrongFirst};

use crate::reply::Untold;
use ifdb_db::{OutOfMemory, Room};
use ifdb_io::LONGEST_LINE;
use ifdb_laws::memory_is_never_told;
use ifdb_wire::{Fault, StepLine, step_line};
use std::alloc::{AllocError, Global};

/// What the trace has come to.
#[derive(Clone, Copy, Debug, PartialEq, Eq)]
pub(crate) enum Stage {
    /// The rest of a reply is due, and a script's line where none is left.
    Telling,
    /// OPEN was asked. The next line says whether there was memory for it, and only then does the room open the session: it
    /// can't take a step back.
    Opening,
    /// A session's request was asked, likewise.
    Asking(u64),
}

/// Why a line isn't taken.
#[derive(Clone, Copy, Debug, PartialEq, Eq)]
pub(crate) enum Stop {
    /// No accepted trace goes on with it.
    Wrong,
    /// There was no memory for its step.
    OutOfMemory,
}

impl From<AllocError> for Stop {
    ghost use Rattle.std.specs.Prelude.{◌≡◌};
    ghost use Rattle.ifdb_trace.specs.declared.checker.Stop.{Stop};

    ghost from_gives = { λ _ stop. stop ≡ Stop.OutOfMemory };

    fn from(_: AllocError) -> Self {
        Stop::OutOfMemory
    }
}

/// A room that goes along with a trace, line by line.
#[derive(Drop)]
pub(crate) struct Checker {
    room: Room,
    reply: Untold,
    request: Vec<u8>,
    stage: Stage,
}

/// A line of a trace, by its mark.
#[derive(Clone, Copy, Debug)]
enum Marked<'a> {
    /// A script's line, behind `> `.
    Asked(&'a [u8]),
    /// A line of a reply, behind `< `.
    Told(&'a [u8]),
    /// Neither.
    Other,
}

impl<'a> Marked<'a> {
    /// A line by its mark.
    fn of(line: &'a [u8]) -> Self
        ensures { IsMarked line.now result }
    {
        if let Some(text) = line.strip_prefix(b"> ") {
            return Marked::Asked(text);
        }
        match line.strip_prefix(b"< ") {
            Some(text) => Marked::Told(text),
            None => Marked::Other,
        }
    }
}

impl Checker {
    /// Before the first line. Takes the memory of a room, and for the longest request.
    pub(crate) fn new(alloc: Global) -> Result<Checker, OutOfMemory>
        ensures { IfOk result (λ checker. IsAt checker first_dues) }
    {
        Ok(Checker {
            room: Room::opening(alloc)?,
            reply: Untold::new(alloc)?,
            request: Vec::with_capacity(alloc, LONGEST_LINE)?,
            stage: Stage::Telling,
        })
    }

    /// Takes a line of the trace.
    pub(crate) fn take(&mut self, line: &[u8]) -> Result<(), Stop>
        requires { length line.now ≤ LONGEST_LINE }
        ensures on { OnOk result (GoesOn self.old self.new line.now) }
        ensures wrong { result ≡ Err Stop.Wrong → IsWrong self.old line.now }
    {
        match Marked::of(line) {
            Marked::Asked(text) => self.take_asked(text),
            Marked::Told(text) => self.take_told(text),
            Marked::Other => Err(Stop::Wrong),
        }
    }

    /// Whether the trace may end here.
    pub(crate) fn may_end(&self) -> bool
        ensures end { (all : List Due) → IsAt self.now all → IsEnd result all }
        ensures telling { result ≡ true → self.now.stage ≡ Stage.Telling }
        ensures told { result ≡ true → self.now.reply ≡ [] }
    {
        match self.stage {
            Stage::Telling => self.reply.is_empty(),
            Stage::Opening | Stage::Asking(_) => false,
        }
    }

    /// Takes a script's line.
    fn take_asked(&mut self, text: &[u8]) -> Result<(), Stop>
        requires { length (asked_mark ++ text.now) ≤ LONGEST_LINE }
        ensures on { OnOk result (GoesOn self.old self.new (asked_mark ++ text.now)) }
        ensures wrong { result ≡ Err Stop.Wrong → IsWrong self.old (asked_mark ++ text.now) }
    {
        if !self.may_end() {
            return Err(Stop::Wrong);
        }
        self.begin(step_line(text))?;
        Ok(())
    }

    /// Begins a step, where no reply is due.
    fn begin(&mut self, step: StepLine<'_>) -> Result<(), OutOfMemory>
        requires numbered { IsNumbered step }
        requires telling { self.old.stage ≡ Stage.Telling }
        requires told { self.old.reply ≡ [] }
        ensures { OnOk result ((st : State) → StandsFor self.old.room st
            → IsAt self.new (dues read_line st (line_step (asked_by step.entry)))) }
    {
        match step {
            StepLine::Skip => {}
            StepLine::Open => self.stage = Stage::Opening,
            StepLine::Ask(session, request) => {
                self.request.clear();
                self.request.extend_from_slice(request)?;
                self.stage = Stage::Asking(session);
            }
            StepLine::Stray => self.reply.refuse(0, Fault::Syntax(0)),
        }
        Ok(())
    }

    /// Takes a line of a reply.
    fn take_told(&mut self, text: &[u8]) -> Result<(), Stop>
        requires { length (told_mark ++ text.now) ≤ LONGEST_LINE }
        ensures on { OnOk result (GoesOn self.old self.new (told_mark ++ text.now)) }
        ensures wrong { result ≡ Err Stop.Wrong → IsWrong self.old (told_mark ++ text.now) }
    {
        match self.stage {
            Stage::Telling => self.take_next(text),
            Stage::Opening => self.take_opened(text),
            Stage::Asking(session) => self.take_answer(session, text),
        }
    }

    /// Takes the next line of a reply.
    fn take_next(&mut self, text: &[u8]) -> Result<(), Stop>
        requires short { length (told_mark ++ text.now) ≤ LONGEST_LINE }
        requires telling { self.old.stage ≡ Stage.Telling }
        ensures on { OnOk result (GoesOn self.old self.new (told_mark ++ text.now)) }
        ensures wrong { result ≡ Err Stop.Wrong → IsWrong self.old (told_mark ++ text.now) }
        ensures memory { result ≡ Err Stop.OutOfMemory → ⊥ }
    {
        if !self.reply.take_line(text) {
            return Err(Stop::Wrong);
        }
        Ok(())
    }

    /// Takes the first line of a reply, if a trace can have the reply.
    fn take_first(&mut self, text: &[u8]) -> Result<(), Stop>
        requires short { length (told_mark ++ text.now) ≤ LONGEST_LINE }
        requires telling { self.old.stage ≡ Stage.Telling }
        ensures on { OnOk result (GoesOn self.old self.new (told_mark ++ text.now)) }
        ensures fits { OnOk result (list_all is_short (recorded_lines self.old.reply) ≡ true) }
        ensures wrong { result ≡ Err Stop.Wrong
            → IsWrongFirst self.old (told_mark ++ text.now) }
    {
        if !self.reply.is_short() {
            return Err(Stop::Wrong);
        }
        self.take_next(text)
    }

    /// Takes the first line behind an OPEN.
    fn take_opened(&mut self, text: &[u8]) -> Result<(), Stop>
        requires short { length (told_mark ++ text.now) ≤ LONGEST_LINE }
        requires opening { self.old.stage ≡ Stage.Opening }
        ensures on { OnOk result (GoesOn self.old self.new (told_mark ++ text.now)) }
        ensures wrong { result ≡ Err Stop.Wrong → IsWrong self.old (told_mark ++ text.now) }
    {
        // No memory holds 2^64 - 1 sessions.
        let Some(number) = self.room.sessions().checked_add(1) else {
            return Err(Stop::OutOfMemory);
        };
        self.stage = Stage::Telling;
        self.reply.refuse(0, Fault::OutOfMemory);
        if self.reply.take_line(text) {
            return Ok(());
        }
        if !self.reply.open(&mut self.room, number) {
            return Err(Stop::OutOfMemory);
        }
        self.take_first(text)
    }

    /// Takes the first line behind a request.
    fn take_answer(&mut self, session: u64, text: &[u8]) -> Result<(), Stop>
        requires short { length (told_mark ++ text.now) ≤ LONGEST_LINE }
        requires asking { self.old.stage ≡ Stage.Asking session }
        ensures on { OnOk result (GoesOn self.old self.new (told_mark ++ text.now)) }
        ensures wrong { result ≡ Err Stop.Wrong → IsWrong self.old (told_mark ++ text.now) }
    {
        // So the line of error 20 is no front of another reply.
        memory_is_never_told();
        self.stage = Stage::Telling;
        self.reply.refuse(session, Fault::OutOfMemory);
        if self.reply.take_line(text) {
            return Ok(());
        }
        if !self.reply.ask(&mut self.room, session, &self.request) {
            return Err(Stop::OutOfMemory);
        }
        self.take_first(text)
    }
}
