// A script's lines, taken and kept one by one.
ghost use Rattle.std.specs.Prelude.{◌≡◌, ◌≤◌, ◌&&◌, not, [], ◌∷◌, length, Some, OnErr, OnOk};
ghost use Rattle.std.specs.Io.KnownBytes.{Appends};
ghost use Rattle.ifdb_io.specs.Causes.{HasCause, WritesShort};
ghost use Rattle.ifdb_journal.specs.Reading.{Adds, IsReady, MayAdd};
ghost use Rattle.ifdb_journal.specs.Records.{IsLawful};
ghost use Rattle.ifdb_wire.specs.Script.{asked_by};
ghost use Rattle.ifdb_wire.specs.Text.{reply_text};
ghost use Rattle.ifdb_model.specs.Run.{asks, opens};
ghost use Rattle.ifdb_model.specs.Script.{line_step, line_steps};
ghost use Rattle.ifdb_replay.specs.FirstWord.{only_looks};
ghost use Rattle.ifdb_db.specs.Room.{client_in};
ghost use Rattle.ifdb_keep.specs.Taken.{AreScriptSteps, AsksShort, LostLine, TookLine};

use ifdb_db::Room;
use ifdb_disk::Disk;
use ifdb_io::{Failed, LONGEST_LINE, Sink, write_all};
use ifdb_journal::{Journal, RecordKind};
use ifdb_replay::only_looks;
use ifdb_wire::{Fault, Out, Reply, StepLine, step_line};

/// A room and the journal of its steps. The script's sessions stand behind `base` others; the reply
/// to its last line stands in `out`.
#[derive(Drop)]
pub(crate) struct Keeper {
    pub(crate) room: Room,
    pub(crate) journal: Journal,
    pub(crate) base: u64,
    pub(crate) out: Out,
}

impl Keeper {
    /// Takes the step of a line, and then adds its record, if it has one. Touches no output: the
    /// reply stands in `out`, to be written once the record is there.
    pub(crate) fn take<D: Disk>(&mut self, disk: &mut D, line: &[u8]) -> Result<(), Failed>
        requires short { length line.now ≤ LONGEST_LINE }
        requires ready { IsReady (D.tells disk.old) self.old.journal.at }
        ensures took { OnOk result (TookLine self.old.base self.old.room self.new.room
            (line_steps line.now) self.new.out.text
            (D.tells disk.old) self.old.journal.at (D.tells disk.new) self.new.journal.at) }
        ensures lost { OnErr result (LostLine self.old.base self.old.room self.new.room
            (line_steps line.now) (D.tells disk.old) self.old.journal.at (D.tells disk.new)) }
        ensures numbered { AreScriptSteps (line_steps line.now) }
        ensures base { self.new.base ≡ self.old.base }
        ensures cause { HasCause (D.faults disk.old) (D.faults disk.new) result }
    {
        self.take_step(disk, step_line(line))
    }

    fn take_step<D: Disk>(&mut self, disk: &mut D, line: StepLine<'_>) -> Result<(), Failed>
        requires short { AsksShort (asked_by line) }
        requires ready { IsReady (D.tells disk.old) self.old.journal.at }
        ensures took { OnOk result (TookLine self.old.base self.old.room self.new.room
            (line_step (asked_by line.entry)) self.new.out.text
            (D.tells disk.old) self.old.journal.at (D.tells disk.new) self.new.journal.at) }
        ensures lost { OnErr result (LostLine self.old.base self.old.room self.new.room
            (line_step (asked_by line.entry))
            (D.tells disk.old) self.old.journal.at (D.tells disk.new)) }
        ensures base { self.new.base ≡ self.old.base }
        ensures cause { HasCause (D.faults disk.old) (D.faults disk.new) result }
    {
        match line {
            StepLine::Skip => {
                self.out.clear();
                Ok(())
            }
            StepLine::Open => self.open(disk),
            StepLine::Ask(number, request) => self.ask(disk, number, request),
            // Lines of no session are answered to session 0.
            StepLine::Stray => {
                refuse(&mut self.out, 0, Fault::Syntax(0));
                Ok(())
            }
        }
    }

    fn open<D: Disk>(&mut self, disk: &mut D) -> Result<(), Failed>
        requires { IsReady (D.tells disk.old) self.old.journal.at }
        ensures took { OnOk result (TookLine self.old.base self.old.room self.new.room
            (opens ∷ []) self.new.out.text
            (D.tells disk.old) self.old.journal.at (D.tells disk.new) self.new.journal.at) }
        ensures lost { OnErr result (LostLine self.old.base self.old.room self.new.room
            (opens ∷ []) (D.tells disk.old) self.old.journal.at (D.tells disk.new)) }
        ensures base { self.new.base ≡ self.old.base }
        ensures cause { HasCause (D.faults disk.old) (D.faults disk.new) result }
    {
        let Some(number) = self.room.sessions().checked_add(1) else {
            // No memory holds so many sessions.
            refuse(&mut self.out, 0, Fault::OutOfMemory);
            return Ok(());
        };
        let shown = number.saturating_sub(self.base);
        if !self.room.open(shown, &mut self.out) {
            return Ok(());
        }
        add(&mut self.journal, disk, RecordKind::Open, 0, &[])?;
        Ok(())
    }

    fn ask<D: Disk>(&mut self, disk: &mut D, n: u64, request: &[u8]) -> Result<(), Failed>
        requires short { length request.now ≤ 65535 }
        requires ready { IsReady (D.tells disk.old) self.old.journal.at }
        ensures took { OnOk result (TookLine self.old.base self.old.room self.new.room
            (asks n request.now ∷ []) self.new.out.text
            (D.tells disk.old) self.old.journal.at (D.tells disk.new) self.new.journal.at) }
        ensures lost { OnErr result (LostLine self.old.base self.old.room self.new.room
            (asks n request.now ∷ [])
            (D.tells disk.old) self.old.journal.at (D.tells disk.new)) }
        ensures base { self.new.base ≡ self.old.base }
        ensures cause { HasCause (D.faults disk.old) (D.faults disk.new) result }
    {
        let Some(number) = self.base.checked_add(n) else {
            // No memory holds so many sessions.
            refuse(&mut self.out, n, Fault::OutOfMemory);
            return Ok(());
        };
        let is_kept = has_record(&self.room, number, request);
        if !self.room.ask(number, Some(n), request, &mut self.out) {
            return Ok(());
        }
        if !is_kept {
            return Ok(());
        }
        add(&mut self.journal, disk, RecordKind::Ask, number, request)?;
        Ok(())
    }

    /// Writes the reply to the last line. Touches no disk.
    pub(crate) fn answer<W: Sink>(&self, output: &mut W) -> Result<(), Failed>
        ensures ok { OnOk result
            (Appends (W.written output.old) (W.written output.new) self.now.out.text) }
        ensures err { OnErr result
            (WritesShort (W.written output.old) (W.written output.new) self.now.out.text) }
        ensures cause { HasCause (W.faults output.old) (W.faults output.new) result }
    {
        write_all(output, self.out.bytes())
    }
}

/// Whether a line of a session has a record: the session is open, and the line doesn't only look.
fn has_record(room: &Room, number: u64, line: &[u8]) -> bool
    ensures { result ≡ ((client_in room.now number).is_open && not (only_looks line.now)) }
{
    room.is_open(number) && !only_looks(line)
}

/// Adds the record of a step that was taken.
fn add<D: Disk>(
    journal: &mut Journal,
    disk: &mut D,
    kind: RecordKind,
    session: u64,
    line: &[u8],
) -> Result<(), Failed>
    requires ready { IsReady (D.tells disk.old) journal.old.at }
    requires lawful { IsLawful (record { kind = kind; session = session; line = line.now }) }
    ensures added { OnOk result
        (Adds (record { kind = kind; session = session; line = line.now } ∷ [])
        (D.tells disk.old) journal.old.at (D.tells disk.new) journal.new.at) }
    ensures moments { MayAdd (record { kind = kind; session = session; line = line.now } ∷ [])
        (D.tells disk.old) journal.old.at (D.tells disk.new) }
    ensures cause { HasCause (D.faults disk.old) (D.faults disk.new) result }
{
    match journal.append(disk, kind, session, line) {
        Ok(()) => Ok(()),
        Err(_) => Err(Failed),
    }
}

/// Puts a refusal for a session, or for none, which is 0.
pub(crate) fn refuse(out: &mut Out, session: u64, fault: Fault)
    ensures { out.new.text ≡ reply_text (Some session) (Reply.Refused fault) }
{
    out.speak_for(Some(session));
    out.put(&Reply::Refused(fault));
}
