// Texts on their way to a journal.
ghost use Rattle.std.specs.Prelude.{◌≡◌, ◌∷◌, [], IfOk, OnOk};
ghost use Rattle.ifdb_journal.specs.Reading.{IsReady};
ghost use Rattle.ifdb_journal.specs.Records.{IsLawful};
ghost use Rattle.ifdb_log.specs.Pieces.{piece, pieces};
ghost use Rattle.ifdb_extract.specs.Causes.{HasWriteCause};
ghost use Rattle.ifdb_extract.specs.Writing.{Finishes, GoesOn, IsWritten, Keeps, Puts};

use crate::WriteFault;
use ifdb_disk::{Disk, write_through};
use ifdb_journal::{Batch, Journal, JournalFault, RecordKind};
use ifdb_log::Pieces;
use std::alloc::Global;
use std::marker::Model;

// The bytes of the records that are appended together: 1 MiB. There is room for the longest piece of a text.
const ROOM: usize = 1_048_576;

// A journal, and the records that wait to be appended to it. Each call needs the disk as the last one left it.
#[derive(Drop)]
pub(crate) struct TextWriter {
    journal: Journal,
    batch: Batch,
}

impl Model for TextWriter {
    ghost use Rattle.std.specs.Prelude.{◌≡◌};
    ghost use Rattle.ifdb_extract.specs.Writing.{Writing};

    ghost Value = { Writing };

    ghost view = { λ w. record { at = w.journal.at; waiting = w.batch.records } };

    ghost invariant = { λ w. w.batch.room ≡ 1048576 };
}

impl TextWriter {
    // Begins a journal without records on a disk, whatever the disk held.
    pub(crate) fn begin<D: Disk>(alloc: Global, disk: &mut D) -> Result<TextWriter, WriteFault>
        ensures begun { IfOk result (λ w. IsWritten (D.tells disk.new) w []) }
        ensures ready { IfOk result (λ w. IsReady (D.tells disk.new) w.at) }
        ensures later { GoesOn (D.tells disk.old) (D.tells disk.new) }
        ensures cause { HasWriteCause (D.faults disk.old) (D.faults disk.new) result }
    {
        let batch = Batch::new(alloc, ROOM)?;
        let journal = match Journal::start(alloc, disk) {
            Ok(journal) => journal,
            Err(JournalFault::OutOfMemory) => return Err(WriteFault::OutOfMemory),
            Err(_) => return Err(WriteFault::Disk),
        };
        write_through(disk, 0, &[0])?;
        Ok(TextWriter { journal, batch })
    }

    // Puts a text behind the others. Takes no memory.
    pub(crate) fn put<D: Disk>(&mut self, disk: &mut D, text: &[u8]) -> Result<(), WriteFault>
        requires ready { IsReady (D.tells disk.old) self.old.at }
        ensures put { OnOk result
            (Puts (pieces text.now) (D.tells disk.old) self.old (D.tells disk.new) self.new) }
        ensures ready { OnOk result (IsReady (D.tells disk.new) self.new.at) }
        ensures later { GoesOn (D.tells disk.old) (D.tells disk.new) }
        ensures cause { HasWriteCause (D.faults disk.old) (D.faults disk.new) result }
    {
        for piece in Pieces::of(text) {
            self.push(disk, piece.session, piece.line)?;
        }
        Ok(())
    }

    // Puts a piece behind the others.
    fn push<D: Disk>(&mut self, disk: &mut D, session: u64, line: &[u8]) -> Result<(), WriteFault>
        requires lawful { IsLawful (piece session line.now) }
        requires ready { IsReady (D.tells disk.old) self.old.at }
        ensures put { OnOk result (Puts (piece session line.now ∷ [])
            (D.tells disk.old) self.old (D.tells disk.new) self.new) }
        ensures ready { OnOk result (IsReady (D.tells disk.new) self.new.at) }
        ensures later { GoesOn (D.tells disk.old) (D.tells disk.new) }
        ensures cause { HasWriteCause (D.faults disk.old) (D.faults disk.new) result }
    {
        if !self.batch.fits(line) {
            self.flush(disk)?;
        }
        self.batch.push(RecordKind::Ask, session, line);
        Ok(())
    }

    // Appends the records that wait.
    fn flush<D: Disk>(&mut self, disk: &mut D) -> Result<(), WriteFault>
        requires ready { IsReady (D.tells disk.old) self.old.at }
        ensures kept { OnOk result
            (Keeps (D.tells disk.old) self.old (D.tells disk.new) self.new) }
        ensures ready { OnOk result (IsReady (D.tells disk.new) self.new.at) }
        ensures none { OnOk result (self.new.waiting ≡ []) }
        ensures later { GoesOn (D.tells disk.old) (D.tells disk.new) }
        ensures cause { HasWriteCause (D.faults disk.old) (D.faults disk.new) result }
    {
        let Ok(()) = self.journal.append_batch(disk, &self.batch) else {
            return Err(WriteFault::Disk);
        };
        self.batch.clear();
        Ok(())
    }

    // Appends the records that still wait, so that the disk holds all.
    pub(crate) fn finish<D: Disk>(mut self, disk: &mut D) -> Result<(), WriteFault>
        requires ready { IsReady (D.tells disk.old) self.at }
        ensures finished { OnOk result
            (Finishes (D.tells disk.old) self (D.tells disk.new)) }
        ensures later { GoesOn (D.tells disk.old) (D.tells disk.new) }
        ensures cause { HasWriteCause (D.faults disk.old) (D.faults disk.new) result }
    {
        self.flush(disk)
    }
}
