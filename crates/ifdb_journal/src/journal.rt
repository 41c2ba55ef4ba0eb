// A journal that is read to its end and then appended to.
ghost use Rattle.std.specs.Prelude.{◌≡◌, Ok, Err, None, ℕ, IfSome, ◌≤◌, ◌<◌, ◌+◌, ◌^◌, ◌++◌, ◌∷◌, [], List, length, take, drop, IfOk, OnOk, OnErr};
ghost use Rattle.ifdb_io.specs.Causes.{HasCause};
ghost use Rattle.ifdb_journal.specs.Causes.{HasDiskCause};
ghost use Rattle.ifdb_disk.specs.Clock.{Leaves, Now};
ghost use Rattle.ifdb_journal.specs.declared.record.Record.{Record};
ghost use Rattle.ifdb_journal.specs.Records.{IsLawful};
ghost use Rattle.ifdb_journal.specs.Reading.{Adds, BreaksAt, Holds, IsOldOrShort, IsReady, MayAdd, ReadTo, SpellsSame, SpellsWhole, StandsAt};
ghost use Rattle.ifdb_journal.specs.Found.{IsFound};

use crate::found::{Found, look_at};
use crate::window::{LONGEST, Window};
use crate::{Batch, Bytes, JournalFault, Record, RecordKind};
use ifdb_disk::{Disk, write_through};
use ifdb_io::Failed;
use std::alloc::Global;
use std::marker::Model;

/// A place in a journal: that of the next gate. It is first read to its end by `next`, and then
/// appended to. Each call needs the disk as the last one left it.
#[derive(Drop)]
pub struct Journal {
    place: u64,
    window: Window,
    // The one record of `append`.
    single: Batch,
}

impl Model for Journal {
    ghost use Rattle.std.specs.Prelude.{◌<◌, ◌≤◌, ◌+◌, ◌^◌, length};
    ghost use Rattle.ifdb_journal.specs.Reading.{Place};

    ghost Value = { Place };

    ghost view = { λ j. record { at = j.place; ahead = j.window } };

    ghost invariant = { λ j. (j.place + length j.window < 2 ^ 62) × (65549 ≤ j.single.room) };
}

impl Journal {
    /// Begins to read the journal of a disk, after a sync. On a disk of at most 1 byte it writes a
    /// closed gate. Takes 192 KiB.
    ///
    /// # Errors
    /// `OutOfMemory` before the disk is touched; `Disk` where the disk failed.
    pub fn start<D: Disk>(alloc: Global, disk: &mut D) -> Result<Journal, JournalFault>
        ensures begun { IfOk result (λ j. ReadTo (D.tells disk.new) [] j) }
        ensures same { OnOk result (SpellsSame (D.tells disk.old) (D.tells disk.new)) }
        ensures moments { Leaves (D.tells disk.old) (D.tells disk.new)
            (IsOldOrShort (D.tells disk.old)) }
        ensures cause { HasDiskCause (D.faults disk.old) (D.faults disk.new) result }
        ensures sound { (at : ℕ) → result ≡ Err (JournalFault.Damaged at) → ⊥ }
        ensures memory { result ≡ Err JournalFault.OutOfMemory → disk.new ≡ disk.old }
    {
        let Ok(window) = Window::new(alloc) else {
            return Err(JournalFault::OutOfMemory);
        };
        let Ok(single) = Batch::new(alloc, LONGEST - 1) else {
            return Err(JournalFault::OutOfMemory);
        };
        if let Err(Failed) = shut_short(disk) {
            return Err(JournalFault::Disk);
        }
        Ok(Journal {
            place: 0,
            window,
            single,
        })
    }

    /// The place of the next gate, below 2^62.
    pub fn place(&self) -> u64
        ensures place { result ≡ self.now.at }
        ensures bound { result < 2 ^ 62 }
    {
        self.place
    }

    /// The next record, or `None` at the end. Reads up to 64 KiB at a time, and then gives the
    /// records in them; takes memory for the record's line.
    ///
    /// # Errors
    /// `Damaged` where no record stands behind an open gate; `Disk` where the disk failed. No call
    /// is of use after them. After `OutOfMemory` the journal is where it was.
    pub fn next<D: Disk>(
        &mut self,
        alloc: Global,
        disk: &mut D,
    ) -> Result<Option<Record>, JournalFault>
        ensures some { IfOk result (λ r. IfSome r (λ found.
            (rs : List Record) → ReadTo (D.tells disk.old) rs self.old
            → ReadTo (D.tells disk.new) (rs ++ found ∷ []) self.new)) }
        ensures end { result ≡ Ok None
            → (rs : List Record) → ReadTo (D.tells disk.old) rs self.old
            → Holds (D.tells disk.new) rs self.new.at × SpellsWhole (D.tells disk.new) rs }
        ensures goes_on { IfOk result (λ r. IfSome r (λ found.
            self.new.at ≡ self.old.at + (14 + length found.line))) }
        ensures damaged { (at : ℕ) → result ≡ Err (JournalFault.Damaged at)
            → (rs : List Record) → ReadTo (D.tells disk.old) rs self.old
            → BreaksAt (D.tells disk.new) at }
        ensures there { (at : ℕ) → result ≡ Err (JournalFault.Damaged at) → at ≡ self.old.at }
        ensures memory { result ≡ Err JournalFault.OutOfMemory
            → (rs : List Record) → ReadTo (D.tells disk.old) rs self.old
            → ReadTo (D.tells disk.new) rs self.new }
        ensures stays { result ≡ Err JournalFault.OutOfMemory → self.new.at ≡ self.old.at }
        ensures still { D.tells disk.new ≡ D.tells disk.old }
        ensures cause { HasDiskCause (D.faults disk.old) (D.faults disk.new) result }
    {
        let Ok(found) = self.look(disk) else {
            return Err(JournalFault::Disk);
        };
        match found {
            Found::Shut => Ok(None),
            Found::Broken => Err(JournalFault::Damaged(self.place)),
            Found::Whole(kind, session, size) => {
                let Ok(line) = Bytes::copy(alloc, &self.window.bytes()[14..14 + size]) else {
                    return Err(JournalFault::OutOfMemory);
                };
                self.place += 14 + size as u64;
                self.window.skip(14 + size);
                Ok(Some(Record {
                    kind,
                    session,
                    line,
                }))
            }
        }
    }

    // What stands at the place: by what was read ahead, and where that ends in a record by as much
    // as the longest takes.
    fn look<D: Disk>(&mut self, disk: &mut D) -> Result<Found, Failed>
        ensures found { IfOk result (λ found. IsFound self.new.ahead found) }
        ensures all { IfOk result (λ found. StandsAt (D.tells disk.old) self.old.at self.old.ahead
            → Now (D.tells disk.old)
            (λ s. IsFound (take 65550 (drop self.old.at s.bytes)) found)) }
        ensures ahead { OnOk result (StandsAt (D.tells disk.old) self.old.at self.old.ahead
            → StandsAt (D.tells disk.old) self.old.at self.new.ahead) }
        ensures place { self.new.at ≡ self.old.at }
        ensures still { D.tells disk.new ≡ D.tells disk.old }
        ensures cause { HasCause (D.faults disk.old) (D.faults disk.new) result }
    {
        let found = look_at(self.window.bytes());
        if !found.is_broken() {
            return Ok(found);
        }
        self.window.fill(disk, self.place)?;
        Ok(look_at(self.window.bytes()))
    }

    /// Adds a record behind those that were read and added. At `Ok` each crash leaves it from now
    /// on; a crash in this call leaves it whole or not at all. Takes no memory, and two syncs.
    ///
    /// # Errors
    /// `Disk` where the disk failed. No call is of use after it.
    pub fn append<D: Disk>(
        &mut self,
        disk: &mut D,
        kind: RecordKind,
        session: u64,
        line: &[u8],
    ) -> Result<(), JournalFault>
        requires ready { IsReady (D.tells disk.old) self.old.at }
        requires lawful { IsLawful (record { kind = kind; session = session; line = line.now }) }
        ensures added { OnOk result
            (Adds (record { kind = kind; session = session; line = line.now } ∷ [])
            (D.tells disk.old) self.old.at (D.tells disk.new) self.new.at) }
        ensures moments { MayAdd (record { kind = kind; session = session; line = line.now } ∷ [])
            (D.tells disk.old) self.old.at (D.tells disk.new) }
        ensures cause { HasDiskCause (D.faults disk.old) (D.faults disk.new) result }
        ensures sole { OnErr result (result ≡ Err JournalFault.Disk) }
    {
        self.window.clear();
        self.single.clear();
        self.single.push(kind, session, line);
        let Ok(next) = write_batch(disk, self.place, &self.single) else {
            return Err(JournalFault::Disk);
        };
        self.place = next;
        Ok(())
    }

    /// Adds the records of a batch, all of them or none: at `Ok` each crash leaves all from now on,
    /// and a crash in this call leaves all or none. Takes no memory, and two syncs, whatever the
    /// number of records; without records it does nothing.
    ///
    /// # Errors
    /// `Disk` where the disk failed. No call is of use after it.
    pub fn append_batch<D: Disk>(&mut self, disk: &mut D, batch: &Batch) -> Result<(), JournalFault>
        requires ready { IsReady (D.tells disk.old) self.old.at }
        ensures added { OnOk result (Adds batch.now.records
            (D.tells disk.old) self.old.at (D.tells disk.new) self.new.at) }
        ensures moments { MayAdd batch.now.records
            (D.tells disk.old) self.old.at (D.tells disk.new) }
        ensures cause { HasDiskCause (D.faults disk.old) (D.faults disk.new) result }
        ensures sole { OnErr result (result ≡ Err JournalFault.Disk) }
    {
        self.window.clear();
        let Ok(next) = write_batch(disk, self.place, batch) else {
            return Err(JournalFault::Disk);
        };
        self.place = next;
        Ok(())
    }
}

// Syncs, and writes a closed gate on a disk of at most 1 byte.
fn shut_short<D: Disk>(disk: &mut D) -> Result<(), Failed>
    ensures begun { OnOk result (ReadTo (D.tells disk.new) [] (record { at = 0; ahead = [] })) }
    ensures same { OnOk result (SpellsSame (D.tells disk.old) (D.tells disk.new)) }
    ensures moments { Leaves (D.tells disk.old) (D.tells disk.new)
        (IsOldOrShort (D.tells disk.old)) }
    ensures cause { HasCause (D.faults disk.old) (D.faults disk.new) result }
{
    disk.sync()?;
    let size = disk.len()?;
    if size > 1 {
        return Ok(());
    }
    write_through(disk, 0, &[0])?;
    Ok(())
}

// Writes the records of a batch behind the closed gate at a place, and then opens it. The place of
// the next gate.
fn write_batch<D: Disk>(disk: &mut D, at: u64, batch: &Batch) -> Result<u64, Failed>
    requires ready { IsReady (D.tells disk.old) at }
    requires place { at < 2 ^ 62 }
    ensures added { IfOk result
        (λ next. Adds batch.now.records (D.tells disk.old) at (D.tells disk.new) next) }
    ensures bound { IfOk result (λ next. next < 2 ^ 62) }
    ensures moments { MayAdd batch.now.records (D.tells disk.old) at (D.tells disk.new) }
    ensures cause { HasCause (D.faults disk.old) (D.faults disk.new) result }
{
    let text = batch.text();
    if text.len() <= 1 {
        return Ok(at);
    }
    write_through(disk, at + 1, &text[1..])?;
    write_through(disk, at, &[1])?;
    Ok(at + (text.len() - 1) as u64)
}
