// A script, line by line, over a journal.
ghost use Rattle.std.specs.Prelude.{◌≡◌, ◌≢◌, ◌⊎◌, ◌≤◌, ◌^◌, ℕ, [], false, length, Option};
ghost use Rattle.ifdb_io.specs.Causes.{Rose};
ghost use Rattle.ifdb_disk.specs.Clock.{Clock};
ghost use Rattle.ifdb_journal.specs.Reading.{BreaksAt, IsReady};
ghost use Rattle.ifdb_keep.specs.Ends.{end_of};
ghost use Rattle.ifdb_keep.specs.Kept.{KeptCut, KeptFront, KeptPast, KeptShort, KeptWhole};
ghost use Rattle.ifdb_keep.specs.Resumed.{Began, IsUnbegun, IsUnread};

use crate::keeper::{Keeper, refuse};
use crate::resume::resume;
use ifdb_db::Room;
use ifdb_disk::Disk;
use ifdb_io::{Failed, Line, LineFault, LineReader, Sink, Source};
use ifdb_journal::JournalFault;
use ifdb_laws::memory_is_never_told;
use ifdb_wire::{Fault, Out};
use std::alloc::Global;

/// How a kept script ended.
#[derive(Clone, Copy, Debug, PartialEq, Eq)]
pub enum KeepEnd {
    /// The input was read to its end, and all replies were written.
    Done,
    /// The input failed.
    ReadFault,
    /// The output failed.
    WriteFault,
    /// There was no memory to begin with.
    OutOfMemory,
    /// The input has more bytes than the limit.
    TooLarge,
    /// The disk failed.
    DiskFault,
    /// The journal is damaged at this place.
    Damaged(u64),
}

/// Runs a script over the state that the journal of a disk gives, and adds the steps that can
/// change it: each line's step in turn, then its record, if it has one, then its reply. At most
/// `limit` bytes of the input are a script.
///
/// The journal is read to its end, and a restart added, before the input is read. Want of memory
/// ends the call before that alone, and afterwards is the reply to the step that met it. Where the
/// disk fails at a record the reply to its step isn't written.
pub fn keep_script<R: Source, W: Sink, D: Disk>(
    alloc: Global,
    input: &mut R,
    output: &mut W,
    limit: u64,
    disk: &mut D,
) -> KeepEnd
    requires { limit ≤ 2 ^ 40 }
    ensures done { result ≡ KeepEnd.Done → KeptWhole limit
        (R.left input.old) (R.left input.new) (W.written output.old) (W.written output.new)
        (D.tells disk.old) (D.tells disk.new) }

    // A fault of the input or the output, and what was written before it.
    ensures read { result ≡ KeepEnd.ReadFault → Rose (R.faults input.old) (R.faults input.new) }
    ensures read_front { result ≡ KeepEnd.ReadFault → KeptFront limit
        (R.left input.old) (R.left input.new) (W.written output.old) (W.written output.new)
        (D.tells disk.old) (D.tells disk.new) }
    ensures write { result ≡ KeepEnd.WriteFault
        → Rose (W.faults output.old) (W.faults output.new) }
    ensures write_front { result ≡ KeepEnd.WriteFault → KeptCut limit
        (R.left input.old) (R.left input.new) (W.written output.old) (W.written output.new)
        (D.tells disk.old) (D.tells disk.new) }
    ensures too_large { result ≡ KeepEnd.TooLarge → KeptPast limit
        (R.left input.old) (R.left input.new) (W.written output.old) (W.written output.new)
        (D.tells disk.old) (D.tells disk.new) }

    // A fault of the disk, before the first read or at a step that has a record.
    ensures disk { result ≡ KeepEnd.DiskFault → Rose (D.faults disk.old) (D.faults disk.new) }
    ensures disk_front { result ≡ KeepEnd.DiskFault
        → ((input.new ≡ input.old) × (output.new ≡ output.old)
        × IsUnbegun (D.tells disk.old) (D.tells disk.new))
        ⊎ KeptShort limit
        (R.left input.old) (R.left input.new) (W.written output.old) (W.written output.new)
        (D.tells disk.old) (D.tells disk.new) }

    // Ends before the first read.
    ensures damaged { (at : ℕ) → result ≡ KeepEnd.Damaged at
        → BreaksAt (D.tells disk.old) at × (input.new ≡ input.old) × (output.new ≡ output.old)
        × IsUnread (D.tells disk.old) (D.tells disk.new) }
    ensures memory { result ≡ KeepEnd.OutOfMemory
        → (input.new ≡ input.old) × (output.new ≡ output.old)
        × IsUnread (D.tells disk.old) (D.tells disk.new) }

    // What is so at every other end.
    ensures unfailed { result ≢ KeepEnd.ReadFault → R.faults input.new ≡ R.faults input.old }
    ensures input_later { R.faults input.old ≤ R.faults input.new }
    ensures output_later { W.faults output.old ≤ W.faults output.new }
    ensures disk_unfailed { result ≢ KeepEnd.DiskFault → D.faults disk.new ≡ D.faults disk.old }
    ensures disk_later { D.faults disk.old ≤ D.faults disk.new }
{
    let Ok(mut reader) = LineReader::new(alloc, limit) else {
        return KeepEnd::OutOfMemory;
    };
    let Ok(mut room) = Room::opening(alloc) else {
        return KeepEnd::OutOfMemory;
    };
    let Ok(out) = Out::new(alloc) else {
        return KeepEnd::OutOfMemory;
    };
    let journal = match resume(alloc, &mut room, disk) {
        Ok(journal) => journal,
        Err(fault) => return unbegun(fault),
    };
    let base = room.sessions();
    let mut keeper = Keeper {
        room,
        journal,
        base,
        out,
    };
    keep_lines(&mut reader, &mut keeper, disk, input, output)
}

// The end at a fault of the journal, before the input was read.
fn unbegun(fault: JournalFault) -> KeepEnd
    ensures { result ≡ end_of fault }
{
    match fault {
        JournalFault::Disk => KeepEnd::DiskFault,
        JournalFault::Damaged(at) => KeepEnd::Damaged(at),
        JournalFault::OutOfMemory => KeepEnd::OutOfMemory,
    }
}

// Takes the lines of the input, one by one: what is said of a run holds of each disk that the
// journal was begun on.
fn keep_lines<R: Source, W: Sink, D: Disk>(
    reader: &mut LineReader,
    keeper: &mut Keeper,
    disk: &mut D,
    input: &mut R,
    output: &mut W,
) -> KeepEnd
    requires fresh { reader.old ≡ record {
      text = [];
      held = [];
      skipping = false;
      taken = 0;
      limit = reader.old.limit;
      over = false;
    } }
    requires ready { IsReady (D.tells disk.old) keeper.old.journal.at }
    requires base { keeper.old.base ≡ length keeper.old.room.clients }
    ensures done { result ≡ KeepEnd.Done → (first : Option Clock)
        → Began first (D.tells disk.old) keeper.old.room keeper.old.journal.at
        → KeptWhole reader.old.limit (R.left input.old) (R.left input.new)
        (W.written output.old) (W.written output.new) first (D.tells disk.new) }
    ensures read { result ≡ KeepEnd.ReadFault → Rose (R.faults input.old) (R.faults input.new) }
    ensures read_front { result ≡ KeepEnd.ReadFault → (first : Option Clock)
        → Began first (D.tells disk.old) keeper.old.room keeper.old.journal.at
        → KeptFront reader.old.limit (R.left input.old) (R.left input.new)
        (W.written output.old) (W.written output.new) first (D.tells disk.new) }
    ensures write { result ≡ KeepEnd.WriteFault
        → Rose (W.faults output.old) (W.faults output.new) }
    ensures write_front { result ≡ KeepEnd.WriteFault → (first : Option Clock)
        → Began first (D.tells disk.old) keeper.old.room keeper.old.journal.at
        → KeptCut reader.old.limit (R.left input.old) (R.left input.new)
        (W.written output.old) (W.written output.new) first (D.tells disk.new) }
    ensures too_large { result ≡ KeepEnd.TooLarge → (first : Option Clock)
        → Began first (D.tells disk.old) keeper.old.room keeper.old.journal.at
        → KeptPast reader.old.limit (R.left input.old) (R.left input.new)
        (W.written output.old) (W.written output.new) first (D.tells disk.new) }
    ensures disk { result ≡ KeepEnd.DiskFault → Rose (D.faults disk.old) (D.faults disk.new) }
    ensures disk_front { result ≡ KeepEnd.DiskFault → (first : Option Clock)
        → Began first (D.tells disk.old) keeper.old.room keeper.old.journal.at
        → KeptShort reader.old.limit (R.left input.old) (R.left input.new)
        (W.written output.old) (W.written output.new) first (D.tells disk.new) }
    ensures damaged { (at : ℕ) → result ≡ KeepEnd.Damaged at → ⊥ }
    ensures memory { result ≡ KeepEnd.OutOfMemory → ⊥ }
    ensures unfailed { result ≢ KeepEnd.ReadFault → R.faults input.new ≡ R.faults input.old }
    ensures input_later { R.faults input.old ≤ R.faults input.new }
    ensures output_later { W.faults output.old ≤ W.faults output.new }
    ensures disk_unfailed { result ≢ KeepEnd.DiskFault → D.faults disk.new ≡ D.faults disk.old }
    ensures disk_later { D.faults disk.old ≤ D.faults disk.new }
{
    memory_is_never_told();
    'lines: loop {
        match reader.next(input) {
            Err(LineFault::Read) => return KeepEnd::ReadFault,
            Err(LineFault::TooMuch) => return KeepEnd::TooLarge,
            Ok(Line::End) => return KeepEnd::Done,
            Ok(Line::Rest) => {
                if let Err(Failed) = keeper.take(disk, reader.text()) {
                    return KeepEnd::DiskFault;
                }
                if let Err(Failed) = keeper.answer(output) {
                    return KeepEnd::WriteFault;
                }
                return KeepEnd::Done;
            }
            Ok(Line::Whole) => {
                if let Err(Failed) = keeper.take(disk, reader.text()) {
                    return KeepEnd::DiskFault;
                }
                if let Err(Failed) = keeper.answer(output) {
                    return KeepEnd::WriteFault;
                }
            }
            Ok(Line::TooLong) => {
                refuse(&mut keeper.out, 0, Fault::TooLong);
                if let Err(Failed) = keeper.answer(output) {
                    return KeepEnd::WriteFault;
                }
            }
        }
    }
}
