// A room that goes on from a journal.
ghost use Rattle.std.specs.Prelude.{◌≡◌, ◌≢◌, ℕ, Err, [], ◌∷◌, IfOk, OnErr, OnOk};
ghost use Rattle.ifdb_journal.specs.Causes.{HasDiskCause};
ghost use Rattle.ifdb_journal.specs.Reading.{Adds, BreaksAt, IsReady, MayAdd, ReadTo};
ghost use Rattle.ifdb_model.specs.Run.{opening};
ghost use Rattle.ifdb_db.specs.Room.{StandsFor};
ghost use Rattle.ifdb_keep.specs.Resumed.{Began, IsUnbegun, IsUnread, ReadBack, Redoes, restarted};

use ifdb_db::{OutOfMemory, Room};
use ifdb_disk::Disk;
use ifdb_journal::{Journal, JournalFault, Record, RecordKind};
use ifdb_replay::replay_goes_on;
use std::alloc::Global;

/// Does the steps of a journal's records again. Where there was a record, a restart is added behind
/// them, at which all open sessions leave.
///
/// # Errors
/// Those of the journal. `OutOfMemory` also where a step has none.
pub(crate) fn resume<D: Disk>(
    alloc: Global,
    room: &mut Room,
    disk: &mut D,
) -> Result<Journal, JournalFault>
    requires { StandsFor room.old opening }
    ensures begun { IfOk result
        (λ journal. Began (D.tells disk.old) (D.tells disk.new) room.new journal.at) }
    ensures damaged { (at : ℕ) → result ≡ Err (JournalFault.Damaged at)
        → BreaksAt (D.tells disk.old) at }
    ensures unread { result ≢ Err JournalFault.Disk
        → OnErr result (IsUnread (D.tells disk.old) (D.tells disk.new)) }
    ensures unbegun { OnErr result (IsUnbegun (D.tells disk.old) (D.tells disk.new)) }
    ensures cause { HasDiskCause (D.faults disk.old) (D.faults disk.new) result }
{
    replay_goes_on();
    let mut journal = Journal::start(alloc, disk)?;
    let any = read_back(alloc, room, &mut journal, disk)?;
    if !any {
        return Ok(journal);
    }
    restart(room, &mut journal, disk)?;
    Ok(journal)
}

/// Reads the records of a journal to its end, and does their steps again. Whether there were any.
fn read_back<D: Disk>(
    alloc: Global,
    room: &mut Room,
    journal: &mut Journal,
    disk: &mut D,
) -> Result<bool, JournalFault>
    requires opening { StandsFor room.old opening }
    requires begun { ReadTo (D.tells disk.old) [] journal.old }
    ensures whole { IfOk result
        (λ any. ReadBack (D.tells disk.old) room.new journal.new.at any) }
    ensures damaged { (at : ℕ) → result ≡ Err (JournalFault.Damaged at)
        → BreaksAt (D.tells disk.old) at }
    ensures still { D.tells disk.new ≡ D.tells disk.old }
    ensures cause { HasDiskCause (D.faults disk.old) (D.faults disk.new) result }
{
    replay_goes_on();
    let mut any = false;
    // A disk ends before so many records.
    'records: for _ in 0..u64::MAX {
        let Some(entry) = journal.next(alloc, disk)? else {
            return Ok(any);
        };
        let Ok(()) = redo(room, &entry) else {
            return Err(JournalFault::OutOfMemory);
        };
        any = true;
    }
    Err(JournalFault::OutOfMemory)
}

/// Adds a restart, and has all open sessions leave.
fn restart<D: Disk>(
    room: &mut Room,
    journal: &mut Journal,
    disk: &mut D,
) -> Result<(), JournalFault>
    requires { IsReady (D.tells disk.old) journal.old.at }
    ensures added { OnOk result (Adds (restarted ∷ [])
        (D.tells disk.old) journal.old.at (D.tells disk.new) journal.new.at) }
    ensures moments { MayAdd (restarted ∷ [])
        (D.tells disk.old) journal.old.at (D.tells disk.new) }
    ensures left { OnOk result (Redoes room.old room.new restarted) }
    ensures cause { HasDiskCause (D.faults disk.old) (D.faults disk.new) result }
    ensures sole { OnErr result (result ≡ Err JournalFault.Disk) }
{
    journal.append(disk, RecordKind::Restart, 0, &[])?;
    leave_all(room);
    Ok(())
}

/// Does the steps of a record again.
fn redo(room: &mut Room, entry: &Record) -> Result<(), OutOfMemory>
    ensures { OnOk result (Redoes room.old room.new entry.now) }
{
    match entry.kind {
        RecordKind::Open => {
            room.open_next()?;
            Ok(())
        }
        RecordKind::Ask => {
            let reply = room.reply(entry.session, entry.line.as_slice())?;
            drop(reply);
            Ok(())
        }
        RecordKind::Restart => {
            leave_all(room);
            Ok(())
        }
    }
}

/// Has all open sessions leave.
fn leave_all(room: &mut Room)
    ensures { Redoes room.old room.new restarted }
{
    'each: for n in 0..room.sessions() {
        room.leave(n + 1);
    }
}
