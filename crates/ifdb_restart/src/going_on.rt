// A room that goes on from a log.
ghost use Rattle.std.specs.Prelude.{◌≡◌, ◌⊎◌, ℕ, [], Err, IfOk, OnOk, length};
ghost use Rattle.ifdb_disk.specs.Clock.{Leaves};
ghost use Rattle.ifdb_journal.specs.Reading.{IsOldOrShort, SpellsSame};
ghost use Rattle.ifdb_log.specs.Causes.{HasLogCause};
ghost use Rattle.ifdb_log.specs.Reading.{HasRead, IsDamaged};
ghost use Rattle.ifdb_restart.specs.Restarted.{HasUnfitAt, IsRestarted, IsRestored, log_in};

use crate::redo::{Made, redo_text};
use ifdb_db::{RedoFault, ServedRoom};
use ifdb_disk::Disk;
use ifdb_history::GhostList;
use ifdb_journal::Journal;
use ifdb_log::{Log, LogFault};
use std::alloc::Global;

/// What a restart begins with.
#[derive(Drop)]
pub struct Restarted {
    /// A room without sessions, in which all records of the log were made again.
    pub room: ServedRoom,
    /// The log's journal, to be appended to.
    pub journal: Journal,
    /// These records.
    pub made: Made,
}

/// Reads a log to its end, and makes its entries again in a new room. The disk is what lies behind the log's title. Takes the memory
/// of the rows, and of the longest record; each record costs what its entry did, but for the search of its rows.
///
/// # Errors
/// `Damaged` with the byte of the file where no record stands behind an open gate, or one that is no piece of a text, or a text that is
/// no redo record, or one that doesn't fit those before it. `Disk` where the disk failed; `OutOfMemory`.
pub fn restart<D: Disk>(alloc: Global, disk: &mut D) -> Result<Restarted, LogFault>
    ensures restarted { IfOk result
        (λ it. IsRestarted (D.tells disk.new) it.journal.at (log_in it.made.items) it.room) }
    ensures same { OnOk result (SpellsSame (D.tells disk.old) (D.tells disk.new)) }
    ensures still { (at : ℕ) → result ≡ Err (LogFault.Damaged at)
        → SpellsSame (D.tells disk.old) (D.tells disk.new) }
    ensures damaged { (at : ℕ) → result ≡ Err (LogFault.Damaged at)
        → IsDamaged (D.tells disk.new) at ⊎ HasUnfitAt (D.tells disk.new) at }
    ensures titled { result ≡ Err LogFault.NotALog → ⊥ }
    ensures moments { Leaves (D.tells disk.old) (D.tells disk.new)
        (IsOldOrShort (D.tells disk.old)) }
    ensures cause { HasLogCause (D.faults disk.old) (D.faults disk.new) result }
{
    let Ok(mut room) = ServedRoom::opening(alloc) else {
        return Err(LogFault::OutOfMemory);
    };
    let mut log = Log::start(alloc, disk)?;
    let mut made = GhostList::new();
    make_again(alloc, &mut room, &mut made, &mut log, disk)?;
    Ok(Restarted {
        room,
        journal: log.into_journal(),
        made,
    })
}

/// Makes the entries of all texts of a log again, to its end.
fn make_again<D: Disk>(
    alloc: Global,
    room: &mut ServedRoom,
    made: &mut Made,
    log: &mut Log,
    disk: &mut D,
) -> Result<(), LogFault>
    requires begun { HasRead (D.tells disk.old) [] log.old.place }
    requires restored { IsRestored [] [] room.old }
    requires none { made.old.items ≡ [] }
    ensures whole { OnOk result
        (IsRestarted (D.tells disk.new) log.new.place.at (log_in made.new.items) room.new) }
    ensures damaged { (at : ℕ) → result ≡ Err (LogFault.Damaged at)
        → IsDamaged (D.tells disk.new) at ⊎ HasUnfitAt (D.tells disk.new) at }
    ensures titled { result ≡ Err LogFault.NotALog → ⊥ }
    ensures still { D.tells disk.new ≡ D.tells disk.old }
    ensures cause { HasLogCause (D.faults disk.old) (D.faults disk.new) result }
{
    'texts: loop {
        let at = log.place();
        let is_text = log.next(alloc, disk)?;
        if !is_text {
            return Ok(());
        }
        match redo_text(alloc, room, log.text(), made) {
            Ok(()) => {}
            Err(RedoFault::DoesNotFit) => return Err(LogFault::Damaged(at)),
            Err(RedoFault::OutOfMemory) => return Err(LogFault::OutOfMemory),
        }
    }
}
