// The extract of a log.
ghost use Rattle.std.specs.Prelude.{◌≡◌, ◌⊎◌, ℕ, [], Err, IfOk, OnOk};
ghost use Rattle.ifdb_disk.specs.Clock.{Leaves};
ghost use Rattle.ifdb_journal.specs.Reading.{IsOldOrShort, SpellsSame};
ghost use Rattle.ifdb_log.specs.Causes.{HasLogCause};
ghost use Rattle.ifdb_log.specs.Reading.{HasRead, IsDamaged};
ghost use Rattle.ifdb_extract.specs.Texts.{HasBrokenAt, IsExtractOf, extract_of};

use crate::Extract;
use ifdb_disk::Disk;
use ifdb_log::{Log, LogFault};
use ifdb_redo::ReadFault;
use std::alloc::Global;

/// Reads a log to its end, and gives what it comes to. The disk is what lies behind the log's title. It isn't tested whether an
/// entry fits those before it: `ifdb_restart::restart` does that. Takes the memory of the rows, of the public changes, and of
/// the longest record.
///
/// # Errors
/// `Damaged` with the byte of the file where no record stands behind an open gate, or one that is no piece of a text, or a text
/// that is no redo record. `Disk` where the disk failed; `OutOfMemory`.
pub fn extract_log<D: Disk>(alloc: Global, disk: &mut D) -> Result<Extract, LogFault>
    ensures extract { IfOk result (λ x. IsExtractOf (D.tells disk.new) x) }
    ensures same { OnOk result (SpellsSame (D.tells disk.old) (D.tells disk.new)) }
    ensures still { (at : ℕ) → result ≡ Err (LogFault.Damaged at)
        → SpellsSame (D.tells disk.old) (D.tells disk.new) }
    ensures damaged { (at : ℕ) → result ≡ Err (LogFault.Damaged at)
        → IsDamaged (D.tells disk.new) at ⊎ HasBrokenAt (D.tells disk.new) at }
    ensures titled { result ≡ Err LogFault.NotALog → ⊥ }
    ensures moments { Leaves (D.tells disk.old) (D.tells disk.new)
        (IsOldOrShort (D.tells disk.old)) }
    ensures cause { HasLogCause (D.faults disk.old) (D.faults disk.new) result }
{
    let Ok(mut extract) = Extract::new(alloc) else {
        return Err(LogFault::OutOfMemory);
    };
    let mut log = Log::start(alloc, disk)?;
    take_all(alloc, &mut extract, &mut log, disk)?;
    Ok(extract)
}

// Takes in all texts of a log, to its end.
fn take_all<D: Disk>(
    alloc: Global,
    extract: &mut Extract,
    log: &mut Log,
    disk: &mut D,
) -> Result<(), LogFault>
    requires begun { HasRead (D.tells disk.old) [] log.old.place }
    requires none { extract.old ≡ extract_of [] }
    ensures extract { OnOk result (IsExtractOf (D.tells disk.new) extract.new) }
    ensures damaged { (at : ℕ) → result ≡ Err (LogFault.Damaged at)
        → IsDamaged (D.tells disk.new) at ⊎ HasBrokenAt (D.tells disk.new) at }
    ensures titled { result ≡ Err LogFault.NotALog → ⊥ }
    ensures still { D.tells disk.new ≡ D.tells disk.old }
    ensures cause { HasLogCause (D.faults disk.old) (D.faults disk.new) result }
{
    'texts: loop {
        let at = log.place();
        let is_text = log.next(alloc, disk)?;
        if !is_text {
            return Ok(());
        }
        match extract.take(alloc, log.text()) {
            Ok(()) => {}
            Err(ReadFault::Broken) => return Err(LogFault::Damaged(at)),
            Err(ReadFault::OutOfMemory) => return Err(LogFault::OutOfMemory),
        }
    }
}
