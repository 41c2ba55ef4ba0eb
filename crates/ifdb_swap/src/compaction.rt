// A database of a folder, compacted in its place.
ghost use Rattle.std.specs.Prelude.{◌≡◌, ◌≢◌, ◌≤◌, length};
ghost use Rattle.ifdb_folder.specs.Folders.{GivesBoth};
ghost use Rattle.ifdb_swap.specs.Folders.{Compacts};

use crate::reading::{Decided, read_if};
use crate::writing::{Written, write_log};
use crate::{CompactFault, When};
use ifdb_compact::compacted_texts_restore;
use ifdb_folder::Folder;
use ifdb_io::Failed;
use std::alloc::Global;

/// Compacts the database of a name to the disk of another name, which then takes its place: all public changes in their order, as
/// they were recorded, and then all rows. Both are taken until then. Tells whether it was compacted.
///
/// The other name's disk is new, or what an earlier call left that was cut short; it's taken only where there is something to be
/// written. Each entry of the database is made again, and so tested, before the log is read a second time. Takes the memory of the
/// rows once, of the longest record, and 2 MiB.
///
/// # Errors
/// `Folder` where a disk wasn't given, or the new one didn't get the name. `Read` where the database wasn't read: `Damaged` and
/// `NotALog` only where it has no file of a log. `Write` where the new file wasn't written: `NotALog` where the other name's disk
/// holds anything else. The database of the name is as it was or, behind a `Folder` of the last step, it may be the compacted one.
pub fn compact_in<F: Folder>(
    alloc: Global,
    folder: &mut F,
    name: &str,
    spare: &str,
    when: When,
) -> Result<bool, CompactFault>
where
    F::Disk: Drop,
    requires name { (1 ≤ length name.now) × (length name.now ≤ 255) }
    requires spare { (1 ≤ length spare.now) × (length spare.now ≤ 255) }
    requires apart { spare.now ≢ name.now }
    ensures { Compacts F.Disk.tells F.Disk.faults when name.now spare.now
        (F.tells folder.old) (F.tells folder.new) (F.faults folder.old) (F.faults folder.new) result }
{
    compacted_texts_restore();
    let old = folder.take(name)?;
    let Decided { extract, disk: old } = read_if(alloc, old, when);
    let extract = match extract {
        Ok(Some(extract)) => extract,
        Ok(None) => {
            folder.give(name, old);
            return Ok(false);
        }
        Err(fault) => {
            folder.give(name, old);
            return Err(CompactFault::Read(fault));
        }
    };
    let new = match folder.take(spare) {
        Ok(new) => new,
        Err(Failed) => {
            folder.give(name, old);
            return Err(CompactFault::Folder);
        }
    };
    let Written { result, disk: new } = write_log(alloc, &extract, new);
    match result {
        Ok(()) => {
            folder.replace(spare, new, name, old)?;
            Ok(true)
        }
        Err(fault) => {
            give_both(folder, name, old, spare, new);
            Err(CompactFault::Write(fault))
        }
    }
}

// Gives both disks back.
fn give_both<F: Folder>(folder: &mut F, name: &str, old: F::Disk, spare: &str, new: F::Disk)
    requires name { (1 ≤ length name.now) × (length name.now ≤ 255) }
    requires spare { (1 ≤ length spare.now) × (length spare.now ≤ 255) }
    ensures given { GivesBoth spare.now new name.now old
        (F.tells folder.old) (F.tells folder.new) }
    ensures faults { F.faults folder.new ≡ F.faults folder.old }
{
    folder.give(spare, new);
    folder.give(name, old);
}
