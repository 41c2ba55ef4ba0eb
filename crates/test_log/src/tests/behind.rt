// What lies behind a title, as a disk of its own.
ghost use Rattle.std.specs.Prelude.{◌≡◌, IfOk, Some};
ghost use Rattle.ifdb_disk.specs.Memory.{clock_of};
ghost use Rattle.ifdb_journal.specs.Reading.{IsReady};
ghost use Rattle.ifdb_log.specs.Behind.{HasFront};

use super::title::{TITLE, disk_of};
use ifdb_disk::{Disk, MemoryDisk};
use ifdb_journal::{Journal, JournalFault, RecordKind};
use ifdb_log::{Behind, Origin, TITLE_SIZE, entitle};
use std::alloc::Global;
use std::marker::Brand;
use std::process::Abort;
use std::test::Fail;

// Begins the journal of a disk that has none.
pub(super) fn begin<D: Disk>(alloc: Global, disk: &mut D) -> Result<Journal, JournalFault>
    ensures { IfOk result (λ journal. IsReady (D.tells disk.new) journal.at) }
{
    let mut journal = Journal::start(alloc, disk)?;
    let Some(_) = journal.next(alloc, disk)? else {
        return Ok(journal);
    };
    Err(JournalFault::Disk)
}

// Adds a record to the journal that lies behind a title.
fn add_behind<B: Origin>(alloc: Global, disk: MemoryDisk, line: &[u8]) -> Result<MemoryDisk, Fail>
    requires begun { B.begun ≡ Some (clock_of disk) }
    requires front { HasFront 16 (Some (clock_of disk)) }
{
    let mut behind: Behind<B, MemoryDisk> = Behind::new(disk, TITLE_SIZE);
    let mut journal = begin(alloc, &mut behind)?;
    if RecordKind::Ask.allows(0, line) {
        journal.append(&mut behind, RecordKind::Ask, 0, line)?;
    }
    Ok(behind.into_disk())
}

#[test]
fn a_journal_lies_behind_it(rt: HostRuntime) -> Result<(), Fail> {
    let mut disk = disk_of(rt.alloc(), b"")?;
    entitle(&mut disk)?;
    let disk = add_behind::<Brand>(rt.alloc(), disk, b"some line")?;
    let mut bytes = TITLE.to_vec(rt.alloc())?;
    bytes.extend_from_slice(b"\x01\x02\0\0\0\0\0\0\0\0\0\0\0\x09some line\0")?;
    assert_eq!(rt; disk.bytes(), bytes.as_slice());
    Ok(())
}
