// The file of a compacted log.
ghost use Rattle.std.specs.Prelude.{◌≡◌, ℕ, Err, OnErr, OnOk};
ghost use Rattle.ifdb_disk.specs.Clock.{Now};
ghost use Rattle.ifdb_log.specs.Title.{IsLog, IsOther, IsSettled};
ghost use Rattle.ifdb_reopen.specs.Files.{IsTold, IsUnopened};
ghost use Rattle.ifdb_swap.specs.Causes.{HasSpareCause};
ghost use Rattle.ifdb_swap.specs.Swapped.{HoldsFileOf, IsOtherOn};

use crate::SpareFault;
use ifdb_disk::Disk;
use ifdb_extract::{Extract, WriteFault};
use ifdb_log::{Behind, LogFault, Origin, TITLE_SIZE, entitle};
use std::alloc::Global;
use std::marker::Brand;

// Whether a file was written, and its disk.
#[derive(Drop)]
pub(crate) struct Written<D> {
    pub(crate) result: Result<(), SpareFault>,
    pub(crate) disk: D,
}

// Writes the file of a log that comes to this, on a disk that is new or has a log, which is gone then. Any other is left as it is.
pub(crate) fn write_log<D: Disk + Drop>(alloc: Global, extract: &Extract, disk: D) -> Written<D>
    ensures written { OnOk result.result (IsTold (D.tells disk)
        → HoldsFileOf (D.tells result.disk) extract.now) }
    ensures own { OnOk result.result (IsOtherOn (D.tells disk) → ⊥) }
    ensures others { OnErr result.result (IsOtherOn (D.tells disk)
        → IsUnopened (D.tells disk) (D.tells result.disk)) }
    ensures taken { result.result ≡ Err SpareFault.NotALog
        → Now (D.tells disk) (λ s. IsOther s.bytes) }
    ensures cause { HasSpareCause (D.faults disk) (D.faults result.disk) result.result }
{
    let mut disk = disk;
    match entitle(&mut disk) {
        Ok(()) => write_titled::<Brand, D>(alloc, extract, disk),
        Err(fault) => Written {
            result: Err(title_fault(fault)),
            disk,
        },
    }
}

// The same of a disk that begins with the title.
fn write_titled<B: Origin, D: Disk + Drop>(alloc: Global, extract: &Extract, disk: D) -> Written<D>
    requires begun { B.begun ≡ D.tells disk }
    requires titled { IsSettled IsLog (D.tells disk) }
    ensures written { OnOk result.result (IsTold (D.tells disk)
        → HoldsFileOf (D.tells result.disk) extract.now) }
    ensures own { result.result ≡ Err SpareFault.NotALog → ⊥ }
    ensures cause { HasSpareCause (D.faults disk) (D.faults result.disk) result.result }
{
    let mut behind: Behind<B, D> = Behind::new(disk, TITLE_SIZE);
    let result = match extract.write(alloc, &mut behind) {
        Ok(()) => Ok(()),
        Err(WriteFault::Disk) => Err(SpareFault::Disk),
        Err(WriteFault::OutOfMemory) => Err(SpareFault::OutOfMemory),
    };
    Written {
        result,
        disk: behind.into_disk(),
    }
}

// Why a disk has no title.
fn title_fault(fault: LogFault) -> SpareFault
    requires { (at : ℕ) → fault ≡ LogFault.Damaged at → ⊥ }
    ensures disk { result ≡ SpareFault.Disk → fault ≡ LogFault.Disk }
    ensures other { result ≡ SpareFault.NotALog → fault ≡ LogFault.NotALog }
    ensures memory { result ≡ SpareFault.OutOfMemory → fault ≡ LogFault.OutOfMemory }
{
    match fault {
        LogFault::Disk | LogFault::Damaged(_) => SpareFault::Disk,
        LogFault::NotALog => SpareFault::NotALog,
        LogFault::OutOfMemory => SpareFault::OutOfMemory,
    }
}
