// What the file of a database comes to.
ghost use Rattle.std.specs.Prelude.{◌≡◌, ℕ, Err, IfErr, IfOk, IfSome, None, Ok, OnErr, false, true};
ghost use Rattle.ifdb_disk.specs.Clock.{Now};
ghost use Rattle.ifdb_log.specs.Causes.{HasLogCause};
ghost use Rattle.ifdb_log.specs.Title.{IsLog, IsOther, IsSettled};
ghost use Rattle.ifdb_extract.specs.Extracts.{IsSizeOf};
ghost use Rattle.ifdb_extract.specs.Worth.{is_worth};
ghost use Rattle.ifdb_swap.specs.Swapped.{HasNoLog, IsExtractIn, IsKept, IsUnneeded, IsWorth};

use crate::When;
use ifdb_disk::Disk;
use ifdb_extract::{Extract, extract_log, is_worth};
use ifdb_log::{LogFault, Origin, damaged_has_no_texts, entitle};
use ifdb_reopen::{NotReopened, Reopened, reopen};
use std::alloc::Global;
use std::marker::Brand;

// What a file comes to that is to be compacted, or why that isn't known; and its disk.
#[derive(Drop)]
pub(crate) struct Decided<D> {
    pub(crate) extract: Result<Option<Extract>, LogFault>,
    pub(crate) disk: D,
}

// What a file comes to, or why that isn't known; and its disk.
#[derive(Drop)]
pub(crate) struct FileRead<D> {
    pub(crate) extract: Result<Extract, LogFault>,
    pub(crate) disk: D,
}

// Reads the file of a database, where it is to be compacted.
pub(crate) fn read_if<D: Disk + Drop>(alloc: Global, disk: D, when: When) -> Decided<D>
    ensures extract { IfOk result.extract (λ found. IfSome found (IsExtractIn (D.tells disk))) }
    ensures needed { IfOk result.extract (λ found. IfSome found (λ x.
        when ≡ When.IfWorth → IsWorth true (D.tells disk))) }
    ensures asked { result.extract ≡ Ok None → when ≡ When.IfWorth }
    ensures unneeded { result.extract ≡ Ok None → IsUnneeded (D.tells disk) }
    ensures kept { IsKept (D.tells disk) (D.tells result.disk) }
    ensures damaged { (at : ℕ) → result.extract ≡ Err (LogFault.Damaged at)
        → HasNoLog (D.tells disk) }
    ensures other { result.extract ≡ Err LogFault.NotALog
        → Now (D.tells disk) (λ s. IsOther s.bytes) }
    ensures cause { HasLogCause (D.faults disk) (D.faults result.disk) result.extract }
{
    let mut disk = disk;
    let Ok(size) = disk.len() else {
        return Decided {
            extract: Err(LogFault::Disk),
            disk,
        };
    };
    if when == When::IfWorth && !is_worth(size, 0) {
        return Decided {
            extract: Ok(None),
            disk,
        };
    }
    let FileRead { extract, disk } = read_log(alloc, disk);
    let extract = match extract {
        Ok(extract) => wanted(alloc, extract, size, when),
        Err(fault) => Err(fault),
    };
    Decided { extract, disk }
}

// The extract, where a file of so many bytes is to be compacted to it.
fn wanted(
    alloc: Global,
    extract: Extract,
    size: u64,
    when: When,
) -> Result<Option<Extract>, LogFault>
    ensures same { IfOk result (λ found. IfSome found (λ x. x ≡ extract)) }
    ensures needed { IfOk result (λ found. IfSome found (λ x. when ≡ When.IfWorth
        → (n : ℕ) × IsSizeOf n extract × (is_worth size n ≡ true))) }
    ensures asked { result ≡ Ok None → when ≡ When.IfWorth }
    ensures unneeded { result ≡ Ok None
        → (n : ℕ) × IsSizeOf n extract × (is_worth size n ≡ false) }
    ensures memory { OnErr result (result ≡ Err LogFault.OutOfMemory) }
{
    if when == When::IfWorth {
        let Ok(comes_to) = extract.size(alloc) else {
            return Err(LogFault::OutOfMemory);
        };
        if !is_worth(size, comes_to) {
            return Ok(None);
        }
    }
    Ok(Some(extract))
}

// Reads the file of a database, each entry of which is tested, and then gives what it comes to.
pub(crate) fn read_log<D: Disk + Drop>(alloc: Global, disk: D) -> FileRead<D>
    ensures extract { IfOk result.extract (IsExtractIn (D.tells disk)) }
    ensures kept { IsKept (D.tells disk) (D.tells result.disk) }
    ensures damaged { (at : ℕ) → result.extract ≡ Err (LogFault.Damaged at)
        → HasNoLog (D.tells disk) }
    ensures other { result.extract ≡ Err LogFault.NotALog
        → Now (D.tells disk) (λ s. IsOther s.bytes) }
    ensures cause { HasLogCause (D.faults disk) (D.faults result.disk) result.extract }
{
    let mut disk = disk;
    match entitle(&mut disk) {
        Ok(()) => read_titled::<Brand, D>(alloc, disk),
        Err(fault) => FileRead {
            extract: Err(fault),
            disk,
        },
    }
}

// The same of a disk that begins with the title.
fn read_titled<B: Origin, D: Disk + Drop>(alloc: Global, disk: D) -> FileRead<D>
    requires begun { B.begun ≡ D.tells disk }
    requires titled { IsSettled IsLog (D.tells disk) }
    ensures extract { IfOk result.extract (IsExtractIn (D.tells disk)) }
    ensures kept { IsKept (D.tells disk) (D.tells result.disk) }
    ensures damaged { (at : ℕ) → result.extract ≡ Err (LogFault.Damaged at)
        → HasNoLog (D.tells disk) }
    ensures titled { result.extract ≡ Err LogFault.NotALog → ⊥ }
    ensures cause { HasLogCause (D.faults disk) (D.faults result.disk) result.extract }
{
    damaged_has_no_texts();
    match reopen::<B, D>(alloc, disk, 0) {
        Ok(
            Reopened {
                restarted,
                mut disk,
                means,
            },
        ) => {
            drop(restarted);
            drop(means);
            let extract = extract_log(alloc, &mut disk);
            FileRead {
                extract,
                disk: disk.into_disk(),
            }
        }
        Err(NotReopened { fault, disk }) => FileRead {
            extract: Err(fault),
            disk,
        },
    }
}
