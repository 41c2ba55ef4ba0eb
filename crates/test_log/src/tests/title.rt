// The title of new disks, of logs and of other files.
use super::behind::begin;
use ifdb_disk::MemoryDisk;
use ifdb_io::OutOfMemory;
use ifdb_journal::{Journal, JournalFault, RecordKind};
use ifdb_log::{LogFault, entitle};
use std::alloc::Global;
use std::process::Abort;
use std::test::Fail;

pub(super) const TITLE: &[u8] = b"ifdb log 1     \n";

// A disk of these bytes that fails at this call.
fn failing_disk(alloc: Global, bytes: &[u8], fail: u64) -> Result<MemoryDisk, OutOfMemory> {
    let fails = Vec::from_array(alloc, [fail])?;
    MemoryDisk::new(alloc, bytes.to_vec(alloc)?, 1000, 1000, fails)
}

// A disk of these bytes.
pub(super) fn disk_of(alloc: Global, bytes: &[u8]) -> Result<MemoryDisk, OutOfMemory> {
    MemoryDisk::new(alloc, bytes.to_vec(alloc)?, 1000, 1000, Vec::new(alloc))
}

#[test]
fn new_disks_get_it(rt: HostRuntime) -> Result<(), Fail> {
    for bytes in ["", "x", "\0", "\0a", "\0behind a gate.."] {
        let mut disk = disk_of(rt.alloc(), bytes.as_bytes())?;
        let answer = entitle(&mut disk);
        assert_eq!(rt; answer, Ok(()), "{bytes}");
        assert_eq!(rt; disk.bytes(), TITLE, "{bytes}");
    }
    Ok(())
}

#[test]
fn logs_stay(rt: HostRuntime) -> Result<(), Fail> {
    for first in [1, b'i', 255] {
        for behind in ["", "\0", "anything"] {
            let mut bytes = TITLE.to_vec(rt.alloc())?;
            bytes.extend_from_slice(behind.as_bytes())?;
            if let Some(byte) = bytes.first_mut() {
                *byte = first;
            }
            let mut disk = disk_of(rt.alloc(), &bytes)?;
            let answer = entitle(&mut disk);
            assert_eq!(rt; answer, Ok(()), "{first} {behind}");
            assert_eq!(rt; disk.bytes(), bytes.as_slice(), "{first} {behind}");
        }
    }
    Ok(())
}

// Tests that a disk is refused, and that no byte of it has changed.
fn is_refused(rt: &impl Abort, alloc: Global, bytes: &[u8]) -> Result<(), Fail> {
    let mut disk = disk_of(alloc, bytes)?;
    let answer = entitle(&mut disk);
    assert_eq!(rt; answer, Err(LogFault::NotALog));
    assert_eq!(rt; disk.bytes(), bytes);
    let crashed = disk.crash(255);
    assert_eq!(rt; crashed.bytes(), bytes);
    Ok(())
}

#[test]
fn others_are_refused(rt: HostRuntime) -> Result<(), Fail> {
    for bytes in [
        "ab",
        "ifdb log 1     ",
        "\0ifdb log 1     \n",
        "ifdb log 2     \n",
        "a text of some length",
    ] {
        is_refused(&rt, rt.alloc(), bytes.as_bytes())?;
    }
    Ok(())
}

#[test]
fn each_byte_of_the_title_counts(rt: HostRuntime) -> Result<(), Fail> {
    for place in 1..16 {
        let mut bytes = TITLE.to_vec(rt.alloc())?;
        bytes.extend_from_slice(b"behind")?;
        if let Some(byte) = bytes.get_mut(place) {
            *byte = byte.wrapping_add(1);
        }
        is_refused(&rt, rt.alloc(), &bytes)?;
    }
    Ok(())
}

#[test]
fn journals_are_refused(rt: HostRuntime) -> Result<(), Fail> {
    let mut disk = disk_of(rt.alloc(), b"")?;
    let mut journal = begin(rt.alloc(), &mut disk)?;
    journal.append(&mut disk, RecordKind::Open, 0, b"")?;
    is_refused(&rt, rt.alloc(), disk.bytes())
}

#[test]
fn a_journal_is_damaged_there(rt: HostRuntime) -> Result<(), Fail> {
    let mut disk = disk_of(rt.alloc(), TITLE)?;
    let mut journal = Journal::start(rt.alloc(), &mut disk)?;
    let answer = journal.next(rt.alloc(), &mut disk);
    assert!(rt; matches!(answer, Err(JournalFault::Damaged(0))));
    assert_eq!(rt; disk.bytes(), TITLE);
    Ok(())
}

#[test]
fn each_call_fails(rt: HostRuntime) -> Result<(), Fail> {
    for bytes in ["", "x", "\0ab"] {
        for fail in 0..8 {
            for fill in [0, 1, 255] {
                let mut disk = failing_disk(rt.alloc(), bytes.as_bytes(), fail)?;
                let first = entitle(&mut disk);
                let mut crashed = disk.crash(fill);
                let second = entitle(&mut crashed);
                assert_eq!(rt; second, Ok(()), "{fill} behind call {fail}");
                let wanted = first.is_err() || crashed.bytes() == TITLE;
                assert!(rt; wanted, "{fill} behind call {fail}");
                assert_eq!(rt;
                    &crashed.bytes()[1..],
                    &TITLE[1..],
                    "{fill} behind call {fail}"
                );
            }
        }
    }
    Ok(())
}
