// The words of `compact`, over a folder in memory.
use super::hosts::*;
use super::*;
use ifdb_disk::MemoryDisk;
use ifdb_top::{HostStatus, MoreStatus};

const WORDS: &str = "compact --file d";

const USAGE: &str = "usage: ifdb compact --file F\n";

// A row comes and goes, three times.
const CHANGES: &str =
    "HELLO admin KEY 'sesame'\nINSERT INTO note VALUES (3)\nDELETE FROM note WHERE id = 3\nINSERT INTO note VALUES (3)\nDELETE FROM note WHERE id = 3\nINSERT INTO note VALUES (3)\nDELETE FROM note WHERE id = 3\n";

const CHANGES_REPLIES: &str = "OK\nOK 1\nOK 1\nOK 1\nOK 1\nOK 1\nOK 1\n";

const CHANGES_OUTPUT: &str =
    "LISTENING 7070\nsessions 1\nentries 9\ncommits 6\nrefused 0\nrows 1\n";

// A database that was changed by two clients.
fn changed<R: Abort + AllocGlobal + Threads + Wait + Sync>(rt: &R) -> Result<MemoryDisk, Fail> {
    let disk = disk_of(rt.alloc(), b"", None)?;
    let disk = goes_on(rt, saying(FIRST), disk, (FIRST_OUTPUT, FIRST_REPLIES))?;
    goes_on(rt, saying(CHANGES), disk, (CHANGES_OUTPUT, CHANGES_REPLIES))
}

// Compacts the database on a disk, where this call of the folder fails.
fn compacted<R: AllocGlobal + Threads + Wait + Sync>(
    rt: &R,
    words: &str,
    disk: MemoryDisk,
    fails: &[u64],
) -> Result<HostedHere, Fail> {
    let gates = gates_of(rt.alloc(), &[])?;
    let place = place_of(rt.alloc(), gates, disk, fails)?;
    run_over(rt, words, place)
}

#[test]
fn compacted_and_served_again(rt: HostRuntime) -> Result<(), Fail> {
    let disk = changed(&rt)?;
    let size = disk.bytes().len();
    let ran = compacted(&rt, WORDS, disk, &[])?;
    assert_eq!(rt; ran.end, DONE);
    assert!(rt; ran.written.is_empty());
    let short = ran.disk.bytes().len();
    assert!(rt; short < size);
    // What was compacted comes to itself.
    let ran = compacted(&rt, WORDS, ran.disk, &[])?;
    assert_eq!(rt; ran.disk.bytes().len(), short);
    goes_on(
        &rt,
        saying(SECOND),
        ran.disk,
        (SECOND_OUTPUT, SECOND_REPLIES),
    )?;
    Ok(())
}

// Each call of the folder fails in turn: the database is served as before.
#[test]
fn served_again_behind_a_fault(rt: HostRuntime) -> Result<(), Fail> {
    for call in 0..4 {
        let ran = compacted(&rt, WORDS, changed(&rt)?, &[call])?;
        assert_eq!(rt; ran.end, HostStatus::DiskFault);
        goes_on(
            &rt,
            saying(SECOND),
            ran.disk,
            (SECOND_OUTPUT, SECOND_REPLIES),
        )?;
    }
    Ok(())
}

// The bytes of the database and of the new file, and how it ends: another file, a damaged one, and a new file that is another's.
static STOPS: [(&[u8], &[u8], HostStatus); 3] = [
    (b"\x01\x09\0", b"", HostStatus::NotADatabase),
    (
        b"ifdb log 1     \n\x01\x09\0",
        b"",
        HostStatus::More(MoreStatus::Damaged(16)),
    ),
    (b"ifdb log 1     \n", b"\x01\x09\0", HostStatus::SpareTaken),
];

// Where the database and its new file hold these bytes.
fn place_with(alloc: Global, bytes: &[u8], new: &[u8]) -> Result<Place, Fail> {
    let folder = folder_of(
        alloc,
        disk_of(alloc, bytes, None)?,
        disk_of(alloc, new, None)?,
        &[],
    )?;
    let gates = gates_of(alloc, &[])?;
    Ok(Place {
        gates,
        folder,
        secrets: key_shelf(alloc)?,
    })
}

#[test]
fn what_is_left_as_it_is(rt: HostRuntime) -> Result<(), Fail> {
    for (bytes, new, end) in &STOPS {
        let ran = run_over(&rt, WORDS, place_with(rt.alloc(), bytes, new)?)?;
        assert_eq!(rt; ran.end, *end);
        assert!(rt; ran.disk.bytes().starts_with(bytes));
    }
    assert_eq!(rt; HostStatus::SpareTaken.exit_code(), 8);
    Ok(())
}

#[test]
fn no_file_is_made(rt: HostRuntime) -> Result<(), Fail> {
    let disk = disk_of(rt.alloc(), b"", None)?;
    let ran = compacted(&rt, "compact --file e", disk, &[])?;
    assert_eq!(rt; ran.end, HostStatus::DiskFault);
    assert!(rt; ran.written.is_empty());
    Ok(())
}

#[test]
fn malformed_words_of_compact(rt: HostRuntime) -> Result<(), Fail> {
    for words in [
        "compact",
        "compact d",
        "compact --file",
        "compact --file d --limit 7",
    ] {
        let ran = compacted(&rt, words, disk_of(rt.alloc(), b"", None)?, &[])?;
        assert_eq!(rt;
            ran.end,
            HostStatus::More(MoreStatus::Base(Status::Usage)),
            "{words}"
        );
        assert_eq!(rt; ran.written.as_slice(), USAGE.as_bytes(), "{words}");
    }
    Ok(())
}
