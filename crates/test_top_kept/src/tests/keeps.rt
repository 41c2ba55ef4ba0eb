// The words of `keep`, over a shelf with one disk in memory.
use super::*;
use ifdb_io::Failed;

// A table is made, a row inserted, and another in a transaction that stays open.
const FIRST: &str =
    "OPEN\n1 HELLO admin KEY 'admin'\n1 CREATE TABLE note (id INT, PRIMARY KEY (id))\n1 INSERT INTO note VALUES (1)\n1 BEGIN\n1 INSERT INTO note VALUES (2)\n";

const FIRST_REPLIES: &str = "1 OPEN\n1 OK\n1 OK\n1 OK 1\n1 OK\n1 OK 1\n";

// What is there is looked at.
const SECOND: &str = "OPEN\n1 HELLO admin KEY 'admin'\n1 SELECT id FROM note\n";

const SECOND_REPLIES: &str = "1 OPEN\n1 OK\n1 ROWS 1 1\n1 1\n";

const USAGE: &str = "usage: ifdb keep --file F [--limit N]\n";

// How a call of the program ended, what was written for it, and the disk that came back to the shelf.
#[derive(Drop)]
struct Kept {
    end: MoreStatus,
    written: Vec<u8>,
    back: Option<MemoryDisk>,
}

// Calls the program with these words over a script, and a shelf that gives this disk, but at these calls of `open`.
fn run_kept<R: AllocGlobal + Threads + Wait + Sync>(
    rt: &R,
    words: &str,
    script: &str,
    disk: MemoryDisk,
    fails: Option<u64>,
) -> Result<Kept, Fail> {
    let words = words_of(rt.alloc(), words)?;
    let mut input = source(rt.alloc(), script.as_bytes(), all_of(64))?;
    let mut output = sink(rt.alloc(), all_of(64))?;
    let mut site = MemorySite::<MemoryLink>::new(
        rt.alloc(),
        Vec::new(rt.alloc()),
        Vec::new(rt.alloc()),
    );
    let mut shelf = MemoryShelf::new(disk, failing(rt.alloc(), fails)?);
    let end = top_more(rt, &words, &mut input, &mut output, &mut site, &mut shelf);
    let written = Vec::from_slice(rt.alloc(), output.bytes())?;
    Ok(Kept {
        end,
        written,
        back: shelf.back(),
    })
}

// A disk of these bytes, which fails at this one of its calls.
fn disk_of(alloc: Global, bytes: &[u8], fails: Option<u64>) -> Result<MemoryDisk, Fail> {
    let bytes = Vec::from_slice(alloc, bytes)?;
    Ok(MemoryDisk::new(alloc, bytes, 1000, 1000, failing(alloc, fails)?)?)
}

// Calls the program over a disk of these bytes, and compares how it ended and what was written. Whether the disk came back.
fn keeps<R: Abort + AllocGlobal + Threads + Wait + Sync>(
    rt: &R,
    words: &str,
    bytes: &[u8],
    refused: Option<u64>,
    (end, written): (MoreStatus, &[u8]),
) -> Result<bool, Fail> {
    let disk = disk_of(rt.alloc(), bytes, None)?;
    let ran = run_kept(rt, words, FIRST, disk, refused)?;
    assert_eq!(rt; ran.end, end, "{words}");
    assert_eq!(rt; ran.written.as_slice(), written, "{words}");
    Ok(ran.back.is_some())
}

// Runs a script over a disk, and compares what is written and how many bytes the disk has then.
fn goes_on<R: Abort + AllocGlobal + Threads + Wait + Sync>(
    rt: &R,
    (words, script): (&str, &str),
    disk: MemoryDisk,
    (written, length): (&str, usize),
) -> Result<MemoryDisk, Fail> {
    let ran = run_kept(rt, words, script, disk, None)?;
    assert_eq!(rt; ran.end, MoreStatus::Base(Status::Done));
    assert_eq!(rt; ran.written.as_slice(), written.as_bytes());
    let disk = ran.back.ok_or(Failed)?;
    assert_eq!(rt; disk.bytes().len(), length);
    Ok(disk)
}

#[test]
fn kept_and_read_back(rt: HostRuntime) -> Result<(), Fail> {
    let disk = disk_of(rt.alloc(), b"", None)?;
    let first = ("keep --file j", FIRST);
    let disk = goes_on(&rt, first, disk, (FIRST_REPLIES, 211))?;
    let second = ("keep --limit 100 --file=j", SECOND);
    goes_on(&rt, second, disk, (SECOND_REPLIES, 276))?;
    Ok(())
}

// Which call of the disk fails at the third record, which makes the table; what a crash then leaves of each byte that isn't
// synced; and what the second script is told, and how many bytes the disk has: without that record, or with it.
static CRASHES: [(u64, u8, &str, usize); 3] = [
    (12, 255, "1 OPEN\n1 OK\n1 ERR 6 UnknownName\n", 117),
    (13, 0, "1 OPEN\n1 OK\n1 ERR 6 UnknownName\n", 117),
    (13, 255, "1 OPEN\n1 OK\n1 ROWS 0 1\n", 175),
];

// What a crash leaves of the disk behind a first script, at whose third record it fails.
fn crashed<R: Abort + AllocGlobal + Threads + Wait + Sync>(
    rt: &R,
    fails: u64,
    fill: u8,
) -> Result<MemoryDisk, Fail> {
    let disk = disk_of(rt.alloc(), b"", Some(fails))?;
    let ran = run_kept(rt, "keep --file j", FIRST, disk, None)?;
    assert_eq!(rt; ran.end, MoreStatus::DiskFault);
    assert_eq!(rt; ran.written.as_slice(), b"1 OPEN\n1 OK\n".as_slice());
    let disk = ran.back.ok_or(Failed)?;
    Ok(disk.crash(fill))
}

#[test]
fn a_crash_leaves_whole_records(rt: HostRuntime) -> Result<(), Fail> {
    for (fails, fill, replies, length) in &CRASHES {
        let disk = crashed(&rt, *fails, *fill)?;
        goes_on(&rt, ("keep --file j", SECOND), disk, (replies, *length))?;
    }
    Ok(())
}

// Words, the disk's bytes, which call of the shelf gives no disk, how it ends, what is written, and whether the disk comes back:
// the journal is damaged, there is no disk, and the script is too large.
static STOPS: [(&str, &[u8], Option<u64>, MoreStatus, &[u8], bool); 3] = [
    (
        "keep --file j",
        b"\x01\x09\0",
        None,
        MoreStatus::Damaged(0),
        b"",
        true,
    ),
    (
        "keep --file j",
        b"",
        Some(0),
        MoreStatus::DiskFault,
        b"",
        false,
    ),
    (
        "keep --file j --limit 5",
        b"",
        None,
        MoreStatus::Base(Status::TooLarge),
        b"1 OPEN\n",
        true,
    ),
];

#[test]
fn what_stops_it(rt: HostRuntime) -> Result<(), Fail> {
    for (words, disk, refused, end, written, back) in &STOPS {
        let is_back = keeps(&rt, words, disk, *refused, (*end, written))?;
        assert_eq!(rt; is_back, *back, "{words}");
    }
    assert_eq!(rt; MoreStatus::DiskFault.exit_code(), 7);
    assert_eq!(rt; MoreStatus::Damaged(0).exit_code(), 8);
    Ok(())
}

#[test]
fn malformed_words_of_keep(rt: HostRuntime) -> Result<(), Fail> {
    for words in [
        "keep",
        "keep j",
        "keep --limit 9",
        "keep --file",
        "keep --file=",
        "keep --file j --limit 0",
        "keep --file j --file k",
        "keep --file j k",
    ] {
        let end = (MoreStatus::Base(Status::Usage), USAGE.as_bytes());
        let is_back = keeps(&rt, words, b"", None, end)?;
        assert!(rt; !is_back, "{words}");
    }
    Ok(())
}
