// What no clause says: that the calls succeed, and worked rows of what a crash leaves.
use ifdb_disk::*;
use ifdb_io::{Failed, OutOfMemory};
use std::alloc::Global;
use std::process::Abort;
use std::test::Fail;

// A call of a disk.
#[derive(Clone, Copy)]
enum Act {
    Write(u64, &'static str),
    Sync,
}

// Calls of a disk, and what is wanted of it.
struct Row {
    room: u64,
    calls: u64,
    fail: u64,
    acts: &'static [Act],
    // A letter for each call: `k` where it succeeds, and else `F`.
    answers: &'static str,
    bytes: &'static str,
    // What a crash leaves, where `#` stands for what may be any byte.
    crashed: &'static str,
}

// Each of them over a disk that holds `abc`.
static ROWS: [Row; 9] = [
    Row {
        room: 9,
        calls: 9,
        fail: 9,
        acts: &[],
        answers: "",
        bytes: "abc",
        crashed: "abc",
    },
    Row {
        room: 9,
        calls: 9,
        fail: 9,
        acts: &[Act::Write(1, "XYZ")],
        answers: "k",
        bytes: "aXYZ",
        crashed: "a###",
    },
    Row {
        room: 9,
        calls: 9,
        fail: 9,
        acts: &[Act::Write(1, "XYZ"), Act::Sync],
        answers: "kk",
        bytes: "aXYZ",
        crashed: "aXYZ",
    },
    Row {
        room: 9,
        calls: 9,
        fail: 9,
        acts: &[
            Act::Write(0, "X"),
            Act::Sync,
            Act::Write(2, "YZ"),
            Act::Write(4, "!"),
        ],
        answers: "kkkk",
        bytes: "XbYZ!",
        crashed: "Xb###",
    },
    // A write that was told to fail writes.
    Row {
        room: 9,
        calls: 9,
        fail: 0,
        acts: &[Act::Write(1, "X"), Act::Write(3, "Y")],
        answers: "Fk",
        bytes: "aXcY",
        crashed: "a#c#",
    },
    // A sync that fails changes nothing.
    Row {
        room: 9,
        calls: 9,
        fail: 1,
        acts: &[Act::Write(1, "X"), Act::Sync],
        answers: "kF",
        bytes: "aXc",
        crashed: "a#c",
    },
    // Past the room, and the room that is left then.
    Row {
        room: 4,
        calls: 9,
        fail: 9,
        acts: &[
            Act::Write(0, "XYZ"),
            Act::Write(3, "##"),
            Act::Write(3, "!"),
        ],
        answers: "kFk",
        bytes: "XYZ!",
        crashed: "####",
    },
    // Past the calls.
    Row {
        room: 9,
        calls: 2,
        fail: 9,
        acts: &[Act::Write(0, "X"), Act::Sync, Act::Write(0, "Y"), Act::Sync],
        answers: "kkFF",
        bytes: "Xbc",
        crashed: "Xbc",
    },
    // No room at all.
    Row {
        room: 0,
        calls: 9,
        fail: 9,
        acts: &[Act::Write(3, ""), Act::Write(0, "X"), Act::Sync],
        answers: "kFk",
        bytes: "abc",
        crashed: "abc",
    },
];

fn disk_of(alloc: Global, row: &Row) -> Result<MemoryDisk, OutOfMemory> {
    let fails = Vec::from_array(alloc, [row.fail])?;
    MemoryDisk::new(alloc, b"abc".to_vec(alloc)?, row.room, row.calls, fails)
}

// A disk that holds `abc` and has room for nine bytes and so many calls, of which none is told to fail.
fn sure_disk(alloc: Global, calls: u64) -> Result<MemoryDisk, OutOfMemory> {
    let bytes = b"abc".to_vec(alloc)?;
    MemoryDisk::new(alloc, bytes, 9, calls, Vec::new(alloc))
}

// Makes a call; a write past the end isn't made.
fn answer(disk: &mut MemoryDisk, act: Act) -> Result<(), Failed> {
    match act {
        Act::Sync => disk.sync(),
        Act::Write(at, text) => {
            if at > disk.bytes().len() as u64 {
                return Err(Failed);
            }
            disk.write(at, text.as_bytes())
        }
    }
}

// Makes all calls; a letter for each answer.
fn answers(alloc: Global, disk: &mut MemoryDisk, acts: &[Act]) -> Result<String, OutOfMemory> {
    let mut all = String::new(alloc);
    for act in acts {
        all.push_str(match answer(disk, *act) {
            Ok(()) => "k",
            Err(Failed) => "F",
        })?;
    }
    Ok(all)
}

#[test]
fn what_a_crash_leaves(rt: HostRuntime) -> Result<(), Fail> {
    for (number, row) in ROWS.iter().enumerate() {
        is_left(&rt, rt.alloc(), number, row)?;
    }
    Ok(())
}

fn is_left(rt: &impl Abort, alloc: Global, number: usize, row: &Row) -> Result<(), OutOfMemory> {
    let mut disk = disk_of(alloc, row)?;
    are_answered(rt, alloc, &mut disk, row.acts, row.answers)?;
    assert_eq!(rt; disk.bytes(), row.bytes.as_bytes(), "in row {number}");
    let left = disk.crash(b'#');
    assert_eq!(rt; left.bytes(), row.crashed.as_bytes(), "in row {number}");
    Ok(())
}

// Tests what calls answer.
fn are_answered(
    rt: &impl Abort,
    alloc: Global,
    disk: &mut MemoryDisk,
    acts: &[Act],
    want: &str,
) -> Result<(), OutOfMemory> {
    let got = answers(alloc, disk, acts)?;
    assert_eq!(rt; got.as_str(), want, "of {} calls", acts.len());
    Ok(())
}

// A disk of three bytes and four calls, all of which are told to fail.
fn failing_disk(alloc: Global) -> Result<MemoryDisk, OutOfMemory> {
    let fails = Vec::from_array(alloc, [0, 1, 2, 3])?;
    MemoryDisk::new(alloc, Vec::new(alloc), 3, 4, fails)
}

// After a crash the room and the calls that are left are there, and nothing that was told to fail.
#[test]
fn goes_on_after_a_crash(rt: HostRuntime) -> Result<(), Fail> {
    let mut disk = failing_disk(rt.alloc())?;
    let acts = [Act::Write(0, "x"), Act::Sync];
    are_answered(&rt, rt.alloc(), &mut disk, &acts, "FF")?;
    let mut left = disk.crash(b'y');
    assert_eq!(rt; left.bytes(), b"y".as_slice());
    let acts = [Act::Write(1, "zz"), Act::Sync, Act::Sync];
    are_answered(&rt, rt.alloc(), &mut left, &acts, "kkF")?;
    let at_last = left.crash(b'?');
    assert_eq!(rt; at_last.bytes(), b"yzz".as_slice());
    Ok(())
}

// The length of a disk, and how many bytes a read from a place on gives.
fn look<D: Disk>(disk: &mut D, at: u64, buffer: &mut [u8]) -> Result<(u64, usize), Failed> {
    Ok((disk.len()?, disk.read(at, buffer)?))
}

#[test]
fn what_a_read_gives(rt: HostRuntime) -> Result<(), Fail> {
    let mut disk = sure_disk(rt.alloc(), 9)?;
    let mut buffer = *b"....";
    for (at, size, want, text) in [
        (0, 4, 3, b"abc."),
        (1, 1, 1, b"bbc."),
        (1, 0, 0, b"bbc."),
        (2, 3, 1, b"cbc."),
        (3, 4, 0, b"cbc."),
        (u64::MAX, 4, 0, b"cbc."),
    ] {
        let found = look(&mut disk, at, &mut buffer[..size]);
        assert_eq!(rt; found, Ok((3, want)), "at {at}");
        assert_eq!(rt; buffer.as_slice(), text.as_slice(), "at {at}");
    }
    Ok(())
}

#[test]
fn written_through(rt: HostRuntime) -> Result<(), Fail> {
    let mut disk = sure_disk(rt.alloc(), 3)?;
    assert_eq!(rt; write_through(&mut disk, 0, b"xy"), Ok(()));
    assert_eq!(rt; write_through(&mut disk, 0, b"z"), Err(Failed));
    assert_eq!(rt; disk.bytes(), b"zyc".as_slice());
    let left = disk.crash(b'#');
    assert_eq!(rt; left.bytes(), b"#yc".as_slice());
    Ok(())
}

// Opens a disk and hands it back, at most three times. How often that failed before.
fn opened<H: Shelf>(shelf: &mut H) -> u64 {
    let mut failures: u64 = 0;
    for _ in 0..3 {
        match shelf.open("journal") {
            Ok(disk) => {
                shelf.close(disk);
                return failures;
            }
            Err(Failed) => failures = failures.saturating_add(1),
        }
    }
    failures
}

// A shelf with one disk, which fails at this call.
fn shelf_of(alloc: Global, fail: u64) -> Result<MemoryShelf, OutOfMemory> {
    let fails = Vec::from_array(alloc, [fail])?;
    let disk = sure_disk(alloc, 9)?;
    Ok(MemoryShelf::new(disk, fails))
}

#[test]
fn one_disk_of_a_shelf(rt: HostRuntime) -> Result<(), Fail> {
    for (fail, failures) in [(9, 0), (0, 1)] {
        let mut shelf = shelf_of(rt.alloc(), fail)?;
        assert_eq!(rt; opened(&mut shelf), failures, "where call {fail} fails");
        assert_eq!(rt; opened(&mut shelf), 3, "behind it");
        let back = shelf.back().expect(&rt, "the disk came back");
        assert_eq!(rt; back.bytes(), b"abc".as_slice());
    }
    Ok(())
}
