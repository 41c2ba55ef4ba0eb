// Worked rows.
use super::support::{
    Row, add_all, add_batches, batches_of, begin_and_add, disk_of, empty_disk, first_texts,
    read_all, reads_as, texts_of,
};
use ifdb_disk::MemoryDisk;
use ifdb_io::OutOfMemory;
use ifdb_journal::{Batch, RecordKind};
use std::alloc::Global;
use std::process::Abort;
use std::test::Fail;

#[test]
fn written_and_read_back(rt: HostRuntime) -> Result<(), Fail> {
    let alloc = rt.alloc();
    let mut disk = empty_disk(alloc, 1000)?;
    assert_eq!(rt; begin_and_add(alloc, &mut disk)?, 6);
    assert_eq!(rt; disk.bytes().len(), 211);
    let front = b"\x01\x01\0\0\0\0\0\0\0\0\0\0\0\0\x01\x02\0\0\0\0\0\0\0\x01\0\0\0\x17HELLO";
    assert!(rt; disk.bytes().starts_with(front));
    let six = first_texts(alloc, 6)?;
    reads_as(&rt, alloc, disk.bytes(), six.as_str())?;
    go_on(&rt, alloc, &mut disk)
}

// Tests that records are added behind those that were read.
fn go_on(rt: &impl Abort, alloc: Global, disk: &mut MemoryDisk) -> Result<(), Fail> {
    let more: [Row; 3] = [
        (RecordKind::Restart, 0, ""),
        (RecordKind::Open, 0, ""),
        (RecordKind::Ask, 2, "HELLO admin KEY 'admin'"),
    ];
    assert_eq!(rt; read_and_add(alloc, disk, &more)?, 3);
    assert_eq!(rt; disk.bytes().len(), 276);
    let all = texts_of(alloc, disk)?;
    assert!(rt; all.ends_with("(2)]\nRestart 0 []\nOpen 0 []\nAsk 2 [HELLO admin KEY 'admin']\n"));
    Ok(())
}

// Reads a journal and adds records. How many were added.
fn read_and_add(alloc: Global, disk: &mut MemoryDisk, rows: &[Row]) -> Result<usize, Fail> {
    let mut texts = String::new(alloc);
    let mut journal = read_all(alloc, disk, &mut texts)?;
    Ok(add_all(&mut journal, disk, rows))
}

// The bytes of a disk, and what is read of it.
static READ: [(&str, &str); 14] = [
    ("", ""),
    ("\0", ""),
    ("\x01", ""),
    ("\0\x01\x09", ""),
    ("\x01\x09\0", "the journal is damaged at byte 0\n"),
    (
        "\x01\x01\0\0\0\0\0\0\0\0\0\0\0\0",
        "the journal is damaged at byte 0\n",
    ),
    ("\x01\x01\0\0\0\0\0\0\0\0\0\0\0\0\0", "Open 0 []\n"),
    // Any gate but 0 is open.
    ("\x7f\x01\0\0\0\0\0\0\0\0\0\0\0\0\0", "Open 0 []\n"),
    (
        "\x01\x04\0\0\0\0\0\0\0\0\0\0\0\0\0",
        "the journal is damaged at byte 0\n",
    ),
    // An Open has session 0 and no line, an Ask any.
    (
        "\x01\x01\0\0\0\0\0\0\0\x01\0\0\0\0\0",
        "the journal is damaged at byte 0\n",
    ),
    (
        "\x01\x03\0\0\0\0\0\0\0\0\0\0\0\x01x\0",
        "the journal is damaged at byte 0\n",
    ),
    ("\x01\x02\0\0\0\0\0\0\x01\x02\0\0\0\x01x\0", "Ask 258 [x]\n"),
    (
        "\x01\x02\0\0\0\0\0\0\0\x01\0\x01\0\0x\0",
        "the journal is damaged at byte 0\n",
    ),
    (
        "\x01\x03\0\0\0\0\0\0\0\0\0\0\0\0\x01\x03",
        "Restart 0 []\nthe journal is damaged at byte 14\n",
    ),
];

#[test]
fn ends_and_damage(rt: HostRuntime) -> Result<(), Fail> {
    for (bytes, want) in &READ {
        reads_as(&rt, rt.alloc(), bytes.as_bytes(), want)?;
    }
    Ok(())
}

// A disk that has at most 1 byte gets a closed gate.
#[test]
fn short_disks_begin(rt: HostRuntime) -> Result<(), Fail> {
    let alloc = rt.alloc();
    for bytes in ["", "\0", "\x01"] {
        let mut disk = disk_of(alloc, bytes.as_bytes())?;
        let texts = texts_of(alloc, &mut disk)?;
        assert_eq!(rt; texts.as_str(), "");
        assert_eq!(rt; disk.bytes(), b"\0".as_slice());
        let left = disk.crash(b'#');
        assert_eq!(rt; left.bytes(), b"\0".as_slice());
    }
    Ok(())
}

// Lines of `x` as records of session 7, as bytes.
fn long_lines(alloc: Global, lengths: &[u32]) -> Result<Vec<u8>, OutOfMemory> {
    let mut bytes = Vec::new(alloc);
    for length in lengths {
        bytes.extend_from_slice(b"\x01\x02\0\0\0\0\0\0\0\x07")?;
        bytes.extend_from_slice(&length.to_be_bytes())?;
        for _ in 0..*length {
            bytes.push(b'x')?;
        }
    }
    bytes.push(0)?;
    Ok(bytes)
}

// Records across the ends of what is read at a time.
#[test]
fn long_records(rt: HostRuntime) -> Result<(), Fail> {
    let alloc = rt.alloc();
    let bytes = long_lines(
        alloc,
        &[
            65_535, 0, 65_535, 65_535, 3, 65_000, 600, 65_521, 65_522, 200,
        ],
    )?;
    let want = "Ask 7 65535\nAsk 7 []\nAsk 7 65535\nAsk 7 65535\nAsk 7 [xxx]\n\
        Ask 7 65000\nAsk 7 600\nAsk 7 65521\nAsk 7 65522\nAsk 7 200\n";
    reads_as(&rt, alloc, &bytes, want)
}

#[test]
fn a_line_is_too_long(rt: HostRuntime) -> Result<(), Fail> {
    let bytes = long_lines(rt.alloc(), &[65_535, 65_536])?;
    let want = "Ask 7 65535\nthe journal is damaged at byte 65549\n";
    reads_as(&rt, rt.alloc(), &bytes, want)
}

// Whether a record of this kind may have this session and a line of so many bytes.
fn allows(alloc: Global, kind: RecordKind, session: u64, size: usize) -> Result<bool, OutOfMemory> {
    let line = vec![in alloc; b'x'; size]?;
    Ok(kind.allows(session, &line))
}

static ALLOWED: [(RecordKind, u64, usize, bool); 6] = [
    (RecordKind::Open, 0, 0, true),
    (RecordKind::Open, 1, 0, false),
    (RecordKind::Restart, 0, 0, true),
    (RecordKind::Restart, 0, 1, false),
    (RecordKind::Ask, 9, 65_535, true),
    (RecordKind::Ask, 0, 65_536, false),
];

#[test]
fn kinds_allow(rt: HostRuntime) -> Result<(), Fail> {
    for (kind, session, size, want) in &ALLOWED {
        let allowed = allows(rt.alloc(), *kind, *session, *size)?;
        assert_eq!(rt; allowed, *want, "{kind:?} {session} {size}");
    }
    Ok(())
}

// A batch of one is what `append` writes; one without records writes nothing.
#[test]
fn batches_of_each_size(rt: HostRuntime) -> Result<(), Fail> {
    let alloc = rt.alloc();
    let mut single = empty_disk(alloc, 1000)?;
    assert_eq!(rt; begin_and_add(alloc, &mut single)?, 6);
    for size in [1, 2, 3, 6] {
        let disk = disk_of_batches(alloc, size)?;
        assert_eq!(rt; disk.bytes(), single.bytes(), "in batches of {size}");
    }
    Ok(())
}

// A disk with the records, written in batches of this size.
fn disk_of_batches(alloc: Global, size: usize) -> Result<MemoryDisk, Fail> {
    let mut disk = empty_disk(alloc, 1000)?;
    let batches = batches_of(alloc, size)?;
    write_batches(alloc, &mut disk, &batches)?;
    Ok(disk)
}

// Begins a journal and adds all batches.
fn write_batches(alloc: Global, disk: &mut MemoryDisk, batches: &[Batch]) -> Result<(), Fail> {
    let mut texts = String::new(alloc);
    let mut journal = read_all(alloc, disk, &mut texts)?;
    if add_batches(&mut journal, disk, batches) == batches.len() {
        Ok(())
    } else {
        Err(Fail::from("a batch wasn't written"))
    }
}

#[test]
fn empty_batch_writes_nothing(rt: HostRuntime) -> Result<(), Fail> {
    let alloc = rt.alloc();
    let mut disk = MemoryDisk::new(alloc, Vec::new(alloc), 1, 3, Vec::new(alloc))?;
    let none = [Batch::new(alloc, 100)?];
    write_batches(alloc, &mut disk, &none)?;
    assert_eq!(rt; disk.bytes(), b"\0".as_slice());
    Ok(())
}

#[test]
fn room_of_a_batch(rt: HostRuntime) -> Result<(), Fail> {
    let mut batch = Batch::new(rt.alloc(), 20)?;
    assert!(rt; batch.fits(b"123456") && !batch.fits(b"1234567"));
    if batch.fits(b"1") {
        batch.push(RecordKind::Ask, 1, b"1");
    }
    assert!(rt; !batch.fits(b""));
    batch.clear();
    assert!(rt; batch.fits(b"123456"));
    let mut small = Batch::new(rt.alloc(), 13)?;
    assert!(rt; !small.fits(b""));
    small.clear();
    Ok(())
}
