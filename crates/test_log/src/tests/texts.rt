// Texts of any length, cut into pieces and read again.
use super::behind::begin;
use ifdb_disk::MemoryDisk;
use ifdb_journal::{Batch, RecordKind};
use ifdb_log::{Log, LogFault, Pieces, longest_text};
use std::alloc::Global;
use std::process::Abort;
use std::test::Fail;

// Room for the longest text of these tests.
const ROOM: usize = 300_000;

// Adds the pieces of a text. False where they have no room.
fn add_text(batch: &mut Batch, text: &[u8]) -> bool {
    for piece in Pieces::of(text) {
        if !batch.fits(piece.line) {
            return false;
        }
        batch.push(RecordKind::Ask, piece.session, piece.line);
    }
    true
}

// Adds any record. False where it has no room, or is none.
fn add_record(batch: &mut Batch, kind: RecordKind, session: u64, line: &[u8]) -> bool {
    if !kind.allows(session, line) || !batch.fits(line) {
        return false;
    }
    batch.push(kind, session, line);
    true
}

// A disk whose journal has the records of a batch.
fn disk_with(alloc: Global, batch: &Batch) -> Result<MemoryDisk, Fail> {
    let mut disk = MemoryDisk::new(alloc, Vec::new(alloc), 300_000, 100, Vec::new(alloc))?;
    let mut journal = begin(alloc, &mut disk)?;
    journal.append_batch(&mut disk, batch)?;
    Ok(disk)
}

// Tests that these texts are read of a disk, and what is answered behind them.
fn are_read(
    rt: &impl Abort,
    alloc: Global,
    disk: &mut MemoryDisk,
    texts: &[&[u8]],
    end: Result<bool, LogFault>,
) -> Result<(), Fail> {
    let mut log = Log::start(alloc, disk)?;
    for text in texts {
        let more = log.next(alloc, disk)?;
        assert!(rt; more);
        assert_eq!(rt; log.text(), *text);
    }
    let last = log.next(alloc, disk);
    assert_eq!(rt; last, end);
    Ok(())
}

// Tests a text of so many bytes, whose journal has so many.
fn is_read_again(rt: &impl Abort, alloc: Global, len: usize, size: usize) -> Result<(), Fail> {
    let text = vec![in alloc; b'x'; len]?;
    let mut batch = Batch::new(alloc, ROOM)?;
    let has_room = add_text(&mut batch, &text);
    assert!(rt; has_room);
    let mut disk = disk_with(alloc, &batch)?;
    assert_eq!(rt; disk.bytes().len(), size, "{len}");
    are_read(rt, alloc, &mut disk, &[&text], Ok(false))
}

#[test]
fn each_length_is_read_again(rt: HostRuntime) -> Result<(), Fail> {
    for (len, size) in [
        (0, 15),
        (1, 16),
        (65_534, 65_549),
        (65_535, 65_564),
        (65_536, 65_565),
        (131_070, 131_113),
    ] {
        is_read_again(&rt, rt.alloc(), len, size)?;
    }
    Ok(())
}

#[test]
fn the_longest_that_fits(rt: HostRuntime) {
    for (room, longest) in [
        (0, None),
        (13, None),
        (14, Some(0)),
        (15, Some(1)),
        (65_548, Some(65_534)),
        (65_562, Some(65_534)),
        (65_563, Some(65_535)),
        (65_564, Some(65_536)),
    ] {
        let found = longest_text(room);
        assert_eq!(rt; found, longest, "{room}");
    }
}

// A disk with two texts, `ab` and `c`.
fn two_texts(alloc: Global) -> Result<MemoryDisk, Fail> {
    let mut batch = Batch::new(alloc, ROOM)?;
    if !add_text(&mut batch, b"ab") || !add_text(&mut batch, b"c") {
        return Err(Fail::from("no room"));
    }
    disk_with(alloc, &batch)
}

pub(super) const TWO_TEXTS: &[u8; 32] =
    b"\x01\x02\0\0\0\0\0\0\0\0\0\0\0\x02ab\x01\x02\0\0\0\0\0\0\0\0\0\0\0\x01c\0";

#[test]
fn a_short_text_is_one_record(rt: HostRuntime) -> Result<(), Fail> {
    let disk = two_texts(rt.alloc())?;
    assert_eq!(rt; disk.bytes(), TWO_TEXTS.as_slice());
    Ok(())
}

// What is read of the first bytes of two texts.
fn cut_at(rt: &impl Abort, alloc: Global, size: usize) -> Result<(), Fail> {
    let bytes = TWO_TEXTS.iter().copied().take(size).collect(alloc)?;
    let mut disk = MemoryDisk::new(alloc, bytes, 100, 100, Vec::new(alloc))?;
    match size {
        0 | 1 => are_read(rt, alloc, &mut disk, &[], Ok(false)),
        2..=16 => are_read(rt, alloc, &mut disk, &[], Err(LogFault::Damaged(16))),
        17..=31 => are_read(
            rt,
            alloc,
            &mut disk,
            &[b"ab".as_slice()],
            Err(LogFault::Damaged(32)),
        ),
        _ => are_read(
            rt,
            alloc,
            &mut disk,
            &[b"ab".as_slice(), b"c".as_slice()],
            Ok(false),
        ),
    }
}

#[test]
fn cut_at_each_byte(rt: HostRuntime) -> Result<(), Fail> {
    for size in 0..33 {
        cut_at(&rt, rt.alloc(), size)?;
    }
    Ok(())
}

// Tests that a record behind a text is damage.
fn is_damage(rt: &impl Abort, alloc: Global, kind: RecordKind, session: u64) -> Result<(), Fail> {
    let mut batch = Batch::new(alloc, ROOM)?;
    let has_room = add_text(&mut batch, b"ab") && add_record(&mut batch, kind, session, b"");
    assert!(rt; has_room);
    let mut disk = disk_with(alloc, &batch)?;
    are_read(
        rt,
        alloc,
        &mut disk,
        &[b"ab".as_slice()],
        Err(LogFault::Damaged(32)),
    )
}

#[test]
fn other_records_are_damage(rt: HostRuntime) -> Result<(), Fail> {
    for (kind, session) in [
        (RecordKind::Open, 0),
        (RecordKind::Restart, 0),
        (RecordKind::Ask, 1),
        (RecordKind::Ask, 2),
    ] {
        is_damage(&rt, rt.alloc(), kind, session)?;
    }
    Ok(())
}

// A disk with a first piece whose text goes on, and then a text, if one is given.
fn unfinished(alloc: Global, behind: Option<&[u8]>) -> Result<MemoryDisk, Fail> {
    let piece = vec![in alloc; b'x'; 65_535]?;
    let mut batch = Batch::new(alloc, ROOM)?;
    if !add_record(&mut batch, RecordKind::Ask, 0, &piece) {
        return Err(Fail::from("no room"));
    }
    if let Some(text) = behind
        && !add_text(&mut batch, text)
    {
        return Err(Fail::from("no room"));
    }
    disk_with(alloc, &batch)
}

#[test]
fn a_text_without_its_last_piece_is_none(rt: HostRuntime) -> Result<(), Fail> {
    let mut disk = unfinished(rt.alloc(), None)?;
    are_read(&rt, rt.alloc(), &mut disk, &[], Ok(false))?;
    let mut disk = unfinished(rt.alloc(), Some(b"ab"))?;
    are_read(&rt, rt.alloc(), &mut disk, &[b"ab".as_slice()], Ok(false))
}
