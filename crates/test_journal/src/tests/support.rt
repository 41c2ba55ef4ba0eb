// Records written to a disk and read back, as texts.
ghost use Rattle.std.specs.Prelude.{OnOk, IfOk};
ghost use Rattle.ifdb_journal.specs.Reading.{IsReady};

use ifdb_disk::{Disk, MemoryDisk};
use ifdb_io::OutOfMemory;
use ifdb_journal::{Batch, Journal, JournalFault, Record, RecordKind};
use std::alloc::Global;
use std::process::Abort;
use std::test::Fail;

// A record that is to be written.
pub(super) type Row = (RecordKind, u64, &'static str);

// The records of a script that opens a session, and their texts.
pub(super) static ROWS: [Row; 6] = [
    (RecordKind::Open, 0, ""),
    (RecordKind::Ask, 1, "HELLO admin KEY 'admin'"),
    (
        RecordKind::Ask,
        1,
        "CREATE TABLE note (id INT, PRIMARY KEY (id))",
    ),
    (RecordKind::Ask, 1, "INSERT INTO note VALUES (1)"),
    (RecordKind::Ask, 1, "BEGIN"),
    (RecordKind::Ask, 1, "INSERT INTO note VALUES (2)"),
];

pub(super) static TEXTS: [&str; 6] = [
    "Open 0 []",
    "Ask 1 [HELLO admin KEY 'admin']",
    "Ask 1 [CREATE TABLE note (id INT, PRIMARY KEY (id))]",
    "Ask 1 [INSERT INTO note VALUES (1)]",
    "Ask 1 [BEGIN]",
    "Ask 1 [INSERT INTO note VALUES (2)]",
];

// The first texts, each on a line.
pub(super) fn first_texts(alloc: Global, count: usize) -> Result<String, OutOfMemory> {
    let mut all = String::new(alloc);
    for text in TEXTS.iter().take(count) {
        all.push_str(text)?;
        all.push_str("\n")?;
    }
    Ok(all)
}

// An empty disk that fails at this call.
pub(super) fn empty_disk(alloc: Global, fail: u64) -> Result<MemoryDisk, OutOfMemory> {
    let fails = Vec::from_array(alloc, [fail])?;
    MemoryDisk::new(alloc, Vec::new(alloc), 1000, 1000, fails)
}

// A disk of these bytes.
pub(super) fn disk_of(alloc: Global, bytes: &[u8]) -> Result<MemoryDisk, OutOfMemory> {
    MemoryDisk::new(alloc, bytes.to_vec(alloc)?, 1000, 1000, Vec::new(alloc))
}

// The text of a record, its line by its length where it is long.
fn put(alloc: Global, texts: &mut String, record: &Record) -> Result<(), OutOfMemory> {
    let line = record.line.as_slice();
    let text = match std::str::from_utf8(line) {
        Ok(text) if text.len() < 100 => {
            format!(in alloc; "{:?} {} [{text}]\n", record.kind, record.session)?
        }
        _ => format!(in alloc; "{:?} {} {}\n", record.kind, record.session, line.len())?,
    };
    texts.push_str(text.as_str())?;
    Ok(())
}

// Reads a journal to its end, and notes each record's text.
pub(super) fn read_all<D: Disk>(
    alloc: Global,
    disk: &mut D,
    texts: &mut String,
) -> Result<Journal, JournalFault>
    ensures { IfOk result (λ journal. IsReady (D.tells disk.new) journal.at) }
{
    let mut journal = Journal::start(alloc, disk)?;
    for _ in 0..2000 {
        let Some(record) = journal.next(alloc, disk)? else {
            return Ok(journal);
        };
        if put(alloc, texts, &record).is_err() {
            return Err(JournalFault::OutOfMemory);
        }
    }
    Err(JournalFault::OutOfMemory)
}

// The texts of the records of a disk, and its end or fault.
pub(super) fn texts_of<D: Disk>(alloc: Global, disk: &mut D) -> Result<String, OutOfMemory> {
    let mut texts = String::new(alloc);
    if let Err(fault) = read_all(alloc, disk, &mut texts) {
        let text = format!(in alloc; "{fault}\n")?;
        texts.push_str(text.as_str())?;
    }
    Ok(texts)
}

// The texts of the records of a disk of these bytes.
fn texts_of_bytes(alloc: Global, bytes: &[u8]) -> Result<String, OutOfMemory> {
    let mut disk = disk_of(alloc, bytes)?;
    texts_of(alloc, &mut disk)
}

// Tests that a disk of these bytes is read as these texts.
pub(super) fn reads_as(
    rt: &impl Abort,
    alloc: Global,
    bytes: &[u8],
    want: &str,
) -> Result<(), Fail> {
    let texts = texts_of_bytes(alloc, bytes)?;
    assert_eq!(rt; texts.as_str(), want, "of {} bytes", bytes.len());
    Ok(())
}

// Adds a record that may be written.
pub(super) fn add<D: Disk>(
    journal: &mut Journal,
    disk: &mut D,
    row: &Row,
) -> Result<(), JournalFault>
    requires { IsReady (D.tells disk.old) journal.old.at }
    ensures { OnOk result (IsReady (D.tells disk.new) journal.new.at) }
{
    let (kind, session, line) = *row;
    if !kind.allows(session, line.as_bytes()) {
        return Err(JournalFault::OutOfMemory);
    }
    journal.append(disk, kind, session, line.as_bytes())
}

// Adds records up to the first fault. How many were added.
pub(super) fn add_all<D: Disk>(journal: &mut Journal, disk: &mut D, rows: &[Row]) -> usize
    requires { IsReady (D.tells disk.old) journal.old.at }
{
    let mut count = 0;
    for row in rows {
        if add(journal, disk, row).is_err() {
            return count;
        }
        count += 1;
    }
    count
}

// Begins a journal and adds the records up to the first fault. How many were added.
pub(super) fn begin_and_add<D: Disk>(alloc: Global, disk: &mut D) -> Result<usize, OutOfMemory> {
    let mut texts = String::new(alloc);
    match read_all(alloc, disk, &mut texts) {
        Ok(mut journal) => Ok(add_all(&mut journal, disk, &ROWS)),
        Err(JournalFault::OutOfMemory) => Err(OutOfMemory),
        Err(_) => Ok(0),
    }
}

// The rows in batches of this size.
pub(super) fn batches_of(alloc: Global, size: usize) -> Result<Vec<Batch>, OutOfMemory> {
    let mut all = Vec::new(alloc);
    for part in ROWS.chunks(size.max(1)) {
        all.push(batch_of(alloc, part)?)?;
    }
    Ok(all)
}

fn batch_of(alloc: Global, rows: &[Row]) -> Result<Batch, OutOfMemory> {
    let mut batch = Batch::new(alloc, 300)?;
    for row in rows {
        let (kind, session, line) = *row;
        if kind.allows(session, line.as_bytes()) && batch.fits(line.as_bytes()) {
            batch.push(kind, session, line.as_bytes());
        }
    }
    Ok(batch)
}

// Adds batches up to the first fault. How many were added.
pub(super) fn add_batches<D: Disk>(journal: &mut Journal, disk: &mut D, batches: &[Batch]) -> usize
    requires { IsReady (D.tells disk.old) journal.old.at }
{
    let mut count = 0;
    for batch in batches {
        if journal.append_batch(disk, batch).is_err() {
            return count;
        }
        count += 1;
    }
    count
}
