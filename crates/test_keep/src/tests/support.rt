// Scripts that are run over a disk in memory.
use ifdb_disk::MemoryDisk;
use ifdb_io::{MemorySink, MemorySource, OutOfMemory};
use ifdb_journal::{Journal, JournalFault};
use ifdb_keep::{KeepEnd, keep_script};
use std::alloc::Global;
use std::test::Fail;

// A table is made, a row inserted, and another in a transaction that stays open.
pub(super) const FIRST: &str =
    "OPEN\n1 HELLO admin KEY 'admin'\n1 CREATE TABLE note (id INT, PRIMARY KEY (id))\n1 INSERT INTO note VALUES (1)\n1 BEGIN\n1 INSERT INTO note VALUES (2)\n";

pub(super) const FIRST_REPLIES: [&str; 6] = [
    "1 OPEN\n", "1 OK\n", "1 OK\n", "1 OK 1\n", "1 OK\n", "1 OK 1\n",
];

// What is there is looked at.
pub(super) const SECOND: &str = "OPEN\n1 HELLO admin KEY 'admin'\n1 SELECT id FROM note\n";

// A disk of these bytes that allows so many calls, and fails at these.
pub(super) fn disk_of(
    alloc: Global,
    bytes: &[u8],
    calls: u64,
    fails: &[u64],
) -> Result<MemoryDisk, OutOfMemory> {
    MemoryDisk::new(
        alloc,
        bytes.to_vec(alloc)?,
        1000,
        calls,
        fails.to_vec(alloc)?,
    )
}

// Runs a script over a disk: how it ended, and what it wrote.
pub(super) fn keep(
    alloc: Global,
    disk: &mut MemoryDisk,
    script: &str,
) -> Result<(KeepEnd, Vec<u8>), Fail> {
    let bytes = script.as_bytes().to_vec(alloc)?;
    let mut input = MemorySource::new(bytes, 64, Vec::new(alloc));
    let mut output = MemorySink::new(alloc, 64, 100_000, Vec::new(alloc))?;
    let end = keep_script(alloc, &mut input, &mut output, 1_000_000, disk);
    let text = output.bytes().to_vec(alloc)?;
    Ok((end, text))
}

// The first replies to the first script.
pub(super) fn first_replies(alloc: Global, count: usize) -> Result<String, OutOfMemory> {
    let mut all = String::new(alloc);
    for reply in FIRST_REPLIES.iter().take(count) {
        all.push_str(reply)?;
    }
    Ok(all)
}

// How many records the journal of a disk has.
pub(super) fn count_records(alloc: Global, disk: &mut MemoryDisk) -> Result<u64, JournalFault> {
    let mut journal = Journal::start(alloc, disk)?;
    for count in 0..1000 {
        let Some(record) = journal.next(alloc, disk)? else {
            return Ok(count);
        };
        drop(record);
    }
    Err(JournalFault::OutOfMemory)
}
