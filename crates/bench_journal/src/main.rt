//! Times the reading of a journal of many short records.
//!
//! With a word, as `time`, it reads a million records and prints how long that took. Without one it
//! reads a thousand and prints what was found, which is the same each time.
#![tactic(auto)]

use ifdb_disk::MemoryDisk;
use ifdb_journal::{Journal, JournalFault};
use std::alloc::{AllocError, Global};
use std::time::Instant;
use std::{env, io};

/// The line of each record.
const LINE: &[u8] = b"INSERT INTO note VALUES (1234567, 'it is noted')";

fn main(rt: HostRuntime) -> io::Result<()> {
    let timed = env::args(&rt)?.nth(1).is_some();
    let count = if timed { 1_000_000 } else { 1_000 };
    let disk = disk_of(rt.alloc(), count)?;
    let size = disk.bytes().len();
    let start = Instant::now(&rt)?;
    match read_all(rt.alloc(), disk, count) {
        Ok(found) => println!(rt; "{found} records of {size} bytes")?,
        Err(fault) => println!(rt; "{fault}")?,
    }
    if timed {
        let time = start.elapsed(&rt)?.as_millis();
        println!(rt; "{time} ms")?;
    }
    Ok(())
}

/// A disk with a journal of so many records.
fn disk_of(alloc: Global, count: u32) -> Result<MemoryDisk, AllocError> {
    let mut bytes = Vec::new(alloc);
    for _ in 0..count {
        bytes.extend_from_slice(b"\x01\x02\0\0\0\0\0\0\0\x01\0\0\0")?;
        bytes.push(LINE.len() as u8)?;
        bytes.extend_from_slice(LINE)?;
    }
    bytes.push(0)?;
    MemoryDisk::new(alloc, bytes, 1, 1, Vec::new(alloc))
}

/// How many records a journal has, of at most so many.
fn read_all(alloc: Global, mut disk: MemoryDisk, most: u32) -> Result<u32, JournalFault> {
    let mut journal = Journal::start(alloc, &mut disk)?;
    for found in 0..most {
        if journal.next(alloc, &mut disk)?.is_none() {
            return Ok(found);
        }
    }
    Ok(most)
}
