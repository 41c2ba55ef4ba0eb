// Scripts over a journal, recorded runs, and scripts with closures.
ghost use Rattle.std.specs.Prelude.{◌<◌};

mod closures;
mod keeps;
mod traces;

use ifdb_disk::{MemoryDisk, MemoryShelf};
use ifdb_io::{MemoryLink, MemorySite};
use ifdb_top::{MoreStatus, Status, top_more};
use std::alloc::{AllocGlobal, Global};
use std::marker::Sync;
use std::process::Abort;
use std::sync::Wait;
use std::test::Fail;
use std::thread::Threads;
use test_top::{Calls, NOTES, all_of, both, ended, ended_more, failing, sink, source, words_of};

// Calls the program with these words over an input, and compares how it ended and what was written for it.
fn ends_more<R: Abort + AllocGlobal + Threads + Wait + Sync>(
    rt: &R,
    words: &str,
    bytes: &[u8],
    calls: (Calls, Calls),
    end: (MoreStatus, &[u8]),
) -> Result<(), Fail>
    requires { (0 < calls.0.piece) × (0 < calls.1.piece) }
{
    let (end, written) = end;
    let ran = ended_more(rt, words, bytes, calls)?;
    assert_eq!(rt; ran.end, end, "{words}");
    assert_eq!(rt; ran.written.as_slice(), written, "{words}");
    Ok(())
}
