// Calls of the program over what stands in memory.
ghost use Rattle.std.specs.Prelude.{◌≡◌, ◌<◌};

use ifdb_disk::{MemoryDisk, MemoryShelf};
use ifdb_io::{MemoryLink, MemorySink, MemorySite, MemorySource};
use ifdb_top::{MoreStatus, Status, top, top_more};
use std::alloc::{AllocGlobal, Global};
use std::marker::Sync;
use std::sync::Wait;
use std::test::Fail;
use std::thread::Threads;

// As many bytes as a script of these tests writes at most.
const ROOM: usize = 4096;

/// The words of a command line.
pub fn words_of(alloc: Global, text: &str) -> Result<Vec<String>, Fail> {
    let mut words = Vec::new(alloc);
    for word in text.split_whitespace() {
        words.push(String::from_str(alloc, word)?)?;
    }
    Ok(words)
}

/// The calls of a source or a sink: the bytes that each gives or takes, and which one fails.
#[derive(Clone, Copy)]
pub struct Calls {
    /// How many bytes a call gives or takes at most.
    pub piece: usize,
    /// Which call fails.
    pub fails: Option<u64>,
}

/// Calls of this size, of which none fails.
pub const fn all_of(piece: usize) -> Calls
    ensures { result.piece ≡ piece }
{
    Calls { piece, fails: None }
}

/// The number of a call that is to fail, if one is.
pub fn failing(alloc: Global, call: Option<u64>) -> Result<Vec<u64>, Fail> {
    let mut calls = Vec::new(alloc);
    if let Some(call) = call {
        calls.push(call)?;
    }
    Ok(calls)
}

/// A source of these bytes.
pub fn source(alloc: Global, bytes: &[u8], calls: Calls) -> Result<MemorySource, Fail>
    requires { 0 < calls.piece }
{
    let bytes = Vec::from_slice(alloc, bytes)?;
    Ok(MemorySource::new(bytes, calls.piece, failing(alloc, calls.fails)?))
}

/// A sink.
pub fn sink(alloc: Global, calls: Calls) -> Result<MemorySink, Fail>
    requires { 0 < calls.piece }
{
    Ok(MemorySink::new(alloc, calls.piece, ROOM, failing(alloc, calls.fails)?)?)
}

/// How a call of the program ended, and what was written for it.
#[derive(Drop)]
pub struct Ran {
    /// How it ended.
    pub status: Status,
    /// What was written.
    pub written: Vec<u8>,
}

/// Calls the program with these words over a script and a site.
pub fn call<R: AllocGlobal + Threads + Wait + Sync>(
    rt: &R,
    words: &str,
    script: &[u8],
    calls: (Calls, Calls),
    site: &mut MemorySite<MemoryLink>,
) -> Result<Ran, Fail>
    requires { (0 < calls.0.piece) × (0 < calls.1.piece) }
{
    let (reads, writes) = calls;
    let words = words_of(rt.alloc(), words)?;
    let mut input = source(rt.alloc(), script, reads)?;
    let mut output = sink(rt.alloc(), writes)?;
    let status = top(rt, &words, &mut input, &mut output, site);
    let written = Vec::from_slice(rt.alloc(), output.bytes())?;
    Ok(Ran { status, written })
}

/// How a call of the program ended by words that only `top_more` knows, and what was written for it.
#[derive(Drop)]
pub struct EndedMore {
    /// How it ended.
    pub end: MoreStatus,
    /// What was written.
    pub written: Vec<u8>,
}

/// Calls the program with these words over an input, a site without doors, and a shelf with an empty disk.
pub fn ended_more<R: AllocGlobal + Threads + Wait + Sync>(
    rt: &R,
    words: &str,
    bytes: &[u8],
    calls: (Calls, Calls),
) -> Result<EndedMore, Fail>
    requires { (0 < calls.0.piece) × (0 < calls.1.piece) }
{
    let (reads, writes) = calls;
    let words = words_of(rt.alloc(), words)?;
    let mut input = source(rt.alloc(), bytes, reads)?;
    let mut output = sink(rt.alloc(), writes)?;
    let mut site = MemorySite::<MemoryLink>::new(
        rt.alloc(),
        Vec::new(rt.alloc()),
        Vec::new(rt.alloc()),
    );
    let disk = MemoryDisk::new(rt.alloc(), Vec::new(rt.alloc()), 0, 0, Vec::new(rt.alloc()))?;
    let mut shelf = MemoryShelf::new(disk, Vec::new(rt.alloc()));
    let end = top_more(rt, &words, &mut input, &mut output, &mut site, &mut shelf);
    let written = Vec::from_slice(rt.alloc(), output.bytes())?;
    Ok(EndedMore { end, written })
}

/// Calls the program with these words over a script, and a site without doors.
pub fn ended<R: AllocGlobal + Threads + Wait + Sync>(
    rt: &R,
    words: &str,
    script: &[u8],
    calls: (Calls, Calls),
) -> Result<Ran, Fail>
    requires { (0 < calls.0.piece) × (0 < calls.1.piece) }
{
    let mut site = MemorySite::new(rt.alloc(), Vec::new(rt.alloc()), Vec::new(rt.alloc()));
    call(rt, words, script, calls, &mut site)
}

/// Runs a script that comes and is answered in pieces of this size.
pub fn run<R: AllocGlobal + Threads + Wait + Sync>(
    rt: &R,
    script: &[u8],
    piece: usize,
) -> Result<Ran, Fail>
    requires { 0 < piece }
{
    ended(rt, "run", script, (all_of(piece), all_of(piece)))
}

/// Serves the connections of a site, beside a script that nobody is to run.
pub fn served<R: AllocGlobal + Threads + Wait + Sync>(
    rt: &R,
    words: &str,
    site: &mut MemorySite<MemoryLink>,
) -> Result<Ran, Fail> {
    call(rt, words, b"OPEN\n", (all_of(64), all_of(64)), site)
}
