//! What no clause says: that connections are served while there is memory, side by side, and what a service's output is.
mod meeting;
mod sites;

use ifdb_io::{Link, MemoryDoor, MemoryLink, MemorySink, MemorySite, MemorySource};
use ifdb_service::{ServiceEnd, serve};
use ifdb_words::Service;
use std::alloc::{AllocGlobal, Global};
use std::marker::{Send, Sync};
use std::sync::Wait;
use std::test::Fail;
use std::thread::Threads;

const ROOM: usize = 4096;

// A link that gives these bytes in pieces of 7 and takes 5 at a time. Its calls of these numbers fail.
fn link_of(alloc: Global, input: &str, reads: &[u64], writes: &[u64]) -> Result<MemoryLink, Fail> {
    let bytes = Vec::from_slice(alloc, input.as_bytes())?;
    Ok(MemoryLink {
        source: MemorySource::new(bytes, 7, reads.to_vec(alloc)?),
        sink: MemorySink::new(alloc, 5, ROOM, writes.to_vec(alloc)?)?,
    })
}

// A sink whose calls of these numbers fail.
fn output_of(alloc: Global, fails: &[u64]) -> Result<MemorySink, Fail> {
    Ok(MemorySink::new(alloc, ROOM, ROOM, fails.to_vec(alloc)?)?)
}

// Serves so many doors of a site at port 7070.
fn serve_at<R: AllocGlobal + Threads + Wait + Sync, K: Link + Send + Drop>(
    rt: &R,
    output: &mut MemorySink,
    site: &mut MemorySite<K>,
    doors: usize,
) -> ServiceEnd {
    let service = Service {
        port: 7070,
        workers: if doors == 2 { 2 } else { 1 },
        links: 1_000_000,
        limit: 100_000,
    };
    serve(rt, rt.alloc(), output, site, service)
}
