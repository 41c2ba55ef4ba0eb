// A few connections in memory.
use ifdb_loop::{Coming, Loop, MemoryGate, Step, Terms, serve};
use std::alloc::{AllocError, Global};
use test_loop::Echo;

const TERMS: Terms = Terms {
    connections: 10,
    hello: 20,
    idle: 20,
    stall: 20,
};

// How many bytes each connection may give.
const LIMIT: usize = 1000;

// What comes, each as text, how many bytes a read gives, and how many a write takes.
const COMING: [(&str, usize, usize); 4] = [
    ("one\ntwo\nBYE\nthree\n", 100, 100),
    ("one\ntwo\n", 1, 1),
    ("\n\nBYE\n", 2, 3),
    ("half", 1, 1),
];

// A connection whose first calls give and take so many bytes.
fn coming(alloc: Global, text: &str, read: usize, write: usize) -> Result<Coming, AllocError> {
    let mut one = Coming {
        bytes: Vec::new(alloc),
        reads: Vec::new(alloc),
        writes: Vec::new(alloc),
    };
    one.bytes.extend_from_slice(text.as_bytes())?;
    for _ in 0..20 {
        one.reads.push(Step::Piece(read))?;
        one.writes.push(Step::Piece(write))?;
        one.writes.push(Step::Wait)?;
    }
    Ok(one)
}

// The gate once all of them are over.
fn served(alloc: Global) -> Result<MemoryGate, AllocError> {
    let mut all = Vec::new(alloc);
    for (text, read, write) in COMING {
        all.push(coming(alloc, text, read, write)?)?;
    }
    let mut gate = MemoryGate::new(alloc, all, 100)?;
    let mut echo = Echo::new(alloc, LIMIT, 0);
    let mut looping = Loop::new(alloc, TERMS)?;
    let _ = serve(&mut gate, &mut echo, &mut looping);
    Ok(gate)
}

/// Serves them, and prints how each ended and how many bytes it was told.
pub fn show<R: Print>(rt: &R, alloc: Global) -> anyhow::Result<()> {
    let gate = served(alloc)?;
    for over in gate.back() {
        let told = over.port.written().len();
        println!(rt; "{}: {told} bytes", over.ending)?;
    }
    Ok(())
}
