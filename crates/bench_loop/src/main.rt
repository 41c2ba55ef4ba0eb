//! Says each line of each connection back, by loops over readiness.
//!
//!     bench_loop memory                                  a few connections in memory; the output is the same in each run
//!     bench_loop serve PORT LOOPS [CONNECTIONS BYTES HELLO IDLE STALL]
//!
//! The second serves the port at 127.0.0.1, by so many loops in threads of their own, until it is stopped.
#![tactic(auto)]

mod loops;
mod memory;

use ifdb_loop::Terms;
use std::env::args;

// The next word as a number, or this one.
fn number(word: Option<String>, otherwise: u64) -> u64 {
    match word {
        Some(word) => word.parse().unwrap_or(otherwise),
        None => otherwise,
    }
}

// A number of things that are in memory.
fn count(number: u64) -> usize {
    usize::try_from(number).unwrap_or(usize::MAX)
}

fn main(rt: HostRuntime) -> anyhow::Result<()> {
    let mut words = args(&rt)?.skip(1);
    let serves = match words.next() {
        Some(word) => word.as_str() == "serve",
        None => false,
    };
    if !serves {
        return memory::show(&rt, rt.alloc());
    }
    let port = u16::try_from(number(words.next(), 7070)).unwrap_or(7070);
    let loops = count(number(words.next(), 1));
    let connections = count(number(words.next(), 10_000));
    let limit = count(number(words.next(), 1 << 40));
    let terms = Terms {
        connections,
        hello: number(words.next(), 10),
        idle: number(words.next(), 600),
        stall: number(words.next(), 60),
    };
    loops::serve_port(&rt, rt.alloc(), port, loops, terms, limit)?;
    Ok(())
}
