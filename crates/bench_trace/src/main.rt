//! Times the check of a trace beside the run of its script, which is the generator's.
//!
//! With a word, as `time`, it prints how many lines of the script each of the two takes a second. Without one it prints how
//! the check of a small trace ends, which is the same each time.
#![tactic(auto)]

mod record;

use ifdb_generate::{Size, generated};
use ifdb_io::{MemorySink, MemorySource};
use ifdb_script::run_script;
use ifdb_trace::check_trace;
use record::trace_of;
use std::time::Instant;
use std::{env, io};

/// The INSERTs of the small script, and of the timed one.
const FEW: u64 = 2;

const MANY: u64 = 10_000;

/// How often each is timed; the least time counts.
const TRIES: u32 = 5;

/// The most bytes of a script or a trace.
const LIMIT: u64 = 1_000_000_000;

/// How many bytes a read gives at most, and a write takes.
const PIECE: usize = 65_536;

fn main(rt: HostRuntime) -> io::Result<()> {
    let timed = env::args(&rt)?.nth(1).is_some();
    let Some(size) = Size::new(if timed { MANY } else { FEW }) else {
        return Ok(());
    };
    let script = generated(rt.alloc(), size)?;
    let trace = trace_of(rt.alloc(), &script)?;
    if timed {
        let lines = script.iter().filter(|byte| **byte == b'\n').count() as u64;
        println!(rt;
            "run: {} lines/s",
            per_second(lines, time_run(&rt, &script)?)
        )?;
        return println!(rt;
            "check: {} lines/s",
            per_second(lines, time_check(&rt, &trace)?)
        );
    }
    let mut input = MemorySource::new(trace, PIECE, Vec::new(rt.alloc()));
    println!(rt; "{:?}", check_trace(rt.alloc(), &mut input, LIMIT))
}

/// The least time that a run of a script takes, in nanoseconds.
fn time_run(rt: &HostRuntime, script: &[u8]) -> io::Result<u64> {
    let mut least = u64::MAX;
    for _ in 0..TRIES {
        let script = Vec::from_slice(rt.alloc(), script)?;
        let mut input = MemorySource::new(script, PIECE, Vec::new(rt.alloc()));
        let mut output = MemorySink::new(rt.alloc(), PIECE, 100_000_000, Vec::new(rt.alloc()))?;
        let start = Instant::now(rt)?;
        run_script(rt.alloc(), &mut input, &mut output, LIMIT);
        least = least.min(nanoseconds_since(rt, start)?);
    }
    Ok(least)
}

/// The least time that the check of a trace takes, in nanoseconds.
fn time_check(rt: &HostRuntime, trace: &[u8]) -> io::Result<u64> {
    let mut least = u64::MAX;
    for _ in 0..TRIES {
        let trace = Vec::from_slice(rt.alloc(), trace)?;
        let mut input = MemorySource::new(trace, PIECE, Vec::new(rt.alloc()));
        let start = Instant::now(rt)?;
        check_trace(rt.alloc(), &mut input, LIMIT);
        least = least.min(nanoseconds_since(rt, start)?);
    }
    Ok(least)
}

fn nanoseconds_since(rt: &HostRuntime, start: Instant) -> io::Result<u64> {
    let time = start.elapsed(rt)?;
    Ok(
        time.as_secs()
            .saturating_mul(1_000_000_000)
            .saturating_add(time.subsec_nanos() as u64),
    )
}

/// How many a second, of so many in so many nanoseconds.
fn per_second(count: u64, nanoseconds: u64) -> u64 {
    count
        .saturating_mul(1_000_000_000)
        .checked_div(nanoseconds)
        .unwrap_or(0)
}
