//! Times the lexer on lines of one kind, at doubling lengths.
//!
//! With a word, as `time`, it prints for each kind of line and each length the least time of many calls, and how it
//! grew from the length before. Without one it prints what the lexer says of two short lines of each kind, which is the
//! same each time.
#![tactic(auto)]

mod kinds;

use ifdb_lex::lex;
use kinds::{KINDS, Kind, line_of};
use std::time::Instant;
use std::{env, io};

/// How often each line is read, to find the least time.
const CALLS: u32 = 300;

fn main(rt: HostRuntime) -> io::Result<()> {
    let timed = env::args(&rt)?.nth(1).is_some();
    for kind in &KINDS {
        if timed {
            time_kind(&rt, kind)?;
        } else {
            show_kind(&rt, kind)?;
        }
    }
    Ok(())
}

/// Prints what the lexer says of two short lines.
fn show_kind(rt: &HostRuntime, kind: &Kind) -> io::Result<()> {
    for len in [16, 40] {
        let line = line_of(rt.alloc(), kind, len)?;
        match lex(rt.alloc(), &line) {
            Ok(tokens) => println!(rt; "{}, {len} bytes: {} tokens", kind.name, tokens.len())?,
            Err(fault) => println!(rt; "{}, {len} bytes: {fault:?}", kind.name)?,
        }
    }
    Ok(())
}

/// Prints the times of lines of 8,192 to 65,535 bytes.
fn time_kind(rt: &HostRuntime, kind: &Kind) -> io::Result<()> {
    let mut before = 0;
    for len in [8_192, 16_384, 32_768, 65_535] {
        let line = line_of(rt.alloc(), kind, len)?;
        let time = least_time(rt, &line)?;
        match time.saturating_mul(100).checked_div(before) {
            Some(percent) => {
                println!(rt;
                    "{}, {len} bytes: {time} ns, {percent} % of the time before",
                    kind.name
                )?
            }
            None => println!(rt; "{}, {len} bytes: {time} ns", kind.name)?,
        }
        before = time;
    }
    Ok(())
}

/// The least time of many calls, in nanoseconds.
fn least_time(rt: &HostRuntime, line: &[u8]) -> io::Result<u64> {
    let mut least = u64::MAX;
    for _ in 0..CALLS {
        let start = Instant::now(rt)?;
        let tokens = lex(rt.alloc(), line);
        let time = start.elapsed(rt)?;
        drop(tokens);
        let nanos = time
            .as_secs()
            .saturating_mul(1_000_000_000)
            .saturating_add(time.subsec_nanos() as u64);
        least = least.min(nanos);
    }
    Ok(least)
}
