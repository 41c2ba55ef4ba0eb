//! Times the parser beside the kit's `sqlite_syntax`, on statements that both read, and on lines at the limits.
//!
//! With a word, as `time`, it prints for each statement how many lines a second each of the two reads. Without one it
//! prints how each statement is answered, which is the same each time.
#![tactic(auto)]

mod statements;

use ifdb_parse::parse;
use statements::{STATEMENTS, Statement, limit_lines};
use std::time::Instant;
use std::{env, io};

/// How often each line is read, to find the least time.
const CALLS: u32 = 300;

fn main(rt: HostRuntime) -> io::Result<()> {
    let timed = env::args(&rt)?.nth(1).is_some();
    for statement in &STATEMENTS {
        if timed {
            time(&rt, statement.name, statement.text)?;
            time_sqlite(&rt, statement)?;
        } else {
            show(&rt, statement.name, statement.text)?;
        }
    }
    for (name, line) in &limit_lines(rt.alloc())? {
        if timed {
            time(&rt, name, line)?;
        } else {
            show(&rt, name, line)?;
        }
    }
    Ok(())
}

/// Prints how a line is answered.
fn show(rt: &HostRuntime, name: &str, line: &[u8]) -> io::Result<()> {
    match parse(rt.alloc(), line) {
        Ok(request) => {
            drop(request);
            println!(rt; "{name}: a request of {} bytes", line.len())
        }
        Err(fault) => println!(rt; "{name}: {fault:?}"),
    }
}

/// Prints how many lines a second the parser reads, by the least time of many calls.
fn time(rt: &HostRuntime, name: &str, line: &[u8]) -> io::Result<()> {
    let mut least = u64::MAX;
    for _ in 0..CALLS {
        let start = Instant::now(rt)?;
        let read = parse(rt.alloc(), line);
        let time = nanoseconds_since(rt, start);
        drop(read);
        least = least.min(time?);
    }
    println!(rt; "{name}: {} lines/s", per_second(least))
}

/// Prints how many lines a second `sqlite_syntax` reads.
fn time_sqlite(rt: &HostRuntime, statement: &Statement) -> io::Result<()> {
    let mut least = u64::MAX;
    for _ in 0..CALLS {
        let start = Instant::now(rt)?;
        let read = sqlite_syntax::parse(rt.alloc(), statement.text);
        let time = nanoseconds_since(rt, start);
        drop(read);
        least = least.min(time?);
    }
    println!(rt;
        "{} (sqlite_syntax): {} lines/s",
        statement.name,
        per_second(least)
    )
}

fn nanoseconds_since(rt: &HostRuntime, start: Instant) -> io::Result<u64> {
    let time = start.elapsed(rt)?;
    Ok(
        time.as_secs()
            .saturating_mul(1_000_000_000)
            .saturating_add(time.subsec_nanos() as u64),
    )
}

/// How often a second what takes so many nanoseconds can be done.
fn per_second(nanoseconds: u64) -> u64 {
    1_000_000_000u64.checked_div(nanoseconds).unwrap_or(0)
}
