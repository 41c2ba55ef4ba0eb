//! Counts and times the turns of a turnstile, beside std's mutex. The first word is `count` or `time`, the second how
//! often each thread takes its turn. For 1, 2 and 4 threads it prints how many turns were taken, and after `time` also
//! how many there were in a second. After `count` the output is the same in each run.
#![tactic(auto)]

mod entries;
mod locks;
mod turns;

use std::io;
use std::num::nearest_u64_to_f64;
use std::rt::Clock;
use std::time::Instant;

/// How many threads take turns.
#[derive(Clone, Copy)]
pub enum Crew {
    /// The caller alone.
    One,
    /// Two threads.
    Two,
    /// Four threads.
    Four,
}

impl Crew {
    fn name(self) -> &'static str {
        match self {
            Crew::One => "1 thread",
            Crew::Two => "2 threads",
            Crew::Four => "4 threads",
        }
    }
}

fn main(rt: HostRuntime) -> io::Result<()> {
    let mut words = std::env::args(&rt)?.skip(1);
    let timed = match words.next() {
        Some(word) => word.as_str() == "time",
        None => false,
    };
    let often = match words.next() {
        Some(word) => word.parse().unwrap_or(0),
        None => 0,
    };
    for crew in [Crew::One, Crew::Two, Crew::Four] {
        let begun = Instant::now(&rt)?;
        let turns = turns::take(&rt, rt.alloc(), crew, often)?;
        print(&rt, "turnstile", crew, turns, timed, begun)?;
        let begun = Instant::now(&rt)?;
        let turns = locks::take(&rt, crew, often);
        print(&rt, "mutex", crew, turns, timed, begun)?;
    }
    let begun = Instant::now(&rt)?;
    let turns = entries::take(&rt, rt.alloc(), often)?;
    print(
        &rt,
        "turnstile with entries",
        Crew::One,
        turns,
        timed,
        begun,
    )?;
    Ok(())
}

fn print<R: Print + Clock>(
    rt: &R,
    what: &str,
    crew: Crew,
    turns: u64,
    timed: bool,
    begun: Instant,
) -> io::Result<()> {
    let name = crew.name();
    if !timed {
        return println!(rt; "{what}, {name}: {turns} turns");
    }
    let seconds = begun.elapsed(rt)?.as_secs_f64();
    let rate = nearest_u64_to_f64(turns) / seconds;
    println!(rt; "{what}, {name}: {turns} turns, {rate:.0} in a second")
}
