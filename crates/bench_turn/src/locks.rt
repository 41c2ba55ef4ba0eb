//! Turns at a number behind std's mutex.
ghost use Rattle.std.specs.Thread.{IsSync};

use crate::Crew;
use std::sync::{Mutex, Wait};
use std::thread::{Threads, join};

fn lock_often<R: Wait>(rt: &R, count: &Mutex<u64>, often: u64) {
    for i in 0..often {
        let _ = i;
        let mut taken = count.lock(rt);
        *taken = taken.wrapping_add(1);
    }
}

fn lock_in_two<R: Threads + Wait + Sync>(rt: &R, count: &Mutex<u64>, often: u64) {
    join(
        rt,
        || lock_often(rt, count, often),
        || lock_often(rt, count, often),
    );
}

/// Each thread of the crew takes the lock that often and adds 1. Gives the sum.
pub fn take<R: Threads + Wait + Sync>(rt: &R, crew: Crew, often: u64) -> u64 {
    let count = Mutex::new(0);
    let shared = &count;
    match crew {
        Crew::One => lock_often(rt, shared, often),
        Crew::Two => lock_in_two(rt, shared, often),
        Crew::Four => {
            join(
                rt,
                || -> ()
                    requires { IsSync R.row }
                { lock_in_two(rt, shared, often) },
                || -> ()
                    requires { IsSync R.row }
                { lock_in_two(rt, shared, often) },
            );
        }
    }
    count.into_inner()
}
