//! What no clause says: that workers in threads come back, and what they then have.
ghost use Rattle.std.specs.Prelude.{◌≡◌, ◌<◌, ◌+◌, ◌^◌, IfOk};
ghost use Rattle.std.specs.Vec.Iter.{into_iter_len};

use crate::{Host, Worker, run_all};
use ifdb_io::{Failed, Link, MemoryDoor, Sink, Source};
use std::alloc::{AllocError, Global};
use std::slice::from_mut;
use std::test::Fail;
use std::thread::Threads;

/// A connection without bytes, which has a number and gets a ticket.
#[derive(Drop)]
struct Call {
    number: u64,
    ticket: u64,
}

impl Source for Call {
    ghost use Rattle.std.specs.Prelude.{None};

    ghost left = { λ _. None };

    ghost faults = { λ _. 0 };

    fn read(&mut self, _buf: &mut [u8]) -> Result<usize, Failed> {
        Ok(0)
    }
}

impl Sink for Call {
    ghost use Rattle.std.specs.Prelude.{None};

    ghost written = { λ _. None };

    ghost faults = { λ _. 0 };

    fn write(&mut self, piece: &[u8]) -> Result<usize, Failed> {
        Ok(piece.len())
    }
}

impl Link for Call {
    ghost use Rattle.std.specs.Prelude.{refl};

    ghost reading = { λ _. refl };

    ghost writing = { λ _. refl };
}

/// The ticket that no call gets.
const LAST_TICKET: u64 = 40;

/// Gives each call the next ticket, but for the last one.
#[derive(Drop)]
struct Clerk {
    next: u64,
}

impl Host for Clerk {
    ghost use Rattle.std.specs.Prelude.{◌≡◌, ⊤};

    type Link = Call;

    ghost ready = { λ _. ⊤ };

    ghost serves = { λ clerk call _ served. (served.number ≡ call.number) × (served.ticket ≡ clerk.next) };

    ghost over = { λ clerk. clerk.next ≡ 40 };

    fn serve(&mut self, call: &mut Call) -> bool {
        call.ticket = self.next;
        self.next = self.next.wrapping_add(1);
        self.next != LAST_TICKET
    }
}

/// A worker whose door has calls with these numbers and fails at these, and whose host begins with
/// this ticket.
fn worker(
    alloc: Global,
    numbers: &[u64],
    fails: &[u64],
    ticket: u64,
) -> Result<Worker<MemoryDoor<Call>, Clerk>, AllocError>
    ensures { IfOk result (λ worker. worker.links + into_iter_len worker.door.coming < 2 ^ 64) }
{
    let mut calls = Vec::new(alloc);
    for &number in numbers {
        calls.push(Call { number, ticket: 0 })?;
    }
    Ok(Worker {
        door: MemoryDoor::new(alloc, calls, fails.to_vec(alloc)?)?,
        host: Clerk { next: ticket },
        links: 0,
        failed: false,
    })
}

/// What a worker has: the calls that went back, each with its ticket, its count, and whether its
/// door failed.
fn told(alloc: Global, worker: &Worker<MemoryDoor<Call>, Clerk>) -> Result<String, AllocError> {
    let mut text = String::new(alloc);
    for call in worker.door.back() {
        text.push_str(format!(in alloc; "{}:{} ", call.number, call.ticket)?.as_str())?;
    }
    text.push_str(format!(in alloc; "{} {}", worker.links, worker.failed)?.as_str())?;
    Ok(text)
}

/// Runs this worker alone, which has served few calls.
fn run_again<R: Threads + Sync>(rt: &R, worker: &mut Worker<MemoryDoor<Call>, Clerk>) {
    if worker.links < 100 && worker.door.left() < 100 {
        run_all(rt, from_mut(worker));
    }
}

#[test]
fn two_workers_serve(rt: HostRuntime) -> Result<(), Fail> {
    let first = worker(rt.alloc(), &[1, 2, 3], &[], 10)?;
    let second = worker(rt.alloc(), &[4, 5, 6], &[2], 20)?;
    let mut workers = [first, second];
    run_all(&rt, &mut workers);
    assert_eq!(rt;
        told(rt.alloc(), &workers[0])?.as_str(),
        "1:10 2:11 3:12 3 false"
    );
    assert_eq!(rt; told(rt.alloc(), &workers[1])?.as_str(), "4:20 5:21 2 true");
    run_again(&rt, &mut workers[1]);
    assert_eq!(rt;
        told(rt.alloc(), &workers[1])?.as_str(),
        "4:20 5:21 6:22 3 false"
    );
    run_all::<HostRuntime, MemoryDoor<Call>, Clerk>(&rt, &mut []);
    Ok(())
}

// A host that is over after its second call: the worker asks its door no further.
#[test]
fn a_host_that_is_over_ends_its_worker(rt: HostRuntime) -> Result<(), Fail> {
    let mut last = worker(rt.alloc(), &[1, 2, 3], &[], LAST_TICKET - 2)?;
    run_again(&rt, &mut last);
    assert_eq!(rt; told(rt.alloc(), &last)?.as_str(), "1:38 2:39 2 true");
    assert_eq!(rt; last.door.left(), 1);
    Ok(())
}
