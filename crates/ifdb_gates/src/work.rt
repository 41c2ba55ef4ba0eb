// A worker, and its work in a thread.
ghost use Rattle.std.specs.Prelude.{All};
ghost use Rattle.std.specs.Thread.{IsSend};
ghost use Rattle.ifdb_pool.specs.Work.{AllWorked};
ghost use Rattle.ifdb_gates.specs.Work.{CanServe, HasServed};

use ifdb_loop::{Gate, Loop, Service, serve};
use std::thread::{Threads, for_each_mut};

/// A gate, and what serves the connections that come through it.
#[derive(Drop)]
pub(crate) struct Worker<G, S> {
    pub(crate) gate: G,
    pub(crate) service: S,
    pub(crate) looping: Loop,
}

// Serves the gate until it is at its end or the loop has halted.
fn work<G: Gate, S: Service>(worker: &mut Worker<G, S>)
    requires { CanServe S.Service G.Gate worker.old }
    ensures { HasServed S.Service G.Gate G.Port.Port worker.old worker.new }
{
    let _ = serve(&mut worker.gate, &mut worker.service, &mut worker.looping);
}

/// Runs all workers side by side, each in a thread of its own, and returns when the last one is done. Where no thread can be made they
/// run one after another. Takes no memory of its own.
pub(crate) fn run_all<R: Threads + Sync, G: Gate + Send, S: Service + Send>(
    rt: &R,
    workers: &mut [Worker<G, S>],
)
    requires { All (CanServe S.Service G.Gate) workers.old }
    ensures { AllWorked (HasServed S.Service G.Gate G.Port.Port) workers.old workers.new }
{
    let count = workers.len();
    if count == 0 {
        return;
    }
    for_each_mut(
        rt,
        workers,
        count,
        &|_: usize, worker: &mut Worker<G, S>|
            requires { IsSend G.row × IsSend S.row × IsSend G.Port.row
                × CanServe S.Service G.Gate worker.now }
            ensures { HasServed S.Service G.Gate G.Port.Port worker.entry.now worker.exit.now }
        { work(worker) },
    );
}
