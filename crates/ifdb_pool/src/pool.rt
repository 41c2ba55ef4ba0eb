// All workers, side by side.
ghost use Rattle.std.specs.Prelude.{All};
ghost use Rattle.std.specs.Thread.{IsSend};
ghost use Rattle.ifdb_pool.specs.Work.{IsReady, Worked, AllWorked};

use crate::worker::work;
use crate::{Host, Worker};
use ifdb_io::Door;
use std::thread::{Threads, for_each_mut};

/// Runs all workers side by side, each in a thread of its own, and returns when the last one is
/// done. Where no thread can be made they run one after another. Takes no memory of its own.
pub fn run_all<R: Threads + Sync, D: Door + Send, H: Host<Link = D::Link> + Send>(
    rt: &R,
    workers: &mut [Worker<D, H>],
)
    requires { All (IsReady D.Door H.Host) workers.old }
    ensures { AllWorked (Worked D.Door H.Host) workers.old workers.new }
{
    let count = workers.len();
    if count == 0 {
        return;
    }
    for_each_mut(
        rt,
        workers,
        count,
        &|_: usize, worker: &mut Worker<D, H>|
            requires { IsSend D.row × IsSend H.row × IsSend D.Link.row
                × IsReady D.Door H.Host worker.now }
            ensures { Worked D.Door H.Host worker.entry.now worker.exit.now }
        { work(worker) },
    );
}
