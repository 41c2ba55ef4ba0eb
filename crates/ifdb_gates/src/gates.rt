// The service of gates.
ghost use Rattle.std.specs.Prelude.{◌≡◌, ◌<◌, [], All, IfErr, IfOk, vec_len};
ghost use Rattle.ifdb_turn.specs.Passes.{shares, places, BelongsTo, IsOrderly};
ghost use Rattle.ifdb_history.specs.History.{IsRight};
ghost use Rattle.ifdb_keyed.specs.Keys.{key_bytes};
ghost use Rattle.ifdb_session.specs.Acknowledged.{KnowsKept};
ghost use Rattle.ifdb_session.specs.Passes.{Sees};
ghost use Rattle.ifdb_session.specs.Starts.{start_of};
ghost use Rattle.ifdb_service.specs.Workers.{GoesOnWithout, HasMore};
ghost use Rattle.ifdb_gates.specs.Work.{IsNewGate};
ghost use Rattle.ifdb_gates.specs.Served.{ServedAll};

use crate::work::Worker;
use crate::workers::{hire, means_for, send};
use ifdb_desk::Desk;
use ifdb_hearer::Hearer;
use ifdb_keyed::AdminKey;
use ifdb_loop::{Gate, Terms};
use ifdb_service::laws_hold;
use ifdb_session::{Records, Settles, SharedRoom};
use ifdb_turn::{Pass, Turnstile};
use std::alloc::Global;
use std::sync::Wait;
use std::thread::Threads;

/// Gates at which nobody was served, since there was no memory.
#[derive(Drop)]
pub struct Unserved<G> {
    /// The gates, as they were.
    pub gates: Vec<G>,
}

/// Serves the connections that come through gates, each of which has a loop in a thread of its own, over the room behind a turnstile.
/// Lines are heard by this key for admin, and each connection may give so many bytes. Returns once each gate is at its end or its
/// loop has halted, and gives the gates back.
///
/// # Errors
/// `Unserved` where there was no memory for the loops: no connection was taken.
pub fn serve_gates<
    R: Threads + Wait + Sync,
    G: Gate + Send + Drop,
    Q: Records + Send,
    S: Settles<Q> + Send + Drop,
>(
    rt: &R,
    alloc: Global,
    hall: &Turnstile<SharedRoom<Q>>,
    pass: &mut Pass<SharedRoom<Q>>,
    keeper: &mut S,
    key: AdminKey,
    terms: Terms,
    limit: usize,
    gates: Vec<G>,
) -> Result<Vec<G>, Unserved<G>>
    requires pass { BelongsTo hall.now pass.old }
    requires orderly { IsOrderly (IsRight (start_of Q.first)) pass.old }
    requires none { places pass.old ≡ [] }
    requires shares { vec_len gates < shares pass.old }
    requires keeper { S.Settles.ready keeper.old }
    requires keeper_shares { HasMore S.Settles keeper.old (vec_len gates) }
    requires new { All (IsNewGate G.Gate) gates.items }
    ensures sees { Sees Q.first hall.now pass.old pass.new }
    ensures keeper { GoesOnWithout S.Settles keeper.old keeper.new 0 }
    ensures unserved { IfErr result (λ e. (e.gates ≡ gates) × (pass.new ≡ pass.old)
        × (keeper.new ≡ keeper.old)) }
    ensures served { IfOk result (λ back. ServedAll G.Port.Port (key_bytes key) limit Q.first
        (KnowsKept Q.Records S.Settles keeper.new) (S.Settles.has_failed keeper.new) G.Gate
        pass.new gates.items back.items) }
{
    laws_hold::<Q, S>();
    let Ok(mut means) = means_for(alloc, terms, gates.len()) else {
        return Err(Unserved { gates });
    };
    let Ok(mut workers) = Vec::with_capacity(alloc, gates.len()) else {
        return Err(Unserved { gates });
    };
    let Ok(mut back) = Vec::with_capacity(alloc, gates.len()) else {
        return Err(Unserved { gates });
    };
    hire(
        rt,
        alloc,
        hall,
        pass,
        keeper,
        key,
        limit,
        gates,
        &mut means,
        &mut workers,
    );
    send(rt, &mut workers);
    for worker in workers {
        let Worker { gate, service, .. } = worker;
        let Hearer { service: desk, .. } = service;
        let Desk {
            pass: own,
            keeper: own_keeper,
            ..
        } = desk;
        hall.join_pass(pass, own);
        keeper.join(own_keeper);
        let _ = back.push(gate);
    }
    Ok(back)
}
