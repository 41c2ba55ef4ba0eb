// The workers of a service, each with a gate, a loop, and a desk with a pass and a keeper of its own.
ghost use Rattle.std.specs.Prelude.{◌≡◌, ◌+◌, ◌<◌, ◌≤◌, [], All, IfOk, map, vec_len, vec_capacity};
ghost use Rattle.ifdb_turn.specs.Passes.{history, places, shares, BelongsTo, IsOrderly};
ghost use Rattle.ifdb_history.specs.History.{IsRight};
ghost use Rattle.ifdb_pool.specs.Work.{AllWorked};
ghost use Rattle.ifdb_session.specs.Starts.{start_of};
ghost use Rattle.ifdb_service.specs.Workers.{GoesOnWithout, HasMore};
ghost use Rattle.ifdb_gates.specs.Crew.{IsFresh, desks};
ghost use Rattle.ifdb_gates.specs.Work.{CanServe, HasServed, IsNewGate};

use crate::work::{Worker, run_all};
use ifdb_desk::Desk;
use ifdb_hearer::Hearer;
use ifdb_io::OutOfMemory;
use ifdb_keyed::AdminKey;
use ifdb_loop::{Gate, Loop, Terms};
use ifdb_service::{laws_hold, room_crosses};
use ifdb_session::{Records, Settles, SharedRoom};
use ifdb_turn::{Pass, Turnstile};
use ifdb_wire::Out;
use std::alloc::Global;
use std::sync::Wait;
use std::thread::Threads;

/// What a worker takes memory for.
#[derive(Drop)]
pub(crate) struct Means {
    looping: Loop,
    out: Out,
}

impl Means {
    fn new(alloc: Global, terms: Terms) -> Result<Means, OutOfMemory> {
        let looping = Loop::new(alloc, terms)?;
        let out = Out::new(alloc)?;
        Ok(Means { looping, out })
    }
}

/// What so many workers take memory for, on these terms.
///
/// # Errors
/// `OutOfMemory` where there is no memory for it.
pub(crate) fn means_for(
    alloc: Global,
    terms: Terms,
    count: usize,
) -> Result<Vec<Means>, OutOfMemory>
    ensures { IfOk result (λ means. vec_len means ≡ count) }
{
    let mut means = Vec::with_capacity(alloc, count)?;
    while means.len() < count {
        means.push(Means::new(alloc, terms)?)?;
    }
    Ok(means)
}

// A worker that has served nothing yet, with a keeper that goes on from another.
fn begin<'a, G: Gate, R: Wait, Q: Records, S: Settles<Q>>(
    rt: &'a R,
    alloc: Global,
    hall: &'a Turnstile<SharedRoom<Q>>,
    own: Pass<SharedRoom<Q>>,
    keeper: S,
    key: AdminKey,
    limit: usize,
    gate: G,
    means: Means,
) -> Worker<G, Hearer<Desk<'a, R, Q, S>>>
    requires pass { BelongsTo hall.now own }
    requires orderly { IsOrderly (IsRight (start_of Q.first)) own }
    requires share { shares own ≡ 1 }
    requires none { places own ≡ [] }
    requires keeper { S.Settles.ready keeper }
    requires keeper_share { S.Settles.has_shares keeper 1 }
    requires new { IsNewGate G.Gate gate }
    ensures gate { result.gate ≡ gate }
    ensures fresh { (first : S) → S.Settles.goes_on first keeper
        → IsFresh Q.Records S.Settles G.Gate hall.now key limit first result }
{
    let Means { looping, out } = means;
    let desk = Desk::new(rt, alloc, hall, own, keeper, out, limit);
    let service = Hearer::new(alloc, key, desk);
    Worker {
        gate,
        service,
        looping,
    }
}

/// Gives each gate a worker, with a pass and a keeper that are split off.
pub(crate) fn hire<'a, R: Wait, G: Gate + Drop, Q: Records, S: Settles<Q> + Drop>(
    rt: &'a R,
    alloc: Global,
    hall: &'a Turnstile<SharedRoom<Q>>,
    pass: &mut Pass<SharedRoom<Q>>,
    keeper: &mut S,
    key: AdminKey,
    limit: usize,
    gates: Vec<G>,
    means: &mut Vec<Means>,
    workers: &mut Vec<Worker<G, Hearer<Desk<'a, R, Q, S>>>>,
)
    requires pass { BelongsTo hall.now pass.old }
    requires orderly { IsOrderly (IsRight (start_of Q.first)) pass.old }
    requires shares { vec_len gates < shares pass.old }
    requires keeper { S.Settles.ready keeper.old }
    requires keeper_shares { HasMore S.Settles keeper.old (vec_len gates) }
    requires new { All (IsNewGate G.Gate) gates.items }
    requires means { vec_len means.old ≡ vec_len gates }
    requires none { workers.old.items ≡ [] }
    requires room { vec_len gates ≤ vec_capacity workers.old }
    ensures pass { BelongsTo hall.now pass.new }
    ensures shares { shares pass.new + vec_len gates ≡ shares pass.old }
    ensures history { history pass.new ≡ history pass.old }
    ensures places { places pass.new ≡ places pass.old }
    ensures keeper { GoesOnWithout S.Settles keeper.old keeper.new (vec_len gates) }
    ensures gates { map (λ w. w.gate) workers.new.items ≡ gates.items }
    ensures fresh { All (IsFresh Q.Records S.Settles G.Gate hall.now key limit keeper.old)
        workers.new.items }
{
    laws_hold::<Q, S>();
    for gate in gates {
        let Some(own_means) = means.pop() else {
            unreachable!()
        };
        let own = hall.split(pass);
        let own_keeper = keeper.split();
        let worker = begin(
            rt, alloc, hall, own, own_keeper, key, limit, gate, own_means,
        );
        let _ = workers.push(worker);
    }
}

/// Runs all workers, each in a thread of its own, and returns when the last one is done.
pub(crate) fn send<
    R: Threads + Wait + Sync,
    G: Gate + Send + Drop,
    Q: Records + Send,
    S: Settles<Q> + Send,
>(rt: &R, workers: &mut Vec<Worker<G, Hearer<Desk<'_, R, Q, S>>>>)
    requires { All (CanServe (desks Q.Records S.Settles) G.Gate) workers.old.items }
    ensures { AllWorked (HasServed (desks Q.Records S.Settles) G.Gate G.Port.Port)
        workers.old.items workers.new.items }
{
    room_crosses();
    run_all(rt, workers);
}
