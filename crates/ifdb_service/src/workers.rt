// The workers of a service, each with a door, a pass and a keeper of its own.
ghost use Rattle.std.specs.Prelude.{◌≡◌, ◌+◌, ◌<◌, ◌≤◌, ◌^◌, [], All, map, vec_len, vec_capacity};
ghost use Rattle.ifdb_turn.specs.Passes.{history, places, shares, BelongsTo, IsOrderly};
ghost use Rattle.ifdb_history.specs.History.{IsRight};
ghost use Rattle.ifdb_pool.specs.Work.{AllWorked, Worked};
ghost use Rattle.ifdb_session.specs.Endings.{capped};
ghost use Rattle.ifdb_session.specs.Starts.{start_of};
ghost use Rattle.ifdb_service.specs.Workers.{GoesOnWithout, HasMore, IsFresh, hosts, one_if};

use crate::crossing::room_crosses;
use crate::laws::laws_hold;
use ifdb_io::Door;
use ifdb_pool::{Worker, run_all};
use ifdb_session::{Records, SessionHost, Settles, SharedRoom};
use ifdb_turn::{Pass, Turnstile};
use std::alloc::Global;
use std::marker::PhantomData;
use std::sync::Wait;
use std::thread::Threads;

/// Gives each door a worker, with a pass and a keeper that are split off.
pub(crate) fn hire<'a, R: Wait, D: Door + Drop, Q: Records, S: Settles<Q> + Drop>(
    rt: &'a R,
    alloc: Global,
    hall: &'a Turnstile<SharedRoom<Q>>,
    pass: &mut Pass<SharedRoom<Q>>,
    keeper: &mut S,
    doors: Vec<D>,
    limit: u64,
    workers: &mut Vec<Worker<D, SessionHost<'a, R, D::Link, Q, S>>>,
)
    requires pass { BelongsTo hall.now pass.old }
    requires orderly { IsOrderly (IsRight (start_of Q.first)) pass.old }
    requires shares { vec_len doors < shares pass.old }
    requires keeper { S.Settles.ready keeper.old }
    requires keeper_shares { HasMore S.Settles keeper.old (vec_len doors) }
    requires most { All (λ door. D.most door < 2 ^ 64) doors.items }
    requires limit { limit ≤ 2 ^ 40 }
    requires none { workers.old.items ≡ [] }
    requires room { vec_len doors ≤ vec_capacity workers.old }
    ensures pass { BelongsTo hall.now pass.new }
    ensures shares { shares pass.new + vec_len doors ≡ shares pass.old }
    ensures history { history pass.new ≡ history pass.old }
    ensures places { places pass.new ≡ places pass.old }
    ensures keeper { GoesOnWithout S.Settles keeper.old keeper.new (vec_len doors) }
    ensures doors { map (λ w. w.door) workers.new.items ≡ doors.items }
    ensures fresh { All (IsFresh Q.Records S.Settles D.Door hall.now limit keeper.old)
        workers.new.items }
{
    laws_hold::<Q, S>();
    for door in doors {
        let own = hall.split(pass);
        let own_keeper = keeper.split();
        let worker = begin(rt, alloc, hall, own, own_keeper, door, limit);
        let _ = workers.push(worker);
    }
}

/// A worker that has served nothing yet, with a keeper that goes on from another.
fn begin<'a, R, D: Door, Q: Records, S: Settles<Q>>(
    rt: &'a R,
    alloc: Global,
    hall: &'a Turnstile<SharedRoom<Q>>,
    own: Pass<SharedRoom<Q>>,
    keeper: S,
    door: D,
    limit: u64,
) -> Worker<D, SessionHost<'a, R, D::Link, Q, S>>
    requires pass { BelongsTo hall.now own }
    requires orderly { IsOrderly (IsRight (start_of Q.first)) own }
    requires share { shares own ≡ 1 }
    requires none { places own ≡ [] }
    requires keeper { S.Settles.ready keeper }
    requires keeper_share { S.Settles.has_shares keeper 1 }
    requires most { D.most door < 2 ^ 64 }
    requires limit { limit ≤ 2 ^ 40 }
    ensures door { result.door ≡ door }
    ensures fresh { (first : S) → S.Settles.goes_on first keeper
        → IsFresh Q.Records S.Settles D.Door hall.entry.now limit first result }
{
    let host = SessionHost {
        rt,
        alloc,
        hall,
        pass: own,
        keeper,
        limit,
        faults: 0,
        link: PhantomData,
    };
    Worker {
        door,
        host,
        links: 0,
        failed: false,
    }
}

/// Runs all workers, each in a thread of its own, whose keepers went on from a first one.
pub(crate) fn send<
    R: Threads + Wait + Sync,
    D: Door + Send + Drop,
    Q: Records + Send,
    S: Settles<Q> + Send,
>(
    rt: &R,
    hall: &Turnstile<SharedRoom<Q>>,
    limit: u64,
    workers: &mut Vec<Worker<D, SessionHost<'_, R, D::Link, Q, S>>>,
)
    requires fresh { (first : S)
        × All (IsFresh Q.Records S.Settles D.Door hall.now limit first) workers.old.items }
    ensures { AllWorked (Worked D.Door (hosts D.Link.Source D.Link.Sink Q.Records S.Settles))
        workers.old.items workers.new.items }
{
    let _ = hall;
    let _ = limit;
    room_crosses();
    run_all(rt, workers);
}

/// The faults so far, those of a worker, and whether its door failed, in one count.
pub(crate) fn more_faults(faults: u64, bad: u64, failed: bool) -> u64
    ensures { result ≡ capped (capped (faults + bad) + one_if failed) }
{
    let faults = faults.saturating_add(bad);
    if failed {
        faults.saturating_add(1)
    } else {
        faults
    }
}
