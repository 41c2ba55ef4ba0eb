// All doors, served side by side.
ghost use Rattle.std.specs.Prelude.{◌≡◌, ◌<◌, ◌≤◌, ◌^◌, All, IfErr, IfOk, vec_len};
ghost use Rattle.ifdb_turn.specs.Passes.{shares, BelongsTo, IsOrderly};
ghost use Rattle.ifdb_history.specs.History.{IsRight};
ghost use Rattle.ifdb_session.specs.Acknowledged.{KnowsKept};
ghost use Rattle.ifdb_session.specs.Passes.{Sees};
ghost use Rattle.ifdb_session.specs.Starts.{start_of};
ghost use Rattle.ifdb_service.specs.Doors.{ServedAll};
ghost use Rattle.ifdb_service.specs.Workers.{GoesOnWithout, HasMore};

use crate::laws::laws_hold;
use crate::workers::{hire, more_faults, send};
use ifdb_io::Door;
use ifdb_pool::Worker;
use ifdb_session::{Records, SessionHost, Settles, SharedRoom};
use ifdb_turn::{Pass, Turnstile};
use std::alloc::Global;
use std::sync::Wait;
use std::thread::Threads;

/// The doors after their service.
#[derive(Drop)]
pub struct Ended<D> {
    /// The doors, in the order in which they were given.
    pub doors: Vec<D>,
    /// How many connections ended otherwise than by BYE or at the end of their input, and how many doors weren't served to their
    /// end, up to 2^64 - 1.
    pub faults: u64,
}

/// There was no memory for the workers, and no connection was taken.
#[derive(Drop)]
pub struct Unserved<D> {
    /// The doors, as they were given.
    pub doors: Vec<D>,
}

/// Serves all connections of all doors, each door in a thread of its own, each connection by a session of the shared room, and
/// returns when the last door is at its end or has failed. Each connection may send so many bytes. What its replies are answered
/// from is kept before they are written, by the keeper. Pass and keeper need more shares than there are doors, and have their
/// shares again afterwards; the keeper then knows what all workers were told.
///
/// Takes the memory for the workers before any connection is taken; `Unserved` is want of it.
pub fn serve_doors<
    R: Threads + Wait + Sync,
    D: Door + Send + Drop,
    Q: Records + Send,
    S: Settles<Q> + Send + Drop,
>(
    rt: &R,
    alloc: Global,
    hall: &Turnstile<SharedRoom<Q>>,
    pass: &mut Pass<SharedRoom<Q>>,
    keeper: &mut S,
    doors: Vec<D>,
    limit: u64,
) -> Result<Ended<D>, Unserved<D>>
    requires pass { BelongsTo hall.now pass.old }
    requires orderly { IsOrderly (IsRight (start_of Q.first)) pass.old }
    requires shares { vec_len doors < shares pass.old }
    requires keeper { S.Settles.ready keeper.old }
    requires keeper_shares { HasMore S.Settles keeper.old (vec_len doors) }
    requires most { All (λ door. D.most door < 2 ^ 64) doors.items }
    requires limit { limit ≤ 2 ^ 40 }
    ensures sees { Sees Q.first hall.now pass.old pass.new }
    ensures keeper { GoesOnWithout S.Settles keeper.old keeper.new 0 }
    ensures unserved { IfErr result (λ e. (e.doors ≡ doors) × (pass.new ≡ pass.old)
        × (keeper.new ≡ keeper.old)) }
    ensures ended { IfOk result (λ e. ServedAll D.Link.Source D.Link.Sink Q.first
        (KnowsKept Q.Records S.Settles keeper.new) (S.Settles.has_failed keeper.new) D.Door limit
        pass.old pass.new doors.items e.doors.items e.faults) }
{
    laws_hold::<Q, S>();
    let Ok(mut workers) = Vec::with_capacity(alloc, doors.len()) else {
        return Err(Unserved { doors });
    };
    let Ok(mut back) = Vec::with_capacity(alloc, doors.len()) else {
        return Err(Unserved { doors });
    };
    hire(rt, alloc, hall, pass, keeper, doors, limit, &mut workers);
    send(rt, hall, limit, &mut workers);
    let mut faults = 0;
    for worker in workers {
        let Worker {
            door,
            host,
            links: _,
            failed,
        } = worker;
        let SessionHost {
            pass: own,
            keeper: own_keeper,
            faults: bad,
            ..
        } = host;
        hall.join_pass(pass, own);
        keeper.join(own_keeper);
        faults = more_faults(faults, bad, failed);
        let _ = back.push(door);
    }
    Ok(Ended {
        doors: back,
        faults,
    })
}
