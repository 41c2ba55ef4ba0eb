// The rounds of a loop.
ghost use Rattle.std.specs.Prelude.{◌≡◌, ◌≢◌, ◌+◌, ◌<◌, ◌≤◌, ℕ, [], length, None, true, Err, IfErr, IfOk, IfSome, OnOk};
ghost use Rattle.slab.specs.Slab.{get};
ghost use Rattle.ifdb_io.specs.Causes.{Rose};
ghost use Rattle.ifdb_loop.specs.Crowd.{AreServed, numbers_in};
ghost use Rattle.ifdb_loop.specs.Gates.{has_ended};
ghost use Rattle.ifdb_loop.specs.Rounds.{IsInOrder, IsSteady};
ghost use Rattle.ifdb_loop.specs.Standing.{HasHalted};

use crate::crowd::{admit, cut_off, hang_up, nobody, round};
use crate::{Arrivals, Chunk, Client, Gate, Halt, Service, Terms, Timing};
use ifdb_io::OutOfMemory;
use slab::Slab;
use std::alloc::Global;

// How many connections are taken in a round at most.
const MANY: usize = 256;

/// What a loop has beside its connections: the terms, and memory for a round.
#[derive(Drop)]
pub struct Loop {
    /// What each connection is allowed.
    pub terms: Terms,
    pub(crate) alloc: Global,
    pub(crate) chunk: Chunk,
    /// The keys of connections that are ready in this round.
    pub(crate) ready: Vec<usize>,
    /// The keys of those that are listed for the next one, each once.
    pub(crate) again: Vec<usize>,
    // The second at which overdue connections were looked for.
    looked: u64,
}

impl Loop {
    /// Takes the memory of a loop, some 200 KiB.
    ///
    /// # Errors
    /// `OutOfMemory` where there is no memory for it.
    pub fn new(alloc: Global, terms: Terms) -> Result<Loop, OutOfMemory>
        ensures { IfOk result (λ looping. looping.terms ≡ terms) }
    {
        Ok(Loop {
            terms,
            alloc,
            chunk: Chunk::new(alloc)?,
            ready: Vec::with_capacity(alloc, 4096)?,
            again: Vec::with_capacity(alloc, 4096)?,
            looked: 0,
        })
    }

    // Makes those ready that were listed.
    fn begin(&mut self) {
        self.ready.clear();
        std::mem::swap(&mut self.ready, &mut self.again);
    }

    // Takes room for so many connections in the lists.
    pub(crate) fn reserve_list(&mut self, count: usize) -> Result<(), OutOfMemory> {
        self.ready.reserve(count)?;
        self.again.reserve(count)
    }

    // Makes those ready, once a second, that were waited for long enough.
    fn add_overdue<P, T>(&mut self, clients: &Slab<Client<P, T>>, timing: &Timing) {
        if timing.now == self.looked {
            return;
        }
        self.looked = timing.now;
        for (key, client) in clients.iter() {
            if client.is_overdue(timing) && self.ready.push(key).is_err() {
                return;
            }
        }
    }
}

// Opens a session for a connection that has come, or gives it back where there is no room.
fn take_in<G: Gate, S: Service>(
    gate: &mut G,
    service: &mut S,
    looping: &mut Loop,
    clients: &mut Slab<Client<G::Port, S::Seat>>,
    port: G::Port,
    timing: &Timing,
)
    requires ready { S.ready service.old }
    requires kept { S.is_kept service.old }
    requires served { AreServed S.Service G.Port.Port service.old clients.old }
    requires order { IsInOrder S.Service G.Port.Port G.Gate service.old gate.old
        (numbers_in S.Service clients.old) }
    requires out { G.out gate.old ≡ length (numbers_in S.Service clients.old) + 1 }
    requires given { IfSome (G.Port.Port.given port) (λ bytes. bytes ≡ []) }
    requires written { IfSome (G.Port.Port.written port) (λ bytes. bytes ≡ []) }
    requires reads { G.Port.Port.unread port ≡ 0 }
    requires writes { G.Port.Port.unwritten port ≡ 0 }
    ensures ready { S.ready service.new }
    ensures goes_on { S.goes_on service.old service.new }
    ensures kept { S.is_kept service.new }
    ensures served { AreServed S.Service G.Port.Port service.new clients.new }
    ensures order { IsInOrder S.Service G.Port.Port G.Gate service.new gate.new
        (numbers_in S.Service clients.new) }
    ensures out { G.out gate.new ≡ length (numbers_in S.Service clients.new) }
    ensures steady { IsSteady G.Gate gate.old gate.new }
{
    let port = match admit(service, looping, clients, port, timing) {
        Ok(()) => return,
        Err(port) => port,
    };
    gate.refuse(port);
}

// Opens sessions for the connections that have come, as far as there is room.
fn take_new<G: Gate, S: Service>(
    gate: &mut G,
    service: &mut S,
    looping: &mut Loop,
    clients: &mut Slab<Client<G::Port, S::Seat>>,
    timing: &Timing,
)
    requires ready { S.ready service.old }
    requires kept { S.is_kept service.old }
    requires served { AreServed S.Service G.Port.Port service.old clients.old }
    requires order { IsInOrder S.Service G.Port.Port G.Gate service.old gate.old
        (numbers_in S.Service clients.old) }
    requires out { G.out gate.old ≡ length (numbers_in S.Service clients.old) }
    ensures ready { S.ready service.new }
    ensures goes_on { S.goes_on service.old service.new }
    ensures kept { S.is_kept service.new }
    ensures served { AreServed S.Service G.Port.Port service.new clients.new }
    ensures order { IsInOrder S.Service G.Port.Port G.Gate service.new gate.new
        (numbers_in S.Service clients.new) }
    ensures out { G.out gate.new ≡ length (numbers_in S.Service clients.new) }
    ensures steady { IsSteady G.Gate gate.old gate.new }
{
    for _ in 0..MANY {
        let Some(port) = gate.next(clients.vacant_key()) else {
            return;
        };
        take_in(gate, service, looping, clients, port, timing);
    }
}

// Gives back the connection at a key, if it is over.
fn give_back_at<G: Gate, S: Service>(
    gate: &mut G,
    service: &mut S,
    clients: &mut Slab<Client<G::Port, S::Seat>>,
    key: usize,
)
    requires ready { S.ready service.old }
    requires kept { S.is_kept service.old }
    requires served { AreServed S.Service G.Port.Port service.old clients.old }
    requires order { IsInOrder S.Service G.Port.Port G.Gate service.old gate.old
        (numbers_in S.Service clients.old) }
    requires out { G.out gate.old ≡ length (numbers_in S.Service clients.old) }
    ensures ready { S.ready service.new }
    ensures goes_on { S.goes_on service.old service.new }
    ensures kept { S.is_kept service.new }
    ensures served { AreServed S.Service G.Port.Port service.new clients.new }
    ensures order { IsInOrder S.Service G.Port.Port G.Gate service.new gate.new
        (numbers_in S.Service clients.new) }
    ensures out { G.out gate.new ≡ length (numbers_in S.Service clients.new) }
    ensures steady { IsSteady G.Gate gate.old gate.new }
{
    let Some(over) = hang_up(service, clients, key) else {
        return;
    };
    gate.done(over);
}

// Gives back those of the ready connections that are over.
fn give_back<G: Gate, S: Service>(
    gate: &mut G,
    service: &mut S,
    clients: &mut Slab<Client<G::Port, S::Seat>>,
    ready: &[usize],
)
    requires ready { S.ready service.old }
    requires kept { S.is_kept service.old }
    requires served { AreServed S.Service G.Port.Port service.old clients.old }
    requires order { IsInOrder S.Service G.Port.Port G.Gate service.old gate.old
        (numbers_in S.Service clients.old) }
    requires out { G.out gate.old ≡ length (numbers_in S.Service clients.old) }
    ensures ready { S.ready service.new }
    ensures goes_on { S.goes_on service.old service.new }
    ensures kept { S.is_kept service.new }
    ensures served { AreServed S.Service G.Port.Port service.new clients.new }
    ensures order { IsInOrder S.Service G.Port.Port G.Gate service.new gate.new
        (numbers_in S.Service clients.new) }
    ensures out { G.out gate.new ≡ length (numbers_in S.Service clients.new) }
    ensures steady { IsSteady G.Gate gate.old gate.new }
{
    for key in ready {
        give_back_at(gate, service, clients, *key);
    }
}

// A round: waits until connections are ready, serves them, gives back those that are over, and takes those that have come. Says
// whether more may come.
fn go_round<G: Gate, S: Service>(
    gate: &mut G,
    service: &mut S,
    looping: &mut Loop,
    clients: &mut Slab<Client<G::Port, S::Seat>>,
) -> Result<Arrivals, Halt>
    requires ready { S.ready service.old }
    requires served { AreServed S.Service G.Port.Port service.old clients.old }
    requires order { IsInOrder S.Service G.Port.Port G.Gate service.old gate.old
        (numbers_in S.Service clients.old) }
    requires out { G.out gate.old ≡ length (numbers_in S.Service clients.old) }
    ensures ready { S.ready service.new }
    ensures goes_on { S.goes_on service.old service.new }
    ensures served { AreServed S.Service G.Port.Port service.new clients.new }
    ensures order { IsInOrder S.Service G.Port.Port G.Gate service.new gate.new
        (numbers_in S.Service clients.new) }
    ensures out { G.out gate.new ≡ length (numbers_in S.Service clients.new) }
    ensures fewer { OnOk result (G.most gate.new < G.most gate.old) }
    ensures end { IfOk result (λ arrivals. G.ended gate.new ≡ has_ended arrivals) }
    ensures gate { result ≡ Err Halt.Gate → Rose (G.faults gate.old) (G.faults gate.new) }
    ensures faults { result ≢ Err Halt.Gate → G.faults gate.new ≡ G.faults gate.old }
    ensures halted { IfErr result (HasHalted S.Service G.Port.Port service.new (G.faults gate.new)) }
{
    looping.begin();
    let arrivals = match gate.wait(!looping.ready.is_empty(), &mut looping.ready) {
        Ok(arrivals) => arrivals,
        Err(_) => return Err(Halt::Gate),
    };
    let timing = Timing {
        terms: looping.terms,
        now: gate.seconds(),
    };
    looping.add_overdue(clients, &timing);
    if round(service, looping, clients, &timing).is_err() {
        return Err(Halt::Unkept);
    }
    give_back(gate, service, clients, &looping.ready);
    take_new(gate, service, looping, clients, &timing);
    Ok(arrivals)
}

// Rounds, until the gate is at its end and no connection is in.
fn go_on<G: Gate, S: Service>(
    gate: &mut G,
    service: &mut S,
    looping: &mut Loop,
    clients: &mut Slab<Client<G::Port, S::Seat>>,
) -> Result<(), Halt>
    requires ready { S.ready service.old }
    requires served { AreServed S.Service G.Port.Port service.old clients.old }
    requires order { IsInOrder S.Service G.Port.Port G.Gate service.old gate.old
        (numbers_in S.Service clients.old) }
    requires out { G.out gate.old ≡ length (numbers_in S.Service clients.old) }
    ensures ready { S.ready service.new }
    ensures goes_on { S.goes_on service.old service.new }
    ensures served { AreServed S.Service G.Port.Port service.new clients.new }
    ensures order { IsInOrder S.Service G.Port.Port G.Gate service.new gate.new
        (numbers_in S.Service clients.new) }
    ensures out { G.out gate.new ≡ length (numbers_in S.Service clients.new) }
    ensures none { OnOk result (numbers_in S.Service clients.new ≡ []) }
    ensures end { OnOk result (G.ended gate.new ≡ true) }
    ensures gate { result ≡ Err Halt.Gate → Rose (G.faults gate.old) (G.faults gate.new) }
    ensures faults { result ≢ Err Halt.Gate → G.faults gate.new ≡ G.faults gate.old }
    ensures halted { IfErr result (HasHalted S.Service G.Port.Port service.new (G.faults gate.new)) }
{
    loop {
        let arrivals = go_round(gate, service, looping, clients)?;
        if arrivals.has_ended() && clients.is_empty() {
            return Ok(());
        }
    }
}

// Gives back the connection at a key, if there is one, where the loop has halted.
fn close_at<G: Gate, S: Service>(
    gate: &mut G,
    service: &mut S,
    clients: &mut Slab<Client<G::Port, S::Seat>>,
    key: usize,
    halt: Halt,
)
    requires ready { S.ready service.old }
    requires halted { HasHalted S.Service G.Port.Port service.old (G.faults gate.old) halt }
    requires served { AreServed S.Service G.Port.Port service.old clients.old }
    requires order { IsInOrder S.Service G.Port.Port G.Gate service.old gate.old
        (numbers_in S.Service clients.old) }
    requires out { G.out gate.old ≡ length (numbers_in S.Service clients.old) }
    ensures ready { S.ready service.new }
    ensures goes_on { S.goes_on service.old service.new }
    ensures served { AreServed S.Service G.Port.Port service.new clients.new }
    ensures order { IsInOrder S.Service G.Port.Port G.Gate service.new gate.new
        (numbers_in S.Service clients.new) }
    ensures out { G.out gate.new ≡ length (numbers_in S.Service clients.new) }
    ensures steady { IsSteady G.Gate gate.old gate.new }
    ensures gone { get clients.new key ≡ None }
    ensures rest { (j : ℕ) → get clients.old j ≡ None → get clients.new j ≡ None }
    ensures slots { length clients.new.slots ≡ length clients.old.slots }
{
    let Some(over) = cut_off(service, clients, key, halt) else {
        return;
    };
    gate.done(over);
}

// Gives back all connections where the loop has halted. What they owe will never be written.
fn close<G: Gate, S: Service>(
    gate: &mut G,
    service: &mut S,
    clients: &mut Slab<Client<G::Port, S::Seat>>,
    halt: Halt,
)
    requires ready { S.ready service.old }
    requires halted { HasHalted S.Service G.Port.Port service.old (G.faults gate.old) halt }
    requires served { AreServed S.Service G.Port.Port service.old clients.old }
    requires order { IsInOrder S.Service G.Port.Port G.Gate service.old gate.old
        (numbers_in S.Service clients.old) }
    requires out { G.out gate.old ≡ length (numbers_in S.Service clients.old) }
    ensures ready { S.ready service.new }
    ensures goes_on { S.goes_on service.old service.new }
    ensures served { AreServed S.Service G.Port.Port service.new clients.new }
    ensures order { IsInOrder S.Service G.Port.Port G.Gate service.new gate.new
        (numbers_in S.Service clients.new) }
    ensures out { G.out gate.new ≡ length (numbers_in S.Service clients.new) }
    ensures steady { IsSteady G.Gate gate.old gate.new }
    ensures none { numbers_in S.Service clients.new ≡ [] }
{
    for key in 0..clients.capacity() {
        close_at(gate, service, clients, key, halt);
    }
}

/// Serves the connections that come through a gate, in rounds, until the gate is at its end and all of them are over. Each round
/// waits until connections are ready, gives each of these its turn, and takes those that have come. At every end all connections
/// were given back.
///
/// # Errors
/// `Gate` where the gate failed, and `Unkept` where no more can be kept. Then what connections owe is never written, each that
/// hadn't ended was given back as `Halted`, and the gate was told.
pub fn serve<G: Gate, S: Service>(
    gate: &mut G,
    service: &mut S,
    looping: &mut Loop,
) -> Result<(), Halt>
    requires ready { S.ready service.old }
    requires order { IsInOrder S.Service G.Port.Port G.Gate service.old gate.old [] }
    requires out { G.out gate.old ≡ 0 }
    ensures ready { S.ready service.new }
    ensures goes_on { S.goes_on service.old service.new }
    ensures order { IsInOrder S.Service G.Port.Port G.Gate service.new gate.new [] }
    ensures out { G.out gate.new ≡ 0 }
    ensures end { OnOk result (G.ended gate.new ≡ true) }
    ensures gate { result ≡ Err Halt.Gate → Rose (G.faults gate.old) (G.faults gate.new) }
    ensures faults { result ≢ Err Halt.Gate → G.faults gate.new ≡ G.faults gate.old }
    ensures unkept { result ≡ Err Halt.Unkept → S.has_failed service.new }
{
    let mut clients = nobody::<G::Port, S>(looping.alloc);
    let halt = match go_on(gate, service, looping, &mut clients) {
        Ok(()) => return Ok(()),
        Err(halt) => halt,
    };
    close(gate, service, &mut clients, halt);
    gate.halt();
    Err(halt)
}
