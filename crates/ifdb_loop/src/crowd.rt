// A round of a loop over its connections.
ghost use Rattle.std.specs.Prelude.{◌≡◌, ◌≤◌, ℕ, [], length, None, Some, OnOk, OnErr, IfSome, IfNone, IfErr};
ghost use Rattle.slab.specs.Slab.{get, values};
ghost use Rattle.ifdb_loop.specs.Crowd.{Admits, AreServed, HasEndedAt, TakesOut, numbers_in};
ghost use Rattle.ifdb_loop.specs.Dialogues.{Dialogue};
ghost use Rattle.ifdb_loop.specs.Standing.{HasHalted, IsServed, KeepsOthers};

use crate::turn::turn;
use crate::{Chunk, Client, Ending, Halt, Loop, Over, Pace, Port, Service, Timing, Wires};
use ifdb_io::Failed;
use slab::Slab;
use std::alloc::Global;

// The connections of a loop before the first has come.
pub(crate) fn nobody<P: Port, S: Service>(alloc: Global) -> Slab<Client<P, S::Seat>>
    ensures served { (s : S) → AreServed S.Service P.Port s result }
    ensures numbers { numbers_in S.Service result ≡ [] }
{
    Slab::new(alloc)
}

// Opens a session for a connection that has given nothing yet and was told nothing. Its key is the slab's next one. All memory
// for its turns is taken here, but that for its bytes.
//
// Where there are as many connections as the terms allow, or there is no memory for it, the connection comes back, and no
// session was opened.
pub(crate) fn admit<P: Port + Drop, S: Service>(
    service: &mut S,
    looping: &mut Loop,
    clients: &mut Slab<Client<P, S::Seat>>,
    port: P,
    timing: &Timing,
) -> Result<(), P>
    requires ready { S.ready service.old }
    requires served { AreServed S.Service P.Port service.old clients.old }
    requires given { IfSome (P.given port) (λ bytes. bytes ≡ []) }
    requires written { IfSome (P.written port) (λ bytes. bytes ≡ []) }
    requires reads { P.unread port ≡ 0 }
    requires writes { P.unwritten port ≡ 0 }
    ensures ready { S.ready service.new }
    ensures goes_on { S.goes_on service.old service.new }
    ensures kept { S.is_kept service.old → S.is_kept service.new }
    ensures served { AreServed S.Service P.Port service.new clients.new }
    ensures admits { OnOk result (Admits S.Service service.old service.new clients.old clients.new) }
    ensures opened { OnErr result (S.opened service.new ≡ S.opened service.old) }
    ensures numbers { OnErr result
        (numbers_in S.Service clients.new ≡ numbers_in S.Service clients.old) }
{
    if clients.len() >= timing.terms.connections {
        return Err(port);
    }
    if looping.reserve_list(clients.len() + 1).is_err() {
        return Err(port);
    }
    if clients.reserve(1).is_err() {
        return Err(port);
    }
    let seat = match service.open() {
        Ok(seat) => seat,
        Err(_) => return Err(port),
    };
    clients.insert_reserved(Client {
        port,
        wires: Wires::new(looping.alloc),
        seat,
        room: service.limit(),
        ending: None,
        is_lost: false,
        pace: Pace::new(timing.now),
    });
    Ok(())
}

// The turn of the connection at a key, if there is one.
fn turn_at<P: Port + Drop, S: Service>(
    service: &mut S,
    chunk: &mut Chunk,
    clients: &mut Slab<Client<P, S::Seat>>,
    key: usize,
    timing: &Timing,
)
    requires ready { S.ready service.old }
    requires served { AreServed S.Service P.Port service.old clients.old }
    ensures ready { S.ready service.new }
    ensures goes_on { S.goes_on service.old service.new }
    ensures opened { S.opened service.new ≡ S.opened service.old }
    ensures served { AreServed S.Service P.Port service.new clients.new }
    ensures numbers { numbers_in S.Service clients.new ≡ numbers_in S.Service clients.old }
{
    let Some(mut client) = clients.try_remove(key) else {
        return;
    };
    turn(service, chunk, &mut client, timing);
    clients.insert_reserved(client);
}

// Writes what a connection owes, as far as there is room for it, and ends it where writing fails.
fn flush<P: Port, S: Service>(service: &S, client: &mut Client<P, S::Seat>, timing: &Timing)
    requires kept { S.is_kept service.now }
    requires served { IsServed S.Service P.Port service.now client.old }
    ensures served { IsServed S.Service P.Port service.now client.new }
    ensures seat { client.new.seat ≡ client.old.seat }
{
    if client.write(timing).is_ok() {
        return;
    }
    client.ending = Some(client.ending.unwrap_or(Ending::LinkWrite));
    client.is_lost = true;
}

// Writes what the connection at a key owes, as far as there is room for it, and says whether it is to be listed for a turn in the
// next round.
fn flush_at<P: Port + Drop, S: Service>(
    service: &S,
    clients: &mut Slab<Client<P, S::Seat>>,
    key: usize,
    timing: &Timing,
) -> bool
    requires kept { S.is_kept service.now }
    requires served { AreServed S.Service P.Port service.now clients.old }
    ensures served { AreServed S.Service P.Port service.now clients.new }
    ensures numbers { numbers_in S.Service clients.new ≡ numbers_in S.Service clients.old }
{
    let Some(mut client) = clients.try_remove(key) else {
        return false;
    };
    flush(service, &mut client, timing);
    let is_new = client.list();
    clients.insert_reserved(client);
    is_new
}

// A round: each connection that is ready has its turn, then what they were answered from is settled, and then what they owe is
// written, as far as there is room for it. Those of which more may be at hand, which no event will tell, are listed for the next
// round. `Failed` where it can't be settled: nothing was written then.
pub(crate) fn round<P: Port + Drop, S: Service>(
    service: &mut S,
    looping: &mut Loop,
    clients: &mut Slab<Client<P, S::Seat>>,
    timing: &Timing,
) -> Result<(), Failed>
    requires ready { S.ready service.old }
    requires served { AreServed S.Service P.Port service.old clients.old }
    ensures ready { S.ready service.new }
    ensures goes_on { S.goes_on service.old service.new }
    ensures opened { S.opened service.new ≡ S.opened service.old }
    ensures served { AreServed S.Service P.Port service.new clients.new }
    ensures numbers { numbers_in S.Service clients.new ≡ numbers_in S.Service clients.old }
    ensures kept { OnOk result (S.is_kept service.new) }
    ensures failed { OnErr result (S.has_failed service.new) }
{
    for key in &looping.ready {
        turn_at(service, &mut looping.chunk, clients, *key, timing);
    }
    service.settle()?;
    for key in &looping.ready {
        if flush_at(service, clients, *key, timing) {
            // (There is room for each connection: it was taken when that was admitted.)
            let _ = looping.again.push(*key);
        }
    }
    Ok(())
}

// How the connection at a key ended, if it has, and owes nothing that can be written still.
fn ending_at<P, T>(clients: &Slab<Client<P, T>>, key: usize) -> Option<Ending>
    ensures { IfSome result (HasEndedAt clients.now key) }
{
    clients.get(key)?.over()
}

// Takes out the connection at a key, if it has ended and owes nothing that can be written still. Its session leaves.
pub(crate) fn hang_up<P: Port, S: Service>(
    service: &mut S,
    clients: &mut Slab<Client<P, S::Seat>>,
    key: usize,
) -> Option<Over<P>>
    requires ready { S.ready service.old }
    requires served { AreServed S.Service P.Port service.old clients.old }
    ensures ready { S.ready service.new }
    ensures goes_on { S.goes_on service.old service.new }
    ensures opened { S.opened service.new ≡ S.opened service.old }
    ensures kept { S.is_kept service.old → S.is_kept service.new }
    ensures served { AreServed S.Service P.Port service.new clients.new }
    ensures over { IfSome result (λ over. (faults : ℕ)
        → TakesOut S.Service P.Port service.new clients.old clients.new faults over) }
    ensures none { IfNone result
        (numbers_in S.Service clients.new ≡ numbers_in S.Service clients.old) }
{
    let Some(ending) = ending_at(clients, key) else {
        return None;
    };
    let Some(client) = clients.try_remove(key) else {
        return None;
    };
    Some(end(service, client, ending))
}

// Takes out the connection at a key where the loop has halted: what it owes will never be written. Its session leaves.
pub(crate) fn cut_off<P: Port, S: Service>(
    service: &mut S,
    clients: &mut Slab<Client<P, S::Seat>>,
    key: usize,
    halt: Halt,
) -> Option<Over<P>>
    requires ready { S.ready service.old }
    requires served { AreServed S.Service P.Port service.old clients.old }
    ensures ready { S.ready service.new }
    ensures goes_on { S.goes_on service.old service.new }
    ensures opened { S.opened service.new ≡ S.opened service.old }
    ensures served { AreServed S.Service P.Port service.new clients.new }
    ensures over { IfSome result (λ over. (faults : ℕ)
        → HasHalted S.Service P.Port service.new faults halt
        → TakesOut S.Service P.Port service.new clients.old clients.new faults over) }
    ensures none { IfNone result
        (numbers_in S.Service clients.new ≡ numbers_in S.Service clients.old) }
    ensures gone { get clients.new key ≡ None }
    ensures rest { (j : ℕ) → get clients.old j ≡ None → get clients.new j ≡ None }
    ensures slots { length clients.new.slots ≡ length clients.old.slots }
{
    let Some(client) = clients.try_remove(key) else {
        return None;
    };
    let ending = client.ending.unwrap_or(Ending::Halted(halt));
    Some(end(service, client, ending))
}

// Ends the session of a connection that was taken out.
fn end<P: Port, S: Service>(service: &mut S, client: Client<P, S::Seat>, ending: Ending) -> Over<P>
    requires ready { S.ready service.old }
    requires says { (d : Dialogue) × S.says service.old client.seat d }
    ensures ready { S.ready service.new }
    ensures goes_on { S.goes_on service.old service.new }
    ensures opened { S.opened service.new ≡ S.opened service.old }
    ensures kept { S.is_kept service.old → S.is_kept service.new }
    ensures over { (d : Dialogue) → S.says service.old client.seat d
        → S.is_over service.new (S.number client.seat) d }
    ensures others { KeepsOthers S.Service P.Port service.old service.new (S.number client.seat) }
    ensures result { result ≡ record {
      port = client.port;
      ending = ending;
    } }
{
    let Client { port, seat, .. } = client;
    service.leave(seat);
    Over { port, ending }
}
