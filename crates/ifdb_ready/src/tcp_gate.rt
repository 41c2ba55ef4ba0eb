// A gate over the system's readiness, into whose hand another thread puts the connections.
ghost use Rattle.std.specs.Prelude.{◌≡◌, ◌<◌, ◌+◌, ◌++◌, ◌∷◌, [], List, Bool, false, Option, None, IfOk, option_map};
ghost use Rattle.ifdb_loop.specs.declared.over.Over.{Over};
ghost use Rattle.ifdb_ready.specs.declared.tcp_port.TcpPort.{TcpPort};

use crate::lingering::{FIRST, Lingering};
use crate::porter::Porter;
use crate::{Hand, TcpPort};
use ifdb_io::Failed;
use ifdb_loop::{Arrivals, Ending, Gate, Over};
use mio::{Events, Interest, Poll, Token};
use std::alloc::Global;
use std::io;
use std::net::Net;
use std::rt::Clock;
use std::sync::atomic::{AtomicBool, Ordering};
use std::sync::{Arc, Wait};
use std::time::{Duration, Instant};

// The token of the waker, and that of the port that a porter listens at; those of connections are their keys.
const CALL: usize = usize::MAX;

const ARRIVAL: usize = usize::MAX - 1;

// How many events are taken at a time.
const MANY: usize = 1024;

/// A gate over the readiness that the system tells, through which the connections come that the last gate of its port puts into
/// its hand. It waits for a second at most, and never comes to its end. It fails where the system's wait does, where the loop of
/// another gate of its port has halted, or after 2^64 - 1 waits. A connection that is given back ends so that its client gets what
/// was written.
#[derive(Drop)]
pub struct TcpGate<'a, R> {
    rt: &'a R,
    poll: Poll,
    events: Events,
    hand: Arc<Hand>,
    // Whether a loop of the port has halted, as all its gates know.
    has_halted: Arc<AtomicBool>,
    // Who hands out the connections of the port, in the last of its gates.
    porter: Option<Porter>,
    lingering: Lingering,
    // Keys of connections whose client sends no more: once its last bytes are read, no event tells of the end.
    closing: Vec<usize>,
    // Whether the hand may hold more.
    has_new: bool,
    begun: Instant,
    second: u64,
    // How many waits may still succeed.
    waits: u64,
    out: u64,
    failed: u64,
    refused: u64,
}

impl<'a, R: Net + Clock> TcpGate<'a, R> {
    // A gate with an empty hand. The errors are those of the system, where it gives no descriptor, and want of memory.
    pub(crate) fn new(
        rt: &'a R,
        alloc: Global,
        has_halted: Arc<AtomicBool>,
    ) -> io::Result<TcpGate<'a, R>>
        ensures { IfOk result (λ gate. gate.out ≡ 0) }
    {
        let poll = Poll::new(rt)?;
        let hand = Hand::new(alloc, poll.registry(), Token(CALL))?;
        Ok(TcpGate {
            rt,
            poll,
            events: Events::with_capacity(alloc, MANY)?,
            hand: Arc::new(alloc, hand)?,
            has_halted,
            porter: None,
            lingering: Lingering::new(alloc),
            closing: Vec::with_capacity(alloc, MANY)?,
            has_new: false,
            begun: Instant::now(rt)?,
            second: 0,
            waits: u64::MAX,
            out: 0,
            failed: 0,
            refused: 0,
        })
    }

    // Listens at a port of 127.0.0.1, and hands out its connections from now on. The errors are those of the system.
    pub(crate) fn listen(&mut self, port: u16, hands: Vec<Arc<Hand>>) -> io::Result<()>
        ensures { self.new.out ≡ self.old.out }
    {
        let porter = Porter::new(self.rt, self.poll.registry(), Token(ARRIVAL), port, hands)?;
        self.porter = Some(porter);
        Ok(())
    }

    // Looks at the clock, and closes connections whose end takes too long.
    fn tick(&mut self)
        ensures failed { self.new.failed ≡ self.old.failed }
        ensures waits { self.new.waits ≡ self.old.waits }
        ensures out { self.new.out ≡ self.old.out }
    {
        if let Ok(passed) = self.begun.elapsed(self.rt) {
            self.second = passed.as_secs();
        }
        self.lingering.sweep(self.second);
    }
}

impl<'a, R> TcpGate<'a, R> {
    // The gate's hand. The error is want of memory.
    pub(crate) fn hand(&self) -> io::Result<Arc<Hand>> {
        Ok(Arc::try_clone(&self.hand)?)
    }

    /// How many connections came through the gate and weren't given back yet.
    pub fn out(&self) -> u64
        ensures { result ≡ self.now.out }
    {
        self.out
    }

    /// How many connections were closed at once since there was no room for them, up to 2^64 - 1.
    pub fn refused(&self) -> u64 {
        self.refused
    }

    // How long it waits at most.
    fn patience(&self, has_more: bool) -> Duration {
        if has_more || self.has_new || !self.closing.is_empty() {
            return Duration::ZERO;
        }
        let again = match &self.porter {
            Some(porter) => porter.again(),
            None => None,
        };
        again.unwrap_or(Duration::from_secs(1))
    }
}

// What came of a wait, beside ready connections.
#[derive(Clone, Copy)]
struct Calls {
    // The hand has got connections.
    hand: bool,
    // Connections have come to the port.
    port: bool,
}

// Adds the keys of the connections that are ready, for which there is room: of those whose client had closed, and of the events
// that came.
fn add_ready(
    events: &Events,
    closing: &mut Vec<usize>,
    lingering: &mut Lingering,
    ready: &mut Vec<usize>,
) -> Calls {
    for key in closing.iter() {
        let _ = ready.push(*key);
    }
    closing.clear();
    let mut calls = Calls {
        hand: false,
        port: false,
    };
    for event in events.iter() {
        let key = event.token().0;
        if key == CALL {
            calls.hand = true;
        } else if key == ARRIVAL {
            calls.port = true;
        } else if key >= FIRST {
            lingering.drain(key - FIRST);
        } else {
            let _ = ready.push(key);
            if event.is_read_closed() {
                let _ = closing.push(key);
            }
        }
    }
    calls
}

// Lets the porter hand out connections, if there is one.
fn hand_out<R: Wait>(rt: &R, porter: &mut Option<Porter>, have_come: bool) {
    let Some(porter) = porter else {
        return;
    };
    if have_come {
        porter.call();
    }
    porter.work(rt);
}

impl<'a, R: Net + Wait + Clock> Gate for TcpGate<'a, R> {
    type Port = TcpPort;

    ghost most = { λ gate. gate.waits };

    ghost out = { λ gate. gate.out };

    ghost ended = { λ _. false };

    ghost faults = { λ gate. gate.failed };

    ghost back = { λ _. None };

    fn wait(&mut self, has_more: bool, ready: &mut Vec<usize>) -> Result<Arrivals, Failed> {
        if self.waits == 0 || self.has_halted.load(Ordering::Relaxed) {
            self.failed = self.failed.saturating_add(1);
            return Err(Failed);
        }
        self.waits -= 1;
        // Without memory for the keys no event is taken, and none is lost.
        if ready.reserve(2 * MANY).is_err() {
            return Ok(Arrivals::MayCome);
        }
        let patience = self.patience(has_more);
        if self.poll.poll(&mut self.events, Some(patience)).is_err() {
            self.failed = self.failed.saturating_add(1);
            return Err(Failed);
        }
        self.tick();
        let calls = add_ready(&self.events, &mut self.closing, &mut self.lingering, ready);
        self.has_new = self.has_new || calls.hand;
        hand_out(self.rt, &mut self.porter, calls.port);
        Ok(Arrivals::MayCome)
    }

    fn next(&mut self, key: usize) -> Option<TcpPort> {
        if self.out == u64::MAX {
            return None;
        }
        let Some(mut stream) = self.hand.take(self.rt) else {
            self.has_new = false;
            return None;
        };
        if key >= FIRST {
            self.hand.lose();
            return None;
        }
        let both = Interest::READABLE | Interest::WRITABLE;
        if self
            .poll
            .registry()
            .register(&mut stream, Token(key), both)
            .is_err()
        {
            self.hand.lose();
            return None;
        }
        self.out += 1;
        Some(TcpPort::new(stream))
    }

    fn refuse(&mut self, _port: TcpPort) {
        self.out -= 1;
        self.hand.lose();
        self.refused = self.refused.saturating_add(1);
    }

    fn done(&mut self, over: Over<TcpPort>)
        requires { 0 < self.old.out }
        ensures out { self.new.out + 1 ≡ self.old.out }
        ensures most { self.new.waits ≡ self.old.waits }
        ensures end { ◌≡◌ {A = Bool} false false }
        ensures faults { self.new.failed ≡ self.old.failed }
        ensures back { ◌≡◌ {A = Option (List (Over TcpPort))} None
            (option_map (λ told. told ++ over ∷ []) None) }
    {
        self.out -= 1;
        self.hand.lose();
        // At the end of the input nothing comes any more that a close could reset.
        if over.ending == Ending::End {
            return;
        }
        if let Some(stream) = over.port.sound_stream() {
            self.lingering
                .add(self.poll.registry(), stream, self.second);
        }
    }

    fn halt(&mut self) {
        self.has_halted.store(true, Ordering::Relaxed);
    }

    fn has_ended(&self) -> bool {
        false
    }

    fn seconds(&self) -> u64 {
        self.second
    }
}
