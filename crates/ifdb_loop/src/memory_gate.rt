// A gate in memory.
ghost use Rattle.std.specs.Prelude.{◌≡◌, ◌<◌, ◌≤◌, ◌+◌, ◌++◌, ◌∷◌, true, false, [], IfOk, option_map, vec_len, vec_capacity};

use crate::{Arrivals, Gate, MemoryPort, Over, Step};
use ifdb_io::{Failed, OutOfMemory};
use std::alloc::Global;

/// What a connection in memory will give, and how its calls end.
#[derive(Drop)]
pub struct Coming {
    /// The bytes that it gives.
    pub bytes: Vec<u8>,
    /// How its reads end.
    pub reads: Vec<Step>,
    /// How its writes end.
    pub writes: Vec<Step>,
}

/// A gate in memory, through which connections come, the last one first, up to its end. Each is ready at each wait, and a second
/// passes with each. It fails once it was waited at as often as it was told, and keeps what it is given back.
#[derive(Drop)]
pub struct MemoryGate {
    alloc: Global,
    coming: Vec<Coming>,
    keys: usize,
    second: u64,
    waits: u64,
    out: u64,
    ended: bool,
    failed: u64,
    /// How many connections were refused.
    pub refused: u64,
    back: Vec<Over<MemoryPort>>,
    ghost none_left: { ended ≡ true → vec_len coming ≡ 0 },
    ghost room: { vec_len back + out + vec_len coming ≤ vec_capacity back },
}

impl MemoryGate {
    /// A gate through which these come, and at which so many waits succeed. The room for those that come back is taken here.
    ///
    /// # Errors
    /// `OutOfMemory` where there is no memory for that.
    pub fn new(alloc: Global, coming: Vec<Coming>, waits: u64) -> Result<MemoryGate, OutOfMemory>
        ensures most { IfOk result (λ gate. gate.waits ≡ waits) }
        ensures back { IfOk result (λ gate. gate.back.items ≡ []) }
        ensures out { IfOk result (λ gate. gate.out ≡ 0) }
        ensures open { IfOk result (λ gate. gate.ended ≡ false) }
        ensures faults { IfOk result (λ gate. gate.failed ≡ 0) }
    {
        Ok(MemoryGate {
            alloc,
            back: Vec::with_capacity(alloc, coming.len())?,
            coming,
            keys: 0,
            second: 0,
            waits,
            out: 0,
            ended: false,
            failed: 0,
            refused: 0,
        })
    }

    // Whether no connection has come through it.
    pub(crate) fn is_new(&self) -> bool
        ensures out { result ≡ true → self.now.out ≡ 0 }
        ensures back { result ≡ true → self.now.back.items ≡ [] }
    {
        self.out == 0 && self.back.is_empty()
    }

    /// The connections that were given back, in order.
    pub fn back(&self) -> &[Over<MemoryPort>]
        ensures { result.now ≡ self.now.back.items }
    {
        &self.back
    }
}

impl Gate for MemoryGate {
    ghost use Rattle.std.specs.Prelude.{Some};

    type Port = MemoryPort;

    ghost most = { λ gate. gate.waits };

    ghost out = { λ gate. gate.out };

    ghost ended = { λ gate. gate.ended };

    ghost faults = { λ gate. gate.failed };

    ghost back = { λ gate. Some gate.back.items };

    fn wait(&mut self, _has_more: bool, ready: &mut Vec<usize>) -> Result<Arrivals, Failed> {
        if self.waits == 0 {
            self.failed = self.failed.saturating_add(1);
            return Err(Failed);
        }
        self.waits -= 1;
        self.second = self.second.saturating_add(1);
        for key in 0..self.keys {
            let _ = ready.push(key);
        }
        self.ended = self.coming.is_empty();
        if self.ended {
            return Ok(Arrivals::Ended);
        }
        Ok(Arrivals::MayCome)
    }

    fn next(&mut self, key: usize) -> Option<MemoryPort> {
        let Coming {
            bytes,
            reads,
            writes,
        } = self.coming.pop()?;
        self.out += 1;
        self.keys = self.keys.max(key.saturating_add(1));
        Some(MemoryPort::new(bytes, Vec::new(self.alloc), reads, writes))
    }

    fn refuse(&mut self, _port: MemoryPort) {
        self.out -= 1;
        self.refused = self.refused.saturating_add(1);
    }

    fn done(&mut self, over: Over<MemoryPort>)
        requires { 0 < self.old.out }
        ensures out { self.new.out + 1 ≡ self.old.out }
        ensures most { self.new.waits ≡ self.old.waits }
        ensures end { self.new.ended ≡ self.old.ended }
        ensures faults { self.new.failed ≡ self.old.failed }
        ensures back { Some self.new.back.items
            ≡ option_map (λ told. told ++ over ∷ []) (Some self.old.back.items) }
    {
        self.out -= 1;
        let _ = self.back.push(over);
    }

    fn halt(&mut self) {}

    fn has_ended(&self) -> bool {
        self.ended
    }

    fn seconds(&self) -> u64 {
        self.second
    }
}
