// A site of gates in memory.
ghost use Rattle.std.specs.Prelude.{◌≡◌, ◌≤◌, true, [], None, All};

use crate::{GateSite, MemoryGate, Opening};
use ifdb_io::SiteFault;
use std::alloc::Global;
use std::mem;

/// A site that gives the gates that it was made of, in order, and keeps those that are given back. It fails at the calls that it was
/// told, and where it has fewer gates than it is asked for, or one among them through which a connection has come.
#[derive(Drop)]
pub struct MemoryGates {
    waiting: Vec<MemoryGate>,
    back: Vec<MemoryGate>,
    asked: Option<Opening>,
    fails: Vec<u64>,
    calls: u64,
    faults: u64,
}

impl MemoryGates {
    /// A site with these gates. The calls of `open` whose numbers, from 0, are in `fails` fail.
    pub fn new(alloc: Global, gates: Vec<MemoryGate>, fails: Vec<u64>) -> MemoryGates
        ensures waiting { result.waiting.items ≡ gates.items }
        ensures back { result.back.items ≡ [] }
        ensures asked { result.asked ≡ None }
        ensures no_fault { result.faults ≡ 0 }
    {
        MemoryGates {
            waiting: gates,
            back: Vec::new(alloc),
            asked: None,
            fails,
            calls: 0,
            faults: 0,
        }
    }

    /// The gates that the last call of `close` gave back, in order.
    pub fn back(&self) -> &[MemoryGate]
        ensures { result.now ≡ self.now.back.items }
    {
        &self.back
    }
}

// Whether no connection has come through any of these.
fn are_new(gates: &[MemoryGate]) -> bool
    ensures none_out { result ≡ true → All (λ gate. gate.out ≡ 0) gates.now }
    ensures none_back { result ≡ true → All (λ gate. gate.back.items ≡ []) gates.now }
{
    for gate in gates {
        if !gate.is_new() {
            return false;
        }
    }
    true
}

impl GateSite for MemoryGates {
    ghost use Rattle.std.specs.Prelude.{Some};

    type Gate = MemoryGate;

    ghost faults = { λ site. site.faults };

    ghost asked = { λ site. site.asked };

    ghost waiting = { λ site. Some site.waiting.items };

    ghost back = { λ site. Some site.back.items };

    fn open(&mut self, port: u16, loops: usize) -> Result<Vec<MemoryGate>, SiteFault> {
        self.asked = Some(Opening { port, loops });
        let call = self.calls;
        self.calls = call.saturating_add(1);
        let fails = self.fails.contains(&call);
        if fails || loops > self.waiting.len() || !are_new(&self.waiting[..loops]) {
            self.faults = self.faults.saturating_add(1);
            return Err(SiteFault::Failed);
        }
        match self.waiting.split_off(loops) {
            Ok(rest) => Ok(mem::replace(&mut self.waiting, rest)),
            Err(_) => Err(SiteFault::OutOfMemory),
        }
    }

    fn close(&mut self, gates: Vec<MemoryGate>)
        ensures asked { self.new.asked ≡ self.old.asked }
        ensures waiting { self.new.waiting.items ≡ self.old.waiting.items }
        ensures back { self.new.back.items ≡ gates.items }
        ensures faults { self.new.faults ≡ self.old.faults }
    {
        self.back = gates;
    }
}
