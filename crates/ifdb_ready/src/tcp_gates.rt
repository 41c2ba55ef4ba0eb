// The site of gates at a port of this machine.
ghost use Rattle.std.specs.Prelude.{◌≡◌, None, IfOk, All, vec_len};
ghost use Rattle.ifdb_io.specs.Doors.{Stays, Becomes};
ghost use Rattle.ifdb_ready.specs.declared.tcp_gate.TcpGate.{TcpGate};

use crate::TcpGate;
use ifdb_io::SiteFault;
use ifdb_loop::{GateSite, Opening};
use std::alloc::Global;
use std::io;
use std::net::Net;
use std::rt::Clock;
use std::sync::atomic::AtomicBool;
use std::sync::{Arc, Wait};

/// A site whose gates stand at a port of this machine alone: it listens on 127.0.0.1, which no other machine reaches. The gates of one
/// call share a listener, whose connections the last of them hands out, each to the gate that has the fewest, and which is closed
/// with that one. At port 0 the system picks a port that is free.
///
/// `open` fails, and the count of the site's faults rises, where the port is taken or may not be listened at, or the system has no
/// descriptor or no memory for it.
#[derive(Drop)]
pub struct TcpGates<'a, R> {
    rt: &'a R,
    alloc: Global,
    failed: u64,
    asked: Option<Opening>,
}

impl<'a, R> TcpGates<'a, R> {
    /// A site that wasn't asked for anything yet.
    pub fn new(rt: &'a R, alloc: Global) -> Self
        ensures asked { result.asked ≡ None }
        ensures no_fault { result.failed ≡ 0 }
    {
        TcpGates {
            rt,
            alloc,
            failed: 0,
            asked: None,
        }
    }
}

impl<'a, R: Net + Wait + Clock + Sync> GateSite for TcpGates<'a, R> {
    ghost use Rattle.std.specs.Prelude.{None};

    type Gate = TcpGate<'a, R>;

    ghost faults = { λ site. site.failed };

    ghost asked = { λ site. site.asked };

    ghost waiting = { λ _. None };

    ghost back = { λ _. None };

    fn open(&mut self, port: u16, loops: usize) -> Result<Vec<TcpGate<'a, R>>, SiteFault> {
        self.asked = Some(Opening { port, loops });
        match gates_at(self.rt, self.alloc, port, loops) {
            Ok(gates) => Ok(gates),
            Err(_) => {
                self.failed = self.failed.saturating_add(1);
                Err(SiteFault::Failed)
            }
        }
    }

    fn close(&mut self, gates: Vec<TcpGate<'a, R>>)
        ensures asked { self.new.asked ≡ self.old.asked }
        ensures waiting { Stays {A = TcpGate R} None None }
        ensures back { Becomes {A = TcpGate R} None None gates.entry.items }
        ensures faults { self.new.failed ≡ self.old.failed }
    {
        let _ = gates;
    }
}

// So many gates, the last of which hands out the connections of a port.
fn gates_at<'a, R: Net + Clock>(
    rt: &'a R,
    alloc: Global,
    port: u16,
    loops: usize,
) -> io::Result<Vec<TcpGate<'a, R>>>
    ensures count { IfOk result (λ gates. vec_len gates ≡ loops) }
    ensures none_out { IfOk result (λ gates. All (λ gate. gate.out ≡ 0) gates.items) }
{
    let mut gates = Vec::with_capacity(alloc, loops)?;
    let mut hands = Vec::with_capacity(alloc, loops)?;
    if loops == 0 {
        return Ok(gates);
    }
    let has_halted = Arc::new(alloc, AtomicBool::new(false))?;
    for _ in 1..loops {
        let gate = TcpGate::new(rt, alloc, Arc::try_clone(&has_halted)?)?;
        hands.push(gate.hand()?)?;
        gates.push(gate)?;
    }
    let mut last = TcpGate::new(rt, alloc, has_halted)?;
    hands.push(last.hand()?)?;
    last.listen(port, hands)?;
    gates.push(last)?;
    Ok(gates)
}
