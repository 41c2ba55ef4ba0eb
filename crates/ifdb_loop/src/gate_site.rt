// Sites, which have gates.
ghost use Rattle.std.specs.Prelude.{◌≡◌, ◌≤◌, ℕ, List, [], Option, Some, Err, IfOk, IfSome, OnErr, All, vec_len};
ghost use Rattle.ifdb_io.specs.Causes.{Rose};
ghost use Rattle.ifdb_io.specs.Doors.{Stays, LosesFirst, Becomes};

use crate::Gate;
use ifdb_io::SiteFault;
use std::marker::Send;

/// What a site of gates was asked for.
#[derive(Clone, Copy, Debug, PartialEq, Eq)]
pub struct Opening {
    /// The port that connections come to.
    pub port: u16,
    /// How many loops they are served by, each of which has a gate.
    pub loops: usize,
}

/// Something that the gates of loops are had from.
pub trait GateSite {
    ghost use Rattle.ifdb_loop.specs.declared.gate_site.Opening.{Opening};

    /// A gate, which a loop may take to its thread.
    type Gate: Gate + Send + Drop;

    /// How often the site has failed, up to 2^64 - 1.
    ghost faults: { Self → ℕ };

    /// What the last call of `open` asked for, if there was one.
    ghost asked: { Self → Option Opening };

    /// The gates of which the next call of `open` gives the first, in order, where the site tells them.
    ghost waiting: { Self → Option (List Self.Gate) };

    /// The gates given back by the last call of `close`, in order, where the site tells them.
    ghost back: { Self → Option (List Self.Gate) };

    /// A gate for each of so many loops, through which the connections of this port come. No connection has come through any of
    /// them yet.
    ///
    /// # Errors
    /// `Failed` where the site failed, and `OutOfMemory` where there was no memory. A refusal takes none of the site's gates.
    fn open(&mut self, port: u16, loops: usize) -> Result<Vec<Self::Gate>, SiteFault>
        ensures count { IfOk result (λ gates. vec_len gates ≡ loops) }
        ensures none_out { IfOk result
            (λ gates. All (λ gate. Self.Gate.Gate.out gate ≡ 0) gates.items) }
        ensures none_back { IfOk result
            (λ gates. All (λ gate. IfSome (Self.Gate.Gate.back gate) (λ told. told ≡ [])) gates.items) }
        ensures asked { asked self.new ≡ Some (record { port = port; loops = loops }) }
        ensures first { IfOk result
            (λ gates. LosesFirst (waiting self.old) (waiting self.new) gates.items) }
        ensures refused { OnErr result (Stays (waiting self.old) (waiting self.new)) }
        ensures back { Stays (back self.old) (back self.new) }
        ensures later { faults self.old ≤ faults self.new }
        ensures failed { result ≡ Err SiteFault.Failed → Rose (faults self.old) (faults self.new) };

    /// Takes the gates back. No connection comes any more.
    fn close(&mut self, gates: Vec<Self::Gate>)
        ensures asked { asked self.new ≡ asked self.old }
        ensures waiting { Stays (waiting self.old) (waiting self.new) }
        ensures back { Becomes (back self.old) (back self.new) gates.items }
        ensures faults { faults self.new ≡ faults self.old };
}
