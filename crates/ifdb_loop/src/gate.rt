// Where connections come from, and how a loop waits for them.
ghost use Rattle.std.specs.Prelude.{◌≡◌, ◌<◌, ◌+◌, ◌++◌, ◌∷◌, [], ℕ, List, Bool, true, Option, None, option_map, IfSome, IfOk, IfNone, OnOk, OnSome};
ghost use Rattle.ifdb_io.specs.Causes.{HasCause};
ghost use Rattle.ifdb_loop.specs.Gates.{has_ended};

use crate::{Over, Port};
use ifdb_io::Failed;

/// Whether more connections may come.
#[derive(Clone, Copy, Debug, PartialEq, Eq)]
pub enum Arrivals {
    /// They may.
    MayCome,
    /// None comes any more.
    Ended,
}

impl Arrivals {
    /// Whether none comes any more.
    pub fn has_ended(self) -> bool
        ensures { result ≡ has_ended self }
    {
        match self {
            Arrivals::MayCome => false,
            Arrivals::Ended => true,
        }
    }
}

/// Where the connections of a loop come from, and how it waits until some of them are ready. What it says of readiness may be
/// wrong: a call of a port may have to wait all the same.
pub trait Gate {
    ghost use Rattle.ifdb_loop.specs.declared.over.Over.{Over};

    /// A connection.
    type Port: Port + Send + Drop;

    /// How many waits may still succeed.
    ghost most: { Self → ℕ };

    /// How many connections are out: given by `next`, and not yet taken back by `refuse` or `done`.
    ghost out: { Self → ℕ };

    /// Whether the gate is at its end, from where no connection comes any more.
    ghost ended: { Self → Bool };

    /// How often the gate has failed, up to 2^64 - 1.
    ghost faults: { Self → ℕ };

    /// The connections that were given back, in order, where the gate tells them.
    ghost back: { Self → Option (List (Over Self.Port)) };

    /// Waits until connections are ready or may have come, or for a while, and adds the keys of those that are ready. Where
    /// the loop has more at hand, it doesn't wait. Says whether more connections may come.
    ///
    /// # Errors
    /// `Failed` where the gate itself has failed.
    fn wait(&mut self, has_more: bool, ready: &mut Vec<usize>) -> Result<Arrivals, Failed>
        ensures fewer { OnOk result (most self.new < most self.old) }
        ensures end { IfOk result (λ arrivals. ended self.new ≡ has_ended arrivals) }
        ensures out { out self.new ≡ out self.old }
        ensures cause { HasCause (faults self.old) (faults self.new) result }
        ensures back { back self.new ≡ back self.old };

    /// A connection that has come, if one has, which is known by this key from now on. None comes at the gate's end.
    fn next(&mut self, key: usize) -> Option<Self::Port>
        ensures given { IfSome result
            (λ port. IfSome (Self.Port.Port.given port) (λ bytes. bytes ≡ [])) }
        ensures written { IfSome result
            (λ port. IfSome (Self.Port.Port.written port) (λ bytes. bytes ≡ [])) }
        ensures reads { IfSome result (λ port. Self.Port.Port.unread port ≡ 0) }
        ensures writes { IfSome result (λ port. Self.Port.Port.unwritten port ≡ 0) }
        ensures at_end { ended self.old ≡ true → result ≡ None }
        ensures more { OnSome result (out self.new ≡ out self.old + 1) }
        ensures same { IfNone result (out self.new ≡ out self.old) }
        ensures most { most self.new ≡ most self.old }
        ensures end { ended self.new ≡ ended self.old }
        ensures faults { faults self.new ≡ faults self.old }
        ensures back { back self.new ≡ back self.old };

    /// Takes a connection back for which there is no room, and closes it. It has given nothing and was told nothing.
    fn refuse(&mut self, port: Self::Port)
        requires { 0 < out self.old }
        ensures out { out self.new + 1 ≡ out self.old }
        ensures most { most self.new ≡ most self.old }
        ensures end { ended self.new ≡ ended self.old }
        ensures faults { faults self.new ≡ faults self.old }
        ensures back { back self.new ≡ back self.old };

    /// Takes a connection back that is over: closes it, or keeps it for a test.
    fn done(&mut self, over: Over<Self::Port>)
        requires { 0 < out self.old }
        ensures out { out self.new + 1 ≡ out self.old }
        ensures most { most self.new ≡ most self.old }
        ensures end { ended self.new ≡ ended self.old }
        ensures faults { faults self.new ≡ faults self.old }
        ensures back { back self.new ≡ option_map (λ told. told ++ over ∷ []) (back self.old) };

    /// Notes that the gate's loop has halted. The other gates of its site may fail from now on, so that their loops halt too.
    fn halt(&mut self)
        ensures out { out self.new ≡ out self.old }
        ensures most { most self.new ≡ most self.old }
        ensures end { ended self.new ≡ ended self.old }
        ensures faults { faults self.new ≡ faults self.old }
        ensures back { back self.new ≡ back self.old };

    /// Whether the gate is at its end.
    fn has_ended(&self) -> bool
        ensures { result ≡ ended self.now };

    /// The second that it is now, from any beginning.
    fn seconds(&self) -> u64;
}
