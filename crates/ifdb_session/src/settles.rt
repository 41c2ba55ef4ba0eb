// What replies wait for.
ghost use Rattle.std.specs.Prelude.{◌≡◌, ◌≤◌, ◌+◌, ℕ, OnErr, OnOk};
ghost use Rattle.ifdb_turn.specs.Passes.{places, BelongsTo, IsOrderly, NoForeignRoots};
ghost use Rattle.ifdb_history.specs.History.{IsRight};
ghost use Rattle.ifdb_session.specs.Starts.{start_of};
ghost use Rattle.ifdb_session.specs.Passes.{Sees};
ghost use Rattle.ifdb_session.specs.Standing.{root_of};

use crate::{Records, SharedRoom};
use ifdb_io::Failed;
use ifdb_turn::{Pass, Turnstile};
use std::sync::Wait;

/// What one thread has to wait until that is kept which its replies are answered from.
pub trait Settles<Q: Records> {
    /// It may wait.
    ghost ready: { Self → Type 0 };

    /// It knows that so many records of the journal are kept.
    ghost is_kept: { Self → ℕ → Type 0 };

    /// It knows that the disk has failed.
    ghost has_failed: { Self → Type 0 };

    /// The second waits by the same as the first, and knows all that the first knew.
    ghost goes_on: { Self → Self → Type 0 };

    /// It has so many shares of that, of which each thread needs one.
    ghost has_shares: { Self → ℕ → Type 0 };

    /// Waits until so many records of the journal are kept. Turns are taken at the room, and none adds an entry.
    ///
    /// # Errors
    /// `Failed` where the disk has failed, which is known then.
    fn settle<R: Wait>(
        &mut self,
        rt: &R,
        hall: &Turnstile<SharedRoom<Q>>,
        pass: &mut Pass<SharedRoom<Q>>,
        count: u64,
    ) -> Result<(), Failed>
        requires ready { ready self.old }
        requires pass { BelongsTo hall.now pass.old }
        requires orderly { IsOrderly (IsRight (start_of Q.first)) pass.old }
        ensures ready { ready self.new }
        ensures goes_on { goes_on self.old self.new }
        ensures shares { (n : ℕ) → has_shares self.old n → has_shares self.new n }
        ensures sees { Sees Q.first hall.now pass.old pass.new }
        ensures places { places pass.new ≡ places pass.old }
        ensures away { NoForeignRoots root_of pass.old pass.new }
        ensures kept { OnOk result (is_kept self.new count) }
        ensures failed { OnErr result (has_failed self.new) };

    /// One more for another thread, which knows as much.
    fn split(&mut self) -> Self
        requires ready { ready self.old }
        requires shares { (n : ℕ) × has_shares self.old (n + 2) }
        ensures ready { ready self.new }
        ensures given_ready { ready result }
        ensures goes_on { goes_on self.old self.new }
        ensures given { goes_on self.old result }
        ensures left { (n : ℕ) → has_shares self.old (n + 1) → has_shares self.new n }
        ensures given_share { has_shares result 1 };

    /// Takes another in, where both go on from one: it then knows what both knew.
    fn join(&mut self, other: Self)
        requires ready { ready self.old }
        requires other { ready other }
        requires one { (first : Self) × goes_on first self.old × goes_on first other }
        ensures ready { ready self.new }
        ensures goes_on { goes_on self.old self.new }
        ensures other { goes_on other self.new }
        ensures shares { (n m : ℕ) → has_shares self.old n → has_shares other m
            → has_shares self.new (n + m) };

    /// It goes on from itself.
    ghost goes_itself: { (s : Self) → goes_on s s };

    /// What goes on from the second goes on from the first too.
    ghost goes_further: { (r s t : Self) → goes_on r s → goes_on s t → goes_on r t };

    /// What is kept stays known.
    ghost stays_kept: { (s t : Self) (n : ℕ) → goes_on s t → is_kept s n → is_kept t n };

    /// Where so many are kept, fewer are.
    ghost keeps_fewer: { (s : Self) (m n : ℕ) → m ≤ n → is_kept s n → is_kept s m };

    /// That the disk has failed stays known too.
    ghost stays_failed: { (s t : Self) → goes_on s t → has_failed s → has_failed t };
}
