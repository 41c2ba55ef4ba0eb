// What answers the lines.
ghost use Rattle.std.specs.Prelude.{◌≡◌, ◌≢◌, ◌++◌, ◌∷◌, [], ℕ, List, true, OnOk, OnErr, IfOk, count_by, nat_eq};
ghost use Rattle.ifdb_io.specs.Lines.{IsLine};
ghost use Rattle.ifdb_loop.specs.Dialogues.{Dialogue, settled, silence, with_answer};

use ifdb_io::{Failed, OutOfMemory};

/// Answers the lines of sessions, each of which has a number of its own.
pub trait Service {
    /// A session as its connection has it.
    type Seat: Send + Drop;

    /// It may be called.
    ghost ready: { Self → Type 0 };

    /// The second has gone on from the first.
    ghost goes_on: { Self → Self → Type 0 };

    /// The number of a seat's session.
    ghost number: { Self.Seat → ℕ };

    /// So far the session of a seat had this dialogue.
    ghost says: { Self → Self.Seat → Dialogue → Type 0 };

    /// The session of this number is over, and had this dialogue. If it was open at the end, it has left.
    ghost is_over: { Self → ℕ → Dialogue → Type 0 };

    /// The numbers of the sessions that it opened, in order.
    ghost opened: { Self → List ℕ };

    /// All that was answered from so far is kept.
    ghost is_kept: { Self → Type 0 };

    /// It is known that no more can be kept.
    ghost has_failed: { Self → Type 0 };

    /// The reply to the line that was asked last, or what refuses a line that is too long.
    ghost text: { Self → List ℕ };

    /// What refuses a line that is too long.
    ghost long_text: { List ℕ };

    /// How many bytes a connection may give.
    ghost limit: { Self → ℕ };

    /// Opens a session, which has a number of its own.
    ///
    /// # Errors
    /// `OutOfMemory` opens none.
    fn open(&mut self) -> Result<Self::Seat, OutOfMemory>
        requires { ready self.old }
        ensures ready { ready self.new }
        ensures goes_on { goes_on self.old self.new }
        ensures kept { is_kept self.old → is_kept self.new }
        ensures opened { IfOk result (λ seat. opened self.new ≡ opened self.old ++ number seat ∷ []) }
        ensures none { OnErr result (opened self.new ≡ opened self.old) }
        ensures fresh { IfOk result (λ seat. count_by (nat_eq (number seat)) (opened self.old) ≡ 0) }
        ensures new { IfOk result (λ seat. says self.new seat silence) }
        ensures apart { IfOk result (λ seat. (other : Self.Seat) (d : Dialogue)
            → says self.old other d → number other ≢ number seat) }
        ensures others { (other : Self.Seat) (d : Dialogue)
            → says self.old other d → says self.new other d };

    /// Asks a line of a session that is open, and says whether it is open still.
    ///
    /// # Errors
    /// `OutOfMemory` asks nothing.
    fn ask(&mut self, seat: &mut Self::Seat, line: &[u8]) -> Result<bool, OutOfMemory>
        requires ready { ready self.old }
        requires line { IsLine line.now }
        requires says { (d : Dialogue) × says self.old seat.old d × (d.is_open ≡ true) }
        ensures ready { ready self.new }
        ensures goes_on { goes_on self.old self.new }
        ensures opened { opened self.new ≡ opened self.old }
        ensures number { number seat.new ≡ number seat.old }
        ensures told { IfOk result (λ is_open. (d : Dialogue) → d.is_open ≡ true
            → says self.old seat.old d
            → says self.new seat.new (with_answer d line.now (text self.new) is_open)) }
        ensures unasked { OnErr result
            ((d : Dialogue) → says self.old seat.old d → says self.new seat.new d) }
        ensures others { (other : Self.Seat) (d : Dialogue) → number other ≢ number seat.old
            → says self.old other d → says self.new other d };

    /// Refuses a line that is too long.
    fn refuse_long(&mut self)
        requires { ready self.old }
        ensures ready { ready self.new }
        ensures goes_on { goes_on self.old self.new }
        ensures opened { opened self.new ≡ opened self.old }
        ensures text { text self.new ≡ long_text }
        ensures says { (seat : Self.Seat) (d : Dialogue)
            → says self.old seat d → says self.new seat d };

    /// The text of the last reply.
    fn text(&self) -> &[u8]
        ensures { result.now ≡ text self.now };

    /// How many bytes a connection may give.
    fn limit(&self) -> usize
        ensures { result ≡ limit self.now };

    /// Waits until all is kept that was answered from.
    ///
    /// # Errors
    /// `Failed` where no more can be kept, which is known then.
    fn settle(&mut self) -> Result<(), Failed>
        requires { ready self.old }
        ensures ready { ready self.new }
        ensures goes_on { goes_on self.old self.new }
        ensures opened { opened self.new ≡ opened self.old }
        ensures kept { OnOk result (is_kept self.new) }
        ensures failed { OnErr result (has_failed self.new) }
        ensures says { (seat : Self.Seat) (d : Dialogue)
            → says self.old seat d → says self.new seat d };

    /// Ends the session of a seat: one that is open leaves.
    fn leave(&mut self, seat: Self::Seat)
        requires ready { ready self.old }
        requires says { (d : Dialogue) × says self.old seat d }
        ensures ready { ready self.new }
        ensures goes_on { goes_on self.old self.new }
        ensures opened { opened self.new ≡ opened self.old }
        ensures kept { is_kept self.old → is_kept self.new }
        ensures over { (d : Dialogue) → says self.old seat d → is_over self.new (number seat) d }
        ensures others { (other : Self.Seat) (d : Dialogue) → number other ≢ number seat
            → says self.old other d → says self.new other d };

    /// Where all is kept that was answered from, so it is for each session.
    ghost keeps_all: { (s : Self) (seat : Self.Seat) (d : Dialogue)
        → is_kept s → says s seat d → says s seat (settled d) };

    /// It goes on from itself.
    ghost goes_itself: { (s : Self) → goes_on s s };

    /// What goes on from the second goes on from the first too.
    ghost goes_further: { (r s t : Self) → goes_on r s → goes_on s t → goes_on r t };

    /// How many bytes a connection may give stays as it is.
    ghost keeps_limit: { (s t : Self) → goes_on s t → limit t ≡ limit s };

    /// A session that is over stays so.
    ghost stays_over: { (s t : Self) (n : ℕ) (d : Dialogue)
        → goes_on s t → is_over s n d → is_over t n d };

    /// So does that no more can be kept.
    ghost stays_failed: { (s t : Self) → goes_on s t → has_failed s → has_failed t };
}
