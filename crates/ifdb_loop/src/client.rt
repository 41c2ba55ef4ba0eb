// A connection and its session.
ghost use Rattle.std.specs.Prelude.{◌≡◌, ◌⊎◌, [], true, Some, IfSome, OnOk};
ghost use Rattle.ifdb_io.specs.Causes.{HasCause};
ghost use Rattle.ifdb_loop.specs.Moves.{Sends};

use crate::{Ending, Port, Timing, Wires};
use ifdb_io::Failed;

/// A connection that owes so many bytes has none of its lines asked, and isn't read.
pub const MUCH: usize = 65_536;

/// A connection and its session. Once it has ended, no line of it is asked, and what it owes is still written.
#[derive(Drop)]
pub struct Client<P, T> {
    /// The connection.
    pub port: P,
    /// The bytes that came and aren't asked yet, and those that aren't written yet.
    pub wires: Wires,
    /// The session.
    pub seat: T,
    /// How many bytes of it may still come.
    pub room: usize,
    /// How it ended, if it has.
    pub ending: Option<Ending>,
    /// Whether writing has failed: what is owed will never be written.
    pub is_lost: bool,
    /// When it moves.
    pub pace: Pace,
}

/// When a connection moves. No contract rests on it.
#[derive(Clone, Copy)]
pub struct Pace {
    /// Whether more may be at hand, which no event will tell: a read filled the room that it had, or was left out, and none has
    /// found nothing since.
    pub is_full: bool,
    /// Whether a whole line is held, or too long a one.
    pub has_line: bool,
    /// Whether it is listed for a turn in the next round.
    pub is_listed: bool,
    /// Whether a line of it was asked.
    pub is_greeted: bool,
    /// The second at which something moved; before the first line that at which it came.
    pub since: u64,
}

impl Pace {
    /// That of a connection that comes now.
    pub fn new(now: u64) -> Pace {
        Pace {
            is_full: false,
            has_line: false,
            is_listed: false,
            is_greeted: false,
            since: now,
        }
    }

    /// Notes that a line was asked.
    pub(crate) fn greet(&mut self, now: u64) {
        self.is_greeted = true;
        self.since = now;
    }

    /// Notes whether something moved.
    pub(crate) fn note(&mut self, has_moved: bool, now: u64) {
        if has_moved && self.is_greeted {
            self.since = now;
        }
    }

    /// Whether nothing has come for longer than a connection is given.
    pub(crate) fn is_silent(&self, timing: &Timing) -> bool {
        let patience = if self.is_greeted {
            timing.terms.idle
        } else {
            timing.terms.hello
        };
        timing.now.saturating_sub(self.since) > patience
    }

    /// Whether nothing was taken for longer than a client is given that is owed something.
    pub(crate) fn is_stalled(&self, timing: &Timing) -> bool {
        timing.now.saturating_sub(self.since) > timing.terms.stall
    }
}

impl<P, T> Client<P, T> {
    /// How it ended, if it has, and owes nothing that can be written still.
    pub(crate) fn over(&self) -> Option<Ending>
        ensures ending { IfSome result (λ ending. self.now.ending ≡ Some ending) }
        ensures paid { IfSome result
            (λ _. (self.now.wires.owed ≡ []) ⊎ (self.now.is_lost ≡ true)) }
    {
        if self.wires.owed() > 0 && !self.is_lost {
            return None;
        }
        self.ending
    }

    /// Whether it has been waited for long enough.
    pub(crate) fn is_overdue(&self, timing: &Timing) -> bool {
        if self.wires.owed() > 0 {
            self.pace.is_stalled(timing)
        } else {
            self.pace.is_silent(timing)
        }
    }

    /// Lists it for a turn in the next round, where more may be at hand that no event will tell, and says whether it wasn't
    /// listed yet. One that owes much isn't listed: the event comes that it can be written.
    pub(crate) fn list(&mut self) -> bool
        ensures { self.new ≡ record self.old { pace = self.new.pace } }
    {
        let has_more = self.pace.is_full || self.pace.has_line;
        let is_new = has_more
            && !self.pace.is_listed
            && self.ending.is_none()
            && self.wires.owed() < MUCH;
        self.pace.is_listed = self.pace.is_listed || is_new;
        is_new
    }
}

impl<P: Port, T> Client<P, T> {
    /// Writes what is owed, as far as there is room for it now.
    ///
    /// # Errors
    /// `Failed` where writing failed, or the client has taken nothing for too long.
    pub(crate) fn write(&mut self, timing: &Timing) -> Result<(), Failed>
        ensures sends { Sends self.old.wires.owed self.new.wires.owed
            (P.written self.old.port) (P.written self.new.port) }
        ensures cause { HasCause
            (P.unwritten self.old.port) (P.unwritten self.new.port) result }
        ensures given { P.given self.new.port ≡ P.given self.old.port }
        ensures left { P.left self.new.port ≡ P.left self.old.port }
        ensures unread { P.unread self.new.port ≡ P.unread self.old.port }
        ensures held { self.new.wires.held ≡ self.old.wires.held }
        ensures seat { self.new.seat ≡ self.old.seat }
        ensures room { self.new.room ≡ self.old.room }
        ensures ending { self.new.ending ≡ self.old.ending }
        ensures lost { self.new.is_lost ≡ self.old.is_lost }
    {
        let before = self.wires.owed();
        self.wires.flush(&mut self.port)?;
        let owed = self.wires.owed();
        self.pace.note(owed < before, timing.now);
        if owed > 0 && self.pace.is_stalled(timing) {
            self.port.expire_write();
            return Err(Failed);
        }
        Ok(())
    }
}
