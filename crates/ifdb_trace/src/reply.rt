// A reply of the room, and how much of it the trace has told.
ghost use Rattle.std.specs.Prelude.{◌≡◌, ◌∷◌, [], true, false, List, ℕ, ◌==◌, IfOk, Some, length};
ghost use Rattle.std.specs.List.{list_all};
ghost use Rattle.ifdb_wire.specs.Text.{reply_text};
ghost use Rattle.ifdb_model.specs.Run.{asks, opens};
ghost use Rattle.ifdb_model.specs.Script.{lines_of};
ghost use Rattle.ifdb_db.specs.RoomSteps.{GoesBy, IsReplyText};
ghost use Rattle.ifdb_trace.specs.Accepted.{is_short, recorded_lines};

use crate::first_line::first_line;
use ifdb_db::{OutOfMemory, Room};
use ifdb_io::LONGEST_LINE;
use ifdb_wire::{Fault, Out, Reply};
use std::alloc::Global;
use std::marker::Model;

// The longest line of a reply that a trace can have: `< ` stands before it.
const LONGEST_TOLD: usize = LONGEST_LINE - 2;

/// A reply that the room gave, from the first byte that the trace hasn't told yet. Contracts see these bytes.
#[derive(Drop)]
pub(crate) struct Untold {
    out: Out,
    at: usize,
}

impl Model for Untold {
    ghost use Rattle.std.specs.Prelude.{List, ℕ, ◌≤◌, drop, length};

    ghost Value = { List ℕ };

    ghost view = { λ u. drop u.at u.out.text };

    ghost invariant = { λ u. u.at ≤ length u.out.text };
}

impl Untold {
    /// No reply.
    pub(crate) fn new(alloc: Global) -> Result<Untold, OutOfMemory>
        ensures { IfOk result (λ untold. untold ≡ []) }
    {
        Ok(Untold {
            out: Out::new(alloc)?,
            at: 0,
        })
    }

    /// What isn't told yet.
    fn rest(&self) -> &[u8]
        ensures { result.now ≡ self.now }
    {
        &self.out.bytes()[self.at..]
    }

    /// Whether all is told.
    pub(crate) fn is_empty(&self) -> bool
        ensures { result ≡ (length self.now == 0) }
    {
        self.rest().is_empty()
    }

    /// Whether a trace can have the lines that aren't told yet: none is too long for it.
    pub(crate) fn is_short(&self) -> bool
        ensures { result ≡ list_all is_short (recorded_lines self.now) }
    {
        let mut rest = self.rest();
        if rest.len() <= LONGEST_TOLD {
            return true;
        }
        'lines: while !rest.is_empty() {
            let (line, behind) = first_line(rest);
            if line.len() > LONGEST_TOLD {
                return false;
            }
            rest = &rest[behind..];
        }
        true
    }

    /// Takes this line off the front, if it stands there; else nothing changes.
    pub(crate) fn take_line(&mut self, line: &[u8]) -> bool
        ensures told { result ≡ true → lines_of self.old ≡ line.now ∷ lines_of self.new }
        ensures other { result ≡ false
            → (more : List (List ℕ)) → lines_of self.old ≡ line.now ∷ more → ⊥ }
        ensures kept { result ≡ false → self.new ≡ self.old }
    {
        let rest = self.rest();
        if rest.is_empty() {
            return false;
        }
        let (first, behind) = first_line(rest);
        if first != line {
            return false;
        }
        let left = rest.len() - behind;
        self.at = self.out.bytes().len() - left;
        true
    }

    /// A refusal, told to a session, or to none, which is 0.
    pub(crate) fn refuse(&mut self, session: u64, fault: Fault)
        ensures { self.new ≡ reply_text (Some session) (Reply.Refused fault) }
    {
        self.out.speak_for(Some(session));
        self.out.put(&Reply::Refused(fault));
        self.at = 0;
    }

    /// Opens the room's next session, which has this number. False is want of memory.
    pub(crate) fn open(&mut self, room: &mut Room, number: u64) -> bool
        ensures opened { result ≡ true → GoesBy room.old room.new opens }
        ensures told { result ≡ true → self.new ≡ reply_text (Some number) Reply.Opened }
    {
        self.at = 0;
        room.open(number, &mut self.out)
    }

    /// Asks a line for a session. False is want of memory.
    pub(crate) fn ask(&mut self, room: &mut Room, session: u64, line: &[u8]) -> bool
        ensures asked { result ≡ true → GoesBy room.old room.new (asks session line.now) }
        ensures told { result ≡ true
            → IsReplyText room.old session line.now (Some session) self.new }
    {
        self.at = 0;
        room.ask(session, Some(session), line, &mut self.out)
    }
}
