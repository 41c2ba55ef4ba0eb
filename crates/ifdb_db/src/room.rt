// The sessions over what all see.
ghost use Rattle.std.specs.Prelude.{◌≡◌, ◌↔◌, ◌≤◌, ◌^◌, ◌++◌, ◌∷◌, [], true, false, Some, None};
ghost use Rattle.std.specs.Prelude.{IfOk, IfSome, IsSome, IsTrue, OnErr, OnOk, length, option_copied, slice_get};
ghost use Rattle.std.specs.Option.{is_some};
ghost use Rattle.ifdb_wire.specs.declared.reply.Reply.TheVariants as reply;
ghost use Rattle.ifdb_wire.specs.Text.{IsUnbounded, memory_text, reply_text};
ghost use Rattle.ifdb_label.specs.Label.{flows};
ghost use Rattle.ifdb_catalog.specs.Public.{tag_names, tags_of};
ghost use Rattle.ifdb_model.specs.Run.{asks, leaves, opening, opens};
ghost use Rattle.ifdb_db.specs.Client.{new_client};
ghost use Rattle.ifdb_db.specs.Noting.{IsNoted, IsNotedIn};
ghost use Rattle.ifdb_db.specs.Room.{StandsFor, IsSoundRoom, client_in, outcome_in, was_opened};
ghost use Rattle.ifdb_db.specs.RoomSteps.{GoesBy, IsAskedIn, IsLeftBy, IsReplyText, IsReplyTo};

mod lending;
mod redo;

use crate::OutOfMemory;
use crate::db::Db;
use crate::note::Note;
use crate::reading::ReadLine;
use crate::session::Session;
use crate::sessions::{AllSessions, OpenSessions, Sessions};
use ifdb_label::{Label, Tag, Tags};
use ifdb_value::Name;
use ifdb_wire::{Fault, Out, Reply};
use std::alloc::Global;
use std::marker::Model;

/// The sessions by number from 1, over what all see: all that were opened, unless it is a `ServedRoom`.
///
/// Contracts see a hall, which stands for a state of the machine: what its log leaves, and its sessions, those that are over too.
#[derive(Drop)]
pub struct Room<S: Sessions = AllSessions> {
    alloc: Global,
    db: Db,
    sessions: S,
}

/// A room that forgets each session that is over: it takes memory for those that are open alone.
pub type ServedRoom = Room<OpenSessions>;

impl<S: Sessions> Model for Room<S> {
    ghost use Rattle.ifdb_db.specs.Kept.{AreHeld};
    ghost use Rattle.ifdb_db.specs.Room.{Hall};

    ghost Value = { Hall };

    ghost use Rattle.std.specs.Coded.{codes};
    ghost use Rattle.ifdb_bound.specs.contracts.condition.BoundCond as cond;
    ghost use Rattle.ifdb_bound.specs.contracts.expression.BoundExpr as expr;

    ghost coded = { Prim.hlevel (codes, cond.the_row.coded, expr.the_row.coded) };

    ghost view = { λ r. record { desk = r.db; clients = S.clients r.sessions } };

    ghost invariant = { λ r. AreHeld r.db (S.clients r.sessions) };
}

impl<S: Sessions> Room<S> {
    /// The opening: the public state before the first change, no rows, and no sessions.
    pub fn opening(alloc: Global) -> Result<Room<S>, OutOfMemory>
        ensures opening { IfOk result (λ room. StandsFor room opening) }
        ensures nobody { IfOk result (λ room. length room.clients ≡ 0) }
    {
        Ok(Room {
            alloc,
            db: Db::opening(alloc)?,
            sessions: S::none(alloc),
        })
    }

    /// Opens the next session, and says so to a session of the number `shown`. False is want of memory, which changes nothing and
    /// is told to session 0.
    pub fn open(&mut self, shown: u64, out: &mut Out) -> bool
        ensures opened { result ≡ true → GoesBy self.old self.new opens }
        ensures told { result ≡ true → out.new.text ≡ reply_text (Some shown) Reply.Opened }
        ensures refused { result ≡ false → self.new ≡ self.old }
        ensures memory { result ≡ false → out.new.text ≡ memory_text (Some 0) }
    {
        if self.open_next().is_err() {
            say(out, Some(0), &Reply::Refused(Fault::OutOfMemory));
            return false;
        }
        say(out, Some(shown), &Reply::Opened);
        true
    }

    /// Asks a line for a session, and tells the reply: in a script to a session of the number `shown`, on a connection without a
    /// number. False is want of memory, which changes nothing.
    pub fn ask(&mut self, n: u64, shown: Option<u64>, line: &[u8], out: &mut Out) -> bool
        ensures asked { result ≡ true → GoesBy self.old self.new (asks n line.now) }
        ensures told { result ≡ true → IsReplyText self.old n line.now shown out.new.text }
        ensures refused { result ≡ false → self.new ≡ self.old }
        ensures memory { result ≡ false → out.new.text ≡ memory_text shown }
    {
        match self.reply(n, line) {
            Ok(reply) => say(out, shown, &reply),
            Err(_) => {
                say(out, shown, &Reply::Refused(Fault::OutOfMemory));
                false
            }
        }
    }

    /// Drops a session without BYE; its transaction, if one is open, is over. Takes no memory.
    #[tactic(auto, using(crate::proofs::RoomLaws::one_leaves, crate::proofs::RoomLaws::none_leaves))]
    pub fn leave(&mut self, n: u64)
        ensures { GoesBy self.old self.new (leaves n) }
    {
        self.is_sound();
        if self.is_open(n) {
            self.close(n);
        }
    }

    /// Opens the next session, and says nothing. `OutOfMemory` changes nothing.
    #[tactic(auto, using(crate::proofs::RoomLaws::one_more))]
    pub fn open_next(&mut self) -> Result<(), OutOfMemory>
        ensures opened { OnOk result (GoesBy self.old self.new opens) }
        ensures err { OnErr result (self.new ≡ self.old) }
    {
        self.add_session()?;
        Ok(())
    }

    /// Asks a line for a session, and says nothing: the reply is given. `OutOfMemory` changes nothing.
    pub fn reply(&mut self, n: u64, line: &[u8]) -> Result<Reply, OutOfMemory>
        ensures asked { OnOk result (GoesBy self.old self.new (asks n line.now)) }
        ensures told { IfOk result (IsReplyTo self.old n line.now) }
        ensures still { IfOk result (λ r. IsUnbounded r → self.new ≡ self.old) }
        ensures err { OnErr result (self.new ≡ self.old) }
    {
        self.reply_read(n, ReadLine::new(self.alloc, line))
    }

    /// The same of a line that was read before.
    pub fn reply_read(&mut self, n: u64, line: ReadLine<'_>) -> Result<Reply, OutOfMemory>
        ensures asked { OnOk result (GoesBy self.old self.new (asks n line.entry)) }
        ensures told { IfOk result (IsReplyTo self.old n line.entry) }
        ensures still { IfOk result (λ r. IsUnbounded r → self.new ≡ self.old) }
        ensures err { OnErr result (self.new ≡ self.old) }
    {
        let mut note = self.note(None);
        self.reply_noted(n, line, &mut note)
    }

    /// A note for a line that the room is asked, which wants a record of at most `limit` bytes, or none.
    pub fn note(&self, limit: Option<usize>) -> Note
        ensures { result ≡ record { limit = limit; held = None } }
    {
        Note::new(self.alloc, limit)
    }

    /// The same, and what the line adds to the log is noted, if a record is wanted, and nothing else. `OutOfMemory`, which changes
    /// nothing, too where the record is longer than the note's limit.
    pub fn reply_noted(
        &mut self,
        n: u64,
        line: ReadLine<'_>,
        note: &mut Note,
    ) -> Result<Reply, OutOfMemory>
        ensures asked { OnOk result (GoesBy self.old self.new (asks n line.entry)) }
        ensures told { IfOk result (IsReplyTo self.old n line.entry) }
        ensures still { IfOk result (λ r. IsUnbounded r → self.new ≡ self.old) }
        ensures noted { OnOk result (IsNotedIn self.old n line.entry note.old note.new) }
        ensures limit { note.new.limit ≡ note.old.limit }
        ensures err { OnErr result (self.new ≡ self.old) }
    {
        note.clear();
        self.is_sound();
        match self.answer(n, line, note) {
            Ok(reply) => Ok(reply),
            Err(fault) => {
                note.clear();
                let reply = refusal_of(fault)?;
                Ok(reply)
            }
        }
    }

    /// How many rows there are, whoever sees them; `None` where they are too many for the type.
    pub fn count_rows(&self) -> Option<u64>
        ensures some { IfSome result (λ n. n ≡ length self.now.desk.seen.rows) }
        ensures none { result ≡ None → 2 ^ 64 ≤ length self.now.desk.seen.rows }
    {
        self.db.count_rows()
    }

    /// How many entries the log has: changes of the public state, and commits.
    pub fn count_entries(&self) -> u64
        ensures { result ≡ self.now.desk.count }
    {
        self.db.count_entries()
    }

    /// How many sessions were opened.
    pub fn sessions(&self) -> u64
        ensures { result ≡ length self.now.clients }
    {
        self.sessions.count()
    }

    /// Whether a session is open.
    pub fn is_open(&self, n: u64) -> bool
        ensures { result ≡ (client_in self.now n).is_open }
    {
        let Some(session) = self.sessions.find(n) else {
            return false;
        };
        session.is_open()
    }

    /// Whether a session has a transaction.
    pub fn in_transaction(&self, n: u64) -> bool
        ensures { result ≡ is_some (client_in self.now n).txn }
    {
        let Some(session) = self.sessions.find(n) else {
            return false;
        };
        session.in_transaction()
    }

    /// The name of a tag, or `None` exactly where the tag isn't made.
    pub fn tag_name(&self, tag: Tag) -> Option<&Name>
        ensures { option_copied result ≡ slice_get (tag_names self.now.desk.seen.public) tag }
    {
        self.db.tag_name(tag)
    }

    /// All tags.
    pub fn tags(&self) -> &Tags
        ensures { result.now ≡ tags_of self.now.desk.seen.public }
    {
        self.db.tags()
    }

    /// The next session.
    #[tactic(auto, using(crate::proofs::Keeping::all_add))]
    fn add_session(&mut self) -> Result<(), OutOfMemory>
        ensures ok { OnOk result
            (self.new ≡ record self.old { clients = self.old.clients ++ new_client ∷ [] }) }
        ensures err { OnErr result (self.new ≡ self.old) }
    {
        self.sessions.add(Session::new(self.alloc))?;
        Ok(())
    }

    /// Closes an open session.
    fn close(&mut self, n: u64)
        requires { IsTrue (client_in self.old n).is_open }
        ensures { IsLeftBy n self.old self.new }
    {
        let mut session = self.sessions.replace(n, Session::new(self.alloc));
        self.db.leave(&mut session);
        self.sessions.replace(n, session);
    }

    /// What is true of every room. Does nothing.
    fn is_sound(&self)
        ensures { IsSoundRoom self.now }
    {
        self.db.is_sound();
    }

    /// What a line of a session comes to. An error changes nothing, and want of memory is one.
    fn answer(&mut self, n: u64, line: ReadLine<'_>, note: &mut Note) -> Result<Reply, Fault>
        ensures asked { IsAskedIn n line.entry self.old self.new result }
        ensures noted { IsNoted (outcome_in self.old n line.entry)
            (client_in self.old n).principal line.entry note.old note.new result }
    {
        if !self.is_open(n) {
            drop(line);
            return Err(Fault::NoSession);
        }
        self.answer_open(n, line, note)
    }

    /// What a line of an open session comes to.
    fn answer_open(&mut self, n: u64, line: ReadLine<'_>, note: &mut Note) -> Result<Reply, Fault>
        requires { IsTrue (client_in self.old n).is_open }
        ensures asked { IsAskedIn n line.entry self.old self.new result }
        ensures noted { IsNoted (outcome_in self.old n line.entry)
            (client_in self.old n).principal line.entry note.old note.new result }
    {
        let mut session = self.sessions.replace(n, Session::new(self.alloc));
        let told = self.db.ask(&mut session, line, note);
        self.sessions.replace(n, session);
        told
    }
}

impl Room {
    /// Whether a session said HELLO, and was accepted.
    pub fn has_principal(&self, n: u64) -> bool
        ensures { result ≡ is_some (client_in self.now n).principal }
    {
        if !self.was_opened(n) {
            return false;
        }
        self.sessions.items[(n - 1) as usize].has_principal()
    }

    /// The label of a session, which it keeps once it is closed; `None` exactly where it was never opened.
    pub fn label(&self, n: u64) -> Option<&Label>
        ensures opened { IsSome result ↔ IsTrue (was_opened self.now n) }
        ensures label { IfSome result (λ label. label.now ≡ (client_in self.now n).label) }
    {
        if !self.was_opened(n) {
            return None;
        }
        Some(self.sessions.items[(n - 1) as usize].label())
    }

    /// Whether the label of a session flows to that of another. Takes no memory.
    pub fn flows(&self, from: u64, to: u64) -> bool
        requires from { IsTrue (was_opened self.now from) }
        requires to { IsTrue (was_opened self.now to) }
        ensures { result ≡ flows (tags_of self.now.desk.seen.public)
            (client_in self.now from).label (client_in self.now to).label }
    {
        let label = self.sessions.items[(from - 1) as usize].label();
        label.flows(self.tags(), self.sessions.items[(to - 1) as usize].label())
    }

    /// Whether a session was opened.
    fn was_opened(&self, n: u64) -> bool
        ensures { result ≡ was_opened self.now n }
    {
        0 < n && n <= self.sessions()
    }
}

/// Tells a reply, to a session of a number or on a connection. False is want of memory, which only Label and Rows can meet.
fn say(out: &mut Out, session: Option<u64>, reply: &Reply) -> bool
    ensures told { result ≡ true → out.new.text ≡ reply_text session reply.now }
    ensures memory { result ≡ false → out.new.text ≡ memory_text session }
    ensures unbounded { result ≡ false → IsUnbounded reply.now }
{
    out.speak_for(session);
    out.put(reply)
}

/// The reply that refuses, unless there was no memory.
pub(crate) fn refusal_of(fault: Fault) -> Result<Reply, OutOfMemory>
    ensures told { IfOk result (λ r. r ≡ reply.Refused fault) }
    ensures cause { IfOk result (λ _. fault ≡ Fault.OutOfMemory → ⊥) }
{
    match fault {
        Fault::OutOfMemory => Err(OutOfMemory),
        _ => Ok(Reply::Refused(fault)),
    }
}
