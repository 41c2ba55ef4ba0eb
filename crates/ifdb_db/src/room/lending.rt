// Sessions that a room lends, and takes back; and what is looked at away from it.
ghost use Rattle.std.specs.Prelude.{◌≡◌, None, IfErr, IfOk, IfSome, IsTrue, OnErr, OnOk};
ghost use Rattle.ifdb_wire.specs.Text.{memory_text, reply_text};
ghost use Rattle.ifdb_model.specs.Run.{asks, leaves};
ghost use Rattle.ifdb_db.specs.Kept.{IsHeld};
ghost use Rattle.ifdb_db.specs.Lent.{IsLent, MayComeBack, with_client};
ghost use Rattle.ifdb_db.specs.Looks.{IsLookOf, IsSightOf};
ghost use Rattle.ifdb_db.specs.Noting.{IsNotedIn};
ghost use Rattle.ifdb_db.specs.Room.{client_in};
ghost use Rattle.ifdb_db.specs.RoomSteps.{GoesBy, IsReplyTo};

use super::{Room, say};
use crate::look::{Look, Sight};
use crate::note::Note;
use crate::reading::ReadLine;
use crate::session::Session;
use crate::sessions::Sessions;
use ifdb_wire::{Fault, Out, Reply};

impl<S: Sessions> Room<S> {
    /// Lends an open session whose transaction has written nothing: a copy, which shares what all saw at the BEGIN, answers
    /// its lines by itself. `None` where there is no such transaction, or no memory for the copy.
    pub fn lend(&self, n: u64) -> Option<Session>
        ensures copy { IfSome result (λ session. session ≡ client_in self.now n) }
        ensures lent { IfSome result (λ session. IsLent session) }
    {
        let Some(session) = self.sessions.find(n) else {
            return None;
        };
        if !session.is_open() {
            return None;
        }
        session.lend()
    }

    /// A SELECT of an open session outside a transaction, with all that its answer takes. `Err` gives the line back: it is no
    /// SELECT, or the session isn't such a one or didn't say HELLO, or there is no memory.
    pub fn look<'a>(&self, n: u64, line: ReadLine<'a>) -> Result<Look<'a>, ReadLine<'a>>
        ensures look { IfOk result (IsLookOf self.now n line.entry) }
        ensures back { IfErr result (λ back. back ≡ line.entry) }
    {
        let line = line.into_select()?;
        line.is_sound();
        match self.sight(n) {
            Some(sight) => Ok(Look { line, sight }),
            None => Err(ReadLine::from(line)),
        }
    }

    /// What a session sees, if it is open, said HELLO and has no transaction; `None` too where there is no memory.
    fn sight(&self, n: u64) -> Option<Sight>
        ensures { IfSome result (IsSightOf self.now n) }
    {
        let Some(session) = self.sessions.find(n) else {
            return None;
        };
        if !session.is_open() {
            return None;
        }
        self.db.sight(session)
    }

    /// Takes a lent session back, asks a line for it, notes what it adds to the log, and tells the reply on a connection. `Err`
    /// is want of memory, or of room for the note: it changes nothing and gives the session back.
    pub fn resume(
        &mut self,
        n: u64,
        session: Session,
        line: ReadLine<'_>,
        note: &mut Note,
        out: &mut Out,
    ) -> Result<Reply, Session>
        requires { MayComeBack self.old n session }
        ensures asked { OnOk result
            (GoesBy (with_client self.old n session) self.new (asks n line.entry)) }
        ensures told { IfOk result (IsReplyTo (with_client self.old n session) n line.entry) }
        ensures text { IfOk result (λ r. out.new.text ≡ reply_text None r) }
        ensures noted { OnOk result
            (IsNotedIn (with_client self.old n session) n line.entry note.old note.new) }
        ensures limit { note.new.limit ≡ note.old.limit }
        ensures err { OnErr result (self.new ≡ self.old) }
        ensures back { IfErr result (λ back. back ≡ session) }
        ensures memory { OnErr result (out.new.text ≡ memory_text None) }
    {
        self.is_sound();
        let begun = self.put(n, session);
        let Ok(reply) = self.reply_noted(n, line, note) else {
            say(out, None, &Reply::Refused(Fault::OutOfMemory));
            return Err(self.put(n, begun));
        };
        if !say(out, None, &reply) {
            return Err(self.put(n, begun));
        }
        Ok(reply)
    }

    /// Takes a lent session back, which leaves without BYE. Takes no memory.
    pub fn leave_with(&mut self, n: u64, session: Session)
        requires { MayComeBack self.old n session }
        ensures { GoesBy (with_client self.old n session) self.new (leaves n) }
    {
        self.is_sound();
        self.put(n, session);
        self.leave(n);
    }

    /// Puts a session in the place of an open one, which is given.
    fn put(&mut self, n: u64, session: Session) -> Session
        requires open { IsTrue (client_in self.old n).is_open }
        requires kept { IsHeld self.old.desk session }
        ensures put { self.new ≡ with_client self.old n session }
        ensures before { result ≡ client_in self.old n }
    {
        self.sessions.replace(n, session)
    }
}
