// What a session is answered.
ghost use Rattle.std.specs.Prelude.{◌≡◌, Some, IsTrue};
ghost use Rattle.ifdb_snapshot.specs.Narrow.{is_narrow};
ghost use Rattle.ifdb_db.specs.Answer.{answered_by, IsAnswered, IsStill};
ghost use Rattle.ifdb_db.specs.Kept.{IsHeld};
ghost use Rattle.ifdb_db.specs.Noting.{IsNoted};

use super::Db;
use crate::note::Note;
use crate::session::Session;
use crate::told::Told;
use ifdb_syntax::Request;
use ifdb_value::Principal;
use ifdb_wire::{Fault, Reply};

impl Db {
    /// Answers a request of an open session, and notes what it adds to the log. An error changes nothing, and want of memory is one.
    #[tactic(auto, using(crate::proofs::Noting::new_noted))]
    pub(super) fn answer(
        &mut self,
        session: &mut Session,
        request: Request,
        line: &[u8],
        note: &mut Note,
    ) -> Result<Reply, Fault>
        requires narrow { IsTrue (is_narrow request) }
        requires open { IsTrue session.old.is_open }
        requires kept { IsHeld self.old session.old }
        ensures answered { IsAnswered
            (answered_by self.old session.old session.old.principal request)
            session.old session.new self.old self.new result }
        ensures kept { IsHeld self.new session.new }
        ensures still { IsStill session.old session.new self.old self.new result }
        ensures noted { IsNoted (answered_by self.old session.old session.old.principal request)
            session.old.principal line.now note.old note.new result }
    {
        match session.principal {
            None => {
                let answer = self.answer_new(session, &request);
                drop(request);
                answer
            }
            Some(asker) => self.answer_as(session, asker, request, line, note),
        }
    }

    /// Answers a session that said HELLO for a principal: in its transaction, if one is open, from that alone, but for its end.
    #[tactic(auto, using(crate::proofs::Noting::quiet_noted))]
    fn answer_as(
        &mut self,
        session: &mut Session,
        asker: Principal,
        request: Request,
        line: &[u8],
        note: &mut Note,
    ) -> Result<Reply, Fault>
        requires narrow { IsTrue (is_narrow request) }
        requires open { IsTrue session.old.is_open }
        requires asker { session.old.principal ≡ Some asker }
        requires kept { IsHeld self.old session.old }
        ensures answered { IsAnswered (answered_by self.old session.old (Some asker) request)
            session.old session.new self.old self.new result }
        ensures kept { IsHeld self.new session.new }
        ensures still { IsStill session.old session.new self.old self.new result }
        ensures noted { IsNoted (answered_by self.old session.old (Some asker) request)
            (Some asker) line.now note.old note.new result }
    {
        self.is_sound();
        let Some(txn) = &mut session.txn else {
            return self.answer_outside(session, asker, request, line, note);
        };
        match txn.ask(asker, session.ceiling.as_ref(), &mut session.label, request)? {
            Told::Replies(reply) => Ok(reply),
            Told::Commits => self.commit(session, note),
            Told::RollsBack => self.roll_back(session),
            Told::Leaves => {
                self.leave(session);
                Ok(Reply::Done)
            }
        }
    }
}
