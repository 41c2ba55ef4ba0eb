// Requests outside a transaction.
ghost use Rattle.std.specs.Prelude.{◌≡◌, None, Some, IsTrue};
ghost use Rattle.ifdb_snapshot.specs.Narrow.{is_narrow};
ghost use Rattle.ifdb_db.specs.Answer.{answered_by, IsAnswered, IsStill};
ghost use Rattle.ifdb_db.specs.Client.{seen_by, session_at};
ghost use Rattle.ifdb_db.specs.Kept.{IsHeld};
ghost use Rattle.ifdb_db.specs.Noting.{IsNoted};
ghost use Rattle.ifdb_model.specs.Step.{bye, form_of, hello, looks, relabels, show_label};

use super::Db;
use crate::looks::{select, set_label};
use crate::note::Note;
use crate::session::Session;
use ifdb_syntax::Request;
use ifdb_value::{Name, Principal, Word};
use ifdb_wire::{Fault, Reply};

impl Db {
    /// Answers a session that didn't say HELLO.
    #[tactic(auto, using(crate::proofs::Answering::not_hello))]
    pub(super) fn answer_new(
        &mut self,
        session: &mut Session,
        request: &Request,
    ) -> Result<Reply, Fault>
        requires kept { IsHeld self.old session.old }
        ensures answered { IsAnswered (answered_by self.old session.old None request.now)
            session.old session.new self.old self.new result }
        ensures kept { IsHeld self.new session.new }
        ensures still { IsStill session.old session.new self.old self.new result }
    {
        match request {
            Request::Hello { name, key } => self.greet(session, name, key),
            Request::Bye => self.say_bye(session),
            _ => Err(Fault::NotHello),
        }
    }

    /// HELLO of a session that didn't say it yet, which takes the principal's clearance as its ceiling.
    #[tactic(auto, using(crate::proofs::Answering::greets_so, crate::proofs::Answering::not_greeted, crate::proofs::Answering::not_welcomed))]
    fn greet(&mut self, session: &mut Session, name: &Name, key: &Word) -> Result<Reply, Fault>
        requires kept { IsHeld self.old session.old }
        ensures answered { IsAnswered
            (hello self.old.seen.public (session_at session.old) name.now key.now)
            session.old session.new self.old self.new result }
        ensures kept { IsHeld self.new session.new }
        ensures still { IsStill session.old session.new self.old self.new result }
    {
        self.is_settled();
        let seen = self.seen();
        let principal = seen.greeted(name, key)?;
        let ceiling = seen.clearance(principal)?;
        session.principal = Some(principal);
        session.ceiling = ceiling;
        Ok(Reply::Done)
    }

    /// Answers a session without a transaction that said HELLO.
    #[tactic(auto, using(crate::proofs::Answering::hello_twice, crate::proofs::Answering::publish_holds, crate::proofs::Noting::quiet_noted))]
    pub(super) fn answer_outside(
        &mut self,
        session: &mut Session,
        asker: Principal,
        request: Request,
        line: &[u8],
        note: &mut Note,
    ) -> Result<Reply, Fault>
        requires narrow { IsTrue (is_narrow request) }
        requires open { IsTrue session.old.is_open }
        requires asker { session.old.principal ≡ Some asker }
        requires outside { session.old.txn ≡ None }
        requires kept { IsHeld self.old session.old }
        ensures answered { IsAnswered (answered_by self.old session.old (Some asker) request)
            session.old session.new self.old self.new result }
        ensures kept { IsHeld self.new session.new }
        ensures still { IsStill session.old session.new self.old self.new result }
        ensures noted { IsNoted (answered_by self.old session.old (Some asker) request)
            (Some asker) line.now note.old note.new result }
    {
        match &request {
            Request::Hello { .. } => Err(Fault::HelloTwice),
            Request::CreatePrincipal { .. } => self.publish(session, asker, request, line, note),
            Request::CreateTag { .. } => self.publish(session, asker, request, line, note),
            Request::CreateTable { .. } => self.publish(session, asker, request, line, note),
            Request::CreateView { .. } => self.publish(session, asker, request, line, note),
            Request::Grant { .. } => self.publish(session, asker, request, line, note),
            Request::Revoke { .. } => self.publish(session, asker, request, line, note),
            Request::SetLabel { .. } => self.set_label(session, asker, request),
            Request::ShowLabel => self.show_label(session),
            Request::Select(_) => self.select(session, asker, request),
            Request::Insert { .. } => self.change_rows(session, asker, request, note),
            Request::Update { .. } => self.change_rows(session, asker, request, note),
            Request::Delete { .. } => self.change_rows(session, asker, request, note),
            Request::Begin => self.begin(session),
            Request::Commit => self.commit(session, note),
            Request::Rollback => self.roll_back(session),
            Request::Bye => self.say_bye(session),
        }
    }

    /// SET LABEL outside a transaction.
    #[tactic(auto, using(crate::proofs::Answering::said_so, crate::proofs::Answering::said_is_still, crate::proofs::Keeping::made_held, crate::proofs::Keeping::held_outside))]
    fn set_label(
        &mut self,
        session: &mut Session,
        asker: Principal,
        request: Request,
    ) -> Result<Reply, Fault>
        requires form { form_of request ≡ relabels }
        requires narrow { IsTrue (is_narrow request) }
        requires open { IsTrue session.old.is_open }
        requires asker { session.old.principal ≡ Some asker }
        requires outside { session.old.txn ≡ None }
        requires kept { IsHeld self.old session.old }
        ensures answered { IsAnswered (answered_by self.old session.old (Some asker) request)
            session.old session.new self.old self.new result }
        ensures kept { IsHeld self.new session.new }
        ensures still { IsStill session.old session.new self.old self.new result }
    {
        self.is_sound();
        set_label(
            &self.seen(),
            asker,
            session.ceiling.as_ref(),
            &mut session.label,
            request,
        )
    }

    /// SHOW LABEL outside a transaction.
    #[tactic(auto, using(crate::proofs::Answering::label_told))]
    fn show_label(&mut self, session: &mut Session) -> Result<Reply, Fault>
        requires outside { session.old.txn ≡ None }
        requires kept { IsHeld self.old session.old }
        ensures answered { IsAnswered
            (show_label (seen_by self.old.seen session.old.txn).public (session_at session.old))
            session.old session.new self.old self.new result }
        ensures kept { IsHeld self.new session.new }
        ensures still { IsStill session.old session.new self.old self.new result }
    {
        self.is_settled();
        let reply = self.seen().label_shown(&session.label)?;
        Ok(reply)
    }

    /// SELECT outside a transaction.
    #[tactic(auto, using(crate::proofs::Answering::alike_so, crate::proofs::Answering::alike_is_still, crate::proofs::Keeping::made_held, crate::proofs::Keeping::held_outside))]
    fn select(
        &mut self,
        session: &mut Session,
        asker: Principal,
        request: Request,
    ) -> Result<Reply, Fault>
        requires form { form_of request ≡ looks }
        requires narrow { IsTrue (is_narrow request) }
        requires open { IsTrue session.old.is_open }
        requires asker { session.old.principal ≡ Some asker }
        requires outside { session.old.txn ≡ None }
        requires kept { IsHeld self.old session.old }
        ensures answered { IsAnswered (answered_by self.old session.old (Some asker) request)
            session.old session.new self.old self.new result }
        ensures kept { IsHeld self.new session.new }
        ensures still { IsStill session.old session.new self.old self.new result }
    {
        self.is_sound();
        select(&self.seen(), asker, &session.label, request)
    }

    /// BYE.
    #[tactic(auto, using(crate::proofs::Answering::says_bye))]
    pub(super) fn say_bye(&mut self, session: &mut Session) -> Result<Reply, Fault>
        requires kept { IsHeld self.old session.old }
        ensures answered { IsAnswered (bye (session_at session.old))
            session.old session.new self.old self.new result }
        ensures kept { IsHeld self.new session.new }
        ensures still { IsStill session.old session.new self.old self.new result }
    {
        self.leave(session);
        Ok(Reply::Done)
    }
}
