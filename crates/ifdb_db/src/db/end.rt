// How transactions begin and end.
ghost use Rattle.std.specs.Prelude.{◌≡◌, ◌++◌, ◌∷◌, [], ℕ, List, None, Option, Some, IfErr, IfOk, IsTrue, OnErr, OnOk};
ghost use Rattle.ifdb_redo.specs.declared.record.RedoRecord.TheVariants as redo;
ghost use Rattle.ifdb_model.specs.Log.{commits};
ghost use Rattle.ifdb_model.specs.Step.{begin, bye, rollback};
ghost use Rattle.ifdb_db.specs.Answer.{begun_at, commits_by, fault_at, fault_of, IsAnswered, IsStill};
ghost use Rattle.ifdb_db.specs.Client.{left_client, session_at, txn_at};
ghost use Rattle.ifdb_db.specs.Desk.{begins_after, moved, settled, with_entry, without};
ghost use Rattle.ifdb_db.specs.Kept.{Began, IsHeld, IsLabelKept, keeps_parents, Outgrows};
ghost use Rattle.ifdb_db.specs.Noting.{noted, IsNoted};

use super::Db;
use crate::OutOfMemory;
use crate::begins::{oldest_of, settle, take_away};
use crate::note::Note;
use crate::session::Session;
use crate::txn::Txn;
use ifdb_commit::{Judged, verdict};
use ifdb_label::Label;
use ifdb_wire::{Fault, Reply};

impl Db {
    /// BEGIN of a session without a transaction. It takes room to note where the transaction began.
    pub(super) fn begin(&mut self, session: &mut Session) -> Result<Reply, Fault>
        requires outside { session.old.txn ≡ None }
        requires kept { IsHeld self.old session.old }
        ensures answered { IsAnswered (begin self.old.count (session_at session.old))
            session.old session.new self.old self.new result }
        ensures kept { IsHeld self.new session.new }
        ensures still { IsStill session.old session.new self.old self.new result }
    {
        let txn = self.begun()?;
        session.txn = Some(txn);
        Ok(Reply::Done)
    }

    /// A transaction over what all see now.
    fn begun(&mut self) -> Result<Txn, OutOfMemory>
        ensures begun { IfOk result (λ txn. txn ≡ begun_at self.old) }
        ensures noted { OnOk result (self.new ≡ settled (record self.old {
          begins = self.old.begins ++ self.old.count ∷ [];
        })) }
        ensures err { OnErr result (self.new ≡ self.old) }
    {
        self.begins.reserve(1)?;
        let txn = Txn::begun(self.alloc, self.count, &self.public, self.store.content())?;
        self.begins.push_reserved(self.count);
        Ok(txn)
    }

    /// COMMIT: first the verdict, then the memory, then the writes.
    #[tactic(auto, using(crate::proofs::Noting::nothing_noted, crate::proofs::Noting::commit_noted))]
    pub(super) fn commit(&mut self, session: &mut Session, note: &mut Note) -> Result<Reply, Fault>
        requires kept { IsHeld self.old session.old }
        ensures answered { IsAnswered (commits_by self.old session.old)
            session.old session.new self.old self.new result }
        ensures kept { IsHeld self.new session.new }
        ensures still { IsStill session.old session.new self.old self.new result }
        ensures memory_after_verdict { OnErr result (fault_at self.old session.old ≡ None) }
        ensures noted { (asker : Option ℕ) (line : List ℕ)
            → IsNoted (commits_by self.old session.old) asker line note.old note.new result }
    {
        let Some(txn) = session.txn.take() else {
            return Err(Fault::NoTransaction);
        };
        if let Some(fault) = self.refusal(&txn, &session.label) {
            self.forget(txn.begin());
            drop(txn);
            return Ok(Reply::Refused(fault));
        }
        if let Err(txn) = self.install(txn, note) {
            session.txn = Some(txn);
            return Err(Fault::OutOfMemory);
        }
        Ok(Reply::Done)
    }

    /// The refusal of a COMMIT at a label, if it is one. Takes no memory.
    fn refusal(&self, txn: &Txn, label: &Label) -> Option<Fault>
        requires kept { IsLabelKept self.now.seen.public label.now (Some txn.now) }
        ensures fault { result ≡ fault_of self.now label.now (Some txn.now) }
        ensures parents { result ≡ None
            → IsTrue (keeps_parents self.now.seen.rows txn.now.own) }
    {
        self.is_sound();
        let tags = self.tags();
        match verdict(&self.store, tags, txn.begin(), txn.own(), label) {
            Judged::Go => None,
            Judged::CommitLabel(_) => Some(Fault::CommitLabel),
            Judged::Conflict(_) => Some(Fault::Conflict),
            Judged::BrokenReference(_) => Some(Fault::BrokenReference),
            Judged::StillReferenced(_) => Some(Fault::StillReferenced),
        }
    }

    /// Makes the writes of a transaction that may commit, which is over then. `Err` is want of memory, and gives it back.
    fn install(&mut self, txn: Txn, note: &mut Note) -> Result<(), Txn>
        requires kept { Outgrows txn.base.public self.old.seen.public }
        requires begun { Began txn.begin txn.base self.old.seen self.old.count }
        requires rooted { IsTrue (keeps_parents self.old.seen.rows txn.own) }
        ensures done { OnOk result
            (self.new ≡ settled (record (with_entry self.old (Some (commits txn.own))) {
              begins = without txn.begin self.old.begins;
            })) }
        ensures back { IfErr result (λ back. back ≡ txn) }
        ensures err { OnErr result (self.new ≡ self.old) }
        ensures noted { OnOk result
            (note.new ≡ noted note.old (redo.Commit txn.own ∷ [])) }
        ensures limit { note.new.limit ≡ note.old.limit }
    {
        if self.count == u64::MAX || note.hold_commit(txn.own()).is_err() {
            return Err(txn);
        }
        let begin = txn.begin();
        let before = oldest_of(&self.begins, self.count);
        if let Err(txn) = txn.commit(&mut self.store, self.count) {
            return Err(txn);
        }
        take_away(&mut self.begins, begin);
        self.count += 1;
        settle(&mut self.store, before, oldest_of(&self.begins, self.count));
        Ok(())
    }

    /// ROLLBACK.
    pub(super) fn roll_back(&mut self, session: &mut Session) -> Result<Reply, Fault>
        requires kept { IsHeld self.old session.old }
        ensures answered { IsAnswered (rollback (session_at session.old))
            session.old session.new self.old self.new result }
        ensures kept { IsHeld self.new session.new }
        ensures still { IsStill session.old session.new self.old self.new result }
    {
        let Some(txn) = session.txn.take() else {
            return Err(Fault::NoTransaction);
        };
        self.forget(txn.begin());
        Ok(Reply::Done)
    }

    /// BYE, and a session that leaves without it: its transaction, if one is open, is over.
    pub fn leave(&mut self, session: &mut Session)
        requires kept { IsHeld self.old session.old }
        ensures session { session.new ≡ left_client session.old }
        ensures desk { self.new
            ≡ moved (session_at session.old) (bye (session_at session.old)) self.old }
        ensures kept { IsHeld self.new session.new }
    {
        self.give_up(session);
        session.is_open = false;
    }

    /// Ends a transaction, if one is open, and leaves its writes.
    fn give_up(&mut self, session: &mut Session)
        requires kept { IsHeld self.old session.old }
        ensures session { session.new ≡ record session.old { txn = None } }
        ensures desk { self.new ≡ settled (record self.old {
          begins = begins_after (txn_at session.old.txn) None self.old.begins;
        }) }
        ensures kept { IsHeld self.new session.new }
    {
        self.is_settled();
        let Some(txn) = session.txn.take() else {
            return;
        };
        self.forget(txn.begin());
    }

    /// Forgets where a transaction began, which is over. Takes no memory.
    fn forget(&mut self, begin: u64)
        ensures { self.new ≡ settled (record self.old { begins = without begin self.old.begins }) }
    {
        let before = oldest_of(&self.begins, self.count);
        take_away(&mut self.begins, begin);
        settle(&mut self.store, before, oldest_of(&self.begins, self.count));
    }
}
