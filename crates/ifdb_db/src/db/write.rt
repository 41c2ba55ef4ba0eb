// INSERT, UPDATE and DELETE outside a transaction, each a commit of its own.
ghost use Rattle.std.specs.Prelude.{◌≡◌, ℕ, IfOk, IsTrue, List, None, OnErr, OnOk, Some, length};
ghost use Rattle.ifdb_label.specs.Tags.{AreMade};
ghost use Rattle.ifdb_model.specs.Log.{commits};
ghost use Rattle.ifdb_model.specs.Step.{form_of, writes};
ghost use Rattle.ifdb_snapshot.specs.Narrow.{is_narrow};
ghost use Rattle.ifdb_snapshot.specs.Writing.{are_fit};
ghost use Rattle.ifdb_db.specs.Answer.{answered_by, IsAnswered, IsStill};
ghost use Rattle.ifdb_db.specs.Desk.{settled, with_entry};
ghost use Rattle.ifdb_db.specs.Kept.{IsHeld, keeps_parents};
ghost use Rattle.ifdb_db.specs.Noting.{IsNoted, IsNotedAt};
ghost use Rattle.ifdb_db.specs.Outside.{IsPublished, unless_orphaned, Writes as FindsWrites};
ghost use Rattle.ifdb_model.specs.Writes.{is_delete};

use super::Db;
use crate::OutOfMemory;
use crate::begins::{oldest_of, settle};
use crate::note::Note;
use crate::session::Session;
use ifdb_bound::Bound;
use ifdb_label::Label;
use ifdb_row::Writes;
use ifdb_snapshot::Snapshot;
use ifdb_syntax::Request;
use ifdb_txn::Written;
use ifdb_value::Principal;
use ifdb_wire::{Fault, Reply};

impl Db {
    /// INSERT, UPDATE and DELETE outside a transaction.
    #[tactic(auto, using(crate::proofs::Answering::published_answers, crate::proofs::Answering::published_holds, crate::proofs::Answering::published_is_still, crate::proofs::Keeping::made_held))]
    pub(super) fn change_rows(
        &mut self,
        session: &mut Session,
        asker: Principal,
        request: Request,
        note: &mut Note,
    ) -> Result<Reply, Fault>
        requires form { form_of request ≡ writes }
        requires narrow { IsTrue (is_narrow request) }
        requires open { IsTrue session.old.is_open }
        requires asker { session.old.principal ≡ Some asker }
        requires outside { session.old.txn ≡ None }
        requires kept { IsHeld self.old session.old }
        ensures answered { IsAnswered (answered_by self.old session.old (Some asker) request)
            session.old session.new self.old self.new result }
        ensures kept { IsHeld self.new session.new }
        ensures still { IsStill session.old session.new self.old self.new result }
        ensures noted { (line : List ℕ)
            → IsNoted (answered_by self.old session.old (Some asker) request)
            (Some asker) line note.old note.new result }
    {
        self.change_rows_at(asker, &session.label, request, note)
    }

    /// Makes what an INSERT, UPDATE or DELETE writes at a label, and says how many rows that counts. `StillReferenced` where a DELETE leaves
    /// a row without a parent.
    #[tactic(auto, using(crate::proofs::Writing::landed, crate::proofs::Writing::not_landed, crate::proofs::Noting::landed_noted, crate::proofs::Noting::not_noted))]
    fn change_rows_at(
        &mut self,
        asker: Principal,
        label: &Label,
        request: Request,
        note: &mut Note,
    ) -> Result<Reply, Fault>
        requires form { form_of request ≡ writes }
        requires narrow { IsTrue (is_narrow request) }
        requires made { AreMade (length self.old.seen.public.tags) label.now }
        ensures published { IsPublished asker label.now request self.old self.new result }
        ensures noted { (line : List ℕ) → IsNotedAt asker label.now request line
            self.old note.old note.new result }
    {
        let written = self.written(asker, label, request)?;
        let count = written.count();
        let writes = written.into_writes();
        note.hold_commit(&writes)?;
        self.land(writes)?;
        Ok(Reply::Count(count))
    }

    /// What an INSERT, UPDATE or DELETE writes, unless it leaves a row without a parent.
    fn written(&self, asker: Principal, label: &Label, request: Request) -> Result<Written, Fault>
        requires form { form_of request ≡ writes }
        requires narrow { IsTrue (is_narrow request) }
        requires made { AreMade (length self.now.seen.public.tags) label.now }
        ensures found { FindsWrites asker label.now request self.now result }
        ensures fit { IfOk result
            (λ written. IsTrue (are_fit self.now.seen.public written.writes)) }
        ensures rooted { IfOk result
            (λ written. IsTrue (keeps_parents self.now.seen.rows written.writes)) }
    {
        self.is_sound();
        let seen = self.seen();
        let found = seen.bind(asker, request)?;
        let written = seen.written(asker, label, &found);
        let written = unless_orphaned(&seen, &found, written);
        drop(found);
        written
    }

    /// Makes writes, which are one commit.
    pub(super) fn land(&mut self, writes: Writes) -> Result<(), OutOfMemory>
        requires fit { IsTrue (are_fit self.old.seen.public writes) }
        requires rooted { IsTrue (keeps_parents self.old.seen.rows writes) }
        ensures done { OnOk result
            (self.new ≡ settled (with_entry self.old (Some (commits writes)))) }
        ensures err { OnErr result (self.new ≡ self.old) }
    {
        if self.count == u64::MAX {
            return Err(OutOfMemory);
        }
        let before = oldest_of(&self.begins, self.count);
        if self.store.commit(self.count + 1, writes).is_err() {
            return Err(OutOfMemory);
        }
        self.count += 1;
        settle(&mut self.store, before, oldest_of(&self.begins, self.count));
        Ok(())
    }
}

/// What is written. `StillReferenced` where it is a DELETE that leaves a row without a parent.
fn unless_orphaned(
    seen: &Snapshot<'_>,
    found: &Bound,
    written: Result<Written, Fault>,
) -> Result<Written, Fault>
    ensures { result ≡ unless_orphaned (is_delete found.now) seen.now.rows written }
{
    let written = written?;
    if seen.orphans(found, written.writes()) {
        return Err(Fault::StillReferenced);
    }
    Ok(written)
}
