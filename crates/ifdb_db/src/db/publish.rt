// CREATE, GRANT and REVOKE.
ghost use Rattle.std.specs.Prelude.{◌≡◌, ◌⊎◌, Some, None, IfErr, IsTrue, OnErr, OnOk};
ghost use Rattle.ifdb_wire.specs.declared.fault.Fault.TheVariants.{OutOfMemory as NoMemory};
ghost use Rattle.ifdb_catalog.specs.Public.{refusal};
ghost use Rattle.ifdb_catalog.specs.Fits.{bound_fits, change_fits, is_new};
ghost use Rattle.ifdb_model.specs.Log.{changes};
ghost use Rattle.ifdb_model.specs.Step.{form_of, publishes};
ghost use Rattle.ifdb_restore.specs.Redone.{recorded};
ghost use Rattle.ifdb_snapshot.specs.Narrow.{is_narrow, is_narrow_bound, is_narrow_change};
ghost use Rattle.ifdb_db.specs.Answer.{answered_by, IsAnswered, IsStill};
ghost use Rattle.ifdb_db.specs.Desk.{settled, with_entry};
ghost use Rattle.ifdb_db.specs.Kept.{IsKept};
ghost use Rattle.ifdb_db.specs.Noting.{noted, IsNoted, IsNotedAt};
ghost use Rattle.ifdb_db.specs.Outside.{IsPublished};
ghost use Rattle.ifdb_db.specs.Publishing.{entry_of, is_new_bound, refusal_of};

use super::Db;
use crate::begins::{oldest_of, settle};
use crate::note::Note;
use crate::session::Session;
use ifdb_bound::{Bound, Change};
use ifdb_catalog::bound_changes_are_new;
use ifdb_label::Label;
use ifdb_syntax::Request;
use ifdb_value::Principal;
use ifdb_wire::{Fault, Reply};

impl Db {
    /// CREATE, GRANT and REVOKE outside a transaction.
    #[tactic(auto, using(crate::proofs::Answering::published_answers, crate::proofs::Answering::published_keeps, crate::proofs::Answering::published_is_still, crate::proofs::Keeping::made_now))]
    pub(super) fn publish(
        &mut self,
        session: &mut Session,
        asker: Principal,
        request: Request,
        line: &[u8],
        note: &mut Note,
    ) -> Result<Reply, Fault>
        requires form { form_of request ≡ publishes }
        requires narrow { IsTrue (is_narrow request) }
        requires open { IsTrue session.old.is_open }
        requires asker { session.old.principal ≡ Some asker }
        requires outside { session.old.txn ≡ None }
        requires kept { IsKept self.old.seen.public session.old }
        ensures answered { IsAnswered (answered_by self.old session.old (Some asker) request)
            session.old session.new self.old self.new result }
        ensures kept { IsKept self.new.seen.public session.new }
        ensures still { IsStill session.old session.new self.old self.new result }
        ensures noted { IsNoted (answered_by self.old session.old (Some asker) request)
            (Some asker) line.now note.old note.new result }
    {
        self.publish_at(asker, &session.label, request, line, note)
    }

    /// Makes a change of the public state, at the empty label alone.
    #[tactic(auto, using(crate::proofs::Publishing::bound_is_new, crate::proofs::Publishing::published, crate::proofs::Publishing::labelled, crate::proofs::Publishing::unbound, crate::proofs::Publishing::refused, crate::proofs::Publishing::published_noted, crate::proofs::Noting::not_noted))]
    fn publish_at(
        &mut self,
        asker: Principal,
        label: &Label,
        request: Request,
        line: &[u8],
        note: &mut Note,
    ) -> Result<Reply, Fault>
        requires form { form_of request ≡ publishes }
        requires narrow { IsTrue (is_narrow request) }
        ensures published { IsPublished asker label.now request self.old self.new result }
        ensures noted { IsNotedAt asker label.now request line.now
            self.old note.old note.new result }
    {
        if !label.tags().is_empty() {
            drop(request);
            return Err(Fault::LabelNotEmpty);
        }
        let found = self.seen().bind(asker, request)?;
        bound_changes_are_new();
        self.make(found, asker, line, note)?;
        Ok(Reply::Done)
    }

    /// Makes what is bound, if it is a change.
    fn make(
        &mut self,
        found: Bound,
        asker: Principal,
        line: &[u8],
        note: &mut Note,
    ) -> Result<(), Fault>
        requires fits { IsTrue (bound_fits self.old.seen.public found) }
        requires new { IsTrue (is_new_bound self.old.seen.public found) }
        requires narrow { IsTrue (is_narrow_bound found) }
        ensures done { OnOk result (self.new ≡ settled (with_entry self.old (entry_of found))) }
        ensures accepted { OnOk result (refusal_of self.old.seen.public found ≡ None) }
        ensures refused { IfErr result (λ fault. (fault ≡ NoMemory)
            ⊎ (refusal_of self.old.seen.public found ≡ Some fault)) }
        ensures err { OnErr result (self.new ≡ self.old) }
        ensures noted { OnOk result (note.new
            ≡ noted note.old (recorded (Some asker) line.now (entry_of found))) }
        ensures limit { note.new.limit ≡ note.old.limit }
    {
        match found {
            Bound::Change(change) => {
                note.hold_change(asker, line)?;
                self.apply(change)
            }
            _ => {
                drop(found);
                self.is_settled();
                Ok(())
            }
        }
    }

    /// Makes a change that is bound.
    pub(super) fn apply(&mut self, change: Change) -> Result<(), Fault>
        requires fits { IsTrue (change_fits self.old.seen.public change) }
        requires new { IsTrue (is_new self.old.seen.public change) }
        requires narrow { IsTrue (is_narrow_change change) }
        ensures done { OnOk result
            (self.new ≡ settled (with_entry self.old (Some (changes change)))) }
        ensures accepted { OnOk result (refusal self.old.seen.public change ≡ None) }
        ensures refused { IfErr result (λ fault. (fault ≡ NoMemory)
            ⊎ (refusal self.old.seen.public change ≡ Some fault)) }
        ensures err { OnErr result (self.new ≡ self.old) }
    {
        if self.count == u64::MAX {
            drop(change);
            return Err(Fault::OutOfMemory);
        }
        self.public.apply(change)?;
        let before = oldest_of(&self.begins, self.count);
        self.count += 1;
        settle(&mut self.store, before, oldest_of(&self.begins, self.count));
        Ok(())
    }
}
