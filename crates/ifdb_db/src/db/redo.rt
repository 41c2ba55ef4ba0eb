// Recorded entries, made again at a restart.
ghost use Rattle.std.specs.Prelude.{◌≡◌, ◌≢◌, ◌⊎◌, ◌↔◌, Err, IfErr, IsSome, IsTrue, None, OnErr, OnOk, Some};
ghost use Rattle.ifdb_row.specs.Content.{after};
ghost use Rattle.ifdb_row.specs.Verdict.{breaks, leaves};
ghost use Rattle.ifdb_wire.specs.declared.fault.Fault.TheVariants.{OutOfMemory as NoMemory};
ghost use Rattle.ifdb_model.specs.Log.{commits};
ghost use Rattle.ifdb_model.specs.Step.{form_of, publishes};
ghost use Rattle.ifdb_redo.specs.declared.record.RedoRecord.TheVariants as redo;
ghost use Rattle.ifdb_restore.specs.Parents.{spares};
ghost use Rattle.ifdb_restore.specs.Redone.{entry_if};
ghost use Rattle.ifdb_snapshot.specs.Narrow.{is_narrow};
ghost use Rattle.ifdb_db.specs.Desk.{settled, with_entry};
ghost use Rattle.ifdb_db.specs.Kept.{keeps_parents};
ghost use Rattle.ifdb_db.specs.Redoing.{change_by, entry_at, writes_fit};

use super::Db;
use crate::OutOfMemory;
use crate::fitting::are_fit;
use crate::reading::ReadLine;
use ifdb_bound::Bound;
use ifdb_catalog::bound_changes_are_new;
use ifdb_foreign::{first_broken, first_left};
use ifdb_redo::RedoRecord;
use ifdb_row::Writes;
use ifdb_store::Content;
use ifdb_syntax::Request;
use ifdb_value::Principal;
use ifdb_wire::Fault;
use std::alloc::AllocError;
use std::error::Error;
use std::fmt;

/// Why a recorded entry is not made again.
#[derive(Clone, Copy, Debug, PartialEq, Eq)]
pub enum RedoFault {
    /// It doesn't fit what the entries before it left.
    DoesNotFit,
    /// An allocation was refused.
    OutOfMemory,
}

impl fmt::Display for RedoFault {
    fn fmt<W: fmt::Write>(&self, f: &mut fmt::Formatter<W>) -> fmt::Result {
        match self {
            RedoFault::DoesNotFit => write!(f, "the record does not fit the records before it"),
            RedoFault::OutOfMemory => write!(f, "out of memory"),
        }
    }
}

impl Error for RedoFault {}

impl From<AllocError> for RedoFault {
    ghost use Rattle.std.specs.Prelude.{◌≡◌};
    ghost use Rattle.ifdb_db.specs.declared.db.redo.RedoFault.{RedoFault};

    ghost from_gives = { λ _ fault. fault ≡ RedoFault.OutOfMemory };

    fn from(_: AllocError) -> Self {
        RedoFault::OutOfMemory
    }
}

impl Db {
    /// Makes a recorded entry again, whatever the record says, if it fits what the entries before it left. A public change is asked for by
    /// its line, outside transactions and at the empty label; a commit is installed once its rows, labels and references are tested.
    /// Costs what the entry did at first, but for the search of its rows.
    ///
    /// # Errors
    /// `DoesNotFit` only where the record makes no entry here; `OutOfMemory`. Whatever the error, all is as before.
    pub fn redo(&mut self, recorded: RedoRecord) -> Result<(), RedoFault>
        ensures done { OnOk result
            (self.new ≡ settled (with_entry self.old (entry_at self.old recorded))) }
        ensures fits { OnOk result (IsSome (entry_at self.old recorded)) }
        ensures unfit { result ≡ Err RedoFault.DoesNotFit → entry_at self.old recorded ≡ None }
        ensures err { OnErr result (self.new ≡ self.old) }
    {
        match recorded {
            RedoRecord::Change { asker, line } => {
                let read = ReadLine::new(self.alloc, line.items());
                self.redo_change(asker, read)
            }
            RedoRecord::Commit(writes) => self.redo_commit(writes),
        }
    }

    /// Makes the writes of a recorded commit, if they fit.
    #[tactic(auto, using(crate::proofs::Redoing::commit_is_made, crate::proofs::Redoing::commit_fits_so, crate::proofs::Redoing::commit_is_unfit))]
    fn redo_commit(&mut self, writes: Writes) -> Result<(), RedoFault>
        ensures done { OnOk result
            (self.new ≡ settled (with_entry self.old (entry_at self.old (redo.Commit writes)))) }
        ensures fits { OnOk result (IsSome (entry_at self.old (redo.Commit writes))) }
        ensures unfit { result ≡ Err RedoFault.DoesNotFit
            → entry_at self.old (redo.Commit writes) ≡ None }
        ensures err { OnErr result (self.new ≡ self.old) }
    {
        if !self.fits(&writes) {
            drop(writes);
            return Err(RedoFault::DoesNotFit);
        }
        self.redo_fitting(writes)?;
        Ok(())
    }

    /// Makes a recorded public change again, by its line.
    #[tactic(auto, using(crate::proofs::Redoing::change_is_made, crate::proofs::Redoing::change_fits_so, crate::proofs::Redoing::unread, crate::proofs::Redoing::of_another_form, crate::proofs::Redoing::not_made))]
    fn redo_change(&mut self, asker: Principal, line: ReadLine<'_>) -> Result<(), RedoFault>
        ensures done { OnOk result (self.new
            ≡ settled (with_entry self.old (entry_at self.old (redo.Change asker line.entry)))) }
        ensures fits { OnOk result (IsSome (entry_at self.old (redo.Change asker line.entry))) }
        ensures unfit { result ≡ Err RedoFault.DoesNotFit
            → entry_at self.old (redo.Change asker line.entry) ≡ None }
        ensures err { OnErr result (self.new ≡ self.old) }
    {
        let request = match line.into_request() {
            Ok(request) => request,
            Err(fault) => return Err(why(fault)),
        };
        if !publishes(&request) {
            drop(request);
            return Err(RedoFault::DoesNotFit);
        }
        match self.redo_request(asker, request) {
            Ok(()) => Ok(()),
            Err(fault) => Err(why(fault)),
        }
    }

    /// Makes the public change that a request asks for. A refusal only where it asks for none here.
    #[tactic(auto, using(crate::proofs::Redoing::bound_is_made, crate::proofs::Redoing::bound_fits_so, crate::proofs::Redoing::unbound, crate::proofs::Redoing::refused, crate::proofs::Redoing::no_change))]
    fn redo_request(&mut self, asker: Principal, request: Request) -> Result<(), Fault>
        requires narrow { IsTrue (is_narrow request) }
        ensures done { OnOk result (self.new ≡ settled (with_entry self.old
            (entry_if (change_by self.old.seen.public asker request)))) }
        ensures fits { OnOk result (IsSome (change_by self.old.seen.public asker request)) }
        ensures refused { IfErr result (λ fault. (fault ≡ NoMemory)
            ⊎ (change_by self.old.seen.public asker request ≡ None)) }
        ensures err { OnErr result (self.new ≡ self.old) }
    {
        let found = self.seen().bind(asker, request)?;
        bound_changes_are_new();
        match found {
            Bound::Change(change) => self.apply(change),
            _ => {
                drop(found);
                Err(Fault::NotGranted)
            }
        }
    }

    /// Makes writes that fit.
    #[tactic(auto, using(crate::proofs::Redoing::fits_so))]
    fn redo_fitting(&mut self, writes: Writes) -> Result<(), OutOfMemory>
        requires { IsTrue (writes_fit self.old.seen writes) }
        ensures done { OnOk result
            (self.new ≡ settled (with_entry self.old (Some (commits writes)))) }
        ensures err { OnErr result (self.new ≡ self.old) }
    {
        self.land(writes)
    }

    /// Whether writes fit what all see.
    fn fits(&self, writes: &Writes) -> bool
        ensures { result ≡ writes_fit self.now.seen writes.now }
    {
        are_fit(self.public.get().catalog(), writes.items()) && self.keeps_parents(writes)
    }

    /// Whether after the writes each row's parents stand: asked of the written rows and of the children of emptied slots alone.
    #[tactic(auto, using(crate::proofs::Redoing::test_is))]
    fn keeps_parents(&self, writes: &Writes) -> bool
        ensures { result ≡ keeps_parents self.now.seen.rows writes.now }
    {
        self.is_sound();
        let _ = writes.items();
        spares(self.store.content(), writes)
    }
}

/// Whether no written row's parent is gone after the writes, and no row's parent is emptied by them.
fn spares(rows: &Content, writes: &Writes) -> bool
    ensures { result ≡ spares (after rows.now writes.now) writes.now }
{
    !breaks(rows, writes) && !leaves(rows, writes)
}

/// Whether a written row's parent is gone after the writes.
#[tactic(auto, using(crate::proofs::Redoing::some_broken, crate::proofs::Redoing::none_broken))]
fn breaks(rows: &Content, writes: &Writes) -> bool
    ensures { result ≡ breaks (after rows.now writes.now) writes.now }
{
    match first_broken(rows, writes) {
        Some(_) => true,
        None => false,
    }
}

/// Whether a row's parent is emptied by the writes.
#[tactic(auto, using(ifdb_snapshot::proofs::Writing::some_left, ifdb_snapshot::proofs::Writing::none_left))]
fn leaves(rows: &Content, writes: &Writes) -> bool
    ensures { result ≡ leaves (after rows.now writes.now) writes.now }
{
    first_left(rows, writes).is_some()
}

/// Whether a request is one that publishes: CREATE, GRANT or REVOKE.
fn publishes(request: &Request) -> bool
    ensures { IsTrue result ↔ (form_of request.now ≡ publishes) }
{
    match request {
        Request::CreatePrincipal { .. }
        | Request::CreateTag { .. }
        | Request::CreateTable { .. }
        | Request::CreateView { .. }
        | Request::Grant { .. }
        | Request::Revoke { .. } => true,
        _ => false,
    }
}

/// Want of memory, or a refusal: what was recorded doesn't fit.
fn why(fault: Fault) -> RedoFault
    ensures { result ≡ RedoFault.DoesNotFit → fault ≢ NoMemory }
{
    match fault {
        Fault::OutOfMemory => RedoFault::OutOfMemory,
        _ => RedoFault::DoesNotFit,
    }
}
