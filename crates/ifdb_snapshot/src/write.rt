// INSERT, UPDATE and DELETE.
ghost use Rattle.std.specs.Prelude.{◌≡◌, IfOk, IsTrue, length};
ghost use Rattle.ifdb_label.specs.Tags.{AreMade};
ghost use Rattle.ifdb_catalog.specs.Fits.{bound_fits};
ghost use Rattle.ifdb_model.specs.Writes.{is_delete, writes_of};
ghost use Rattle.ifdb_txn.specs.Answers.{Gives};
ghost use Rattle.ifdb_snapshot.specs.Writing.{are_fit, orphans};

use crate::snapshot::Snapshot;
use ifdb_bound::Bound;
use ifdb_foreign::first_left;
use ifdb_label::Label;
use ifdb_row::Writes;
use ifdb_txn::{Writer, Written, writes_of};
use ifdb_value::Principal;
use ifdb_wire::Fault;

impl<'a> Snapshot<'a> {
    /// What a bound request of a principal writes at a label, or its first refusal, which are those of `ifdb_txn`.
    #[tactic(auto, using(crate::proofs::Writing::known_made, crate::proofs::Writing::fit_keyed, crate::proofs::Sound::fit_rows))]
    pub fn written(&self, asker: Principal, label: &Label, found: &Bound) -> Result<Written, Fault>
        requires fits { IsTrue (bound_fits self.now.public found.now) }
        requires made { AreMade (length self.now.public.tags) label.now }
        ensures written { Gives
            (writes_of self.now.public asker self.now.rows label.now found.now) result }
        ensures fit { IfOk result (λ written. IsTrue (are_fit self.now.public written.writes)) }
    {
        let writer = Writer {
            alloc: self.alloc,
            catalog: self.public.catalog(),
            asker,
            label,
        };
        writes_of(&writer, self.rows, found)
    }

    /// Whether writes are those of a DELETE and leave a row without a parent. Takes no memory.
    #[tactic(auto, using(crate::proofs::Writing::some_left, crate::proofs::Writing::none_left))]
    pub fn orphans(&self, found: &Bound, writes: &Writes) -> bool
        ensures { result ≡ orphans (is_delete found.now) self.now.rows writes.now }
    {
        is_delete(found) && first_left(self.rows, writes).is_some()
    }
}

/// Whether a request is a DELETE.
fn is_delete(found: &Bound) -> bool
    ensures { result ≡ is_delete found.now }
{
    match found {
        Bound::Delete { .. } => true,
        _ => false,
    }
}
