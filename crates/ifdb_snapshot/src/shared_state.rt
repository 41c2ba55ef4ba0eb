// A public state that several snapshots share.
ghost use Rattle.std.specs.Prelude.{◌≡◌, None, Some, IfOk, IsTrue, OnErr, OnOk};
ghost use Rattle.ifdb_wire.specs.Refused.{RefusedFor};
ghost use Rattle.ifdb_catalog.specs.Public.{changed, opening as first_public, refusal};
ghost use Rattle.ifdb_catalog.specs.Fits.{change_fits, is_new};
ghost use Rattle.ifdb_snapshot.specs.Narrow.{is_narrow_change};

use crate::OutOfMemory;
use crate::public_state::PublicState;
use ifdb_bound::Change;
use ifdb_wire::Fault;
use std::alloc::Global;
use std::marker::Model;
use std::sync::Arc;

/// A public state that transactions hold too. Contracts see the public state.
///
/// A change is made in place where nobody else holds it, and on a copy where somebody does, so that others see no change.
#[derive(Drop)]
pub struct SharedState {
    alloc: Global,
    inner: Arc<PublicState>,
}

impl Model for SharedState {
    ghost use Rattle.ifdb_catalog.specs.Public.{Public};

    ghost Value = { Public };

    ghost use Rattle.std.specs.Coded.{codes};
    ghost use Rattle.ifdb_bound.specs.contracts.condition.BoundCond as cond;
    ghost use Rattle.ifdb_bound.specs.contracts.expression.BoundExpr as expr;

    ghost coded = { Prim.hlevel (codes, cond.the_row.coded, expr.the_row.coded) };

    ghost view = { λ s. s.inner.value };
}

impl SharedState {
    /// The principal `admin` with the key `admin`, and nothing else.
    pub fn opening(alloc: Global) -> Result<SharedState, OutOfMemory>
        ensures { IfOk result (λ s. s ≡ first_public) }
    {
        Ok(SharedState {
            alloc,
            inner: Arc::new(alloc, PublicState::opening(alloc)?)?,
        })
    }

    /// The public state.
    pub fn get(&self) -> &PublicState
        ensures { result.now ≡ self.now }
    {
        &self.inner
    }

    /// One more owner: a count rises, and no memory is taken. `OutOfMemory` comes where the count is full.
    pub fn share(&self) -> Result<SharedState, OutOfMemory>
        ensures { IfOk result (λ s. s ≡ self.now) }
    {
        Ok(SharedState {
            alloc: self.alloc,
            inner: Arc::try_clone(&self.inner)?,
        })
    }

    /// Makes a change that is bound, of a new name. Others who hold the public state see none of it. The catalog's refusals are this one's,
    /// and `OutOfMemory`; an error changes nothing.
    pub fn apply(&mut self, change: Change) -> Result<(), Fault>
        requires fits { IsTrue (change_fits self.old change) }
        requires new { IsTrue (is_new self.old change) }
        requires narrow { IsTrue (is_narrow_change change) }
        ensures done { OnOk result (self.new ≡ changed self.old change) }
        ensures accepted { OnOk result (refusal self.old change ≡ None) }
        ensures refused { RefusedFor (refusal self.old change) result }
        ensures err { OnErr result (self.new ≡ self.old) }
    {
        if self.hold_alone().is_err() {
            drop(change);
            return Err(Fault::OutOfMemory);
        }
        match Arc::get_mut(&mut self.inner) {
            Some(public) => public.apply(change),
            None => {
                drop(change);
                Err(Fault::OutOfMemory)
            }
        }
    }

    /// Takes a copy where somebody else holds the public state too.
    fn hold_alone(&mut self) -> Result<(), OutOfMemory>
        ensures { self.new ≡ self.old }
    {
        if Arc::strong_count(&self.inner) > 1 {
            let copied = self.inner.copy()?;
            self.inner = Arc::new(self.alloc, copied)?;
        }
        Ok(())
    }
}
