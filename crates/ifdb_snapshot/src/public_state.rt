// The public state.
ghost use Rattle.std.specs.Prelude.{◌≡◌, None, Some, IfOk, IsTrue, OnErr, OnOk, length};
ghost use Rattle.ifdb_wire.specs.Refused.{RefusedFor};
ghost use Rattle.ifdb_catalog.specs.Public.{changed, opening as first_public, refusal, tag_names};
ghost use Rattle.ifdb_catalog.specs.Fits.{change_fits, is_new};
ghost use Rattle.ifdb_view.specs.Made.{are_views_made};
ghost use Rattle.ifdb_snapshot.specs.Narrow.{is_narrow_change};
ghost use Rattle.ifdb_snapshot.specs.PublicState.{new_tag};

use crate::OutOfMemory;
use ifdb_bound::Change;
use ifdb_catalog::Catalog;
use ifdb_value::Name;
use ifdb_wire::Fault;
use std::alloc::Global;
use std::marker::Model;

/// The public state: principals, tags, grants, tables and views, each of which all sessions see. Contracts see the definition's.
///
/// The names of the tags stand once more in the order of the tags, since a SELECT reads them by their numbers.
#[derive(Drop)]
pub struct PublicState {
    alloc: Global,
    catalog: Catalog,
    names: Vec<Name>,
}

impl Model for PublicState {
    ghost use Rattle.ifdb_catalog.specs.Public.{Public};
    ghost use Rattle.ifdb_snapshot.specs.PublicState.{IsListed};

    ghost Value = { Public };

    ghost use Rattle.std.specs.Coded.{codes};
    ghost use Rattle.ifdb_bound.specs.contracts.condition.BoundCond as cond;
    ghost use Rattle.ifdb_bound.specs.contracts.expression.BoundExpr as expr;

    ghost coded = { Prim.hlevel (codes, cond.the_row.coded, expr.the_row.coded) };

    ghost view = { λ s. s.catalog };

    ghost invariant = { λ s. IsListed s.catalog s.names.items };
}

impl PublicState {
    /// The principal `admin` with the key `admin`, and nothing else. Changes take their memory from `alloc` too.
    pub fn opening(alloc: Global) -> Result<PublicState, OutOfMemory>
        ensures { IfOk result (λ s. s ≡ first_public) }
    {
        Ok(PublicState {
            alloc,
            catalog: Catalog::opening(alloc)?,
            names: Vec::new(alloc),
        })
    }

    /// The principals, tags, grants, tables and views.
    pub fn catalog(&self) -> &Catalog
        ensures { result.now ≡ self.now }
    {
        &self.catalog
    }

    /// The names of the tags, by the numbers of the tags. Each view can be computed: this is said here too.
    pub fn names(&self) -> &[Name]
        ensures names { result.now ≡ tag_names self.now }
        ensures views_made { IsTrue (are_views_made (length self.now.tags) self.now.views) }
    {
        self.names.as_slice()
    }

    /// A copy, which takes memory for all that it holds.
    pub fn copy(&self) -> Result<PublicState, OutOfMemory>
        ensures { IfOk result (λ s. s ≡ self.now) }
    {
        let catalog = self.catalog.copy()?;
        let names = copy_names(self.alloc, &self.names)?;
        Ok(PublicState {
            alloc: self.alloc,
            catalog,
            names,
        })
    }

    /// Makes a change that is bound, of a new name. The catalog's refusals are this one's, and `OutOfMemory`; an error changes nothing.
    pub fn apply(&mut self, change: Change) -> Result<(), Fault>
        requires fits { IsTrue (change_fits self.old change) }
        requires new { IsTrue (is_new self.old change) }
        requires narrow { IsTrue (is_narrow_change change) }
        ensures done { OnOk result (self.new ≡ changed self.old change) }
        ensures accepted { OnOk result (refusal self.old change ≡ None) }
        ensures refused { RefusedFor (refusal self.old change) result }
        ensures err { OnErr result (self.new ≡ self.old) }
    {
        let Ok(name) = new_tag(self.alloc, &change) else {
            drop(change);
            return Err(Fault::OutOfMemory);
        };
        if self.names.reserve(1).is_err() {
            drop(change);
            return Err(Fault::OutOfMemory);
        }
        self.catalog.apply(change)?;
        if let Some(name) = name {
            self.names.push_reserved(name);
        }
        Ok(())
    }
}

/// A copy of the name of the tag that a change makes, if it makes one.
fn new_tag(alloc: Global, change: &Change) -> Result<Option<Name>, OutOfMemory>
    ensures { IfOk result (λ name. name ≡ new_tag change.now) }
{
    match change {
        Change::Tag { name, .. } => Ok(Some(name.share()?)),
        _ => Ok(None),
    }
}

/// A copy of some names.
fn copy_names(alloc: Global, names: &[Name]) -> Result<Vec<Name>, OutOfMemory>
    ensures { IfOk result (λ copied. copied.items ≡ names.now) }
{
    let mut copied = Vec::with_capacity(alloc, names.len())?;
    for name in names {
        copied.push(name.share()?)?;
    }
    Ok(copied)
}
