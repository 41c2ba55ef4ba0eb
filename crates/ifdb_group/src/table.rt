// Groups by their keys.
ghost use Rattle.std.specs.Prelude.{◌≡◌, ◌≤◌, ◌++◌, ◌∷◌, [], false, List, length, map, vec_len, OnOk};
ghost use Rattle.std.specs.List.{list_any};
ghost use Rattle.ifdb_bound.specs.Query.{Group, group_key, same_values, with_member};
ghost use Rattle.ifdb_bound.specs.declared.expression.BoundColumn.{BoundColumn};
ghost use Rattle.ifdb_expr.specs.ByReference.{owned};
ghost use Rattle.ifdb_group.specs.Tallies.{totals_of};

use crate::OutOfMemory;
use crate::keys::Keys;
use crate::total::Total;
use ifdb_bound::BoundItem;
use ifdb_expr::{Frame, ValueRef};
use std::alloc::Global;

/// A total for each key, in the order in which the keys came.
#[derive(Drop)]
pub(crate) struct Table<'a> {
    pub(crate) keys: Keys<'a>,
    pub(crate) totals: Vec<Total<'a>>,
    ghost paired: { length keys ≤ vec_len totals },
}

impl<'a> Table<'a> {
    ghost use Rattle.ifdb_group.specs.Standing.{Stands};

    /// No key. Takes no memory.
    pub(crate) fn new(alloc: Global) -> Self
        ensures keys { result.keys ≡ [] }
        ensures totals { result.totals.items ≡ [] }
    {
        Table {
            keys: Keys::new(alloc),
            totals: Vec::new(alloc),
        }
    }

    /// Adds a combination to the total of its key, or to a new one at the end.
    pub(crate) fn add(
        &mut self,
        alloc: Global,
        items: &'a [BoundItem],
        key: &[ValueRef<'a>],
        frame: &Frame<'a>,
    ) -> Result<(), OutOfMemory>
        ensures { OnOk result
            ((columns : List BoundColumn) → map owned key.now ≡ group_key columns frame.now
            → (groups : List Group) → Stands items.now self.old groups
            → Stands items.now self.new (with_member columns groups frame.now)) }
    {
        match self.keys.find(key) {
            Some(place) => self.totals[place].add(frame)?,
            None => self.add_key(alloc, items, key, frame)?,
        }
        Ok(())
    }

    /// Puts a key that isn't there at the end, with the total of one combination.
    fn add_key(
        &mut self,
        alloc: Global,
        items: &'a [BoundItem],
        key: &[ValueRef<'a>],
        frame: &Frame<'a>,
    ) -> Result<(), OutOfMemory>
        requires { list_any (λ k. same_values k (map owned key.now)) self.old.keys ≡ false }
        ensures { OnOk result ((self.new.keys ≡ self.old.keys ++ map owned key.now ∷ [])
            × (self.new.totals.items
            ≡ self.old.totals.items ++ totals_of items.now (frame.now ∷ []) ∷ [])) }
    {
        let mut total = Total::new(alloc, items)?;
        total.add(frame)?;
        let key = Vec::from_slice(alloc, key)?;
        self.totals.push(total)?;
        self.keys.push(key)?;
        Ok(())
    }
}
