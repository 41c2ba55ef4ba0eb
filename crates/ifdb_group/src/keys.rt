// Keys of groups, each with its place.
ghost use Rattle.std.specs.Prelude.{◌≡◌, ◌++◌, ◌∷◌, [], false, map, OnErr, OnOk};
ghost use Rattle.std.specs.List.{list_any, position};
ghost use Rattle.ifdb_bound.specs.Query.{same_values};
ghost use Rattle.ifdb_expr.specs.ByReference.{owned};
ghost use Rattle.ifdb_group.specs.Owned.{all_owned};

use crate::OutOfMemory;
use ifdb_expr::ValueRef;
use indexmap::IndexSet;
use std::alloc::Global;
use std::marker::Model;

/// Different lists of values, in the order in which they were entered. Contracts see the lists.
#[derive(Drop)]
pub(crate) struct Keys<'a> {
    set: IndexSet<Vec<ValueRef<'a>>>,
}

impl<'a> Model for Keys<'a> {
    ghost use Rattle.std.specs.Prelude.{map};
    ghost use Rattle.ifdb_group.specs.Owned.{Lists, all_owned};

    ghost Value = { Lists };

    ghost view = { λ k. map all_owned k.set.keys };
}

impl<'a> Keys<'a> {
    /// No list. Takes no memory.
    pub(crate) fn new(alloc: Global) -> Self
        ensures { result ≡ [] }
    {
        Keys {
            set: IndexSet::new(alloc),
        }
    }

    /// The place of a list, or `None` exactly where it isn't there. Takes no memory; found by its hash.
    pub(crate) fn find(&self, key: &[ValueRef<'a>]) -> Option<usize>
        ensures { result ≡ position (λ k. same_values k (map owned key.now)) self.now }
    {
        self.set.get_index_of(key)
    }

    /// Puts a list that isn't there at the end. Where memory is refused, the lists are as before.
    pub(crate) fn push(&mut self, key: Vec<ValueRef<'a>>) -> Result<(), OutOfMemory>
        requires { list_any (λ k. same_values k (all_owned key)) self.old ≡ false }
        ensures ok { OnOk result (self.new ≡ self.old ++ all_owned key.entry ∷ []) }
        ensures err { OnErr result (self.new ≡ self.old) }
    {
        self.set.insert_full(key)?;
        Ok(())
    }
}
