// Who granted which tag to whom, found by the tag and the receiver.
ghost use Rattle.std.specs.Prelude.{◌≡◌, [], OnOk, OnErr};
ghost use Rattle.ifdb_authority.specs.Grantors.{grantors_of, IsGrantedMore, IsGrantedLess, IsIndexOf, IsSameIndex};

use crate::holding::Holding;
use crate::{Grant, OutOfMemory};
use ifdb_value::Principal;
use std::alloc::Global;
use std::collections::HashMap;

/// The grantors of each tag to each principal.
#[derive(Drop)]
pub(crate) struct Grantors {
    alloc: Global,
    lists: HashMap<Holding, Vec<Principal>>,
}

impl Grantors {
    /// No grantors. Takes no memory.
    pub(crate) fn new(alloc: Global) -> Self
        ensures { IsIndexOf result [] }
    {
        Grantors {
            alloc,
            lists: HashMap::new(alloc),
        }
    }

    /// Those who granted the tag to the principal.
    pub(crate) fn of(&self, to: &Holding) -> &[Principal]
        ensures { result.now ≡ grantors_of self.now to.now }
    {
        match self.lists.get(to) {
            Some(grantors) => grantors,
            None => &[],
        }
    }

    /// One grantor more. After an error all is as before.
    pub(crate) fn add(&mut self, to: Holding, from: Principal) -> Result<(), OutOfMemory>
        ensures ok { OnOk result (IsGrantedMore self.old self.new to from) }
        ensures err { OnErr result (IsSameIndex self.old self.new) }
    {
        match self.lists.get_mut(&to) {
            Some(grantors) => grantors.push(from)?,
            None => {
                let mut grantors = Vec::new(self.alloc);
                grantors.push(from)?;
                self.lists.insert(to, grantors)?;
            }
        }
        Ok(())
    }

    /// One grantor less. Takes no memory, and gives back what a list without grantors had.
    pub(crate) fn remove(&mut self, to: &Holding, from: Principal)
        ensures { IsGrantedLess self.old self.new to.now from }
    {
        self.strike(to, from);
        self.forget_if_none(to);
    }

    /// Strikes a grantor from the list.
    fn strike(&mut self, to: &Holding, from: Principal)
        ensures { IsGrantedLess self.old self.new to.now from }
    {
        if let Some(grantors) = self.lists.get_mut(to) {
            grantors.retain(|grantor| *grantor != from);
        }
    }

    /// Drops the list, if there are no grantors in it.
    fn forget_if_none(&mut self, to: &Holding)
        ensures { IsSameIndex self.old self.new }
    {
        if self.of(to).is_empty() {
            self.lists.remove(to);
        }
    }
}
