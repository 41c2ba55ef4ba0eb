// Who made each tag, and the grants that stand.
ghost use Rattle.std.specs.Prelude.{◌≡◌, ◌↔◌, ◌<◌, ℕ, Ok, Err, IfOk, OnOk, OnErr, IsErr, IsTrue, true, false, length};
ghost use Rattle.ifdb_label.specs.Tags.{AreMade};
ghost use Rattle.ifdb_authority.specs.Authority.{Delegation, granted, holds, holds_all, is_owner, no_authority, owned, revoked, stands, grant};
ghost use Rattle.ifdb_authority.specs.Search.{IsExtended, is_grantor};

use crate::grantors::Grantors;
use crate::holding::Holding;
use crate::search::{add, is_held};
use crate::{Grant, GrantFault, NotGranted, OutOfMemory};
use ifdb_label::{Tag, Tags};
use ifdb_value::Principal;
use indexmap::IndexSet;
use std::alloc::Global;
use std::marker::Model;

/// The owner of each tag, by the tag's number, and the grants that stand, each of them once.
///
/// Contracts see both lists.
#[derive(Drop)]
pub struct Authority {
    alloc: Global,
    owners: Vec<Principal>,
    grants: IndexSet<Grant>,
    grantors: Grantors,
}

impl Model for Authority {
    ghost use Rattle.std.specs.Prelude.{IsTrue};
    ghost use Rattle.ifdb_authority.specs.Authority.{Delegation};
    ghost use Rattle.ifdb_authority.specs.Grantors.{IsIndexed};

    ghost Value = { Delegation };

    ghost view = { λ a. record { owners = a.owners.items; grants = a.grants.keys } };

    ghost invariant = { λ a. IsIndexed a.grantors a.grants.keys };
}

impl Authority {
    ghost use Rattle.ifdb_authority.specs.declared.grant.GrantFault.TheVariants.{NoAuthority};

    /// No tags and no grants. Takes no memory: the other calls take it from `alloc`.
    pub fn new(alloc: Global) -> Self
        ensures { result ≡ no_authority }
    {
        Authority {
            alloc,
            owners: Vec::new(alloc),
            grants: IndexSet::new(alloc),
            grantors: Grantors::new(alloc),
        }
    }

    /// Enters the owner of the next tag. After an error all is as before.
    pub fn made(&mut self, owner: Principal) -> Result<(), OutOfMemory>
        ensures ok { OnOk result (self.new ≡ owned self.old owner) }
        ensures err { OnErr result (self.new ≡ self.old) }
    {
        self.owners.push(owner)?;
        Ok(())
    }

    /// Takes the last `made` back, where the tag was not made after all. Takes no memory.
    pub fn unmade(&mut self)
        ensures { (before : Delegation) (owner : ℕ) → self.old ≡ owned before owner
            → self.new ≡ before }
    {
        self.owners.pop();
    }

    /// The same owners and grants.
    pub fn copy(&self) -> Result<Self, OutOfMemory>
        ensures { IfOk result (λ copy. copy ≡ self.now) }
    {
        let mut copy = Authority {
            alloc: self.alloc,
            owners: Vec::from_slice(self.alloc, &self.owners)?,
            grants: IndexSet::new(self.alloc),
            grantors: Grantors::new(self.alloc),
        };
        for grant in self.grants.as_slice() {
            copy.add_grant(*grant)?;
        }
        Ok(copy)
    }

    /// Whether a principal holds a tag: it made it, was granted it by one who holds it, or holds a compound that the tag is in.
    ///
    /// Takes no memory where the principal made the tag. Else in time the grants of the tag that lead back from the principal
    /// to one who made it; where none does, and the tag is in compounds, also the grants of these.
    pub fn holds(&self, tags: &Tags, p: Principal, tag: Tag) -> Result<bool, OutOfMemory>
        requires { tag < length tags.now }
        ensures value { IfOk result (λ held. held ≡ holds tags.now self.now p tag) }
        ensures owner { IsTrue (is_owner self.now p tag) → result ≡ Ok true }
    {
        // The tag is made. `count` also says that each tag's parents are older than it.
        let made = tag.0 < tags.count();
        prove!(made);
        if self.is_owner(p, tag) {
            return Ok(true);
        }
        if is_held(self, tags, p, tag, &[])? {
            return Ok(true);
        }
        let above = tags.ancestors(tag);
        if above.is_empty() {
            return Ok(false);
        }
        is_held(self, tags, p, tag, above)
    }

    /// Whether a principal holds each tag of a list. Costs what `holds` does for each.
    pub fn holds_all(&self, tags: &Tags, p: Principal, list: &[Tag]) -> Result<bool, OutOfMemory>
        requires { AreMade (length tags.now) list.now }
        ensures { IfOk result (λ held. held ≡ holds_all tags.now self.now p list.now) }
    {
        for tag in list {
            if !self.holds(tags, p, *tag)? {
                return Ok(false);
            }
        }
        Ok(true)
    }

    /// Grants a tag to a principal. A second equal grant changes nothing.
    ///
    /// `NoAuthority` only where the grantor doesn't hold the tag; `OutOfMemory` where an allocation is refused, which may
    /// be before that is known. Whatever the error, all is as before. Costs what `holds` does, and then no more for many grants than for few.
    pub fn grant(
        &mut self,
        tags: &Tags,
        from: Principal,
        tag: Tag,
        to: Principal,
    ) -> Result<(), GrantFault>
        requires { tag < length tags.now }
        ensures granted { OnOk result (self.new ≡ granted self.old (grant from tag to)) }
        ensures held { OnOk result (IsTrue (holds tags.now self.old from tag)) }

        // Each refusal, and want of memory apart from these.
        ensures refused { result ≡ Err NoAuthority → holds tags.now self.old from tag ≡ false }
        ensures err { OnErr result (self.new ≡ self.old) }
    {
        if !self.holds(tags, from, tag)? {
            return Err(GrantFault::NoAuthority);
        }
        self.add_grant(Grant { from, tag, to })?;
        Ok(())
    }

    /// Takes a principal's own grant away, and what rests on it counts no more. Takes no memory.
    ///
    /// `NotGranted` exactly where that grant doesn't stand.
    pub fn revoke(&mut self, from: Principal, tag: Tag, to: Principal) -> Result<(), NotGranted>
        ensures revoked { OnOk result (self.new ≡ revoked self.old (grant from tag to)) }
        ensures refused { IsErr result ↔ (stands self.old (grant from tag to) ≡ false) }
        ensures err { OnErr result (self.new ≡ self.old) }
    {
        if !self.grants.shift_remove(&Grant { from, tag, to }) {
            return Err(NotGranted);
        }
        self.grantors.remove(&Holding { holder: to, tag }, from);
        Ok(())
    }

    /// What the authority takes its memory from.
    pub(crate) fn alloc(&self) -> Global {
        self.alloc
    }

    /// Whether a principal made a tag.
    pub(crate) fn is_owner(&self, p: Principal, tag: Tag) -> bool
        ensures { result ≡ is_owner self.now p tag }
    {
        match self.owners.get(tag.0 as usize) {
            Some(owner) => *owner == p,
            None => false,
        }
    }

    /// Adds a grant, unless it stands. After an error all is as before.
    pub(crate) fn add_grant(&mut self, grant: Grant) -> Result<(), OutOfMemory>
        ensures ok { OnOk result (self.new ≡ granted self.old grant) }
        ensures err { OnErr result (self.new ≡ self.old) }
    {
        if !self.grants.insert(grant)? {
            return Ok(());
        }
        let to = Holding {
            holder: grant.to,
            tag: grant.tag,
        };
        if let Err(refused) = self.grantors.add(to, grant.from) {
            self.grants.pop();
            return Err(refused);
        }
        Ok(())
    }

    /// Adds to a list of holdings each from which a grant stands to another holding.
    pub(crate) fn add_grantors(
        &self,
        found: &mut IndexSet<Holding>,
        to: &Holding,
    ) -> Result<(), OutOfMemory>
        ensures { IfOk result
            (λ _. IsExtended found.old.keys found.new.keys (is_grantor self.now to.now)) }
    {
        for from in self.grantors.of(to) {
            add(
                found,
                Holding {
                    holder: *from,
                    tag: to.tag,
                },
            )?;
        }
        Ok(())
    }
}
