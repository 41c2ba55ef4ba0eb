// Changes of the public state.
ghost use Rattle.std.specs.Prelude.{◌≡◌, ◌↔◌, Some, None, Err, OnOk, OnErr, IfOk, IfErr, IsTrue, length};
ghost use Rattle.ifdb_label.specs.Tags.{AreMade};
ghost use Rattle.ifdb_bound.specs.declared.request.Change.TheVariants as change;
ghost use Rattle.ifdb_wire.specs.declared.fault.Fault.TheVariants.{NotGranted};
ghost use Rattle.ifdb_wire.specs.Refused.{RefusedFor};
ghost use Rattle.ifdb_catalog.specs.Public.{changed, has_tags, refusal};
ghost use Rattle.ifdb_catalog.specs.Fits.{change_fits, is_new};

use super::{Catalog, Credentials};
use crate::OutOfMemory;
use ifdb_authority::GrantFault;
use ifdb_bound::{Change, Schema, ViewDef};
use ifdb_label::{Label, Tag, TagKind};
use ifdb_value::{Name, Principal, Word};
use ifdb_wire::Fault;

impl Catalog {
    /// Makes a change that was bound against this state: its numbers stand for something here, and a new name for nothing yet.
    ///
    /// `NoAuthority` only where a GRANT or a view needs a tag that its principal doesn't hold; `NotGranted` exactly where the grant
    /// that a REVOKE takes away doesn't stand; `OutOfMemory` where an allocation is refused. Whatever the error, all is as before.
    pub fn apply(&mut self, change: Change) -> Result<(), Fault>
        requires fits { IsTrue (change_fits self.old change) }
        requires new { IsTrue (is_new self.old change) }
        ensures done { OnOk result (self.new ≡ changed self.old change) }
        ensures accepted { OnOk result (refusal self.old change ≡ None) }
        ensures refused { RefusedFor (refusal self.old change) result }
        ensures not_granted { (result ≡ Err NotGranted)
            ↔ (refusal self.old change ≡ Some NotGranted) }
        ensures err { OnErr result (self.new ≡ self.old) }
    {
        match change {
            Change::Principal {
                asker,
                name,
                key,
                clearance,
            } => Ok(self.add_principal(asker, name, key, clearance)?),
            Change::Tag {
                asker,
                name,
                kind,
                parents,
            } => Ok(self.add_tag(asker, name, kind, parents.into_vec())?),
            Change::Table { asker, schema } => Ok(self.add_table(asker, schema)?),
            Change::View { view } => self.add_view(view),
            Change::Grant { asker, tag, to } => self.grant(asker, tag, to),
            Change::Revoke { asker, tag, from } => self.revoke(asker, tag, from),
        }
    }

    /// The next principal.
    fn add_principal(
        &mut self,
        _asker: Principal,
        name: Name,
        key: Word,
        clearance: Option<Label>,
    ) -> Result<(), OutOfMemory>
        requires { IsTrue (is_new self.old (change.Principal _asker name key clearance)) }
        ensures done { OnOk result
            (self.new ≡ changed self.old (change.Principal _asker name key clearance)) }
        ensures err { OnErr result (self.new ≡ self.old) }
    {
        let credentials = Credentials { key, clearance };
        self.principals.insert(name, credentials)?;
        Ok(())
    }

    /// The next tag. The room for its name is taken first, and the owner taken back where the tag isn't made.
    fn add_tag(
        &mut self,
        asker: Principal,
        name: Name,
        kind: TagKind,
        parents: Vec<Tag>,
    ) -> Result<(), OutOfMemory>
        requires fits { IsTrue (change_fits self.old (change.Tag asker name kind parents.items)) }
        requires new { IsTrue (is_new self.old (change.Tag asker name kind parents.items)) }
        ensures done { OnOk result
            (self.new ≡ changed self.old (change.Tag asker name kind parents.items)) }
        ensures err { OnErr result (self.new ≡ self.old) }
    {
        self.tag_names.reserve(1)?;
        self.authority.made(asker)?;
        if self.tags.add(kind, &parents).is_err() {
            self.authority.unmade();
            return Err(OutOfMemory);
        }
        self.tag_names.insert(name).unwrap();
        Ok(())
    }

    /// The next table.
    fn add_table(&mut self, _asker: Principal, schema: Schema) -> Result<(), OutOfMemory>
        requires fits { IsTrue (change_fits self.old (change.Table _asker schema)) }
        requires new { IsTrue (is_new self.old (change.Table _asker schema)) }
        ensures done { OnOk result (self.new ≡ changed self.old (change.Table _asker schema)) }
        ensures err { OnErr result (self.new ≡ self.old) }
    {
        let name = schema.name.share()?;
        self.tables.insert(name, schema)?;
        Ok(())
    }

    /// The next view, if its owner holds the tags that its rows no longer bear.
    fn add_view(&mut self, view: ViewDef) -> Result<(), Fault>
        requires fits { IsTrue (change_fits self.old (change.View view)) }
        requires new { IsTrue (is_new self.old (change.View view)) }
        ensures done { OnOk result (self.new ≡ changed self.old (change.View view)) }
        ensures accepted { OnOk result (refusal self.old (change.View view) ≡ None) }
        ensures refused { RefusedFor (refusal self.old (change.View view)) result }
        ensures err { OnErr result (self.new ≡ self.old) }
    {
        if !self.has_tags(view.owner, view.declassifying.tags())? {
            return Err(Fault::NoAuthority);
        }
        self.keep_view(view)?;
        Ok(())
    }

    /// Whether a principal holds each tag of a list. Costs what `Authority::holds` does for each.
    pub fn has_tags(&self, principal: Principal, list: &[Tag]) -> Result<bool, OutOfMemory>
        requires { AreMade (length self.now.tags) list.now }
        ensures { IfOk result (λ held. held ≡ has_tags self.now principal list.now) }
    {
        self.authority.holds_all(&self.tags, principal, list)
    }

    /// The next view.
    fn keep_view(&mut self, view: ViewDef) -> Result<(), OutOfMemory>
        requires fits { IsTrue (change_fits self.old (change.View view)) }
        requires new { IsTrue (is_new self.old (change.View view)) }
        ensures done { OnOk result (self.new ≡ changed self.old (change.View view)) }
        ensures err { OnErr result (self.new ≡ self.old) }
    {
        let name = view.name.share()?;
        self.views.insert(name, view)?;
        Ok(())
    }

    /// A grant more, unless it stands.
    fn grant(&mut self, asker: Principal, tag: Tag, to: Principal) -> Result<(), Fault>
        requires { IsTrue (change_fits self.old (change.Grant asker tag to)) }
        ensures done { OnOk result (self.new ≡ changed self.old (change.Grant asker tag to)) }
        ensures accepted { OnOk result (refusal self.old (change.Grant asker tag to) ≡ None) }
        ensures refused { RefusedFor (refusal self.old (change.Grant asker tag to)) result }
        ensures err { OnErr result (self.new ≡ self.old) }
    {
        match self.authority.grant(&self.tags, asker, tag, to) {
            Ok(()) => Ok(()),
            Err(GrantFault::NoAuthority) => Err(Fault::NoAuthority),
            Err(GrantFault::OutOfMemory) => Err(Fault::OutOfMemory),
        }
    }

    /// A grant less. Takes no memory, so each error is the change's own refusal.
    fn revoke(&mut self, asker: Principal, tag: Tag, from: Principal) -> Result<(), Fault>
        ensures done { OnOk result (self.new ≡ changed self.old (change.Revoke asker tag from)) }
        ensures accepted { OnOk result (refusal self.old (change.Revoke asker tag from) ≡ None) }
        ensures refused { IfErr result
            (λ fault. refusal self.old (change.Revoke asker tag from) ≡ Some fault) }
        ensures err { OnErr result (self.new ≡ self.old) }
    {
        match self.authority.revoke(asker, tag, from) {
            Ok(()) => Ok(()),
            Err(_) => Err(Fault::NotGranted),
        }
    }
}
