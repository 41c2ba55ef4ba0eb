// SET LABEL and SHOW LABEL.
ghost use Rattle.std.specs.Prelude.{◌≡◌, ◌⊎◌, ◌++◌, Ok, IfOk, IfErr, IfSome, IsTrue, OnOk, length, option_copied, slice_index_or, string_bytes, []};
ghost use Rattle.ifdb_label.specs.Tags.{AreMade};
ghost use Rattle.ifdb_label.specs.Label.{strip};
ghost use Rattle.ifdb_bound.specs.Query.{label_names};
ghost use Rattle.ifdb_wire.specs.declared.fault.Fault.TheVariants.{OutOfMemory as NoMemory};
ghost use Rattle.ifdb_wire.specs.declared.reply.Reply.TheVariants.{Done, Label as ShowsLabel};
ghost use Rattle.ifdb_catalog.specs.Public.{has_tags, tag_names, tags_of};
ghost use Rattle.ifdb_catalog.specs.Fits.{bound_fits};
ghost use Rattle.ifdb_model.specs.Session.{Session};
ghost use Rattle.ifdb_model.specs.Step.{is_under, label_refusal, refuses, relabelled, set_label, tells};
ghost use Rattle.ifdb_snapshot.specs.Labels.{IsAt, with_label};

use crate::OutOfMemory;
use crate::snapshot::Snapshot;
use ifdb_bound::Bound;
use ifdb_catalog::Catalog;
use ifdb_label::{Label, Tag};
use ifdb_value::{Principal, Word};
use ifdb_wire::{Fault, Reply};
use std::alloc::Global;

impl<'a> Snapshot<'a> {
    /// The label that a bound SET LABEL gives a session at an old label, under its ceiling if it has one. Other requests give none.
    ///
    /// `OverClearance` where the label doesn't flow to the ceiling, which takes no memory; else `NoAuthority` where the principal doesn't
    /// hold each tag that is given up.
    pub fn new_label(
        &self,
        asker: Principal,
        ceiling: Option<&Label>,
        old: &Label,
        found: Bound,
    ) -> Result<Option<Label>, Fault>
        requires fits { IsTrue (bound_fits self.now.public found) }
        requires made { AreMade (length self.now.public.tags) old.now }
        ensures set { IfOk result (λ label. (s : Session) → IsAt (option_copied ceiling.entry) old.now s
            → set_label self.now.public asker s (Ok found) ≡ tells (with_label s label) Done) }
        ensures made { IfOk result (λ label. IfSome label (AreMade (length self.now.public.tags))) }
        ensures refused { IfErr result (λ fault. (fault ≡ NoMemory)
            ⊎ ((s : Session) → IsAt (option_copied ceiling.entry) old.now s
            → set_label self.now.public asker s (Ok found) ≡ refuses s fault)) }
    {
        match found {
            Bound::SetLabel { label } => self.label_allowed(asker, ceiling, old, label),
            _ => Ok(None),
        }
    }

    /// The label, unless it is refused.
    #[tactic(auto, using(crate::proofs::Labels::label_set, crate::proofs::Labels::label_refused))]
    fn label_allowed(
        &self,
        asker: Principal,
        ceiling: Option<&Label>,
        old: &Label,
        label: Label,
    ) -> Result<Option<Label>, Fault>
        requires new_made { AreMade (length self.now.public.tags) label }
        requires made { AreMade (length self.now.public.tags) old.now }
        ensures set { IfOk result (λ new. (s : Session) → IsAt (option_copied ceiling.entry) old.now s
            → relabelled self.now.public asker s label ≡ tells (with_label s new) Done) }
        ensures made { IfOk result (λ new. IfSome new (AreMade (length self.now.public.tags))) }
        ensures refused { IfErr result (λ fault. (fault ≡ NoMemory)
            ⊎ ((s : Session) → IsAt (option_copied ceiling.entry) old.now s
            → relabelled self.now.public asker s label ≡ refuses s fault)) }
    {
        match self.label_refusal(asker, ceiling, old, &label)? {
            Some(fault) => Err(fault),
            None => Ok(Some(label)),
        }
    }

    /// Why a session at an old label doesn't get a label, if it doesn't: the label doesn't flow to its ceiling, or the principal doesn't
    /// hold each tag that is given up.
    #[tactic(auto, using(crate::proofs::Labels::over_ceiling, crate::proofs::Labels::label_unheld, crate::proofs::Labels::label_free))]
    fn label_refusal(
        &self,
        asker: Principal,
        ceiling: Option<&Label>,
        old: &Label,
        label: &Label,
    ) -> Result<Option<Fault>, OutOfMemory>
        requires new_made { AreMade (length self.now.public.tags) label.now }
        requires made { AreMade (length self.now.public.tags) old.now }
        ensures { IfOk result (λ refusal. (s : Session) → IsAt (option_copied ceiling.entry) old.now s
            → label_refusal self.now.public asker s label.now ≡ refusal) }
    {
        if !self.is_under(ceiling, label) {
            return Ok(Some(Fault::OverClearance));
        }
        if !self.may_give_up(asker, old, label)? {
            return Ok(Some(Fault::NoAuthority));
        }
        Ok(None)
    }

    /// Whether a label flows to a ceiling, if there is one. Takes no memory.
    fn is_under(&self, ceiling: Option<&Label>, label: &Label) -> bool
        ensures { result ≡ is_under (tags_of self.now.public) (option_copied ceiling.entry) label.now }
    {
        match ceiling {
            Some(ceiling) => label.flows(self.public.catalog().tags(), ceiling),
            None => true,
        }
    }

    /// Whether a principal holds each tag of a label that doesn't flow to another label.
    fn may_give_up(&self, asker: Principal, old: &Label, new: &Label) -> Result<bool, OutOfMemory>
        requires old_made { AreMade (length self.now.public.tags) old.now }
        requires new_made { AreMade (length self.now.public.tags) new.now }
        ensures { IfOk result (λ held. held
            ≡ has_tags self.now.public asker (strip (tags_of self.now.public) old.now new.now)) }
    {
        let catalog = self.public.catalog();
        let given_up = old.strip(self.alloc, catalog.tags(), new)?;
        catalog.has_tags(asker, given_up.tags())
    }

    /// The reply to SHOW LABEL: the names of the tags of a label.
    pub fn label_shown(&self, label: &Label) -> Result<Reply, OutOfMemory>
        ensures { IfOk result
            (λ reply. reply ≡ ShowsLabel (label_names (tag_names self.now.public) label.now)) }
    {
        let names = label_names(self.alloc, self.public.catalog(), label.tags())?;
        Ok(Reply::Label(names))
    }
}

/// The names of tags, joined by commas.
fn label_names(alloc: Global, catalog: &Catalog, tags: &[Tag]) -> Result<Word, OutOfMemory>
    ensures { IfOk result (λ names. names ≡ label_names (tag_names catalog.now) tags.now) }
{
    let mut text = String::new(alloc);
    add_names(&mut text, catalog, tags)?;
    Word::of(alloc, text.as_str())
}

/// Adds the names of tags, joined by commas.
#[tactic(auto, using(crate::proofs::Naming::first_and_others))]
fn add_names(text: &mut String, catalog: &Catalog, tags: &[Tag]) -> Result<(), OutOfMemory>
    ensures { OnOk result (string_bytes text.new
        ≡ string_bytes text.old ++ label_names (tag_names catalog.now) tags.now) }
{
    match tags {
        [] => Ok(()),
        [tag] => text.push_str(name_of(catalog, *tag)),
        [tag, rest @ ..] => {
            text.push_str(name_of(catalog, *tag))?;
            text.push_str(",")?;
            add_names(text, catalog, rest)
        }
    }
}

/// The name of a tag; no text where the tag isn't made.
#[tactic(auto, using(crate::proofs::Naming::none_named))]
fn name_of(catalog: &Catalog, tag: Tag) -> &str
    ensures { result.now ≡ slice_index_or (tag_names catalog.now) tag [] }
{
    match catalog.tag_name(tag) {
        Some(name) => name.as_str(),
        None => "",
    }
}
