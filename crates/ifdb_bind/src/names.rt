// Binding of CREATE PRINCIPAL, CREATE TAG, GRANT, REVOKE and SET LABEL.
ghost use Rattle.std.specs.Prelude.{◌≡◌, Ok, true, IfOk};
ghost use Rattle.std.specs.Option.{ok_or};
ghost use Rattle.ifdb_label.specs.Tags.{are_compound};
ghost use Rattle.ifdb_wire.specs.declared.fault.Fault.TheVariants.{UnknownName};
ghost use Rattle.ifdb_wire.specs.Refused.{RefusedAs};
ghost use Rattle.ifdb_catalog.specs.Public.{principal_named, tag_named};
ghost use Rattle.ifdb_catalog.specs.Definitions.{tag_kind};
ghost use Rattle.ifdb_catalog.specs.Statements.{are_tags, clearance_named, is_clearance, label_named, tags_named};
ghost use Rattle.ifdb_select.specs.Lacks.{RefusedUnless};
ghost use Rattle.ifdb_catalog.specs.Binding.{create_principal, create_tag, grant, revoke, set_label};

use ifdb_bound::{Bound, Change, TagList};
use ifdb_catalog::Catalog;
use ifdb_label::{Label, Tag, TagKind, Tags};
use ifdb_value::{Name, Names, Principal, Word};
use ifdb_wire::Fault;
use std::alloc::Global;

/// A principal that is to be made.
#[derive(Drop)]
pub(crate) struct NewPrincipal {
    /// Its name.
    pub(crate) name: Name,
    /// The text that HELLO proves it by.
    pub(crate) key: Word,
    /// The tags of its clearance, if it has one.
    pub(crate) clearance: Option<Names>,
}

/// A tag that is to be made.
#[derive(Drop)]
pub(crate) struct NewTag {
    /// Its name.
    pub(crate) name: Name,
    /// Whether other tags may be made in it.
    pub(crate) compound: bool,
    /// The compound tags that it is made in.
    pub(crate) parents: Names,
}

/// CREATE PRINCIPAL.
#[tactic(auto, unfolding(ifdb_catalog::specs::Check::judged))]
pub(crate) fn create_principal(
    alloc: Global,
    catalog: &Catalog,
    asker: Principal,
    principal: NewPrincipal,
) -> Result<Bound, Fault>
    ensures bound { IfOk result (λ b. create_principal catalog.now asker
        principal.name principal.key principal.clearance ≡ Ok b) }
    ensures refused { RefusedAs (create_principal catalog.now asker
        principal.name principal.key principal.clearance) result }
{
    let NewPrincipal {
        name,
        key,
        clearance,
    } = principal;
    if catalog.principal(&name).is_some() {
        return Err(Fault::Taken);
    }
    let clearance = clearance_named(alloc, catalog, &clearance)?;
    Ok(Bound::Change(Change::Principal {
        asker,
        name,
        key,
        clearance,
    }))
}

/// CREATE TAG and CREATE COMPOUND TAG.
#[tactic(auto, unfolding(ifdb_catalog::specs::Check::judged))]
pub(crate) fn create_tag(
    alloc: Global,
    catalog: &Catalog,
    asker: Principal,
    tag: NewTag,
) -> Result<Bound, Fault>
    ensures bound { IfOk result
        (λ b. create_tag catalog.now asker tag.name tag.compound tag.parents ≡ Ok b) }
    ensures refused { RefusedAs
        (create_tag catalog.now asker tag.name tag.compound tag.parents) result }
{
    let NewTag {
        name,
        compound,
        parents,
    } = tag;
    if catalog.tag(&name).is_some() {
        return Err(Fault::Taken);
    }
    let parents = tags_named(alloc, catalog, parents.items())?;
    if !are_compound(catalog.tags(), parents.items()) {
        return Err(Fault::NotCompound);
    }
    Ok(Bound::Change(Change::Tag {
        asker,
        name,
        kind: tag_kind(compound),
        parents,
    }))
}

/// GRANT.
#[tactic(auto, unfolding(ifdb_catalog::specs::Check::judged))]
pub(crate) fn grant(
    catalog: &Catalog,
    asker: Principal,
    tag: &Name,
    to: &Name,
) -> Result<Bound, Fault>
    ensures { result ≡ grant catalog.now asker tag.now to.now }
{
    let tag = tag_named(catalog, tag)?;
    let to = principal_named(catalog, to)?;
    Ok(Bound::Change(Change::Grant { asker, tag, to }))
}

/// REVOKE.
#[tactic(auto, unfolding(ifdb_catalog::specs::Check::judged))]
pub(crate) fn revoke(
    catalog: &Catalog,
    asker: Principal,
    tag: &Name,
    from: &Name,
) -> Result<Bound, Fault>
    ensures { result ≡ revoke catalog.now asker tag.now from.now }
{
    let tag = tag_named(catalog, tag)?;
    let from = principal_named(catalog, from)?;
    Ok(Bound::Change(Change::Revoke { asker, tag, from }))
}

/// SET LABEL.
#[tactic(auto, unfolding(ifdb_catalog::specs::Check::judged))]
pub(crate) fn set_label(alloc: Global, catalog: &Catalog, tags: &[Name]) -> Result<Bound, Fault>
    ensures bound { IfOk result (λ b. set_label catalog.now tags.now ≡ Ok b) }
    ensures refused { RefusedAs (set_label catalog.now tags.now) result }
{
    let label = label_named(alloc, catalog, tags)?;
    Ok(Bound::SetLabel { label })
}

/// The reduction of the tags of the names.
pub(crate) fn label_named(alloc: Global, catalog: &Catalog, names: &[Name]) -> Result<Label, Fault>
    ensures known { IfOk result (λ _. are_tags catalog.now names.now ≡ true) }
    ensures label { IfOk result (λ label. label ≡ label_named catalog.now names.now) }
    ensures lacks { RefusedUnless (are_tags catalog.now names.now) result }
{
    let tags = tags_named(alloc, catalog, names)?;
    Ok(Label::reduce(alloc, catalog.tags(), tags.items())?)
}

/// The clearance of the names, if there is one.
fn clearance_named(
    alloc: Global,
    catalog: &Catalog,
    names: &Option<Names>,
) -> Result<Option<Label>, Fault>
    ensures known { IfOk result (λ _. is_clearance catalog.now names.now ≡ true) }
    ensures clearance { IfOk result
        (λ clearance. clearance ≡ clearance_named catalog.now names.now) }
    ensures lacks { RefusedUnless (is_clearance catalog.now names.now) result }
{
    match names {
        Some(names) => {
            let label = label_named(alloc, catalog, names.items())?;
            Ok(Some(label))
        }
        None => Ok(None),
    }
}

/// The tag of a name.
fn tag_named(catalog: &Catalog, name: &Name) -> Result<Tag, Fault>
    ensures { result ≡ ok_or (tag_named catalog.now name.now) UnknownName }
{
    catalog.tag(name).ok_or(Fault::UnknownName)
}

/// The principal of a name.
fn principal_named(catalog: &Catalog, name: &Name) -> Result<Principal, Fault>
    ensures { result ≡ ok_or (principal_named catalog.now name.now) UnknownName }
{
    catalog.principal(name).ok_or(Fault::UnknownName)
}

/// The tags of the names, in order.
fn tags_named(alloc: Global, catalog: &Catalog, names: &[Name]) -> Result<TagList, Fault>
    ensures known { IfOk result (λ _. are_tags catalog.now names.now ≡ true) }
    ensures tags { IfOk result (λ tags. tags ≡ tags_named catalog.now names.now) }
    ensures lacks { RefusedUnless (are_tags catalog.now names.now) result }
{
    let mut tags = TagList::new(alloc);
    for name in names {
        tags.push(tag_named(catalog, name)?)?;
    }
    Ok(tags)
}

/// Whether each tag of a list is compound.
fn are_compound(tags: &Tags, list: &[Tag]) -> bool
    ensures { result ≡ are_compound tags.now list.now }
{
    list.iter()
        .all(|tag| tags.kind(*tag) == Some(TagKind::Compound))
}

/// The kind of a tag, by the word COMPOUND.
fn tag_kind(compound: bool) -> TagKind
    ensures { result ≡ tag_kind compound }
{
    if compound {
        TagKind::Compound
    } else {
        TagKind::Plain
    }
}
