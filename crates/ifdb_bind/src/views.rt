// Binding of CREATE VIEW.
ghost use Rattle.std.specs.Prelude.{◌≡◌, ◌&&◌, ◌++◌, ◌∷◌, [], false, Ok, IfOk, OnOk};
ghost use Rattle.std.specs.Option.{IfSome, is_some};
ghost use Rattle.std.specs.List.{list_all, list_any};
ghost use Rattle.ifdb_syntax.specs.declared.select.Source.{Source};
ghost use Rattle.ifdb_wire.specs.Refused.{RefusedAs};
ghost use Rattle.ifdb_catalog.specs.Definitions.{given, have_kinds, is_given, names_fit};
ghost use Rattle.ifdb_catalog.specs.Queries.{bound_select, is_relation, is_view, output, select_fits};
ghost use Rattle.ifdb_catalog.specs.Scope.{scope_of};
ghost use Rattle.ifdb_bind.specs.Made.{view_made};
ghost use Rattle.ifdb_bind.specs.ViewBody.{view_of};

use crate::OutOfMemory;
use crate::names::label_named;
use ifdb_bound::{Bound, BoundSelect, Change, Relation, ViewDef};
use ifdb_catalog::Catalog;
use ifdb_label::Label;
use ifdb_select::{
    OutputName, ScopeSource, are_distinct, bound_select, have_one_kind, output_names, scope_of,
    select_fits,
};
use ifdb_syntax::{Select, Source};
use ifdb_value::{Name, Names, Principal};
use ifdb_wire::Fault;
use std::alloc::Global;

/// A view that is to be made.
#[derive(Drop)]
pub(crate) struct NewView {
    /// Its name.
    pub(crate) name: Name,
    /// What it shows.
    pub(crate) select: Select,
    /// The tags that its rows no longer bear.
    pub(crate) tags: Names,
}

/// What a view is, beside its name and its owner.
#[derive(Drop)]
pub(crate) struct ViewBody {
    /// What it shows.
    select: BoundSelect,
    /// The names of its columns.
    names: Names,
    /// The tags that its rows no longer bear.
    declassifying: Label,
}

/// CREATE VIEW.
pub(crate) fn create_view(
    alloc: Global,
    catalog: &Catalog,
    asker: Principal,
    view: NewView,
) -> Result<Bound, Fault>
    ensures bound { IfOk result (λ b. view_made catalog.now asker view ≡ Ok b) }
    ensures refused { RefusedAs (view_made catalog.now asker view) result }
{
    if catalog.relation(&view.name).is_some() {
        drop(view);
        return Err(Fault::Taken);
    }
    let body = view_body(alloc, catalog, asker, &view);
    let NewView { name, select, .. } = view;
    drop(select);
    let ViewBody {
        select,
        names,
        declassifying,
    } = body?;
    Ok(Bound::Change(Change::View {
        view: ViewDef {
            name,
            owner: asker,
            select,
            names,
            declassifying,
        },
    }))
}

/// What a view of a new name is.
fn view_body(
    alloc: Global,
    catalog: &Catalog,
    _asker: Principal,
    view: &NewView,
) -> Result<ViewBody, Fault>
    requires { is_relation catalog.now view.now.name ≡ false }
    ensures bound { IfOk result
        (λ body. view_made catalog.now _asker view.now ≡ Ok (view_of _asker view.now.name body)) }
    ensures refused { RefusedAs (view_made catalog.now _asker view.now) result }
{
    let scope = scope_of(alloc, catalog, view.select.sources.items())?;
    body_over(alloc, catalog, scope.items(), _asker, view)
}

/// What a view of a new name is, over its sources.
fn body_over(
    alloc: Global,
    catalog: &Catalog,
    scope: &[ScopeSource<'_>],
    _asker: Principal,
    view: &NewView,
) -> Result<ViewBody, Fault>
    requires new { is_relation catalog.now view.now.name ≡ false }
    requires scope { scope.now ≡ scope_of catalog.now view.now.select.sources }
    ensures bound { IfOk result
        (λ body. view_made catalog.now _asker view.now ≡ Ok (view_of _asker view.now.name body)) }
    ensures refused { RefusedAs (view_made catalog.now _asker view.now) result }
{
    let declassifying = label_named(alloc, catalog, view.tags.items())?;
    let names = view_names(alloc, scope, &view.select)?;
    let select = bound_select(alloc, catalog, scope, &view.select)?;
    if is_from_view(catalog, view.select.sources.items()) {
        drop(select);
        return Err(Fault::NotATable);
    }
    let Some(names) = names else {
        drop(select);
        return Err(Fault::TypeMismatch);
    };
    if !shows_columns(catalog, scope, &view.select, &select) {
        drop(select);
        return Err(Fault::TypeMismatch);
    }
    Ok(ViewBody {
        select,
        names,
        declassifying,
    })
}

/// Whether a SELECT fits, and each of its items is of one kind, as a view's column is.
fn shows_columns(
    catalog: &Catalog,
    scope: &[ScopeSource<'_>],
    query: &Select,
    tree: &BoundSelect,
) -> bool
    requires { tree.now ≡ bound_select catalog.now scope.now query.now }
    ensures { result
        ≡ (select_fits catalog.now scope.now query.now && have_kinds scope.now query.now) }
{
    select_fits(catalog, scope, query, tree) && have_one_kind(scope, tree.items.items())
}

/// Whether a view stands behind FROM.
fn is_from_view(catalog: &Catalog, sources: &[Source]) -> bool
    ensures { result ≡ list_any (λ (x : Source). is_view catalog.now x.name) sources.now }
{
    for source in sources {
        if is_view(catalog, &source.name) {
            return true;
        }
    }
    false
}

/// Whether the name is that of a view.
fn is_view(catalog: &Catalog, name: &Name) -> bool
    ensures { result ≡ is_view catalog.now name.now }
{
    let Some(relation) = catalog.relation(name) else {
        return false;
    };
    match relation {
        Relation::Table(_) => false,
        Relation::View(_) => true,
    }
}

/// The names of a view's columns, or `None` where an item has no output name, or two have the same.
fn view_names(
    alloc: Global,
    scope: &[ScopeSource<'_>],
    query: &Select,
) -> Result<Option<Names>, OutOfMemory>
    ensures fit { IfOk result (λ names. is_some names ≡ names_fit (output scope.now query.now)) }
    ensures names { IfOk result
        (λ found. IfSome found (λ names. names ≡ given (output scope.now query.now))) }
{
    let outputs = output_names(alloc, scope, query.items.items())?;
    distinct_names(alloc, outputs.items())
}

/// The output names that there are, or `None` where one is missing, or two are the same.
fn distinct_names(alloc: Global, outputs: &[OutputName<'_>]) -> Result<Option<Names>, OutOfMemory>
    ensures fit { IfOk result (λ names. is_some names ≡ names_fit outputs.now) }
    ensures names { IfOk result (λ found. IfSome found (λ names. names ≡ given outputs.now)) }
{
    if !are_given(outputs) {
        return Ok(None);
    }
    let names = given(alloc, outputs)?;
    if are_distinct(names.items()) {
        Ok(Some(names))
    } else {
        Ok(None)
    }
}

/// The output names that there are.
fn given(alloc: Global, outputs: &[OutputName<'_>]) -> Result<Names, OutOfMemory>
    ensures { IfOk result (λ names. names ≡ given outputs.now) }
{
    let mut names = Names::new(alloc);
    for output in outputs {
        add_given(alloc, &mut names, output)?;
    }
    Ok(names)
}

/// Adds an output name, if there is one.
fn add_given(alloc: Global, names: &mut Names, output: &OutputName<'_>) -> Result<(), OutOfMemory>
    ensures { OnOk result (names.new ≡ names.old ++ given (output.now ∷ [])) }
{
    match output.name() {
        Some(name) => names.push(name.share()?),
        None => Ok(()),
    }
}

/// Whether all items have output names.
fn are_given(outputs: &[OutputName<'_>]) -> bool
    ensures { result ≡ list_all is_given outputs.now }
{
    for output in outputs {
        if output.name().is_none() {
            return false;
        }
    }
    true
}
