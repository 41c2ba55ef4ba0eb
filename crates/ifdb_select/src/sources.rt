// Sources of statements, with the columns of their tables and views.
ghost use Rattle.std.specs.Prelude.{◌≡◌, [], map, IfOk, Some, length};
ghost use Rattle.std.specs.Option.{ok_or};
ghost use Rattle.ifdb_value.specs.declared.value.ValueKind.TheVariants as kind;
ghost use Rattle.ifdb_wire.specs.declared.fault.Fault.TheVariants.{UnknownName};
ghost use Rattle.ifdb_bound.specs.Kinds.{item_kind};
ghost use Rattle.ifdb_catalog.specs.Public.{relation_named, table_at, view_at};
ghost use Rattle.ifdb_catalog.specs.Scope.{kind_or, kinds_in, relation_columns, table_columns, table_kinds, view_columns};
ghost use Rattle.ifdb_select.specs.Whole.{source_called};

use crate::OutOfMemory;
use crate::kinds::item_kind;
use crate::scope::ScopeSource;
use ifdb_bound::{BoundItem, BoundSource, Relation, ViewDef};
use ifdb_catalog::Catalog;
use ifdb_value::{Column, Name, Sequence, TableId, TermKind, ValueKind, ViewId};
use ifdb_wire::Fault;
use std::alloc::Global;

/// The kinds of a view's columns, in order.
type Kinds = Sequence<ValueKind>;

/// The table or view of a name.
pub fn relation_named(catalog: &Catalog, name: &Name) -> Result<Relation, Fault>
    ensures { result ≡ ok_or (relation_named catalog.now name.now) UnknownName }
{
    catalog.relation(name).ok_or(Fault::UnknownName)
}

/// The columns of a table; none where it isn't made.
pub fn columns_of(catalog: &Catalog, table: TableId) -> &[Column]
    ensures { result.now ≡ (table_at catalog.now table).columns }
{
    match catalog.table(table) {
        Some(schema) => schema.columns.items(),
        None => &[],
    }
}

/// A table or view as a source.
pub fn source<'a>(
    alloc: Global,
    catalog: &'a Catalog,
    alias: &'a Name,
    relation: Relation,
) -> Result<ScopeSource<'a>, OutOfMemory>
    ensures { IfOk result
        (λ s. s ≡ source_called alias.now (relation_columns catalog.now (Some relation))) }
{
    match relation {
        Relation::Table(table) => Ok(ScopeSource::table(alias, columns_of(catalog, table))),
        Relation::View(view) => view_source(alloc, catalog, alias, view),
    }
}

/// A view as a source, of no columns where it isn't made.
fn view_source<'a>(
    alloc: Global,
    catalog: &'a Catalog,
    alias: &'a Name,
    view: ViewId,
) -> Result<ScopeSource<'a>, OutOfMemory>
    ensures { IfOk result
        (λ s. s ≡ source_called alias.now (view_columns catalog.now (view_at catalog.now view))) }
{
    match catalog.view(view) {
        Some(view) => made_view_source(alloc, catalog, alias, view),
        None => Ok(ScopeSource::table(alias, &[])),
    }
}

/// A view that is made as a source.
fn made_view_source<'a>(
    alloc: Global,
    catalog: &'a Catalog,
    alias: &'a Name,
    view: &'a ViewDef,
) -> Result<ScopeSource<'a>, OutOfMemory>
    requires { length view.now.names ≡ length view.now.select.items }
    ensures { IfOk result (λ s. s ≡ source_called alias.now (view_columns catalog.now view.now)) }
{
    let kinds = view_kinds(alloc, catalog, view)?;
    Ok(ScopeSource::view(alias, view.names.items(), kinds))
}

/// The kinds of a view's columns: those of its items over its tables.
fn view_kinds(alloc: Global, catalog: &Catalog, view: &ViewDef) -> Result<Kinds, OutOfMemory>
    ensures { IfOk result
        (λ kinds. kinds ≡ map (λ i. kind_or kind.Int
        (item_kind (table_kinds catalog.now view.now.select.sources) i)) view.now.select.items) }
{
    let tables = tables_of(alloc, catalog, view)?;
    item_kinds(alloc, tables.items(), view.select.items.items())
}

/// The kinds of items that fit their sources, in order.
fn item_kinds(
    alloc: Global,
    scope: &[ScopeSource<'_>],
    items: &[BoundItem],
) -> Result<Kinds, OutOfMemory>
    ensures { IfOk result (λ kinds. kinds
        ≡ map (λ i. kind_or kind.Int (item_kind (kinds_in scope.now) i)) items.now) }
{
    let mut kinds = Sequence::new(alloc);
    for item in items {
        kinds.push(kind_or_int(item_kind(scope, item)))?;
    }
    Ok(kinds)
}

/// The one kind, or that of numbers where there is none.
fn kind_or_int(term: Option<TermKind>) -> ValueKind
    ensures { result ≡ kind_or kind.Int term }
{
    match term {
        Some(TermKind::Of(kind)) => kind,
        Some(TermKind::Any) | None => ValueKind::Int,
    }
}

/// The tables of a view as sources, each spoken of by the view's name.
fn tables_of<'a>(
    alloc: Global,
    catalog: &'a Catalog,
    view: &'a ViewDef,
) -> Result<Sequence<ScopeSource<'a>>, OutOfMemory>
    ensures { IfOk result
        (λ tables. kinds_in tables ≡ table_kinds catalog.now view.now.select.sources) }
{
    let mut tables = Sequence::new(alloc);
    for source in view.select.sources.items() {
        tables.push(ScopeSource::table(&view.name, table_columns(catalog, source)))?;
    }
    Ok(tables)
}

/// The columns of what stands behind a view's FROM, which is a table.
fn table_columns<'a>(catalog: &'a Catalog, source: &BoundSource) -> &'a [Column]
    ensures { result.now ≡ table_columns catalog.now source.now.relation }
{
    match source.relation {
        Relation::Table(table) => columns_of(catalog, table),
        Relation::View(_) => &[],
    }
}
