// Binding of SELECT.
ghost use Rattle.std.specs.Prelude.{◌≡◌, Ok, Err, Some, nat_lt, IfOk};
ghost use Rattle.std.specs.Option.{is_some};
ghost use Rattle.std.specs.List.{list_all, list_any};
ghost use Rattle.ifdb_bound.specs.declared.select.OrderKey.{OrderKey};
ghost use Rattle.ifdb_bound.specs.declared.select.Relation.TheVariants as relation;
ghost use Rattle.ifdb_bound.specs.Kinds as kinds;
ghost use Rattle.ifdb_wire.specs.Refused.{RefusedAs};
ghost use Rattle.ifdb_catalog.specs.Binding.{select};
ghost use Rattle.ifdb_catalog.specs.Public.{relation_named};
ghost use Rattle.ifdb_bound.specs.Forms.{same_column};
ghost use Rattle.ifdb_catalog.specs.Queries.{bound_select, counts_stand, is_aggregate, is_count, is_countable, is_grouped, items_stand, may_count, select_fits, stand_ungrouped, stands_grouped};
ghost use Rattle.ifdb_catalog.specs.Scope.{column_at, kinds_in, scope_of};
ghost use Rattle.ifdb_catalog.specs.Terms.{ref_of};

use crate::kinds::{column_kind, item_kind, where_fits};
use crate::named::are_distinct;
use crate::queries::{bound_select, scope_of};
use crate::scope::{ScopeSource, resolve};
use ifdb_bound::{Bound, BoundColumn, BoundColumns, BoundItem, BoundSelect, OrderKey, Relation};
use ifdb_catalog::Catalog;
use ifdb_syntax::{ColumnRef, Expr, Item, Select, Source};
use ifdb_value::ViewId;
use ifdb_wire::Fault;
use std::alloc::Global;

/// SELECT.
#[tactic(auto, using(crate::proofs::SelectChecks::unknown_source))]
pub fn select(alloc: Global, catalog: &Catalog, query: &Select) -> Result<Bound, Fault>
    ensures bound { IfOk result (λ b. select catalog.now query.now ≡ Ok b) }
    ensures refused { RefusedAs (select catalog.now query.now) result }
{
    let scope = scope_of(alloc, catalog, query.sources.items())?;
    select_over(alloc, catalog, scope.items(), query)
}

/// SELECT over its sources.
fn select_over(
    alloc: Global,
    catalog: &Catalog,
    scope: &[ScopeSource<'_>],
    query: &Select,
) -> Result<Bound, Fault>
    requires { scope.now ≡ scope_of catalog.now query.now.sources }
    ensures bound { IfOk result (λ b. select catalog.now query.now ≡ Ok b) }
    ensures refused { RefusedAs (select catalog.now query.now) result }
{
    let tree = bound_select(alloc, catalog, scope, query)?;
    if select_fits(catalog, scope, query, &tree) {
        Ok(Bound::Select(tree))
    } else {
        Err(Fault::TypeMismatch)
    }
}

/// Whether the aliases of a SELECT differ, its items stand beside one another, and the kinds in it fit.
pub fn select_fits(
    catalog: &Catalog,
    scope: &[ScopeSource<'_>],
    query: &Select,
    tree: &BoundSelect,
) -> bool
    requires { tree.now ≡ bound_select catalog.now scope.now query.now }
    ensures { result ≡ select_fits catalog.now scope.now query.now }
{
    are_distinct(query.sources.items())
        && items_stand(scope, query.group.items(), query.items.items())
        && counts_stand(catalog, query)
        && kinds_fit(scope, tree)
}

// ---- items beside one another

/// Whether the items may stand beside one another and beside GROUP BY.
fn items_stand(scope: &[ScopeSource<'_>], group: &[ColumnRef], items: &[Item]) -> bool
    ensures { result ≡ items_stand scope.now group.now items.now }
{
    match group {
        [] => stand_ungrouped(items),
        [_, ..] => stand_grouped(scope, group, items),
    }
}

/// Whether, without GROUP BY, all items are aggregates or none is one.
fn stand_ungrouped(items: &[Item]) -> bool
    ensures { result ≡ stand_ungrouped items.now }
{
    are_aggregates(items) || !has_aggregate(items)
}

/// Whether all items are aggregates.
fn are_aggregates(items: &[Item]) -> bool
    ensures { result ≡ list_all is_aggregate items.now }
{
    items.iter().all(|item| is_aggregate(item))
}

/// Whether an item is COUNT(*).
fn has_count(items: &[Item]) -> bool
    ensures { result ≡ list_any is_count items.now }
{
    items.iter().any(|item| is_count(item))
}

/// Whether an item is an aggregate.
fn has_aggregate(items: &[Item]) -> bool
    ensures { result ≡ list_any is_aggregate items.now }
{
    items.iter().any(|item| is_aggregate(item))
}

/// Whether each item is a column of GROUP BY or an aggregate.
fn stand_grouped(scope: &[ScopeSource<'_>], group: &[ColumnRef], items: &[Item]) -> bool
    ensures { result ≡ list_all (stands_grouped scope.now group.now) items.now }
{
    for item in items {
        if !stands_grouped(scope, group, item) {
            return false;
        }
    }
    true
}

/// Whether an item is a column of GROUP BY or an aggregate.
fn stands_grouped(scope: &[ScopeSource<'_>], group: &[ColumnRef], item: &Item) -> bool
    ensures { result ≡ stands_grouped scope.now group.now item.now }
{
    match item {
        Item::Expr { expr, .. } => is_grouped(scope, group, expr),
        _ => is_aggregate(item),
    }
}

/// Whether an expression is a column that stands behind GROUP BY.
#[tactic(auto, using(ifdb_catalog::proofs::Forms::ref_forms))]
fn is_grouped(scope: &[ScopeSource<'_>], group: &[ColumnRef], expr: &Expr) -> bool
    ensures { result ≡ is_grouped scope.now group.now (ref_of expr.now) }
{
    match expr {
        Expr::Column(column) => is_among(scope, group, column_at(scope, column)),
        Expr::Literal(_) | Expr::Add(_, _) | Expr::Sub(_, _) | Expr::Mul(_, _) => false,
    }
}

/// Whether a column is among those that references mean.
fn is_among(scope: &[ScopeSource<'_>], group: &[ColumnRef], column: BoundColumn) -> bool
    ensures { result ≡ list_any (λ g. same_column (column_at scope.now g) column) group.now }
{
    for key in group {
        if same_column(column_at(scope, key), column) {
            return true;
        }
    }
    false
}

/// The column that a reference means which is known to mean one.
fn column_at(scope: &[ScopeSource<'_>], column: &ColumnRef) -> BoundColumn
    ensures { result ≡ column_at scope.now column.now }
{
    match resolve(scope, column) {
        Ok(column) => column,
        Err(_) => BoundColumn {
            source: 0,
            column: 0,
        },
    }
}

/// Whether two columns are one.
fn same_column(left: BoundColumn, right: BoundColumn) -> bool
    ensures { result ≡ same_column left right }
{
    left.source == right.source && left.column == right.column
}

/// Whether an item is COUNT(*).
fn is_count(item: &Item) -> bool
    ensures { result ≡ is_count item.now }
{
    matches!(item, Item::CountAll { .. })
}

/// Whether an item is COUNT(*), SUM, MIN or MAX.
fn is_aggregate(item: &Item) -> bool
    ensures { result ≡ is_aggregate item.now }
{
    matches!(
        item,
        Item::CountAll { .. } | Item::Sum { .. } | Item::Min { .. } | Item::Max { .. }
    )
}

// ---- COUNT(*)

/// Whether the rows can be counted, where COUNT(*) stands.
fn counts_stand(catalog: &Catalog, query: &Select) -> bool
    ensures { result ≡ counts_stand catalog.now query.now }
{
    !has_count(query.items.items()) || may_count(catalog, query.sources.items())
}

/// Whether there is one source, whose rows can be counted.
fn may_count(catalog: &Catalog, sources: &[Source]) -> bool
    ensures { result ≡ may_count catalog.now sources.now }
{
    match sources {
        [source] => is_countable(catalog, source),
        _ => false,
    }
}

/// Whether the rows of a source can be counted: those of a table can, and those of a view of one source.
fn is_countable(catalog: &Catalog, source: &Source) -> bool
    ensures { result ≡ is_countable catalog.now (relation_named catalog.now source.now.name) }
{
    let Some(relation) = catalog.relation(&source.name) else {
        return true;
    };
    match relation {
        Relation::Table(_) => true,
        Relation::View(view) => has_one_source(catalog, view),
    }
}

/// Whether a view is of one source.
fn has_one_source(catalog: &Catalog, view: ViewId) -> bool
    ensures { result ≡ is_countable catalog.now (Some (relation.View view)) }
{
    match catalog.view(view) {
        Some(view) => view.select.sources.len() == 1,
        None => false,
    }
}

// ---- kinds

/// Whether the terms of a SELECT fit their columns.
fn kinds_fit(scope: &[ScopeSource<'_>], tree: &BoundSelect) -> bool
    ensures { result ≡ kinds.select_fits (kinds_in scope.now) tree.now }
{
    tree.sources.len() == scope.len()
        && have_kinds(scope, tree.items.items())
        && where_fits(scope, &tree.cond)
        && are_columns(scope, &tree.group)
        && are_items(tree.order.items(), tree.items.len())
}

/// Whether each item fits.
fn have_kinds(scope: &[ScopeSource<'_>], items: &[BoundItem]) -> bool
    ensures { result ≡ list_all (λ i. is_some (kinds.item_kind (kinds_in scope.now) i)) items.now }
{
    for item in items {
        if item_kind(scope, item).is_none() {
            return false;
        }
    }
    true
}

/// Whether each column is there.
fn are_columns(scope: &[ScopeSource<'_>], columns: &BoundColumns) -> bool
    ensures { result
        ≡ list_all (λ c. is_some (kinds.column_kind (kinds_in scope.now) c)) columns.now }
{
    for column in columns.items() {
        if column_kind(scope, *column).is_none() {
            return false;
        }
    }
    true
}

/// Whether each key of ORDER BY is of one of so many items.
fn are_items(keys: &[OrderKey], many: usize) -> bool
    ensures { result ≡ list_all (λ (k : OrderKey). nat_lt k.place many) keys.now }
{
    keys.iter().all(|key| key.place < many)
}
