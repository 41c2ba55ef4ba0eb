// SELECT with numbers for its names.
ghost use Rattle.std.specs.Prelude.{◌≡◌, ◌++◌, ◌+◌, ◌^◌, ◌<◌, true, false, map, flat_map, length, IfOk, IfErr, OnOk};
ghost use Rattle.std.specs.List.{list_all};
ghost use Rattle.ifdb_wire.specs.declared.fault.Fault.TheVariants.{UnknownName};
ghost use Rattle.ifdb_catalog.specs.Public.{table_at};
ghost use Rattle.ifdb_catalog.specs.Scope.{column_at, is_alias, is_column, scope_of};
ghost use Rattle.ifdb_catalog.specs.Queries.{all_from, bound_item, bound_relation, bound_select, bound_source, columns_from, is_known_item, select_is_known, source_from};
ghost use Rattle.ifdb_select.specs.Lacks.{RefusedUnless};
ghost use Rattle.ifdb_select.specs.Starred.{starred};
ghost use Rattle.ifdb_select.specs.Whole.{are_known_orders, are_relations, order_keys};

use crate::OutOfMemory;
use crate::outputs::{bound_orders, output_names};
use crate::scope::{ScopeSource, resolve};
use crate::sources::{relation_named, source};
use crate::terms::{bound_expr, bound_where};
use ifdb_bound::{
    BoundColumn, BoundColumns, BoundExpr, BoundItem, BoundItems, BoundSelect, BoundSource,
    BoundSources, OrderKeys, Places, Relation,
};
use ifdb_catalog::Catalog;
use ifdb_syntax::{ColumnRef, Item, Order, Select, Source};
use ifdb_value::{Name, Sequence, TableId};
use ifdb_wire::Fault;
use std::alloc::Global;

// ---- sources

/// The sources of a SELECT, with the columns of their tables and views.
pub fn scope_of<'a>(
    alloc: Global,
    catalog: &'a Catalog,
    sources: &'a [Source],
) -> Result<Sequence<ScopeSource<'a>>, Fault>
    ensures known { IfOk result (λ _. are_relations catalog.now sources.now ≡ true) }
    ensures scope { IfOk result (λ scope. scope ≡ scope_of catalog.now sources.now) }
    ensures lacks { RefusedUnless (are_relations catalog.now sources.now) result }
{
    let mut scope = Sequence::new(alloc);
    for from in sources {
        let relation = relation_named(catalog, &from.name)?;
        scope.push(source(alloc, catalog, &from.alias, relation)?)?;
    }
    Ok(scope)
}

/// The sources with numbers for their names.
fn bound_sources(
    alloc: Global,
    catalog: &Catalog,
    sources: &[Source],
) -> Result<BoundSources, Fault>
    ensures known { IfOk result (λ _. are_relations catalog.now sources.now ≡ true) }
    ensures sources { IfOk result (λ bound. bound ≡ map (bound_source catalog.now) sources.now) }
    ensures lacks { RefusedUnless (are_relations catalog.now sources.now) result }
{
    let mut bound = BoundSources::new(alloc);
    for from in sources {
        let relation = relation_named(catalog, &from.name)?;
        bound.push(bound_relation(alloc, catalog, relation)?)?;
    }
    Ok(bound)
}

/// A table or view as a source of a SELECT.
fn bound_relation(
    alloc: Global,
    catalog: &Catalog,
    relation: Relation,
) -> Result<BoundSource, OutOfMemory>
    ensures { IfOk result (λ source. source ≡ bound_relation catalog.now relation) }
{
    let key = match relation {
        Relation::Table(table) => copied(alloc, key_places(catalog, table))?,
        Relation::View(_) => Places::new(alloc),
    };
    Ok(BoundSource { relation, key })
}

/// The places of a table's primary key; none where it isn't made.
pub fn key_places(catalog: &Catalog, table: TableId) -> &[usize]
    ensures { result.now ≡ (table_at catalog.now table).key }
{
    match catalog.table(table) {
        Some(schema) => schema.key.items(),
        None => &[],
    }
}

/// A list of the same places.
fn copied(alloc: Global, places: &[usize]) -> Result<Places, OutOfMemory>
    ensures { IfOk result (λ copy. copy ≡ places.now) }
{
    Ok(Places::from_vec(Vec::from_slice(alloc, places)?))
}

// ---- items

/// What the items give, with places for their columns.
fn bound_items(
    alloc: Global,
    scope: &[ScopeSource<'_>],
    items: &[Item],
) -> Result<BoundItems, Fault>
    ensures known { IfOk result (λ _. list_all (is_known_item scope.now) items.now ≡ true) }
    ensures trees { IfOk result (λ trees. trees ≡ flat_map (bound_item scope.now) items.now) }
    ensures lacks { RefusedUnless (list_all (is_known_item scope.now) items.now) result }
{
    let mut trees = BoundItems::new(alloc);
    for item in items {
        add_item(alloc, &mut trees, scope, item)?;
    }
    Ok(trees)
}

/// Adds what an item gives, with places for its columns.
fn add_item(
    alloc: Global,
    trees: &mut BoundItems,
    scope: &[ScopeSource<'_>],
    item: &Item,
) -> Result<(), Fault>
    ensures known { IfOk result (λ _. is_known_item scope.now item.now ≡ true) }
    ensures trees { OnOk result (trees.new ≡ trees.old ++ bound_item scope.now item.now) }
    ensures lacks { RefusedUnless (is_known_item scope.now item.now) result }
{
    match item {
        Item::All => Ok(add_all(trees, scope, 0)?),
        Item::Expr { expr, .. } => {
            Ok(trees.push(BoundItem::Expr(bound_expr(alloc, scope, expr)?))?)
        }
        Item::LabelOf { source, .. } => {
            Ok(trees.push(BoundItem::LabelOf(source_named(scope, source, 0)?))?)
        }
        Item::CountAll { .. } => Ok(trees.push(BoundItem::CountAll)?),
        Item::Sum { column, .. } => Ok(trees.push(BoundItem::Sum(resolve(scope, column)?))?),
        Item::Min { column, .. } => Ok(trees.push(BoundItem::Min(resolve(scope, column)?))?),
        Item::Max { column, .. } => Ok(trees.push(BoundItem::Max(resolve(scope, column)?))?),
    }
}

/// Adds all columns of sources, in order, the first of which is at a place behind FROM.
fn add_all(
    trees: &mut BoundItems,
    scope: &[ScopeSource<'_>],
    source: usize,
) -> Result<(), OutOfMemory>
    requires { source + length scope.now < 2 ^ 64 }
    ensures { OnOk result (trees.new ≡ trees.old ++ starred (all_from source scope.now)) }
{
    match scope {
        [] => Ok(()),
        [first, rest @ ..] => {
            add_columns(trees, first, source)?;
            add_all(trees, rest, source + 1)
        }
    }
}

/// Adds all columns of the source at a place behind FROM, in order.
fn add_columns(
    trees: &mut BoundItems,
    from: &ScopeSource<'_>,
    source: usize,
) -> Result<(), OutOfMemory>
    ensures { OnOk result
        (trees.new ≡ trees.old ++ starred (columns_from source 0 from.now.columns)) }
{
    for column in 0..from.width() {
        let place = BoundColumn { source, column };
        trees.push(BoundItem::Expr(BoundExpr::Column(place)))?;
    }
    Ok(())
}

/// The place of the first source of an alias, of those from a place on.
fn source_named(scope: &[ScopeSource<'_>], alias: &Name, source: usize) -> Result<usize, Fault>
    requires { source + length scope.now < 2 ^ 64 }
    ensures known { IfOk result (λ _. is_alias scope.now alias.now ≡ true) }
    ensures place { IfOk result (λ place. place ≡ source_from alias.now source scope.now) }
    ensures unknown { IfErr result
        (λ fault. (fault ≡ UnknownName) × (is_alias scope.now alias.now ≡ false)) }
{
    match scope {
        [] => Err(Fault::UnknownName),
        [first, rest @ ..] => {
            if first.is_called(alias) {
                Ok(source)
            } else {
                source_named(rest, alias, source + 1)
            }
        }
    }
}

// ---- GROUP BY, ORDER BY, and the whole

/// The columns that references mean, in order.
fn bound_columns(
    alloc: Global,
    scope: &[ScopeSource<'_>],
    columns: &[ColumnRef],
) -> Result<BoundColumns, Fault>
    ensures known { IfOk result (λ _. list_all (is_column scope.now) columns.now ≡ true) }
    ensures columns { IfOk result (λ bound. bound ≡ map (column_at scope.now) columns.now) }
    ensures lacks { RefusedUnless (list_all (is_column scope.now) columns.now) result }
{
    let mut bound = BoundColumns::new(alloc);
    for column in columns {
        bound.push(resolve(scope, column)?)?;
    }
    Ok(bound)
}

/// The keys of ORDER BY with the places of their items. Where there are none, the items' names aren't gathered.
fn order_keys(
    alloc: Global,
    scope: &[ScopeSource<'_>],
    items: &[Item],
    orders: &[Order],
) -> Result<OrderKeys, Fault>
    ensures known { IfOk result (λ _. are_known_orders scope.now items.now orders.now ≡ true) }
    ensures keys { IfOk result (λ keys. keys ≡ order_keys scope.now items.now orders.now) }
    ensures lacks { RefusedUnless (are_known_orders scope.now items.now orders.now) result }
{
    match orders {
        [] => Ok(OrderKeys::new(alloc)),
        _ => bound_orders(alloc, output_names(alloc, scope, items)?.items(), orders),
    }
}

/// A SELECT with numbers for its names.
pub fn bound_select(
    alloc: Global,
    catalog: &Catalog,
    scope: &[ScopeSource<'_>],
    query: &Select,
) -> Result<BoundSelect, Fault>
    ensures known { IfOk result (λ _. select_is_known catalog.now scope.now query.now ≡ true) }
    ensures tree { IfOk result (λ tree. tree ≡ bound_select catalog.now scope.now query.now) }
    ensures lacks { RefusedUnless (select_is_known catalog.now scope.now query.now) result }
{
    let sources = bound_sources(alloc, catalog, query.sources.items())?;
    let items = bound_items(alloc, scope, query.items.items())?;
    let cond = bound_where(alloc, scope, &query.cond)?;
    let group = bound_columns(alloc, scope, query.group.items())?;
    let order = order_keys(alloc, scope, query.items.items(), query.order.items())?;
    Ok(BoundSelect {
        items,
        sources,
        cond,
        group,
        order,
    })
}
