// Binding of CREATE TABLE.
ghost use Rattle.std.specs.Prelude.{◌≡◌, ◌⊎◌, true, false, map, Ok, Err, IfOk, IfErr};
ghost use Rattle.std.specs.Option.{ok_or};
ghost use Rattle.std.specs.List.{list_all, list_any};
ghost use Rattle.ifdb_wire.specs.declared.fault.Fault.TheVariants.{NotATable, UnknownName};
ghost use Rattle.ifdb_wire.specs.Refused.{RefusedAs};
ghost use Rattle.ifdb_catalog.specs.Definitions.{bound_foreign, foreign_fits, is_known_foreign, names_twice, refers_to_view, same_kinds};
ghost use Rattle.ifdb_catalog.specs.Statements.{is_column_of, place_at, place_named, table_number};
ghost use Rattle.ifdb_catalog.specs.Queries.{is_view, is_relation};
ghost use Rattle.ifdb_select.specs.Lacks.{Lacks, RefusedUnless};
ghost use Rattle.ifdb_bind.specs.Made.{table_made, table_of};

use ifdb_bound::{Bound, Change, Foreign, Foreigns, Places, Relation, Schema};
use ifdb_catalog::Catalog;
use ifdb_select::{agree, are_distinct, kind_at, place_named, relation_named};
use ifdb_syntax::{ForeignKey, ForeignKeys};
use ifdb_value::{Column, Columns, Name, Names, Principal, TableId};
use ifdb_wire::Fault;
use std::alloc::Global;

/// A table that is to be made.
#[derive(Drop)]
pub(crate) struct NewTable {
    /// Its name.
    pub(crate) name: Name,
    /// Its columns.
    pub(crate) columns: Columns,
    /// The names of its primary key's columns.
    pub(crate) key: Names,
    /// Its foreign keys.
    pub(crate) foreign: ForeignKeys,
}

/// The keys of a table, with places for its columns and numbers for its parents.
#[derive(Drop)]
pub(crate) struct TableKeys {
    /// The places of its primary key's columns.
    key: Places,
    /// Its foreign keys.
    foreign: Foreigns,
}

/// CREATE TABLE.
pub(crate) fn create_table(
    alloc: Global,
    catalog: &Catalog,
    asker: Principal,
    table: NewTable,
) -> Result<Bound, Fault>
    ensures bound { IfOk result (λ b. table_made catalog.now asker table ≡ Ok b) }
    ensures refused { RefusedAs (table_made catalog.now asker table) result }
{
    let keys = table_keys(alloc, catalog, asker, &table);
    let NewTable { name, columns, .. } = table;
    let TableKeys { key, foreign } = keys?;
    Ok(Bound::Change(Change::Table {
        asker,
        schema: Schema {
            name,
            columns,
            key,
            foreign,
        },
    }))
}

/// The keys of a table that is to be made.
#[tactic(auto, unfolding(ifdb_catalog::specs::Check::judged))]
fn table_keys(
    alloc: Global,
    catalog: &Catalog,
    _asker: Principal,
    table: &NewTable,
) -> Result<TableKeys, Fault>
    ensures bound { IfOk result
        (λ keys. table_made catalog.now _asker table.now ≡ Ok (table_of _asker table.now keys)) }
    ensures refused { RefusedAs (table_made catalog.now _asker table.now) result }
{
    let columns = table.columns.items();
    if catalog.relation(&table.name).is_some() || names_twice(columns, table.key.items()) {
        return Err(Fault::Taken);
    }
    let key = column_places(alloc, columns, table.key.items())?;
    if !are_known(catalog, columns, table.foreign.items()) {
        return Err(Fault::UnknownName);
    }
    let foreign = foreign_keys(alloc, catalog, columns, table.foreign.items())?;
    if !foreign_keys_fit(catalog, columns, foreign.items()) {
        return Err(Fault::TypeMismatch);
    }
    Ok(TableKeys { key, foreign })
}

/// Whether two columns have one name, or a key names a column twice.
fn names_twice(columns: &[Column], key: &[Name]) -> bool
    ensures { result ≡ names_twice columns.now key.now }
{
    !are_distinct(columns) || !are_distinct(key)
}

/// The place of the column of a name.
pub(crate) fn column_place(columns: &[Column], name: &Name) -> Result<usize, Fault>
    ensures { result ≡ ok_or (place_named columns.now name.now) UnknownName }
{
    place_named(columns, name).ok_or(Fault::UnknownName)
}

/// The places of the columns of names, in order.
fn column_places(alloc: Global, columns: &[Column], names: &[Name]) -> Result<Places, Fault>
    ensures known { IfOk result (λ _. list_all (is_column_of columns.now) names.now ≡ true) }
    ensures places { IfOk result (λ places. places ≡ map (place_at columns.now) names.now) }
    ensures lacks { RefusedUnless (list_all (is_column_of columns.now) names.now) result }
{
    let mut places = Places::new(alloc);
    for name in names {
        places.push(column_place(columns, name)?)?;
    }
    Ok(places)
}

// ---- foreign keys

/// Whether the columns of each foreign key are columns, and its parent is a table or view.
fn are_known(catalog: &Catalog, columns: &[Column], foreign: &[ForeignKey]) -> bool
    ensures { result ≡ list_all (is_known_foreign catalog.now columns.now) foreign.now }
{
    for key in foreign {
        if !is_known(catalog, columns, key) {
            return false;
        }
    }
    true
}

/// Whether the columns of a foreign key are columns, and its parent is a table or view.
fn is_known(catalog: &Catalog, columns: &[Column], key: &ForeignKey) -> bool
    ensures { result ≡ is_known_foreign catalog.now columns.now key.now }
{
    are_columns(columns, key.columns.items()) && catalog.relation(&key.parent).is_some()
}

/// Whether each name is that of a column.
pub(crate) fn are_columns(columns: &[Column], names: &[Name]) -> bool
    ensures { result ≡ list_all (is_column_of columns.now) names.now }
{
    for name in names {
        if !is_column(columns, name) {
            return false;
        }
    }
    true
}

/// Whether the name is that of a column.
fn is_column(columns: &[Column], name: &Name) -> bool
    ensures { result ≡ is_column_of columns.now name.now }
{
    place_named(columns, name).is_some()
}

/// The foreign keys with places for their columns and numbers for their parents.
///
/// `NotATable` only where a parent is a view.
fn foreign_keys(
    alloc: Global,
    catalog: &Catalog,
    columns: &[Column],
    foreign: &[ForeignKey],
) -> Result<Foreigns, Fault>
    ensures tables { IfOk result (λ _. list_any (refers_to_view catalog.now) foreign.now ≡ false) }
    ensures keys { IfOk result
        (λ keys. keys ≡ map (bound_foreign catalog.now columns.now) foreign.now) }
    ensures refused { IfErr result
        (λ fault. Lacks fault (list_all (is_known_foreign catalog.now columns.now) foreign.now)
        ⊎ ((fault ≡ NotATable) × (list_any (refers_to_view catalog.now) foreign.now ≡ true))) }
{
    let mut keys = Foreigns::new(alloc);
    for key in foreign {
        keys.push(foreign_key(alloc, catalog, columns, key)?)?;
    }
    Ok(keys)
}

/// A foreign key with places for its columns and a number for its parent.
fn foreign_key(
    alloc: Global,
    catalog: &Catalog,
    columns: &[Column],
    key: &ForeignKey,
) -> Result<Foreign, Fault>
    ensures table { IfOk result (λ _. refers_to_view catalog.now key.now ≡ false) }
    ensures key { IfOk result (λ foreign. foreign ≡ bound_foreign catalog.now columns.now key.now) }
    ensures refused { IfErr result
        (λ fault. Lacks fault (is_known_foreign catalog.now columns.now key.now)
        ⊎ ((fault ≡ NotATable) × (refers_to_view catalog.now key.now ≡ true))) }
{
    let columns = column_places(alloc, columns, key.columns.items())?;
    let parent = table_named(catalog, &key.parent)?;
    Ok(Foreign { columns, parent })
}

/// The table of a name. `UnknownName` where nothing is of the name, `NotATable` where a view is.
pub(crate) fn table_named(catalog: &Catalog, name: &Name) -> Result<TableId, Fault>
    ensures known { IfOk result (λ _. is_relation catalog.now name.now ≡ true) }
    ensures table { IfOk result (λ _. is_view catalog.now name.now ≡ false) }
    ensures number { IfOk result (λ table. table ≡ table_number catalog.now name.now) }
    ensures refused { IfErr result
        (λ fault. ((fault ≡ UnknownName) × (is_relation catalog.now name.now ≡ false))
        ⊎ ((fault ≡ NotATable) × (is_view catalog.now name.now ≡ true))) }
{
    match relation_named(catalog, name)? {
        Relation::Table(table) => Ok(table),
        Relation::View(_) => Err(Fault::NotATable),
    }
}

/// Whether the columns of each foreign key are as many as its parent's primary key has, with the same kinds in order.
fn foreign_keys_fit(catalog: &Catalog, columns: &[Column], foreign: &[Foreign]) -> bool
    ensures { result ≡ list_all (foreign_fits catalog.now columns.now) foreign.now }
{
    for key in foreign {
        if !foreign_key_fits(catalog, columns, key) {
            return false;
        }
    }
    true
}

/// Whether the columns of a foreign key are as many as its parent's primary key has, with the same kinds in order.
fn foreign_key_fits(catalog: &Catalog, columns: &[Column], key: &Foreign) -> bool
    ensures { result ≡ foreign_fits catalog.now columns.now key.now }
{
    match catalog.table(key.parent) {
        Some(parent) => same_kinds(
            columns,
            key.columns.items(),
            parent.columns.items(),
            parent.key.items(),
        ),
        None => same_kinds(columns, key.columns.items(), &[], &[]),
    }
}

/// Whether as many places in one list of columns as in another have the same kinds, in order.
#[tactic(auto, using(crate::proofs::SameKinds::no_places))]
fn same_kinds(
    columns: &[Column],
    places: &[usize],
    others: &[Column],
    other_places: &[usize],
) -> bool
    ensures { result ≡ same_kinds columns.now places.now others.now other_places.now }
{
    match places {
        [] => other_places.is_empty(),
        [place, rest @ ..] => match other_places {
            [] => false,
            [other, others_rest @ ..] => {
                agree(kind_at(columns, *place), kind_at(others, *other))
                    && same_kinds(columns, rest, others, others_rest)
            }
        },
    }
}
