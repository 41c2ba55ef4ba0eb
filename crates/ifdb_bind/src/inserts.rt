// Binding of INSERT.
ghost use Rattle.std.specs.Prelude.{◌≡◌, true, false, [], map, Ok, IfOk, IfErr};
ghost use Rattle.std.specs.List.{list_all};
ghost use Rattle.ifdb_wire.specs.declared.fault.Fault.TheVariants.{TypeMismatch};
ghost use Rattle.ifdb_wire.specs.Refused.{RefusedAs};
ghost use Rattle.ifdb_bound.specs.Expressions.{value_at};
ghost use Rattle.ifdb_catalog.specs.Binding.{insert};
ghost use Rattle.ifdb_catalog.specs.Scope.{kinds_of};
ghost use Rattle.ifdb_catalog.specs.Statements.{arranged, is_column_of, listed_at, values_at, values_fit};
ghost use Rattle.ifdb_bind.specs.Listed.{MismatchedUnless, all_fit, all_listed, all_listed_fit, each_once, fill, places_in, row_fills};

use crate::OutOfMemory;
use crate::names::label_named;
use ifdb_bound::{Bound, Places, Relation};
use ifdb_catalog::{Catalog, are_given};
use ifdb_select::{
    ScopeSource, columns_of, key_places, place_named, relation_named, source, takes, times,
};
use ifdb_value::{Column, Name, Names, Value, ValueRow, ValueRows};
use ifdb_wire::Fault;
use std::alloc::Global;

/// Rows that are to be inserted.
#[derive(Drop)]
pub(crate) struct NewRows {
    /// The columns that they give, in order; none where they give all.
    pub(crate) columns: Names,
    /// The rows.
    pub(crate) rows: ValueRows,
    /// The tags that are given up.
    pub(crate) tags: Names,
}

/// INSERT.
#[tactic(auto, unfolding(ifdb_catalog::specs::Check::judged))]
pub(crate) fn insert(
    alloc: Global,
    catalog: &Catalog,
    table: &Name,
    new: NewRows,
) -> Result<Bound, Fault>
    ensures bound { IfOk result
        (λ b. insert catalog.now table.now new.columns new.rows new.tags ≡ Ok b) }
    ensures refused { RefusedAs
        (insert catalog.now table.now new.columns new.rows new.tags) result }
{
    let NewRows {
        columns,
        rows,
        tags,
    } = new;
    let relation = relation_named(catalog, table)?;
    if !has_columns(&source(alloc, catalog, table, relation)?, columns.items()) {
        return Err(Fault::UnknownName);
    }
    let given = label_named(alloc, catalog, tags.items())?;
    let Relation::Table(table) = relation else {
        return Err(Fault::NotATable);
    };
    let key = key_places(catalog, table);
    let rows = arranged_rows(
        alloc,
        columns_of(catalog, table),
        key,
        columns.items(),
        rows,
    )?;
    Ok(Bound::Insert { table, rows, given })
}

/// Whether each name is that of a column of a source.
fn has_columns(source: &ScopeSource<'_>, names: &[Name]) -> bool
    ensures { result ≡ list_all (is_column_of source.now.columns) names.now }
{
    for name in names {
        if source.place(name).is_none() {
            return false;
        }
    }
    true
}

/// The rows in the order of a table's columns. `TypeMismatch` exactly where they don't fit them.
fn arranged_rows(
    alloc: Global,
    columns: &[Column],
    key: &[usize],
    names: &[Name],
    rows: ValueRows,
) -> Result<ValueRows, Fault>
    ensures fit { IfOk result (λ _. all_fit columns.now key.now names.now rows ≡ true) }
    ensures rows { IfOk result (λ all. all ≡ map (arranged columns.now names.now) rows) }
    ensures refused { MismatchedUnless (all_fit columns.now key.now names.now rows) result }
{
    if names.is_empty() {
        whole_rows(columns, key, rows)
    } else {
        listed_rows(alloc, columns, key, names, rows.items())
    }
}

/// The rows as they are, where each gives all columns.
fn whole_rows(columns: &[Column], key: &[usize], rows: ValueRows) -> Result<ValueRows, Fault>
    ensures fit { IfOk result (λ _. list_all (row_fills columns.now key.now []) rows ≡ true) }
    ensures rows { IfOk result (λ same. same ≡ rows) }
    ensures mismatch { IfErr result (λ fault. fault ≡ TypeMismatch) }
    ensures refused { IfErr result (λ _. list_all (row_fills columns.now key.now []) rows ≡ false) }
{
    for row in rows.items() {
        if row.len() != columns.len() || !fill(columns, key, row.items()) {
            return Err(Fault::TypeMismatch);
        }
    }
    Ok(rows)
}

/// The rows in the order of the columns, where each gives those that are listed.
fn listed_rows(
    alloc: Global,
    columns: &[Column],
    key: &[usize],
    names: &[Name],
    rows: &[ValueRow],
) -> Result<ValueRows, Fault>
    ensures fit { IfOk result
        (λ _. all_listed_fit columns.now key.now names.now rows.now ≡ true) }
    ensures rows { IfOk result (λ arranged. arranged ≡ all_listed columns.now names.now rows.now) }
    ensures refused { MismatchedUnless
        (all_listed_fit columns.now key.now names.now rows.now) result }
{
    if !each_once(columns, names) {
        return Err(Fault::TypeMismatch);
    }
    let places = places_in(alloc, names, columns)?;
    let mut arranged = ValueRows::new(alloc);
    for row in rows {
        if row.len() != names.len() {
            return Err(Fault::TypeMismatch);
        }
        let values = values_at(alloc, row.items(), places.items())?;
        if !fill(columns, key, values.items()) {
            return Err(Fault::TypeMismatch);
        }
        arranged.push(values)?;
    }
    Ok(arranged)
}

/// Whether each column is listed exactly once.
fn each_once(columns: &[Column], names: &[Name]) -> bool
    ensures { result ≡ each_once columns.now names.now }
{
    for column in columns {
        if times(names, &column.name) != 1 {
            return false;
        }
    }
    true
}

/// Where each column is listed, in the order of the columns.
fn places_in(alloc: Global, names: &[Name], columns: &[Column]) -> Result<Places, OutOfMemory>
    ensures { IfOk result (λ places. places ≡ places_in names.now columns.now) }
{
    let mut places = Places::new(alloc);
    for column in columns {
        places.push(listed_at(names, &column.name))?;
    }
    Ok(places)
}

/// Where a column is listed that is known to be.
fn listed_at(names: &[Name], name: &Name) -> usize
    ensures { result ≡ listed_at names.now name.now }
{
    match place_named(names, name) {
        Some(place) => place,
        None => 0,
    }
}

/// The values of a row at places.
fn values_at(alloc: Global, row: &[Value], places: &[usize]) -> Result<ValueRow, OutOfMemory>
    ensures { IfOk result (λ values. values ≡ values_at row.now places.now) }
{
    let mut values = ValueRow::new(alloc);
    for place in places {
        values.push(value_at(alloc, row, *place)?)?;
    }
    Ok(values)
}

/// The value at a place.
fn value_at(alloc: Global, row: &[Value], place: usize) -> Result<Value, OutOfMemory>
    ensures { IfOk result (λ value. value ≡ value_at row.now place) }
{
    match row.get(place) {
        Some(value) => value.share(),
        None => Ok(Value::Int(0)),
    }
}

/// Whether the values fill a row: each column takes its one, and none of the key is NULL.
fn fill(columns: &[Column], key: &[usize], values: &[Value]) -> bool
    ensures { result ≡ fill columns.now key.now values.now }
{
    values_fit(columns, values) && are_given(values, key)
}

/// Whether there is a value for each column, which takes it. Takes no memory; in time the number of values.
#[tactic(auto, using(crate::proofs::Listed::no_columns))]
pub fn values_fit(columns: &[Column], values: &[Value]) -> bool
    ensures { result ≡ values_fit (kinds_of columns.now) values.now }
{
    match columns {
        [] => values.is_empty(),
        [column, rest @ ..] => match values {
            [] => false,
            [value, others @ ..] => { takes(column.kind, value.kind()) && values_fit(rest, others) }
        },
    }
}
