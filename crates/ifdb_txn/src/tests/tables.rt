//! The tables `note (id, number)`, `visit (id, note)` and `pair (id, note)`, each keyed by id. A pair's id is also a visit's.
ghost use Rattle.std.specs.Prelude.{◌≡◌, ◌∷◌, [], IfOk, length};
ghost use Rattle.ifdb_bound.specs.Kinds.{takes};
ghost use Rattle.ifdb_catalog.specs.Scope.{kinds_of};
ghost use Rattle.ifdb_catalog.specs.Statements.{values_fit};

use super::rows::Which;
use ifdb_bound::{Foreign, Foreigns, Places, Schema};
use ifdb_row::OutOfMemory;
use ifdb_value::{Column, Columns, Name, TableId, TermKind, Value, ValueKind};
use std::alloc::Global;
use std::test::Fail;

/// A table.
pub(super) fn schema_of(alloc: Global, which: Which) -> Result<Schema, Fail> {
    match which {
        Which::Note => note_of(alloc),
        Which::Visit => visit_of(alloc),
        Which::Pair => pair_of(alloc),
    }
}

/// The table of notes.
pub(super) fn note_of(alloc: Global) -> Result<Schema, Fail>
    ensures { IfOk result (λ s. (length s.columns ≡ 2) × (s.key ≡ 0 ∷ []) × (s.foreign ≡ [])) }
{
    table_with(alloc, Foreigns::new(alloc))
}

/// The table of visits.
fn visit_of(alloc: Global) -> Result<Schema, Fail> {
    table_with(alloc, Foreigns::single(alloc, foreign_of(alloc, 1, 0)?)?)
}

/// The table of pairs.
fn pair_of(alloc: Global) -> Result<Schema, Fail> {
    table_with(alloc, both_foreign(alloc)?)
}

/// A note, and a visit of the row's own id.
fn both_foreign(alloc: Global) -> Result<Foreigns, OutOfMemory> {
    let mut both = Foreigns::single(alloc, foreign_of(alloc, 1, 0)?)?;
    both.push(foreign_of(alloc, 0, 1)?)?;
    Ok(both)
}

/// A reference of a column to a table.
fn foreign_of(alloc: Global, column: usize, parent: u64) -> Result<Foreign, OutOfMemory> {
    Ok(Foreign {
        columns: Places::single(alloc, column)?,
        parent: TableId(parent),
    })
}

/// A table of an id and a number, with references of the number.
fn table_with(alloc: Global, foreign: Foreigns) -> Result<Schema, Fail>
    ensures { IfOk result (λ s. (length s.columns ≡ 2) × (s.key ≡ 0 ∷ []) × (s.foreign ≡ foreign)) }
{
    Ok(Schema {
        name: name_of(alloc, "note")?,
        columns: two_columns(alloc)?,
        key: Places::single(alloc, 0)?,
        foreign,
    })
}

/// The columns of an id and a number.
fn two_columns(alloc: Global) -> Result<Columns, Fail>
    ensures { IfOk result (λ columns. length columns ≡ 2) }
{
    let mut columns = Columns::single(alloc, column_of(alloc, "id")?)?;
    columns.push(column_of(alloc, "number")?)?;
    Ok(columns)
}

/// A column of numbers.
fn column_of(alloc: Global, name: &str) -> Result<Column, Fail> {
    Ok(Column {
        name: name_of(alloc, name)?,
        kind: ValueKind::Int,
    })
}

/// A name.
fn name_of(alloc: Global, name: &str) -> Result<Name, Fail> {
    match Name::read(alloc, name) {
        Ok(name) => Ok(name),
        Err(_) => Err(Fail::from("a name")),
    }
}

/// Whether there is a value for each column, which takes it.
pub(super) fn are_of_kinds(columns: &[Column], values: &[Value]) -> bool
    ensures { result ≡ values_fit (kinds_of columns.now) values.now }
{
    match columns {
        [] => match values {
            [] => true,
            [_, ..] => false,
        },
        [column, columns @ ..] => match values {
            [] => false,
            [value, values @ ..] => {
                takes(column.kind, value.kind()) && are_of_kinds(columns, values)
            }
        },
    }
}

/// Whether a column of a kind takes what stands for these kinds.
fn takes(kind: ValueKind, term: TermKind) -> bool
    ensures { result ≡ takes kind term }
{
    match (kind, term) {
        (_, TermKind::Any) => true,
        (ValueKind::Int, TermKind::Of(ValueKind::Int)) => true,
        (ValueKind::Text, TermKind::Of(ValueKind::Text)) => true,
        _ => false,
    }
}
