// Rows by reference.
ghost use Rattle.std.specs.Prelude.{◌≡◌};
ghost use Rattle.ifdb_bound.specs.Expressions.{value_at};
ghost use Rattle.ifdb_row.specs.ByReference.{row_of};
ghost use Rattle.ifdb_value.specs.Value.{value_cmp};
ghost use Rattle.ifdb_expr.specs.View.{source_row};
ghost use Rattle.ifdb_expr.specs.ByReference.{owned, shown};

use crate::value_ref::ValueRef;
use ifdb_label::Tag;
use ifdb_row::RowRef;
use ifdb_value::Value;
use std::cmp::Ordering;

/// A row as a source shows it: its values and its label, by reference.
#[derive(Clone, Copy)]
pub struct SeenRow<'a> {
    /// The row's values.
    pub values: &'a [Value],
    /// The row's label.
    pub label: &'a [Tag],
}

impl<'a> SeenRow<'a> {
    /// A row of a table.
    pub fn of(row: RowRef<'a>) -> Self
        ensures { shown result ≡ source_row (row_of row.entry) }
    {
        SeenRow {
            values: row.values,
            label: row.slot.label.tags(),
        }
    }
}

/// The value at a place; 0 where there is none.
pub fn value_in(values: &[Value], place: usize) -> ValueRef<'_>
    ensures { owned result ≡ value_at values.now place }
{
    if place < values.len() {
        ValueRef::of(&values[place])
    } else {
        ValueRef::Int(0)
    }
}

/// The order of two rows by their values at a place, where 0 stands for one that isn't there.
pub fn compare_at(place: usize, a: &[Value], b: &[Value]) -> Ordering
    ensures { result ≡ value_cmp (value_at a.now place) (value_at b.now place) }
{
    match (a.get(place), b.get(place)) {
        (Some(Value::Int(a)), Some(Value::Int(b))) => a.cmp(b),
        _ => value_in(a, place).compare(value_in(b, place)),
    }
}
