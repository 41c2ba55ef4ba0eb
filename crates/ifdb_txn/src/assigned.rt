// The values that an UPDATE assigns.
ghost use Rattle.std.specs.Prelude.{◌≡◌, ◌∷◌, [], IfOk, nat_eq, slice_set};
ghost use Rattle.std.specs.List.{list_any};
ghost use Rattle.ifdb_bound.specs.Expressions.{value_of};
ghost use Rattle.ifdb_model.specs.Writes.{assigned, is_assigned};
ghost use Rattle.ifdb_txn.specs.Answers.{IsComputed};

use crate::OutOfMemory;
use ifdb_bound::{BoundAssignment, BoundExpr, Foreign};
use ifdb_expr::{Frame, SeenRow, value};
use ifdb_row::Values;
use ifdb_value::Value;
use ifdb_wire::Fault;
use std::alloc::Global;

/// A row's new values, each computed from the old ones. `OutOfRange` exactly where one isn't an `i64`.
#[tactic(auto, using(crate::proofs::Assigning::assigned_on))]
pub(crate) fn assigned(
    alloc: Global,
    old: &[Value],
    assignments: &[BoundAssignment],
) -> Result<Values, Fault>
    ensures { IsComputed (assigned old.now assignments.now) result }
{
    let mut values = copied(alloc, old)?.into_vec();
    for assignment in assignments {
        match computed(alloc, old, &assignment.expr) {
            Ok(value) => set_value(&mut values, assignment.column, value),
            Err(fault) => return Err(fault),
        }
    }
    Ok(Values::from_vec(values))
}

/// What an expression gives on one row.
fn computed(alloc: Global, old: &[Value], expr: &BoundExpr) -> Result<Value, Fault>
    ensures { IsComputed (value_of (old.now ∷ []) expr.now) result }
{
    let row = SeenRow {
        values: old,
        label: &[],
    };
    match value(expr, &Frame::empty().with(row)) {
        Some(found) => {
            let copy = found.to_value(alloc)?;
            Ok(copy)
        }
        None => Err(Fault::OutOfRange),
    }
}

/// Sets the value at a place, if it is there.
fn set_value(values: &mut Vec<Value>, place: usize, value: Value)
    ensures { values.new.items ≡ slice_set values.old.items place value }
{
    if place < values.len() {
        values[place] = value;
    }
}

/// The same values.
pub(crate) fn copied(alloc: Global, values: &[Value]) -> Result<Values, OutOfMemory>
    ensures { IfOk result (λ copy. copy ≡ values.now) }
{
    let mut copies = Values::with_capacity(alloc, values.len())?;
    for value in values {
        copies.push(value.share()?)?;
    }
    Ok(copies)
}

/// Whether a column of the foreign key is assigned.
pub(crate) fn is_assigned(assignments: &[BoundAssignment], foreign: &Foreign) -> bool
    ensures { result ≡ is_assigned assignments.now foreign.now }
{
    for column in foreign.columns.items() {
        if assigns(assignments, *column) {
            return true;
        }
    }
    false
}

/// Whether a column is assigned.
fn assigns(assignments: &[BoundAssignment], column: usize) -> bool
    ensures { result ≡ list_any (λ a. nat_eq a.column column) assignments.now }
{
    for assignment in assignments {
        if assignment.column == column {
            return true;
        }
    }
    false
}
