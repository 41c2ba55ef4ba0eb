//! Statements, and what they give over the rows.
ghost use Rattle.std.specs.Prelude.{◌≡◌, IsTrue, length};
ghost use Rattle.ifdb_label.specs.Tags.{AreMade};
ghost use Rattle.ifdb_foreign.specs.Parents.{IsMade};
ghost use Rattle.ifdb_txn.specs.Keyed.{are_keyed};

use super::rows::{At, Which, all_rows, label_of, table_of, values_of};
use super::tables::schema_of;
use crate::statement::{delete_matched, insert_counted, update_matched};
use crate::target::Target;
use crate::written::Written;
use ifdb_bound::{
    BoundAssignment, BoundAssignments, BoundColumn, BoundCond, BoundExpr, BoundOperand,
};
use ifdb_foreign::Standpoint;
use ifdb_label::Tags;
use ifdb_plan::are_keyed;
use ifdb_row::{ListRows, OutOfMemory};
use ifdb_value::{Box, Compare, Value, ValueRows};
use ifdb_wire::Fault;
use std::alloc::Global;
use std::process::Abort;
use std::test::Fail;

/// A condition.
#[derive(Clone, Copy)]
pub(super) enum Where {
    All,
    Id(i64),
    Number(i64),
    NumberAbove(i64),
}

/// What a statement does.
#[derive(Clone, Copy)]
pub(super) enum Does<'a> {
    Insert(&'a [(i64, i64)]),
    /// Inserts a row with NULL for its number.
    InsertNull(i64),
    /// Sets the number.
    Set(i64, Where),
    /// Sets the number to NULL.
    Clear(Where),
    /// Adds to the number.
    Add(i64, Where),
    /// Sets each row's number to what it is.
    Keep(Where),
    Delete(Where),
}

/// What a statement of a table gives at a label, with another that is declassified.
pub(super) fn came_of(
    rt: &impl Abort,
    alloc: Global,
    tags: &Tags,
    asked: (Which, At, At),
    does: Does<'_>,
) -> Result<Result<Written, Fault>, Fail>
    requires { length tags.now ≡ 1 }
{
    let (which, at, given) = asked;
    let label = label_of(alloc, tags, at)?;
    let given = label_of(alloc, tags, given)?;
    let from = Standpoint {
        tags,
        label: &label,
        given: &given,
    };
    came_from(rt, alloc, from, which, does)
}

/// What a statement of a table gives from a standpoint.
fn came_from(
    rt: &impl Abort,
    alloc: Global,
    from: Standpoint<'_>,
    which: Which,
    does: Does<'_>,
) -> Result<Result<Written, Fault>, Fail>
    requires tags { length from.tags.now ≡ 1 }
    requires label { AreMade (length from.tags.now) from.label.now }
    requires given { AreMade (length from.tags.now) from.given.now }
{
    let schema = schema_of(alloc, which)?;
    let target = Target {
        alloc,
        from,
        table: table_of(which),
        schema: &schema,
    };
    came_to(rt, &target, does)
}

/// What a statement gives over the rows.
fn came_to(
    rt: &impl Abort,
    target: &Target<'_>,
    does: Does<'_>,
) -> Result<Result<Written, Fault>, Fail>
    requires tags { length target.now.from.tags.now ≡ 1 }
    requires label { AreMade (length target.now.from.tags.now) target.now.from.label.now }
    requires given { AreMade (length target.now.from.tags.now) target.now.from.given.now }
{
    let rows = all_rows(target.alloc, target.from.tags)?;
    assert!(rt; are_keyed(target.table, target.schema.key.items(), &rows));
    let rows = ListRows::try_new(rows).ok_or("rows that rise")?;
    Ok(did(target, &rows, does)?)
}

/// What a statement gives.
fn did(
    target: &Target<'_>,
    rows: &ListRows,
    does: Does<'_>,
) -> Result<Result<Written, Fault>, OutOfMemory>
    requires made { IsMade target.now.from rows.now }
    requires keyed { IsTrue (are_keyed target.now.table target.now.schema.now.key rows.now) }
{
    match does {
        Does::Insert(given) => inserted(target, rows, all_values(target.alloc, given)?),
        Does::InsertNull(id) => inserted(
            target,
            rows,
            ValueRows::single(target.alloc, values_of(target.alloc, id, Value::Null)?)?,
        ),
        Does::Set(number, cond) => updated(target, rows, literal(number), cond),
        Does::Clear(cond) => updated(target, rows, BoundExpr::Literal(Value::Null), cond),
        Does::Add(number, cond) => updated(target, rows, sum_with(target.alloc, number)?, cond),
        Does::Keep(cond) => updated(target, rows, BoundExpr::Column(number_column()), cond),
        Does::Delete(cond) => Ok(deleted(target, rows, cond)),
    }
}

/// What an INSERT gives.
fn inserted(
    target: &Target<'_>,
    rows: &ListRows,
    values: ValueRows,
) -> Result<Result<Written, Fault>, OutOfMemory>
    requires { IsMade target.now.from rows.now }
{
    Ok(insert_counted(target, rows, values.items()))
}

/// What an UPDATE of the number gives.
fn updated(
    target: &Target<'_>,
    rows: &ListRows,
    expr: BoundExpr,
    cond: Where,
) -> Result<Result<Written, Fault>, OutOfMemory>
    requires made { IsMade target.now.from rows.now }
    requires keyed { IsTrue (are_keyed target.now.table target.now.schema.now.key rows.now) }
{
    let assignment = BoundAssignment { column: 1, expr };
    let assignments = BoundAssignments::single(target.alloc, assignment)?;
    let cond = cond_of(cond);
    let written = update_matched(target, rows, assignments.items(), &cond);
    drop(cond);
    Ok(written)
}

/// What a DELETE gives.
fn deleted(target: &Target<'_>, rows: &ListRows, cond: Where) -> Result<Written, Fault>
    requires made { IsMade target.now.from rows.now }
    requires keyed { IsTrue (are_keyed target.now.table target.now.schema.now.key rows.now) }
{
    let cond = cond_of(cond);
    let written = delete_matched(target, rows, &cond);
    drop(cond);
    written
}

/// A number.
fn literal(number: i64) -> BoundExpr {
    BoundExpr::Literal(Value::Int(number))
}

/// The number of a row, and another added to it.
fn sum_with(alloc: Global, number: i64) -> Result<BoundExpr, OutOfMemory> {
    let left = Box::new(alloc, BoundExpr::Column(number_column()))?;
    let right = Box::new(alloc, literal(number))?;
    Ok(BoundExpr::Add(left, right))
}

/// The place of the number.
fn number_column() -> BoundColumn {
    BoundColumn {
        source: 0,
        column: 1,
    }
}

/// A condition.
fn cond_of(cond: Where) -> Option<BoundCond> {
    match cond {
        Where::All => None,
        Where::Id(id) => Some(compared(0, Compare::Equal, id)),
        Where::Number(number) => Some(compared(1, Compare::Equal, number)),
        Where::NumberAbove(number) => Some(compared(1, Compare::Greater, number)),
    }
}

/// A comparison of a column with a number.
fn compared(column: usize, how: Compare, number: i64) -> BoundCond {
    BoundCond::Compare {
        left: BoundOperand::Column(BoundColumn { source: 0, column }),
        how,
        right: BoundOperand::Literal(Value::Int(number)),
    }
}

/// The values of rows.
fn all_values(alloc: Global, given: &[(i64, i64)]) -> Result<ValueRows, OutOfMemory> {
    let mut rows = ValueRows::new(alloc);
    for (id, number) in given {
        rows.push(values_of(alloc, *id, Value::Int(*number))?)?;
    }
    Ok(rows)
}
