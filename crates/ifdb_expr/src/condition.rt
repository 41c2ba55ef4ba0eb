// Whether conditions hold.
ghost use Rattle.std.specs.Prelude.{◌≡◌, true};
ghost use Rattle.std.specs.List.{list_all, list_any};
ghost use Rattle.ifdb_value.specs.declared.value.Value.TheVariants as value;
ghost use Rattle.ifdb_bound.specs.Query.{values_of};
ghost use Rattle.ifdb_bound.specs.Truth.{comes_to};
ghost use Rattle.ifdb_bound.specs.Expressions.{column_value};
ghost use Rattle.ifdb_bound.specs.Conditions.{truth, holds, compares, compared, null_test, operand_value};
ghost use Rattle.ifdb_expr.specs.ByReference.{owned};

use crate::frame::Frame;
use crate::value_ref::ValueRef;
use ifdb_bound::{BoundColumn, BoundCond, BoundOperand};
use ifdb_value::{Compare, Value};
use std::cmp::Ordering;

/// Whether a condition is True of the rows. Takes no memory. A column beside a literal, which most conditions of a pass are, is
/// compared without the walk over a tree that other conditions take.
#[tactic(auto, using(crate::proofs::Deciding::holds_is, crate::proofs::Deciding::compare_holds))]
pub fn holds(cond: &BoundCond, frame: &Frame<'_>) -> bool
    ensures { result ≡ holds (values_of frame.now) cond.now }
{
    match cond {
        BoundCond::Compare { left, how, right } => operands_compare(left, *how, right, frame),
        _ => comes_to(cond, true, frame),
    }
}

/// Whether two operands compare so; NULL compares with nothing.
fn operands_compare(
    left: &BoundOperand,
    how: Compare,
    right: &BoundOperand,
    frame: &Frame<'_>,
) -> bool
    ensures { result ≡ comes_to true (compared how (operand_value (values_of frame.now) left.now)
        (operand_value (values_of frame.now) right.now)) }
{
    match (left, right) {
        (BoundOperand::Column(column), BoundOperand::Literal(value)) => {
            column_compares(*column, how, value, frame)
        }
        _ => compare_comes_to(left, how, right, true, frame),
    }
}

/// Whether the value of a column and another one compare so; NULL compares with nothing.
fn column_compares(column: BoundColumn, how: Compare, value: &Value, frame: &Frame<'_>) -> bool
    ensures { result
        ≡ comes_to true (compared how (column_value (values_of frame.now) column) value.now) }
{
    match (frame.column(column), value) {
        (ValueRef::Int(left), Value::Int(right)) => numbers_compare(how, left, *right),
        (ValueRef::Null, _) | (_, Value::Null) => false,
        (left, right) => compares(how, left, ValueRef::of(right)),
    }
}

/// Whether a condition is True of the rows, or, where False is wanted, False. What is unknown is neither, so NOT asks for
/// the other of the two.
#[cycle(holds)]
#[tactic(auto, using(ifdb_bound::proofs::Meanings::truths))]
fn comes_to(cond: &BoundCond, wanted: bool, frame: &Frame<'_>) -> bool
    ensures { result ≡ comes_to wanted (truth (values_of frame.now) cond.now) }
{
    match cond {
        BoundCond::Or(members) => {
            if wanted {
                some_come_to(members.items(), wanted, frame)
            } else {
                all_come_to(members.items(), wanted, frame)
            }
        }
        BoundCond::And(members) => {
            if wanted {
                all_come_to(members.items(), wanted, frame)
            } else {
                some_come_to(members.items(), wanted, frame)
            }
        }
        BoundCond::Not(inner) => comes_to(inner.get(), !wanted, frame),
        BoundCond::Compare { left, how, right } => {
            compare_comes_to(left, *how, right, wanted, frame)
        }
        BoundCond::IsNull {
            operand: tested,
            negated,
        } => { null_test_comes_to(tested, *negated, wanted, frame) }
    }
}

/// Whether some condition of a list comes to what is wanted.
#[cycle(holds)]
fn some_come_to(conds: &[BoundCond], wanted: bool, frame: &Frame<'_>) -> bool
    ensures { result
        ≡ list_any (λ cond. comes_to wanted (truth (values_of frame.now) cond)) conds.now }
{
    for cond in conds {
        if comes_to(cond, wanted, frame) {
            return true;
        }
    }
    false
}

/// Whether each condition of a list comes to what is wanted.
#[cycle(holds)]
fn all_come_to(conds: &[BoundCond], wanted: bool, frame: &Frame<'_>) -> bool
    ensures { result
        ≡ list_all (λ cond. comes_to wanted (truth (values_of frame.now) cond)) conds.now }
{
    for cond in conds {
        if !comes_to(cond, wanted, frame) {
            return false;
        }
    }
    true
}

/// Whether a comparison comes to what is wanted; with NULL it comes to neither.
fn compare_comes_to(
    left: &BoundOperand,
    how: Compare,
    right: &BoundOperand,
    wanted: bool,
    frame: &Frame<'_>,
) -> bool
    ensures { result ≡ comes_to wanted (compared how (operand_value (values_of frame.now) left.now)
        (operand_value (values_of frame.now) right.now)) }
{
    match (operand(left, frame), operand(right, frame)) {
        (ValueRef::Int(left), ValueRef::Int(right)) => numbers_compare(how, left, right) == wanted,
        (ValueRef::Null, _) | (_, ValueRef::Null) => false,
        (left, right) => compares(how, left, right) == wanted,
    }
}

/// Whether IS NULL, or IS NOT NULL where it is negated, comes to what is wanted.
fn null_test_comes_to(tested: &BoundOperand, negated: bool, wanted: bool, frame: &Frame<'_>) -> bool
    ensures { result ≡ comes_to wanted (null_test negated (operand_value (values_of frame.now) tested.now)) }
{
    (operand(tested, frame).is_null() != negated) == wanted
}

/// The value of an operand.
pub fn operand<'a>(operand: &'a BoundOperand, frame: &Frame<'a>) -> ValueRef<'a>
    ensures { owned result ≡ operand_value (values_of frame.now) operand.now }
{
    match operand {
        BoundOperand::Column(column) => frame.column(*column),
        BoundOperand::Literal(value) => ValueRef::of(value),
    }
}

/// Whether two numbers compare so.
fn numbers_compare(how: Compare, left: i64, right: i64) -> bool
    ensures { result ≡ compares how (value.Int left) (value.Int right) }
{
    match how {
        Compare::Equal => left == right,
        Compare::NotEqual => left != right,
        Compare::Less => left < right,
        Compare::AtMost => left <= right,
        Compare::Greater => left > right,
        Compare::AtLeast => left >= right,
    }
}

/// Whether two values compare so. It isn't inlined, so that the code for two numbers stays short.
#[inline(never)]
fn compares(how: Compare, left: ValueRef<'_>, right: ValueRef<'_>) -> bool
    ensures { result ≡ compares how (owned left.entry) (owned right.entry) }
{
    let order = left.compare(right);
    match how {
        Compare::Equal => order.is_eq(),
        Compare::NotEqual => !order.is_eq(),
        Compare::Less => order.is_lt(),
        Compare::AtMost => order.is_le(),
        Compare::Greater => right.compare(left).is_lt(),
        Compare::AtLeast => right.compare(left).is_le(),
    }
}
