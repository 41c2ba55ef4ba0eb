// Ranges of keys that a condition gives.
ghost use Rattle.std.specs.Prelude.{◌≡◌, ◌+◌, ◌≤◌, ◌<◌, ◌&&◌, ◌∷◌, ◌++◌, [], List, IfOk, drop, length, get_or, not};
ghost use Rattle.std.specs.Option.{option_copied, option_map};
ghost use Rattle.std.specs.Ordering.{is_eq};
ghost use Rattle.ifdb_value.specs.declared.value.Value.{Value as AnyValue};
ghost use Rattle.ifdb_value.specs.declared.value.Value.TheVariants as value;
ghost use Rattle.ifdb_row.specs.Fronts.{front_cmp};
ghost use Rattle.ifdb_value.specs.Value.{value_cmp};
ghost use Rattle.ifdb_row.specs.Ranges.{is_before, lies_in};
ghost use Rattle.ifdb_plan.specs.Tests.{conds_of, parts_of};
ghost use Rattle.ifdb_plan.specs.Ranges.{HasRange, bound_by, bound_in, bound_is, cut_of, fixed_by, fixed_value, is_before_high, is_behind_low, is_short};
ghost use Rattle.ifdb_plan.specs.Ranges.{is_between, lies_between, lies_within, meets, stands_behind, turned};

use crate::OutOfMemory;
use crate::source_key::is_column;
use crate::test::{Test, tests};
use ifdb_bound::{BoundColumn, BoundCond, BoundOperand};
use ifdb_row::{Cut, Key, KeyRange, Side};
use ifdb_value::{Compare, Value};
use std::alloc::Global;
use std::cmp::Ordering;

/// A comparison of a column with a literal, the column on the left.
#[derive(Clone, Copy)]
struct Limit<'c> {
    how: Compare,
    value: &'c Value,
}

/// A place among the values of a column: before or behind a value.
#[derive(Clone, Copy)]
struct End<'c> {
    value: &'c Value,
    side: Side,
}

/// What bounds leave of a column's values.
#[derive(Clone, Copy)]
struct Ends<'c> {
    low: Option<End<'c>>,
    high: Option<End<'c>>,
}

/// The range of a source's keys in which comparisons with literals leave its rows: the values of the first columns that an
/// equality gives, and between the narrowest bounds of the next one. `place` is the source's, `key` the places of its key's
/// columns.
pub fn key_range(
    alloc: Global,
    tests: &[Test<'_>],
    place: usize,
    key: &[usize],
) -> Result<KeyRange, OutOfMemory>
    ensures { IfOk result (λ range. (values : List AnyValue) → length key.now ≤ length values
        → lies_in range values ≡ meets (conds_of tests.now) place key.now values) }
{
    range_behind(alloc, tests, place, key, Key::new(alloc))
}

/// The same range, of a condition over its source alone. Each row for which the condition holds has its key there.
pub fn cond_range(
    alloc: Global,
    cond: &Option<BoundCond>,
    key: &[usize],
) -> Result<KeyRange, OutOfMemory>
    ensures has { IfOk result (HasRange cond.now key.now) }
    ensures exact { IfOk result (λ range. (values : List AnyValue) → length key.now ≤ length values
        → lies_in range values ≡ meets (parts_of cond.now) 0 key.now values) }
{
    let tests = tests(alloc, cond)?;
    key_range(alloc, &tests, 0, key)
}

/// The range of the keys that begin with some values and whose others lie in the range of the other columns.
fn range_behind(
    alloc: Global,
    tests: &[Test<'_>],
    place: usize,
    key: &[usize],
    front: Key,
) -> Result<KeyRange, OutOfMemory>
    ensures { IfOk result (λ range. (values : List AnyValue)
        → length front + length key.now ≤ length values
        → lies_in range values ≡ (is_eq (front_cmp values front)
        && meets (conds_of tests.now) place key.now (drop (length front) values))) }
{
    let [column, others @ ..] = key else {
        return all_behind(alloc, &front);
    };
    let column = BoundColumn {
        source: place,
        column: *column,
    };
    match fixed_value(tests, column) {
        Some(value) => {
            let front = with_value(alloc, &front, value)?;
            range_behind(alloc, tests, place, others, front)
        }
        None => between(alloc, &front, &ends_of(tests, column)),
    }
}

/// The range of the keys that begin with some values.
fn all_behind(alloc: Global, front: &Key) -> Result<KeyRange, OutOfMemory>
    ensures { IfOk result (λ range. (values : List AnyValue)
        → lies_in range values ≡ is_eq (front_cmp values front.now)) }
{
    Ok(KeyRange {
        low: Cut {
            values: copied(alloc, front)?,
            side: Side::Before,
        },
        high: Cut {
            values: copied(alloc, front)?,
            side: Side::Behind,
        },
    })
}

/// The range of the keys that begin with some values and whose next value lies between two ends.
fn between(alloc: Global, front: &Key, ends: &Ends<'_>) -> Result<KeyRange, OutOfMemory>
    ensures { IfOk result (λ range. (values : List AnyValue) → length front.now < length values
        → lies_in range values ≡ (is_eq (front_cmp values front.now)
        && is_between ends.now (get_or values (length front.now) value.Null))) }
{
    Ok(KeyRange {
        low: cut_at(alloc, front, ends.low, Side::Before)?,
        high: cut_at(alloc, front, ends.high, Side::Behind)?,
    })
}

/// The cut at an end of what is left behind some values, or at the open side of them.
fn cut_at(alloc: Global, front: &Key, end: Option<End<'_>>, outer: Side) -> Result<Cut, OutOfMemory>
    ensures { IfOk result (λ cut. cut ≡ cut_of front.now end.entry outer) }
{
    match end {
        None => Ok(Cut {
            values: copied(alloc, front)?,
            side: outer,
        }),
        Some(end) => Ok(Cut {
            values: with_value(alloc, front, end.value)?,
            side: end.side,
        }),
    }
}

/// Some values and one more.
fn with_value(alloc: Global, front: &Key, value: &Value) -> Result<Key, OutOfMemory>
    ensures { IfOk result (λ values. values ≡ front.now ++ value.now ∷ []) }
{
    let mut values = copied(alloc, front)?;
    values.push(value.share()?)?;
    Ok(values)
}

/// The same values.
fn copied(alloc: Global, front: &Key) -> Result<Key, OutOfMemory>
    ensures { IfOk result (λ values. values ≡ front.now) }
{
    front.copy_by(alloc, |value| value.share())
}

/// The value that the first test leaves a column which leaves it one.
fn fixed_value<'c>(tests: &[Test<'c>], column: BoundColumn) -> Option<&'c Value>
    ensures { option_copied result ≡ fixed_value column (conds_of tests.now) }
{
    for test in tests {
        if let Some(value) = fixed_by(limit_in(test.cond, column)) {
            return Some(value);
        }
    }
    None
}

/// The one value that a limit leaves, if it leaves one.
fn fixed_by<'c>(limit: Option<Limit<'c>>) -> Option<&'c Value>
    ensures { option_copied result ≡ fixed_by (option_map bound_is limit.entry) }
{
    match limit {
        Some(
            Limit {
                how: Compare::Equal,
                value,
            },
        ) => Some(value),
        _ => None,
    }
}

/// What the tests' bounds leave of a column's values.
fn ends_of<'c>(tests: &[Test<'c>], column: BoundColumn) -> Ends<'c>
    ensures { (v : AnyValue) → is_between result v ≡ lies_between column (conds_of tests.now) v }
{
    let mut ends = Ends {
        low: None,
        high: None,
    };
    for test in tests {
        ends = within(ends, limit_in(test.cond, column));
    }
    ends
}

/// What ends and a limit leave.
fn within<'c>(ends: Ends<'c>, limit: Option<Limit<'c>>) -> Ends<'c>
    ensures { (v : AnyValue) → is_between result v
        ≡ (is_between ends.entry v && lies_within v (option_map bound_is limit.entry)) }
{
    let Some(Limit { how, value }) = limit else {
        return ends;
    };
    match how {
        Compare::Equal | Compare::NotEqual => ends,
        Compare::Less => below(ends, value, Side::Before),
        Compare::AtMost => below(ends, value, Side::Behind),
        Compare::Greater => above(ends, value, Side::Behind),
        Compare::AtLeast => above(ends, value, Side::Before),
    }
}

/// What ends leave below one more.
fn below<'c>(ends: Ends<'c>, value: &'c Value, side: Side) -> Ends<'c>
    ensures { (v : AnyValue) → is_between result v
        ≡ (is_between ends.entry v && is_before side (value_cmp v value.now)) }
{
    Ends {
        low: ends.low,
        high: Some(lower(ends.high, End { value, side })),
    }
}

/// What ends leave above one more.
fn above<'c>(ends: Ends<'c>, value: &'c Value, side: Side) -> Ends<'c>
    ensures { (v : AnyValue) → is_between result v
        ≡ (is_between ends.entry v && not (is_before side (value_cmp v value.now))) }
{
    Ends {
        low: Some(higher(ends.low, End { value, side })),
        high: ends.high,
    }
}

/// The lower of two ends.
#[tactic(auto, using(crate::proofs::Ranging::both_short, crate::proofs::Ranging::both_short_behind))]
fn lower<'c>(high: Option<End<'c>>, end: End<'c>) -> End<'c>
    ensures { (v : AnyValue) → is_short result v ≡ (is_before_high high.entry v && is_short end.entry v) }
{
    let Some(high) = high else {
        return end;
    };
    if stands_behind(high, end) {
        return end;
    }
    high
}

/// The higher of two ends.
#[tactic(auto, using(crate::proofs::Ranging::both_past, crate::proofs::Ranging::both_past_behind))]
fn higher<'c>(low: Option<End<'c>>, end: End<'c>) -> End<'c>
    ensures { (v : AnyValue) → not (is_short result v)
        ≡ (is_behind_low low.entry v && not (is_short end.entry v)) }
{
    let Some(low) = low else {
        return end;
    };
    if stands_behind(low, end) {
        return low;
    }
    end
}

/// Whether an end stands behind another.
fn stands_behind(end: End<'_>, other: End<'_>) -> bool
    ensures { result ≡ stands_behind end.entry other.entry }
{
    match end.value.compare(other.value) {
        Ordering::Less => false,
        Ordering::Equal => matches!((end.side, other.side), (Side::Behind, Side::Before)),
        Ordering::Greater => true,
    }
}

/// How a condition bounds a column, if it does.
fn limit_in<'c>(cond: &'c BoundCond, column: BoundColumn) -> Option<Limit<'c>>
    ensures { option_map bound_is result ≡ bound_in column cond.now }
{
    match cond {
        BoundCond::Compare { left, how, right } => {
            if is_column(left, column) {
                limit_by(*how, right)
            } else if is_column(right, column) {
                limit_by(turned(*how), left)
            } else {
                None
            }
        }
        BoundCond::IsNull { .. } | BoundCond::Or(_) | BoundCond::And(_) | BoundCond::Not(_) => None,
    }
}

/// A literal as a limit of what it is compared with.
fn limit_by<'c>(how: Compare, operand: &'c BoundOperand) -> Option<Limit<'c>>
    ensures { option_map bound_is result ≡ bound_by how operand.now }
{
    match operand {
        BoundOperand::Literal(value) => Some(Limit { how, value }),
        BoundOperand::Column(_) => None,
    }
}

/// A comparison from its other side.
fn turned(how: Compare) -> Compare
    ensures { result ≡ turned how }
{
    match how {
        Compare::Equal => Compare::Equal,
        Compare::NotEqual => Compare::NotEqual,
        Compare::Less => Compare::Greater,
        Compare::AtMost => Compare::AtLeast,
        Compare::Greater => Compare::Less,
        Compare::AtLeast => Compare::AtMost,
    }
}
