//! Items, sums and counts at the ends of the range, in rows that a condition keeps and in rows that it drops.
use self::Asks::{Doubled, Less, More, Total};
use super::requests::{column, equals, select, two_items};
use super::tables::At::{High, Low};
use super::tables::{Answered, At, One, Question, asked, gives};
use ifdb_bound::{BoundCond, BoundExpr, BoundItem, BoundItems, BoundSelect};
use ifdb_exec::Given;
use ifdb_expr::ExprFault;
use ifdb_row::OutOfMemory;
use ifdb_value::{Box, TableId, Value};
use std::alloc::Global;
use std::process::Abort;
use std::test::Fail;

static ROWS: [One; 4] = [
    One(0, [1, i64::MAX, 0], Low),
    One(0, [2, 1, 0], Low),
    One(0, [3, -1, 0], High),
    One(0, [4, i64::MIN, 0], High),
];

/// Items over the rows.
#[derive(Clone, Copy)]
enum Asks {
    /// The number and 1.
    More,
    /// The number less 1.
    Less,
    /// Twice the number.
    Doubled,
    /// How many rows there are, and the sum of their numbers.
    Total,
}

/// Items, the key that is asked for or 0 for all, the label, and the numbers that are answered, if they are in range.
struct Case(Asks, i64, At, Option<&'static [i64]>);

static CASES: [Case; 14] = [
    // An item counts only where the condition keeps the row.
    Case(More, 2, Low, Some(&[2])),
    Case(More, 4, High, Some(&[i64::MIN + 1])),
    Case(More, 1, Low, None),
    Case(More, 0, Low, None),
    Case(Less, 1, Low, Some(&[i64::MAX - 1])),
    Case(Less, 0, Low, Some(&[i64::MAX - 1, 0])),
    Case(Less, 4, High, None),
    Case(Less, 4, Low, Some(&[])),
    Case(Doubled, 3, High, Some(&[-2])),
    Case(Doubled, 1, Low, None),
    // A sum is of the rows that are kept, and is judged at its end.
    Case(Total, 2, Low, Some(&[1, 1])),
    // That of no row is NULL, which is read as -1.
    Case(Total, 4, Low, Some(&[0, -1])),
    Case(Total, 0, Low, None),
    Case(Total, 0, High, Some(&[4, -1])),
];

#[test]
fn numbers_are_in_range_or_refused(rt: HostRuntime) -> Result<(), Fail> {
    for (place, case) in CASES.iter().enumerate() {
        comes(&rt, rt.alloc(), place, case)?;
    }
    Ok(())
}

/// Tests what a case answers.
fn comes(rt: &impl Abort, alloc: Global, place: usize, case: &Case) -> Result<(), Fail> {
    let Case(asks, key, at, want) = case;
    let request = request_of(alloc, *asks, *key)?;
    let answered = answered_to(rt, alloc, &request, *at)?;
    match want {
        Some(want) => gives(rt, alloc, place, answered, want),
        None => is_out_of_range(rt, place, &answered),
    }
}

/// Tests that a number is out of range.
fn is_out_of_range(rt: &impl Abort, place: usize, answered: &Answered) -> Result<(), Fail> {
    let is_refused = matches!(answered.rows, Err(ExprFault::OutOfRange));
    assert!(rt; is_refused, "case {place}");
    Ok(())
}

/// What a request answers at a label.
fn answered_to(
    rt: &impl Abort,
    alloc: Global,
    request: &BoundSelect,
    at: At,
) -> Result<Answered, Fail> {
    let question = Question {
        rows: &ROWS,
        given: &[Given::Table(TableId(0))],
        at,
        request,
    };
    asked(rt, alloc, question)
}

/// The items of a key's rows, or of all for 0.
fn request_of(alloc: Global, asks: Asks, key: i64) -> Result<BoundSelect, OutOfMemory> {
    let items = items_of(alloc, asks)?;
    Ok(select(alloc, items, key_is(key)))
}

/// The condition for a key, or none for 0.
fn key_is(key: i64) -> Option<BoundCond> {
    match key {
        0 => None,
        _ => Some(equals(column(0, 0), key)),
    }
}

/// The items.
fn items_of(alloc: Global, asks: Asks) -> Result<BoundItems, OutOfMemory> {
    match asks {
        Asks::More => one_item(alloc, more(alloc)?),
        Asks::Less => one_item(alloc, less(alloc)?),
        Asks::Doubled => one_item(alloc, doubled(alloc)?),
        Asks::Total => two_items(alloc, BoundItem::CountAll, BoundItem::Sum(column(0, 1))),
    }
}

/// One item.
fn one_item(alloc: Global, expr: BoundExpr) -> Result<BoundItems, OutOfMemory> {
    BoundItems::single(alloc, BoundItem::Expr(expr))
}

/// The number and 1.
fn more(alloc: Global) -> Result<BoundExpr, OutOfMemory> {
    let left = number(alloc)?;
    let right = literal(alloc, 1)?;
    Ok(BoundExpr::Add(left, right))
}

/// The number less 1.
fn less(alloc: Global) -> Result<BoundExpr, OutOfMemory> {
    let left = number(alloc)?;
    let right = literal(alloc, 1)?;
    Ok(BoundExpr::Sub(left, right))
}

/// Twice the number.
fn doubled(alloc: Global) -> Result<BoundExpr, OutOfMemory> {
    let left = number(alloc)?;
    let right = literal(alloc, 2)?;
    Ok(BoundExpr::Mul(left, right))
}

/// The number of a row.
fn number(alloc: Global) -> Result<Box<BoundExpr>, OutOfMemory> {
    Box::new(alloc, BoundExpr::Column(column(0, 1)))
}

/// A number.
fn literal(alloc: Global, number: i64) -> Result<Box<BoundExpr>, OutOfMemory> {
    Box::new(alloc, BoundExpr::Literal(Value::Int(number)))
}
