//! Look-ups of whole keys.
use super::requests::{column, equal, equals, item, select, two_items};
use super::tables::At::{High, Low};
use super::tables::{Answered, At, One, Question, asked, gives};
use ifdb_bound::{BoundCond, BoundItems, BoundSelect};
use ifdb_exec::Given;
use ifdb_row::OutOfMemory;
use ifdb_value::{Sequence, TableId};
use std::alloc::Global;
use std::process::Abort;
use std::test::Fail;

pub(super) static KEY: [usize; 1] = [0];

/// A key at two labels, and rows of a second table that refer to keys of the first.
pub(super) static ROWS: [One; 6] = [
    One(0, [1, 10, 0], Low),
    One(0, [1, 11, 0], High),
    One(0, [2, 20, 0], Low),
    One(1, [7, 2, 0], Low),
    One(1, [8, 1, 0], Low),
    One(1, [9, 3, 0], High),
];

#[test]
fn answer_looks_up(rt: HostRuntime) -> Result<(), Fail> {
    let rows = thousand(rt.alloc())?;
    let request = of_key(rt.alloc(), 500)?;
    let answered = of_one(&rt, rt.alloc(), &rows, Low, &request)?;
    found(&rt, rt.alloc(), answered, 3, &[500])
}

#[test]
fn a_key_is_seen_at_each_label(rt: HostRuntime) -> Result<(), Fail> {
    let request = of_key(rt.alloc(), 1)?;
    let public = of_one(&rt, rt.alloc(), &ROWS, Low, &request)?;
    found(&rt, rt.alloc(), public, 3, &[10])?;
    let hidden = of_one(&rt, rt.alloc(), &ROWS, High, &request)?;
    found(&rt, rt.alloc(), hidden, 3, &[10, 11])
}

/// The first source's key is given by the second, which is found by a literal.
#[test]
fn a_later_source_gives_a_key(rt: HostRuntime) -> Result<(), Fail> {
    let request = of_key_given(rt.alloc(), 8)?;
    let answered = of_two(&rt, rt.alloc(), High, &request)?;
    found(&rt, rt.alloc(), answered, 5, &[10, 8, 11, 8])
}

/// What a request answers over the first table.
pub(super) fn of_one(
    rt: &impl Abort,
    alloc: Global,
    rows: &[One],
    at: At,
    request: &BoundSelect,
) -> Result<Answered, Fail> {
    let given = [Given::Keyed(TableId(0), &KEY)];
    let question = Question {
        rows,
        given: &given,
        at,
        request,
    };
    asked(rt, alloc, question)
}

/// What a request answers over both tables, at a label.
pub(super) fn of_two(
    rt: &impl Abort,
    alloc: Global,
    at: At,
    request: &BoundSelect,
) -> Result<Answered, Fail> {
    let given = [
        Given::Keyed(TableId(0), &KEY),
        Given::Keyed(TableId(1), &KEY),
    ];
    let question = Question {
        rows: &ROWS,
        given: &given,
        at,
        request,
    };
    asked(rt, alloc, question)
}

/// Tests that an answer has these numbers, and that the rows were asked so often at most.
pub(super) fn found(
    rt: &impl Abort,
    alloc: Global,
    answered: Answered,
    most: u32,
    want: &[i64],
) -> Result<(), Fail> {
    assert!(rt; answered.asked <= most);
    gives(rt, alloc, 0, answered, want)
}

/// A thousand rows, whose numbers are their keys.
pub(super) fn thousand(alloc: Global) -> Result<Vec<One>, OutOfMemory> {
    let mut rows = Vec::new(alloc);
    for key in 1..=1000i64 {
        rows.push(One(0, [key, key, 0], Low))?;
    }
    Ok(rows)
}

/// The first source's number under a key.
fn of_key(alloc: Global, key: i64) -> Result<BoundSelect, OutOfMemory> {
    let items = BoundItems::single(alloc, item(0, 1))?;
    Ok(select(alloc, items, Some(equals(column(0, 0), key))))
}

/// The first source's number and the second source's key, where the second's number is the first's key and its key is this one.
fn of_key_given(alloc: Global, key: i64) -> Result<BoundSelect, OutOfMemory> {
    let mut parts = Sequence::single(alloc, equal(column(0, 0), column(1, 1)))?;
    parts.push(equals(column(1, 0), key))?;
    let items = two_items(alloc, item(0, 1), item(1, 0))?;
    Ok(select(alloc, items, Some(BoundCond::And(parts))))
}
