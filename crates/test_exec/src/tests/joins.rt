//! Joins of two to four sources, which are found by their keys or not.
use self::Asks::{Four, Labels, Referred, Three, Two};
use super::requests::{column, equal, item, select, two_items};
use super::tables::At::{Every, High, Low};
use super::tables::{Answered, At, One, Question, asked, gives};
use ifdb_bound::{BoundCond, BoundItem, BoundItems, BoundSelect};
use ifdb_exec::Given;
use ifdb_row::OutOfMemory;
use ifdb_value::{Sequence, TableId};
use std::alloc::Global;
use std::process::Abort;
use std::test::Fail;

static KEY: [usize; 1] = [0];

static ROWS: [One; 7] = [
    One(0, [1, 2, 0], Low),
    One(0, [2, 1, 0], High),
    One(1, [1, 7, 0], Low),
    One(1, [2, 8, 0], Low),
    One(1, [2, 9, 0], High),
    One(2, [1, 1, 0], Low),
    One(2, [2, 4, 0], High),
];

/// A request over the first sources.
#[derive(Clone, Copy)]
enum Asks {
    /// The keys of two sources.
    Two,
    /// The first source's key and the second's number, whose key is the first's number.
    Referred,
    /// The keys of three sources, of which the others' are given by the first.
    Three,
    /// The keys of four sources, of which three are given by others.
    Four,
    /// The labels of two sources' rows of one key.
    Labels,
}

/// A request, how many sources it has, the label that it is asked at, and the numbers that it answers.
struct Case(Asks, usize, At, &'static [i64]);

static CASES: [Case; 10] = [
    // Sources are combined in their order.
    Case(Two, 2, Low, &[1, 1, 1, 2]),
    Case(Two, 2, High, &[1, 1, 1, 2, 1, 2, 2, 1, 2, 2, 2, 2]),
    // A compound tag sees what its member sees.
    Case(Two, 2, Every, &[1, 1, 1, 2, 1, 2, 2, 1, 2, 2, 2, 2]),
    // Rows are joined where their columns are equal.
    Case(Referred, 2, Low, &[1, 8]),
    Case(Referred, 2, High, &[1, 8, 1, 9, 2, 7]),
    Case(Three, 3, Low, &[1, 2, 1]),
    Case(Three, 3, High, &[1, 2, 1, 1, 2, 1]),
    Case(Four, 4, High, &[1, 1, 1, 2, 2, 2, 2, 1, 2, 2, 2, 1]),
    // Labels of joined rows are named.
    Case(Labels, 2, Low, &[2, 2]),
    Case(Labels, 2, High, &[2, 2, 3, 2, 3, 3]),
];

#[test]
fn sources_are_joined(rt: HostRuntime) -> Result<(), Fail> {
    for (place, case) in CASES.iter().enumerate() {
        comes(&rt, rt.alloc(), place, case, all_tables())?;
    }
    Ok(())
}

#[test]
fn sources_with_keys_are_joined(rt: HostRuntime) -> Result<(), Fail> {
    for (place, case) in CASES.iter().enumerate() {
        comes(&rt, rt.alloc(), place, case, all_keyed())?;
    }
    Ok(())
}

/// Tests what a case answers over the first of some sources.
fn comes(
    rt: &impl Abort,
    alloc: Global,
    place: usize,
    case: &Case,
    sources: [Given<'_>; 4],
) -> Result<(), Fail> {
    let Case(asks, count, at, want) = case;
    let request = request_of(alloc, *asks)?;
    let answered = answered_to(rt, alloc, &request, &sources[..(*count).min(4)], *at)?;
    gives(rt, alloc, place, answered, want)
}

/// What a request answers over some sources.
fn answered_to(
    rt: &impl Abort,
    alloc: Global,
    request: &BoundSelect,
    given: &[Given<'_>],
    at: At,
) -> Result<Answered, Fail> {
    let question = Question {
        rows: &ROWS,
        given,
        at,
        request,
    };
    asked(rt, alloc, question)
}

/// The three tables, and the first once more.
fn all_tables() -> [Given<'static>; 4] {
    [
        Given::Table(TableId(0)),
        Given::Table(TableId(1)),
        Given::Table(TableId(2)),
        Given::Table(TableId(0)),
    ]
}

/// The same, with their keys.
fn all_keyed() -> [Given<'static>; 4] {
    [
        Given::Keyed(TableId(0), &KEY),
        Given::Keyed(TableId(1), &KEY),
        Given::Keyed(TableId(2), &KEY),
        Given::Keyed(TableId(0), &KEY),
    ]
}

/// A request.
fn request_of(alloc: Global, asks: Asks) -> Result<BoundSelect, OutOfMemory> {
    match asks {
        Asks::Two => Ok(select(alloc, keys(alloc, 2)?, None)),
        Asks::Referred => referred(alloc),
        Asks::Three => three(alloc),
        Asks::Four => four(alloc),
        Asks::Labels => labels(alloc),
    }
}

/// The keys of so many sources.
fn keys(alloc: Global, count: usize) -> Result<BoundItems, OutOfMemory> {
    let mut items = BoundItems::new(alloc);
    for source in 0..count {
        items.push(item(source, 0))?;
    }
    Ok(items)
}

/// The first source's key and the second's number, whose key is the first's number.
fn referred(alloc: Global) -> Result<BoundSelect, OutOfMemory> {
    let items = two_items(alloc, item(0, 0), item(1, 1))?;
    Ok(select(alloc, items, Some(equal(column(1, 0), column(0, 1)))))
}

/// The keys of three sources, of which the others' are given by the first.
fn three(alloc: Global) -> Result<BoundSelect, OutOfMemory> {
    let mut parts = Sequence::single(alloc, equal(column(1, 0), column(0, 1)))?;
    parts.push(equal(column(0, 0), column(2, 1)))?;
    Ok(select(alloc, keys(alloc, 3)?, Some(BoundCond::And(parts))))
}

/// The keys of four sources, of which three are given by others.
fn four(alloc: Global) -> Result<BoundSelect, OutOfMemory> {
    let mut parts = Sequence::single(alloc, equal(column(0, 0), column(1, 0)))?;
    parts.push(equal(column(2, 0), column(1, 0)))?;
    parts.push(equal(column(3, 1), column(2, 0)))?;
    Ok(select(alloc, keys(alloc, 4)?, Some(BoundCond::And(parts))))
}

/// The labels of two sources' rows of one key.
fn labels(alloc: Global) -> Result<BoundSelect, OutOfMemory> {
    let items = two_items(alloc, BoundItem::LabelOf(0), BoundItem::LabelOf(1))?;
    Ok(select(alloc, items, Some(equal(column(0, 0), column(1, 0)))))
}
