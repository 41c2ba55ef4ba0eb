//! Ranges of a key: the rows between two bounds, and a question to the rows for each of them and one more.
use super::key_look_ups::{found, of_one, of_two, thousand};
use super::requests::{column, compared, item, select, two_items};
use super::tables::At::Low;
use super::tables::One;
use ifdb_bound::{BoundCond, BoundItems, BoundSelect};
use ifdb_row::OutOfMemory;
use ifdb_value::Compare::{self, AtLeast, AtMost, Equal, Greater, Less, NotEqual};
use ifdb_value::Sequence;
use std::alloc::Global;
use std::process::Abort;
use std::test::Fail;

/// What the key is compared with, how many questions are asked at most, and the keys that are found among 1 to 1000.
struct Case(&'static [(Compare, i64)], u32, &'static [i64]);

static CASES: [Case; 14] = [
    Case(&[(Greater, 500), (Less, 503)], 3, &[501, 502]),
    Case(&[(AtLeast, 500), (AtMost, 502)], 4, &[500, 501, 502]),
    Case(&[(Greater, 500), (AtMost, 502)], 3, &[501, 502]),
    Case(&[(AtLeast, 500), (Less, 502)], 3, &[500, 501]),
    Case(&[(Greater, 998)], 3, &[999, 1000]),
    Case(&[(Less, 3)], 3, &[1, 2]),
    // Of two bounds on one side the narrower counts.
    Case(
        &[
            (Greater, 5),
            (AtLeast, 998),
            (Greater, 997),
            (AtMost, 1000),
            (Less, 1000),
        ],
        3,
        &[998, 999],
    ),
    Case(
        &[(AtLeast, 998), (Greater, 998), (Less, 1000), (AtMost, 1000)],
        2,
        &[999],
    ),
    // Nothing lies between.
    Case(&[(Greater, 5), (Less, 6)], 1, &[]),
    Case(&[(Greater, 9), (Less, 2)], 1, &[]),
    Case(&[(Greater, i64::MAX)], 1, &[]),
    Case(&[(Less, i64::MIN)], 1, &[]),
    Case(&[(AtLeast, i64::MIN), (AtMost, 1)], 2, &[1]),
    // What is no bound is tested of each row.
    Case(&[(NotEqual, 7), (Less, 9), (AtLeast, 6)], 4, &[6, 8]),
];

#[test]
fn rows_between_bounds_are_looked_at(rt: HostRuntime) -> Result<(), Fail> {
    let rows = thousand(rt.alloc())?;
    for case in &CASES {
        is_found(&rt, rt.alloc(), &rows, case)?;
    }
    Ok(())
}

fn is_found(rt: &impl Abort, alloc: Global, rows: &[One], case: &Case) -> Result<(), Fail> {
    let Case(bounds, most, want) = case;
    let request = keys_within(alloc, bounds)?;
    let answered = of_one(rt, alloc, rows, Low, &request)?;
    found(rt, alloc, answered, *most, want)
}

/// The rows of the first source are walked through, four of them at two labels, and two of the second are looked at.
#[test]
fn a_later_source_is_bounded(rt: HostRuntime) -> Result<(), Fail> {
    let request = second_within(rt.alloc(), &[(AtLeast, 8), (Equal, 8)])?;
    let answered = of_two(&rt, rt.alloc(), Low, &request)?;
    found(&rt, rt.alloc(), answered, 6, &[1, 8, 2, 8])?;
    let open = second_within(rt.alloc(), &[(Greater, 7)])?;
    let answered = of_two(&rt, rt.alloc(), Low, &open)?;
    found(&rt, rt.alloc(), answered, 7, &[1, 8, 2, 8])
}

/// The first source's keys, where they compare so.
fn keys_within(alloc: Global, bounds: &[(Compare, i64)]) -> Result<BoundSelect, OutOfMemory> {
    let items = BoundItems::single(alloc, item(0, 0))?;
    let cond = all_of(alloc, 0, bounds)?;
    Ok(select(alloc, items, Some(cond)))
}

/// The keys of two sources, where those of the second compare so.
fn second_within(alloc: Global, bounds: &[(Compare, i64)]) -> Result<BoundSelect, OutOfMemory> {
    let items = two_items(alloc, item(0, 0), item(1, 0))?;
    let cond = all_of(alloc, 1, bounds)?;
    Ok(select(alloc, items, Some(cond)))
}

/// That a source's key compares so.
fn all_of(
    alloc: Global,
    source: usize,
    bounds: &[(Compare, i64)],
) -> Result<BoundCond, OutOfMemory> {
    let mut parts = Sequence::new(alloc);
    for (how, number) in bounds {
        parts.push(compared(column(source, 0), *how, *number))?;
    }
    Ok(BoundCond::And(parts))
}
