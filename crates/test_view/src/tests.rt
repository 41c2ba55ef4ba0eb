//! SELECTs over plain rows: what each answers at labels that see some of the rows or all, and what refuses it.
use self::Asks::{AtMostTen, Grouped, Joined, KeyThree, Pairs, Shown, Sorted, Summed};
use self::At::{High, Low, Other};
use self::requests::request_of;
use self::rows::answer;
use ifdb_value::{Value, ValueRows};
use ifdb_view::{OutOfMemory, ViewFault};
use std::alloc::Global;
use std::process::Abort;
use std::test::Fail;

mod checks;
mod requests;
mod rows;

/// A request.
#[derive(Clone, Copy)]
enum Asks {
    /// `SELECT key, number FROM 0`.
    Pairs,
    /// `SELECT key, number FROM 0 WHERE number <= 10`.
    AtMostTen,
    /// `SELECT key, number FROM 0 WHERE 3 = key`.
    KeyThree,
    /// `SELECT key, number FROM 0 ORDER BY number DESC, key DESC`.
    Sorted,
    /// `SELECT a.key, b.key FROM 0 AS a, 1 AS b WHERE a.key = b.number`.
    Joined,
    /// `SELECT number, COUNT(*), SUM(key) FROM 0 GROUP BY number ORDER BY number`.
    Grouped,
    /// `SELECT SUM(number), COUNT(*) FROM 2`.
    Summed,
    /// `SELECT key, number FROM` the view.
    Shown,
}

/// The label of no tag, of tag 0 or of tag 1.
#[derive(Clone, Copy)]
enum At {
    Low,
    High,
    Other,
}

/// A request, the label that it is asked at, and the numbers that it answers.
struct Case(Asks, At, &'static [i64]);

static CASES: [Case; 16] = [
    // A label sees some rows.
    Case(Pairs, Low, &[1, 10, 2, 20]),
    Case(Pairs, Other, &[1, 10, 2, 20]),
    Case(Pairs, High, &[1, 10, 2, 20, 3, 10, 4, 5]),
    // WHERE drops rows.
    Case(AtMostTen, Low, &[1, 10]),
    Case(AtMostTen, High, &[1, 10, 3, 10, 4, 5]),
    // A key is looked up.
    Case(KeyThree, Low, &[]),
    Case(KeyThree, High, &[3, 10]),
    // Answers are ordered.
    Case(Sorted, Low, &[2, 20, 1, 10]),
    Case(Sorted, High, &[2, 20, 3, 10, 1, 10, 4, 5]),
    // Two tables are joined.
    Case(Joined, Low, &[1, 8, 2, 7]),
    Case(Joined, High, &[1, 8, 2, 7, 3, 9]),
    // Groups are counted and summed.
    Case(Grouped, Low, &[10, 1, 1, 20, 1, 2]),
    Case(Grouped, High, &[5, 1, 4, 10, 2, 4, 20, 1, 2]),
    Case(Summed, Low, &[1, 1]),
    // A view shows what it declassifies.
    Case(Shown, Low, &[1, 10, 2, 20, 3, 10, 4, 5]),
    Case(Shown, Other, &[1, 10, 2, 20, 3, 10, 4, 5]),
];

#[test]
fn requests_are_answered(rt: HostRuntime) -> Result<(), Fail> {
    for (place, case) in CASES.iter().enumerate() {
        gives(&rt, rt.alloc(), place, case)?;
    }
    Ok(())
}

#[test]
fn a_sum_is_out_of_range(rt: HostRuntime) -> Result<(), Fail> {
    let refused = came_of(&rt, rt.alloc(), Summed, High, true)?;
    assert!(rt; matches!(refused, Err(ViewFault::OutOfRange)));
    Ok(())
}

#[test]
fn a_view_needs_authority(rt: HostRuntime) -> Result<(), Fail> {
    let refused = came_of(&rt, rt.alloc(), Shown, High, false)?;
    assert!(rt; matches!(refused, Err(ViewFault::ViewAuthority)));
    Ok(())
}

/// What a request comes to at a label, where the view's owner may show it or not.
fn came_of(
    rt: &impl Abort,
    alloc: Global,
    asks: Asks,
    at: At,
    is_allowed: bool,
) -> Result<Result<ValueRows, ViewFault>, Fail> {
    let request = request_of(alloc, asks)?;
    answer(rt, alloc, at, is_allowed, &request)
}

/// Tests what a request answers.
fn gives(rt: &impl Abort, alloc: Global, place: usize, case: &Case) -> Result<(), Fail> {
    let Case(asks, at, want) = case;
    match came_of(rt, alloc, *asks, *at, true)? {
        Ok(rows) => are_numbers(rt, alloc, place, &rows, want),
        Err(_) => Err(Fail::from("an answer is wanted")),
    }
}

/// Tests that an answer has these numbers, row by row.
fn are_numbers(
    rt: &impl Abort,
    alloc: Global,
    place: usize,
    rows: &ValueRows,
    want: &[i64],
) -> Result<(), Fail> {
    let found = numbers(alloc, rows)?;
    assert_eq!(rt; found.as_slice(), want, "case {place}");
    Ok(())
}

/// The numbers of an answer, row by row.
fn numbers(alloc: Global, rows: &ValueRows) -> Result<Vec<i64>, OutOfMemory> {
    let mut all = Vec::new(alloc);
    for row in rows.items() {
        for value in row.items() {
            if let Value::Int(number) = value {
                all.push(*number)?;
            }
        }
    }
    Ok(all)
}
