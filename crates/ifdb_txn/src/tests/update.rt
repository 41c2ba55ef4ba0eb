//! What UPDATEs of a row's number write.
use super::comparisons::Comes::{Refused, Writes};
use super::comparisons::Wrote::{Null, Row};
use super::comparisons::{Case, all_come};
use super::rows::At::{High, Low};
use super::rows::Which::{Note, Pair, Visit};
use super::statements::Does::{Add, Clear, Keep, Set};
use super::statements::Where::{All, Id, Number, NumberAbove};
use ifdb_wire::Fault;
use std::test::Fail;

static CASES: [Case; 19] = [
    // Matched rows count, written with their values or not.
    Case(Note, Low, Low, Set(0, Id(6)), Writes(0, &[])),
    Case(Note, Low, Low, Set(0, Id(1)), Writes(1, &[Row(1, 0, &[])])),
    Case(Note, Low, Low, Keep(Id(2)), Writes(1, &[Row(2, 7, &[])])),
    Case(Note, High, Low, Set(0, Id(1)), Refused(Fault::WriteLabel)),
    Case(
        Note,
        High,
        Low,
        Set(0, Number(6)),
        Writes(1, &[Row(1, 0, &[])]),
    ),
    Case(Note, High, Low, Set(0, All), Refused(Fault::WriteLabel)),
    Case(Note, Low, Low, Add(1, All), Refused(Fault::OutOfRange)),
    Case(
        Note,
        Low,
        Low,
        Add(-1, NumberAbove(6)),
        Writes(
            3,
            &[Row(2, 6, &[]), Row(3, i64::MAX - 1, &[]), Row(4, 7, &[])],
        ),
    ),
    // A child is bound anew where its column is assigned, whatever it is assigned.
    Case(
        Visit,
        Low,
        Low,
        Set(4, Id(10)),
        Writes(1, &[Row(10, 4, &[Low])]),
    ),
    Case(
        Visit,
        High,
        High,
        Keep(Id(11)),
        Writes(1, &[Row(11, 1, &[Low])]),
    ),
    Case(Visit, Low, Low, Set(6, All), Refused(Fault::NoReference)),
    // The other reference stays, where no row would serve it now.
    Case(
        Pair,
        High,
        Low,
        Set(1, Id(10)),
        Writes(1, &[Row(10, 1, &[High, Low])]),
    ),
    // A foreign key with NULL binds nothing, and the other keeps its own reference, wherever it stands among those of the row.
    Case(
        Visit,
        Low,
        Low,
        Clear(All),
        Writes(3, &[Null(10, &[]), Null(12, &[]), Null(13, &[])]),
    ),
    Case(
        Pair,
        High,
        Low,
        Clear(Id(10)),
        Writes(1, &[Null(10, &[Low])]),
    ),
    Case(
        Pair,
        High,
        Low,
        Clear(Id(13)),
        Writes(1, &[Null(13, &[Low])]),
    ),
    Case(
        Pair,
        High,
        Low,
        Add(1, Id(13)),
        Writes(1, &[Null(13, &[Low])]),
    ),
    Case(
        Pair,
        High,
        Low,
        Set(1, Id(13)),
        Writes(1, &[Row(13, 1, &[High, Low])]),
    ),
    Case(Pair, High, Low, Set(2, Id(13)), Refused(Fault::NoReference)),
    // NULL is above no number.
    Case(
        Pair,
        High,
        Low,
        Set(1, NumberAbove(-9)),
        Writes(1, &[Row(10, 1, &[High, Low])]),
    ),
];

#[test]
fn rows_are_updated_or_refused(rt: HostRuntime) -> Result<(), Fail> {
    all_come(&rt, rt.alloc(), &CASES)
}
