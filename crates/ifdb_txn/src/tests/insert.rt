//! What INSERTs write.
use super::comparisons::Comes::{Refused, Writes};
use super::comparisons::Wrote::{Null, Row};
use super::comparisons::{Case, all_come};
use super::rows::At::{High, Low};
use super::rows::Which::{Note, Pair, Visit};
use super::rows::one_tag;
use super::statements::Does::{Insert, InsertNull};
use super::statements::came_of;
use ifdb_wire::Fault;
use std::test::Fail;

static CASES: [Case; 20] = [
    // New keys: what a label sees decides, the statement's own rows too.
    Case(
        Note,
        Low,
        Low,
        Insert(&[(5, 50)]),
        Writes(1, &[Row(5, 50, &[])]),
    ),
    Case(
        Note,
        Low,
        Low,
        Insert(&[(9, 90)]),
        Writes(1, &[Row(9, 90, &[])]),
    ),
    Case(
        Note,
        High,
        Low,
        Insert(&[(9, 90)]),
        Refused(Fault::DuplicateKey),
    ),
    Case(
        Note,
        High,
        Low,
        Insert(&[(2, 20)]),
        Refused(Fault::DuplicateKey),
    ),
    Case(
        Note,
        Low,
        Low,
        Insert(&[(6, 1), (5, 2)]),
        Writes(2, &[Row(5, 2, &[]), Row(6, 1, &[])]),
    ),
    Case(
        Note,
        Low,
        Low,
        Insert(&[(5, 1), (6, 2), (5, 3)]),
        Refused(Fault::DuplicateKey),
    ),
    Case(Note, Low, Low, Insert(&[]), Writes(0, &[])),
    // Parents: the first row of the key that may serve, and the first row's refusal before the next row's.
    Case(
        Visit,
        Low,
        Low,
        Insert(&[(20, 2)]),
        Writes(1, &[Row(20, 2, &[Low])]),
    ),
    Case(
        Visit,
        High,
        Low,
        Insert(&[(20, 1)]),
        Writes(1, &[Row(20, 1, &[High])]),
    ),
    Case(
        Visit,
        High,
        High,
        Insert(&[(20, 1)]),
        Writes(1, &[Row(20, 1, &[Low])]),
    ),
    Case(
        Visit,
        High,
        Low,
        Insert(&[(20, 2)]),
        Refused(Fault::NoReference),
    ),
    Case(
        Visit,
        Low,
        Low,
        Insert(&[(20, 6)]),
        Refused(Fault::NoReference),
    ),
    Case(
        Visit,
        Low,
        Low,
        Insert(&[(20, 6), (10, 1)]),
        Refused(Fault::NoReference),
    ),
    Case(
        Visit,
        Low,
        Low,
        Insert(&[(10, 6), (20, 6)]),
        Refused(Fault::DuplicateKey),
    ),
    // Of two parents each is found by itself, at one label or at two.
    Case(
        Pair,
        Low,
        Low,
        Insert(&[(10, 1)]),
        Writes(1, &[Row(10, 1, &[Low, Low])]),
    ),
    Case(
        Pair,
        High,
        High,
        Insert(&[(11, 1)]),
        Writes(1, &[Row(11, 1, &[Low, High])]),
    ),
    Case(
        Pair,
        High,
        Low,
        Insert(&[(12, 1)]),
        Refused(Fault::NoReference),
    ),
    // NULL needs no parent, and the other foreign key does.
    Case(Visit, Low, Low, InsertNull(20), Writes(1, &[Null(20, &[])])),
    Case(
        Pair,
        Low,
        Low,
        InsertNull(10),
        Writes(1, &[Null(10, &[Low])]),
    ),
    Case(Pair, Low, Low, InsertNull(20), Refused(Fault::NoReference)),
];

#[test]
fn rows_are_inserted_or_refused(rt: HostRuntime) -> Result<(), Fail> {
    all_come(&rt, rt.alloc(), &CASES)
}

#[test]
fn the_last_of_256_rows_clashes(rt: HostRuntime) -> Result<(), Fail> {
    let tags = one_tag(rt.alloc())?;
    let mut rows = Vec::new(rt.alloc());
    for number in 0..255i64 {
        rows.push((number.wrapping_add(100), number))?;
    }
    let fits = came_of(&rt, rt.alloc(), &tags, (Note, Low, Low), Insert(&rows))?;
    assert!(rt; fits.is_ok());
    rows.push((4, 0))?;
    let clashes = came_of(&rt, rt.alloc(), &tags, (Note, Low, Low), Insert(&rows))?;
    assert_eq!(rt; clashes.err(), Some(Fault::DuplicateKey));
    Ok(())
}
