// Ranges of keys that conditions give, and parts of conditions.
use ifdb_bound::{BoundColumn, BoundCond, BoundOperand};
use ifdb_expr::{Frame, SeenRow};
use ifdb_plan::{Test, cond_range, equation_in, hold_at, hold_from, tests};
use ifdb_row::OutOfMemory;
use ifdb_value::{Compare, Sequence, Value, Word};
use std::alloc::Global;
use std::process::Abort;
use std::test::Fail;

fn column(source: usize, column: usize) -> BoundOperand {
    BoundOperand::Column(BoundColumn { source, column })
}

fn number(number: i64) -> BoundOperand {
    BoundOperand::Literal(Value::Int(number))
}

fn compared(left: BoundOperand, how: Compare, right: BoundOperand) -> BoundCond {
    BoundCond::Compare { left, how, right }
}

fn equal(left: BoundOperand, right: BoundOperand) -> BoundCond {
    compared(left, Compare::Equal, right)
}

/// `first AND second AND third`.
fn all_of(
    alloc: Global,
    first: BoundCond,
    second: BoundCond,
    third: BoundCond,
) -> Result<BoundCond, OutOfMemory> {
    let mut parts = Sequence::single(alloc, first)?;
    parts.push(second)?;
    parts.push(third)?;
    Ok(BoundCond::And(parts))
}

/// Tests which keys of the columns 1 and 0 a condition leaves: these first ones, and none of the others.
fn leaves(
    rt: &impl Abort,
    alloc: Global,
    cond: BoundCond,
    inside: &[[Value; 2]],
    outside: &[[Value; 2]],
) -> Result<(), Fail> {
    let range = cond_range(alloc, &Some(cond), &[1, 0])?;
    for key in inside {
        assert!(rt; range.contains(key));
    }
    for key in outside {
        assert!(rt; !range.contains(key));
    }
    Ok(())
}

fn text(alloc: Global, text: &str) -> Result<Value, OutOfMemory> {
    Ok(Value::Text(Word::of(alloc, text)?))
}

#[test]
fn a_key_of_two_columns_is_given(rt: HostRuntime) -> Result<(), Fail> {
    let alloc = rt.alloc();
    let cond = all_of(
        alloc,
        equal(number(5), column(0, 0)),
        compared(column(0, 2), Compare::Less, number(3)),
        equal(column(0, 1), BoundOperand::Literal(text(alloc, "b")?)),
    )?;
    let inside = [[text(alloc, "b")?, Value::Int(5)]];
    let outside = [
        [text(alloc, "b")?, Value::Int(4)],
        [text(alloc, "b")?, Value::Int(6)],
        [text(alloc, "a")?, Value::Int(5)],
        [text(alloc, "ba")?, Value::Int(5)],
    ];
    leaves(&rt, alloc, cond, &inside, &outside)
}

#[test]
fn a_first_column_is_bounded(rt: HostRuntime) -> Result<(), Fail> {
    let alloc = rt.alloc();
    let cond = all_of(
        alloc,
        equal(number(5), column(0, 0)),
        compared(column(0, 1), Compare::AtMost, number(3)),
        compared(number(0), Compare::Less, column(0, 1)),
    )?;
    let inside = [
        [Value::Int(1), Value::Int(5)],
        [Value::Int(3), Value::Int(i64::MAX)],
    ];
    let outside = [
        [Value::Int(0), Value::Int(5)],
        [Value::Int(4), Value::Int(5)],
    ];
    leaves(&rt, alloc, cond, &inside, &outside)
}

#[test]
fn one_of_two_parts_leaves_all_keys(rt: HostRuntime) -> Result<(), Fail> {
    let alloc = rt.alloc();
    let mut either = Sequence::single(alloc, equal(column(0, 0), number(1)))?;
    either.push(equal(column(0, 1), number(1)))?;
    let inside = [[Value::Int(7), Value::Int(8)]];
    let outside: Vec<[Value; 2]> = Vec::new(alloc);
    leaves(
        &rt,
        alloc,
        BoundCond::Or(either),
        &inside,
        outside.as_slice(),
    )
}

/// The parts of `a.0 = 1 AND b.0 = a.1 AND b.1 < 3`.
fn parts_hold(rt: &impl Abort, tests: &[Test<'_>]) {
    assert!(rt; equation_in(tests, 0).is_none());
    assert!(rt; equation_in(tests, 1).is_some_and(|found| found.column == 0));
    let first = [Value::Int(1), Value::Int(7)];
    let second = [Value::Int(7), Value::Int(3)];
    let one = Frame::empty().with(SeenRow {
        values: &first,
        label: &[],
    });
    assert!(rt; hold_at(tests, 0, &one));
    let both = one.with(SeenRow {
        values: &second,
        label: &[],
    });
    assert!(rt; !hold_at(tests, 1, &both));
    assert!(rt; !hold_from(tests, 1, &both));
    assert!(rt; hold_from(tests, 2, &both));
}

#[test]
fn a_part_is_tested_where_it_ends(rt: HostRuntime) -> Result<(), Fail> {
    let alloc = rt.alloc();
    let cond = Some(all_of(
        alloc,
        equal(column(0, 0), number(1)),
        equal(column(1, 0), column(0, 1)),
        compared(column(1, 1), Compare::Less, number(3)),
    )?);
    let tests = tests(alloc, &cond)?;
    parts_hold(&rt, &tests);
    Ok(())
}
