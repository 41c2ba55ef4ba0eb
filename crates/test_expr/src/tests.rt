// Values, expressions and conditions on a row.
use ifdb_bound::{BoundColumn, BoundCond, BoundExpr, BoundOperand};
use ifdb_expr::{Frame, OutOfMemory, SeenRow, ValueRef, holds, last_source, value};
use ifdb_value::{Box, Compare, Sequence, Value, Word};
use std::alloc::Global;
use std::process::Abort;
use std::test::Fail;

/// A literal number.
fn number(number: i64) -> BoundExpr {
    BoundExpr::Literal(Value::Int(number))
}

/// The first column of the row.
fn first() -> BoundExpr {
    BoundExpr::Column(BoundColumn {
        source: 0,
        column: 0,
    })
}

/// Tests what an expression gives on a row of one number.
fn gives(rt: &impl Abort, expr: &BoundExpr, of: i64, want: Option<i64>) {
    let values = [Value::Int(of)];
    let frame = Frame::empty().with(SeenRow {
        values: &values,
        label: &[],
    });
    let found = match value(expr, &frame) {
        Some(ValueRef::Int(number)) => Some(number),
        _ => None,
    };
    assert!(rt; found == want);
}

/// What is done with two expressions.
#[derive(Clone, Copy)]
enum Does {
    Add,
    Sub,
    Mul,
}

use Does::{Add, Mul, Sub};

fn operation(
    alloc: Global,
    how: Does,
    left: BoundExpr,
    right: BoundExpr,
) -> Result<BoundExpr, OutOfMemory> {
    let left = Box::new(alloc, left)?;
    let right = Box::new(alloc, right)?;
    Ok(match how {
        Add => BoundExpr::Add(left, right),
        Sub => BoundExpr::Sub(left, right),
        Mul => BoundExpr::Mul(left, right),
    })
}

/// An operation on the row's number and another one, the row's number, and what comes.
struct End(Does, i64, i64, Option<i64>);

static ENDS: [End; 6] = [
    End(Add, 1, i64::MAX, None),
    End(Add, 1, -1, Some(0)),
    End(Sub, 1, i64::MIN, None),
    End(Sub, 1, i64::MAX, Some(9_223_372_036_854_775_806)),
    End(Mul, -1, i64::MIN, None),
    End(Mul, -1, i64::MAX, Some(-9_223_372_036_854_775_807)),
];

#[test]
fn values_end_at_64_bits(rt: HostRuntime) -> Result<(), Fail> {
    for end in &ENDS {
        is_end(&rt, rt.alloc(), end)?;
    }
    Ok(())
}

/// Tests what an operation gives.
fn is_end(rt: &impl Abort, alloc: Global, end: &End) -> Result<(), OutOfMemory> {
    let End(how, by, of, want) = end;
    let expr = operation(alloc, *how, first(), number(*by))?;
    gives(rt, &expr, *of, *want);
    Ok(())
}

/// NULL.
fn null() -> BoundExpr {
    BoundExpr::Literal(Value::Null)
}

/// Tests that an expression gives NULL on a row of one number.
fn gives_null(rt: &impl Abort, expr: &BoundExpr, of: i64) {
    let values = [Value::Int(of)];
    let frame = Frame::empty().with(SeenRow {
        values: &values,
        label: &[],
    });
    assert!(rt; matches!(value(expr, &frame), Some(ValueRef::Null)));
}

/// `NULL * (first + 1)`.
fn null_times_more(alloc: Global) -> Result<BoundExpr, OutOfMemory> {
    let more = operation(alloc, Add, first(), number(1))?;
    operation(alloc, Mul, null(), more)
}

#[test]
fn out_of_range_wins_over_null(rt: HostRuntime) -> Result<(), Fail> {
    let beside = null_times_more(rt.alloc())?;
    gives(&rt, &beside, i64::MAX, None);
    gives_null(&rt, &beside, 0);
    Ok(())
}

/// `first - NULL + 1`.
fn less_null_and_one(alloc: Global) -> Result<BoundExpr, OutOfMemory> {
    let nothing = operation(alloc, Sub, first(), null())?;
    operation(alloc, Add, nothing, number(1))
}

#[test]
fn null_is_never_out_of_range(rt: HostRuntime) -> Result<(), Fail> {
    let behind = less_null_and_one(rt.alloc())?;
    gives_null(&rt, &behind, i64::MAX);
    Ok(())
}

#[test]
fn a_text_is_copied(rt: HostRuntime) -> Result<(), Fail> {
    let alloc = rt.alloc();
    let text = Value::Text(Word::of(alloc, "clinic")?);
    let copy = ValueRef::of(&text).to_value(alloc)?;
    assert!(rt; ValueRef::of(&copy).compare(ValueRef::of(&text)).is_eq());
    assert!(rt; ValueRef::of(&copy).compare(ValueRef::Int(i64::MAX)).is_gt());
    Ok(())
}

/// `b.0 = 2 AND NOT a.0 < 1`.
fn condition(alloc: Global) -> Result<BoundCond, Fail> {
    let second = BoundColumn {
        source: 1,
        column: 0,
    };
    let less = BoundCond::Compare {
        left: BoundOperand::Column(BoundColumn {
            source: 0,
            column: 0,
        }),
        how: Compare::Less,
        right: BoundOperand::Literal(Value::Int(1)),
    };
    let mut parts = Sequence::single(
        alloc,
        BoundCond::Compare {
            left: BoundOperand::Column(second),
            how: Compare::Equal,
            right: BoundOperand::Literal(Value::Int(2)),
        },
    )?;
    parts.push(BoundCond::Not(Box::new(alloc, less)?))?;
    Ok(BoundCond::And(parts))
}

#[test]
fn a_condition_holds_of_two_rows(rt: HostRuntime) -> Result<(), Fail> {
    let condition = condition(rt.alloc())?;
    assert_eq!(rt; last_source(&condition), 1);
    let one = [Value::Int(1)];
    let two = [Value::Int(2)];
    let first = Frame::empty().with(SeenRow {
        values: &one,
        label: &[],
    });
    let both = first.with(SeenRow {
        values: &two,
        label: &[],
    });
    let other = first.with(SeenRow {
        values: &one,
        label: &[],
    });
    assert!(rt; holds(&condition, &both));
    assert!(rt; !holds(&condition, &other));
    Ok(())
}

/// Whether NULL compares so with a number, and whether it is known not to.
fn null_compares(alloc: Global, how: Compare) -> Result<(bool, bool), Fail> {
    let not = BoundCond::Not(Box::new(alloc, unknown(how))?);
    Ok((
        holds(&unknown(how), &Frame::empty()),
        holds(&not, &Frame::empty()),
    ))
}

#[test]
fn a_comparison_with_null_is_neither(rt: HostRuntime) -> Result<(), Fail> {
    let alloc = rt.alloc();
    for how in [
        Compare::Equal,
        Compare::NotEqual,
        Compare::Less,
        Compare::AtMost,
        Compare::Greater,
        Compare::AtLeast,
    ] {
        let found = null_compares(alloc, how)?;
        assert!(rt; found == (false, false));
    }
    Ok(())
}

/// NULL compared with 1, which is Unknown.
fn unknown(how: Compare) -> BoundCond {
    BoundCond::Compare {
        left: BoundOperand::Literal(Value::Null),
        how,
        right: BoundOperand::Literal(Value::Int(1)),
    }
}

/// `1 IS NULL`, or `1 IS NOT NULL` where it is negated.
fn known(negated: bool) -> BoundCond {
    BoundCond::IsNull {
        operand: BoundOperand::Literal(Value::Int(1)),
        negated,
    }
}

/// Whether an AND or OR of an unknown part and a known one holds, and whether its NOT does.
fn comes(alloc: Global, is_and: bool, part: bool) -> Result<(bool, bool), Fail> {
    let mut found = (false, false);
    for turned in [false, true] {
        let mut parts = Sequence::single(alloc, unknown(Compare::Equal))?;
        parts.push(known(part))?;
        let chain = if is_and {
            BoundCond::And(parts)
        } else {
            BoundCond::Or(parts)
        };
        if turned {
            found.1 = holds(&BoundCond::Not(Box::new(alloc, chain)?), &Frame::empty());
        } else {
            found.0 = holds(&chain, &Frame::empty());
        }
    }
    Ok(found)
}

#[test]
fn one_part_decides_beside_an_unknown_one(rt: HostRuntime) -> Result<(), Fail> {
    let alloc = rt.alloc();
    assert!(rt; comes(alloc, true, true)? == (false, false));
    assert!(rt; comes(alloc, true, false)? == (false, true));
    assert!(rt; comes(alloc, false, true)? == (true, false));
    assert!(rt; comes(alloc, false, false)? == (false, false));
    Ok(())
}
