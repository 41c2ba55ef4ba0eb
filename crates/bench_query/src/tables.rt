//! Two tables of rows of three values, the first of which is their key.
use ifdb_label::Label;
use ifdb_row::{Key, OutOfMemory, Refs, Row, Slot, Values};
use ifdb_value::{Shared, TableId, Value};
use std::alloc::Global;

/// The rows of both tables, in the order of their slots. Each number below COUNT is a key, stands once in the third column,
/// scattered, and each below half of it twice in the second.
pub(crate) fn all_rows(alloc: Global, count: u32) -> Result<Vec<Shared<Row>>, OutOfMemory> {
    let mut rows = Vec::new(alloc);
    for table in 0..2u64 {
        for i in 0..count {
            rows.push(row_of(alloc, TableId(table), i, count)?)?;
        }
    }
    Ok(rows)
}

/// The rows of both tables, none of which joins with another: the second column has other numbers in each table, and the
/// third has NULL.
pub(crate) fn apart_rows(alloc: Global, count: u32) -> Result<Vec<Shared<Row>>, OutOfMemory> {
    let mut rows = Vec::new(alloc);
    for table in 0..2u64 {
        let first = if table == 0 { 0 } else { i64::from(count) };
        for i in 0..count {
            let apart = Value::Int(first.wrapping_add(i64::from(i)));
            rows.push(row_with(alloc, TableId(table), i, apart, Value::Null)?)?;
        }
    }
    Ok(rows)
}

/// The row of a key.
fn row_of(alloc: Global, table: TableId, i: u32, count: u32) -> Result<Shared<Row>, OutOfMemory> {
    let second = Value::Int(i64::from(i.checked_rem(count / 2).unwrap_or(0)));
    row_with(alloc, table, i, second, Value::Int(scattered(i, count)))
}

/// The row of a key and two other values.
fn row_with(
    alloc: Global,
    table: TableId,
    i: u32,
    second: Value,
    third: Value,
) -> Result<Shared<Row>, OutOfMemory> {
    let key = i64::from(i);
    let mut values = Values::with_capacity(alloc, 3)?;
    values.push(Value::Int(key))?;
    values.push(second)?;
    values.push(third)?;
    let slot = Slot {
        table,
        key: Key::single(alloc, Value::Int(key))?,
        label: Label::empty(),
    };
    Shared::new(
        alloc,
        Row {
            slot,
            values,
            refs: Refs::new(),
        },
    )
}

/// A number below the count, another for each.
pub(crate) fn scattered(i: u32, count: u32) -> i64 {
    let far = u64::from(i).wrapping_mul(7919);
    i64::from(far.checked_rem(u64::from(count)).unwrap_or(0) as u32)
}
