//! What contents hold.
use super::writes::slot_of;
use ifdb_row::{ListRows, OutOfMemory, Row, RowRef, Rows, Slot, SlotRef};
use ifdb_store::Content;
use ifdb_value::{Shared, TableId, Value};
use std::alloc::Global;

/// A walk: how many rows and how many runs of them it finds, and the sum of the rows' values.
#[derive(Clone, Copy, Debug)]
pub(crate) struct Found {
    pub(crate) rows: usize,
    pub(crate) runs: usize,
    pub(crate) sum: i64,
}

/// A walk through all rows of table 0.
pub(crate) fn walk<R: Rows>(content: &R) -> Found {
    let mut found = Found {
        rows: 0,
        runs: 0,
        sum: 0,
    };
    let mut after: Option<SlotRef<'_>> = None;
    for _ in 0..u32::MAX {
        let run = content.run(TableId(0), after);
        for place in 0..run.len() {
            found.rows = found.rows.saturating_add(1);
            found.sum = found.sum.saturating_add(value_of(run.row(place)));
        }
        match run.last() {
            None => break,
            Some(last) => after = Some(last.slot),
        }
        found.runs = found.runs.saturating_add(1);
    }
    found
}

/// The value of the row under a key; 0 where there is none.
pub(crate) fn value_at<R: Rows>(content: &R, alloc: Global, key: i64) -> Result<i64, OutOfMemory> {
    let slot = slot_of(alloc, key)?;
    Ok(value_in(content, &slot))
}

/// The value of the row in a slot; 0 where there is none.
fn value_in<R: Rows>(content: &R, slot: &Slot) -> i64 {
    match content.get(slot.by_ref()) {
        Some(row) => value_of(row),
        None => 0,
    }
}

/// The value of a row.
fn value_of(row: RowRef<'_>) -> i64 {
    match row.values {
        [_, Value::Int(value)] => *value,
        _ => 0,
    }
}

/// How many rows are bound to a slot, each found behind the one before.
pub(crate) fn children_of<R: Rows>(content: &R, slot: &Slot) -> usize {
    let mut found = 0usize;
    let mut after: Option<SlotRef<'_>> = None;
    for _ in 0..u32::MAX {
        match content.bound_to(slot.by_ref(), after) {
            None => break,
            Some(row) => after = Some(row.slot),
        }
        found = found.saturating_add(1);
    }
    found
}

/// The same rows in a list; `None` where they don't rise.
pub(crate) fn listed(alloc: Global, content: &Content) -> Result<Option<ListRows>, OutOfMemory> {
    let mut rows = Vec::new(alloc);
    for table in 0..3 {
        add_rows(alloc, content, TableId(table), &mut rows)?;
    }
    Ok(ListRows::try_new(rows))
}

/// Adds the rows of a table.
fn add_rows(
    alloc: Global,
    content: &Content,
    table: TableId,
    rows: &mut Vec<Shared<Row>>,
) -> Result<(), OutOfMemory> {
    let mut after: Option<SlotRef<'_>> = None;
    for _ in 0..u32::MAX {
        match content.next(table, after) {
            None => break,
            Some(row) => {
                rows.push(Shared::new(alloc, row.to_row(alloc)?)?)?;
                after = Some(row.slot);
            }
        }
    }
    Ok(())
}
