//! Rows of a value under keys, as they are written; no row where the value is 0.
ghost use Rattle.std.specs.Prelude.{IfOk, IsTrue};
ghost use Rattle.ifdb_row.specs.Writes.{is_fitting};

use ifdb_label::Label;
use ifdb_row::{Key, OutOfMemory, Refs, Row, Slot, Values, Write, Writes};
use ifdb_value::{TableId, Value};
use std::alloc::Global;

/// Rows of a value under each key from 0 up to another.
pub(crate) fn range(alloc: Global, to: i64, value: i64) -> Result<Writes, OutOfMemory> {
    let mut writes = Writes::new(alloc);
    for key in 0..to {
        writes.put(write_of(alloc, key, value)?)?;
    }
    Ok(writes)
}

/// No row under each sixteenth key below 640, from a first one on, which is below 16.
pub(crate) fn thinned(alloc: Global, first: i64) -> Result<Writes, OutOfMemory> {
    let mut writes = Writes::new(alloc);
    for key in 0..640 {
        if key % 16 == first {
            writes.put(write_of(alloc, key, 0)?)?;
        }
    }
    Ok(writes)
}

/// A row of a value under a key.
pub(crate) fn one(alloc: Global, key: i64, value: i64) -> Result<Writes, OutOfMemory> {
    alone(alloc, write_of(alloc, key, value)?)
}

/// One write.
pub(crate) fn alone(alloc: Global, write: Write) -> Result<Writes, OutOfMemory>
    requires { IsTrue (is_fitting write.slot write.row) }
{
    let mut writes = Writes::new(alloc);
    writes.put(write)?;
    Ok(writes)
}

/// The write that puts a row of a value under a key, or empties its slot where the value is 0.
pub(crate) fn write_of(alloc: Global, key: i64, value: i64) -> Result<Write, OutOfMemory>
    ensures { IfOk result (λ write. IsTrue (is_fitting write.slot write.row)) }
{
    let slot = slot_of(alloc, key)?;
    if value == 0 {
        return Ok(Write { slot, row: None });
    }
    let row = Row {
        slot,
        values: values_of(alloc, key, value)?,
        refs: Refs::new(),
    };
    Write::of_row(alloc, row)
}

/// The values of a row.
fn values_of(alloc: Global, key: i64, value: i64) -> Result<Values, OutOfMemory> {
    let mut values = Values::single(alloc, Value::Int(key))?;
    values.push(Value::Int(value))?;
    Ok(values)
}

/// The slot of a key of table 0, at the empty label.
pub(crate) fn slot_of(alloc: Global, key: i64) -> Result<Slot, OutOfMemory> {
    slot_in(alloc, TableId(0), key)
}

/// The slot of a key of a table, at the empty label.
pub(crate) fn slot_in(alloc: Global, table: TableId, key: i64) -> Result<Slot, OutOfMemory> {
    Ok(Slot {
        table,
        key: Key::single(alloc, Value::Int(key))?,
        label: Label::empty(),
    })
}
