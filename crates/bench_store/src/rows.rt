// Rows of a number as key and another number, at the empty label.
ghost use Rattle.std.specs.Prelude.{IfOk, IsTrue};
ghost use Rattle.ifdb_row.specs.Writes.{is_fitting};

use ifdb_label::Label;
use ifdb_row::{Key, OutOfMemory, Refs, Row, Slot, Values, Write, Writes};
use ifdb_value::{TableId, Value};
use std::alloc::Global;

/// The write of a row with this key.
pub(crate) fn one_write(alloc: Global, number: i64) -> Result<Writes, OutOfMemory> {
    let mut writes = Writes::new(alloc);
    writes.put(Write::of_row(alloc, row_of(alloc, number)?)?)?;
    Ok(writes)
}

/// A row of this key.
fn row_of(alloc: Global, number: i64) -> Result<Row, OutOfMemory> {
    let mut values = Values::with_capacity(alloc, 2)?;
    values.push(Value::Int(number))?;
    values.push(Value::Int(7))?;
    Ok(Row {
        slot: slot_of(alloc, number)?,
        values,
        refs: Refs::new(),
    })
}

/// The write of a row of table 1 with this key, bound to the row of another key of table 0.
pub(crate) fn child_write(alloc: Global, number: i64, parent: i64) -> Result<Write, OutOfMemory>
    ensures { IfOk result (λ write. IsTrue (is_fitting write.slot write.row)) }
{
    let refs = Refs::from_vec(alloc, Vec::from_array(alloc, [slot_of(alloc, parent)?])?)?;
    let key = Key::single(alloc, Value::Int(number))?;
    let slot = Slot {
        table: TableId(1),
        key,
        label: Label::empty(),
    };
    let values = Values::new(alloc);
    Write::of_row(alloc, Row { slot, values, refs })
}

/// The slot of this key.
pub(crate) fn slot_of(alloc: Global, number: i64) -> Result<Slot, OutOfMemory> {
    let key = Key::single(alloc, Value::Int(number))?;
    Ok(Slot {
        table: TableId(0),
        key,
        label: Label::empty(),
    })
}
