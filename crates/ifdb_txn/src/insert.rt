// INSERT.
ghost use Rattle.std.specs.Prelude.{◌≡◌, [], IfOk, IsTrue, OnOk, false, not};
ghost use Rattle.ifdb_row.specs.Content.{after};
ghost use Rattle.ifdb_foreign.specs.Parents.{IsMade};
ghost use Rattle.ifdb_model.specs.Writes.{new_write};
ghost use Rattle.ifdb_txn.specs.Answers.{Fills, Gives};
ghost use Rattle.ifdb_txn.specs.Inserted.{are_new};
ghost use Rattle.ifdb_txn.specs.Scenes.{all_inserted, are_fresh, is_clashing, one_inserted, slot_of};

use crate::OutOfMemory;
use crate::assigned::copied;
use crate::parents::{bind_parents, values_at};
use crate::target::Target;
use ifdb_key::is_free;
use ifdb_row::{Refs, Row, Rows, Slot, Values, Write, Writes};
use ifdb_value::{Sequence, Shared, Value, ValueRow};
use ifdb_wire::Fault;
use std::alloc::Global;

/// What an INSERT of rows writes, or its first refusal: the first row's that is refused, and of that DuplicateKey before NoReference.
pub(crate) fn insert_all<R: Rows>(
    target: &Target<'_>,
    rows: &R,
    values: &[ValueRow],
) -> Result<Writes, Fault>
    requires made { IsMade target.now.from (R.rows rows.now) }
    ensures { Gives (all_inserted target.now (R.rows rows.now) values.now) result }
{
    let mut writes = Writes::new(target.alloc);
    insert_into(target, rows, values, &mut writes)?;
    Ok(writes)
}

/// Inserts the rows one by one, up to the first refusal.
#[tactic(auto, using(crate::proofs::Inserting::one_more))]
fn insert_into<R: Rows>(
    target: &Target<'_>,
    rows: &R,
    values: &[ValueRow],
    writes: &mut Writes,
) -> Result<(), Fault>
    requires made { IsMade target.now.from (R.rows rows.now) }
    requires empty { writes.old ≡ [] }
    ensures fills { Fills (all_inserted target.now (R.rows rows.now) values.now)
        result writes.new }
    ensures fresh { OnOk result (IsTrue (are_fresh target.now (R.rows rows.now) writes.new)) }
{
    for row in values {
        match insert_one(target, rows, row, writes) {
            Ok(()) => {}
            Err(fault) => return Err(fault),
        }
    }
    Ok(())
}

/// Inserts one row beside the rows before the statement and its earlier rows.
#[tactic(auto, using(crate::proofs::Inserting::inserted_put, crate::proofs::Inserting::key_refused, crate::proofs::Inserting::parent_refused, crate::proofs::Inserting::new_put))]
fn insert_one<R: Rows>(
    target: &Target<'_>,
    rows: &R,
    values: &ValueRow,
    earlier: &mut Writes,
) -> Result<(), Fault>
    requires made { IsMade target.now.from (R.rows rows.now) }
    requires fresh { IsTrue (are_fresh target.now (R.rows rows.now) earlier.old) }
    ensures fills { Fills (one_inserted target.now (R.rows rows.now) earlier.old values.now)
        result earlier.new }
    ensures fresh { OnOk result (IsTrue (are_fresh target.now (R.rows rows.now) earlier.new)) }
{
    let slot = slot_of(target, values.items())?;
    if !is_free_beside(target, rows, earlier, &slot) {
        return Err(Fault::DuplicateKey);
    }
    let refs = bind_parents(target, rows, values.items())?;
    let values = copied(target.alloc, values.items())?;
    let write = write_of(target.alloc, slot, values, refs)?;
    earlier.put(write)?;
    Ok(())
}

/// Whether a slot's key is free, among the rows before the statement and its earlier rows.
#[tactic(auto, using(crate::proofs::NewRows::clash_after))]
fn is_free_beside<R: Rows>(target: &Target<'_>, rows: &R, earlier: &Writes, slot: &Slot) -> bool
    requires made { IsMade target.now.from (R.rows rows.now) }
    requires label { slot.now.label ≡ target.now.from.label.now }
    requires fresh { IsTrue (are_new (R.rows rows.now) slot.now.table slot.now.label earlier.now) }
    ensures free { result
        ≡ not (is_clashing target.now (after (R.rows rows.now) earlier.now) slot.now) }
    ensures before { IsTrue result → is_clashing target.now (R.rows rows.now) slot.now ≡ false }
{
    let _ = earlier.items();
    let before = is_free(
        rows,
        target.from.tags,
        slot.table,
        slot.key.items(),
        &slot.label,
    );
    let written = earlier.is_written(slot);
    before && !written
}

/// Where a new row stands.
fn slot_of(target: &Target<'_>, values: &[Value]) -> Result<Slot, OutOfMemory>
    ensures { IfOk result (λ slot. slot ≡ slot_of target.now values.now) }
{
    let key = values_at(target.alloc, values, target.schema.key.items())?;
    let label = target.from.label.share()?;
    Ok(Slot {
        table: target.table,
        key,
        label,
    })
}

/// A row that is written.
pub(crate) fn write_of(
    alloc: Global,
    slot: Slot,
    values: Values,
    refs: Sequence<Slot>,
) -> Result<Write, OutOfMemory>
    ensures { IfOk result (λ write. write ≡ new_write slot values refs) }
{
    let row = Row {
        slot: slot.copy(alloc)?,
        values,
        refs: Refs::from_vec(alloc, refs.into_vec())?,
    };
    let row = Shared::new(alloc, row)?;
    Ok(Write {
        slot,
        row: Some(row),
    })
}
