// The parents that a row is bound to.
ghost use Rattle.std.specs.Prelude.{◌≡◌, ◌++◌, IfOk, OnOk, option_to_list};
ghost use Rattle.std.specs.Option.{option_copied};
ghost use Rattle.ifdb_bound.specs.Expressions.{value_at};
ghost use Rattle.ifdb_catalog.specs.Statements.{values_at};
ghost use Rattle.ifdb_model.specs.Writes.{binds, bound_parent, refs_behind};
ghost use Rattle.ifdb_row.specs.ByReference.{row_of};
ghost use Rattle.ifdb_foreign.specs.Parents.{Binds, IsMade};
ghost use Rattle.ifdb_txn.specs.Scenes.{parents_of, rebound_of, scene_of};
ghost use Rattle.ifdb_txn.specs.Rebinding.{kept_of, kept_or_bound, parent_where};

use crate::OutOfMemory;
use crate::assigned::is_assigned;
use crate::target::Target;
use ifdb_bound::{BoundAssignment, Foreign};
use ifdb_catalog::are_given;
use ifdb_expr::value_in;
use ifdb_foreign::bind_parent;
use ifdb_row::{RowRef, Rows, Slot, Values};
use ifdb_value::{Sequence, Value};
use ifdb_wire::Fault;
use std::alloc::Global;

/// The parents of a row with these values, by each of the table's foreign keys that binds, in their order.
#[tactic(auto, using(crate::proofs::Binding::with_parent, crate::proofs::Binding::without_parent))]
pub(crate) fn bind_parents<R: Rows>(
    target: &Target<'_>,
    rows: &R,
    values: &[Value],
) -> Result<Sequence<Slot>, Fault>
    requires made { IsMade target.now.from (R.rows rows.now) }
    ensures { Binds (parents_of target.now (R.rows rows.now) values.now) result }
{
    let mut refs = Sequence::new(target.alloc);
    for foreign in target.schema.foreign.items() {
        let parent = parent_where(target, rows, values, foreign, None)?;
        push(&mut refs, parent)?;
    }
    Ok(refs)
}

/// The parents of a row that is updated to these values: those of the foreign keys with an assigned column are bound anew, and the
/// others stay. A row has a reference for each foreign key that its old values bind, so the old values tell which one is whose.
#[tactic(auto, using(crate::proofs::Binding::rebound_with, crate::proofs::Binding::rebound_without))]
pub(crate) fn rebind_parents<R: Rows>(
    target: &Target<'_>,
    rows: &R,
    assignments: &[BoundAssignment],
    row: RowRef<'_>,
    values: &[Value],
) -> Result<Sequence<Slot>, Fault>
    requires made { IsMade target.now.from (R.rows rows.now) }
    ensures { Binds (rebound_of target.now (R.rows rows.now) assignments.now (row_of row.entry)
        values.now)
        result }
{
    let mut found = Sequence::new(target.alloc);
    let mut refs = row.parents();
    for foreign in target.schema.foreign.items() {
        let kept = kept(assignments, foreign, refs.first());
        let parent = parent_where(target, rows, values, foreign, kept)?;
        push(&mut found, parent)?;
        refs = behind(refs, binds(row.values, foreign));
    }
    Ok(found)
}

/// The parent of a row with these values by a foreign key: the slot that is kept, or else one that is found; none where the
/// foreign key doesn't bind.
fn parent_where<R: Rows>(
    target: &Target<'_>,
    rows: &R,
    values: &[Value],
    foreign: &Foreign,
    kept: Option<&Slot>,
) -> Result<Option<Slot>, Fault>
    requires made { IsMade target.now.from (R.rows rows.now) }
    ensures { Binds (parent_where (binds values.now foreign.now)
        (kept_or_bound (scene_of target.now (R.rows rows.now)) values.now foreign.now
        (option_copied kept.entry))) result }
{
    if !binds(values, foreign) {
        return Ok(None);
    }
    let slot = kept_or_bound(target, rows, values, foreign, kept)?;
    Ok(Some(slot))
}

/// Whether a foreign key binds a row with these values: none of its columns is NULL.
fn binds(values: &[Value], foreign: &Foreign) -> bool
    ensures { result ≡ binds values.now foreign.now }
{
    are_given(values, foreign.columns.items())
}

/// One parent more, where there is one.
fn push(refs: &mut Sequence<Slot>, parent: Option<Slot>) -> Result<(), OutOfMemory>
    ensures { OnOk result (refs.new ≡ refs.old ++ option_to_list parent) }
{
    match parent {
        Some(slot) => refs.push(slot),
        None => Ok(()),
    }
}

/// The references behind that of a foreign key, which has one where it bound.
fn behind(refs: &[Slot], bound: bool) -> &[Slot]
    ensures { result.now ≡ refs_behind bound refs.now }
{
    match refs {
        [_, rest @ ..] if bound => rest,
        _ => refs,
    }
}

/// The slot that a row was bound to, if no column of the foreign key is assigned.
fn kept<'a>(
    assignments: &[BoundAssignment],
    foreign: &Foreign,
    bound: Option<&'a Slot>,
) -> Option<&'a Slot>
    ensures { option_copied result
        ≡ kept_of assignments.now foreign.now (option_copied bound.entry) }
{
    if is_assigned(assignments, foreign) {
        return None;
    }
    bound
}

/// The slot that is kept, or else the parent of a row with these values.
fn kept_or_bound<R: Rows>(
    target: &Target<'_>,
    rows: &R,
    values: &[Value],
    foreign: &Foreign,
    kept: Option<&Slot>,
) -> Result<Slot, Fault>
    requires made { IsMade target.now.from (R.rows rows.now) }
    ensures { Binds (kept_or_bound (scene_of target.now (R.rows rows.now)) values.now foreign.now
        (option_copied kept.entry)) result }
{
    match kept {
        Some(slot) => {
            let copy = slot.copy(target.alloc)?;
            Ok(copy)
        }
        None => parent_by(target, rows, values, foreign),
    }
}

/// The parent of a row with these values, by one foreign key.
fn parent_by<R: Rows>(
    target: &Target<'_>,
    rows: &R,
    values: &[Value],
    foreign: &Foreign,
) -> Result<Slot, Fault>
    requires made { IsMade target.now.from (R.rows rows.now) }
    ensures { Binds (bound_parent (scene_of target.now (R.rows rows.now)) values.now foreign.now)
        result }
{
    let key = values_at(target.alloc, values, foreign.columns.items())?;
    bind_parent(target.alloc, target.from, rows, foreign.parent, key.items())
}

/// The values at some places; 0 where there is none.
pub(crate) fn values_at(
    alloc: Global,
    values: &[Value],
    places: &[usize],
) -> Result<Values, OutOfMemory>
    ensures { IfOk result (λ found. found ≡ values_at values.now places.now) }
{
    let mut found = Values::with_capacity(alloc, places.len())?;
    for place in places {
        found.push(value_at(alloc, values, *place)?)?;
    }
    Ok(found)
}

/// The value at a place; 0 where there is none.
fn value_at(alloc: Global, values: &[Value], place: usize) -> Result<Value, OutOfMemory>
    ensures { IfOk result (λ value. value ≡ value_at values.now place) }
{
    value_in(values, place).to_value(alloc)
}
