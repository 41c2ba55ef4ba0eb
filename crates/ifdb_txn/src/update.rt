// UPDATE.
ghost use Rattle.std.specs.Prelude.{◌≡◌, ◌++◌, ◌∷◌, [], OnOk, map, IsTrue};
ghost use Rattle.ifdb_row.specs.ByReference.{row_of};
ghost use Rattle.ifdb_row.specs.Content.{rising};
ghost use Rattle.ifdb_foreign.specs.Parents.{IsMade};
ghost use Rattle.ifdb_txn.specs.Answers.{Fills, Gives};
ghost use Rattle.ifdb_txn.specs.Scenes.{all_updated, one_updated};

use crate::OutOfMemory;
use crate::assigned::assigned;
use crate::insert::write_of;
use crate::parents::rebind_parents;
use crate::target::Target;
use ifdb_bound::BoundAssignment;
use ifdb_row::{RowRef, Rows, Write, Writes};
use ifdb_wire::Fault;

/// What an UPDATE of rows writes, in their order, or its first refusal: the first row's that is refused, and of that OutOfRange before
/// NoReference.
#[tactic(auto, using(crate::proofs::Updating::updated_rising, crate::proofs::Updating::updated_fitting))]
pub(crate) fn update_all<R: Rows>(
    target: &Target<'_>,
    rows: &R,
    assignments: &[BoundAssignment],
    matched: &[RowRef<'_>],
) -> Result<Writes, Fault>
    requires made { IsMade target.now.from (R.rows rows.now) }
    requires rising { IsTrue (rising (map row_of matched.now)) }
    ensures { Gives (all_updated target.now (R.rows rows.now) assignments.now
        (map row_of matched.now)) result }
{
    let mut writes = Vec::new(target.alloc);
    update_into(target, rows, assignments, matched, &mut writes)?;
    Ok(Writes::from_vec(writes))
}

/// Updates the rows one by one, up to the first refusal.
#[tactic(auto, using(crate::proofs::Updating::one_more))]
fn update_into<R: Rows>(
    target: &Target<'_>,
    rows: &R,
    assignments: &[BoundAssignment],
    matched: &[RowRef<'_>],
    writes: &mut Vec<Write>,
) -> Result<(), Fault>
    requires made { IsMade target.now.from (R.rows rows.now) }
    requires empty { writes.old.items ≡ [] }
    ensures { Fills (all_updated target.now (R.rows rows.now) assignments.now
        (map row_of matched.now)) result writes.new.items }
{
    for row in matched {
        match update_one(target, rows, assignments, *row) {
            Ok(write) => push(writes, write)?,
            Err(fault) => return Err(fault),
        }
    }
    Ok(())
}

/// A row updated.
#[tactic(auto, using(crate::proofs::Rebound::updated_is, crate::proofs::Rebound::updated_range, crate::proofs::Rebound::updated_ref))]
fn update_one<R: Rows>(
    target: &Target<'_>,
    rows: &R,
    assignments: &[BoundAssignment],
    row: RowRef<'_>,
) -> Result<Write, Fault>
    requires made { IsMade target.now.from (R.rows rows.now) }
    ensures { Gives (one_updated target.now (R.rows rows.now) assignments.now (row_of row.entry))
        result }
{
    let values = assigned(target.alloc, row.values, assignments)?;
    let refs = rebind_parents(target, rows, assignments, row, values.items())?;
    let slot = row.slot.to_slot(target.alloc)?;
    let write = write_of(target.alloc, slot, values, refs)?;
    Ok(write)
}

/// One more write.
fn push(writes: &mut Vec<Write>, write: Write) -> Result<(), OutOfMemory>
    ensures { OnOk result (writes.new.items ≡ writes.old.items ++ write ∷ []) }
{
    writes.push(write)?;
    Ok(())
}
