// The rows that UPDATE and DELETE are about.
ghost use Rattle.std.specs.Prelude.{◌≡◌, ◌∷◌, ◌++◌, [], IfOk, OnOk, IsTrue, length, map};
ghost use Rattle.ifdb_label.specs.Tags.{AreMade};
ghost use Rattle.ifdb_bound.specs.Conditions.{passes};
ghost use Rattle.ifdb_row.specs.ByReference.{row_of};
ghost use Rattle.ifdb_row.specs.Content.{rising};
ghost use Rattle.ifdb_row.specs.Runs.{rows_in};
ghost use Rattle.ifdb_row.specs.Seen.{are_rows_made};
ghost use Rattle.ifdb_row.specs.Slots.{is_same_label};
ghost use Rattle.ifdb_foreign.specs.Parents.{IsMade};
ghost use Rattle.ifdb_model.specs.Writes.{are_writable, deletion};
ghost use Rattle.ifdb_plan.specs.Ranges.{HasRange};
ghost use Rattle.ifdb_txn.specs.Matches.{is_wanted, wanted_of};
ghost use Rattle.ifdb_txn.specs.Scenes.{are_under_keys, matched_of};

use crate::OutOfMemory;
use crate::target::Target;
use ifdb_bound::BoundCond;
use ifdb_expr::{Frame, SeenRow, holds};
use ifdb_foreign::Standpoint;
use ifdb_label::Label;
use ifdb_plan::cond_range;
use ifdb_row::{KeyRange, RowRef, Rows, Run, SlotRef, Write};
use ifdb_value::Value;
use std::alloc::Global;

/// The rows of the table that the session's label sees and of which the condition holds, in the order of slots.
///
/// Only the rows of the range in which literals of the condition leave the key are looked at: where they give the whole key,
/// those of that key alone.
pub(crate) fn matched<'a, R: Rows>(
    target: &Target<'_>,
    rows: &'a R,
    cond: &Option<BoundCond>,
) -> Result<Vec<RowRef<'a>>, OutOfMemory>
    requires made { IsMade target.now.from (R.rows rows.now) }
    requires keyed { IsTrue (are_under_keys target.now (R.rows rows.now)) }
    ensures rows { IfOk result (λ found. map row_of found.items
        ≡ matched_of target.now (R.rows rows.now) cond.now) }
    ensures rising { IfOk result (λ found. IsTrue (rising (map row_of found.items))) }
{
    let range = cond_range(target.alloc, cond, target.schema.key.items())?;
    matched_within(target, rows, cond, &range)
}

/// The same rows, where each row for which the condition holds has its key in a range.
fn matched_within<'a, R: Rows>(
    target: &Target<'_>,
    rows: &'a R,
    cond: &Option<BoundCond>,
    range: &KeyRange,
) -> Result<Vec<RowRef<'a>>, OutOfMemory>
    requires made { IsMade target.now.from (R.rows rows.now) }
    requires keyed { IsTrue (are_under_keys target.now (R.rows rows.now)) }
    requires has_range { HasRange cond.now target.now.schema.now.key range.now }
    ensures rows { IfOk result (λ found. map row_of found.items
        ≡ matched_of target.now (R.rows rows.now) cond.now) }
    ensures rising { IfOk result (λ found. IsTrue (rising (map row_of found.items))) }
{
    let mut found: Vec<RowRef<'a>> = Vec::new(target.alloc);
    let mut after: Option<SlotRef<'a>> = None;
    loop {
        let run = rows.within(target.table, range, after);
        let Some(last) = run.last() else {
            return Ok(found);
        };
        keep_matched(target.from, run, cond, &mut found)?;
        after = Some(last.slot);
    }
}

/// Adds those of some rows that the label sees and of which the condition holds.
fn keep_matched<'a>(
    from: Standpoint<'_>,
    run: Run<'a>,
    cond: &Option<BoundCond>,
    found: &mut Vec<RowRef<'a>>,
) -> Result<(), OutOfMemory>
    requires rows_made { IsTrue (are_rows_made (length from.tags.now) (rows_in run)) }
    requires label_made { AreMade (length from.tags.now) from.label.now }
    ensures { OnOk result (map row_of found.new.items
        ≡ map row_of found.old.items ++ wanted_of from.entry cond.now (rows_in run.entry)) }
{
    for place in 0..run.len() {
        keep_wanted(from, run.row(place), cond, found)?;
    }
    Ok(())
}

/// Adds a row, if the label sees it and the condition holds.
fn keep_wanted<'a>(
    from: Standpoint<'_>,
    row: RowRef<'a>,
    cond: &Option<BoundCond>,
    found: &mut Vec<RowRef<'a>>,
) -> Result<(), OutOfMemory>
    requires row_made { AreMade (length from.tags.now) (row_of row).slot.label }
    requires label_made { AreMade (length from.tags.now) from.label.now }
    ensures { OnOk result (map row_of found.new.items
        ≡ map row_of found.old.items ++ wanted_of from.entry cond.now (row_of row.entry ∷ [])) }
{
    if is_wanted(from, row, cond) {
        found.push(row)?;
    }
    Ok(())
}

/// Whether the label sees the row, and the condition holds.
fn is_wanted(from: Standpoint<'_>, row: RowRef<'_>, cond: &Option<BoundCond>) -> bool
    requires row_made { AreMade (length from.tags.now) (row_of row).slot.label }
    requires label_made { AreMade (length from.tags.now) from.label.now }
    ensures { result ≡ is_wanted from.entry.tags.now cond.now from.entry.label.now (row_of row.entry) }
{
    row.slot.label.flows(from.tags, from.label) && passes(cond, row.values)
}

/// Whether a condition that may be left out holds of one row.
fn passes(cond: &Option<BoundCond>, values: &[Value]) -> bool
    ensures { result ≡ passes cond.now (values.now ∷ []) }
{
    match cond {
        Some(cond) => {
            let row = SeenRow { values, label: &[] };
            holds(cond, &Frame::empty().with(row))
        }
        None => true,
    }
}

/// Whether each row has the label.
#[tactic(auto, using(crate::proofs::Matching::all_map))]
pub(crate) fn are_writable(label: &Label, rows: &[RowRef<'_>]) -> bool
    ensures { result ≡ are_writable label.now (map row_of rows.now) }
{
    for row in rows {
        if !is_same_label(row.slot.label, label) {
            return false;
        }
    }
    true
}

/// Whether two labels are the same.
fn is_same_label(label: &Label, other: &Label) -> bool
    ensures { result ≡ is_same_label label.now other.now }
{
    label.tags().cmp(other.tags()).is_eq()
}

/// The deletions of some rows.
pub(crate) fn deletions(alloc: Global, rows: &[RowRef<'_>]) -> Result<Vec<Write>, OutOfMemory>
    ensures { IfOk result (λ writes. writes.items ≡ map deletion (map row_of rows.now)) }
{
    let mut writes = Vec::with_capacity(alloc, rows.len())?;
    for row in rows {
        let slot = row.slot.to_slot(alloc)?;
        writes.push(Write { slot, row: None })?;
    }
    Ok(writes)
}
