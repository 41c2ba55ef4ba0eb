// Writes put into rows.
ghost use Rattle.std.specs.Prelude.{◌≡◌, ◌≤◌, ◌++◌, IfOk, IsTrue, OnOk, length, map};
ghost use Rattle.std.specs.List.{list_any};
ghost use Rattle.ifdb_row.specs.ByReference.{row_of, slot_of};
ghost use Rattle.ifdb_row.specs.Slots.{is_same_slot, slot_lt};
ghost use Rattle.ifdb_row.specs.Writes.{are_fitting};
ghost use Rattle.ifdb_row.specs.Content.{after, place, rising};
ghost use Rattle.ifdb_row.specs.Reach.{reach};
ghost use Rattle.ifdb_row.specs.Runs.{rows_in};

use crate::search;
use ifdb_row::{Edge, OutOfMemory, RowRef, Run, SlotRef, Write};
use std::alloc::Global;

/// How many rows stand before a slot.
fn place_of(rows: &[RowRef<'_>], slot: SlotRef<'_>) -> usize
    requires { IsTrue (rising (map row_of rows.now)) }
    ensures reach { result ≡ reach (λ r. slot_lt r.slot (slot_of slot.entry)) (map row_of rows.now) }
    ensures within { result ≤ length rows.now }
{
    search::place(rows, &Edge::At(*slot.table, slot.key, slot.label))
}

/// Whether a row stands in the slot, which is at this place if anywhere.
fn stands(rows: &[RowRef<'_>], at: usize, slot: SlotRef<'_>) -> bool
    requires rising { IsTrue (rising (map row_of rows.now)) }
    requires place { at ≡ reach (λ r. slot_lt r.slot (slot_of slot)) (map row_of rows.now) }
    ensures { result ≡ list_any (λ r. is_same_slot (slot_of slot.entry) r.slot) (map row_of rows.now) }
{
    if at < rows.len() {
        slot.is_same(rows[at].slot)
    } else {
        false
    }
}

/// Puts a write into rows. Where memory is refused, the rows are as before.
fn put<'a>(rows: &mut Vec<RowRef<'a>>, write: &'a Write) -> Result<(), OutOfMemory>
    requires { IsTrue (rising (map row_of rows.old.items)) }
    ensures { OnOk result (map row_of rows.new.items
        ≡ place write.now.slot write.now.row (map row_of rows.old.items)) }
{
    let slot = write.slot.by_ref();
    let at = place_of(rows, slot);
    let there = stands(rows, at, slot);
    match &write.row {
        Some(row) => {
            let row = row.get().by_ref();
            if there {
                rows[at] = row;
            } else {
                rows.insert(at, row)?;
            }
        }
        None => {
            if there {
                rows.remove(at);
            }
        }
    }
    Ok(())
}

/// The rows after writes.
pub(crate) fn rows_after<'a>(
    alloc: Global,
    rows: Run<'a>,
    writes: &'a [Write],
) -> Result<Vec<RowRef<'a>>, OutOfMemory>
    requires rising { IsTrue (rising (rows_in rows)) }
    requires fitting { IsTrue (are_fitting writes.now) }
    ensures rows { IfOk result (λ all. map row_of all.items ≡ after (rows_in rows.entry) writes.now) }
    ensures rising { IfOk result (λ all. IsTrue (rising (map row_of all.items))) }
{
    let mut all = Vec::with_capacity(alloc, rows.len().saturating_add(writes.len()))?;
    add_rows(rows, &mut all)?;
    for write in writes {
        put(&mut all, write)?;
    }
    Ok(all)
}

/// Adds the rows of a run.
pub(crate) fn add_rows<'a>(rows: Run<'a>, out: &mut Vec<RowRef<'a>>) -> Result<(), OutOfMemory>
    ensures { OnOk result (map row_of out.new.items
        ≡ map row_of out.old.items ++ rows_in rows.entry) }
{
    for place in 0..rows.len() {
        out.push(rows.row(place))?;
    }
    Ok(())
}
