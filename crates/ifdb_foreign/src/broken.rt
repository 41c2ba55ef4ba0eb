// What writes break, seen from the rows before them: a written row whose parent is gone, and a row whose parent the writes empty.
ghost use Rattle.std.specs.Prelude.{◌≡◌, ◌&&◌, not, find, IsTrue, Some};
ghost use Rattle.std.specs.List.{list_any};
ghost use Rattle.std.specs.Option.{option_copied};
ghost use Rattle.ifdb_row.specs.ByReference.{option_row, row_of};
ghost use Rattle.ifdb_row.specs.Content.{after, live, rising};
ghost use Rattle.ifdb_row.specs.Questions.{earlier, if_passes, is_child_of};
ghost use Rattle.ifdb_row.specs.Writes.{are_fitting, are_rising, deletes, is_written};
ghost use Rattle.ifdb_row.specs.Verdict.{empties_parent, first_left, is_broken, is_left, left_at};
ghost use Rattle.ifdb_foreign.specs.Left.{first_written, shown_left, unwritten};

use ifdb_row::{RowRef, Rows, Slot, SlotRef, Write, Writes};
use ifdb_value::TableId;

/// A row that is left without a parent.
#[derive(Clone, Copy)]
pub struct LeftRow<'a> {
    /// Its slot.
    pub child: SlotRef<'a>,
    /// The first of its parents, in the order of slots, that the writes empty.
    pub parent: &'a Slot,
}

/// The first write, in the order of slots, whose row is bound to a slot in which no row stands after the writes.
///
/// Takes no memory, and costs two look-ups for each reference of a written row.
pub fn first_broken<'a, R: Rows>(before: &R, writes: &'a Writes) -> Option<&'a Write>
    ensures { option_copied result
        ≡ find (λ w. is_broken (after (R.rows before.now) writes.now) w.row) writes.now }
{
    for write in writes.items() {
        if is_broken(before, writes, write) {
            return Some(write);
        }
    }
    None
}

/// Whether the write's row, if it has one, is bound to a slot in which no row stands after the writes.
fn is_broken<R: Rows>(before: &R, writes: &Writes, write: &Write) -> bool
    ensures { result ≡ is_broken (after (R.rows before.now) writes.now) write.now.row }
{
    match &write.row {
        None => false,
        Some(row) => has_gone(before, writes, row.get().refs.items()),
    }
}

/// Whether some slot of the list is empty after the writes.
fn has_gone<R: Rows>(before: &R, writes: &Writes, refs: &[Slot]) -> bool
    ensures { result
        ≡ list_any (λ p. not (live (after (R.rows before.now) writes.now) p)) refs.now }
{
    for slot in refs {
        if !is_live_after(before, writes, slot) {
            return true;
        }
    }
    false
}

/// Whether a row stands in the slot after the writes.
fn is_live_after<R: Rows>(before: &R, writes: &Writes, slot: &Slot) -> bool
    ensures { result ≡ live (after (R.rows before.now) writes.now) slot.now }
{
    let _ = writes.items();
    let stood = is_live(before, slot);
    match writes.get(slot) {
        Some(write) => write.row.is_some(),
        None => stood,
    }
}

/// Whether a row stands in the slot.
fn is_live<R: Rows>(rows: &R, slot: &Slot) -> bool
    ensures live { result ≡ live (R.rows rows.now) slot.now }
    ensures rising { IsTrue (rising (R.rows rows.now)) }
{
    match rows.get(slot.by_ref()) {
        Some(_) => true,
        None => false,
    }
}

/// The first row, in the order of slots, that is bound after the writes to a slot which they empty.
///
/// Takes no memory. Costs a look-up for each reference of a written row, and for each emptied slot the questions for its children, up to the
/// first that isn't written.
pub fn first_left<'a, R: Rows>(before: &'a R, writes: &'a Writes) -> Option<LeftRow<'a>>
    ensures { shown_left result ≡ first_left (after (R.rows before.now) writes.now) writes.now }
{
    match first_child(before, writes) {
        Some(row) => parent_emptied(row, writes.items()),
        None => None,
    }
}

/// The first row that is bound after the writes to a slot which they empty.
fn first_child<'a, R: Rows>(before: &'a R, writes: &'a Writes) -> Option<RowRef<'a>>
    ensures { option_row result
        ≡ find (is_left writes.now) (after (R.rows before.now) writes.now) }
{
    let kept = first_kept(before, writes);
    let written = first_written(writes, writes.items());
    earlier(kept, written)
}

/// The first such row of those before that aren't written.
fn first_kept<'a, R: Rows>(before: &'a R, writes: &Writes) -> Option<RowRef<'a>>
    ensures row { option_row result
        ≡ find (unwritten writes.now (is_left writes.now)) (R.rows before.now) }
    ensures rising { IsTrue (rising (R.rows before.now)) }
{
    // Each answer also says that the rows rise.
    let _ = before.next(TableId(0), None);
    let mut child: Option<RowRef<'a>> = None;
    for write in writes.items() {
        child = earlier(child, kept_child(before, writes, write));
    }
    child
}

/// The first row of those before that isn't written and is bound to the write's slot, if the write empties it.
fn kept_child<'a, R: Rows>(before: &'a R, writes: &Writes, write: &Write) -> Option<RowRef<'a>>
    ensures { option_row result
        ≡ find (unwritten writes.now (λ r. empties_parent r write.now)) (R.rows before.now) }
{
    match &write.row {
        Some(_) => None,
        None => unwritten_child(before, writes, &write.slot),
    }
}

/// The first row that isn't written and is bound to a slot.
fn unwritten_child<'a, R: Rows>(before: &'a R, writes: &Writes, slot: &Slot) -> Option<RowRef<'a>>
    ensures { option_row result ≡ find
        (λ r. not (is_written writes.now r.slot) && is_child_of slot.now r) (R.rows before.now) }
{
    let mut after: Option<SlotRef<'a>> = None;
    'children: while let Some(row) = before.bound_to(slot.by_ref(), after) {
        if !writes.has(row.slot) {
            return Some(row);
        }
        after = Some(row.slot);
    }
    None
}

/// The first of some written rows that is bound to a slot which the writes empty.
fn first_written<'a>(writes: &Writes, items: &'a [Write]) -> Option<RowRef<'a>>
    requires rising { IsTrue (are_rising items.now) }
    requires fitting { IsTrue (are_fitting items.now) }
    ensures { option_row result ≡ first_written (is_left writes.now) items.now }
{
    // A loop, since a transaction may have more writes than a stack has room for calls.
    let mut items = items;
    while let [write, rest @ ..] = items {
        if let Some(row) = left_row(writes, write) {
            return Some(row);
        }
        items = rest;
    }
    None
}

/// The write's row, if it is bound to a slot which the writes empty.
fn left_row<'a>(writes: &Writes, write: &'a Write) -> Option<RowRef<'a>>
    ensures { option_row result ≡ if_passes (is_left writes.now) write.now.row }
{
    match &write.row {
        Some(row) => if_left(writes, row.get().by_ref()),
        None => None,
    }
}

/// The row, if it is bound to a slot which the writes empty.
fn if_left<'a>(writes: &Writes, row: RowRef<'a>) -> Option<RowRef<'a>>
    ensures { option_row result ≡ if_passes (is_left writes.now) (Some (row_of row.entry)) }
{
    for parent in row.parents() {
        if empties(writes, parent) {
            return Some(row);
        }
    }
    None
}

/// Whether the writes empty a slot.
#[tactic(auto, using(crate::proofs::AfterWrites::deletes_at))]
fn empties(writes: &Writes, slot: &Slot) -> bool
    ensures { result ≡ deletes writes.now slot.now }
{
    let _ = writes.items();
    match writes.get(slot) {
        Some(write) => write.row.is_none(),
        None => false,
    }
}

/// Of two rows, the one that stands first.
fn earlier<'a>(row: Option<RowRef<'a>>, other: Option<RowRef<'a>>) -> Option<RowRef<'a>>
    ensures { option_row result ≡ earlier (option_row row.entry) (option_row other.entry) }
{
    match (row, other) {
        (Some(first), Some(second)) => {
            if second.slot.is_before(first.slot) {
                Some(second)
            } else {
                Some(first)
            }
        }
        (Some(first), None) => Some(first),
        (None, other) => other,
    }
}

/// The row, with the first of its parents that the writes empty.
fn parent_emptied<'a>(row: RowRef<'a>, writes: &'a [Write]) -> Option<LeftRow<'a>>
    ensures { shown_left result ≡ left_at writes.now (row_of row.entry) }
{
    for write in writes {
        if empties_parent(row, write) {
            return Some(LeftRow {
                child: row.slot,
                parent: &write.slot,
            });
        }
    }
    None
}

/// Whether the write empties a slot that the row is bound to.
fn empties_parent(row: RowRef<'_>, write: &Write) -> bool
    ensures { result ≡ empties_parent (row_of row.entry) write.now }
{
    write.row.is_none() && row.is_child_of(write.slot.by_ref())
}
