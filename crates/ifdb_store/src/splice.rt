// One write put into rows in one list of values.
ghost use Rattle.std.specs.Prelude.{◌≡◌, ◌+◌, ◌≤◌, [], IsTrue, length};
ghost use Rattle.ifdb_row.specs.ByReference.{row_of, slot_of};
ghost use Rattle.ifdb_row.specs.Content.{rising};
ghost use Rattle.ifdb_row.specs.Reach.{reach};
ghost use Rattle.ifdb_row.specs.Runs.{rows_in};
ghost use Rattle.ifdb_row.specs.Slots.{slot_lt};
ghost use Rattle.ifdb_store.specs.Stands.{stands};

use ifdb_row::{Head, Refs, RowRef, RowTest, Run, SlotRef};
use ifdb_value::Value;

/// A gap between rows: those from one place to before another make way.
#[derive(Clone, Copy)]
pub(crate) struct Gap {
    /// How many rows stay before it.
    pub(crate) from: usize,
    /// The place of the first row that stays behind it.
    pub(crate) to: usize,
    ghost order: { from ≤ to },
}

/// What is put into a gap: rows in the parts of which an even run is made, as many values for each as for the rows around it.
#[derive(Clone, Copy)]
pub(crate) struct Inset<'a> {
    /// Their tables and labels.
    pub(crate) heads: &'a [Head],
    /// What they refer to, one list for each.
    pub(crate) refs: &'a [Refs],
    /// The first of their values.
    pub(crate) key: &'a [Value],
    /// The other ones.
    pub(crate) values: &'a [Value],
}

impl Inset<'_> {
    /// No row.
    pub(crate) fn none() -> Self
        ensures heads { result.heads.now ≡ [] }
        ensures refs { result.refs.now ≡ [] }
        ensures key { result.key.now ≡ [] }
        ensures values { result.values.now ≡ [] }
    {
        Inset {
            heads: &[],
            refs: &[],
            key: &[],
            values: &[],
        }
    }
}

/// Where a slot's row belongs among rows: in place of the one that stands in the slot, if one does.
pub(crate) fn gap_for(rows: Run<'_>, slot: SlotRef<'_>) -> Gap
    requires { IsTrue (rising (rows_in rows)) }
    ensures from { result.from ≡ reach (λ r. slot_lt r.slot (slot_of slot.entry)) (rows_in rows.entry) }
    ensures to { result.to ≡ result.from + stands (slot_of slot.entry) (rows_in rows.entry) }
    ensures within { result.to ≤ length (rows_in rows.entry) }
{
    let from = rows.count_passing(&BeforeSlot { slot });
    Gap {
        from,
        to: behind(rows, from, slot),
    }
}

/// The place behind the row that stands in a slot, which is at this place if anywhere; this place, if none does.
fn behind(rows: Run<'_>, at: usize, slot: SlotRef<'_>) -> usize
    requires rising { IsTrue (rising (rows_in rows)) }
    requires place { at ≡ reach (λ r. slot_lt r.slot (slot_of slot)) (rows_in rows) }
    ensures place { result ≡ at + stands (slot_of slot.entry) (rows_in rows.entry) }
    ensures within { at ≤ length (rows_in rows.entry) → result ≤ length (rows_in rows.entry) }
{
    if at < rows.len() && slot.is_same(rows.row(at).slot) {
        at + 1
    } else {
        at
    }
}

/// A row before a slot.
#[derive(Drop)]
struct BeforeSlot<'a> {
    slot: SlotRef<'a>,
}

impl RowTest for BeforeSlot<'_> {
    ghost use Rattle.ifdb_row.specs.declared.row.Row.{Row};
    ghost use Rattle.ifdb_row.specs.ByReference.{slot_of};
    ghost use Rattle.ifdb_row.specs.Slots.{slot_lt};

    ghost passes = { λ t (r : Row). slot_lt r.slot (slot_of t.slot) };

    fn passes(&self, row: RowRef<'_>) -> bool {
        row.slot.is_before(self.slot)
    }
}
