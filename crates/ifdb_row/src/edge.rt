// Places between slots.
ghost use Rattle.std.specs.Prelude.{◌≡◌};
ghost use Rattle.ifdb_row.specs.ByReference.{slot_of};
ghost use Rattle.ifdb_row.specs.Edges.{lies_before};

use crate::order::{compare_front, compare_keys};
use crate::slot::SlotRef;
use ifdb_label::Label;
use ifdb_value::{TableId, Value};

/// A place between slots, from which rows are looked up.
#[derive(Clone, Copy)]
pub enum Edge<'a> {
    /// Before all slots of a table.
    Table(TableId),
    /// Before all slots of a table's key.
    Key(TableId, &'a [Value]),
    /// Behind all slots of a table whose keys begin with these values.
    Past(TableId, &'a [Value]),
    /// Before the slot with these parts.
    At(TableId, &'a [Value], &'a Label),
    /// Behind the slot with these parts.
    Behind(TableId, &'a [Value], &'a Label),
}

impl<'a> Edge<'a> {
    /// Whether a slot stands before the edge.
    pub fn is_behind(&self, slot: SlotRef<'_>) -> bool
        ensures { result ≡ lies_before self.now (slot_of slot.entry) }
    {
        match self {
            Edge::Table(table) => *slot.table < *table,
            Edge::Key(table, key) => {
                if *slot.table == *table {
                    compare_keys(slot.key, key).is_lt()
                } else {
                    *slot.table < *table
                }
            }
            Edge::Past(table, values) => {
                if *slot.table == *table {
                    compare_front(slot.key, values).is_le()
                } else {
                    *slot.table < *table
                }
            }
            Edge::At(table, key, label) => slot.is_before(SlotRef { table, key, label }),
            Edge::Behind(table, key, label) => !SlotRef { table, key, label }.is_before(slot),
        }
    }
}
