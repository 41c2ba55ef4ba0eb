// Marks: plain values that tell most slots apart.
ghost use Rattle.std.specs.Prelude.{◌≡◌};
ghost use Rattle.ifdb_row.specs.ByReference.{slot_of};
ghost use Rattle.ifdb_store.specs.Marks.{edge_mark, first_number, mark_at, mark_of, marks_tell, numbers_tell};

use ifdb_row::{Edge, SlotRef};
use ifdb_value::{TableId, Value};
use std::cmp::Ordering;

/// What tells most slots apart without a look at their rows: the table, and the key's first value where it is a number.
#[derive(Clone, Copy)]
pub(crate) struct Mark {
    table: TableId,
    number: Option<i64>,
}

impl Mark {
    /// The mark of a slot.
    pub(crate) fn of_slot(slot: SlotRef<'_>) -> Mark
        ensures { result ≡ mark_of (slot_of slot.entry) }
    {
        Mark::at(*slot.table, slot.key)
    }

    /// The mark of an edge.
    pub(crate) fn of_edge(edge: &Edge<'_>) -> Mark
        ensures { result ≡ edge_mark edge.now }
    {
        match edge {
            Edge::Table(table) => Mark::at(*table, &[]),
            Edge::Key(table, key) => Mark::at(*table, key),
            Edge::Past(table, values) => Mark::at(*table, values),
            Edge::At(table, key, _) | Edge::Behind(table, key, _) => Mark::at(*table, key),
        }
    }

    /// The mark of the slots of a table's key.
    fn at(table: TableId, key: &[Value]) -> Mark
        ensures { result ≡ mark_at table key.now }
    {
        Mark {
            table,
            number: first_number(key),
        }
    }

    /// Which of two slots stands first, as far as their marks tell.
    pub(crate) fn tell(&self, other: &Mark) -> Ordering
        ensures { result ≡ marks_tell self.now other.now }
    {
        match self.table.cmp(&other.table) {
            Ordering::Equal => numbers_tell(self.number, other.number),
            order => order,
        }
    }
}

/// The first value of a key, if it is a number.
fn first_number(key: &[Value]) -> Option<i64>
    ensures { result ≡ first_number key.now }
{
    match key {
        [Value::Int(number), ..] => Some(*number),
        _ => None,
    }
}

/// Which of two keys is the lesser one, as far as their first numbers tell.
fn numbers_tell(number: Option<i64>, other: Option<i64>) -> Ordering
    ensures { result ≡ numbers_tell number other }
{
    match (number, other) {
        (Some(number), Some(other)) => number.cmp(&other),
        _ => Ordering::Equal,
    }
}
