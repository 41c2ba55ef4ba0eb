// Ranges of keys.
ghost use Rattle.std.specs.Prelude.{◌≡◌, ◌==◌, ◌&&◌, true, List, length, nat_lt, if◌then◌else◌};
ghost use Rattle.ifdb_value.specs.declared.value.Value.{Value as AnyValue};
ghost use Rattle.ifdb_row.specs.declared.slot.Slot.{Slot as AnySlot};
ghost use Rattle.ifdb_row.specs.Edges.{lies_before};
ghost use Rattle.ifdb_row.specs.Ranges.{lies_in, stands_before};

use crate::edge::Edge;
use crate::order::compare_front;
use crate::slot::Key;
use ifdb_value::{TableId, Value};
use std::alloc::Global;

/// On which side of some keys a cut lies.
#[derive(Clone, Copy, Debug, PartialEq, Eq)]
pub enum Side {
    /// Before them.
    Before,
    /// Behind them.
    Behind,
}

/// A place between keys: before or behind all that begin with some values.
#[derive(Drop)]
pub struct Cut {
    /// The values, one for each of a key's first columns. Where there are none all keys begin with them.
    pub values: Key,
    /// On which side of these keys it lies.
    pub side: Side,
}

/// The keys between two cuts.
#[derive(Drop)]
pub struct KeyRange {
    /// The cut before them.
    pub low: Cut,
    /// The cut behind them.
    pub high: Cut,
}

impl Cut {
    /// Whether a key stands before the cut. Takes no memory.
    pub fn is_behind(&self, key: &[Value]) -> bool
        ensures { result ≡ stands_before self.now key.now }
    {
        let order = compare_front(key, self.values.items());
        match self.side {
            Side::Before => order.is_lt(),
            Side::Behind => order.is_le(),
        }
    }

    /// The place of the cut among the slots of all tables.
    #[tactic(auto, using(crate::proofs::Fronts::front_lt))]
    pub(crate) fn edge(&self, table: TableId) -> Edge<'_>
        ensures { (s : AnySlot) → lies_before result s
            ≡ (if s.table == table then stands_before self.now s.key else nat_lt s.table table) }
    {
        match self.side {
            Side::Before => Edge::Key(table, self.values.items()),
            Side::Behind => Edge::Past(table, self.values.items()),
        }
    }
}

impl KeyRange {
    /// All keys.
    pub fn all(alloc: Global) -> Self
        ensures { (key : List AnyValue) → lies_in result key ≡ true }
    {
        KeyRange {
            low: Cut {
                values: Key::new(alloc),
                side: Side::Before,
            },
            high: Cut {
                values: Key::new(alloc),
                side: Side::Behind,
            },
        }
    }

    /// Whether neither cut has values, so that all keys lie in the range or none does.
    pub fn is_whole(&self) -> bool
        ensures { result ≡ (length self.now.low.values == 0 && length self.now.high.values == 0) }
    {
        self.low.values.is_empty() && self.high.values.is_empty()
    }

    /// Whether a key lies in the range. Takes no memory.
    pub fn contains(&self, key: &[Value]) -> bool
        ensures { result ≡ lies_in self.now key.now }
    {
        !self.low.is_behind(key) && self.high.is_behind(key)
    }
}
