// The order of keys and of slots.
ghost use Rattle.std.specs.Prelude.{◌≡◌};
ghost use Rattle.ifdb_row.specs.ByReference.{slot_of};
ghost use Rattle.ifdb_row.specs.Fronts.{front_cmp};
ghost use Rattle.ifdb_row.specs.Slots.{is_of_key, is_same_slot, key_cmp, slot_cmp, slot_lt};

use crate::slot::{Slot, SlotRef};
use ifdb_value::{TableId, Value};
use std::cmp::Ordering;

impl SlotRef<'_> {
    /// The order of slots: by table, then by key, then by label. Takes no memory; in time the shorter of each of the keys'
    /// and the labels' lengths, with the texts in the keys.
    #[tactic(auto, unfolding(crate::specs::Slots::slot_cmp))]
    pub fn compare(self, other: SlotRef<'_>) -> Ordering
        ensures { result ≡ slot_cmp (slot_of self.entry) (slot_of other.entry) }
    {
        match self.table.cmp(other.table) {
            Ordering::Equal => match compare_keys(self.key, other.key) {
                Ordering::Equal => self.label.tags().cmp(other.label.tags()),
                order => order,
            },
            order => order,
        }
    }

    /// Whether the slot stands before another.
    pub fn is_before(self, other: SlotRef<'_>) -> bool
        ensures { result ≡ slot_lt (slot_of self.entry) (slot_of other.entry) }
    {
        self.compare(other).is_lt()
    }

    /// Whether the slot is the other one.
    pub fn is_same(self, other: SlotRef<'_>) -> bool
        ensures { result ≡ is_same_slot (slot_of self.entry) (slot_of other.entry) }
    {
        self.compare(other).is_eq()
    }

    /// Whether the slot is of a table's key, at any label.
    pub fn is_of_key(self, table: TableId, key: &[Value]) -> bool
        ensures { result ≡ is_of_key table key.now (slot_of self.entry) }
    {
        *self.table == table && compare_keys(self.key, key).is_eq()
    }
}

impl Slot {
    /// The order of slots, as that of their references.
    pub fn compare(&self, other: &Slot) -> Ordering
        ensures { result ≡ slot_cmp self.now other.now }
    {
        self.by_ref().compare(other.by_ref())
    }

    /// Whether the slot stands before another.
    pub fn is_before(&self, other: &Slot) -> bool
        ensures { result ≡ slot_lt self.now other.now }
    {
        self.by_ref().is_before(other.by_ref())
    }

    /// Whether the slot is the other one.
    pub fn is_same(&self, other: &Slot) -> bool
        ensures { result ≡ is_same_slot self.now other.now }
    {
        self.by_ref().is_same(other.by_ref())
    }
}

/// The order of two keys: by their first values, then the second, and so on. Takes no memory.
pub fn compare_keys(key: &[Value], other: &[Value]) -> Ordering
    ensures { result ≡ key_cmp key.now other.now }
{
    match key {
        [] => match other {
            [] => Ordering::Equal,
            [_, ..] => Ordering::Less,
        },
        [first, rest @ ..] => match other {
            [] => Ordering::Greater,
            [second, others @ ..] => match first.compare(second) {
                Ordering::Equal => compare_keys(rest, others),
                order => order,
            },
        },
    }
}

/// The order of a key's first values and as many others; a key that has fewer stands before them. Takes no memory.
pub fn compare_front(key: &[Value], values: &[Value]) -> Ordering
    ensures { result ≡ front_cmp key.now values.now }
{
    match values {
        [] => Ordering::Equal,
        [value, values @ ..] => match key {
            [] => Ordering::Less,
            [first, rest @ ..] => match first.compare(value) {
                Ordering::Equal => compare_front(rest, values),
                order => order,
            },
        },
    }
}
