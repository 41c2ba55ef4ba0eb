// Rows in one list of values.
ghost use Rattle.std.specs.Prelude.{◌≡◌, ◌≤◌, ◌<◌, ◌*◌, Some, drop, length, slice_get, take};
ghost use Rattle.std.specs.Option.{option_copied};

use crate::row::{Refs, RowRef};
use crate::slot::SlotRef;
use ifdb_label::Label;
use ifdb_value::{TableId, Value};

/// What a row in such a list has beside its values.
#[derive(Drop)]
pub struct Head {
    /// Its table.
    pub table: TableId,
    /// Its label.
    pub label: Label,
}

/// Rows whose keys and values stand side by side in one list, as many for each row.
#[derive(Clone, Copy)]
pub struct EvenRun<'a> {
    /// How many values a key has.
    pub key: usize,
    /// How many values a row has, those of its key among them.
    pub width: usize,
    /// Their tables and labels.
    pub heads: &'a [Head],
    /// What they refer to; rows behind the end of this list refer to nothing.
    pub refs: &'a [Refs],
    /// Their values: for each row its key, and behind it what it holds.
    pub cells: &'a [Value],
    ghost keyed: { key ≤ width },
    ghost long: { length heads.now * width ≤ length cells.now },
}

impl<'a> EvenRun<'a> {
    ghost use Rattle.ifdb_row.specs.ByReference.{row_of};
    ghost use Rattle.ifdb_row.specs.Runs.{rows_even};

    /// How many rows there are.
    #[tactic(auto, using(crate::proofs::EvenRows::even_length))]
    pub fn len(self) -> usize
        ensures { result ≡ length (rows_even self.entry) }
    {
        self.heads.len()
    }

    /// The row at a place.
    pub fn row(self, place: usize) -> RowRef<'a>
        requires { place < length (rows_even self) }
        ensures { slice_get (rows_even self.entry) place ≡ Some (row_of result) }
    {
        // That they lie within the list keeps the product in range.
        let _ = self.cells.len();
        let (_, cells) = self.cells.split_at(place * self.width);
        let (key, cells) = cells.split_at(self.key);
        let (values, _) = cells.split_at(self.width - self.key);
        let head = head_at(self.heads, place);
        let slot = SlotRef {
            table: &head.table,
            key,
            label: &head.label,
        };
        RowRef {
            slot,
            values,
            refs: refs_at(self.refs, place),
        }
    }

    /// The first rows.
    pub fn front(self, count: usize) -> EvenRun<'a>
        requires { count ≤ length (rows_even self) }
        ensures { rows_even result ≡ take count (rows_even self.entry) }
    {
        let (heads, _) = self.heads.split_at(count);
        EvenRun {
            key: self.key,
            width: self.width,
            heads,
            refs: self.refs,
            cells: self.cells,
        }
    }

    /// The rows from a place on.
    pub fn from(self, count: usize) -> EvenRun<'a>
        requires { count ≤ length (rows_even self) }
        ensures { rows_even result ≡ drop count (rows_even self.entry) }
    {
        let (_, heads) = self.heads.split_at(count);
        let _ = self.cells.len();
        let (_, cells) = self.cells.split_at(count * self.width);
        EvenRun {
            key: self.key,
            width: self.width,
            heads,
            refs: behind(self.refs, count),
            cells,
        }
    }
}

/// The head at a place.
fn head_at(heads: &[Head], place: usize) -> &Head
    requires { place < length heads.now }
    ensures { slice_get heads.now place ≡ Some result.now }
{
    &heads[place]
}

/// What the row at a place refers to; `None` from the end of the list on.
fn refs_at(refs: &[Refs], place: usize) -> Option<&Refs>
    ensures { option_copied result ≡ slice_get refs.now place }
{
    refs.get(place)
}

/// The items behind the first ones; none, where there are no more.
fn behind<T>(items: &[T], count: usize) -> &[T]
    ensures { result.now ≡ drop count items.now }
{
    if count <= items.len() {
        items.split_at(count).1
    } else {
        &[]
    }
}
