// Rows side by side.
ghost use Rattle.std.specs.Prelude.{◌≡◌, ◌==◌, ◌≤◌, ◌<◌, ◌-◌, Bool, Some, IsTrue, drop, length, slice_get, take, take_while};
ghost use Rattle.ifdb_row.specs.declared.row.Row.{Row as AnyRow};
ghost use Rattle.ifdb_row.specs.ByReference.{option_row, row_of};
ghost use Rattle.ifdb_row.specs.Reach.{is_parted, reach};
ghost use Rattle.ifdb_row.specs.Runs.{rows_in};

use crate::even_run::EvenRun;
use crate::row::{Row, RowRef};
use ifdb_value::Shared;

/// Rows side by side in memory.
#[derive(Clone, Copy)]
pub enum Run<'a> {
    /// Rows that have each its own memory.
    Loose(&'a [Shared<Row>]),
    /// Rows in one list of values.
    Even(EvenRun<'a>),
}

impl<'a> Run<'a> {
    /// How many rows there are.
    pub fn len(self) -> usize
        ensures { result ≡ length (rows_in self.entry) }
    {
        match self {
            Run::Loose(rows) => rows.len(),
            Run::Even(rows) => rows.len(),
        }
    }

    /// Whether there are none.
    pub fn is_empty(self) -> bool
        ensures { result ≡ (length (rows_in self.entry) == 0) }
    {
        self.len() == 0
    }

    /// The row at a place.
    pub fn row(self, place: usize) -> RowRef<'a>
        requires { place < length (rows_in self) }
        ensures { slice_get (rows_in self.entry) place ≡ Some (row_of result) }
    {
        match self {
            Run::Loose(rows) => rows[place].get().by_ref(),
            Run::Even(rows) => rows.row(place),
        }
    }

    /// The first row, if there is one.
    pub fn first(self) -> Option<RowRef<'a>>
        ensures { option_row result ≡ slice_get (rows_in self.entry) 0 }
    {
        if self.is_empty() {
            None
        } else {
            Some(self.row(0))
        }
    }

    /// The last row, if there is one.
    pub fn last(self) -> Option<RowRef<'a>>
        ensures { option_row result
            ≡ slice_get (rows_in self.entry) (length (rows_in self.entry) - 1) }
    {
        let len = self.len();
        if len == 0 {
            None
        } else {
            Some(self.row(len - 1))
        }
    }

    /// The first rows.
    pub fn front(self, count: usize) -> Run<'a>
        requires { count ≤ length (rows_in self) }
        ensures { rows_in result ≡ take count (rows_in self.entry) }
    {
        match self {
            Run::Loose(rows) => Run::Loose(rows.split_at(count).0),
            Run::Even(rows) => Run::Even(rows.front(count)),
        }
    }

    /// The rows from a place on.
    pub fn from(self, count: usize) -> Run<'a>
        requires { count ≤ length (rows_in self) }
        ensures { rows_in result ≡ drop count (rows_in self.entry) }
    {
        match self {
            Run::Loose(rows) => Run::Loose(rows.split_at(count).1),
            Run::Even(rows) => Run::Even(rows.from(count)),
        }
    }

    /// The rows at the front that pass a test that none passes behind one that doesn't. They are found by binary search, but
    /// where all pass, as mostly a page does that lies within what is asked for: then the last one tells it.
    pub fn passing<T: RowTest>(self, test: &T) -> Run<'a>
        requires { IsTrue (is_parted (T.passes test.now) (rows_in self)) }
        ensures { rows_in result ≡ take_while (T.passes test.now) (rows_in self.entry) }
    {
        match self.last() {
            Some(row) if test.passes(row) => self,
            _ => self.front(self.count_passing(test)),
        }
    }

    /// How many rows pass a test that none passes behind one that doesn't. Found by binary search.
    pub fn count_passing<T: RowTest>(self, test: &T) -> usize
        requires { IsTrue (is_parted (T.passes test.now) (rows_in self)) }
        ensures count { result ≡ reach (T.passes test.now) (rows_in self.entry) }
        ensures within { result ≤ length (rows_in self.entry) }
    {
        let mut low = 0;
        let mut high = self.len();
        while low < high {
            let middle = low + (high - low) / 2;
            if test.passes(self.row(middle)) {
                low = middle + 1;
            } else {
                high = middle;
            }
        }
        low
    }
}

/// A test of rows.
pub trait RowTest {
    /// Which rows pass.
    ghost passes: { Self → AnyRow → Bool };

    /// Whether a row passes.
    fn passes(&self, row: RowRef<'_>) -> bool
        ensures { result ≡ passes self.now (row_of row.entry) };
}
