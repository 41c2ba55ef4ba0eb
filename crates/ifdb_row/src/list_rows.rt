// Rows in one list.
ghost use Rattle.std.specs.Prelude.{◌≡◌, IsTrue, SomeIff};
ghost use Rattle.ifdb_row.specs.ByReference.{option_row, option_slot, row_of, slot_of};
ghost use Rattle.ifdb_row.specs.Content.{rising};
ghost use Rattle.ifdb_row.specs.Questions.{bound_behind, is_next_child, is_past, rows_from};
ghost use Rattle.ifdb_row.specs.Runs.{rows_in};

use crate::edge::Edge;
use crate::row::{Row, RowRef};
use crate::rows::Rows;
use crate::run::{RowTest, Run};
use crate::slot::SlotRef;
use ifdb_value::Shared;
use std::marker::Model;

/// Rows in one list: the plain implementation of `Rows`. Contracts see the list.
#[derive(Drop)]
pub struct ListRows {
    rows: Vec<Shared<Row>>,
}

impl Model for ListRows {
    ghost use Rattle.std.specs.Prelude.{List, IsTrue};
    ghost use Rattle.ifdb_row.specs.declared.row.Row.{Row};
    ghost use Rattle.ifdb_row.specs.Content.{rising};

    ghost Value = { List Row };

    ghost view = { λ r. r.rows.items };

    ghost invariant = { λ r. IsTrue (rising r.rows.items) };
}

impl ListRows {
    /// The rows of a list that rises by slots, each slot once. Takes no memory.
    pub fn new(rows: Vec<Shared<Row>>) -> Self
        requires { IsTrue (rising rows.items) }
        ensures { result ≡ rows.items }
    {
        ListRows { rows }
    }

    /// The rows of a list that may not rise by slots, each slot once; `None` exactly where it doesn't. Takes no memory.
    pub fn try_new(rows: Vec<Shared<Row>>) -> Option<Self>
        ensures { SomeIff result (IsTrue (rising rows.items)) rows.items }
    {
        if do_rise(&rows) {
            Some(ListRows { rows })
        } else {
            None
        }
    }

    /// The rows, in the order of their slots.
    fn rows(&self) -> Run<'_>
        ensures rows { rows_in result ≡ self.now }
        ensures rising { IsTrue (rising (rows_in result)) }
    {
        Run::Loose(self.rows.as_slice())
    }
}

impl Rows for ListRows {
    ghost rows = { λ r. r };

    fn run_from(&self, edge: &Edge<'_>) -> Run<'_> {
        rows_from(self.rows(), edge)
    }

    fn bound_to<'a>(&'a self, slot: SlotRef<'_>, after: Option<SlotRef<'a>>) -> Option<RowRef<'a>> {
        first_bound(self.rows(), slot, after)
    }
}

/// Whether rows rise by their slots: each stands before the next one.
#[tactic(auto, using(crate::proofs::Neighbours::one_more, crate::proofs::Neighbours::falls_at))]
fn do_rise(rows: &[Shared<Row>]) -> bool
    ensures { result ≡ rising rows.now }
{
    for place in 1..rows.len() {
        let before = &rows[place - 1].get().slot;
        if !before.is_before(&rows[place].get().slot) {
            return false;
        }
    }
    true
}

/// A row before an edge.
#[derive(Drop)]
struct BeforeEdge<'a> {
    edge: &'a Edge<'a>,
}

impl RowTest for BeforeEdge<'_> {
    ghost use Rattle.ifdb_row.specs.declared.row.Row.{Row};
    ghost use Rattle.ifdb_row.specs.Edges.{lies_before};

    ghost passes = { λ t (r : Row). lies_before t.edge.now r.slot };

    fn passes(&self, row: RowRef<'_>) -> bool {
        self.edge.is_behind(row.slot)
    }
}

/// The rows from an edge on, found by binary search.
#[tactic(auto, using(crate::proofs::Edges::edge_falls))]
fn rows_from<'a>(rows: Run<'a>, edge: &Edge<'_>) -> Run<'a>
    requires { IsTrue (rising (rows_in rows)) }
    ensures { rows_in result ≡ rows_from edge.now (rows_in rows.entry) }
{
    rows.from(rows.count_passing(&BeforeEdge { edge }))
}

/// The first of some rows bound to a slot whose own slot is behind another, or the first one bound to it. Looks at each.
pub fn first_bound<'a>(
    rows: Run<'a>,
    slot: SlotRef<'_>,
    after: Option<SlotRef<'_>>,
) -> Option<RowRef<'a>>
    ensures { option_row result ≡ bound_behind slot.entry after.entry (rows_in rows.entry) }
{
    for place in 0..rows.len() {
        let row = rows.row(place);
        if is_bound(row, slot, after) {
            return Some(row);
        }
    }
    None
}

/// Whether a row behind a slot is bound to another.
fn is_bound(row: RowRef<'_>, slot: SlotRef<'_>, after: Option<SlotRef<'_>>) -> bool
    ensures { result ≡ is_next_child (slot_of slot.entry) (option_slot after.entry) (row_of row.entry) }
{
    row.is_child_of(slot) && is_past(row.slot, after)
}

/// Whether a slot is behind another, if there is one to be behind.
fn is_past(slot: SlotRef<'_>, after: Option<SlotRef<'_>>) -> bool
    ensures { result ≡ is_past (option_slot after.entry) (slot_of slot.entry) }
{
    match after {
        None => true,
        Some(other) => other.is_before(slot),
    }
}
