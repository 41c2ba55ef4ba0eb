//! Rows that count how often they are asked, and give one row at a time: so a walk over many rows is as many questions.

use ifdb_row::{Edge, ListRows, RowRef, Rows, Run, SlotRef};
use std::cell::Cell;

/// Rows that count how often they are asked, and give one row at a time.
#[derive(Drop)]
pub(crate) struct CountedRows {
    pub(crate) rows: ListRows,
    pub(crate) asked: Cell<u32>,
}

impl Rows for CountedRows {
    ghost rows = { λ r. r.rows };

    fn run_from(&self, edge: &Edge<'_>) -> Run<'_> {
        self.asked.set(self.asked.get().saturating_add(1));
        let run = self.rows.run_from(edge);
        run.front(run.len().min(1))
    }

    fn bound_to<'a>(&'a self, slot: SlotRef<'_>, after: Option<SlotRef<'a>>) -> Option<RowRef<'a>> {
        self.asked.set(self.asked.get().saturating_add(1));
        self.rows.bound_to(slot, after)
    }
}
