// Questions to rows.
ghost use Rattle.std.specs.Prelude.{◌≡◌, ◌==◌, IfSome, List, None, Some, IsTrue, take_while};
ghost use Rattle.ifdb_row.specs.declared.row.Row.{Row as AnyRow};
ghost use Rattle.ifdb_row.specs.ByReference.{option_row, option_slot, slot_of};
ghost use Rattle.ifdb_row.specs.Content.{rising};
ghost use Rattle.ifdb_row.specs.Reach.{is_parted};
ghost use Rattle.ifdb_row.specs.Questions.{IsRun, bound_behind, first_row_from, has_key, if_passes, later_rows, next_behind};
ghost use Rattle.ifdb_row.specs.Questions.{of_key_behind, row_at, rows_behind, rows_from, stands_in};
ghost use Rattle.ifdb_row.specs.Ranges.{is_below, is_slot_in, rows_within};
ghost use Rattle.ifdb_row.specs.Runs.{rows_in};

use crate::edge::Edge;
use crate::range::KeyRange;
use crate::row::RowRef;
use crate::run::{RowTest, Run};
use crate::slot::SlotRef;
use ifdb_label::Label;
use ifdb_value::{TableId, Value};

/// Rows in the order of their slots, each slot once. No question takes memory.
///
/// Each answer also says that the rows rise, since those who ask can't see it otherwise.
pub trait Rows {
    /// The rows.
    ghost rows: { Self → List AnyRow };

    /// The first rows from an edge on, as many as lie side by side in memory; none exactly where there is no row from there on.
    fn run_from(&self, edge: &Edge<'_>) -> Run<'_>
        ensures run { IsRun (rows_in result) (rows_from edge.now (rows self.now)) }
        ensures rising { IsTrue (rising (rows self.now)) };

    /// The first row bound to a slot whose own slot is behind another, or the first row bound to it.
    fn bound_to<'a>(&'a self, slot: SlotRef<'_>, after: Option<SlotRef<'a>>) -> Option<RowRef<'a>>
        ensures row { option_row result ≡ bound_behind slot.entry after.entry (rows self.now) }
        ensures rising { IsTrue (rising (rows self.now)) };

    /// The first row from an edge on.
    final fn first_from(&self, edge: &Edge<'_>) -> Option<RowRef<'_>>
        ensures row { option_row result ≡ first_row_from edge.now (rows self.now) }
        ensures rising { IsTrue (rising (rows self.now)) }
    {
        self.run_from(edge).first()
    }

    /// The table's first row behind a slot, or its first.
    final fn next(&self, table: TableId, after: Option<SlotRef<'_>>) -> Option<RowRef<'_>>
        ensures row { option_row result ≡ next_behind table after.entry (rows self.now) }
        ensures rising { IsTrue (rising (rows self.now)) }
    {
        self.run(table, after).first()
    }

    /// The row in a slot.
    final fn get(&self, slot: SlotRef<'_>) -> Option<RowRef<'_>>
        ensures row { option_row result ≡ row_at (slot_of slot.entry) (rows self.now) }
        ensures rising { IsTrue (rising (rows self.now)) }
    {
        if_in(
            self.first_from(&Edge::At(*slot.table, slot.key, slot.label)),
            slot,
        )
    }

    /// The key's first row behind a label, or its first.
    final fn of_key(
        &self,
        table: TableId,
        key: &[Value],
        after: Option<&Label>,
    ) -> Option<RowRef<'_>>
        ensures row { option_row result ≡ of_key_behind table key.now after.entry (rows self.now) }
        ensures rising { IsTrue (rising (rows self.now)) }
    {
        match after {
            None => if_of_key(self.first_from(&Edge::Key(table, key)), table, key),
            Some(label) => {
                let row = self.first_from(&Edge::Behind(table, key, label));
                if_of_key(row, table, key)
            }
        }
    }

    /// The table's first rows behind a slot, or its first rows: as many as lie side by side in memory, and none exactly where
    /// the table has none there. So a walk pays a search for each run of rows.
    final fn run(&self, table: TableId, after: Option<SlotRef<'_>>) -> Run<'_>
        ensures run { IsRun (rows_in result) (rows_behind table after.entry (rows self.now)) }
        ensures rising { IsTrue (rising (rows self.now)) }
    {
        match after {
            None => self.first_run(table),
            Some(slot) => self.run_behind(table, slot),
        }
    }

    /// The table's first rows.
    final fn first_run(&self, table: TableId) -> Run<'_>
        ensures run { IsRun (rows_in result) (later_rows table None (rows self.now)) }
        ensures rising { IsTrue (rising (rows self.now)) }
    {
        of_table(self.run_from(&Edge::Table(table)), table)
    }

    /// The table's first rows behind a slot.
    final fn run_behind(&self, table: TableId, slot: SlotRef<'_>) -> Run<'_>
        ensures run { IsRun (rows_in result)
            (later_rows table (Some (slot_of slot.entry)) (rows self.now)) }
        ensures rising { IsTrue (rising (rows self.now)) }
    {
        if *slot.table < table {
            return self.first_run(table);
        }
        let run = self.run_from(&Edge::Behind(*slot.table, slot.key, slot.label));
        if *slot.table > table {
            return Run::Loose(&[]);
        }
        of_table(run, table)
    }

    /// The table's first rows of a range of keys behind a slot of that range, or its first rows: as many as lie side by side
    /// in memory, and none exactly where there are none. So a walk pays a search for each run of rows, and looks at no row
    /// beyond the range but those in which two binary searches end.
    final fn within(&self, table: TableId, range: &KeyRange, after: Option<SlotRef<'_>>) -> Run<'_>
        requires after { IfSome (option_slot after) (λ s. IsTrue (is_slot_in table range.now s)) }
        ensures run { IsRun (rows_in result)
            (rows_within table range.now (option_slot after.entry) (rows self.now)) }
        ensures rising { IsTrue (rising (rows self.now)) }
    {
        match after {
            None => self.first_within(table, range),
            Some(slot) => self.within_behind(table, range, slot),
        }
    }

    /// The table's first rows of a range of keys.
    final fn first_within(&self, table: TableId, range: &KeyRange) -> Run<'_>
        ensures run { IsRun (rows_in result) (rows_within table range.now None (rows self.now)) }
        ensures rising { IsTrue (rising (rows self.now)) }
    {
        below(self.run_from(&range.low.edge(table)), table, range)
    }

    /// The table's first rows of a range of keys behind a slot of that range.
    final fn within_behind(&self, table: TableId, range: &KeyRange, slot: SlotRef<'_>) -> Run<'_>
        requires slot { IsTrue (is_slot_in table range.now (slot_of slot)) }
        ensures run { IsRun (rows_in result)
            (rows_within table range.now (Some (slot_of slot.entry)) (rows self.now)) }
        ensures rising { IsTrue (rising (rows self.now)) }
    {
        below(
            self.run_from(&Edge::Behind(*slot.table, slot.key, slot.label)),
            table,
            range,
        )
    }
}

/// A row of a table.
#[derive(Drop)]
struct OfTable {
    table: TableId,
}

impl RowTest for OfTable {
    ghost use Rattle.std.specs.Prelude.{◌==◌};
    ghost use Rattle.ifdb_row.specs.declared.row.Row.{Row};

    ghost passes = { λ t (r : Row). r.slot.table == t.table };

    fn passes(&self, row: RowRef<'_>) -> bool {
        *row.slot.table == self.table
    }
}

/// A row of a table whose key stands before the end of a range.
#[derive(Drop)]
struct BelowEnd<'a> {
    table: TableId,
    range: &'a KeyRange,
}

impl RowTest for BelowEnd<'_> {
    ghost use Rattle.ifdb_row.specs.Ranges.{is_below};

    ghost passes = { λ t r. is_below t.table t.range.now r };

    fn passes(&self, row: RowRef<'_>) -> bool {
        *row.slot.table == self.table && self.range.high.is_behind(row.slot.key)
    }
}

/// The rows of a table at the front.
fn of_table(rows: Run<'_>, table: TableId) -> Run<'_>
    requires { IsTrue (is_parted (λ r. r.slot.table == table) (rows_in rows)) }
    ensures { rows_in result ≡ take_while (λ r. r.slot.table == table) (rows_in rows.entry) }
{
    rows.passing(&OfTable { table })
}

/// The rows of a table at the front whose keys stand before the end of a range.
fn below<'r>(rows: Run<'r>, table: TableId, range: &KeyRange) -> Run<'r>
    requires { IsTrue (is_parted (is_below table range.now) (rows_in rows)) }
    ensures { rows_in result ≡ take_while (is_below table range.now) (rows_in rows.entry) }
{
    rows.passing(&BelowEnd { table, range })
}

/// The row, if it stands in the slot.
fn if_in<'a>(row: Option<RowRef<'a>>, slot: SlotRef<'_>) -> Option<RowRef<'a>>
    ensures { option_row result ≡ if_passes (stands_in (slot_of slot.entry)) (option_row row.entry) }
{
    match row {
        Some(row) if slot.is_same(row.slot) => Some(row),
        _ => None,
    }
}

/// The row, if it is of the table's key.
fn if_of_key<'a>(row: Option<RowRef<'a>>, table: TableId, key: &[Value]) -> Option<RowRef<'a>>
    ensures { option_row result ≡ if_passes (has_key table key.now) (option_row row.entry) }
{
    match row {
        Some(row) if row.slot.is_of_key(table, key) => Some(row),
        _ => None,
    }
}
