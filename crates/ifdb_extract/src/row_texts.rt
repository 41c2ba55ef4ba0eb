// Rows as the texts of commits.
ghost use Rattle.std.specs.Prelude.{◌≡◌, ◌<◌, [], IfOk, IfSome, IsTrue, None, Ok, Some, length, slice_get};
ghost use Rattle.ifdb_redo.specs.Reading.{record_of};
ghost use Rattle.ifdb_redo.specs.declared.record.RedoRecord.TheVariants as redo;
ghost use Rattle.ifdb_row.specs.Content.{rising};
ghost use Rattle.ifdb_row.specs.Questions.{rows_from};
ghost use Rattle.ifdb_row.specs.Runs.{rows_in};
ghost use Rattle.ifdb_restore.specs.Shorter.{writing};
ghost use Rattle.ifdb_extract.specs.Walks.{IsNextText};

use ifdb_redo::commit_text;
use ifdb_row::{Edge, OutOfMemory, Rows, Run, Write, Writes};
use ifdb_store::Content;
use ifdb_value::TableId;
use std::alloc::Global;

// The texts of commits of all rows, in the order of their slots: one for each run of rows that lie side by side.
#[derive(Clone, Copy)]
pub(crate) struct RowTexts<'a> {
    pub(crate) rows: &'a Content,
    // Where the next one begins.
    pub(crate) edge: Edge<'a>,
}

impl<'a> RowTexts<'a> {
    // Those of all these rows.
    #[tactic(auto, using(crate::proofs::Walking::from_first))]
    pub(crate) fn of(rows: &'a Content) -> RowTexts<'a>
        ensures rows { result.rows.now ≡ rows.now }
        ensures all { rows_from result.edge rows.now ≡ rows.now }
    {
        RowTexts {
            rows,
            edge: Edge::Table(TableId(0)),
        }
    }

    // The next text, or `None` behind the last row. Takes memory for the rows of the text.
    pub(crate) fn next(&mut self, alloc: Global) -> Result<Option<Vec<u8>>, OutOfMemory>
        ensures some { IfOk result (λ next. IfSome next (λ text.
            IsNextText self.old.rows.now self.old.edge self.new.edge text.items)) }
        ensures none { result ≡ Ok None → rows_from self.old.edge self.old.rows.now ≡ [] }
        ensures rows { self.new.rows.now ≡ self.old.rows.now }
    {
        let run = self.rows.run_from(&self.edge);
        let Some(last) = run.last() else {
            return Ok(None);
        };
        let text = run_text(alloc, run)?;
        self.edge = Edge::Behind(*last.slot.table, last.slot.key, last.slot.label);
        Ok(Some(text))
    }
}

// The text of the commit of some rows, which rise.
fn run_text(alloc: Global, run: Run<'_>) -> Result<Vec<u8>, OutOfMemory>
    requires { IsTrue (rising (rows_in run)) }
    ensures { IfOk result (λ text. record_of text.items
        ≡ Some (redo.Commit (writing (rows_in run.entry)))) }
{
    let writes = writes_of(alloc, run)?;
    commit_text(alloc, &writes)
}

// The writes that make some rows, which rise.
#[tactic(auto, using(crate::proofs::Walking::all_written, crate::proofs::Walking::written_rise, crate::proofs::Walking::written_fit))]
fn writes_of(alloc: Global, run: Run<'_>) -> Result<Writes, OutOfMemory>
    requires { IsTrue (rising (rows_in run)) }
    ensures { IfOk result (λ writes. writes ≡ writing (rows_in run.entry)) }
{
    let mut writes = Vec::with_capacity(alloc, run.len())?;
    for place in 0..run.len() {
        let write = write_at(alloc, run, place)?;
        writes.push(write)?;
    }
    Ok(Writes::from_vec(writes))
}

// The write that makes the row at a place.
fn write_at(alloc: Global, run: Run<'_>, place: usize) -> Result<Write, OutOfMemory>
    requires { place < length (rows_in run) }
    ensures { IfOk result (λ write. slice_get (writing (rows_in run.entry)) place ≡ Some write) }
{
    let row = run.row(place).to_row(alloc)?;
    Write::of_row(alloc, row)
}
