// Pages of rows.
ghost use Rattle.std.specs.Prelude.{◌≡◌, ◌≤◌, ◌<◌, ◌+◌, ◌-◌, ◌*◌, ◌^◌, ◌++◌, IfOk, IfSome, IsTrue, OnOk, length, map};
ghost use Rattle.std.specs.List.{list_all};
ghost use Rattle.ifdb_row.specs.ByReference.{row_of};
ghost use Rattle.ifdb_row.specs.Content.{after, rising};
ghost use Rattle.ifdb_row.specs.Edges.{lies_before};
ghost use Rattle.ifdb_row.specs.Reach.{is_parted, reach};
ghost use Rattle.ifdb_row.specs.Runs.{rows_in};
ghost use Rattle.ifdb_row.specs.Writes.{are_fitting, is_fitting};
ghost use Rattle.ifdb_store.specs.InPlace.{IsPut, IsPlaced};
ghost use Rattle.ifdb_store.specs.Pages.{are_full, flat, is_full_page, is_page};

use crate::entry::Entry;
use crate::even::{EvenRows, shape_of};
use crate::join::join;
use crate::part::{Part, Regroup, end_of};
use crate::put::rows_after;
use crate::search::Placed;
use crate::steps::Steps;
use ifdb_row::{Edge, OutOfMemory, Row, RowRef, Run, SlotRef, Write, first_bound};
use ifdb_value::{Sequence, Shared};
use std::alloc::Global;
use std::marker::Model;
use std::sync::ledger::Ledger;

/// The most rows of a page.
pub(crate) const PAGE_ROWS: usize = 64;

/// How the rows of a page lie in memory.
#[derive(Drop)]
enum Layout {
    /// In one list of values.
    Even(EvenRows),
    /// Each by itself, where they differ in how many values they have.
    Loose(Sequence<Shared<Row>>),
}

impl Layout {
    ghost use Rattle.ifdb_store.specs.Layouts.{rows_laid};

    /// Puts a write into the rows in place, if they take it as they lie.
    fn put(&mut self, alloc: Global, write: &Write) -> bool
        requires rising { IsTrue (rising (rows_laid self.old)) }
        requires fitting { IsTrue (is_fitting write.now.slot write.now.row) }
        ensures { IsPlaced (rows_laid self.old) (rows_laid self.new) write.now result }
    {
        match self {
            Layout::Even(rows) => rows.put(alloc, write),
            Layout::Loose(_) => false,
        }
    }
}

/// Rows of neighbouring slots, from 1 to 64 of them.
#[derive(Drop)]
pub(crate) struct Page {
    layout: Layout,
}

impl Model for Page {
    ghost use Rattle.std.specs.Prelude.{List, IsTrue};
    ghost use Rattle.ifdb_row.specs.declared.row.Row.{Row};
    ghost use Rattle.ifdb_store.specs.Pages.{is_page};
    ghost use Rattle.ifdb_store.specs.Layouts.{rows_laid};

    ghost Value = { List Row };

    ghost view = { λ p. rows_laid p.layout };

    ghost invariant = { λ p. IsTrue (is_page (rows_laid p.layout)) };
}

impl Page {
    /// A page of copies of these rows.
    pub(crate) fn of(alloc: Global, rows: &[RowRef<'_>]) -> Result<Page, OutOfMemory>
        requires { IsTrue (is_page (map row_of rows.now)) }
        ensures { IfOk result (λ page. page ≡ map row_of rows.now) }
    {
        let layout = match shape_of(rows) {
            Some(shape) => Layout::Even(EvenRows::of(alloc, shape, rows)?),
            None => Layout::Loose(loose_rows(alloc, rows)?),
        };
        Ok(Page { layout })
    }

    /// The page after one write; `None` where there are several, or where its rows don't lie in one list of a page then.
    fn after_one(&self, alloc: Global, writes: &[Write]) -> Result<Option<Page>, OutOfMemory>
        requires { IsTrue (are_fitting writes.now) }
        ensures { IfOk result (λ made. IfSome made (λ page. page ≡ after self.now writes.now)) }
    {
        // That they rise is known of the rows.
        let _ = self.rows();
        let (Layout::Even(rows), [write]) = (&self.layout, writes) else {
            return Ok(None);
        };
        match rows.after(alloc, write)? {
            Some(rows) => Ok(page_if_fits(rows)),
            None => Ok(None),
        }
    }

    /// Puts writes into the rows in place, if it is one and they take it as they lie.
    fn put_one(&mut self, alloc: Global, writes: &[Write]) -> bool
        requires { IsTrue (are_fitting writes.now) }
        ensures rows { IsPut self.old self.new writes.now result }
        ensures page { IsTrue (is_page self.new) }
    {
        match writes {
            [write] => self.layout.put(alloc, write),
            _ => false,
        }
    }

    /// The rows.
    pub(crate) fn rows(&self) -> Run<'_>
        ensures rows { rows_in result ≡ self.now }
        ensures some { 0 < length (rows_in result) }
        ensures few { length (rows_in result) ≤ 64 }
        ensures rising { IsTrue (rising (rows_in result)) }
    {
        match &self.layout {
            Layout::Even(rows) => Run::Even(rows.run()),
            Layout::Loose(rows) => Run::Loose(rows.items()),
        }
    }
}

/// The page of some rows, if there are from 1 to 64.
fn page_if_fits(rows: EvenRows) -> Option<Page>
    requires { IsTrue (rising rows) }
    ensures { IfSome result (λ page. page ≡ rows) }
{
    let len = rows.run().len();
    if 0 < len && len <= PAGE_ROWS {
        let layout = Layout::Even(rows);
        Some(Page { layout })
    } else {
        None
    }
}

/// Copies of rows, each by itself. Their texts, labels and lists of parents are shared.
fn loose_rows(alloc: Global, rows: &[RowRef<'_>]) -> Result<Sequence<Shared<Row>>, OutOfMemory>
    ensures { IfOk result (λ copies. copies ≡ map row_of rows.now) }
{
    let mut copies = Sequence::with_capacity(alloc, rows.len())?;
    for row in rows {
        copies.push(Shared::new(alloc, row.to_row(alloc)?)?)?;
    }
    Ok(copies)
}

impl Placed for Page {
    ghost use Rattle.ifdb_store.specs.Pages.{front};

    ghost place = { front };

    ghost rows = { λ p. p };

    fn slot(&self) -> SlotRef<'_> {
        self.rows().row(0).slot
    }
}

impl Part for Page {
    ghost use Rattle.ifdb_store.specs.Pages.{is_full_page, is_page, page_begins};

    ghost is_part = { is_page };

    ghost is_full = { is_full_page };

    ghost begins = { page_begins };

    ghost use Rattle.ifdb_store.specs.Costs.{PageBounds};

    ghost bounds = { PageBounds };

    fn after(
        &self,
        alloc: Global,
        writes: &[Write],
        out: &mut Vec<Entry<Page>>,
    ) -> Result<(), OutOfMemory> {
        if let Some(page) = self.after_one(alloc, writes)? {
            out.push(Entry::new(alloc, page)?)?;
            return Ok(());
        }
        let rows = rows_after(alloc, self.rows(), writes)?;
        cut(alloc, &rows, out)
    }

    fn put(&mut self, alloc: Global, writes: &[Write]) -> bool {
        self.put_one(alloc, writes)
    }

    fn is_full(&self) -> bool {
        true
    }

    fn count_on(&self, before: u64) -> Option<u64> {
        before.checked_add(self.rows().len() as u64)
    }

    fn first_run(&self) -> Run<'_> {
        self.rows()
    }

    fn run_from<L: Ledger>(&self, edge: &Edge<'_>, steps: &mut Steps<L>) -> Run<'_> {
        let rows = self.rows();
        rows.from(count_before(rows, edge, steps))
    }

    fn bound_to<'a>(&'a self, slot: SlotRef<'_>, after: Option<SlotRef<'a>>) -> Option<RowRef<'a>> {
        first_bound(self.rows(), slot, after)
    }
}

/// How many rows stand before an edge, found by binary search. Each comparison is a step.
fn count_before<L: Ledger>(rows: Run<'_>, edge: &Edge<'_>, steps: &mut Steps<L>) -> usize
    requires { IsTrue (is_parted (λ r. lies_before edge.now r.slot) (rows_in rows)) }
    ensures reach { result ≡ reach (λ r. lies_before edge.now r.slot) (rows_in rows.entry) }
    ensures within { result ≤ length (rows_in rows.entry) }
    ensures more { steps.old ≤ steps.new }
    ensures cost { 2 ^ (steps.new - steps.old) ≤ 2 * length (rows_in rows.entry) + 1 }
{
    let mut low = 0;
    let mut high = rows.len();
    while low < high {
        let middle = low + (high - low) / 2;
        steps.tick();
        if edge.is_behind(rows.row(middle).slot) {
            low = middle + 1;
        } else {
            high = middle;
        }
    }
    low
}

impl Regroup for Page {
    #[tactic(auto, using(crate::proofs::Nodes::full_pages))]
    fn regroup(alloc: Global, parts: &mut Vec<Entry<Page>>) -> Result<(), OutOfMemory>
        requires parts { IsTrue (list_all is_page parts.old.items) }
        requires rising { IsTrue (rising (flat parts.old.items)) }
        ensures rows { OnOk result (flat parts.new.items ≡ flat parts.old.items) }
        ensures parts { OnOk result (IsTrue (list_all is_page parts.new.items)) }
        ensures full { OnOk result (IsTrue (are_full is_full_page parts.new.items)) }
    {
        join(alloc, parts)
    }
}

/// Adds the pages of some rows: one where they fit into one, else as many as it takes, each at least half full.
pub(crate) fn cut(
    alloc: Global,
    rows: &[RowRef<'_>],
    out: &mut Vec<Entry<Page>>,
) -> Result<(), OutOfMemory>
    requires rising { IsTrue (rising (map row_of rows.now)) }
    requires pages { IsTrue (list_all is_page out.old.items) }
    ensures rows { OnOk result (flat out.new.items ≡ flat out.old.items ++ map row_of rows.now) }
    ensures pages { OnOk result (IsTrue (list_all is_page out.new.items)) }
{
    let len = rows.len();
    let mut from = 0;
    while from < len {
        let to = end_of(from, len, PAGE_ROWS);
        let page = Page::of(alloc, &rows[from..to])?;
        out.push(Entry::new(alloc, page)?)?;
        from = to;
    }
    Ok(())
}
