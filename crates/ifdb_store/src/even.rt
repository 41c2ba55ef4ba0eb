// Rows of a page in one list of values.
ghost use Rattle.std.specs.Prelude.{◌≡◌, ◌==◌, ◌≤◌, ◌<◌, ◌+◌, ◌*◌, ◌∷◌, ◌++◌, [], if◌then◌else◌, slice_set, IfOk, IfSome, IsTrue, drop, flat_map, length, map, take};
ghost use Rattle.std.specs.List.{list_all};
ghost use Rattle.ifdb_row.specs.ByReference.{row_of};
ghost use Rattle.ifdb_row.specs.Content.{place, rising};
ghost use Rattle.ifdb_row.specs.Runs.{rows_even};
ghost use Rattle.ifdb_store.specs.Shapes.{cells_in, has_shape, head_in, is_unbound, refs_in};
ghost use Rattle.ifdb_row.specs.Writes.{is_fitting};
ghost use Rattle.ifdb_store.specs.InPlace.{IsPlaced};
ghost use Rattle.ifdb_store.specs.Splices.{cells_put, put_in, rows_put};

use crate::join::SMALL_PAGE;
use crate::page::PAGE_ROWS;
use crate::room::{SPARE_ROWS, insert, insert_all};
use crate::share::{add_shared, joined};
use crate::splice::{Gap, Inset, gap_for};
use ifdb_row::{EvenRun, Head, OutOfMemory, Refs, RowRef, Run, SlotRef, Write};
use ifdb_value::{Sequence, Value};
use std::alloc::Global;
use std::marker::Model;

/// How many values rows have.
#[derive(Clone, Copy)]
pub(crate) struct Shape {
    /// Those of the key.
    pub(crate) key: usize,
    /// Those of the key and of the row.
    pub(crate) width: usize,
}

/// Rows whose keys and values stand side by side in one list, as many for each row. Contracts see the rows.
#[derive(Drop)]
pub(crate) struct EvenRows {
    key: usize,
    width: usize,
    heads: Sequence<Head>,
    refs: Sequence<Refs>,
    cells: Sequence<Value>,
}

impl Model for EvenRows {
    ghost use Rattle.std.specs.Prelude.{List, length, ◌*◌, ◌≤◌};
    ghost use Rattle.ifdb_row.specs.declared.row.Row.{Row};
    ghost use Rattle.ifdb_row.specs.Runs.{even_rows};

    ghost Value = { List Row };

    ghost view = { λ e. even_rows e.key e.width e.heads e.refs e.cells };

    ghost invariant = { λ e. (e.key ≤ e.width) × (length e.heads * e.width ≤ length e.cells) };
}

impl EvenRows {
    /// Copies of rows that have a shape. Their texts, labels and lists of parents are shared.
    pub(crate) fn of(
        alloc: Global,
        shape: Shape,
        rows: &[RowRef<'_>],
    ) -> Result<EvenRows, OutOfMemory>
        requires keyed { shape.key ≤ shape.width }
        requires shaped { IsTrue (list_all (λ r. has_shape shape (row_of r)) rows.now) }
        ensures { IfOk result (λ even. even ≡ map row_of rows.now) }
    {
        Ok(EvenRows {
            key: shape.key,
            width: shape.width,
            heads: heads_of(alloc, rows)?,
            refs: refs_of(alloc, rows)?,
            cells: cells_of(alloc, shape.width, rows)?,
        })
    }

    /// The rows after a write; `None` where they don't lie in one list then as they do now.
    pub(crate) fn after(
        &self,
        alloc: Global,
        write: &Write,
    ) -> Result<Option<EvenRows>, OutOfMemory>
        requires { IsTrue (rising self.now) }
        ensures { IfOk result (λ made. IfSome made (λ rows. rows
            ≡ place write.now.slot write.now.row self.now)) }
    {
        let rows = self.run();
        let gap = gap_for(Run::Even(rows), write.slot.by_ref());
        match &write.row {
            Some(row) => with(alloc, rows, gap, row.get().by_ref()),
            None => spliced(alloc, rows, gap, Inset::none(), 0),
        }
    }

    /// Puts a write into the rows in place. The answer is no, and the rows are as before, where the first row's slot would be
    /// another, or the rows too many or too few for a page; where a row has another shape, or refers to something; and where
    /// memory is refused.
    pub(crate) fn put(&mut self, alloc: Global, write: &Write) -> bool
        requires rising { IsTrue (rising self.old) }
        requires fitting { IsTrue (is_fitting write.now.slot write.now.row) }
        ensures { IsPlaced self.old self.new write.now result }
    {
        let rows = self.run();
        let len = rows.len();
        let gap = gap_for(Run::Even(rows), write.slot.by_ref());
        match &write.row {
            Some(row) if gap.from < gap.to => self.replace(alloc, gap.from, row.get().by_ref()),
            Some(row) if 0 < gap.from && len < PAGE_ROWS => {
                self.insert(alloc, gap.from, row.get().by_ref())
            }
            None if 0 < gap.from && gap.from < gap.to && SMALL_PAGE < len => self.remove(gap.from),
            _ => false,
        }
    }

    /// Puts a row before the one at a place, or at the end, if it lies in one list with the others, and if neither it nor any of
    /// them refers to anything.
    fn insert(&mut self, alloc: Global, place: usize, row: RowRef<'_>) -> bool
        requires { place ≤ length self.old }
        ensures { self.new ≡ (if result
            then take place self.old ++ (row_of row.entry ∷ drop place self.old)
            else self.old) }
    {
        let shape = Shape {
            key: self.key,
            width: self.width,
        };
        if !has_shape(shape, &row) || !self.refs.is_empty() || !row.parents().is_empty() {
            return false;
        }
        let (Ok(head), Ok(cells)) = (head_in(row.slot), cells_of_row(alloc, self.width, row)) else {
            return false;
        };
        // That they lie within the list keeps the product in range.
        let _ = self.cells.len();
        if insert(alloc, &mut self.heads, place, head).is_err() {
            return false;
        }
        if insert_all(alloc, &mut self.cells, place * self.width, cells).is_err() {
            self.heads.remove(place);
            return false;
        }
        true
    }

    /// Gives up the row at a place, if no row refers to anything. Takes no memory.
    fn remove(&mut self, place: usize) -> bool
        requires { place < length self.old }
        ensures { self.new ≡ (if result
            then take place self.old ++ drop (place + 1) self.old
            else self.old) }
    {
        if !self.refs.is_empty() {
            return false;
        }
        // That they lie within the list keeps the product in range.
        let _ = self.cells.len();
        self.heads.remove(place);
        self.cells.remove_all(place * self.width, self.width);
        true
    }

    /// Puts a row in place of the one at a place, if it lies in one list with the others, and if neither it nor any of them
    /// refers to anything.
    fn replace(&mut self, alloc: Global, place: usize, row: RowRef<'_>) -> bool
        requires { place < length self.old }
        ensures { self.new ≡ (if result
            then slice_set self.old place (row_of row.entry)
            else self.old) }
    {
        let shape = Shape {
            key: self.key,
            width: self.width,
        };
        if !has_shape(shape, &row) || !self.refs.is_empty() || !row.parents().is_empty() {
            return false;
        }
        let (Ok(head), Ok(mut cells)) = (head_in(row.slot), cells_of_row(alloc, self.width, row))
        else {
            return false;
        };
        // That they lie within the list keeps the product in range.
        let _ = self.cells.len();
        self.heads.set(place, head);
        self.cells.swap(place * self.width, &mut cells);
        true
    }

    /// The rows.
    pub(crate) fn run(&self) -> EvenRun<'_>
        ensures { rows_even result ≡ self.now }
    {
        EvenRun {
            key: self.key,
            width: self.width,
            heads: self.heads.items(),
            refs: self.refs.items(),
            cells: self.cells.items(),
        }
    }
}

/// The shape of some rows; `None` where they have none in common.
pub(crate) fn shape_of(rows: &[RowRef<'_>]) -> Option<Shape>
    ensures keyed { IfSome result (λ shape. shape.key ≤ shape.width) }
    ensures shaped { IfSome result
        (λ shape. IsTrue (list_all (λ r. has_shape shape (row_of r)) rows.now)) }
{
    let first = rows.first()?;
    let key = first.slot.key.len();
    let width = key.checked_add(first.values.len())?;
    let shape = Shape { key, width };
    if all_have_shape(shape, rows) {
        Some(shape)
    } else {
        None
    }
}

/// Rows with a row in a gap between them; `None` where it doesn't lie in one list with them.
fn with(
    alloc: Global,
    rows: EvenRun<'_>,
    gap: Gap,
    row: RowRef<'_>,
) -> Result<Option<EvenRows>, OutOfMemory>
    requires { gap.to ≤ length (rows_even rows) }
    ensures { IfOk result (λ made. IfSome made (λ even. even
        ≡ put_in gap (row_of row.entry ∷ []) (rows_even rows.entry))) }
{
    let shape = Shape {
        key: rows.key,
        width: rows.width,
    };
    if !has_shape(shape, &row) {
        return Ok(None);
    }
    let heads = [head_in(row.slot)?];
    let refs = [row.shared_refs()?];
    let inset = Inset {
        heads: &heads,
        refs: &refs,
        key: row.slot.key,
        values: row.values,
    };
    spliced(alloc, rows, gap, inset, spare_rows(gap))
}

/// For how many rows more there is room in lists that are copied so that a row comes into a gap: for some, where it is a new one.
fn spare_rows(gap: Gap) -> usize {
    if gap.from < gap.to { 0 } else { SPARE_ROWS }
}

/// Rows with others in a gap between them, and room for more; `None` where not each has a place for what it refers to.
fn spliced(
    alloc: Global,
    rows: EvenRun<'_>,
    gap: Gap,
    inset: Inset<'_>,
    spare: usize,
) -> Result<Option<EvenRows>, OutOfMemory>
    requires within { gap.to ≤ length (rows_even rows) }
    requires long { length (cells_put inset) ≡ length inset.heads.now * rows.width }
    requires said { length inset.refs.now ≡ length inset.heads.now }
    ensures { IfOk result (λ made. IfSome made (λ even. even
        ≡ put_in gap (rows_put rows.entry inset.entry) (rows_even rows.entry))) }
{
    let refs = if rows.refs.is_empty() && are_empty(inset.refs) {
        Sequence::new(alloc)
    } else if rows.refs.len() == rows.heads.len() {
        let (before, behind) = around(rows.refs, gap.from, gap.to);
        Sequence::from_vec(joined(alloc, &[before, inset.refs, behind], spare)?)
    } else {
        return Ok(None);
    };
    let (before, behind) = around(rows.heads, gap.from, gap.to);
    let heads = joined(alloc, &[before, inset.heads, behind], spare)?;
    // That they lie within the list keeps the products in range.
    let _ = rows.cells.len();
    let (before, behind) = around(rows.cells, gap.from * rows.width, gap.to * rows.width);
    let cells = joined(
        alloc,
        &[before, inset.key, inset.values, behind],
        spare.saturating_mul(rows.width),
    )?;
    Ok(Some(EvenRows {
        key: rows.key,
        width: rows.width,
        heads: Sequence::from_vec(heads),
        refs,
        cells: Sequence::from_vec(cells),
    }))
}

/// Whether no row of these refers to anything.
fn are_empty(refs: &[Refs]) -> bool
    ensures { result ≡ list_all (λ r. length r == 0) refs.now }
{
    refs.iter().all(|refs| refs.items().is_empty())
}

/// The items before one place, and those from another one on.
fn around<T>(items: &[T], from: usize, to: usize) -> (&[T], &[T])
    requires order { from ≤ to }
    requires within { to ≤ length items.now }
    ensures before { result.0.now ≡ take from items.now }
    ensures behind { result.1.now ≡ drop to items.now }
{
    (items.split_at(from).0, items.split_at(to).1)
}

/// Whether each of some rows has a shape.
fn all_have_shape(shape: Shape, rows: &[RowRef<'_>]) -> bool
    requires { shape.key ≤ shape.width }
    ensures { result ≡ list_all (λ r. has_shape shape (row_of r)) rows.now }
{
    rows.iter().all(|row| has_shape(shape, row))
}

/// Whether a row has a shape.
fn has_shape(shape: Shape, row: &RowRef<'_>) -> bool
    requires { shape.key ≤ shape.width }
    ensures { result ≡ has_shape shape (row_of row.now) }
{
    row.slot.key.len() == shape.key && row.values.len() == shape.width - shape.key
}

/// The tables and labels of rows.
fn heads_of(alloc: Global, rows: &[RowRef<'_>]) -> Result<Sequence<Head>, OutOfMemory>
    ensures { IfOk result (λ heads. heads ≡ map head_in (map row_of rows.now)) }
{
    let mut heads = Sequence::with_capacity(alloc, rows.len())?;
    for row in rows {
        heads.push(head_in(row.slot)?)?;
    }
    Ok(heads)
}

/// The table and the label of a slot. The label is shared.
fn head_in(slot: SlotRef<'_>) -> Result<Head, OutOfMemory>
    ensures table { IfOk result (λ head. head.table ≡ slot.entry.table.now) }
    ensures label { IfOk result (λ head. head.label ≡ slot.entry.label.now) }
{
    Ok(Head {
        table: *slot.table,
        label: slot.label.share()?,
    })
}

/// What rows refer to: nothing at all, where no row refers to anything.
fn refs_of(alloc: Global, rows: &[RowRef<'_>]) -> Result<Sequence<Refs>, OutOfMemory>
    ensures { IfOk result (λ refs. refs ≡ refs_in (map row_of rows.now)) }
{
    if are_unbound(rows) {
        return Ok(Sequence::new(alloc));
    }
    let mut refs = Sequence::with_capacity(alloc, rows.len())?;
    for row in rows {
        refs.push(row.shared_refs()?)?;
    }
    Ok(refs)
}

/// Whether no row refers to anything.
fn are_unbound(rows: &[RowRef<'_>]) -> bool
    ensures { result ≡ list_all (λ r. is_unbound (row_of r)) rows.now }
{
    rows.iter().all(|row| row.parents().is_empty())
}

/// The keys and values of rows, one row behind the other.
fn cells_of(
    alloc: Global,
    width: usize,
    rows: &[RowRef<'_>],
) -> Result<Sequence<Value>, OutOfMemory>
    ensures { IfOk result (λ cells. cells ≡ flat_map cells_in (map row_of rows.now)) }
{
    let mut cells = Vec::with_capacity(alloc, rows.len().saturating_mul(width))?;
    for row in rows {
        add_shared(row.slot.key, &mut cells)?;
        add_shared(row.values, &mut cells)?;
    }
    Ok(Sequence::from_vec(cells))
}

/// The key and the values of a row.
fn cells_of_row(alloc: Global, width: usize, row: RowRef<'_>) -> Result<Vec<Value>, OutOfMemory>
    ensures { IfOk result (λ cells. cells.items ≡ row.entry.slot.key.now ++ row.entry.values.now) }
{
    let mut cells = Vec::with_capacity(alloc, width)?;
    add_shared(row.slot.key, &mut cells)?;
    add_shared(row.values, &mut cells)?;
    Ok(cells)
}
