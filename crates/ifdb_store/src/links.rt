// Links: how children are found through their parent's slot.
ghost use Rattle.std.specs.Prelude.{◌≡◌, ◌&&◌, ◌+◌, ◌*◌, ◌<◌, ◌∷◌, [], true, None, Some, IfOk, IsTrue, OnOk, find};
ghost use Rattle.ifdb_row.specs.ByReference.{option_row, option_slot, row_of, slot_of};
ghost use Rattle.ifdb_row.specs.Content.{after, rising};
ghost use Rattle.ifdb_row.specs.Edges.{slot_at};
ghost use Rattle.ifdb_row.specs.Questions.{bound_behind, is_child_of, row_at, if_passes};
ghost use Rattle.ifdb_row.specs.Writes.{are_fitting, is_fitting};
ghost use Rattle.ifdb_store.specs.Links.{BringsLinks, Follows, LeavesOthers, are_links, are_near, is_from, is_near, is_near_if, is_next_link};
ghost use Rattle.ifdb_store.specs.Links.{child_slot, is_link, is_link_from, link, link_slot, parents_of, print_of, row_behind};

use crate::print::print_of;
use crate::tree::Tree;
use ifdb_label::Label;
use ifdb_row::{Edge, OutOfMemory, Refs, Row, RowRef, Rows, Slot, SlotRef, Values, Write, Writes};
use ifdb_value::{TableId, Value};
use std::alloc::Global;

/// How many tables, from the first on, have links to their rows.
const NEAR_TABLES: u64 = 4294967296;

/// Whether a row in a slot has links to it.
fn is_near(slot: SlotRef<'_>) -> bool
    ensures { result ≡ is_near (slot_of slot.entry) }
{
    let table = *slot.table;
    table.0 < NEAR_TABLES
}

/// The table in which the links from a print to the children in a table stand.
fn link_table(print: u32, table: TableId) -> TableId
    requires { table < 4294967296 }
    ensures { result ≡ print * 4294967296 + table }
{
    TableId(u64::from(print) * NEAR_TABLES + table.0)
}

/// Where the link from a print to a child stands.
fn link_slot(alloc: Global, print: u32, child: &Slot) -> Result<Slot, OutOfMemory>
    requires { IsTrue (is_near child.now) }
    ensures { IfOk result (λ slot. slot ≡ link_slot print child.now) }
{
    let Slot { key, label, .. } = child.copy(alloc)?;
    Ok(Slot {
        table: link_table(print, child.table),
        key,
        label,
    })
}

/// The link from a print to a child.
fn link(alloc: Global, print: u32, child: &Slot) -> Result<Row, OutOfMemory>
    requires { IsTrue (is_near child.now) }
    ensures { IfOk result (λ row. row ≡ link print child.now) }
{
    Ok(Row {
        slot: link_slot(alloc, print, child)?,
        values: Values::new(alloc),
        refs: Refs::from_vec(alloc, Vec::from_array(alloc, [child.copy(alloc)?])?)?,
    })
}

/// Adds the writes that give up the links from parents to a child.
fn put_gone(
    alloc: Global,
    parents: &[Slot],
    child: &Slot,
    writes: &mut Writes,
) -> Result<(), OutOfMemory>
    requires near { IsTrue (is_near child.now) }
    requires others { LeavesOthers child.now writes.old }
    ensures { OnOk result (LeavesOthers child.now writes.new) }
{
    for parent in parents {
        let slot = link_slot(alloc, print_of(parent.by_ref()), child)?;
        writes.put(Write { slot, row: None })?;
    }
    Ok(())
}

/// Adds the writes that bring the links from parents to a child.
fn put_links(
    alloc: Global,
    parents: &[Slot],
    child: &Slot,
    writes: &mut Writes,
) -> Result<(), OutOfMemory>
    requires near { IsTrue (is_near child.now) }
    requires others { LeavesOthers child.now writes.old }
    ensures others { OnOk result (LeavesOthers child.now writes.new) }
    ensures links { OnOk result (BringsLinks child.now parents.now writes.new) }
{
    for parent in parents {
        let row = link(alloc, print_of(parent.by_ref()), child)?;
        writes.put(Write::of_row(alloc, row)?)?;
    }
    Ok(())
}

/// What a row refers to, if there is one.
fn parents_of(row: Option<RowRef<'_>>) -> &[Slot]
    ensures { result.now ≡ parents_of (option_row row.entry) }
{
    match row {
        Some(row) => row.parents(),
        None => &[],
    }
}

/// What a written row refers to, if there is one.
fn parents_written(write: &Write) -> &[Slot]
    ensures { result.now ≡ parents_of write.now.row }
{
    match &write.row {
        Some(row) => row.get().refs.items(),
        None => &[],
    }
}

/// The links' writes that follow a write. Those of the row that stood in its slot are given up.
fn writes_for(
    alloc: Global,
    before: Option<RowRef<'_>>,
    write: &Write,
) -> Result<Writes, OutOfMemory>
    requires { IsTrue (is_fitting write.now.slot write.now.row) }
    ensures { IfOk result (λ writes. Follows (write.now ∷ []) writes) }
{
    if is_near(write.slot.by_ref()) {
        near_writes(alloc, before, write)
    } else {
        Ok(Writes::new(alloc))
    }
}

/// The same, where a row in the slot has links to it.
fn near_writes(
    alloc: Global,
    before: Option<RowRef<'_>>,
    write: &Write,
) -> Result<Writes, OutOfMemory>
    requires near { IsTrue (is_near write.now.slot) }
    requires fitting { IsTrue (is_fitting write.now.slot write.now.row) }
    ensures { IfOk result (λ writes. Follows (write.now ∷ []) writes) }
{
    let mut writes = Writes::new(alloc);
    put_gone(alloc, parents_of(before), &write.slot, &mut writes)?;
    put_links(alloc, parents_written(write), &write.slot, &mut writes)?;
    Ok(writes)
}

/// The links' writes that follow writes to some rows. Links to the rows that stood in the written slots are given up, if
/// the rows before are known.
pub(crate) fn writes_after(
    alloc: Global,
    rows: Option<&Tree>,
    writes: &[Write],
) -> Result<Writes, OutOfMemory>
    requires { IsTrue (are_fitting writes.now) }
    ensures { IfOk result (λ links. Follows writes.now links) }
{
    match writes {
        [] => Ok(Writes::new(alloc)),
        [write] => writes_for(alloc, row_in(rows, write.slot.by_ref()), write),
        _ => {
            let (front, back) = writes.split_at(writes.len() / 2);
            let mut links = writes_after(alloc, rows, front)?;
            links.merge(writes_after(alloc, rows, back)?)?;
            Ok(links)
        }
    }
}

/// The row in a slot, if the rows are known.
fn row_in<'a>(rows: Option<&'a Tree>, slot: SlotRef<'_>) -> Option<RowRef<'a>> {
    match rows {
        Some(rows) => rows.get(slot),
        None => None,
    }
}

/// The links after writes. They are shared where nothing is written.
pub(crate) fn links_after(alloc: Global, links: &Tree, writes: &Writes) -> Result<Tree, OutOfMemory>
    ensures { IfOk result (λ all. all ≡ after links.now writes.now) }
{
    if writes.items().is_empty() {
        links.share()
    } else {
        links.after(alloc, writes)
    }
}

/// Whether all of some rows have links to them, and a row in a slot would have them, if there is one.
pub(crate) fn are_near(rows: &Tree, slot: Option<SlotRef<'_>>) -> bool
    ensures near { result ≡ is_near_if (option_slot slot.entry) && are_near rows.now }
    ensures rising { result ≡ true → rising rows.now ≡ true }
{
    is_near_if(slot) && are_all_near(rows)
}

/// Whether a row in a slot has links to it, if there is a slot.
fn is_near_if(slot: Option<SlotRef<'_>>) -> bool
    ensures { result ≡ is_near_if (option_slot slot.entry) }
{
    match slot {
        Some(slot) => is_near(slot),
        None => true,
    }
}

/// Whether all of some rows have links to them. It costs a search.
fn are_all_near(rows: &Tree) -> bool
    ensures near { result ≡ are_near rows.now }
    ensures rising { IsTrue (rising rows.now) }
{
    let _key: Option<&[Value]> = None;
    let _label: Option<&Label> = None;
    rows.run_from(&Edge::Table(TableId(NEAR_TABLES))).is_empty()
}

/// The first row bound to a slot whose own slot is behind another, or the first row bound to it, found by its link. It costs
/// a search for each link of the slot's print until a row is found that is bound to the slot.
pub(crate) fn first_child<'a>(
    rows: &'a Tree,
    links: &'a Tree,
    slot: SlotRef<'_>,
    after: Option<SlotRef<'a>>,
) -> Option<RowRef<'a>>
    requires links { IsTrue (are_links links.now rows.now) }
    requires near { IsTrue (are_near rows.now) }
    requires rising { IsTrue (rising rows.now) }
    requires near_slot { IsTrue (is_near_if (option_slot after)) }
    ensures row { option_row result ≡ bound_behind slot.entry after.entry rows.now }
    ensures rising { IsTrue (rising rows.now) }
{
    let print = print_of(slot);
    let mut behind: Option<SlotRef<'a>> = after;
    'links: while let Some(link) = next_link(links, print, behind) {
        let child = child_of(link);
        let row = child_in(rows, child, slot);
        if row.is_some() {
            return row;
        }
        behind = Some(child);
    }
    None
}

/// The first link from a print whose child is behind a slot, or the first one from it.
fn next_link<'a>(links: &'a Tree, print: u32, behind: Option<SlotRef<'_>>) -> Option<RowRef<'a>>
    requires { IsTrue (is_near_if (option_slot behind)) }
    ensures link { option_row result
        ≡ find (is_next_link print (option_slot behind.entry)) links.now }
    ensures rising { IsTrue (rising links.now) }
{
    match behind {
        None => first_link(links, print),
        Some(child) => link_behind(links, print, child),
    }
}

/// The first link from a print.
fn first_link(links: &Tree, print: u32) -> Option<RowRef<'_>>
    ensures link { option_row result ≡ find (is_next_link print None) links.now }
    ensures rising { IsTrue (rising links.now) }
{
    let _key: Option<&[Value]> = None;
    let _label: Option<&Label> = None;
    let table = TableId(u64::from(print) * NEAR_TABLES);
    if_from(links.first_from(&Edge::Table(table)), print)
}

/// The first link from a print whose child is behind a slot.
fn link_behind<'a>(links: &'a Tree, print: u32, child: SlotRef<'_>) -> Option<RowRef<'a>>
    requires { IsTrue (is_near (slot_of child)) }
    ensures link { option_row result
        ≡ find (is_next_link print (Some (slot_of child.entry))) links.now }
    ensures rising { IsTrue (rising links.now) }
{
    let table = link_table(print, *child.table);
    let link = row_behind(links, table, child.key, child.label);
    if_from(link, print)
}

/// The first row behind the slot with these parts.
fn row_behind<'a>(
    rows: &'a Tree,
    table: TableId,
    key: &[Value],
    label: &Label,
) -> Option<RowRef<'a>>
    ensures row { option_row result ≡ row_behind (slot_at table key.now label.now) rows.now }
    ensures rising { IsTrue (rising rows.now) }
{
    rows.first_from(&Edge::Behind(table, key, label))
}

/// The link, if it is from a print.
fn if_from(link: Option<RowRef<'_>>, print: u32) -> Option<RowRef<'_>>
    ensures { option_row result ≡ if_passes (is_link_from print) (option_row link.entry) }
{
    match link {
        Some(link) if is_from(link.slot, print) => Some(link),
        _ => None,
    }
}

/// Whether the link in a slot is from a print.
fn is_from(slot: SlotRef<'_>, print: u32) -> bool
    ensures { result ≡ is_from print (slot_of slot.entry) }
{
    let table = *slot.table;
    table.0 / NEAR_TABLES == u64::from(print)
}

/// The child to which a link leads.
fn child_of(link: RowRef<'_>) -> SlotRef<'_>
    requires { IsTrue (is_link (row_of link)) }
    ensures { slot_of result ≡ child_slot (row_of link.entry).slot }
{
    link.parents()[0].by_ref()
}

/// The row in a slot, if it is bound to another.
fn child_in<'a>(rows: &'a Tree, child: SlotRef<'_>, slot: SlotRef<'_>) -> Option<RowRef<'a>>
    ensures row { option_row result
        ≡ if_passes (is_child_of (slot_of slot.entry)) (row_at (slot_of child.entry) rows.now) }
    ensures rising { IsTrue (rising rows.now) }
{
    if_child_of(rows.get(child), slot)
}

/// The row, if it is bound to a slot.
fn if_child_of<'a>(row: Option<RowRef<'a>>, slot: SlotRef<'_>) -> Option<RowRef<'a>>
    ensures { option_row result
        ≡ if_passes (is_child_of (slot_of slot.entry)) (option_row row.entry) }
{
    match row {
        Some(row) if row.is_child_of(slot) => Some(row),
        _ => None,
    }
}
