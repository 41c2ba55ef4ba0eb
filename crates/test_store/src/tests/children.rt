//! Children of rows, found by their parent's slot.
ghost use Rattle.std.specs.Prelude.{IfOk, IsTrue};
ghost use Rattle.ifdb_row.specs.Writes.{is_fitting};

use super::walk::{children_of, listed};
use super::writes::{alone, slot_in};
use ifdb_row::{OutOfMemory, Refs, Row, Rows, Values, Write, Writes};
use ifdb_store::Content;
use ifdb_value::TableId;
use std::alloc::Global;
use std::process::Abort;
use std::test::Fail;

/// How many parents there are.
const PARENTS: i64 = 10;

#[test]
fn children_of_two_tables(rt: HostRuntime) -> Result<(), Fail> {
    let content = first(rt.alloc(), family(rt.alloc(), 3)?)?;
    has_children(&rt, rt.alloc(), &content, 3, 30)?;
    has_children(&rt, rt.alloc(), &content, 4, 0)
}

#[test]
fn children_bound_anew(rt: HostRuntime) -> Result<(), Fail> {
    let before = first(rt.alloc(), family(rt.alloc(), 3)?)?;
    let content = next(rt.alloc(), &before, family(rt.alloc(), 4)?)?;
    has_children(&rt, rt.alloc(), &before, 3, 30)?;
    has_children(&rt, rt.alloc(), &content, 3, 0)?;
    has_children(&rt, rt.alloc(), &content, 4, 30)
}

#[test]
fn children_deleted(rt: HostRuntime) -> Result<(), Fail> {
    let before = first(rt.alloc(), family(rt.alloc(), 3)?)?;
    let content = next(rt.alloc(), &before, gone(rt.alloc())?)?;
    has_children(&rt, rt.alloc(), &content, 3, 0)
}

#[test]
fn children_in_tables_of_great_numbers(rt: HostRuntime) -> Result<(), Fail> {
    let before = first(rt.alloc(), family(rt.alloc(), 3)?)?;
    let content = next(rt.alloc(), &before, far(rt.alloc())?)?;
    has_children(&rt, rt.alloc(), &content, 3, 31)
}

#[test]
fn children_as_in_a_list(rt: HostRuntime) -> Result<(), Fail> {
    let content = first(rt.alloc(), spread(rt.alloc())?)?;
    let Some(list) = listed(rt.alloc(), &content)? else {
        return Err(Fail::from("the rows don't rise"));
    };
    has_children(&rt, rt.alloc(), &content, 7, 30)?;
    has_children(&rt, rt.alloc(), &list, 7, 30)
}

/// Tests how many children a parent has.
fn has_children<R: Rows>(
    rt: &impl Abort,
    alloc: Global,
    content: &R,
    parent: i64,
    count: usize,
) -> Result<(), Fail> {
    let slot = slot_in(alloc, TableId(0), parent)?;
    assert_eq!(rt; children_of(content, &slot), count);
    Ok(())
}

/// A content of these writes.
fn first(alloc: Global, writes: Writes) -> Result<Content, OutOfMemory> {
    Content::new(alloc)?.after(alloc, &writes)
}

/// A content after writes.
fn next(alloc: Global, content: &Content, writes: Writes) -> Result<Content, OutOfMemory> {
    content.after(alloc, &writes)
}

/// A row of a far table, bound to parent 3.
fn far(alloc: Global) -> Result<Writes, OutOfMemory> {
    alone(alloc, child(alloc, TableId(1 << 32), 5, 3)?)
}

/// 300 rows in tables 1 and 2, each tenth of them bound to a parent and the others to parent 9.
fn family(alloc: Global, parent: i64) -> Result<Writes, OutOfMemory> {
    let mut writes = Writes::new(alloc);
    for key in 0..300 {
        let parent = if key % 10 == 0 { parent } else { 9 };
        writes.put(child(alloc, table_of(key), key, parent)?)?;
    }
    Ok(writes)
}

/// 300 rows in tables 1 and 2, bound to each of the parents in turn.
fn spread(alloc: Global) -> Result<Writes, OutOfMemory> {
    let mut writes = Writes::new(alloc);
    for key in 0..300 {
        writes.put(child(alloc, table_of(key), key, key % PARENTS)?)?;
    }
    Ok(writes)
}

/// No rows in place of these 300.
fn gone(alloc: Global) -> Result<Writes, OutOfMemory> {
    let mut writes = Writes::new(alloc);
    for key in 0..300 {
        let slot = slot_in(alloc, table_of(key), key)?;
        writes.put(Write { slot, row: None })?;
    }
    Ok(writes)
}

/// The table of the child of a key.
fn table_of(key: i64) -> TableId {
    if key % 20 == 0 {
        TableId(1)
    } else {
        TableId(2)
    }
}

/// A row under a key of a table, bound to the row of a key of table 0.
fn child(alloc: Global, table: TableId, key: i64, parent: i64) -> Result<Write, OutOfMemory>
    ensures { IfOk result (λ write. IsTrue (is_fitting write.slot write.row)) }
{
    let refs = Refs::from_vec(
        alloc,
        Vec::from_array(alloc, [slot_in(alloc, TableId(0), parent)?])?,
    )?;
    let row = Row {
        slot: slot_in(alloc, table, key)?,
        values: Values::new(alloc),
        refs,
    };
    Write::of_row(alloc, row)
}
