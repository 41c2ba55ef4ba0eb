// Rows with parents: each tenth key has the same one, so that the children of a slot lie scattered.
use crate::rows::{child_write, slot_of};
use crate::work::spread;
use ifdb_row::{OutOfMemory, Rows, SlotRef, Writes};
use ifdb_store::{Content, Store};
use std::alloc::Global;

/// How often children are asked for, and how many rows are added one by one.
pub(crate) const QUESTIONS: u32 = 20_000;

/// Adds so many rows in one commit.
pub(crate) fn add_many(alloc: Global, store: &mut Store, rows: u32) -> Result<(), OutOfMemory> {
    let mut writes = Writes::new(alloc);
    for i in 0..rows {
        writes.put(child_write(alloc, i64::from(i), parent_of(i, rows))?)?;
    }
    commit(store, writes)
}

/// Writes rows anew, each in a commit of its own.
pub(crate) fn add_each(alloc: Global, store: &mut Store, rows: u32) -> Result<(), OutOfMemory> {
    for i in 0..QUESTIONS {
        let mut writes = Writes::new(alloc);
        writes.put(child_write(alloc, spread(i, rows), parent_of(i, rows))?)?;
        commit(store, writes)?;
    }
    Ok(())
}

/// Asks for the first child of slots.
pub(crate) fn children(alloc: Global, content: &Content, rows: u32) -> Result<(), OutOfMemory> {
    for i in 0..QUESTIONS {
        let slot = slot_of(alloc, parent_of(i.wrapping_mul(7919), rows))?;
        let _ = content.bound_to(slot.by_ref(), None).is_some();
    }
    Ok(())
}

/// How many children of a slot there are.
pub(crate) fn count(alloc: Global, content: &Content, key: i64) -> Result<u64, OutOfMemory> {
    let slot = slot_of(alloc, key)?;
    let mut found = 0u64;
    let mut after: Option<SlotRef<'_>> = None;
    for _ in 0..u32::MAX {
        match content.bound_to(slot.by_ref(), after) {
            None => break,
            Some(row) => after = Some(row.slot),
        }
        found = found.saturating_add(1);
    }
    Ok(found)
}

/// The key of a row's parent.
fn parent_of(i: u32, rows: u32) -> i64 {
    i64::from(i.checked_rem((rows / 10).max(1)).unwrap_or(0))
}

/// Commits writes.
fn commit(store: &mut Store, writes: Writes) -> Result<(), OutOfMemory> {
    let Ok(()) = store.commit(1, writes) else {
        return Err(OutOfMemory);
    };
    store.trim(1);
    Ok(())
}
