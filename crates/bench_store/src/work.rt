// What is timed.
use crate::rows::{one_write, slot_of};
use ifdb_row::{OutOfMemory, Rows, SlotRef, Write, Writes};
use ifdb_store::{Content, Store};
use ifdb_value::TableId;
use std::alloc::Global;

/// How often each thing is done.
pub(crate) const CALLS: u32 = 20_000;

/// Who else holds the rows while a commit is made.
#[derive(Clone, Copy)]
pub(crate) enum Holder {
    /// Nobody: the commit changes them in place.
    Nobody,
    /// A snapshot of just before it: the commit copies what it changes, from the root on.
    Snapshot,
}

/// Looks slots up.
pub(crate) fn look(alloc: Global, content: &Content, rows: u32) -> Result<(), OutOfMemory> {
    for i in 0..CALLS {
        let slot = slot_of(alloc, spread(i, rows))?;
        let _ = content.get(slot.by_ref()).is_some();
    }
    Ok(())
}

/// Makes slots.
pub(crate) fn make(alloc: Global, rows: u32) -> Result<(), OutOfMemory> {
    for i in 0..CALLS {
        let _ = slot_of(alloc, spread(i, rows))?;
    }
    Ok(())
}

/// Takes snapshots.
pub(crate) fn share(store: &Store) -> Result<(), OutOfMemory> {
    for _ in 0..CALLS {
        let _ = store.snapshot()?;
    }
    Ok(())
}

/// Writes rows, each in a commit of its own.
pub(crate) fn fill(
    alloc: Global,
    store: &mut Store,
    count: u32,
    rows: u32,
    holder: Holder,
) -> Result<(), OutOfMemory> {
    for i in 0..count {
        let writes = one_write(alloc, spread(i, rows))?;
        commit(store, writes, holder)?;
    }
    Ok(())
}

/// Gives rows up, each in a commit of its own.
pub(crate) fn shrink(
    alloc: Global,
    store: &mut Store,
    rows: u32,
    holder: Holder,
) -> Result<(), OutOfMemory> {
    for i in 0..CALLS {
        let mut writes = Writes::new(alloc);
        let slot = slot_of(alloc, spread(i, rows))?;
        writes.put(Write { slot, row: None })?;
        commit(store, writes, holder)?;
    }
    Ok(())
}

/// Makes writes of rows.
pub(crate) fn make_writes(alloc: Global, rows: u32) -> Result<(), OutOfMemory> {
    for i in 0..CALLS {
        let _ = one_write(alloc, spread(i, rows))?;
    }
    Ok(())
}

/// Commits writes, while a snapshot that was just taken is held or is not.
fn commit(store: &mut Store, writes: Writes, holder: Holder) -> Result<(), OutOfMemory> {
    let held = match holder {
        Holder::Nobody => None,
        Holder::Snapshot => Some(store.snapshot()?),
    };
    let Ok(()) = store.commit(1, writes) else {
        return Err(OutOfMemory);
    };
    store.trim(1);
    drop(held);
    Ok(())
}

/// How many rows of the table a walk finds, at most 2^32.
pub(crate) fn walk(content: &Content) -> u64 {
    let mut found = 0u64;
    let mut after: Option<SlotRef<'_>> = None;
    for _ in 0..u32::MAX {
        let run = content.run(TableId(0), after);
        match run.last() {
            None => break,
            Some(last) => {
                found = found.saturating_add(run.len() as u64);
                after = Some(last.slot);
            }
        }
    }
    found
}

/// A number, spread over the numbers below the number of rows.
pub(crate) fn spread(i: u32, rows: u32) -> i64 {
    let far = u64::from(i).wrapping_mul(7919);
    i64::from(far.checked_rem(u64::from(rows)).unwrap_or(0) as u32)
}
