// What several owners share.
ghost use Rattle.std.specs.Prelude.{◌≡◌, ◌++◌, IfOk, OnOk};
ghost use Rattle.std.specs.List.{flat_map};

use ifdb_row::{Head, OutOfMemory, Refs};
use ifdb_value::Value;
use std::alloc::Global;

/// Something that several owners share, so that it is never copied.
pub(crate) trait Share: Drop {
    /// The same, shared. `OutOfMemory` comes where it has too many owners; it takes no memory.
    fn shared(&self) -> Result<Self, OutOfMemory>
        ensures { IfOk result (λ item. item ≡ self.now) };
}

impl Share for Value {
    fn shared(&self) -> Result<Self, OutOfMemory> {
        self.share()
    }
}

impl Share for Refs {
    fn shared(&self) -> Result<Self, OutOfMemory> {
        self.share()
    }
}

impl Share for Head {
    fn shared(&self) -> Result<Self, OutOfMemory> {
        Ok(Head {
            table: self.table,
            label: self.label.share()?,
        })
    }
}

/// The items, shared, in memory for some number of them.
pub(crate) fn shared<T: Share>(
    alloc: Global,
    items: &[T],
    room: usize,
) -> Result<Vec<T>, OutOfMemory>
    ensures { IfOk result (λ all. all.items ≡ items.now) }
{
    let mut all = Vec::with_capacity(alloc, room)?;
    add_shared(items, &mut all)?;
    Ok(all)
}

/// The items of some lists, one list behind the other, shared, with room for more items.
pub(crate) fn joined<T: Share>(
    alloc: Global,
    lists: &[&[T]],
    spare: usize,
) -> Result<Vec<T>, OutOfMemory>
    ensures { IfOk result (λ all. all.items ≡ flat_map (λ list. list.now) lists.now) }
{
    let mut room = spare;
    for list in lists {
        room = room.saturating_add(list.len());
    }
    let mut all = Vec::with_capacity(alloc, room)?;
    for list in lists {
        add_shared(list, &mut all)?;
    }
    Ok(all)
}

/// Adds the items, shared, in memory that is taken at once.
pub(crate) fn add_shared<T: Share>(items: &[T], out: &mut Vec<T>) -> Result<(), OutOfMemory>
    ensures { OnOk result (out.new.items ≡ out.old.items ++ items.now) }
{
    out.reserve(items.len())?;
    for item in items {
        out.push_reserved(item.shared()?);
    }
    Ok(())
}
