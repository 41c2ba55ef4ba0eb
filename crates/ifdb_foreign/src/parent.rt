// The parents that rows are bound to.
ghost use Rattle.std.specs.Prelude.{◌≡◌, ◌&&◌, find, length};
ghost use Rattle.ifdb_label.specs.Tags.{AreMade};
ghost use Rattle.ifdb_row.specs.ByReference.{option_row};
ghost use Rattle.ifdb_row.specs.Slots.{is_of_key};
ghost use Rattle.ifdb_row.specs.Seen.{candidate, parent_of};
ghost use Rattle.ifdb_foreign.specs.Parents.{Binds, IsMade};

use crate::OutOfMemory;
use crate::standpoint::Standpoint;
use ifdb_label::Label;
use ifdb_row::{RowRef, Rows, Slot};
use ifdb_value::{TableId, Value};
use ifdb_wire::Fault;
use std::alloc::Global;

/// The slot that a child of this key at the session's label is bound to: that of the first row, in the order of labels, that may serve.
///
/// `NoReference` exactly where none may. Costs one look-up for each row of the key, up to the first that may serve.
#[tactic(auto, using(crate::proofs::Parents::parent_found))]
pub fn bind_parent<R: Rows>(
    alloc: Global,
    from: Standpoint<'_>,
    rows: &R,
    parent: TableId,
    key: &[Value],
) -> Result<Slot, Fault>
    requires made { IsMade from (R.rows rows.now) }
    ensures { Binds (parent_of from.entry.tags.now (R.rows rows.now) parent key.now
        from.entry.label.now from.entry.given.now) result }
{
    match first_serving(from, rows, parent, key) {
        Some(row) => {
            let slot = row.slot.to_slot(alloc)?;
            Ok(slot)
        }
        None => Err(Fault::NoReference),
    }
}

/// The first row of the key that may serve a child as its parent. Takes no memory.
fn first_serving<'a, R: Rows>(
    from: Standpoint<'_>,
    rows: &'a R,
    table: TableId,
    key: &[Value],
) -> Option<RowRef<'a>>
    requires made { IsMade from (R.rows rows.now) }
    ensures { option_row result ≡
        find (λ r. is_of_key table key.now r.slot
        && candidate from.entry.tags.now r.slot.label from.entry.label.now from.entry.given.now)
        (R.rows rows.now) }
{
    let mut after: Option<&Label> = None;
    'keyed: while let Some(row) = rows.of_key(table, key, after) {
        if serves(from, row.slot.label) {
            return Some(row);
        }
        after = Some(row.slot.label);
    }
    None
}

/// Whether a row at a label may serve a child at the session's label: each flows to the other with the declassified tags.
fn serves(from: Standpoint<'_>, parent: &Label) -> bool
    requires parent_made { AreMade (length from.tags.now) parent.now }
    requires label_made { AreMade (length from.tags.now) from.label.now }
    requires given_made { AreMade (length from.tags.now) from.given.now }
    ensures { result
        ≡ candidate from.entry.tags.now parent.now from.entry.label.now from.entry.given.now }
{
    let child = from.label;
    let to_child = parent.flows_to_union(from.tags, child, from.given);
    let to_parent = child.flows_to_union(from.tags, parent, from.given);
    to_child && to_parent
}
