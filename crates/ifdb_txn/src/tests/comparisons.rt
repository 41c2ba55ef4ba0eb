//! How statements come out, compared with how they should.
ghost use Rattle.std.specs.Prelude.{◌≡◌, length};

use super::rows::{At, Which, one_tag};
use super::statements::{Does, came_of};
use crate::written::Written;
use ifdb_label::Tags;
use ifdb_row::{Slot, Write};
use ifdb_value::Value;
use ifdb_wire::Fault;
use std::alloc::Global;
use std::process::Abort;
use std::test::Fail;

/// A write, by the id of its slot.
pub(super) enum Wrote {
    /// A row with this number that is bound to rows of these labels.
    Row(i64, i64, &'static [At]),
    /// A row with NULL for its number that is bound to rows of these labels.
    Null(i64, &'static [At]),
    /// No row.
    Gone(i64),
}

/// How a statement comes out: how many rows it counts and what it writes, or its refusal.
pub(super) enum Comes {
    Writes(u64, &'static [Wrote]),
    Refused(Fault),
}

/// A table, the session's label, the label that is declassified, a statement, and how it comes out.
pub(super) struct Case(
    pub(super) Which,
    pub(super) At,
    pub(super) At,
    pub(super) Does<'static>,
    pub(super) Comes,
);

/// Tests how each statement comes out.
pub(super) fn all_come(rt: &impl Abort, alloc: Global, cases: &[Case]) -> Result<(), Fail> {
    let tags = one_tag(alloc)?;
    for (place, case) in cases.iter().enumerate() {
        comes_as_wanted(rt, alloc, &tags, place, case)?;
    }
    Ok(())
}

/// Tests how a statement comes out.
fn comes_as_wanted(
    rt: &impl Abort,
    alloc: Global,
    tags: &Tags,
    place: usize,
    case: &Case,
) -> Result<(), Fail>
    requires { length tags.now ≡ 1 }
{
    let Case(which, at, given, does, want) = case;
    match came_of(rt, alloc, tags, (*which, *at, *given), *does)? {
        Ok(written) => is_written_as(rt, place, &written, want),
        Err(fault) => is_refused_as(rt, place, fault, want),
    }
}

/// Tests that a statement writes what is wanted.
fn is_written_as(
    rt: &impl Abort,
    place: usize,
    written: &Written,
    want: &Comes,
) -> Result<(), Fail> {
    let Comes::Writes(count, wrote) = want else {
        return Err(Fail::from("a refusal is wanted"));
    };
    assert_eq!(rt; written.count(), *count, "case {place}");
    let writes = written.writes().items();
    assert_eq!(rt; writes.len(), wrote.len(), "case {place}");
    for (write, want) in writes.iter().zip(wrote.iter()) {
        assert!(rt; is_write(write, want), "case {place}");
    }
    Ok(())
}

/// Tests that a statement is refused as is wanted.
fn is_refused_as(rt: &impl Abort, place: usize, fault: Fault, want: &Comes) -> Result<(), Fail> {
    match want {
        Comes::Refused(want) => assert_eq!(rt; fault, *want, "case {place}"),
        Comes::Writes(_, _) => return Err(Fail::from("writes are wanted")),
    }
    Ok(())
}

/// Whether a write is this one.
fn is_write(write: &Write, want: &Wrote) -> bool {
    match want {
        Wrote::Row(id, number, parents) => puts(write, *id, Some(*number), parents),
        Wrote::Null(id, parents) => puts(write, *id, None, parents),
        Wrote::Gone(id) => write.row.is_none() && is_id(write.slot.key.items(), *id),
    }
}

/// Whether a write puts a row of these numbers, the second of which may be NULL, into the slot of its id, bound to rows of these labels.
fn puts(write: &Write, id: i64, number: Option<i64>, parents: &[At]) -> bool {
    match &write.row {
        Some(row) => {
            is_id(write.slot.key.items(), id)
                && row.get().slot.is_same(&write.slot)
                && are_numbers(row.get().values.items(), id, number)
                && are_at(row.get().refs.items(), parents)
        }
        None => false,
    }
}

/// Whether a key is this id.
fn is_id(key: &[Value], id: i64) -> bool {
    matches!(key, [Value::Int(found)] if *found == id)
}

/// Whether values are these two numbers, the second of which may be NULL.
fn are_numbers(values: &[Value], id: i64, number: Option<i64>) -> bool {
    match values {
        [Value::Int(first), Value::Int(second)] => *first == id && number == Some(*second),
        [Value::Int(first), Value::Null] => *first == id && number.is_none(),
        _ => false,
    }
}

/// Whether slots are at these labels.
fn are_at(slots: &[Slot], labels: &[At]) -> bool {
    slots.len() == labels.len()
        && slots
            .iter()
            .zip(labels.iter())
            .all(|(slot, at)| is_at(slot, *at))
}

/// Whether a slot is at this label.
fn is_at(slot: &Slot, at: At) -> bool {
    slot.label.tags().is_empty() == (at == At::Low)
}
