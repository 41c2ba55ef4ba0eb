//! Rows of three tables, `note (id, number)`, `visit (id, note)` and `pair (id, note)`, and their labels.
ghost use Rattle.std.specs.Prelude.{◌≡◌, IfOk, IsTrue, length};
ghost use Rattle.ifdb_label.specs.Tags.{AreMade};
ghost use Rattle.ifdb_row.specs.Seen.{are_rows_made};

use ifdb_label::{Label, Tag, TagFault, TagKind, Tags};
use ifdb_row::{Key, OutOfMemory, Refs, Row, Slot};
use ifdb_value::{Shared, TableId, Value, ValueRow};
use std::alloc::Global;

/// A label of the only tag, or none.
#[derive(Clone, Copy, PartialEq, Eq)]
pub(super) enum At {
    Low,
    High,
}

/// Which table.
#[derive(Clone, Copy)]
pub(super) enum Which {
    Note,
    Visit,
    Pair,
}

/// A row: its table, its id, its other number or NULL, its label, and the label of the rows that it is bound to.
struct One(Which, i64, Option<i64>, At, At);

static ROWS: [One; 12] = [
    One(Which::Note, 1, Some(5), At::Low, At::Low),
    One(Which::Note, 1, Some(6), At::High, At::Low),
    One(Which::Note, 2, Some(7), At::Low, At::Low),
    One(Which::Note, 3, Some(i64::MAX), At::Low, At::Low),
    One(Which::Note, 4, Some(8), At::Low, At::Low),
    One(Which::Note, 9, Some(9), At::High, At::Low),
    One(Which::Visit, 10, Some(1), At::Low, At::Low),
    One(Which::Visit, 11, Some(1), At::High, At::High),
    One(Which::Visit, 12, Some(2), At::Low, At::Low),
    One(Which::Visit, 13, Some(1), At::Low, At::Low),
    One(Which::Pair, 10, Some(1), At::High, At::Low),
    One(Which::Pair, 13, None, At::High, At::Low),
];

/// One plain tag.
pub(super) fn one_tag(alloc: Global) -> Result<Tags, TagFault>
    ensures { IfOk result (λ tags. length tags ≡ 1) }
{
    let mut tags = Tags::new(alloc);
    tags.add(TagKind::Plain, &[])?;
    Ok(tags)
}

/// A label.
pub(super) fn label_of(alloc: Global, tags: &Tags, at: At) -> Result<Label, OutOfMemory>
    requires { length tags.now ≡ 1 }
    ensures { IfOk result (λ label. AreMade (length tags.now) label) }
{
    match at {
        At::Low => Label::reduce(alloc, tags, &[]),
        At::High => Label::reduce(alloc, tags, &[Tag(0)]),
    }
}

/// A table's number.
pub(super) fn table_of(which: Which) -> TableId {
    match which {
        Which::Note => TableId(0),
        Which::Visit => TableId(1),
        Which::Pair => TableId(2),
    }
}

/// The rows.
pub(super) fn all_rows(alloc: Global, tags: &Tags) -> Result<Vec<Shared<Row>>, OutOfMemory>
    requires { length tags.now ≡ 1 }
    ensures { IfOk result (λ rows. IsTrue (are_rows_made (length tags.now) rows.items)) }
{
    let mut rows = Vec::new(alloc);
    for one in &ROWS {
        rows.push(row_of(alloc, tags, one)?)?;
    }
    Ok(rows)
}

/// A row.
fn row_of(alloc: Global, tags: &Tags, one: &One) -> Result<Shared<Row>, OutOfMemory>
    requires { length tags.now ≡ 1 }
    ensures { IfOk result (λ row. AreMade (length tags.now) row.slot.label) }
{
    let row = Row {
        slot: slot_of(alloc, tags, one.0, one.1, one.3)?,
        values: values_of(alloc, one.1, number_of(one.2))?,
        refs: refs_of(alloc, tags, one)?,
    };
    Shared::new(alloc, row)
}

/// A number, or NULL where there is none.
fn number_of(number: Option<i64>) -> Value {
    match number {
        Some(number) => Value::Int(number),
        None => Value::Null,
    }
}

/// The rows that a row is bound to: none, a note, or a note and a visit; no note where its number is NULL.
fn refs_of(alloc: Global, tags: &Tags, one: &One) -> Result<Refs, OutOfMemory>
    requires { length tags.now ≡ 1 }
{
    let One(which, id, number, _, parent) = one;
    match which {
        Which::Note => Ok(Refs::new()),
        Which::Visit => Refs::from_vec(alloc, note_refs(alloc, tags, *number, *parent)?),
        Which::Pair => {
            let mut refs = note_refs(alloc, tags, *number, *parent)?;
            refs.push(slot_of(alloc, tags, Which::Visit, *id, *parent)?)?;
            Refs::from_vec(alloc, refs)
        }
    }
}

/// A note, if there is its id.
fn note_refs(alloc: Global, tags: &Tags, id: Option<i64>, at: At) -> Result<Vec<Slot>, OutOfMemory>
    requires { length tags.now ≡ 1 }
{
    let mut refs = Vec::new(alloc);
    if let Some(id) = id {
        refs.push(slot_of(alloc, tags, Which::Note, id, at)?)?;
    }
    Ok(refs)
}

/// A slot.
fn slot_of(alloc: Global, tags: &Tags, which: Which, id: i64, at: At) -> Result<Slot, OutOfMemory>
    requires { length tags.now ≡ 1 }
    ensures { IfOk result (λ slot. AreMade (length tags.now) slot.label) }
{
    Ok(Slot {
        table: table_of(which),
        key: Key::single(alloc, Value::Int(id))?,
        label: label_of(alloc, tags, at)?,
    })
}

/// The values of a row.
pub(super) fn values_of(alloc: Global, id: i64, number: Value) -> Result<ValueRow, OutOfMemory> {
    let mut values = ValueRow::with_capacity(alloc, 2)?;
    values.push(Value::Int(id))?;
    values.push(number)?;
    Ok(values)
}
