// Parents of rows, and what writes leave without them, over plain rows.
ghost use Rattle.std.specs.Prelude.{◌≡◌, IfOk, IsTrue, length};
ghost use Rattle.ifdb_label.specs.Tags.{AreMade};
ghost use Rattle.ifdb_row.specs.Seen.{are_rows_made};
ghost use Rattle.ifdb_row.specs.Writes.{is_fitting};

use ifdb_foreign::{Standpoint, bind_parent, first_broken, first_left};
use ifdb_label::{Label, Tag, TagFault, TagKind, Tags};
use ifdb_row::{Key, ListRows, OutOfMemory, Refs, Row, Slot, Values, Write, Writes};
use ifdb_value::{Shared, TableId, Value};
use ifdb_wire::Fault;
use std::alloc::Global;
use std::process::Abort;
use std::test::Fail;

/// A label of the tags 0 and 1.
#[derive(Clone, Copy, Debug, PartialEq, Eq)]
enum At {
    Low,
    First,
    Second,
    Both,
}

use At::{Both, First, Low, Second};

/// A slot: its table, its key and its label.
#[derive(Clone, Copy)]
struct Place(u64, i64, At);

/// What a slot holds: a row that is bound to the rows of these slots, or nothing.
#[derive(Clone, Copy)]
enum Holds {
    Row(&'static [Place]),
    Nothing,
}

use Holds::Nothing;

/// What stands in a slot, or is written there.
#[derive(Clone, Copy)]
struct Put(Place, Holds);

/// The parents 1 at two labels, 2 and 4, and their children.
static ROWS: [Put; 8] = [
    Put(Place(0, 1, Low), Holds::Row(&[])),
    Put(Place(0, 1, First), Holds::Row(&[])),
    Put(Place(0, 2, Both), Holds::Row(&[])),
    Put(Place(0, 4, Low), Holds::Row(&[])),
    Put(Place(1, 10, Low), Holds::Row(&[Place(0, 1, Low)])),
    Put(Place(1, 11, First), Holds::Row(&[Place(0, 1, First)])),
    Put(
        Place(2, 20, Low),
        Holds::Row(&[Place(0, 4, Low), Place(0, 1, Low)]),
    ),
    Put(Place(2, 21, Both), Holds::Row(&[Place(0, 2, Both)])),
];

/// The session's label, what is declassified, the parent's key, and the label of the parent that a child is bound to.
struct Binding(At, At, i64, Option<At>);

static BINDINGS: [Binding; 11] = [
    Binding(Low, Low, 1, Some(Low)),
    Binding(First, Low, 1, Some(First)),
    Binding(First, First, 1, Some(Low)),
    Binding(Second, Low, 1, None),
    Binding(Second, Second, 1, Some(Low)),
    Binding(Second, Both, 1, Some(Low)),
    Binding(Both, Second, 1, Some(First)),
    Binding(Low, Low, 2, None),
    Binding(Low, First, 2, None),
    Binding(First, Second, 2, Some(Both)),
    Binding(Both, Both, 3, None),
];

#[test]
fn a_child_is_bound_to_the_first_row_that_may_serve(rt: HostRuntime) -> Result<(), Fail> {
    let alloc = rt.alloc();
    let tags = two_tags(alloc)?;
    let rows = ListRows::try_new(all_rows(alloc, &tags)?).ok_or("rows that rise")?;
    for binding in &BINDINGS {
        let Binding(at, given, key, want) = binding;
        let label = label_of(alloc, &tags, *at)?;
        let given = label_of(alloc, &tags, *given)?;
        let from = Standpoint {
            tags: &tags,
            label: &label,
            given: &given,
        };
        let came = bind_parent(alloc, from, &rows, TableId(0), &[Value::Int(*key)]);
        is_bound(&rt, alloc, &tags, &came, *key, *want)?;
    }
    Ok(())
}

/// Tests that a child is bound to the row of a key at this label, or to none.
fn is_bound(
    rt: &impl Abort,
    alloc: Global,
    tags: &Tags,
    came: &Result<Slot, Fault>,
    key: i64,
    want: Option<At>,
) -> Result<(), Fail>
    requires { length tags.now ≡ 2 }
{
    match (came, want) {
        (Ok(slot), Some(at)) => {
            let wanted = slot_of(alloc, tags, Place(0, key, at))?;
            assert!(rt; slot.is_same(&wanted), "{key} {at:?}");
        }
        (Err(Fault::NoReference), None) => {}
        _ => return Err(Fail::from("another answer")),
    }
    Ok(())
}

/// Writes, the key of the first that is broken, and the keys of the row that is left and of its parent.
struct Breaking(&'static [Put], Option<i64>, Option<(i64, i64)>);

static BREAKINGS: [Breaking; 14] = [
    Breaking(&[], None, None),
    // A row of another table, a child of a row that stands, and one of a row that doesn't.
    Breaking(&[Put(Place(3, 7, Low), Holds::Row(&[]))], None, None),
    Breaking(
        &[Put(Place(1, 12, Low), Holds::Row(&[Place(0, 4, Low)]))],
        None,
        None,
    ),
    Breaking(
        &[Put(Place(1, 12, Low), Holds::Row(&[Place(0, 4, First)]))],
        Some(12),
        None,
    ),
    // The second of two parents doesn't stand.
    Breaking(
        &[Put(
            Place(2, 22, Low),
            Holds::Row(&[Place(0, 4, Low), Place(0, 3, Low)]),
        )],
        Some(22),
        None,
    ),
    // A parent of the same writes, and one that they empty.
    Breaking(
        &[
            Put(Place(0, 3, Low), Holds::Row(&[])),
            Put(Place(1, 12, Low), Holds::Row(&[Place(0, 3, Low)])),
        ],
        None,
        None,
    ),
    Breaking(
        &[
            Put(Place(0, 4, Low), Nothing),
            Put(Place(1, 12, Low), Holds::Row(&[Place(0, 4, Low)])),
        ],
        Some(12),
        Some((12, 4)),
    ),
    // A parent with children, the one at the other label, and one without any.
    Breaking(&[Put(Place(0, 1, Low), Nothing)], None, Some((10, 1))),
    Breaking(&[Put(Place(0, 1, First), Nothing)], None, Some((11, 1))),
    Breaking(&[Put(Place(1, 10, Low), Nothing)], None, None),
    // A parent that is written anew stays.
    Breaking(&[Put(Place(0, 1, Low), Holds::Row(&[]))], None, None),
    // All children go with their parent, or are bound to another row.
    Breaking(
        &[
            Put(Place(0, 1, First), Nothing),
            Put(Place(1, 11, First), Nothing),
        ],
        None,
        None,
    ),
    Breaking(
        &[
            Put(Place(0, 2, Both), Nothing),
            Put(Place(2, 21, Both), Holds::Row(&[Place(0, 4, Low)])),
        ],
        None,
        None,
    ),
    // Of two parents that go, the first in the order of slots is named.
    Breaking(
        &[
            Put(Place(0, 1, Low), Nothing),
            Put(Place(0, 4, Low), Nothing),
            Put(Place(1, 10, Low), Nothing),
        ],
        None,
        Some((20, 1)),
    ),
];

#[test]
fn writes_break_references(rt: HostRuntime) -> Result<(), Fail> {
    let alloc = rt.alloc();
    let tags = two_tags(alloc)?;
    let rows = ListRows::try_new(all_rows(alloc, &tags)?).ok_or("rows that rise")?;
    for breaking in &BREAKINGS {
        let Breaking(puts, broken, left) = breaking;
        let writes = writes_of(alloc, &tags, puts)?;
        let broke = first_broken(&rows, &writes).map(|write| key_of(write.slot.key.items()));
        assert_eq!(rt; broke, *broken);
        let lost = first_left(&rows, &writes).map(|row| (
            key_of(row.child.key),
            key_of(row.parent.key.items()),
        ));
        assert_eq!(rt; lost, *left);
    }
    Ok(())
}

/// Two plain tags.
fn two_tags(alloc: Global) -> Result<Tags, TagFault>
    ensures { IfOk result (λ tags. length tags ≡ 2) }
{
    let mut tags = Tags::new(alloc);
    tags.add(TagKind::Plain, &[])?;
    tags.add(TagKind::Plain, &[])?;
    Ok(tags)
}

/// A label.
fn label_of(alloc: Global, tags: &Tags, at: At) -> Result<Label, OutOfMemory>
    requires { length tags.now ≡ 2 }
    ensures { IfOk result (λ label. AreMade (length tags.now) label) }
{
    match at {
        Low => Label::reduce(alloc, tags, &[]),
        First => Label::reduce(alloc, tags, &[Tag(0)]),
        Second => Label::reduce(alloc, tags, &[Tag(1)]),
        Both => Label::reduce(alloc, tags, &[Tag(0), Tag(1)]),
    }
}

/// A slot.
fn slot_of(alloc: Global, tags: &Tags, place: Place) -> Result<Slot, OutOfMemory>
    requires { length tags.now ≡ 2 }
    ensures { IfOk result (λ slot. AreMade (length tags.now) slot.label) }
{
    let Place(table, key, at) = place;
    Ok(Slot {
        table: TableId(table),
        key: Key::single(alloc, Value::Int(key))?,
        label: label_of(alloc, tags, at)?,
    })
}

/// A row that is bound to the rows of some slots.
fn row_of(
    alloc: Global,
    tags: &Tags,
    slot: &Slot,
    parents: &[Place],
) -> Result<Shared<Row>, OutOfMemory>
    requires { length tags.now ≡ 2 }
    ensures { IfOk result (λ row. row.slot ≡ slot.now) }
{
    let mut refs = Vec::new(alloc);
    for parent in parents {
        refs.push(slot_of(alloc, tags, *parent)?)?;
    }
    let row = Row {
        slot: slot.copy(alloc)?,
        values: Values::new(alloc),
        refs: Refs::from_vec(alloc, refs)?,
    };
    Shared::new(alloc, row)
}

/// The rows.
fn all_rows(alloc: Global, tags: &Tags) -> Result<Vec<Shared<Row>>, OutOfMemory>
    requires { length tags.now ≡ 2 }
    ensures { IfOk result (λ rows. IsTrue (are_rows_made (length tags.now) rows.items)) }
{
    let mut rows = Vec::new(alloc);
    for put in &ROWS {
        if let Put(place, Holds::Row(parents)) = put {
            let slot = slot_of(alloc, tags, *place)?;
            rows.push(row_of(alloc, tags, &slot, parents)?)?;
        }
    }
    Ok(rows)
}

/// Writes.
fn writes_of(alloc: Global, tags: &Tags, puts: &[Put]) -> Result<Writes, OutOfMemory>
    requires { length tags.now ≡ 2 }
{
    let mut writes = Writes::new(alloc);
    for put in puts {
        writes.put(write_of(alloc, tags, *put)?)?;
    }
    Ok(writes)
}

/// A write.
#[tactic(auto, using(ifdb_row::proofs::SlotOrder::slot_itself))]
fn write_of(alloc: Global, tags: &Tags, put: Put) -> Result<Write, OutOfMemory>
    requires { length tags.now ≡ 2 }
    ensures { IfOk result (λ write. IsTrue (is_fitting write.slot write.row)) }
{
    let Put(place, holds) = put;
    let slot = slot_of(alloc, tags, place)?;
    let row = match holds {
        Nothing => None,
        Holds::Row(parents) => Some(row_of(alloc, tags, &slot, parents)?),
    };
    Ok(Write { slot, row })
}

/// The number that is a key.
fn key_of(key: &[Value]) -> i64 {
    match key {
        [Value::Int(number)] => *number,
        _ => 0,
    }
}
