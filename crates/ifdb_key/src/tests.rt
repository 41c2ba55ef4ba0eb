// Keys at labels, over plain rows.
ghost use Rattle.std.specs.Prelude.{◌≡◌, IfOk, IsTrue, length};
ghost use Rattle.ifdb_label.specs.Tags.{AreMade};
ghost use Rattle.ifdb_row.specs.Seen.{are_rows_made};

use crate::is_free;
use ifdb_label::{Label, Tag, TagFault, TagKind, Tags};
use ifdb_row::{Key, ListRows, OutOfMemory, Refs, Row, Slot, Values};
use ifdb_value::{Shared, TableId, Value};
use std::alloc::Global;
use std::test::Fail;

/// A label of the tags 0 and 1.
#[derive(Clone, Copy, Debug)]
enum At {
    Low,
    First,
    Second,
    Both,
}

use At::{Both, First, Low, Second};

/// A table's key at a label.
struct Keyed(u64, i64, At);

/// Two rows of one key, a row of another at the label of both tags, and one of another table.
static ROWS: [Keyed; 4] = [
    Keyed(0, 1, First),
    Keyed(0, 1, Second),
    Keyed(0, 2, Both),
    Keyed(1, 3, Low),
];

/// A key that is looked for, and whether it is free.
struct Case(Keyed, bool);

static CASES: [Case; 11] = [
    Case(Keyed(0, 1, Low), true),
    Case(Keyed(0, 1, First), false),
    Case(Keyed(0, 1, Second), false),
    Case(Keyed(0, 1, Both), false),
    Case(Keyed(0, 2, First), true),
    Case(Keyed(0, 2, Second), true),
    Case(Keyed(0, 2, Both), false),
    Case(Keyed(0, 3, Both), true),
    Case(Keyed(1, 1, Both), true),
    Case(Keyed(1, 3, Low), false),
    Case(Keyed(1, 3, Second), false),
];

#[test]
fn a_key_is_free_where_the_label_sees_no_row_of_it(rt: HostRuntime) -> Result<(), Fail> {
    let alloc = rt.alloc();
    let tags = two_tags(alloc)?;
    let rows = ListRows::try_new(all_rows(alloc, &tags)?).ok_or("rows that rise")?;
    for case in &CASES {
        let Case(Keyed(table, key, at), want) = case;
        let label = label_of(alloc, &tags, *at)?;
        let came = is_free(&rows, &tags, TableId(*table), &[Value::Int(*key)], &label);
        assert_eq!(rt; came, *want, "{table} {key} {at:?}");
    }
    Ok(())
}

/// Two plain tags.
fn two_tags(alloc: Global) -> Result<Tags, TagFault>
    ensures { IfOk result (λ tags. length tags ≡ 2) }
{
    let mut tags = Tags::new(alloc);
    tags.add(TagKind::Plain, &[])?;
    tags.add(TagKind::Plain, &[])?;
    Ok(tags)
}

/// A label.
fn label_of(alloc: Global, tags: &Tags, at: At) -> Result<Label, OutOfMemory>
    requires { length tags.now ≡ 2 }
    ensures { IfOk result (λ label. AreMade (length tags.now) label) }
{
    match at {
        Low => Label::reduce(alloc, tags, &[]),
        First => Label::reduce(alloc, tags, &[Tag(0)]),
        Second => Label::reduce(alloc, tags, &[Tag(1)]),
        Both => Label::reduce(alloc, tags, &[Tag(0), Tag(1)]),
    }
}

/// The rows.
fn all_rows(alloc: Global, tags: &Tags) -> Result<Vec<Shared<Row>>, OutOfMemory>
    requires { length tags.now ≡ 2 }
    ensures { IfOk result (λ rows. IsTrue (are_rows_made (length tags.now) rows.items)) }
{
    let mut rows = Vec::new(alloc);
    for keyed in &ROWS {
        rows.push(row_of(alloc, tags, keyed)?)?;
    }
    Ok(rows)
}

/// A row that has no value beside its key.
fn row_of(alloc: Global, tags: &Tags, keyed: &Keyed) -> Result<Shared<Row>, OutOfMemory>
    requires { length tags.now ≡ 2 }
    ensures { IfOk result (λ row. AreMade (length tags.now) row.slot.label) }
{
    let Keyed(table, key, at) = keyed;
    let slot = Slot {
        table: TableId(*table),
        key: Key::single(alloc, Value::Int(*key))?,
        label: label_of(alloc, tags, *at)?,
    };
    let row = Row {
        slot,
        values: Values::single(alloc, Value::Int(*key))?,
        refs: Refs::new(),
    };
    Shared::new(alloc, row)
}
