ghost use Rattle.std.specs.Prelude.{◌≡◌, IfOk, IsTrue, length};
ghost use Rattle.ifdb_label.specs.Tags.{AreMade};
ghost use Rattle.ifdb_row.specs.Writes.{is_fitting};
ghost use Rattle.ifdb_store.specs.Later.{are_commits_made, are_writes_made};

use ifdb_commit::{Judged, verdict};
use ifdb_label::{Label, Tag, TagFault, TagKind, Tags};
use ifdb_row::{Key, OutOfMemory, Refs, Row, Slot, Values, Write, Writes};
use ifdb_store::Store;
use ifdb_value::{Shared, TableId, Value};
use std::alloc::Global;
use std::test::Fail;

/// The empty label, or the one of the only tag.
#[derive(Clone, Copy)]
enum At {
    Low,
    High,
}

/// What a slot holds: a row, a row that is bound to the one of a key at the empty label, or nothing.
#[derive(Clone, Copy)]
enum Holds {
    Plain,
    Child(i64),
    Nothing,
}

use At::{High, Low};
use Holds::{Child, Nothing, Plain};

/// What a write puts under a key at a label.
#[derive(Clone, Copy)]
struct Put(i64, At, Holds);

/// A commit of one write, with its stamp.
#[derive(Clone, Copy)]
struct Entry(u64, Put);

/// How a COMMIT comes out, by the keys of what shows it.
#[derive(Clone, Copy, Debug, PartialEq, Eq)]
enum Came {
    Go,
    CommitLabel(i64),
    Conflict(i64, u64),
    BrokenReference(i64),
    StillReferenced(i64, i64),
}

/// A row and its child, two other rows, and one of them written again.
static LOG: [Entry; 5] = [
    Entry(1, Put(1, Low, Plain)),
    Entry(2, Put(2, Low, Child(1))),
    Entry(3, Put(3, Low, Plain)),
    Entry(4, Put(6, High, Plain)),
    Entry(5, Put(6, High, Plain)),
];

/// The BEGIN, the label at COMMIT, two writes, and how the COMMIT comes out.
struct Case(u64, At, Put, Put, Came);

static CASES: [Case; 12] = [
    Case(5, Low, Put(4, Low, Plain), Put(8, Low, Plain), Came::Go),
    Case(5, Low, Put(4, Low, Plain), Put(8, High, Plain), Came::Go),
    Case(
        5,
        High,
        Put(4, High, Plain),
        Put(8, Low, Plain),
        Came::CommitLabel(8),
    ),
    Case(
        5,
        Low,
        Put(4, Low, Plain),
        Put(1, Low, Nothing),
        Came::StillReferenced(2, 1),
    ),
    Case(5, Low, Put(2, Low, Nothing), Put(1, Low, Nothing), Came::Go),
    Case(5, Low, Put(2, Low, Plain), Put(1, Low, Nothing), Came::Go),
    Case(
        5,
        Low,
        Put(4, Low, Child(1)),
        Put(5, Low, Child(9)),
        Came::BrokenReference(5),
    ),
    Case(5, Low, Put(4, Low, Child(5)), Put(5, Low, Plain), Came::Go),
    Case(
        2,
        Low,
        Put(3, Low, Plain),
        Put(4, Low, Plain),
        Came::Conflict(3, 3),
    ),
    Case(
        2,
        Low,
        Put(3, High, Plain),
        Put(4, Low, Plain),
        Came::Conflict(3, 3),
    ),
    Case(3, Low, Put(6, Low, Plain), Put(4, Low, Plain), Came::Go),
    Case(
        3,
        Low,
        Put(6, High, Plain),
        Put(5, Low, Child(9)),
        Came::Conflict(6, 5),
    ),
];

#[test]
fn each_case_in_its_order(rt: HostRuntime) -> Result<(), Fail> {
    let tags = one_tag(rt.alloc())?;
    let store = store_of(rt.alloc(), &tags)?;
    for case in &CASES {
        let Case(begin, at, first, second, want) = case;
        let writes = writes_of(rt.alloc(), &tags, *first, *second)?;
        let label = label_of(rt.alloc(), &tags, *at)?;
        let came = came_of(&verdict(&store, &tags, *begin, &writes, &label));
        assert_eq!(rt; came, *want, "since {begin}");
    }
    Ok(())
}

#[test]
fn no_writes_go(rt: HostRuntime) -> Result<(), Fail> {
    let tags = one_tag(rt.alloc())?;
    let store = store_of(rt.alloc(), &tags)?;
    let label = label_of(rt.alloc(), &tags, High)?;
    let came = came_of(&verdict(&store, &tags, 0, &Writes::new(rt.alloc()), &label));
    assert_eq!(rt; came, Came::Go);
    Ok(())
}

/// One plain tag.
fn one_tag(alloc: Global) -> Result<Tags, TagFault>
    ensures { IfOk result (λ tags. length tags ≡ 1) }
{
    let mut tags = Tags::new(alloc);
    tags.add(TagKind::Plain, &[])?;
    Ok(tags)
}

/// The store after the log.
fn store_of(alloc: Global, tags: &Tags) -> Result<Store, OutOfMemory>
    requires { length tags.now ≡ 1 }
    ensures { IfOk result (λ store. IsTrue (are_commits_made (length tags.now) store.commits)) }
{
    let mut store = Store::new(alloc)?;
    for entry in &LOG {
        let Entry(stamp, put) = entry;
        let mut writes = Writes::new(alloc);
        writes.put(write_of(alloc, tags, *put)?)?;
        let Ok(()) = store.commit(*stamp, writes) else {
            return Err(OutOfMemory);
        };
    }
    Ok(store)
}

/// Two writes.
#[tactic(auto, using(ifdb_row::proofs::LiveLaws::put_all))]
fn writes_of(alloc: Global, tags: &Tags, first: Put, second: Put) -> Result<Writes, OutOfMemory>
    requires { length tags.now ≡ 1 }
    ensures { IfOk result (λ writes. IsTrue (are_writes_made (length tags.now) writes)) }
{
    let mut writes = Writes::new(alloc);
    writes.put(write_of(alloc, tags, first)?)?;
    writes.put(write_of(alloc, tags, second)?)?;
    Ok(writes)
}

/// A write.
#[tactic(auto, using(ifdb_row::proofs::SlotOrder::slot_itself))]
fn write_of(alloc: Global, tags: &Tags, put: Put) -> Result<Write, OutOfMemory>
    requires { length tags.now ≡ 1 }
    ensures fitting { IfOk result (λ write. IsTrue (is_fitting write.slot write.row)) }
    ensures made { IfOk result (λ write. AreMade (length tags.now) write.slot.label) }
{
    let Put(key, at, holds) = put;
    let slot = slot_of(alloc, tags, key, at)?;
    let refs = match holds {
        Nothing => return Ok(Write { slot, row: None }),
        Plain => Refs::new(),
        Child(parent) => Refs::from_vec(
            alloc,
            Vec::from_array(alloc, [slot_of(alloc, tags, parent, Low)?])?,
        )?,
    };
    let row = Shared::new(
        alloc,
        Row {
            slot: slot.copy(alloc)?,
            values: Values::single(alloc, Value::Int(key))?,
            refs,
        },
    )?;
    Ok(Write {
        slot,
        row: Some(row),
    })
}

/// The slot of a key at a label.
fn slot_of(alloc: Global, tags: &Tags, key: i64, at: At) -> Result<Slot, OutOfMemory>
    requires { length tags.now ≡ 1 }
    ensures { IfOk result (λ slot. AreMade (length tags.now) slot.label) }
{
    Ok(Slot {
        table: TableId(0),
        key: Key::single(alloc, Value::Int(key))?,
        label: label_of(alloc, tags, at)?,
    })
}

/// A label.
fn label_of(alloc: Global, tags: &Tags, at: At) -> Result<Label, OutOfMemory>
    requires { length tags.now ≡ 1 }
    ensures { IfOk result (λ label. AreMade (length tags.now) label) }
{
    match at {
        Low => Label::reduce(alloc, tags, &[]),
        High => Label::reduce(alloc, tags, &[Tag(0)]),
    }
}

/// How a COMMIT came out.
fn came_of(judged: &Judged<'_>) -> Came {
    match judged {
        Judged::Go => Came::Go,
        Judged::CommitLabel(slot) => Came::CommitLabel(key_of(slot.key.items())),
        Judged::Conflict(later) => Came::Conflict(key_of(later.slot.key.items()), later.stamp),
        Judged::BrokenReference(slot) => Came::BrokenReference(key_of(slot.key.items())),
        Judged::StillReferenced(left) => Came::StillReferenced(
            key_of(left.child.key),
            key_of(left.parent.key.items()),
        ),
    }
}

/// The number that is a key.
fn key_of(key: &[Value]) -> i64 {
    match key {
        [Value::Int(number)] => *number,
        _ => 0,
    }
}
