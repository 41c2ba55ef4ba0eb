//! Rows of three tables, a view of the first, and what a request answers over them.
ghost use Rattle.std.specs.Prelude.{◌≡◌, IfOk, IsTrue, length};
ghost use Rattle.ifdb_label.specs.Tags.{AreMade};
ghost use Rattle.ifdb_view.specs.Made.{are_views_made};

use super::At;
use super::checks::{are_rows_made, are_sources_keyed, are_views_keyed, are_views_made};
use super::requests::pairs;
use ifdb_bound::{BoundSelect, Relation, ViewDef};
use ifdb_exec::Reading;
use ifdb_label::{Label, Tag, TagFault, TagKind, Tags};
use ifdb_row::{Key, ListRows, Refs, Row, Slot, Values};
use ifdb_value::{Name, Names, Principal, Shared, TableId, Value, ValueRows, ViewId};
use ifdb_view::{OutOfMemory, ViewFault, Views, query};
use std::alloc::Global;
use std::process::Abort;
use std::test::Fail;

/// A row: its table, its key, the number beside it, and its label.
struct One(u64, i64, i64, At);

static ROWS: [One; 9] = [
    One(0, 1, 10, At::Low),
    One(0, 2, 20, At::Low),
    One(0, 3, 10, At::High),
    One(0, 4, 5, At::High),
    One(1, 7, 2, At::Low),
    One(1, 8, 1, At::Low),
    One(1, 9, 3, At::High),
    One(2, 1, 1, At::Low),
    One(2, 2, i64::MAX, At::High),
];

/// Views whose owners all hold what these declassify, or none does.
#[derive(Drop)]
struct AllViews {
    views: Vec<ViewDef>,
    are_allowed: bool,
}

impl Views for AllViews {
    ghost views = { λ v. v.views.items };

    ghost allows = { λ v _. v.are_allowed };

    fn view(&self, id: ViewId) -> Option<&ViewDef> {
        self.views.get(id.0 as usize)
    }

    fn is_allowed(&self, id: ViewId) -> Result<bool, OutOfMemory> {
        match self.view(id) {
            Some(_) => Ok(self.are_allowed),
            None => Ok(true),
        }
    }
}

/// What a request answers at a label, where the view's owner may show it or not.
pub(crate) fn answer(
    rt: &impl Abort,
    alloc: Global,
    at: At,
    are_allowed: bool,
    request: &BoundSelect,
) -> Result<Result<ValueRows, ViewFault>, Fail> {
    let tags = two_tags(alloc)?;
    let label = label_of(alloc, &tags, at)?;
    let reading = Reading {
        alloc,
        tags: &tags,
        names: &[],
        label: &label,
    };
    with_view(rt, &reading, are_allowed, request)
}

/// What a request answers beside the view.
fn with_view(
    rt: &impl Abort,
    reading: &Reading<'_>,
    are_allowed: bool,
    request: &BoundSelect,
) -> Result<Result<ValueRows, ViewFault>, Fail>
    requires tags { length reading.now.tags.now ≡ 2 }
    requires label { AreMade (length reading.now.tags.now) reading.now.label.now }
{
    let views = AllViews {
        views: all_views(reading.alloc, reading.tags)?,
        are_allowed,
    };
    assert!(rt; are_views_made(reading.tags, &views.views));
    over_rows(rt, reading, &views, request)
}

/// What a request answers over the rows.
fn over_rows(
    rt: &impl Abort,
    reading: &Reading<'_>,
    views: &AllViews,
    request: &BoundSelect,
) -> Result<Result<ValueRows, ViewFault>, Fail>
    requires tags { length reading.now.tags.now ≡ 2 }
    requires label { AreMade (length reading.now.tags.now) reading.now.label.now }
    requires views { IsTrue (are_views_made (length reading.now.tags.now) views.now.views.items) }
{
    let rows = all_rows(reading.alloc, reading.tags)?;
    assert!(rt; are_rows_made(reading.tags, &rows));
    assert!(rt; are_sources_keyed(&rows, request.sources.items()));
    assert!(rt; are_views_keyed(&rows, &views.views));
    assert!(rt; request.sources.len() <= 4);
    let rows = ListRows::try_new(rows).ok_or("rows that rise")?;
    Ok(query(reading, &rows, views, request))
}

/// The view alone.
fn all_views(alloc: Global, tags: &Tags) -> Result<Vec<ViewDef>, Fail>
    requires { length tags.now ≡ 2 }
{
    let mut views = Vec::new(alloc);
    views.push(view_of(alloc, tags)?)?;
    Ok(views)
}

/// The view `SELECT key, number FROM 0` that declassifies tag 0.
fn view_of(alloc: Global, tags: &Tags) -> Result<ViewDef, Fail>
    requires { length tags.now ≡ 2 }
{
    Ok(ViewDef {
        name: shown(alloc)?,
        owner: Principal(0),
        select: pairs(alloc, Relation::Table(TableId(0)))?,
        names: Names::new(alloc),
        declassifying: label_of(alloc, tags, At::High)?,
    })
}

/// The name of the view.
fn shown(alloc: Global) -> Result<Name, Fail> {
    match Name::read(alloc, "shown") {
        Ok(name) => Ok(name),
        Err(_) => Err(Fail::from("a name")),
    }
}

/// Two plain tags.
fn two_tags(alloc: Global) -> Result<Tags, TagFault>
    ensures { IfOk result (λ tags. length tags ≡ 2) }
{
    let mut tags = Tags::new(alloc);
    tags.add(TagKind::Plain, &[])?;
    tags.add(TagKind::Plain, &[])?;
    Ok(tags)
}

/// A label.
fn label_of(alloc: Global, tags: &Tags, at: At) -> Result<Label, OutOfMemory>
    requires { length tags.now ≡ 2 }
    ensures { IfOk result (λ label. AreMade (length tags.now) label) }
{
    match at {
        At::Low => Label::reduce(alloc, tags, &[]),
        At::High => Label::reduce(alloc, tags, &[Tag(0)]),
        At::Other => Label::reduce(alloc, tags, &[Tag(1)]),
    }
}

/// All rows.
fn all_rows(alloc: Global, tags: &Tags) -> Result<Vec<Shared<Row>>, OutOfMemory>
    requires { length tags.now ≡ 2 }
{
    let mut rows = Vec::new(alloc);
    for one in &ROWS {
        rows.push(row_of(alloc, tags, one)?)?;
    }
    Ok(rows)
}

/// A row of a key and a number.
fn row_of(alloc: Global, tags: &Tags, one: &One) -> Result<Shared<Row>, OutOfMemory>
    requires { length tags.now ≡ 2 }
{
    let row = Row {
        slot: slot_of(alloc, tags, one)?,
        values: values_of(alloc, one)?,
        refs: Refs::new(),
    };
    Shared::new(alloc, row)
}

/// The slot of a row.
fn slot_of(alloc: Global, tags: &Tags, one: &One) -> Result<Slot, OutOfMemory>
    requires { length tags.now ≡ 2 }
{
    Ok(Slot {
        table: TableId(one.0),
        key: Key::single(alloc, Value::Int(one.1))?,
        label: label_of(alloc, tags, one.3)?,
    })
}

/// The values of a row.
fn values_of(alloc: Global, one: &One) -> Result<Values, OutOfMemory> {
    let mut values = Values::single(alloc, Value::Int(one.1))?;
    values.push(Value::Int(one.2))?;
    Ok(values)
}
