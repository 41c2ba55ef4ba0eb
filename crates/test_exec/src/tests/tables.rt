//! Rows of some tables, and what a request answers over them.
ghost use Rattle.std.specs.Prelude.{◌≡◌, IfOk, length};
ghost use Rattle.ifdb_label.specs.Tags.{AreMade};

use super::checks::{are_given_keyed, are_rows_made};
use super::counted::CountedRows;
use ifdb_bound::BoundSelect;
use ifdb_exec::{Given, Reading, answer};
use ifdb_expr::ExprFault;
use ifdb_label::{Label, Tag, TagFault, TagKind, Tags};
use ifdb_row::{Key, ListRows, OutOfMemory, Refs, Row, Slot, Values};
use ifdb_value::{Name, Shared, TableId, Value, ValueRows};
use std::alloc::Global;
use std::cell::Cell;
use std::process::Abort;
use std::test::Fail;

/// The label of no tag, of a tag, or of the compound tag that has it as its member.
#[derive(Clone, Copy)]
pub(crate) enum At {
    Low,
    High,
    Every,
}

/// A row: its table, its key and two numbers beside it, and its label.
#[derive(Clone, Copy)]
pub(crate) struct One(pub(crate) u64, pub(crate) [i64; 3], pub(crate) At);

/// A request over the rows of some sources, at a label.
#[derive(Clone, Copy)]
pub(crate) struct Question<'a> {
    pub(crate) rows: &'a [One],
    pub(crate) given: &'a [Given<'a>],
    pub(crate) at: At,
    pub(crate) request: &'a BoundSelect,
}

/// An answer, and how often the rows were asked.
#[derive(Drop)]
pub(crate) struct Answered {
    pub(crate) rows: Result<ValueRows, ExprFault>,
    pub(crate) asked: u32,
}

/// What a question answers.
pub(crate) fn asked(
    rt: &impl Abort,
    alloc: Global,
    question: Question<'_>,
) -> Result<Answered, Fail> {
    let tags = two_tags(alloc)?;
    let label = label_of(alloc, &tags, question.at)?;
    asked_at(rt, alloc, &tags, &label, question)
}

/// What a question answers at a label.
fn asked_at(
    rt: &impl Abort,
    alloc: Global,
    tags: &Tags,
    label: &Label,
    question: Question<'_>,
) -> Result<Answered, Fail>
    requires tags { length tags.now ≡ 2 }
    requires label { AreMade (length tags.now) label.now }
{
    let names = all_names(alloc)?;
    let reading = Reading {
        alloc,
        tags,
        names: &names,
        label,
    };
    asked_of_rows(rt, &reading, question)
}

/// What a question answers over its rows.
fn asked_of_rows(
    rt: &impl Abort,
    reading: &Reading<'_>,
    question: Question<'_>,
) -> Result<Answered, Fail>
    requires tags { length reading.now.tags.now ≡ 2 }
    requires label { AreMade (length reading.now.tags.now) reading.now.label.now }
{
    let rows = all_rows(reading.alloc, reading.tags, question.rows)?;
    assert!(rt; are_rows_made(reading.tags, &rows));
    assert!(rt; are_given_keyed(&rows, question.given));
    assert!(rt; question.given.len() <= 4);
    let rows = CountedRows {
        rows: ListRows::try_new(rows).ok_or("rows that rise")?,
        asked: Cell::new(0),
    };
    Ok(Answered {
        rows: answer(reading, &rows, question.request, question.given),
        asked: rows.asked.get(),
    })
}

/// A compound tag, and its member.
fn two_tags(alloc: Global) -> Result<Tags, TagFault>
    ensures { IfOk result (λ tags. length tags ≡ 2) }
{
    let mut tags = Tags::new(alloc);
    tags.add(TagKind::Compound, &[])?;
    tags.add(TagKind::Plain, &[Tag(0)])?;
    Ok(tags)
}

/// The names of the tags.
fn all_names(alloc: Global) -> Result<Vec<Name>, Fail> {
    let mut names = Vec::new(alloc);
    names.push(name_of(alloc, "every")?)?;
    names.push(name_of(alloc, "p")?)?;
    Ok(names)
}

/// A name.
fn name_of(alloc: Global, name: &str) -> Result<Name, Fail> {
    match Name::read(alloc, name) {
        Ok(name) => Ok(name),
        Err(_) => Err(Fail::from("a name")),
    }
}

/// All rows.
fn all_rows(alloc: Global, tags: &Tags, given: &[One]) -> Result<Vec<Shared<Row>>, OutOfMemory>
    requires { length tags.now ≡ 2 }
{
    let mut rows = Vec::new(alloc);
    for one in given {
        rows.push(row_of(alloc, tags, one)?)?;
    }
    Ok(rows)
}

/// A row of a key and its numbers.
fn row_of(alloc: Global, tags: &Tags, one: &One) -> Result<Shared<Row>, OutOfMemory>
    requires { length tags.now ≡ 2 }
{
    let row = Row {
        slot: slot_of(alloc, tags, one)?,
        values: values_of(alloc, one)?,
        refs: Refs::new(),
    };
    Shared::new(alloc, row)
}

/// The slot of a row.
fn slot_of(alloc: Global, tags: &Tags, one: &One) -> Result<Slot, OutOfMemory>
    requires { length tags.now ≡ 2 }
{
    Ok(Slot {
        table: TableId(one.0),
        key: Key::single(alloc, Value::Int(one.1[0]))?,
        label: label_of(alloc, tags, one.2)?,
    })
}

/// A label.
fn label_of(alloc: Global, tags: &Tags, at: At) -> Result<Label, OutOfMemory>
    requires { length tags.now ≡ 2 }
    ensures { IfOk result (λ label. AreMade (length tags.now) label) }
{
    match at {
        At::Low => Label::reduce(alloc, tags, &[]),
        At::High => Label::reduce(alloc, tags, &[Tag(1)]),
        At::Every => Label::reduce(alloc, tags, &[Tag(0)]),
    }
}

/// The values of a row.
fn values_of(alloc: Global, one: &One) -> Result<Values, OutOfMemory> {
    let mut values = Values::with_capacity(alloc, 3)?;
    for number in one.1.iter() {
        values.push(Value::Int(*number))?;
    }
    Ok(values)
}

/// Tests that a case answers these numbers, row by row; a text counts as its length.
pub(crate) fn gives(
    rt: &impl Abort,
    alloc: Global,
    place: usize,
    answered: Answered,
    want: &[i64],
) -> Result<(), Fail> {
    match answered.rows {
        Ok(rows) => are_numbers(rt, alloc, place, &rows, want),
        Err(_) => Err(Fail::from("an answer is wanted")),
    }
}

/// Tests that an answer has these numbers.
fn are_numbers(
    rt: &impl Abort,
    alloc: Global,
    place: usize,
    rows: &ValueRows,
    want: &[i64],
) -> Result<(), Fail> {
    let found = numbers(alloc, rows)?;
    assert_eq!(rt; found.as_slice(), want, "case {place}");
    Ok(())
}

/// The numbers of an answer.
fn numbers(alloc: Global, rows: &ValueRows) -> Result<Vec<i64>, OutOfMemory> {
    let mut all = Vec::new(alloc);
    for row in rows.items() {
        for value in row.items() {
            all.push(number(value))?;
        }
    }
    Ok(all)
}

/// A number, or the length of a text, or -1 for NULL.
fn number(value: &Value) -> i64 {
    match value {
        Value::Null => -1,
        Value::Int(number) => *number,
        Value::Text(text) => i64::try_from(text.as_str().len()).unwrap_or(0),
    }
}
