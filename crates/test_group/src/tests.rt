// Rows, groups, sums and order of a few combinations.
use ifdb_bound::{BoundColumn, BoundExpr, BoundItem, BoundItems, OrderKey};
use ifdb_expr::{ExprFault, Frame, SeenRow};
use ifdb_group::{AnswerRows, Groups, Sink, Total, sorted};
use ifdb_label::Tag;
use ifdb_row::OutOfMemory;
use ifdb_value::{Name, Sequence, Value, ValueRow, ValueRows, Word};
use std::alloc::Global;
use std::process::Abort;
use std::test::Fail;

/// Rows of a number and a text, in their order.
static ROWS: [(i64, &str); 5] = [(3, "b"), (1, "a"), (3, "a"), (1, "b"), (3, "b")];

/// The values of rows.
fn value_rows(alloc: Global, rows: &[(i64, &str)]) -> Result<ValueRows, OutOfMemory> {
    let mut all = ValueRows::new(alloc);
    for (number, text) in rows {
        let word = Word::of(alloc, text)?;
        all.push(row_of_two(alloc, Value::Int(*number), Value::Text(word))?)?;
    }
    Ok(all)
}

fn row_of_two(alloc: Global, first: Value, second: Value) -> Result<ValueRow, OutOfMemory> {
    Ok(ValueRow::from_vec(Vec::from_array(alloc, [first, second])?))
}

/// Gives each row to a sink.
fn give<'a>(
    sink: &mut Sink<'a>,
    rows: &'a [ValueRow],
    label: &'a [Tag],
) -> Result<(), OutOfMemory> {
    for row in rows {
        let frame = Frame::empty().with(SeenRow {
            values: row.items(),
            label,
        });
        sink.take(&frame)?;
    }
    Ok(())
}

/// The rows of the groups by some columns.
fn grouped<'a>(
    alloc: Global,
    rows: &'a [ValueRow],
    items: &'a [BoundItem],
    columns: &'a [BoundColumn],
) -> Result<ValueRows, Fail> {
    let mut sink = Sink::Groups(Groups::new(alloc, items, columns));
    give(&mut sink, rows, &[])?;
    Ok(rows_of(alloc, sink).ok().ok_or("groups")?)
}

/// The rows of an answer over rows at one label.
fn labelled<'a>(
    alloc: Global,
    rows: &'a [ValueRow],
    names: &'a [Name],
    items: &'a [BoundItem],
    label: &'a [Tag],
) -> Result<ValueRows, Fail> {
    let mut sink = Sink::Rows(AnswerRows::new(alloc, names, items));
    give(&mut sink, rows, label)?;
    Ok(rows_of(alloc, sink).ok().ok_or("rows")?)
}

/// The rows that a sink gives, beside those of a total.
fn rows_of(alloc: Global, sink: Sink<'_>) -> Result<ValueRows, ExprFault> {
    match sink {
        Sink::Rows(rows) => rows.rows(),
        Sink::Groups(groups) => groups.rows(&[]),
        _ => Ok(ValueRows::new(alloc)),
    }
}

/// Tests that rows are these, each written as its values with a space behind each.
fn are(rt: &impl Abort, alloc: Global, rows: &ValueRows, want: &[&str]) -> Result<(), Fail> {
    assert_eq!(rt; rows.len(), want.len());
    for (row, wanted) in rows.items().iter().zip(want) {
        let text = shown(alloc, row.items())?;
        assert_eq!(rt; text.as_str(), *wanted);
    }
    Ok(())
}

/// Values, each with a space behind it.
fn shown(alloc: Global, values: &[Value]) -> Result<String, Fail> {
    let mut text = String::new(alloc);
    for value in values {
        show(&mut text, value)?;
    }
    Ok(text)
}

fn show(text: &mut String, value: &Value) -> Result<(), Fail> {
    match value {
        Value::Null => text.push_str("null ")?,
        Value::Int(number) => write!(text, "{number} ")?,
        Value::Text(word) => write!(text, "{} ", word.as_str())?,
    }
    Ok(())
}

fn column(column: usize) -> BoundColumn {
    BoundColumn { source: 0, column }
}

fn item(place: usize) -> BoundItem {
    BoundItem::Expr(BoundExpr::Column(column(place)))
}

#[test]
fn groups_come_as_they_appear(rt: HostRuntime) -> Result<(), Fail> {
    let alloc = rt.alloc();
    let rows = value_rows(alloc, &ROWS)?;
    let mut items = BoundItems::single(alloc, item(1))?;
    items.push(item(0))?;
    items.push(BoundItem::CountAll)?;
    items.push(BoundItem::Sum(column(0)))?;
    let columns = [column(1), column(0)];
    let found = grouped(alloc, rows.items(), items.items(), &columns)?;
    are(
        &rt,
        alloc,
        &found,
        &["b 3 2 6 ", "a 1 1 1 ", "a 3 1 3 ", "b 1 1 1 "],
    )
}

#[test]
fn least_and_greatest_of_texts(rt: HostRuntime) -> Result<(), Fail> {
    let alloc = rt.alloc();
    let rows = value_rows(alloc, &ROWS)?;
    let mut items = BoundItems::single(alloc, item(0))?;
    items.push(BoundItem::Min(column(1)))?;
    items.push(BoundItem::Max(column(1)))?;
    let columns = [column(0)];
    let found = grouped(alloc, rows.items(), items.items(), &columns)?;
    are(&rt, alloc, &found, &["3 a b ", "1 a b "])
}

/// What COUNT(*) and SUM give of some numbers.
fn total(alloc: Global, rows: &[(i64, &str)]) -> Result<Result<ValueRow, ExprFault>, Fail> {
    let rows = value_rows(alloc, rows)?;
    let mut items = BoundItems::single(alloc, BoundItem::CountAll)?;
    items.push(BoundItem::Sum(column(0)))?;
    Ok(total_of(alloc, rows.items(), items.items())?)
}

/// The row of a total.
fn total_of<'a>(
    alloc: Global,
    rows: &'a [ValueRow],
    items: &'a [BoundItem],
) -> Result<Result<ValueRow, ExprFault>, OutOfMemory> {
    let mut sink = Sink::Total(Total::new(alloc, items)?);
    give(&mut sink, rows, &[])?;
    Ok(match &sink {
        Sink::Total(total) => total.row(alloc, &[]),
        _ => Err(ExprFault::OutOfMemory),
    })
}

#[test]
fn a_sum_is_judged_at_its_end(rt: HostRuntime) -> Result<(), Fail> {
    let alloc = rt.alloc();
    let within = total(alloc, &[(i64::MAX, ""), (1, ""), (-1, "")])?;
    let mut rows = ValueRows::new(alloc);
    rows.push(within.ok().ok_or("a sum")?)?;
    are(&rt, alloc, &rows, &["3 9223372036854775807 "])?;
    let beyond = total(alloc, &[(i64::MIN, ""), (-1, "")])?;
    assert!(rt; matches!(beyond, Err(ExprFault::OutOfRange)));
    let mut none = ValueRows::new(alloc);
    none.push(total(alloc, &[])?.ok().ok_or("a sum")?)?;
    are(&rt, alloc, &none, &["0 null "])
}

/// Rows of a number or NULL, and of a text or NULL.
static WITH_NULL: [(Option<i64>, Option<&str>); 4] = [
    (None, None),
    (Some(7), None),
    (None, Some("a")),
    (Some(-9), None),
];

fn rows_with_null(alloc: Global) -> Result<ValueRows, OutOfMemory> {
    let mut all = ValueRows::new(alloc);
    for (number, text) in &WITH_NULL {
        all.push(row_with_null(alloc, *number, *text)?)?;
    }
    Ok(all)
}

fn row_with_null(
    alloc: Global,
    number: Option<i64>,
    text: Option<&str>,
) -> Result<ValueRow, OutOfMemory> {
    let second = text_or_null(alloc, text)?;
    let first = match number {
        Some(number) => Value::Int(number),
        None => Value::Null,
    };
    row_of_two(alloc, first, second)
}

fn text_or_null(alloc: Global, text: Option<&str>) -> Result<Value, OutOfMemory> {
    match text {
        Some(text) => Ok(Value::Text(Word::of(alloc, text)?)),
        None => Ok(Value::Null),
    }
}

/// COUNT(*), and SUM, MIN and MAX of the first column and of the second.
fn aggregates(alloc: Global) -> Result<BoundItems, OutOfMemory> {
    let mut items = BoundItems::single(alloc, BoundItem::CountAll)?;
    items.push(BoundItem::Sum(column(0)))?;
    items.push(BoundItem::Min(column(0)))?;
    items.push(BoundItem::Max(column(1)))?;
    Ok(items)
}

#[test]
fn null_is_left_out_of_sums_and_ends(rt: HostRuntime) -> Result<(), Fail> {
    let alloc = rt.alloc();
    let rows = rows_with_null(alloc)?;
    let items = aggregates(alloc)?;
    let row = total_of(alloc, rows.items(), items.items())?;
    let found = ValueRows::single(alloc, row.ok().ok_or("a row")?)?;
    are(&rt, alloc, &found, &["4 -2 -9 a "])
}

#[test]
fn null_is_a_group_and_comes_first(rt: HostRuntime) -> Result<(), Fail> {
    let alloc = rt.alloc();
    let rows = rows_with_null(alloc)?;
    let mut items = aggregates(alloc)?;
    items.push(item(1))?;
    let columns = [column(1)];
    let found = grouped(alloc, rows.items(), items.items(), &columns)?;
    are(
        &rt,
        alloc,
        &found,
        &["3 -2 -9 null null ", "1 null null a a "],
    )?;
    let falling = [order_key(1, true), order_key(0, false)];
    let turned = sorted(&falling, rows_with_null(alloc)?)?;
    are(
        &rt,
        alloc,
        &turned,
        &["null a ", "null null ", "-9 null ", "7 null "],
    )
}

fn name(alloc: Global, text: &str) -> Result<Name, Fail> {
    Ok(Name::read(alloc, text).ok().ok_or("a name")?)
}

fn two_names(alloc: Global) -> Result<Vec<Name>, Fail> {
    let first = name(alloc, "p")?;
    let second = name(alloc, "q")?;
    Ok(Vec::from_array(alloc, [first, second])?)
}

#[test]
fn rows_name_their_labels(rt: HostRuntime) -> Result<(), Fail> {
    let alloc = rt.alloc();
    let rows = value_rows(alloc, &ROWS[..1])?;
    let names = two_names(alloc)?;
    let mut items = BoundItems::single(alloc, item(0))?;
    items.push(BoundItem::LabelOf(0))?;
    let label = [Tag(0), Tag(1)];
    let found = labelled(alloc, rows.items(), &names, items.items(), &label)?;
    are(&rt, alloc, &found, &["3 {p,q} "])
}

/// Tests the order of the rows by some of their columns.
fn come_as(rt: &impl Abort, alloc: Global, keys: &[OrderKey], want: &[&str]) -> Result<(), Fail> {
    let found = sorted(keys, value_rows(alloc, &ROWS)?)?;
    are(rt, alloc, &found, want)
}

fn order_key(place: usize, descending: bool) -> OrderKey {
    OrderKey { place, descending }
}

#[test]
fn order_keeps_ties(rt: HostRuntime) -> Result<(), Fail> {
    let alloc = rt.alloc();
    let rising = [order_key(0, false)];
    come_as(
        &rt,
        alloc,
        &rising,
        &["1 a ", "1 b ", "3 b ", "3 a ", "3 b "],
    )?;
    let falling = [order_key(0, true)];
    come_as(
        &rt,
        alloc,
        &falling,
        &["3 b ", "3 a ", "3 b ", "1 a ", "1 b "],
    )?;
    let both = [order_key(1, true), order_key(0, false)];
    come_as(&rt, alloc, &both, &["1 b ", "3 b ", "3 b ", "1 a ", "3 a "])
}
