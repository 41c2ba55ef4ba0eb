//! The requests of the cases.
use super::Asks;
use ifdb_bound::{
    BoundColumn, BoundCond, BoundExpr, BoundItem, BoundItems, BoundOperand, BoundSelect,
    BoundSource, BoundSources, OrderKey, OrderKeys, Relation,
};
use ifdb_value::{Compare, Sequence, TableId, Value, ViewId};
use ifdb_view::OutOfMemory;
use std::alloc::Global;

/// A request.
pub(crate) fn request_of(alloc: Global, asks: Asks) -> Result<BoundSelect, OutOfMemory> {
    match asks {
        Asks::Pairs => pairs(alloc, table(0)),
        Asks::AtMostTen => pairs_where(alloc, at_most_ten()),
        Asks::KeyThree => pairs_where(alloc, key_three()),
        Asks::Sorted => sorted(alloc),
        Asks::Joined => joined(alloc),
        Asks::Grouped => grouped(alloc),
        Asks::Summed => summed(alloc),
        Asks::Shown => pairs(alloc, Relation::View(ViewId(0))),
    }
}

/// `SELECT key, number FROM relation`.
pub(crate) fn pairs(alloc: Global, relation: Relation) -> Result<BoundSelect, OutOfMemory> {
    let items = two_items(alloc, value_of(0, 0), value_of(0, 1))?;
    Ok(select(alloc, items, one_source(alloc, relation)?, None))
}

/// `SELECT key, number FROM 0 WHERE cond`.
fn pairs_where(alloc: Global, cond: BoundCond) -> Result<BoundSelect, OutOfMemory> {
    let sources = one_source(alloc, table(0))?;
    let items = two_items(alloc, value_of(0, 0), value_of(0, 1))?;
    Ok(select(alloc, items, sources, Some(cond)))
}

/// `number <= 10`.
fn at_most_ten() -> BoundCond {
    BoundCond::Compare {
        left: BoundOperand::Column(column(0, 1)),
        how: Compare::AtMost,
        right: BoundOperand::Literal(Value::Int(10)),
    }
}

/// `3 = key`.
fn key_three() -> BoundCond {
    BoundCond::Compare {
        left: BoundOperand::Literal(Value::Int(3)),
        how: Compare::Equal,
        right: BoundOperand::Column(column(0, 0)),
    }
}

/// `SELECT key, number FROM 0 ORDER BY number DESC, key DESC`.
fn sorted(alloc: Global) -> Result<BoundSelect, OutOfMemory> {
    Ok(BoundSelect {
        items: two_items(alloc, value_of(0, 0), value_of(0, 1))?,
        sources: one_source(alloc, table(0))?,
        cond: None,
        group: Sequence::new(alloc),
        order: falling(alloc)?,
    })
}

/// `ORDER BY`, of two items, `2 DESC, 1 DESC`.
fn falling(alloc: Global) -> Result<OrderKeys, OutOfMemory> {
    let mut order = OrderKeys::single(alloc, order_key(1, true))?;
    order.push(order_key(0, true))?;
    Ok(order)
}

/// The item at a place, to sort by.
fn order_key(place: usize, descending: bool) -> OrderKey {
    OrderKey { place, descending }
}

/// `SELECT a.key, b.key FROM 0 AS a, 1 AS b WHERE a.key = b.number`.
fn joined(alloc: Global) -> Result<BoundSelect, OutOfMemory> {
    let items = two_items(alloc, value_of(0, 0), value_of(1, 0))?;
    let sources = two_sources(alloc)?;
    Ok(select(alloc, items, sources, Some(key_is_number())))
}

/// `a.key = b.number`.
fn key_is_number() -> BoundCond {
    BoundCond::Compare {
        left: BoundOperand::Column(column(0, 0)),
        how: Compare::Equal,
        right: BoundOperand::Column(column(1, 1)),
    }
}

/// `SELECT number, COUNT(*), SUM(key) FROM 0 GROUP BY number ORDER BY number`.
fn grouped(alloc: Global) -> Result<BoundSelect, OutOfMemory> {
    Ok(BoundSelect {
        items: group_items(alloc)?,
        sources: one_source(alloc, table(0))?,
        cond: None,
        group: Sequence::single(alloc, column(0, 1))?,
        order: OrderKeys::single(alloc, order_key(0, false))?,
    })
}

/// `number, COUNT(*), SUM(key)`.
fn group_items(alloc: Global) -> Result<BoundItems, OutOfMemory> {
    let mut items = two_items(alloc, value_of(0, 1), BoundItem::CountAll)?;
    items.push(BoundItem::Sum(column(0, 0)))?;
    Ok(items)
}

/// `SELECT SUM(number), COUNT(*) FROM 2`.
fn summed(alloc: Global) -> Result<BoundSelect, OutOfMemory> {
    let items = two_items(alloc, BoundItem::Sum(column(0, 1)), BoundItem::CountAll)?;
    Ok(select(alloc, items, one_source(alloc, table(2))?, None))
}

/// `SELECT items FROM sources WHERE cond`.
fn select(
    alloc: Global,
    items: BoundItems,
    sources: BoundSources,
    cond: Option<BoundCond>,
) -> BoundSelect {
    BoundSelect {
        items,
        sources,
        cond,
        group: Sequence::new(alloc),
        order: Sequence::new(alloc),
    }
}

/// One source.
fn one_source(alloc: Global, relation: Relation) -> Result<BoundSources, OutOfMemory> {
    BoundSources::single(alloc, source_of(alloc, relation)?)
}

/// The first two tables.
fn two_sources(alloc: Global) -> Result<BoundSources, OutOfMemory> {
    let mut sources = one_source(alloc, table(0))?;
    sources.push(source_of(alloc, table(1))?)?;
    Ok(sources)
}

/// A source; the key of each table is its first column.
fn source_of(alloc: Global, relation: Relation) -> Result<BoundSource, OutOfMemory> {
    let key = match relation {
        Relation::Table(_) => Sequence::single(alloc, 0)?,
        Relation::View(_) => Sequence::new(alloc),
    };
    Ok(BoundSource { relation, key })
}

/// Two items.
fn two_items(
    alloc: Global,
    first: BoundItem,
    second: BoundItem,
) -> Result<BoundItems, OutOfMemory> {
    let mut items = BoundItems::single(alloc, first)?;
    items.push(second)?;
    Ok(items)
}

/// A table.
fn table(number: u64) -> Relation {
    Relation::Table(TableId(number))
}

/// A column of a source.
fn column(source: usize, column: usize) -> BoundColumn {
    BoundColumn { source, column }
}

/// The value in a column of a source.
fn value_of(source: usize, place: usize) -> BoundItem {
    BoundItem::Expr(BoundExpr::Column(column(source, place)))
}
