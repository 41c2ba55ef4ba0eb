//! What is asked.
use ifdb_bound::{
    BoundColumn, BoundCond, BoundExpr, BoundItem, BoundItems, BoundOperand, BoundSelect, OrderKey,
};
use ifdb_row::OutOfMemory;
use ifdb_value::{Compare, Sequence, Value};
use std::alloc::Global;

/// `SELECT COUNT(*) FROM a WHERE a.second < NUMBER`.
pub(crate) fn scan(alloc: Global, number: i64) -> Result<BoundSelect, OutOfMemory> {
    let mut request = select(alloc, BoundItem::CountAll)?;
    request.cond = Some(compared(1, Compare::Less, number));
    Ok(request)
}

/// `SELECT a.third FROM a WHERE a.key = NUMBER`.
pub(crate) fn look_up(alloc: Global, number: i64) -> Result<BoundSelect, OutOfMemory> {
    let mut request = select(alloc, item(0, 2))?;
    request.cond = Some(compared(0, Compare::Equal, number));
    Ok(request)
}

/// `SELECT a.third FROM a WHERE a.key > NUMBER AND a.key < OTHER`.
pub(crate) fn range(alloc: Global, number: i64, other: i64) -> Result<BoundSelect, OutOfMemory> {
    let mut request = select(alloc, item(0, 2))?;
    let mut bounds = Sequence::single(alloc, compared(0, Compare::Greater, number))?;
    bounds.push(compared(0, Compare::Less, other))?;
    request.cond = Some(BoundCond::And(bounds));
    Ok(request)
}

/// `SELECT a.key, b.key FROM a, b WHERE a.COLUMN = b.COLUMN`.
pub(crate) fn join(alloc: Global, column: usize) -> Result<BoundSelect, OutOfMemory> {
    let mut request = select(alloc, item(0, 0))?;
    request.items.push(item(1, 0))?;
    request.cond = Some(BoundCond::Compare {
        left: BoundOperand::Column(BoundColumn { source: 0, column }),
        how: Compare::Equal,
        right: BoundOperand::Column(BoundColumn { source: 1, column }),
    });
    Ok(request)
}

/// `SELECT a.second, COUNT(*), SUM(a.third) FROM a GROUP BY a.second`.
pub(crate) fn groups(alloc: Global) -> Result<BoundSelect, OutOfMemory> {
    let mut request = select(alloc, item(0, 1))?;
    request.items.push(BoundItem::CountAll)?;
    request.items.push(BoundItem::Sum(BoundColumn {
        source: 0,
        column: 2,
    }))?;
    request.group.push(BoundColumn {
        source: 0,
        column: 1,
    })?;
    Ok(request)
}

/// `SELECT a.key, a.third FROM a ORDER BY a.third`.
pub(crate) fn order(alloc: Global) -> Result<BoundSelect, OutOfMemory> {
    let mut request = select(alloc, item(0, 0))?;
    request.items.push(item(0, 2))?;
    request.order.push(OrderKey {
        place: 1,
        descending: false,
    })?;
    Ok(request)
}

fn item(source: usize, column: usize) -> BoundItem {
    BoundItem::Expr(BoundExpr::Column(BoundColumn { source, column }))
}

/// A column of the first table compared with a number.
fn compared(column: usize, how: Compare, number: i64) -> BoundCond {
    BoundCond::Compare {
        left: BoundOperand::Column(BoundColumn { source: 0, column }),
        how,
        right: BoundOperand::Literal(Value::Int(number)),
    }
}

/// A SELECT of one item.
fn select(alloc: Global, item: BoundItem) -> Result<BoundSelect, OutOfMemory> {
    Ok(BoundSelect {
        items: BoundItems::single(alloc, item)?,
        sources: Sequence::new(alloc),
        cond: None,
        group: Sequence::new(alloc),
        order: Sequence::new(alloc),
    })
}
