//! The parts of requests.
use ifdb_bound::{
    BoundColumn, BoundCond, BoundExpr, BoundItem, BoundItems, BoundOperand, BoundSelect,
};
use ifdb_row::OutOfMemory;
use ifdb_value::{Compare, Sequence, Value};
use std::alloc::Global;

/// A SELECT of these items; where the rows of its sources are is said beside it.
pub(crate) fn select(alloc: Global, items: BoundItems, cond: Option<BoundCond>) -> BoundSelect {
    BoundSelect {
        items,
        sources: Sequence::new(alloc),
        cond,
        group: Sequence::new(alloc),
        order: Sequence::new(alloc),
    }
}

/// Two items.
pub(crate) fn two_items(
    alloc: Global,
    first: BoundItem,
    second: BoundItem,
) -> Result<BoundItems, OutOfMemory> {
    let mut items = BoundItems::single(alloc, first)?;
    items.push(second)?;
    Ok(items)
}

/// A column of a source.
pub(crate) fn column(source: usize, column: usize) -> BoundColumn {
    BoundColumn { source, column }
}

/// The value in a column of a source.
pub(crate) fn item(source: usize, place: usize) -> BoundItem {
    BoundItem::Expr(BoundExpr::Column(column(source, place)))
}

/// An equality of two columns.
pub(crate) fn equal(left: BoundColumn, right: BoundColumn) -> BoundCond {
    BoundCond::Compare {
        left: BoundOperand::Column(left),
        how: Compare::Equal,
        right: BoundOperand::Column(right),
    }
}

/// An equality of a column and a number.
pub(crate) fn equals(left: BoundColumn, number: i64) -> BoundCond {
    compared(left, Compare::Equal, number)
}

/// A column compared with a number.
pub(crate) fn compared(left: BoundColumn, how: Compare, number: i64) -> BoundCond {
    BoundCond::Compare {
        left: BoundOperand::Column(left),
        how,
        right: BoundOperand::Literal(Value::Int(number)),
    }
}
