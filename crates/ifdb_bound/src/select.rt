// SELECT with numbers for names.
ghost use Rattle.std.specs.Prelude.{◌≡◌, IfOk};

use crate::OutOfMemory;
use crate::condition::BoundCond;
use crate::expression::{BoundColumn, BoundColumns, BoundExpr};
use crate::schema::Places;
use ifdb_value::{Sequence, TableId, ViewId};
use std::alloc::Global;

/// What stands behind FROM: a table or a view.
#[derive(Clone, Copy, Debug, PartialEq, Eq)]
pub enum Relation {
    /// A table.
    Table(TableId),
    /// A view.
    View(ViewId),
}

/// A source of a SELECT.
#[derive(Debug, Drop)]
pub struct BoundSource {
    /// The table or view.
    pub relation: Relation,
    /// The places of the table's primary key; none for a view.
    pub key: Places,
}

/// What a SELECT gives of each row or group.
#[derive(Debug, Drop)]
pub enum BoundItem {
    /// The value of an expression.
    Expr(BoundExpr),
    /// The label of the row of the source at this place, by the names of its tags.
    LabelOf(usize),
    /// How many rows there are. It stands only where there is one source.
    CountAll,
    /// The sum of a column of numbers.
    Sum(BoundColumn),
    /// The least value of a column.
    Min(BoundColumn),
    /// The greatest value of a column.
    Max(BoundColumn),
}

/// A key of ORDER BY.
#[derive(Clone, Copy, Debug, PartialEq, Eq)]
pub struct OrderKey {
    /// The place of the item to sort by, from 0.
    pub place: usize,
    /// Whether greater values come first.
    pub descending: bool,
}

/// A SELECT, as a request of its own or as a view's.
#[derive(Debug, Drop)]
pub struct BoundSelect {
    /// What each row of the answer gives.
    pub items: BoundItems,
    /// Behind FROM.
    pub sources: BoundSources,
    /// Behind WHERE.
    pub cond: Option<BoundCond>,
    /// Behind GROUP BY; empty where there is none.
    pub group: BoundColumns,
    /// Behind ORDER BY; empty where there is none. The first key counts most.
    pub order: OrderKeys,
}

/// Items, in order.
pub type BoundItems = Sequence<BoundItem>;

/// Sources, in order.
pub type BoundSources = Sequence<BoundSource>;

/// Keys of ORDER BY, the first of which counts most.
pub type OrderKeys = Sequence<OrderKey>;

impl BoundSource {
    /// The same source.
    pub fn copy(&self, alloc: Global) -> Result<BoundSource, OutOfMemory>
        ensures { IfOk result (λ source. source ≡ self.now) }
    {
        let key = self.key.copy(alloc)?;
        Ok(BoundSource {
            relation: self.relation,
            key,
        })
    }
}

impl BoundItem {
    /// The same item. Costs its size, in time and in memory.
    pub fn copy(&self, alloc: Global) -> Result<BoundItem, OutOfMemory>
        ensures { IfOk result (λ item. item ≡ self.now) }
    {
        match self {
            BoundItem::Expr(expr) => Ok(BoundItem::Expr(expr.copy(alloc)?)),
            BoundItem::LabelOf(source) => Ok(BoundItem::LabelOf(*source)),
            BoundItem::CountAll => Ok(BoundItem::CountAll),
            BoundItem::Sum(column) => Ok(BoundItem::Sum(*column)),
            BoundItem::Min(column) => Ok(BoundItem::Min(*column)),
            BoundItem::Max(column) => Ok(BoundItem::Max(*column)),
        }
    }
}

impl BoundSelect {
    /// The same query. Costs its size, in time and in memory.
    pub fn copy(&self, alloc: Global) -> Result<BoundSelect, OutOfMemory>
        ensures { IfOk result (λ select. select ≡ self.now) }
    {
        let items = self
            .items
            .copy_by(alloc, |item: &BoundItem| item.copy(alloc))?;
        let sources = self
            .sources
            .copy_by(alloc, |source: &BoundSource| { source.copy(alloc) })?;
        let cond = copied_where(alloc, &self.cond)?;
        let group = self.group.copy(alloc)?;
        let order = self.order.copy(alloc)?;
        Ok(BoundSelect {
            items,
            sources,
            cond,
            group,
            order,
        })
    }
}

/// The same condition behind WHERE, or none.
fn copied_where(alloc: Global, cond: &Option<BoundCond>) -> Result<Option<BoundCond>, OutOfMemory>
    ensures { IfOk result (λ copy. copy ≡ cond.now) }
{
    match cond {
        Some(cond) => Ok(Some(cond.copy(alloc)?)),
        None => Ok(None),
    }
}
