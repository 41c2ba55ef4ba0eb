// SELECT and its lists.
use crate::condition::Cond;
use crate::expression::{ColumnRef, Expr};
use ifdb_value::{Name, Sequence};

/// A SELECT, as a request of its own or as a view's.
#[derive(Debug, Drop)]
pub struct Select {
    /// What each row of the answer gives.
    pub items: Items,
    /// Behind FROM.
    pub sources: Sources,
    /// Behind WHERE.
    pub cond: Option<Cond>,
    /// Behind GROUP BY; empty where there is none.
    pub group: ColumnRefs,
    /// Behind ORDER BY; empty where there is none.
    pub order: Orders,
}

/// What a SELECT gives of each row or group. `name` is what stands behind AS.
#[derive(Debug, Drop)]
pub enum Item {
    /// `*`, all columns of all sources. It stands alone in its list.
    All,
    /// The value of an expression.
    Expr {
        /// The expression.
        expr: Expr,
        /// The item's name.
        name: Option<Name>,
    },
    /// `LABEL OF source`, the label of the source's row.
    LabelOf {
        /// The source's alias.
        source: Name,
        /// The item's name.
        name: Option<Name>,
    },
    /// `COUNT(*)`, how many rows there are.
    CountAll {
        /// The item's name.
        name: Option<Name>,
    },
    /// `SUM(column)`.
    Sum {
        /// The column.
        column: ColumnRef,
        /// The item's name.
        name: Option<Name>,
    },
    /// `MIN(column)`.
    Min {
        /// The column.
        column: ColumnRef,
        /// The item's name.
        name: Option<Name>,
    },
    /// `MAX(column)`.
    Max {
        /// The column.
        column: ColumnRef,
        /// The item's name.
        name: Option<Name>,
    },
}

/// A table or view behind FROM.
#[derive(Debug, Drop)]
pub struct Source {
    /// The table's or view's name.
    pub name: Name,
    /// The name by which the statement speaks of it; where none is written, its own.
    pub alias: Name,
}

/// A key of ORDER BY.
#[derive(Debug, Drop)]
pub struct Order {
    /// By what to sort.
    pub target: OrderBy,
    /// Whether DESC is written.
    pub descending: bool,
}

/// By what ORDER BY sorts.
#[derive(Debug, Drop)]
pub enum OrderBy {
    /// The item of this name.
    Name(Name),
    /// The item at this place, counted from 1.
    Place(u64),
}

/// Items, in order.
pub type Items = Sequence<Item>;

/// Sources, in order.
pub type Sources = Sequence<Source>;

/// Columns, in order.
pub type ColumnRefs = Sequence<ColumnRef>;

/// Keys of ORDER BY, the first of which counts most.
pub type Orders = Sequence<Order>;
