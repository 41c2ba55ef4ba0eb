// Expressions: what an item gives, and what an assignment writes.
use ifdb_value::{Box, Name, Value};

/// A column by its name, with the alias of its source where one is written: `c` or `s.c`.
#[derive(Debug, Drop)]
pub struct ColumnRef {
    /// The source's alias.
    pub source: Option<Name>,
    /// The column's name.
    pub column: Name,
}

/// An expression over the columns of a row. Parentheses leave no trace: they are in the form of the tree.
#[derive(Debug, Drop)]
pub enum Expr {
    /// The value of a column.
    Column(ColumnRef),
    /// A number or a text.
    Literal(Value),
    /// `left + right`.
    Add(Box<Expr>, Box<Expr>),
    /// `left - right`.
    Sub(Box<Expr>, Box<Expr>),
    /// `left * right`.
    Mul(Box<Expr>, Box<Expr>),
}

/// One side of a comparison.
#[derive(Debug, Drop)]
pub enum Operand {
    /// The value of a column.
    Column(ColumnRef),
    /// A number or a text.
    Literal(Value),
}
