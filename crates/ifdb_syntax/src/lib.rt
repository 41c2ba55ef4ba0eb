//! The language of requests: their trees, the written grammar as definitions, and the canonical text of each tree.
#![tactic(auto)]

mod canonical;
mod condition;
mod edge;
mod expression;
mod laws;
mod lexeme;
mod place;
mod printer;
mod printing;
mod request;
mod select;

pub use condition::{Cond, Conds};
pub use edge::Edge;
pub use expression::{ColumnRef, Expr, Operand};
pub use laws::{
    bounded_keeps_within, bounded_line_is_written, bounded_reads_alike, canonical_is_line,
    examples_are_written_so, kinds_differ, line_has_shape,
};
pub use lexeme::Lexeme;
pub use place::{CondPlace, ExprPlace};
pub use printing::print;
pub use request::{Assignment, Assignments, ForeignKey, ForeignKeys, Request};
pub use select::{ColumnRefs, Item, Items, Order, OrderBy, Orders, Select, Source, Sources};
