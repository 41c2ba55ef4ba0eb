//! Requests with numbers for names: what a request comes to once its names are looked up, and what its conditions,
//! expressions and queries mean.
//!
//! A table, a view, a principal and a tag stand as their numbers. A source of a SELECT is its place behind FROM, and a
//! column its place in its source; both count from 0.
#![tactic(auto)]

mod condition;
mod expression;
mod request;
mod schema;
mod select;

pub use condition::{BoundCond, BoundConds};
pub use expression::{BoundColumn, BoundColumns, BoundExpr, BoundOperand};
pub use ifdb_value::{Column, Columns, Names};
pub use request::{Bound, BoundAssignment, BoundAssignments, Change};
pub use schema::{Foreign, Foreigns, Places, Schema, TagList, ViewDef};
pub use select::{
    BoundItem, BoundItems, BoundSelect, BoundSource, BoundSources, OrderKey, OrderKeys, Relation,
};
pub use std::alloc::AllocError as OutOfMemory;
