//! What expressions and conditions give on one row of each source, what a SELECT answers over rows with labels, and what
//! rows a view has.
//!
//! `value` and `holds` are code, over rows by reference. The answer of a SELECT and the rows of a view are definitions,
//! which the crates above meet. Declassifying views are those of IFDB (D. Schultz and B. Liskov, EuroSys 2013) in kind;
//! their exact rules are this project's own.
#![tactic(auto)]

mod condition;
mod decision;
mod expression;
mod fault;
mod frame;
mod laws;
mod seen_row;
mod value_ref;

pub use condition::{holds, operand};
pub use decision::last_source;
pub use expression::value;
pub use fault::ExprFault;
pub use frame::Frame;
pub use laws::{authority_comes_first, view_rows_are_seen};
pub use seen_row::{SeenRow, compare_at, value_in};
pub use std::alloc::AllocError as OutOfMemory;
pub use value_ref::ValueRef;
