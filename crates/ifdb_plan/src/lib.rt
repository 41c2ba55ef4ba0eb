//! What a condition says of the rows of its sources before they are looked at: which parts of it are decided when, and
//! which rows of a source it finds by a column.
#![tactic(auto)]

mod equation;
mod keyed;
mod range;
mod source_key;
mod test;

pub use equation::{Equation, equation_in};
pub use keyed::are_keyed;
pub use range::{cond_range, key_range};
pub use source_key::{key_beside, key_operands};
pub use std::alloc::AllocError as OutOfMemory;
pub use test::{Test, hold_at, hold_from, tests};
