//! What becomes of the combinations of rows that a SELECT finds: rows of the answer, groups, counts, sums, and order.
//!
//! Combinations are given one by one to a `Sink`, which keeps no more of them than its answer needs.
#![tactic(auto)]

mod answer_rows;
mod collect;
mod groups;
mod keys;
mod label_text;
mod order;
mod sink;
mod table;
mod tally;
mod total;

pub use answer_rows::{AnswerRows, answer_row};
pub use groups::Groups;
pub use order::sorted;
pub use sink::Sink;
pub use std::alloc::AllocError as OutOfMemory;
pub use total::Total;
