//! Tests of group commit: threads that share a sum, over a disk in memory that fails, and what a crash leaves.
#![tactic(auto)]

mod shop;
mod tally;
#[cfg(test)]
mod tests;

pub use shop::{Hands, Shop};
pub use tally::{Entry, Tally};
