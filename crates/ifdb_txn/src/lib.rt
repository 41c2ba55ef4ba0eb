//! What a statement writes: INSERT, UPDATE and DELETE over any rows, with their first refusal.
//!
//! A statement sees the rows whose labels flow to its label, writes at its label alone, and binds the parents of what it
//! writes. Nothing is changed here: the writes are a value, which a transaction keeps or a commit installs.
#![tactic(auto)]

mod assigned;
mod insert;
mod matched;
mod parents;
mod statement;
mod target;
mod update;
mod written;

pub use statement::{Writer, writes_of};
pub use std::alloc::AllocError as OutOfMemory;
pub use written::Written;

#[cfg(test)]
mod tests;
